//! The numbers of a program in hand are those that their types hold: what the law of printing goes over.
ghost use Rattle.ac_program_printer.specs.Names.{IsUnsigned, IsSigned, FitsExpr, FitsIndex, FitsCond, FitsStmt, FitsList, FitsExtent, FitsExtents, FitsKind, FitsItems};

use ac_tree::{
    Cond, CondKind, Expr, ExprKind, Extent, Extents, Index, Item, ItemKind, Stmt, StmtKind,
};

/// A number without a sign.
fn fit_number(number: u64)
    ensures { IsUnsigned number }
{
    let _value = number;
}

/// A number with a sign.
fn fit_int(number: i64)
    ensures { IsSigned number }
{
    let _value = number;
}

#[cycle(fit_expr)]
#[tactic(auto, unfolding(crate::specs::Opened::hidden, crate::specs::Opened::expr_shape, crate::specs::Opened::expr_child))]
fn fit_expr(expr: &Expr)
    ensures { FitsExpr expr.now.kind }
{
    match &expr.kind {
        ExprKind::Num(number) => fit_number(*number),
        ExprKind::Get(_) => {}
        ExprKind::Read(_, index) => fit_index(index),
        ExprKind::Neg(operand) => fit_expr(operand.get()),
        ExprKind::Add(left, right) => {
            fit_expr(left.get());
            fit_expr(right.get());
        }
        ExprKind::Sub(left, right) => {
            fit_expr(left.get());
            fit_expr(right.get());
        }
        ExprKind::Mul(left, right) => {
            fit_expr(left.get());
            fit_expr(right.get());
        }
    }
}

#[cycle(fit_expr)]
#[tactic(auto, unfolding(crate::specs::Opened::hidden, crate::specs::Opened::expr_shape, crate::specs::Opened::expr_child))]
fn fit_index(index: &Index)
    ensures { FitsIndex index.now }
{
    match index {
        Index::One(only) => fit_expr(only.get()),
        Index::Two(row, column) => {
            fit_expr(row.get());
            fit_expr(column.get());
        }
    }
}

#[tactic(auto, unfolding(crate::specs::Opened::hidden, crate::specs::Opened::cond_shape, crate::specs::Opened::cond_child))]
fn fit_cond(cond: &Cond)
    ensures { FitsCond cond.now.kind }
{
    match &cond.kind {
        CondKind::True | CondKind::False => {}
        CondKind::Rel(_, left, right) => {
            fit_expr(left.get());
            fit_expr(right.get());
        }
        CondKind::Not(operand) => fit_cond(operand.get()),
        CondKind::And(left, right) => {
            fit_cond(left.get());
            fit_cond(right.get());
        }
        CondKind::Or(left, right) => {
            fit_cond(left.get());
            fit_cond(right.get());
        }
    }
}

#[cycle(fit_stmt)]
#[tactic(auto, using(crate::proofs::PrintRules::print_rules))]
fn fit_stmt(stmt: &Stmt)
    ensures { FitsStmt stmt.now.kind }
{
    match &stmt.kind {
        StmtKind::Set { name: _, value } => fit_expr(value),
        StmtKind::Put {
            name: _,
            index,
            value,
        } => {
            fit_index(index);
            fit_expr(value);
        }
        StmtKind::If { test, yes, no } => {
            fit_cond(test);
            fit_block(yes.as_slice());
            fit_block(no.as_slice());
        }
        StmtKind::For {
            name: _,
            lo,
            hi,
            body,
        } => {
            fit_expr(lo);
            fit_expr(hi);
            fit_block(body.as_slice());
        }
        StmtKind::While { test, body } => {
            fit_cond(test);
            fit_block(body.as_slice());
        }
        StmtKind::Hand { name: _, role: _ } => {}
        StmtKind::Skip => {}
    }
}

/// Each statement of a block.
#[cycle(fit_stmt)]
#[tactic(auto, using(crate::proofs::PrintRules::print_rules))]
pub fn fit_block(block: &[Stmt])
    ensures { FitsList block.now }
{
    for stmt in block {
        fit_stmt(stmt);
    }
}

fn fit_extent(extent: &Extent)
    ensures { FitsExtent extent.now }
{
    match extent {
        Extent::Lit(number) => fit_number(*number),
        Extent::Named(_) => {}
    }
}

fn fit_extents(extents: &Extents)
    ensures { FitsExtents extents.now }
{
    match extents {
        Extents::One(only) => fit_extent(only),
        Extents::Two(rows, columns) => {
            fit_extent(rows);
            fit_extent(columns);
        }
    }
}

fn fit_kind(kind: &ItemKind)
    ensures { FitsKind kind.now }
{
    match kind {
        ItemKind::Const { value } => fit_int(*value),
        ItemKind::InputScalar { lo, hi } => {
            fit_int(*lo);
            fit_int(*hi);
        }
        ItemKind::InputArray { extents, lo, hi } => {
            fit_extents(extents);
            fit_int(*lo);
            fit_int(*hi);
        }
        ItemKind::VarScalar => {}
        ItemKind::VarArray { extents } => fit_extents(extents),
    }
}

/// Each declaration.
pub fn fit_items(items: &[Item])
    ensures { FitsItems items.now }
{
    for item in items {
        fit_kind(&item.kind);
    }
}
