//! Copies of expressions, conditions and statements. Of a statement its blocks are copied first: little is held where a later
//! copy fails.
ghost use Rattle.std.specs.Prelude.{◌≡◌, IfOk};

use ac_tree::{Cond, CondKind, Expr, ExprKind, Index, Stmt, StmtKind};
use sqlite_items::{Boxed, Items};
use std::alloc::{AllocError, Global};

/// The expression again.
#[cycle(expr)]
pub fn copy_expr(alloc: Global, expr: &Expr) -> Result<Expr, AllocError>
    ensures { IfOk result (λ copy. copy ≡ expr.now) }
{
    let kind = copy_expr_kind(alloc, &expr.kind)?;
    Ok(Expr {
        node: expr.node,
        kind,
    })
}

#[cycle(expr)]
fn copy_expr_kind(alloc: Global, kind: &ExprKind) -> Result<ExprKind, AllocError>
    ensures { IfOk result (λ copy. copy ≡ kind.now) }
{
    match kind {
        ExprKind::Num(number) => Ok(ExprKind::Num(*number)),
        ExprKind::Get(name) => {
            let name = name.clone()?;
            Ok(ExprKind::Get(name))
        }
        ExprKind::Read(name, index) => {
            let name = name.clone()?;
            let index = copy_index(alloc, index)?;
            Ok(ExprKind::Read(name, index))
        }
        ExprKind::Neg(inner) => {
            let inner = copy_boxed_expr(alloc, inner)?;
            Ok(ExprKind::Neg(inner))
        }
        ExprKind::Add(left, right) => {
            let left = copy_boxed_expr(alloc, left)?;
            let right = copy_boxed_expr(alloc, right)?;
            Ok(ExprKind::Add(left, right))
        }
        ExprKind::Sub(left, right) => {
            let left = copy_boxed_expr(alloc, left)?;
            let right = copy_boxed_expr(alloc, right)?;
            Ok(ExprKind::Sub(left, right))
        }
        ExprKind::Mul(left, right) => {
            let left = copy_boxed_expr(alloc, left)?;
            let right = copy_boxed_expr(alloc, right)?;
            Ok(ExprKind::Mul(left, right))
        }
    }
}

#[cycle(expr)]
fn copy_index(alloc: Global, index: &Index) -> Result<Index, AllocError>
    ensures { IfOk result (λ copy. copy ≡ index.now) }
{
    match index {
        Index::One(only) => {
            let only = copy_boxed_expr(alloc, only)?;
            Ok(Index::One(only))
        }
        Index::Two(row, column) => {
            let row = copy_boxed_expr(alloc, row)?;
            let column = copy_boxed_expr(alloc, column)?;
            Ok(Index::Two(row, column))
        }
    }
}

#[cycle(expr)]
fn copy_boxed_expr(alloc: Global, expr: &Boxed<Expr>) -> Result<Boxed<Expr>, AllocError>
    ensures { IfOk result (λ copy. copy ≡ expr.now) }
{
    let expr = copy_expr(alloc, expr.get())?;
    Boxed::new(alloc, expr)
}

/// The condition again.
#[cycle(cond)]
pub fn copy_cond(alloc: Global, cond: &Cond) -> Result<Cond, AllocError>
    ensures { IfOk result (λ copy. copy ≡ cond.now) }
{
    let kind = copy_cond_kind(alloc, &cond.kind)?;
    Ok(Cond {
        node: cond.node,
        kind,
    })
}

#[cycle(cond)]
fn copy_cond_kind(alloc: Global, kind: &CondKind) -> Result<CondKind, AllocError>
    ensures { IfOk result (λ copy. copy ≡ kind.now) }
{
    match kind {
        CondKind::True => Ok(CondKind::True),
        CondKind::False => Ok(CondKind::False),
        CondKind::Rel(relation, left, right) => {
            let left = copy_boxed_expr(alloc, left)?;
            let right = copy_boxed_expr(alloc, right)?;
            Ok(CondKind::Rel(*relation, left, right))
        }
        CondKind::Not(inner) => {
            let inner = copy_boxed_cond(alloc, inner)?;
            Ok(CondKind::Not(inner))
        }
        CondKind::And(left, right) => {
            let left = copy_boxed_cond(alloc, left)?;
            let right = copy_boxed_cond(alloc, right)?;
            Ok(CondKind::And(left, right))
        }
        CondKind::Or(left, right) => {
            let left = copy_boxed_cond(alloc, left)?;
            let right = copy_boxed_cond(alloc, right)?;
            Ok(CondKind::Or(left, right))
        }
    }
}

#[cycle(cond)]
fn copy_boxed_cond(alloc: Global, cond: &Boxed<Cond>) -> Result<Boxed<Cond>, AllocError>
    ensures { IfOk result (λ copy. copy ≡ cond.now) }
{
    let cond = copy_cond(alloc, cond.get())?;
    Boxed::new(alloc, cond)
}

/// The index and the value of an assignment again.
fn copy_cell(alloc: Global, index: &Index, value: &Expr) -> Result<(Index, Expr), AllocError>
    ensures { IfOk result (λ copies. copies ≡ (index.now, value.now)) }
{
    let index = copy_index(alloc, index)?;
    match copy_expr(alloc, value) {
        Ok(value) => Ok((index, value)),
        Err(error) => {
            drop(index);
            Err(error)
        }
    }
}

/// The ends of a `for` again.
fn copy_ends(alloc: Global, lo: &Expr, hi: &Expr) -> Result<(Expr, Expr), AllocError>
    ensures { IfOk result (λ copies. copies ≡ (lo.now, hi.now)) }
{
    let lo = copy_expr(alloc, lo)?;
    match copy_expr(alloc, hi) {
        Ok(hi) => Ok((lo, hi)),
        Err(error) => {
            drop(lo);
            Err(error)
        }
    }
}

/// The statement again.
#[cycle(stmt)]
pub fn copy_stmt(alloc: Global, stmt: &Stmt) -> Result<Stmt, AllocError>
    ensures { IfOk result (λ copy. copy ≡ stmt.now) }
{
    let kind = copy_stmt_kind(alloc, &stmt.kind)?;
    Ok(Stmt {
        node: stmt.node,
        kind,
    })
}

#[cycle(stmt)]
fn copy_stmt_kind(alloc: Global, kind: &StmtKind) -> Result<StmtKind, AllocError>
    ensures { IfOk result (λ copy. copy ≡ kind.now) }
{
    match kind {
        StmtKind::Set { name, value } => {
            let name = name.clone()?;
            let value = copy_expr(alloc, value)?;
            Ok(StmtKind::Set { name, value })
        }
        StmtKind::Put { name, index, value } => {
            let name = name.clone()?;
            let (index, value) = copy_cell(alloc, index, value)?;
            Ok(StmtKind::Put { name, index, value })
        }
        StmtKind::If { test, yes, no } => {
            let yes = copy_block(alloc, yes.as_slice())?;
            let no = copy_block(alloc, no.as_slice())?;
            let test = copy_cond(alloc, test)?;
            Ok(StmtKind::If { test, yes, no })
        }
        StmtKind::For { name, lo, hi, body } => {
            let name = name.clone()?;
            let body = copy_block(alloc, body.as_slice())?;
            let (lo, hi) = copy_ends(alloc, lo, hi)?;
            Ok(StmtKind::For { name, lo, hi, body })
        }
        StmtKind::While { test, body } => {
            let body = copy_block(alloc, body.as_slice())?;
            let test = copy_cond(alloc, test)?;
            Ok(StmtKind::While { test, body })
        }
        StmtKind::Hand { name, role } => {
            let name = name.clone()?;
            let role = role.clone()?;
            Ok(StmtKind::Hand { name, role })
        }
        StmtKind::Skip => Ok(StmtKind::Skip),
    }
}

/// The statements again.
#[cycle(stmt)]
pub fn copy_block(alloc: Global, block: &[Stmt]) -> Result<Items<Stmt>, AllocError>
    ensures { IfOk result (λ copy. copy ≡ block.now) }
{
    let mut copy = Items::new(alloc);
    for stmt in block {
        let stmt = copy_stmt(alloc, stmt)?;
        copy.push(stmt)?;
    }
    Ok(copy)
}
