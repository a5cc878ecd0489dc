//! The tree of a program with its nodes numbered in preorder.
ghost use Rattle.std.specs.Prelude.{◌≡◌, ◌+◌, min, IfOk};
ghost use Rattle.ac_tree.specs.Numbering.{at};
ghost use Rattle.ac_numbering.specs.Numbers.{greatest, NumbersExpr, NumbersExprKind, NumbersIndex, NumbersCond, NumbersCondKind, NumbersStmt, NumbersStmtKind, NumbersBlock, NumbersItem, NumbersItems, NumbersProgram};

use ac_tree::{
    Cond, CondKind, Expr, ExprKind, Extent, Extents, Index, Item, ItemKind, LimitKind, Name, Node,
    NodeId, Program, Stmt, StmtKind,
};
use sqlite_items::{Boxed, Items};
use std::alloc::{AllocError, Global};

/// A part of a program with its nodes numbered, and the next number.
type NumberResult<T> = Result<(T, u32), AllocError>;

fn numbered(node: &Node, number: u32) -> Node
    ensures { result ≡ at number node.now }
{
    Node {
        id: NodeId(number),
        span: node.span,
    }
}

/// The next number, and behind the greatest the greatest again: a tree that comes to it has more nodes than the limit.
fn behind(number: u32) -> u32
    ensures { result ≡ min (number + 1) greatest }
{
    number.saturating_add(1)
}

#[cycle(expr)]
fn number_expr(alloc: Global, expr: &Expr, first: u32) -> NumberResult<Expr>
    ensures { IfOk result (λ r. NumbersExpr first expr.now r) }
{
    let node = numbered(&expr.node, first);
    let (kind, next) = number_expr_kind(alloc, &expr.kind, first)?;
    Ok((Expr { node, kind }, next))
}

/// The kind of the node with the number `first`. What stands below it has the numbers behind.
#[cycle(expr)]
fn number_expr_kind(alloc: Global, kind: &ExprKind, first: u32) -> NumberResult<ExprKind>
    ensures { IfOk result (λ r. NumbersExprKind first kind.now r) }
{
    let second = behind(first);
    match kind {
        ExprKind::Num(number) => Ok((ExprKind::Num(*number), second)),
        ExprKind::Get(name) => {
            let name = name.clone()?;
            Ok((ExprKind::Get(name), second))
        }
        ExprKind::Read(name, index) => {
            let name = name.clone()?;
            let (index, next) = number_index(alloc, index, second)?;
            Ok((ExprKind::Read(name, index), next))
        }
        ExprKind::Neg(inner) => {
            let (inner, next) = number_boxed_expr(alloc, inner, second)?;
            Ok((ExprKind::Neg(inner), next))
        }
        ExprKind::Add(left, right) => {
            let (left, third) = number_boxed_expr(alloc, left, second)?;
            let (right, next) = number_boxed_expr(alloc, right, third)?;
            Ok((ExprKind::Add(left, right), next))
        }
        ExprKind::Sub(left, right) => {
            let (left, third) = number_boxed_expr(alloc, left, second)?;
            let (right, next) = number_boxed_expr(alloc, right, third)?;
            Ok((ExprKind::Sub(left, right), next))
        }
        ExprKind::Mul(left, right) => {
            let (left, third) = number_boxed_expr(alloc, left, second)?;
            let (right, next) = number_boxed_expr(alloc, right, third)?;
            Ok((ExprKind::Mul(left, right), next))
        }
    }
}

#[cycle(expr)]
fn number_index(alloc: Global, index: &Index, first: u32) -> NumberResult<Index>
    ensures { IfOk result (λ r. NumbersIndex first index.now r) }
{
    match index {
        Index::One(only) => {
            let (only, next) = number_boxed_expr(alloc, only, first)?;
            Ok((Index::One(only), next))
        }
        Index::Two(row, column) => {
            let (row, second) = number_boxed_expr(alloc, row, first)?;
            let (column, next) = number_boxed_expr(alloc, column, second)?;
            Ok((Index::Two(row, column), next))
        }
    }
}

#[cycle(expr)]
fn number_boxed_expr(alloc: Global, expr: &Boxed<Expr>, first: u32) -> NumberResult<Boxed<Expr>>
    ensures { IfOk result (λ r. NumbersExpr first expr.now r) }
{
    let (expr, next) = number_expr(alloc, expr.get(), first)?;
    Ok((Boxed::new(alloc, expr)?, next))
}

#[cycle(cond)]
fn number_cond(alloc: Global, cond: &Cond, first: u32) -> NumberResult<Cond>
    ensures { IfOk result (λ r. NumbersCond first cond.now r) }
{
    let node = numbered(&cond.node, first);
    let (kind, next) = number_cond_kind(alloc, &cond.kind, first)?;
    Ok((Cond { node, kind }, next))
}

#[cycle(cond)]
fn number_cond_kind(alloc: Global, kind: &CondKind, first: u32) -> NumberResult<CondKind>
    ensures { IfOk result (λ r. NumbersCondKind first kind.now r) }
{
    let second = behind(first);
    match kind {
        CondKind::True => Ok((CondKind::True, second)),
        CondKind::False => Ok((CondKind::False, second)),
        CondKind::Rel(relation, left, right) => {
            let (left, third) = number_boxed_expr(alloc, left, second)?;
            let (right, next) = number_boxed_expr(alloc, right, third)?;
            Ok((CondKind::Rel(*relation, left, right), next))
        }
        CondKind::Not(inner) => {
            let (inner, next) = number_boxed_cond(alloc, inner, second)?;
            Ok((CondKind::Not(inner), next))
        }
        CondKind::And(left, right) => {
            let (left, third) = number_boxed_cond(alloc, left, second)?;
            let (right, next) = number_boxed_cond(alloc, right, third)?;
            Ok((CondKind::And(left, right), next))
        }
        CondKind::Or(left, right) => {
            let (left, third) = number_boxed_cond(alloc, left, second)?;
            let (right, next) = number_boxed_cond(alloc, right, third)?;
            Ok((CondKind::Or(left, right), next))
        }
    }
}

#[cycle(cond)]
fn number_boxed_cond(alloc: Global, cond: &Boxed<Cond>, first: u32) -> NumberResult<Boxed<Cond>>
    ensures { IfOk result (λ r. NumbersCond first cond.now r) }
{
    let (cond, next) = number_cond(alloc, cond.get(), first)?;
    Ok((Boxed::new(alloc, cond)?, next))
}

#[cycle(stmt)]
fn number_stmt(alloc: Global, stmt: &Stmt, first: u32) -> NumberResult<Stmt>
    ensures { IfOk result (λ r. NumbersStmt first stmt.now r) }
{
    let node = numbered(&stmt.node, first);
    let (kind, next) = number_stmt_kind(alloc, &stmt.kind, first)?;
    Ok((Stmt { node, kind }, next))
}

#[cycle(stmt)]
fn number_stmt_kind(alloc: Global, kind: &StmtKind, first: u32) -> NumberResult<StmtKind>
    ensures { IfOk result (λ r. NumbersStmtKind first kind.now r) }
{
    let second = behind(first);
    match kind {
        StmtKind::Set { name, value } => {
            let name = name.clone()?;
            let (value, next) = number_expr(alloc, value, second)?;
            Ok((StmtKind::Set { name, value }, next))
        }
        StmtKind::Put { name, index, value } => {
            let name = name.clone()?;
            let (index, third) = number_index(alloc, index, second)?;
            let (value, next) = number_expr(alloc, value, third)?;
            Ok((StmtKind::Put { name, index, value }, next))
        }
        StmtKind::If { test, yes, no } => {
            let (test, third) = number_cond(alloc, test, second)?;
            let (yes, fourth) = number_block(alloc, yes, third)?;
            let (no, next) = number_block(alloc, no, fourth)?;
            Ok((StmtKind::If { test, yes, no }, next))
        }
        StmtKind::For { name, lo, hi, body } => {
            let name = name.clone()?;
            let (lo, third) = number_expr(alloc, lo, second)?;
            let (hi, fourth) = number_expr(alloc, hi, third)?;
            let (body, next) = number_block(alloc, body, fourth)?;
            Ok((StmtKind::For { name, lo, hi, body }, next))
        }
        StmtKind::While { test, body } => {
            let (test, third) = number_cond(alloc, test, second)?;
            let (body, next) = number_block(alloc, body, third)?;
            Ok((StmtKind::While { test, body }, next))
        }
        StmtKind::Hand { name, role } => {
            let name = name.clone()?;
            let role = role.clone()?;
            Ok((StmtKind::Hand { name, role }, second))
        }
        StmtKind::Skip => Ok((StmtKind::Skip, second)),
    }
}

#[cycle(stmt)]
fn number_block(alloc: Global, block: &Items<Stmt>, first: u32) -> NumberResult<Items<Stmt>>
    ensures { IfOk result (λ r. NumbersBlock first block.now r) }
{
    let mut numbered = Items::new(alloc);
    let mut next = first;
    for stmt in block.as_slice() {
        let (stmt, after) = number_stmt(alloc, stmt, next)?;
        numbered.push(stmt)?;
        next = after;
    }
    Ok((numbered, next))
}

fn copy_extent(extent: &Extent) -> Result<Extent, AllocError>
    ensures { IfOk result (λ r. r ≡ extent.now) }
{
    match extent {
        Extent::Lit(number) => Ok(Extent::Lit(*number)),
        Extent::Named(name) => {
            let name = name.clone()?;
            Ok(Extent::Named(name))
        }
    }
}

fn copy_extents(extents: &Extents) -> Result<Extents, AllocError>
    ensures { IfOk result (λ r. r ≡ extents.now) }
{
    match extents {
        Extents::One(only) => {
            let only = copy_extent(only)?;
            Ok(Extents::One(only))
        }
        Extents::Two(rows, columns) => {
            let rows = copy_extent(rows)?;
            let columns = copy_extent(columns)?;
            Ok(Extents::Two(rows, columns))
        }
    }
}

fn copy_kind(kind: &ItemKind) -> Result<ItemKind, AllocError>
    ensures { IfOk result (λ r. r ≡ kind.now) }
{
    match kind {
        ItemKind::Const { value } => Ok(ItemKind::Const { value: *value }),
        ItemKind::InputScalar { lo, hi } => Ok(ItemKind::InputScalar { lo: *lo, hi: *hi }),
        ItemKind::InputArray { extents, lo, hi } => {
            let extents = copy_extents(extents)?;
            Ok(ItemKind::InputArray {
                extents,
                lo: *lo,
                hi: *hi,
            })
        }
        ItemKind::VarScalar => Ok(ItemKind::VarScalar),
        ItemKind::VarArray { extents } => {
            let extents = copy_extents(extents)?;
            Ok(ItemKind::VarArray { extents })
        }
    }
}

fn number_item(item: &Item, number: u32) -> NumberResult<Item>
    ensures { IfOk result (λ r. NumbersItem number item.now r) }
{
    let node = numbered(&item.node, number);
    let name = item.name.clone()?;
    let kind = copy_kind(&item.kind)?;
    let next = behind(number);
    Ok((Item { node, name, kind }, next))
}

fn number_items(alloc: Global, items: &Items<Item>, first: u32) -> NumberResult<Items<Item>>
    ensures { IfOk result (λ r. NumbersItems first items.now r) }
{
    let mut numbered = Items::new(alloc);
    let mut next = first;
    for item in items.as_slice() {
        let (item, after) = number_item(item, next)?;
        numbered.push(item)?;
        next = after;
    }
    Ok((numbered, next))
}

/// The program with its nodes numbered in preorder from 0. None: it has more nodes than the limit.
pub fn number(alloc: Global, program: &Program) -> Result<Option<Program>, AllocError>
    ensures { IfOk result (λ r. NumbersProgram program.now r) }
{
    let node = numbered(&program.node, 0);
    let (items, second) = number_items(alloc, &program.items, 1)?;
    let (body, next) = number_block(alloc, &program.body, second)?;
    if u64::from(next) > LimitKind::Nodes.number() {
        return Ok(None);
    }
    Ok(Some(Program { node, items, body }))
}
