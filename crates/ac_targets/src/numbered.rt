//! Whether the nodes of a program are numbered in preorder, as they are in each that is read.
ghost use Rattle.std.specs.Prelude.{◌≡◌, [], ◌∷◌, true, IfSome};
ghost use Rattle.ac_tree.specs.Preorder.{inside_expr, inside_index, inside_cond, inside_stmt, nodes_of_list, nodes_of_items, nodes_of};
ghost use Rattle.ac_targets.specs.Numbered.{AreNumbered, IsInOrder};

use ac_tree::{Cond, CondKind, Expr, ExprKind, Index, Item, NodeId, Program, Stmt, StmtKind};

/// The number behind that of a node, if the node has the number that is next.
fn behind(node: NodeId, next: u32) -> Option<u32>
    ensures { IfSome result (AreNumbered next (node ∷ [])) }
{
    if node.0 == next {
        next.checked_add(1)
    } else {
        None
    }
}

#[cycle(numbered)]
fn behind_expr(expr: &Expr, next: u32) -> Option<u32>
    ensures { IfSome result (AreNumbered next (expr.now.node.id ∷ inside_expr expr.now.kind)) }
{
    let inner = behind(expr.node.id, next)?;
    match &expr.kind {
        ExprKind::Num(_) => Some(inner),
        ExprKind::Get(_) => Some(inner),
        ExprKind::Read(_, index) => behind_index(index, inner),
        ExprKind::Neg(a) => behind_expr(a.get(), inner),
        ExprKind::Add(a, b) => {
            let middle = behind_expr(a.get(), inner)?;
            behind_expr(b.get(), middle)
        }
        ExprKind::Sub(a, b) => {
            let middle = behind_expr(a.get(), inner)?;
            behind_expr(b.get(), middle)
        }
        ExprKind::Mul(a, b) => {
            let middle = behind_expr(a.get(), inner)?;
            behind_expr(b.get(), middle)
        }
    }
}

#[cycle(numbered)]
fn behind_index(index: &Index, next: u32) -> Option<u32>
    ensures { IfSome result (AreNumbered next (inside_index index.now)) }
{
    match index {
        Index::One(a) => behind_expr(a.get(), next),
        Index::Two(a, b) => {
            let middle = behind_expr(a.get(), next)?;
            behind_expr(b.get(), middle)
        }
    }
}

fn behind_cond(cond: &Cond, next: u32) -> Option<u32>
    ensures { IfSome result (AreNumbered next (cond.now.node.id ∷ inside_cond cond.now.kind)) }
{
    let inner = behind(cond.node.id, next)?;
    match &cond.kind {
        CondKind::True => Some(inner),
        CondKind::False => Some(inner),
        CondKind::Rel(_, a, b) => {
            let middle = behind_expr(a.get(), inner)?;
            behind_expr(b.get(), middle)
        }
        CondKind::Not(a) => behind_cond(a.get(), inner),
        CondKind::And(a, b) => {
            let middle = behind_cond(a.get(), inner)?;
            behind_cond(b.get(), middle)
        }
        CondKind::Or(a, b) => {
            let middle = behind_cond(a.get(), inner)?;
            behind_cond(b.get(), middle)
        }
    }
}

#[cycle(numbered_block)]
fn behind_stmt(stmt: &Stmt, next: u32) -> Option<u32>
    ensures { IfSome result (AreNumbered next (stmt.now.node.id ∷ inside_stmt stmt.now.kind)) }
{
    let inner = behind(stmt.node.id, next)?;
    match &stmt.kind {
        StmtKind::Set { value, .. } => behind_expr(value, inner),
        StmtKind::Put { index, value, .. } => {
            let middle = behind_index(index, inner)?;
            behind_expr(value, middle)
        }
        StmtKind::If { test, yes, no } => {
            let first = behind_cond(test, inner)?;
            let second = behind_block(yes.as_slice(), first)?;
            behind_block(no.as_slice(), second)
        }
        StmtKind::For { lo, hi, body, .. } => {
            let first = behind_expr(lo, inner)?;
            let second = behind_expr(hi, first)?;
            behind_block(body.as_slice(), second)
        }
        StmtKind::While { test, body } => {
            let first = behind_cond(test, inner)?;
            behind_block(body.as_slice(), first)
        }
        StmtKind::Hand { .. } => Some(inner),
        StmtKind::Skip => Some(inner),
    }
}

#[cycle(numbered_block)]
fn behind_block(block: &[Stmt], next: u32) -> Option<u32>
    ensures { IfSome result (AreNumbered next (nodes_of_list block.now)) }
{
    let mut at = next;
    for stmt in block {
        at = behind_stmt(stmt, at)?;
    }
    Some(at)
}

fn behind_items(items: &[Item], next: u32) -> Option<u32>
    ensures { IfSome result (AreNumbered next (nodes_of_items items.now)) }
{
    let mut at = next;
    for item in items {
        at = behind(item.node.id, at)?;
    }
    Some(at)
}

fn behind_program(program: &Program) -> Option<u32>
    ensures { IfSome result (AreNumbered 0 (nodes_of program.now)) }
{
    let inner = behind(program.node.id, 0)?;
    let body = behind_items(program.items.as_slice(), inner)?;
    behind_block(program.body.as_slice(), body)
}

/// Whether the nodes of a program are numbered in preorder, from 0 on.
pub fn is_numbered(program: &Program) -> bool
    ensures { result ≡ true → IsInOrder program.now }
{
    behind_program(program).is_some()
}
