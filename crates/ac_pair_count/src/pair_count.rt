//! The number of the pairs of a program.
ghost use Rattle.std.specs.Prelude.{◌≡◌, ◌++◌, ◌∷◌, [], List, IfOk, OnOk, length};
ghost use Rattle.ac_tree.specs.declared.path.Cut.{Cut as AnyCut};
ghost use Rattle.ac_flow.specs.Marks.{mark_at};
ghost use Rattle.ac_flow.specs.Pairs.{each, loop_pairs, site_pairs, barrier_pairs, expr_pairs, index_pairs, cond_pairs, stmt_pairs, list_pairs, pairs_of};
ghost use Rattle.ac_flow.specs.ThroughLists.{behind_list};
ghost use Rattle.ac_pair_count.specs.PairCount.{saturated, target_node as node_of_target, IsCountOf};
ghost use Rattle.ac_pair_count.specs.Counted.{IsMore, IsThrough, IsThroughList};

use crate::through::{Through, behind, either, leaving, passed, stopped, through_both};
use ac_flow::marks::{is_marked, mark_cuts, mark_nodes};
use ac_tree::{
    Cond, CondKind, Cut, Expr, ExprKind, Index, NodeId, Program, Stmt, StmtKind, Target,
};
use std::alloc::{AllocError, Global};

/// How many pairs there are, or the largest u64 where there are more, and the nodes at which they aim.
#[derive(Drop)]
pub struct PairCount {
    pub count: u64,
    pub nodes: Vec<NodeId>,
}

/// The node of a target.
pub fn target_node(target: Target) -> NodeId
    ensures { result ≡ node_of_target target }
{
    match target {
        Target::Entry(node) => node,
        Target::Keep(node) => node,
        Target::Barrier(node) => node,
        Target::Site(node) => node,
    }
}

/// Counts the pairs of a cut and a target that control can reach from it without passing another cut. The time is linear in
/// the size of the program, however many pairs there are.
pub fn count_pairs(
    alloc: Global,
    program: &Program,
    cuts: &[Cut],
    subject: &[NodeId],
) -> Result<PairCount, AllocError>
    ensures { IfOk result (λ found. IsCountOf found (pairs_of program.now cuts.now subject.now)) }
{
    let barriers = mark_cuts(alloc, cuts)?;
    let subject = mark_nodes(alloc, subject)?;
    let mut found = PairCount {
        count: 0,
        nodes: Vec::new(alloc),
    };
    let body = program.body.as_slice();
    let _ = count_block(&mut found, barriers.as_slice(), subject.as_slice(), 1, body)?;
    Ok(found)
}

/// Counts the pairs of so many cuts with a target.
fn count_each(found: &mut PairCount, live: u64, target: Target) -> Result<(), AllocError>
    ensures { OnOk result ((cuts : List AnyCut) → live ≡ saturated (length cuts) → IsMore found.old found.new (each cuts target)) }
{
    if live == 0 {
        return Ok(());
    }
    found.nodes.push(target_node(target))?;
    found.count = found.count.saturating_add(live);
    Ok(())
}

fn count_site(
    found: &mut PairCount,
    subject: &[bool],
    live: u64,
    node: NodeId,
) -> Result<(), AllocError>
    ensures { OnOk result ((cuts : List AnyCut) → live ≡ saturated (length cuts) → IsMore found.old found.new (site_pairs (mark_at subject.now) cuts node)) }
{
    if is_marked(subject, node) {
        return count_each(found, live, Target::Site(node));
    }
    Ok(())
}

#[cycle(expr_pairs)]
fn count_expr(
    found: &mut PairCount,
    subject: &[bool],
    live: u64,
    expr: &Expr,
) -> Result<(), AllocError>
    ensures { OnOk result ((cuts : List AnyCut) → live ≡ saturated (length cuts) → IsMore found.old found.new (expr_pairs (mark_at subject.now) cuts expr.now.node expr.now.kind)) }
{
    match &expr.kind {
        ExprKind::Num(_) => Ok(()),
        ExprKind::Get(_) => count_site(found, subject, live, expr.node.id),
        ExprKind::Read(_, index) => {
            count_site(found, subject, live, expr.node.id)?;
            count_index(found, subject, live, index)
        }
        ExprKind::Neg(a) => count_expr(found, subject, live, a.get()),
        ExprKind::Add(a, b) => {
            count_expr(found, subject, live, a.get())?;
            count_expr(found, subject, live, b.get())
        }
        ExprKind::Sub(a, b) => {
            count_expr(found, subject, live, a.get())?;
            count_expr(found, subject, live, b.get())
        }
        ExprKind::Mul(a, b) => {
            count_expr(found, subject, live, a.get())?;
            count_expr(found, subject, live, b.get())
        }
    }
}

#[cycle(expr_pairs)]
fn count_index(
    found: &mut PairCount,
    subject: &[bool],
    live: u64,
    index: &Index,
) -> Result<(), AllocError>
    ensures { OnOk result ((cuts : List AnyCut) → live ≡ saturated (length cuts) → IsMore found.old found.new (index_pairs (mark_at subject.now) cuts index.now)) }
{
    match index {
        Index::One(a) => count_expr(found, subject, live, a.get()),
        Index::Two(a, b) => {
            count_expr(found, subject, live, a.get())?;
            count_expr(found, subject, live, b.get())
        }
    }
}

fn count_cond(
    found: &mut PairCount,
    subject: &[bool],
    live: u64,
    cond: &Cond,
) -> Result<(), AllocError>
    ensures { OnOk result ((cuts : List AnyCut) → live ≡ saturated (length cuts) → IsMore found.old found.new (cond_pairs (mark_at subject.now) cuts cond.now.kind)) }
{
    match &cond.kind {
        CondKind::True => Ok(()),
        CondKind::False => Ok(()),
        CondKind::Rel(_, a, b) => {
            count_expr(found, subject, live, a.get())?;
            count_expr(found, subject, live, b.get())
        }
        CondKind::Not(a) => count_cond(found, subject, live, a.get()),
        CondKind::And(a, b) => {
            count_cond(found, subject, live, a.get())?;
            count_cond(found, subject, live, b.get())
        }
        CondKind::Or(a, b) => {
            count_cond(found, subject, live, a.get())?;
            count_cond(found, subject, live, b.get())
        }
    }
}

/// Counts the pairs with the barrier behind a statement, where it has one.
fn count_barrier(
    found: &mut PairCount,
    barriers: &[bool],
    live: u64,
    node: NodeId,
) -> Result<(), AllocError>
    ensures { OnOk result ((cuts : List AnyCut) → live ≡ saturated (length cuts) → IsMore found.old found.new (barrier_pairs (mark_at barriers.now) cuts node)) }
{
    if is_marked(barriers, node) {
        return count_each(found, live, Target::Barrier(node));
    }
    Ok(())
}

/// Counts the pairs of a block, to whose first statement control comes from so many cuts. Says how it comes through.
#[cycle(stmt_pairs)]
fn count_block(
    found: &mut PairCount,
    barriers: &[bool],
    subject: &[bool],
    live: u64,
    block: &[Stmt],
) -> Result<Through, AllocError>
    ensures through { IfOk result (λ through. IsThroughList (mark_at barriers.now) through block.now) }
    ensures pairs { OnOk result ((cuts : List AnyCut) → live ≡ saturated (length cuts) → IsMore found.old found.new (list_pairs (mark_at barriers.now) (mark_at subject.now) cuts block.now)) }
{
    let mut here = live;
    let mut through = passed();
    for stmt in block {
        let inside = count_stmt(found, barriers, subject, here, stmt)?;
        let left = leaving(barriers, stmt.node.id, inside);
        here = behind(here, left);
        through = through_both(through, left);
    }
    Ok(through)
}

/// Counts the pairs of a loop, but for those with what its own expressions read.
#[cycle(stmt_pairs)]
fn count_loop(
    found: &mut PairCount,
    barriers: &[bool],
    subject: &[bool],
    live: u64,
    node: NodeId,
    body: &[Stmt],
) -> Result<(), AllocError>
    ensures { OnOk result ((cuts : List AnyCut) → live ≡ saturated (length cuts) → IsMore found.old found.new (loop_pairs (mark_at barriers.now) cuts node (behind_list (mark_at barriers.now) (Cut.Head node ∷ []) body.now) ++ list_pairs (mark_at barriers.now) (mark_at subject.now) (Cut.Head node ∷ []) body.now)) }
{
    let through = count_block(found, barriers, subject, 1, body)?;
    count_each(found, live, Target::Entry(node))?;
    count_each(found, behind(1, through), Target::Keep(node))?;
    count_barrier(found, barriers, 1, node)
}

/// Counts the pairs of a statement, to which control comes from so many cuts. Says how it comes through.
#[cycle(stmt_pairs)]
fn count_stmt(
    found: &mut PairCount,
    barriers: &[bool],
    subject: &[bool],
    live: u64,
    stmt: &Stmt,
) -> Result<Through, AllocError>
    ensures through { IfOk result (λ through. IsThrough (mark_at barriers.now) through stmt.now.node.id stmt.now.kind) }
    ensures pairs { OnOk result ((cuts : List AnyCut) → live ≡ saturated (length cuts) → IsMore found.old found.new (stmt_pairs (mark_at barriers.now) (mark_at subject.now) cuts stmt.now.node.id stmt.now.kind)) }
{
    let node = stmt.node.id;
    match &stmt.kind {
        StmtKind::Set { value, .. } => {
            count_barrier(found, barriers, live, node)?;
            count_site(found, subject, live, node)?;
            count_expr(found, subject, live, value)?;
            Ok(passed())
        }
        StmtKind::Put { index, value, .. } => {
            count_barrier(found, barriers, live, node)?;
            count_site(found, subject, live, node)?;
            count_index(found, subject, live, index)?;
            count_expr(found, subject, live, value)?;
            Ok(passed())
        }
        StmtKind::Hand { .. } => {
            count_barrier(found, barriers, live, node)?;
            count_site(found, subject, live, node)?;
            Ok(passed())
        }
        StmtKind::Skip => {
            count_barrier(found, barriers, live, node)?;
            Ok(passed())
        }
        StmtKind::If { test, yes, no } => {
            count_cond(found, subject, live, test)?;
            let first = count_block(found, barriers, subject, live, yes.as_slice())?;
            let second = count_block(found, barriers, subject, live, no.as_slice())?;
            let through = either(first, second);
            count_barrier(found, barriers, behind(live, through), node)?;
            Ok(through)
        }
        StmtKind::For { lo, hi, body, .. } => {
            count_expr(found, subject, live, lo)?;
            count_expr(found, subject, live, hi)?;
            count_loop(found, barriers, subject, live, node, body.as_slice())?;
            Ok(stopped())
        }
        StmtKind::While { test, body } => {
            count_cond(found, subject, 1, test)?;
            count_loop(found, barriers, subject, live, node, body.as_slice())?;
            Ok(stopped())
        }
    }
}
