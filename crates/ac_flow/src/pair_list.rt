//! The pairs of a program.
ghost use Rattle.std.specs.Prelude.{◌≡◌, ◌≤◌, ◌++◌, ◌∷◌, [], List, IfOk, OnOk, vec_len, take, drop};
ghost use Rattle.ac_flow.specs.Pairs.{each, loop_pairs, site_pairs, barrier_pairs, expr_pairs, index_pairs, cond_pairs, stmt_pairs, list_pairs, pairs_of};
ghost use Rattle.ac_flow.specs.Through.{onward};
ghost use Rattle.ac_flow.specs.ThroughLists.{joined, behind_list};
ghost use Rattle.ac_flow.specs.Marks.{mark_at};

use crate::marks::{is_marked, mark_cuts, mark_nodes};
use crate::through::{add_exits, add_leaving, is_left, is_passed};
use ac_tree::{
    Cond, CondKind, Cut, Expr, ExprKind, Index, NodeId, Pair, Program, Stmt, StmtKind, Target,
};
use std::alloc::{AllocError, Global};

/// Which nodes have a barrier behind them, and which have a site that is subject.
#[derive(Drop)]
struct Marks {
    barriers: Vec<bool>,
    subject: Vec<bool>,
}

/// The pairs of a cut and a target that control can reach from it without passing another cut, by target, then by cut.
pub fn pairs(
    alloc: Global,
    program: &Program,
    cuts: &[Cut],
    subject: &[NodeId],
) -> Result<Vec<Pair>, AllocError>
    ensures { IfOk result (λ found. found.items ≡ pairs_of program.now cuts.now subject.now) }
{
    let marks = Marks {
        barriers: mark_cuts(alloc, cuts)?,
        subject: mark_nodes(alloc, subject)?,
    };
    let mut found = Vec::new(alloc);
    let mut live = Vec::new(alloc);
    live.push(Cut::Start)?;
    add_block(&mut found, &marks, &mut live, 0, program.body.as_slice())?;
    Ok(found)
}

/// Adds the pairs of the cuts with a target.
fn add_each(found: &mut Vec<Pair>, cuts: &[Cut], target: Target) -> Result<(), AllocError>
    ensures { OnOk result (found.new.items ≡ found.old.items ++ each cuts.now target) }
{
    for cut in cuts {
        found.push(Pair { cut: *cut, target })?;
    }
    Ok(())
}

fn add_site(
    found: &mut Vec<Pair>,
    subject: &[bool],
    cuts: &[Cut],
    node: NodeId,
) -> Result<(), AllocError>
    ensures { OnOk result (found.new.items ≡ found.old.items ++ site_pairs (mark_at subject.now) cuts.now node) }
{
    if is_marked(subject, node) {
        add_each(found, cuts, Target::Site(node))?;
    }
    Ok(())
}

#[cycle(expr_pairs)]
fn add_expr(
    found: &mut Vec<Pair>,
    subject: &[bool],
    cuts: &[Cut],
    expr: &Expr,
) -> Result<(), AllocError>
    ensures { OnOk result (found.new.items ≡ found.old.items ++ expr_pairs (mark_at subject.now) cuts.now expr.now.node expr.now.kind) }
{
    match &expr.kind {
        ExprKind::Num(_) => Ok(()),
        ExprKind::Get(_) => add_site(found, subject, cuts, expr.node.id),
        ExprKind::Read(_, index) => {
            add_site(found, subject, cuts, expr.node.id)?;
            add_index(found, subject, cuts, index)
        }
        ExprKind::Neg(a) => add_expr(found, subject, cuts, a.get()),
        ExprKind::Add(a, b) => {
            add_expr(found, subject, cuts, a.get())?;
            add_expr(found, subject, cuts, b.get())
        }
        ExprKind::Sub(a, b) => {
            add_expr(found, subject, cuts, a.get())?;
            add_expr(found, subject, cuts, b.get())
        }
        ExprKind::Mul(a, b) => {
            add_expr(found, subject, cuts, a.get())?;
            add_expr(found, subject, cuts, b.get())
        }
    }
}

#[cycle(expr_pairs)]
fn add_index(
    found: &mut Vec<Pair>,
    subject: &[bool],
    cuts: &[Cut],
    index: &Index,
) -> Result<(), AllocError>
    ensures { OnOk result (found.new.items ≡ found.old.items ++ index_pairs (mark_at subject.now) cuts.now index.now) }
{
    match index {
        Index::One(a) => add_expr(found, subject, cuts, a.get()),
        Index::Two(a, b) => {
            add_expr(found, subject, cuts, a.get())?;
            add_expr(found, subject, cuts, b.get())
        }
    }
}

fn add_cond(
    found: &mut Vec<Pair>,
    subject: &[bool],
    cuts: &[Cut],
    cond: &Cond,
) -> Result<(), AllocError>
    ensures { OnOk result (found.new.items ≡ found.old.items ++ cond_pairs (mark_at subject.now) cuts.now cond.now.kind) }
{
    match &cond.kind {
        CondKind::True => Ok(()),
        CondKind::False => Ok(()),
        CondKind::Rel(_, a, b) => {
            add_expr(found, subject, cuts, a.get())?;
            add_expr(found, subject, cuts, b.get())
        }
        CondKind::Not(a) => add_cond(found, subject, cuts, a.get()),
        CondKind::And(a, b) => {
            add_cond(found, subject, cuts, a.get())?;
            add_cond(found, subject, cuts, b.get())
        }
        CondKind::Or(a, b) => {
            add_cond(found, subject, cuts, a.get())?;
            add_cond(found, subject, cuts, b.get())
        }
    }
}

/// Adds the pairs of the cuts with the barrier behind a statement, where it has one.
fn add_barrier(
    found: &mut Vec<Pair>,
    barriers: &[bool],
    cuts: &[Cut],
    node: NodeId,
) -> Result<(), AllocError>
    ensures { OnOk result (found.new.items ≡ found.old.items ++ barrier_pairs (mark_at barriers.now) cuts.now node) }
{
    if is_marked(barriers, node) {
        add_each(found, cuts, Target::Barrier(node))?;
    }
    Ok(())
}

/// Adds the pairs with the entry of a loop, with its turns and with the barrier behind it.
fn add_loop(
    found: &mut Vec<Pair>,
    barriers: &[bool],
    live: &mut Vec<Cut>,
    base: usize,
    node: NodeId,
    body: &[Stmt],
) -> Result<(), AllocError>
    requires { base ≤ vec_len live.old }
    ensures pairs { OnOk result (found.new.items ≡ found.old.items ++ loop_pairs (mark_at barriers.now) (drop base live.old.items) node (behind_list (mark_at barriers.now) (Cut.Head node ∷ []) body.now)) }
    ensures restored { OnOk result (live.new.items ≡ live.old.items) }
{
    let floor = live.len();
    add_each(found, &live[base..], Target::Entry(node))?;
    if is_passed(barriers, body) {
        live.push(Cut::Head(node))?;
    }
    add_exits(live, barriers, body)?;
    add_each(found, &live[floor..], Target::Keep(node))?;
    live.truncate(floor);
    add_barrier(found, barriers, &[Cut::Exit(node)], node)
}

/// The two parts of an `if`.
#[derive(Drop)]
struct Parts<'a> {
    yes: &'a [Stmt],
    no: &'a [Stmt],
}

/// Adds the pairs with the barrier behind an `if`, where it has one.
fn add_joined(
    found: &mut Vec<Pair>,
    barriers: &[bool],
    live: &mut Vec<Cut>,
    base: usize,
    node: NodeId,
    parts: &Parts,
) -> Result<(), AllocError>
    requires { base ≤ vec_len live.old }
    ensures pairs { OnOk result (found.new.items ≡ found.old.items ++ barrier_pairs (mark_at barriers.now) (joined (mark_at barriers.now) (drop base live.old.items) parts.now.yes.now parts.now.no.now) node) }
    ensures restored { OnOk result (live.new.items ≡ live.old.items) }
{
    let floor = live.len();
    let passed = is_passed(barriers, parts.yes) || is_passed(barriers, parts.no);
    let from = if passed { base } else { floor };
    add_exits(live, barriers, parts.yes)?;
    add_exits(live, barriers, parts.no)?;
    add_barrier(found, barriers, &live[from..], node)?;
    live.truncate(floor);
    Ok(())
}

/// Leads the cuts from `base` on through a statement. Those before `floor` stay, and the answer says from where on the cuts
/// stand that come behind it.
fn go_on(
    live: &mut Vec<Cut>,
    floor: usize,
    base: usize,
    marks: &Marks,
    stmt: &Stmt,
) -> Result<usize, AllocError>
    requires base { base ≤ floor }
    requires floor { floor ≤ vec_len live.old }
    ensures base { IfOk result (λ next. next ≤ floor) }
    ensures floor { OnOk result (floor ≤ vec_len live.new) }
    ensures kept { OnOk result (take floor live.new.items ≡ take floor live.old.items) }
    ensures cuts { IfOk result (λ next. drop next live.new.items ≡ onward (mark_at marks.now.barriers.items) (drop base live.old.items) stmt.now.node.id stmt.now.kind) }
{
    let barriers = marks.barriers.as_slice();
    if is_left(barriers, stmt) {
        add_leaving(live, barriers, stmt)?;
        return Ok(base);
    }
    live.truncate(floor);
    add_leaving(live, barriers, stmt)?;
    Ok(floor)
}

/// Adds the pairs of a block, whose first statement control comes to from the cuts from `base` on.
#[cycle(stmt_pairs)]
fn add_block(
    found: &mut Vec<Pair>,
    marks: &Marks,
    live: &mut Vec<Cut>,
    base: usize,
    block: &[Stmt],
) -> Result<(), AllocError>
    requires { base ≤ vec_len live.old }
    ensures pairs { OnOk result (found.new.items ≡ found.old.items ++ list_pairs (mark_at marks.now.barriers.items) (mark_at marks.now.subject.items) (drop base live.old.items) block.now) }
    ensures restored { OnOk result (live.new.items ≡ live.old.items) }
{
    let floor = live.len();
    let mut base = base;
    for stmt in block {
        add_stmt(found, marks, live, base, stmt)?;
        base = go_on(live, floor, base, marks, stmt)?;
    }
    live.truncate(floor);
    Ok(())
}

/// Adds the pairs of the body of a loop.
#[cycle(stmt_pairs)]
fn add_body(
    found: &mut Vec<Pair>,
    marks: &Marks,
    live: &mut Vec<Cut>,
    node: NodeId,
    body: &[Stmt],
) -> Result<(), AllocError>
    ensures pairs { OnOk result (found.new.items ≡ found.old.items ++ list_pairs (mark_at marks.now.barriers.items) (mark_at marks.now.subject.items) (Cut.Head node ∷ []) body.now) }
    ensures restored { OnOk result (live.new.items ≡ live.old.items) }
{
    let base = live.len();
    live.push(Cut::Head(node))?;
    add_block(found, marks, live, base, body)?;
    live.truncate(base);
    Ok(())
}

/// Adds the pairs of a statement, to which control comes from the cuts from `base` on.
#[cycle(stmt_pairs)]
#[tactic(auto, using(crate::proofs::Blocks::pairs_if, crate::proofs::Blocks::pairs_for, crate::proofs::Blocks::pairs_while))]
fn add_stmt(
    found: &mut Vec<Pair>,
    marks: &Marks,
    live: &mut Vec<Cut>,
    base: usize,
    stmt: &Stmt,
) -> Result<(), AllocError>
    requires { base ≤ vec_len live.old }
    ensures pairs { OnOk result (found.new.items ≡ found.old.items ++ stmt_pairs (mark_at marks.now.barriers.items) (mark_at marks.now.subject.items) (drop base live.old.items) stmt.now.node.id stmt.now.kind) }
    ensures restored { OnOk result (live.new.items ≡ live.old.items) }
{
    let node = stmt.node.id;
    let subject = marks.subject.as_slice();
    let barriers = marks.barriers.as_slice();
    match &stmt.kind {
        StmtKind::Set { value, .. } => {
            add_barrier(found, barriers, &live[base..], node)?;
            add_site(found, subject, &live[base..], node)?;
            add_expr(found, subject, &live[base..], value)?;
            Ok(())
        }
        StmtKind::Put { index, value, .. } => {
            add_barrier(found, barriers, &live[base..], node)?;
            add_site(found, subject, &live[base..], node)?;
            add_index(found, subject, &live[base..], index)?;
            add_expr(found, subject, &live[base..], value)?;
            Ok(())
        }
        StmtKind::Hand { .. } => {
            add_barrier(found, barriers, &live[base..], node)?;
            add_site(found, subject, &live[base..], node)?;
            Ok(())
        }
        StmtKind::Skip => add_barrier(found, barriers, &live[base..], node),
        StmtKind::If { test, yes, no } => {
            let parts = Parts {
                yes: yes.as_slice(),
                no: no.as_slice(),
            };
            add_joined(found, barriers, live, base, node, &parts)?;
            add_cond(found, subject, &live[base..], test)?;
            add_block(found, marks, live, base, yes.as_slice())?;
            add_block(found, marks, live, base, no.as_slice())?;
            Ok(())
        }
        StmtKind::For { lo, hi, body, .. } => {
            add_loop(found, barriers, live, base, node, body.as_slice())?;
            add_expr(found, subject, &live[base..], lo)?;
            add_expr(found, subject, &live[base..], hi)?;
            add_body(found, marks, live, node, body.as_slice())?;
            Ok(())
        }
        StmtKind::While { test, body } => {
            add_loop(found, barriers, live, base, node, body.as_slice())?;
            add_cond(found, subject, &[Cut::Head(node)], test)?;
            add_body(found, marks, live, node, body.as_slice())?;
            Ok(())
        }
    }
}
