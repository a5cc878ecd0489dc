//! What control enters from a cut on.
ghost use Rattle.std.specs.Prelude.{◌≡◌, [], ◌∷◌, ◌++◌, ◌&&◌, not, if◌then◌else◌, drop, IfOk, OnOk};
ghost use Rattle.ac_flow.specs.Marks.{mark_at};
ghost use Rattle.ac_walk.specs.Walks as walks;

use crate::onward::{Aim, add_block};
use crate::targets::node_of;
use crate::test_nodes::add_test;
use ac_flow::marks::is_marked;
use ac_tree::{Cond, Cut, NodeId, Stmt, StmtKind};
use std::alloc::AllocError;

/// Adds the nodes on the paths from a cut to the target, with the statements that enclose the cut.
pub fn add_path(
    found: &mut Vec<NodeId>,
    aim: &Aim,
    cut: Cut,
    body: &[Stmt],
) -> Result<(), AllocError>
    ensures { OnOk result (found.new.items ≡ found.old.items ++ walks.path_nodes (mark_at aim.now.barriers.now) aim.now.target cut body.now) }
{
    match cut {
        Cut::Start => {
            add_block(found, aim, body)?;
            Ok(())
        }
        Cut::Head(node) => {
            add_from(found, aim, cut, node, body)?;
            Ok(())
        }
        Cut::Exit(node) => {
            add_from(found, aim, cut, node, body)?;
            Ok(())
        }
        Cut::After(node) => {
            add_from(found, aim, cut, node, body)?;
            Ok(())
        }
    }
}

/// Adds what control enters from a cut in a block on, and says whether it comes to the end of the block and has not met the
/// target.
#[cycle(from)]
fn add_from(
    found: &mut Vec<NodeId>,
    aim: &Aim,
    cut: Cut,
    node: NodeId,
    block: &[Stmt],
) -> Result<bool, AllocError>
    ensures on { IfOk result (λ on. on ≡ walks.list_comes (mark_at aim.now.barriers.now) aim.now.target cut node block.now) }
    ensures added { OnOk result (found.new.items ≡ found.old.items ++ walks.list_from (mark_at aim.now.barriers.now) aim.now.target cut node block.now) }
{
    let at = holder(block, node);
    match block.get(at) {
        None => Ok(false),
        Some(stmt) => {
            if !add_holder(found, aim, cut, node, stmt)? {
                return Ok(false);
            }
            let course = add_block(found, aim, &block[at + 1..])?;
            Ok(course.on)
        }
    }
}

/// The place in a block of the statement that holds a node.
#[tactic(auto, using(crate::proofs::Holders::holder_next, crate::proofs::Holders::holder_stop, crate::proofs::Holders::holder_end))]
fn holder(block: &[Stmt], node: NodeId) -> usize
    ensures { walks.holder_of node block.now ≡ drop result block.now }
{
    let mut at = 0;
    while at + 1 < block.len() && block[at + 1].node.id.0 <= node.0 {
        at += 1;
    }
    at
}

#[cycle(from)]
fn add_holder(
    found: &mut Vec<NodeId>,
    aim: &Aim,
    cut: Cut,
    node: NodeId,
    stmt: &Stmt,
) -> Result<bool, AllocError>
    ensures on { IfOk result (λ on. on ≡ walks.leaves (mark_at aim.now.barriers.now) aim.now.target cut node stmt.now) }
    ensures added { OnOk result (found.new.items ≡ found.old.items ++ walks.from (mark_at aim.now.barriers.now) aim.now.target cut node stmt.now) }
{
    let here = stmt.node.id;
    if here.0 == node.0 {
        found.push(here)?;
        return add_at_cut(found, aim, cut, stmt);
    }
    add_enclosing(found, aim, stmt)?;
    add_deeper(found, aim, cut, node, stmt)
}

#[cycle(from)]
fn add_deeper(
    found: &mut Vec<NodeId>,
    aim: &Aim,
    cut: Cut,
    node: NodeId,
    stmt: &Stmt,
) -> Result<bool, AllocError>
    ensures on { IfOk result (λ on. on ≡ walks.comes_out (mark_at aim.now.barriers.now) aim.now.target cut node stmt.now.node.id stmt.now.kind) }
    ensures added { OnOk result (found.new.items ≡ found.old.items ++ walks.deeper (mark_at aim.now.barriers.now) aim.now.target cut node stmt.now.kind) }
{
    match &stmt.kind {
        StmtKind::If { yes, no, .. } => {
            if begins_by(no.as_slice(), node) {
                return add_in_part(found, aim, cut, node, stmt.node.id, no.as_slice());
            }
            add_in_part(found, aim, cut, node, stmt.node.id, yes.as_slice())
        }
        StmtKind::For { body, .. } => {
            add_from(found, aim, cut, node, body.as_slice())?;
            Ok(false)
        }
        StmtKind::While { body, .. } => {
            add_from(found, aim, cut, node, body.as_slice())?;
            Ok(false)
        }
        StmtKind::Set { .. } => Ok(false),
        StmtKind::Put { .. } => Ok(false),
        StmtKind::Hand { .. } => Ok(false),
        StmtKind::Skip => Ok(false),
    }
}

/// Adds what control enters from a cut on in the part of an `if` that holds it, and says whether it goes on behind the `if`
/// without having met the target in the part.
#[cycle(from)]
fn add_in_part(
    found: &mut Vec<NodeId>,
    aim: &Aim,
    cut: Cut,
    node: NodeId,
    choice: NodeId,
    part: &[Stmt],
) -> Result<bool, AllocError>
    ensures on { IfOk result (λ on. on ≡ (walks.list_comes (mark_at aim.now.barriers.now) aim.now.target cut node part.now && not (mark_at aim.now.barriers.now choice.0))) }
    ensures added { OnOk result (found.new.items ≡ found.old.items ++ walks.list_from (mark_at aim.now.barriers.now) aim.now.target cut node part.now) }
{
    let on = add_from(found, aim, cut, node, part)?;
    Ok(on && !is_marked(aim.barriers, choice))
}

fn begins_by(block: &[Stmt], node: NodeId) -> bool
    ensures { result ≡ walks.list_begins node block.now }
{
    match block.first() {
        None => false,
        Some(stmt) => stmt.node.id.0 <= node.0,
    }
}

/// Adds a statement that encloses the cut, where it is a `for` or the target is its own.
fn add_enclosing(found: &mut Vec<NodeId>, aim: &Aim, stmt: &Stmt) -> Result<(), AllocError>
    ensures { OnOk result (found.new.items ≡ found.old.items ++ walks.enclosing (mark_at aim.now.barriers.now) aim.now.target stmt.now.node.id stmt.now.kind) }
{
    if is_for(stmt) || node_of(aim.target).0 == stmt.node.id.0 {
        found.push(stmt.node.id)?;
    }
    Ok(())
}

fn is_for(stmt: &Stmt) -> bool
    ensures { result ≡ walks.is_for stmt.now.kind }
{
    match &stmt.kind {
        StmtKind::For { .. } => true,
        StmtKind::Set { .. } => false,
        StmtKind::Put { .. } => false,
        StmtKind::If { .. } => false,
        StmtKind::While { .. } => false,
        StmtKind::Hand { .. } => false,
        StmtKind::Skip => false,
    }
}

/// Adds what control enters in the cut's own statement from the cut on, and says whether it goes on behind it.
fn add_at_cut(found: &mut Vec<NodeId>, aim: &Aim, cut: Cut, stmt: &Stmt) -> Result<bool, AllocError>
    ensures on { IfOk result (λ on. on ≡ walks.leaves_cut (mark_at aim.now.barriers.now) aim.now.target cut stmt.now.node.id) }
    ensures added { OnOk result (found.new.items ≡ found.old.items ++ walks.at_cut (mark_at aim.now.barriers.now) aim.now.target cut stmt.now.kind) }
{
    match cut {
        Cut::Start => Ok(false),
        Cut::Head(_) => {
            add_turn(found, aim, stmt)?;
            Ok(false)
        }
        Cut::Exit(_) => Ok(!is_marked(aim.barriers, stmt.node.id)),
        Cut::After(_) => Ok(true),
    }
}

/// Adds what control enters from the test of a loop on.
fn add_turn(found: &mut Vec<NodeId>, aim: &Aim, stmt: &Stmt) -> Result<(), AllocError>
    ensures { OnOk result (found.new.items ≡ found.old.items ++ walks.turn (mark_at aim.now.barriers.now) aim.now.target stmt.now.kind) }
{
    match &stmt.kind {
        StmtKind::For { body, .. } => {
            add_block(found, aim, body.as_slice())?;
            Ok(())
        }
        StmtKind::While { test, body } => add_tested_turn(found, aim, test, body.as_slice()),
        StmtKind::If { .. } => Ok(()),
        StmtKind::Set { .. } => Ok(()),
        StmtKind::Put { .. } => Ok(()),
        StmtKind::Hand { .. } => Ok(()),
        StmtKind::Skip => Ok(()),
    }
}

/// Adds what control enters from the test of a `while` on.
#[tactic(auto, using(crate::proofs::Steps::test_ends, crate::proofs::Steps::test_goes_on))]
fn add_tested_turn(
    found: &mut Vec<NodeId>,
    aim: &Aim,
    test: &Cond,
    body: &[Stmt],
) -> Result<(), AllocError>
    ensures { OnOk result (found.new.items ≡ found.old.items ++ test.now.node.id ∷ (walks.lefts aim.now.target test.now.kind ++ (if walks.is_in_cond aim.now.target test.now.kind then [] else walks.list_entered (mark_at aim.now.barriers.now) aim.now.target body.now))) }
{
    if !add_test(found, aim.target, test)? {
        add_block(found, aim, body)?;
    }
    Ok(())
}
