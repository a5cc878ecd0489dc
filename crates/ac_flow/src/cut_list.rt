//! The cuts of a program.
ghost use Rattle.std.specs.Prelude.{◌≡◌, ◌++◌, ◌∷◌, IfOk, OnOk};
ghost use Rattle.ac_flow.specs.Cuts.{has_place, after, stmt_cuts, list_cuts, cuts_of};
ghost use Rattle.ac_flow.specs.Marks.{mark_at};

use crate::marks::{is_marked, mark_places};
use ac_tree::{Cut, NodeId, Place, Program, Stmt, StmtKind};
use std::alloc::{AllocError, Global};

/// The points at which paths begin, in their order: the start, each loop before a test and behind the last one, and behind
/// each statement whose place has an annotation.
pub fn cuts(alloc: Global, program: &Program, places: &[Place]) -> Result<Vec<Cut>, AllocError>
    ensures { IfOk result (λ found. found.items ≡ cuts_of (has_place places.now) program.now) }
{
    let barriers = mark_places(alloc, places)?;
    let mut found = Vec::new(alloc);
    found.push(Cut::Start)?;
    add_block(&mut found, barriers.as_slice(), program.body.as_slice())?;
    Ok(found)
}

#[cycle(stmt_cuts)]
fn add_block(found: &mut Vec<Cut>, barriers: &[bool], block: &[Stmt]) -> Result<(), AllocError>
    ensures { OnOk result (found.new.items ≡ found.old.items ++ list_cuts (mark_at barriers.now) block.now) }
{
    for stmt in block {
        add_stmt(found, barriers, stmt)?;
    }
    Ok(())
}

#[cycle(stmt_cuts)]
#[tactic(auto, using(crate::proofs::Blocks::cuts_if, crate::proofs::Blocks::cuts_for, crate::proofs::Blocks::cuts_while))]
fn add_stmt(found: &mut Vec<Cut>, barriers: &[bool], stmt: &Stmt) -> Result<(), AllocError>
    ensures { OnOk result (found.new.items ≡ found.old.items ++ stmt_cuts (mark_at barriers.now) stmt.now.node.id stmt.now.kind) }
{
    let node = stmt.node.id;
    match &stmt.kind {
        StmtKind::If { yes, no, .. } => {
            add_after(found, barriers, node)?;
            add_block(found, barriers, yes.as_slice())?;
            add_block(found, barriers, no.as_slice())?;
            Ok(())
        }
        StmtKind::For { body, .. } => {
            add_loop(found, barriers, node)?;
            add_block(found, barriers, body.as_slice())?;
            Ok(())
        }
        StmtKind::While { body, .. } => {
            add_loop(found, barriers, node)?;
            add_block(found, barriers, body.as_slice())?;
            Ok(())
        }
        StmtKind::Set { .. } => add_after(found, barriers, node),
        StmtKind::Put { .. } => add_after(found, barriers, node),
        StmtKind::Hand { .. } => add_after(found, barriers, node),
        StmtKind::Skip => add_after(found, barriers, node),
    }
}

fn add_loop(found: &mut Vec<Cut>, barriers: &[bool], node: NodeId) -> Result<(), AllocError>
    ensures { OnOk result (found.new.items ≡ found.old.items ++ Cut.Head node ∷ Cut.Exit node ∷ after (mark_at barriers.now) node) }
{
    found.push(Cut::Head(node))?;
    found.push(Cut::Exit(node))?;
    add_after(found, barriers, node)
}

fn add_after(found: &mut Vec<Cut>, barriers: &[bool], node: NodeId) -> Result<(), AllocError>
    ensures { OnOk result (found.new.items ≡ found.old.items ++ after (mark_at barriers.now) node) }
{
    if is_marked(barriers, node) {
        found.push(Cut::After(node))?;
    }
    Ok(())
}
