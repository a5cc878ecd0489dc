//! How control comes through statements: whether it passes without a cut, and from which cuts inside it comes out.
ghost use Rattle.std.specs.Prelude.{◌≡◌, [], ◌∷◌, ◌++◌, OnOk};
ghost use Rattle.ac_flow.specs.Through.{passes, goes_on, leaving, list_passes};
ghost use Rattle.ac_flow.specs.ThroughLists.{list_exits};
ghost use Rattle.ac_flow.specs.Marks.{mark_at};

use crate::marks::is_marked;
use ac_tree::{Cut, Stmt, StmtKind};
use std::alloc::AllocError;

/// Whether control comes through a statement and leaves it without passing a cut.
#[cycle(passing)]
#[tactic(auto, using(crate::proofs::Blocks::passes_if))]
pub fn is_left(barriers: &[bool], stmt: &Stmt) -> bool
    ensures { result ≡ goes_on (mark_at barriers.now) stmt.now.node.id stmt.now.kind }
{
    if is_marked(barriers, stmt.node.id) {
        return false;
    }
    match &stmt.kind {
        StmtKind::If { yes, no, .. } => {
            is_passed(barriers, yes.as_slice()) || is_passed(barriers, no.as_slice())
        }
        StmtKind::For { .. } => false,
        StmtKind::While { .. } => false,
        StmtKind::Set { .. } => true,
        StmtKind::Put { .. } => true,
        StmtKind::Hand { .. } => true,
        StmtKind::Skip => true,
    }
}

/// Whether control comes through a block without passing a cut.
#[cycle(passing)]
pub fn is_passed(barriers: &[bool], block: &[Stmt]) -> bool
    ensures { result ≡ list_passes (mark_at barriers.now) block.now }
{
    for stmt in block {
        if !is_left(barriers, stmt) {
            return false;
        }
    }
    true
}

/// Adds the cuts in a statement and behind it from which control leaves it.
#[cycle(leaving)]
#[tactic(auto, using(crate::proofs::Blocks::exits_if))]
pub fn add_leaving(live: &mut Vec<Cut>, barriers: &[bool], stmt: &Stmt) -> Result<(), AllocError>
    ensures { OnOk result (live.new.items ≡ live.old.items ++ leaving (mark_at barriers.now) stmt.now.node.id stmt.now.kind) }
{
    let node = stmt.node.id;
    if is_marked(barriers, node) {
        live.push(Cut::After(node))?;
        return Ok(());
    }
    match &stmt.kind {
        StmtKind::If { yes, no, .. } => {
            add_exits(live, barriers, yes.as_slice())?;
            add_exits(live, barriers, no.as_slice())?;
            Ok(())
        }
        StmtKind::For { .. } => add_exit(live, stmt),
        StmtKind::While { .. } => add_exit(live, stmt),
        StmtKind::Set { .. } => Ok(()),
        StmtKind::Put { .. } => Ok(()),
        StmtKind::Hand { .. } => Ok(()),
        StmtKind::Skip => Ok(()),
    }
}

fn add_exit(live: &mut Vec<Cut>, stmt: &Stmt) -> Result<(), AllocError>
    ensures { OnOk result (live.new.items ≡ live.old.items ++ Cut.Exit stmt.now.node.id ∷ []) }
{
    live.push(Cut::Exit(stmt.node.id))?;
    Ok(())
}

/// Adds the cuts inside a block from which control comes to its end.
#[cycle(leaving)]
pub fn add_exits(live: &mut Vec<Cut>, barriers: &[bool], block: &[Stmt]) -> Result<(), AllocError>
    ensures { OnOk result (live.new.items ≡ live.old.items ++ list_exits (mark_at barriers.now) block.now) }
{
    let floor = live.len();
    for stmt in block {
        if !is_left(barriers, stmt) {
            live.truncate(floor);
        }
        add_leaving(live, barriers, stmt)?;
    }
    Ok(())
}
