//! Marks on nodes, by their numbers.
ghost use Rattle.std.specs.Prelude.{◌≡◌, ℕ, OnOk, IfOk, ◌||◌, nat_eq};
ghost use Rattle.ac_flow.specs.Marks.{mark_at};
ghost use Rattle.ac_flow.specs.Cuts.{has_place, has_barrier};
ghost use Rattle.ac_flow.specs.Pairs.{is_subject};

use ac_tree::{Cut, NodeId, Place};
use std::alloc::{AllocError, Global};

/// Whether the node with a number is marked.
pub fn is_marked(marks: &[bool], node: NodeId) -> bool
    ensures { result ≡ mark_at marks.now node.0 }
{
    match marks.get(node.0 as usize) {
        Some(mark) => *mark,
        None => false,
    }
}

fn mark(marks: &mut Vec<bool>, node: NodeId) -> Result<(), AllocError>
    ensures { OnOk result ((n : ℕ) → mark_at marks.new.items n ≡ (mark_at marks.old.items n || nat_eq node.0 n)) }
{
    let at = node.0 as usize;
    if marks.len() <= at {
        marks.resize(at + 1, false)?;
    }
    marks[at] = true;
    Ok(())
}

/// Marks the statements that have a barrier behind them by the places of annotations.
pub fn mark_places(alloc: Global, places: &[Place]) -> Result<Vec<bool>, AllocError>
    ensures { IfOk result (λ marks. (n : ℕ) → mark_at marks.items n ≡ has_place places.now n) }
{
    let mut marks = Vec::new(alloc);
    for place in places {
        if let Place::After(node) = place {
            mark(&mut marks, *node)?;
        }
    }
    Ok(marks)
}

/// Marks the statements that have a barrier behind them by the cuts.
pub fn mark_cuts(alloc: Global, cuts: &[Cut]) -> Result<Vec<bool>, AllocError>
    ensures { IfOk result (λ marks. (n : ℕ) → mark_at marks.items n ≡ has_barrier cuts.now n) }
{
    let mut marks = Vec::new(alloc);
    for cut in cuts {
        if let Cut::After(node) = cut {
            mark(&mut marks, *node)?;
        }
    }
    Ok(marks)
}

/// Marks some nodes.
pub fn mark_nodes(alloc: Global, nodes: &[NodeId]) -> Result<Vec<bool>, AllocError>
    ensures { IfOk result (λ marks. (n : ℕ) → mark_at marks.items n ≡ is_subject nodes.now n) }
{
    let mut marks = Vec::new(alloc);
    for node in nodes {
        mark(&mut marks, *node)?;
    }
    Ok(marks)
}
