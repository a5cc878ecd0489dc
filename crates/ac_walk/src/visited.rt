//! The walk.
ghost use Rattle.std.specs.Prelude.{◌≡◌, ◌++◌, IfOk, OnOk};
ghost use Rattle.std.specs.List.{list_any};
ghost use Rattle.ac_flow.specs.Pairs.{is_node};
ghost use Rattle.ac_walk.specs.Walks.{inputs, with_node, walk_of};
ghost use Rattle.ac_walk.specs.Walks as walks;

use crate::from_cut::add_path;
use crate::onward::Aim;
use crate::targets::node_of;
use ac_flow::marks::mark_cuts;
use ac_tree::{Cut, Item, ItemKind, NodeId, Pair, Program};
use std::alloc::{AllocError, Global};

/// The nodes that the condition of a pair visits: the inputs, what encloses the cut and what the paths from it enter, and the
/// target.
pub fn walk(
    alloc: Global,
    program: &Program,
    cuts: &[Cut],
    pair: &Pair,
) -> Result<Vec<NodeId>, AllocError>
    ensures { IfOk result (λ found. found.items ≡ walk_of program.now cuts.now pair.now) }
{
    let barriers = mark_cuts(alloc, cuts)?;
    let aim = Aim {
        barriers: barriers.as_slice(),
        target: pair.target,
    };
    let mut found = Vec::new(alloc);
    add_inputs(&mut found, program.items.as_slice())?;
    add_path(&mut found, &aim, pair.cut, program.body.as_slice())?;
    add_last(&mut found, node_of(pair.target))?;
    Ok(found)
}

fn add_inputs(found: &mut Vec<NodeId>, items: &[Item]) -> Result<(), AllocError>
    ensures { OnOk result (found.new.items ≡ found.old.items ++ inputs items.now) }
{
    for item in items {
        if is_input(item) {
            found.push(item.node.id)?;
        }
    }
    Ok(())
}

fn is_input(item: &Item) -> bool
    ensures { result ≡ walks.is_input item.now.kind }
{
    match &item.kind {
        ItemKind::Const { .. } => false,
        ItemKind::InputScalar { .. } => true,
        ItemKind::InputArray { .. } => true,
        ItemKind::VarScalar => false,
        ItemKind::VarArray { .. } => false,
    }
}

/// Adds a node, unless it is there.
fn add_last(found: &mut Vec<NodeId>, node: NodeId) -> Result<(), AllocError>
    ensures { OnOk result (found.new.items ≡ with_node node found.old.items) }
{
    if !is_found(found.as_slice(), node) {
        found.push(node)?;
    }
    Ok(())
}

fn is_found(found: &[NodeId], node: NodeId) -> bool
    ensures { result ≡ list_any (is_node node.0) found.now }
{
    for other in found {
        if other.0 == node.0 {
            return true;
        }
    }
    false
}
