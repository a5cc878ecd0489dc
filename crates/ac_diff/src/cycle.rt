//! The cycle that the facts by which nodes became less lead to.
ghost use Rattle.std.specs.Prelude.{◌≡◌, ◌+◌, ◌<◌, ◌≤◌, ℕ, length, IfOk};
ghost use Rattle.ac_diff.specs.Nodes.{at, IsReached, IsWalked, IsTrimmed, numbers};
ghost use Rattle.ac_diff.specs.Differences.{AreFacts, IsCycle};

use crate::diff::Diff;
use crate::node::{Node, place};
use std::alloc::{AllocError, Global};

/// A walk back: where it comes to a node again, and which facts it went along.
#[derive(Drop)]
pub struct Walk {
    pub end: usize,
    pub used: Vec<bool>,
}

/// The facts of a cycle, where a node became less in as many rounds as there are nodes.
pub fn cycle(
    alloc: Global,
    units: usize,
    facts: &[Diff],
    nodes: &[Node],
    last: usize,
) -> Result<Vec<usize>, AllocError>
    requires facts { AreFacts units facts.now }
    requires nodes { length nodes.now ≡ units + 1 }
    requires reached { IsReached facts.now (length nodes.now) nodes.now }
    requires last { (last < length nodes.now) × ((at nodes.now last).round ≡ length nodes.now) }
    ensures { IfOk result (λ is. IsCycle facts.now is.items) }
{
    let walk = walked(alloc, units, facts, nodes, last)?;
    let used = trimmed(units, facts, nodes, last, walk);
    let facts_of_cycle = marked(alloc, used.as_slice())?;
    Ok(facts_of_cycle)
}

/// Walks back from the last node, by the facts by which nodes became less, until it comes to a node again.
fn walked(
    alloc: Global,
    units: usize,
    facts: &[Diff],
    nodes: &[Node],
    last: usize,
) -> Result<Walk, AllocError>
    requires facts { AreFacts units facts.now }
    requires nodes { length nodes.now ≡ units + 1 }
    requires reached { IsReached facts.now (length nodes.now) nodes.now }
    requires last { (last < length nodes.now) × ((at nodes.now last).round ≡ length nodes.now) }
    ensures { IfOk result (λ walk. IsWalked facts.now nodes.now last walk.end walk.used.items) }
{
    let mut seen = vec![in alloc; false; nodes.len()]?;
    let mut used = vec![in alloc; false; facts.len()]?;
    let mut node = last;
    while !seen[node] {
        seen[node] = true;
        let i = nodes[node].via;
        used[i] = true;
        node = place(units, facts[i].minus);
    }
    Ok(Walk { end: node, used })
}

/// Without the facts of the walk before it comes to its last node for the first time.
fn trimmed(units: usize, facts: &[Diff], nodes: &[Node], last: usize, walk: Walk) -> Vec<bool>
    requires facts { AreFacts units facts.now }
    requires nodes { length nodes.now ≡ units + 1 }
    requires last { last < length nodes.now }
    requires walk { IsWalked facts.now nodes.now last walk.end walk.used.items }
    ensures { IsTrimmed facts.now nodes.now result.items }
{
    let Walk { end, mut used } = walk;
    let mut node = last;
    while node != end {
        let i = nodes[node].via;
        used[i] = false;
        node = place(units, facts[i].minus);
    }
    used
}

/// The places that are marked.
fn marked(alloc: Global, used: &[bool]) -> Result<Vec<usize>, AllocError>
    ensures { IfOk result (λ is. is.items ≡ numbers 0 used.now) }
{
    let mut is = Vec::new(alloc);
    for i in 0..used.len() {
        if used[i] {
            is.push(i)?;
        }
    }
    Ok(is)
}
