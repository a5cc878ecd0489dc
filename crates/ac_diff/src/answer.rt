//! The solver: rounds of relaxing, and then a point or a cycle.
ghost use Rattle.std.specs.Prelude.{◌≡◌, ◌+◌, ◌<◌, ℕ, length, IfOk};
ghost use Rattle.ac_diff.specs.Nodes.{IsReached, IsBounded, MeetsAt};
ghost use Rattle.ac_diff.specs.Differences.{AreFacts, IsAnswer, IsPoint};

use crate::cycle::cycle;
use crate::diff::{Diff, DiffAnswer};
use crate::node::{Node, place, start};
use crate::round::{relaxed, violated};
use std::alloc::{AllocError, Global};

/// A point that meets every fact, or a cycle of facts that contradicts. It relaxes in rounds, at most as many as there are
/// nodes; a fact that is violated behind them all leads to a cycle.
pub fn solve(alloc: Global, units: usize, facts: &[Diff]) -> Result<DiffAnswer, AllocError>
    requires { AreFacts units facts.now }
    ensures { IfOk result (IsAnswer units facts.now) }
{
    let mut nodes = start(alloc, units)?;
    let count = nodes.len();
    let mut last = 0;
    for round in 0..count {
        match violated(units, facts, nodes.as_slice()) {
            None => {
                let values = point(alloc, units, facts, nodes.as_slice())?;
                return Ok(DiffAnswer::Point(values));
            }
            Some(i) => {
                last = place(units, facts[i].plus);
                nodes = relaxed(alloc, units, facts, nodes.as_slice(), round + 1)?;
            }
        }
    }
    let facts_of_cycle = cycle(alloc, units, facts, nodes.as_slice(), last)?;
    Ok(DiffAnswer::Cycle(facts_of_cycle))
}

/// The values of the units, measured from the value of 0.
fn point(
    alloc: Global,
    units: usize,
    facts: &[Diff],
    nodes: &[Node],
) -> Result<Vec<i128>, AllocError>
    requires facts { AreFacts units facts.now }
    requires nodes { length nodes.now ≡ units + 1 }
    requires bounded { IsBounded units nodes.now }
    requires met { (j : ℕ) → j < length facts.now → MeetsAt facts.now nodes.now j }
    ensures { IfOk result (λ values. IsPoint units facts.now values.items) }
{
    let mut values = Vec::new(alloc);
    for k in 0..units {
        values.push(nodes[k + 1].value - nodes[0].value)?;
    }
    Ok(values)
}
