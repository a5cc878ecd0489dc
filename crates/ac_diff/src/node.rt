//! Nodes: number 0 stands for the number 0, number k + 1 for unit k.
ghost use Rattle.std.specs.Prelude.{◌≡◌, ◌+◌, ◌<◌, ℕ, pos, length, IfOk};
ghost use Rattle.ac_diff.specs.Nodes.{at, place, IsStart};
ghost use Rattle.ac_diff.specs.Differences.{IsSide};

use std::alloc::{AllocError, Global};

/// The value of a node, the round in which it last became less, and the fact by which it did.
#[derive(Clone, Copy)]
pub struct Node {
    pub value: i128,
    pub round: usize,
    pub via: usize,
}

/// The node of a side of a fact.
pub fn place(units: usize, side: Option<usize>) -> usize
    requires { IsSide units side }
    ensures { result ≡ place side }
{
    match side {
        None => 0,
        Some(k) => k + 1,
    }
}

/// Node k begins at k, so that no two units are equal by accident.
pub fn start(alloc: Global, units: usize) -> Result<Vec<Node>, AllocError>
    ensures { IfOk result (λ nodes. IsStart units nodes.items) }
{
    let mut nodes = Vec::new(alloc);
    nodes.push(Node {
        value: 0,
        round: 0,
        via: 0,
    })?;
    for k in 0..units {
        nodes.push(Node {
            value: k as i128 + 1,
            round: 0,
            via: 0,
        })?;
    }
    Ok(nodes)
}
