//! Differences of units: a point that meets all of them, or a cycle of them that contradicts.
#![tactic(auto)]

mod answer;
mod cycle;
mod diff;
mod node;
mod round;

pub use answer::solve;
pub use diff::{Diff, DiffAnswer};
