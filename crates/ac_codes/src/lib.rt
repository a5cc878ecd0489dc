//! Patterns of code: what a pattern is, and what a match of it with a run of statements is.
//!
//! A pattern has statements with metavariables, formulas that hold where they stand, and side conditions. `specs/` says, in
//! this order, when trees are the same up to nodes, what metavariables stand for, when a code filled with values is a run,
//! the side conditions, and what a match is.
#![tactic(auto)]

mod code;
mod laws;
mod meta_list;
mod pattern;

pub use code::{CodeBlock, CodeCond, CodeExpr, CodeIndex, CodeName, CodeStmt};
pub use laws::a_run_has_at_most_one_match;
pub use meta_list::metavariables;
pub use pattern::{ApartPair, Match, MatchValue, Pattern};
