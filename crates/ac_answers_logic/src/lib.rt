//! The driver's answers about formulas, ground forms, linear forms, differences and proofs.
#![tactic(auto)]

pub mod differences;
pub mod formulas;
pub mod ground_forms;
mod height;
pub mod linear;
pub mod proof_trees;
