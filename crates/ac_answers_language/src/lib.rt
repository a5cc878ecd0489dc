//! The driver's answers about programs, their runs and their control flow.
#![tactic(auto)]

pub mod flow;
pub mod programs;
pub mod runs;
mod spans;
