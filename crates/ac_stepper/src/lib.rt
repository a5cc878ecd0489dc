//! Runs in code: the first configuration of a run, its steps and its events.
//!
//! A configuration is what the definitions of runs call one: the tasks that are left, the memory, the trace and whether
//! the run has halted. Contracts see it with its program and its start. A step first finds out what its task changes, and
//! then makes the change, so that a refusal leaves everything as it was.
#![tactic(auto, unfolding(crate::specs::Opened::hidden, crate::specs::Opened::stmt_shape, crate::specs::Opened::stmt_child))]

mod begin;
mod change;
mod config;
mod fault;
mod pending;
mod stack;
mod statement;
mod step;
mod task;

pub use begin::{StartFault, a_misfit_does_not_fit, begin_run};
pub use config::Config;
pub use fault::{StepFault, Stepped};
