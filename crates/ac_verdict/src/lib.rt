//! The verdict on the bytes of a program and of a policy file. This crate knows nothing of files.
//!
//! `certify_bytes` is the whole call, and its clauses are the headline and the cause of every outcome. It is put together
//! of `read_program`, which ends before the policy is looked at, and `judge`.
#![tactic(auto, unfolding(crate::specs::Opened::expr_shape, crate::specs::Opened::expr_child, crate::specs::Opened::hidden))]

mod accepted_program;
mod certify;
mod count;
mod findings;
mod laws;
mod outcome;
mod policy;
mod policy_fault;
mod policy_report;
mod program_fault;
mod report;
mod sites;
mod supported;
mod writes;

pub use accepted_program::{AcceptedProgram, read_program};
pub use certify::{certify_bytes, judge};
pub use count::Count;
pub use laws::bytes_have_one_outcome;
pub use outcome::Outcome;
pub use policy_fault::{PatternFault, PolicyFault};
pub use program_fault::ProgramFault;
