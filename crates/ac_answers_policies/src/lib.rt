//! The driver's answers about sites and policies.
#![tactic(auto)]

pub mod policies;
