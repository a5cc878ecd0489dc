//! The driver's answers about verification conditions and parts of certificates.
#![tactic(auto)]

mod annotations;
pub mod certificates;
pub mod condition_lists;
mod part_reader;
pub mod parts;
mod policy_words;
