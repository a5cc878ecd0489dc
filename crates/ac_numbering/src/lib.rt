//! The nodes of a program numbered from 0 in the order of its text.
#![tactic(auto)]

mod numbering;

pub use numbering::number;
