//! Copies of parts of a program, with their nodes.
#![tactic(auto)]

mod copy;

pub use copy::{copy_block, copy_cond, copy_expr, copy_stmt};
