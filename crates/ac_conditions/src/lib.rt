//! Verification conditions: what has to hold so that no run of a program does what a policy forbids.
#![tactic(auto, unfolding(crate::specs::Opened::formula_shape, crate::specs::Opened::formula_child, crate::specs::Opened::term_shape, crate::specs::Opened::term_child, crate::specs::Opened::array_shape, crate::specs::Opened::array_child, crate::specs::Opened::expr_shape, crate::specs::Opened::expr_child, crate::specs::Opened::cond_shape, crate::specs::Opened::cond_child, crate::specs::Opened::stmt_shape, crate::specs::Opened::stmt_child, crate::specs::Opened::hidden))]

pub mod examples;
pub mod laws;
