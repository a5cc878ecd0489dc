//! Labels: what the labels of a verification condition say of the program. Each stands at a node of the walk of the condition's
//! pair, and each condition aims at the label of its target.
//!
//! `specs/TargetLabels.antt` names that label; the conditions, their walks and what it is to aim at a label come from the crates
//! below. Nothing here runs.
#![tactic(auto, unfolding(crate::specs::Opened::formula_shape, crate::specs::Opened::formula_child, crate::specs::Opened::term_shape, crate::specs::Opened::term_child, crate::specs::Opened::array_shape, crate::specs::Opened::array_child, crate::specs::Opened::expr_shape, crate::specs::Opened::expr_child, crate::specs::Opened::cond_shape, crate::specs::Opened::cond_child, crate::specs::Opened::stmt_shape, crate::specs::Opened::stmt_child, crate::specs::Opened::hidden))]

pub mod examples;
pub mod laws;
