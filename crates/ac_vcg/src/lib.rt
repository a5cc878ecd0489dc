//! The list of the verification conditions of a program.
#![tactic(auto, unfolding(crate::specs::Opened::formula_shape, crate::specs::Opened::formula_child, crate::specs::Opened::term_shape, crate::specs::Opened::term_child, crate::specs::Opened::array_shape, crate::specs::Opened::array_child, crate::specs::Opened::expr_shape, crate::specs::Opened::expr_child, crate::specs::Opened::cond_shape, crate::specs::Opened::cond_child, crate::specs::Opened::stmt_shape, crate::specs::Opened::stmt_child, crate::specs::Opened::hidden))]

mod condition_list;
mod fault;
mod found;
mod limits;
mod one_target;
mod plan;
mod walk;

pub use condition_list::conditions;
pub use fault::VcgFault;
