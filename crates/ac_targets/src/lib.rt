//! What is read off a program before its paths are followed: everything that a condition can aim at, what is known of the inputs,
//! and whether the nodes are in order.
#![tactic(auto, unfolding(crate::specs::Opened::formula_shape, crate::specs::Opened::formula_child, crate::specs::Opened::term_shape, crate::specs::Opened::term_child, crate::specs::Opened::array_shape, crate::specs::Opened::array_child, crate::specs::Opened::expr_shape, crate::specs::Opened::expr_child, crate::specs::Opened::cond_shape, crate::specs::Opened::cond_child, crate::specs::Opened::stmt_shape, crate::specs::Opened::stmt_child, crate::specs::Opened::hidden))]

mod input_ranges;
mod numbered;
mod target_list;

pub use input_ranges::ranges;
pub use numbered::is_numbered;
pub use target_list::targets;
