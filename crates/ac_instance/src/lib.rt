//! Instances of a pattern's formulas: the values of a match put in, and whether the result speaks of the program.
#![tactic(auto, unfolding(crate::specs::Opened::formula_shape, crate::specs::Opened::formula_child, crate::specs::Opened::term_shape, crate::specs::Opened::term_child, crate::specs::Opened::array_shape, crate::specs::Opened::array_child, crate::specs::Opened::hidden))]

mod changes;
mod fault;
mod judge;
mod put_in;
mod which;

pub use fault::{InstanceFault, Reason};
pub use put_in::instance;
pub use which::Which;
