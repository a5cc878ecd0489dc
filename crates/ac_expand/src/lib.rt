//! Ground forms: a formula without `all`, of which a falsifying valuation says enough.
//!
//! An `all` is shown where an even number of negations and left sides of implications is around it, and assumed elsewhere.
//! A shown one is opened at a new name, an assumed one at every index term: at the indexes that stand in the formula and at
//! the new names of the shown ones. `specs/` says, in this order, which terms these are, how many instances there are, and
//! what the ground form is.
#![tactic(auto, unfolding(crate::specs::Opened::formula_shape, crate::specs::Opened::formula_child, crate::specs::Opened::term_shape, crate::specs::Opened::term_child, crate::specs::Opened::array_shape, crate::specs::Opened::array_child, crate::specs::Opened::hidden))]

mod answer;
mod bound;
mod count;
mod digest;
pub mod examples;
mod expansion;
mod index;
mod key;
mod laws;
mod names;
mod walk;

pub use answer::{ExpandFault, Ground};
pub use expansion::expand;
pub use laws::instance_law;
