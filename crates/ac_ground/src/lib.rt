//! Falsifying valuations: finite tables of numbers under which a ground form is false.
//!
//! A comparison of two terms is brought to a normal form: a constant, the parts with a positive factor, which are the first
//! side, and those with a negative one, which are the second. A valuation gives numbers to sides. `specs/` says, in this
//! order, what number a side has, when a ground form is true, which reads stand in it, which pairs of terms are compared,
//! when a valuation falsifies, and which of these terms are too wide.
#![tactic(auto, unfolding(crate::specs::Opened::formula_shape, crate::specs::Opened::formula_child, crate::specs::Opened::term_shape, crate::specs::Opened::term_child, crate::specs::Opened::array_shape, crate::specs::Opened::array_child, crate::specs::Opened::hidden))]

mod cell;
mod compared;
pub mod examples;
mod falsify;
mod found;
mod gap;
mod index;
mod meeting;
mod number;
mod pair;
mod part;
mod put;
mod sum;
mod truth;
mod valuation;
mod wide;

pub use cell::Cell;
pub use falsify::falsifies;
pub use pair::Pair;
pub use sum::{NumberedPart, NumberedSum};
pub use truth::is_true;
pub use valuation::{Entry, Valuation};
pub use wide::is_wide;
