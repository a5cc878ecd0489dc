//! Linear forms: the normal form of a term, and combinations of normal forms.
//!
//! A normal form is a whole number and factors of different units, where a unit is a symbol, a read or a product that
//! is not linear. Under every valuation it has the number of the term that it comes from.
#![tactic(auto, unfolding(crate::specs::Opened::term_shape, crate::specs::Opened::term_child, crate::specs::Opened::array_shape, crate::specs::Opened::array_child, crate::specs::Opened::hidden))]

mod combination;
mod entry;
mod fault;
mod fold;
mod form;
mod laws;
mod linear;
mod normal_form;
mod place;
mod printed;
mod range;
mod unit;
mod written;

pub use combination::{combine, combine_printed};
pub use fault::LinFault;
pub use laws::{combination_law, combination_order_law, normal_law, normal_order_law};
pub use linear::{Linear, Part};
pub use normal_form::normal;
pub use printed::PrintedLinear;
