//! What a path formula is made of, or what is to be known of it before it is made.
//!
//! A walk from the end of a program to its start makes a precondition: the formula itself, its measure (how large and how deep
//! it is, and how often and how deep each symbol occurs in it, or only that it is too large), or only that there is one. The
//! trait says what each of them stands for, so that one walk serves all three.
#![tactic(auto, unfolding(crate::specs::Opened::formula_shape, crate::specs::Opened::formula_child, crate::specs::Opened::term_shape, crate::specs::Opened::term_child, crate::specs::Opened::array_shape, crate::specs::Opened::array_child, crate::specs::Opened::hidden))]

mod counts;
mod measure;
mod precondition;
mod profile;
mod reached;

pub use measure::Measure;
pub use precondition::{Made, Precondition};
pub use profile::Profile;
pub use reached::Reached;
