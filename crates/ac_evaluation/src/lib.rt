//! Expressions and conditions evaluated in code, within 128 bits.
//!
//! A store holds the memory of a run and finds its names by tables. An evaluation reads from left to right and notes each
//! read; it ends with the number, at the first read outside, or at the first number that 128 bits don't hold.
//! `specs/Numbers` says which numbers an evaluation makes, `specs/Evaluates` how it ends.
#![tactic(auto, unfolding(crate::specs::Opened::hidden, crate::specs::Opened::expr_shape, crate::specs::Opened::expr_child, crate::specs::Opened::cond_shape, crate::specs::Opened::cond_child))]

mod arithmetic;
mod condition;
mod evaluation;
mod extents;
mod fits;
mod lookups;
mod places;
mod shape;
mod start;
mod stop;
mod store;

pub use stop::Stop;
pub use store::{Store, cell, note, scalar};
