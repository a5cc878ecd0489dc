//! Asks of the driver in JSON: what stands under their keys, and numbers both ways.
#![tactic(auto)]

mod keys;
mod numbers;

pub use keys::{Answer, list_at, text_at, told};
pub use numbers::{number_of, numbers_of, whole, wholes};
