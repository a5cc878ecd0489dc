//! The reader of formula text: tokens, the machine run on them, and the tree that a text spells.
#![tactic(auto, unfolding(crate::specs::Opened::formula_shape, crate::specs::Opened::formula_child, crate::specs::Opened::term_shape, crate::specs::Opened::term_child, crate::specs::Opened::array_shape, crate::specs::Opened::array_child, crate::specs::Opened::hidden))]

pub mod ending;
mod laws;
pub mod machine;
mod read;
pub mod tokens;

pub use laws::{one_refusal_law, one_tree_law};
pub use read::{FormulaFault, read_formula, read_term};
