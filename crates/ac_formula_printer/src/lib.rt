//! The text of formulas: its grammar, and how a formula and a term are printed.
#![tactic(auto, unfolding(crate::specs::Opened::formula_shape, crate::specs::Opened::formula_child, crate::specs::Opened::term_shape, crate::specs::Opened::term_child, crate::specs::Opened::array_shape, crate::specs::Opened::array_child, crate::specs::Opened::hidden))]

mod formula_text;
mod laws;
mod mark;
mod term_text;

pub use formula_text::{print_formula, print_term};
pub use laws::print_reads_back_law;
pub use mark::FormulaMark;
