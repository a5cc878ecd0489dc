//! The statements that the tokens of a pattern's code spell, as a block of a program in which each metavariable stands as a
//! phrase of its own text.
#![tactic(auto)]

mod laws;
mod reading;
mod spreading;

pub use laws::tokens_spell_at_most_one_block;
pub use reading::read_block;
