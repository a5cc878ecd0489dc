//! The tokens of a pattern's code: those of program text, with metavariables as names that have their sign.
#![tactic(auto)]

mod cutting;
mod laws;
mod signs;

pub use cutting::code_tokens;
pub use laws::a_code_is_cut_in_one_way;
pub use signs::{has_sign, is_sign, is_signed};
