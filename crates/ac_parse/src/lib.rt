//! Text to tree and back.
//!
//! The tokens of a text are read forwards by one machine a layer of the grammar: expressions and conditions below this crate,
//! statements and the program here. Each machine's definition stands in `specs/`; the laws in `proofs/` say that it reads
//! exactly what the grammar spells and stops exactly at the first token at which nothing continues. What a text is cut into
//! and how a program is printed is passed on from the crates below. The machine of statements and the counts of the limits serve
//! other readers of statements too.
//!
//! What is given up is dropped by name where its type has several parts: that is one call, while a drop at the end of a scope
//! is unrolled there, and proved, by the cases of each part.
#![tactic(auto)]

mod begun;
mod declaration;
mod headers;
mod laws;
mod parsing;
mod reading;
mod refusal;
pub mod statement;

pub use ac_program_printer::{a_printed_program_reads_back, print};
pub use ac_tokens::{TokenFault, tokenize, utf8_text};
pub use laws::{
    a_parsed_program_is_numbered, a_parsed_program_prints_back,
    a_program_within_the_limits_is_parsed, bytes_have_at_most_one_refusal,
    bytes_spell_at_most_one_program,
};
pub use parsing::{ParseFault, parse};
pub use reading::{nest, operate};
