//! Bytes cut into tokens, for the readers of programs and of formulas.
//!
//! `utf8_text` says whether bytes are a text, and `tokenize` cuts the text of a program or tells its first fault. What other
//! readers share with it stands beside them: the piece at a place, the runs of bytes of one kind, the text of bytes in ASCII,
//! and the signs of two bytes.
#![tactic(auto)]

mod run;
mod sign;
mod text;
mod token_fault;
mod tokens;

pub use run::{Run, run_length};
pub use sign::joined_sign;
pub use text::{ascii_text, utf8_text};
pub use token_fault::TokenFault;
pub use tokens::{Piece, piece_at, tokenize};
