//! The lines of a certificate: what each says, its JSON object, and its text.
//!
//! A certificate's text is a list of lines, each one compact JSON object. A line gives the text of a formula, which gets the
//! next number, or it says of the formula with a number that it stands at a place, is a condition of a pair, or is shown by a
//! step. `specs/CertificateText.antt` says which lines a certificate has.
#![tactic(auto)]

mod line;
mod point;
mod rule;
mod text;
mod value;
mod words;
mod write;

pub use line::{Claim, Line, SpelledRule};
pub use text::Text;
pub use words::{
    cut_node, cut_word, place_node, place_word, policy_word, target_node, target_word,
};
pub use write::write_line;
