//! The top call: it reads the words, loads the files, asks `ac_verdict` for the outcome of their bytes and reports it.
#![tactic(auto)]

mod answer;
mod certify;
mod status;
mod words;

pub use answer::Answer;
pub use certify::autocert;
pub use status::Status;
