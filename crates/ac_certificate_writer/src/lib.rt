//! Certificates written.
//!
//! `write_certificate` gives the text of a certificate, in time linear in the text. Each formula is printed where it stands and
//! looked for once, by its text, in a table of the formulas that have a line; none is compared with all earlier ones.
#![tactic(auto)]

mod certificate;
mod draft;
mod proof;
mod spelled;

pub use certificate::write_certificate;
