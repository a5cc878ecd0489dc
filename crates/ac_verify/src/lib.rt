//! The one door over all selected policies.
//!
//! `verify` holds a certificate against a program and a set of policies. It is accepted only where its parts are those of the
//! selected policies in their order, and each part shows all conditions of its policy, made anew. Then no run of the program
//! violates a selected policy, whatever made the certificate. `specs/` says when a certificate is accepted and why it is
//! refused.
#![tactic(auto)]

mod verified;

pub use verified::{Verified, have_small_indexes, verify};
