//! What short texts come to.
use ac_formula_reader::{FormulaFault, read_formula, read_term};
use ac_logic::{Formula, Term};
use ac_shared::Shared;
use std::alloc::Global;
use std::process::Abort;

pub fn formula_of<R: Abort>(
    rt: &R,
    alloc: Global,
    text: &str,
) -> Result<Shared<Formula>, FormulaFault> {
    assert!(rt; text.len() < 1000);
    read_formula(alloc, text)
}

pub fn term_of<R: Abort>(rt: &R, alloc: Global, text: &str) -> Result<Shared<Term>, FormulaFault> {
    assert!(rt; text.len() < 1000);
    read_term(alloc, text)
}

/// The byte of a refusal.
pub fn place_of<T: Drop>(read: Result<T, FormulaFault>) -> Option<u32> {
    match read {
        Err(FormulaFault::At { at }) => Some(at),
        _ => None,
    }
}
