//! A form written as a term: its parts in order, and then its constant.
ghost use Rattle.std.specs.Prelude.{◌≡◌, IfOk};
ghost use Rattle.ac_linear.specs.NormalForm.{number_term, sum_of, term_of_entry, term_of_form, with_constant};

use crate::entry::{Entry, Form};
use ac_logic::Term;
use ac_shared::Shared;
use std::alloc::{AllocError, Global};

/// The form as a term, or none where a number leaves the range.
pub fn term_of_form(alloc: Global, form: &Form) -> Result<Option<Shared<Term>>, AllocError>
    ensures { IfOk result (λ term. term ≡ term_of_form form.now) }
{
    let [first, rest @ ..] = form.entries.items.as_slice() else {
        return number_term(alloc, form.constant);
    };
    let Some(first) = term_of_entry(alloc, first)? else {
        return Ok(None);
    };
    let Some(sum) = sum_of(alloc, first, rest)? else {
        return Ok(None);
    };
    with_constant(alloc, sum, form.constant)
}

fn number_term(alloc: Global, n: i128) -> Result<Option<Shared<Term>>, AllocError>
    ensures { IfOk result (λ term. term ≡ number_term n) }
{
    if n < -(1 << 62) || 1 << 62 < n {
        return Ok(None);
    }
    let term = Shared::new(alloc, Term::Num(n as i64))?;
    Ok(Some(term))
}

fn term_of_entry(alloc: Global, entry: &Entry) -> Result<Option<Shared<Term>>, AllocError>
    ensures { IfOk result (λ term. term ≡ term_of_entry entry.now) }
{
    if entry.factor == 1 {
        let unit = entry.unit.share()?;
        return Ok(Some(unit));
    }
    let Some(factor) = number_term(alloc, entry.factor)? else {
        return Ok(None);
    };
    let unit = entry.unit.share()?;
    let term = Shared::new(alloc, Term::Mul(factor, unit))?;
    Ok(Some(term))
}

fn sum_of(
    alloc: Global,
    first: Shared<Term>,
    rest: &[Entry],
) -> Result<Option<Shared<Term>>, AllocError>
    ensures { IfOk result (λ term. term ≡ sum_of first rest.now) }
{
    let mut sum = first;
    for entry in rest {
        let Some(term) = term_of_entry(alloc, entry)? else {
            return Ok(None);
        };
        sum = Shared::new(alloc, Term::Add(sum, term))?;
    }
    Ok(Some(sum))
}

fn with_constant(
    alloc: Global,
    term: Shared<Term>,
    n: i128,
) -> Result<Option<Shared<Term>>, AllocError>
    ensures { IfOk result (λ sum. sum ≡ with_constant term n) }
{
    if n == 0 {
        return Ok(Some(term));
    }
    let Some(constant) = number_term(alloc, n)? else {
        return Ok(None);
    };
    let sum = Shared::new(alloc, Term::Add(term, constant))?;
    Ok(Some(sum))
}
