//! The normal form of a term.
ghost use Rattle.std.specs.Prelude.{◌≡◌, IfOk, option_map};
ghost use Rattle.ac_linear.specs.NormalForm.{form_of, number_form, within};
ghost use Rattle.ac_linear.specs.declared.range.Range.TheVariants.{Coefficient};

use crate::entry::Form;
use crate::form::plus;
use crate::range::Range;
use crate::unit::{copied, number_form, read_form, times, unit_form};
use ac_logic::Term;
use ac_shared::Shared;
use std::alloc::{AllocError, Global};

/// The form of a term, with prints, or none where a number leaves the range.
#[tactic(auto, using(crate::proofs::Search::form_in_order), unfolding(crate::specs::Opened::term_shape, crate::specs::Opened::term_child, crate::specs::Opened::array_shape, crate::specs::Opened::array_child, crate::specs::Opened::hidden))]
pub fn form_of(alloc: Global, term: &Term) -> Result<Option<Form>, AllocError>
    ensures { IfOk result (λ form. form ≡ form_of term.now) }
{
    match term {
        Term::Num(n) => Ok(kept_number(alloc, *n)),
        Term::Sym(symbol) => {
            let symbol = copied(symbol)?;
            let unit = Shared::new(alloc, Term::Sym(symbol))?;
            let form = unit_form(alloc, unit)?;
            Ok(Some(form))
        }
        Term::Bound(k) => {
            let unit = Shared::new(alloc, Term::Bound(*k))?;
            let form = unit_form(alloc, unit)?;
            Ok(Some(form))
        }
        Term::Read(array, i, j) => {
            let Some(x) = form_of(alloc, i.get())? else {
                return Ok(None);
            };
            let Some(y) = form_of(alloc, j.get())? else {
                return Ok(None);
            };
            read_form(alloc, array, &x, &y)
        }
        Term::Add(s, t) => {
            let Some(x) = form_of(alloc, s.get())? else {
                return Ok(None);
            };
            let Some(y) = form_of(alloc, t.get())? else {
                return Ok(None);
            };
            plus(Range::Coefficient, x, 1, y)
        }
        Term::Sub(s, t) => {
            let Some(x) = form_of(alloc, s.get())? else {
                return Ok(None);
            };
            let Some(y) = form_of(alloc, t.get())? else {
                return Ok(None);
            };
            plus(Range::Coefficient, x, -1, y)
        }
        Term::Mul(s, t) => {
            let Some(x) = form_of(alloc, s.get())? else {
                return Ok(None);
            };
            let Some(y) = form_of(alloc, t.get())? else {
                return Ok(None);
            };
            times(alloc, x, y)
        }
        Term::Neg(t) => {
            let Some(y) = form_of(alloc, t.get())? else {
                return Ok(None);
            };
            plus(Range::Coefficient, number_form(alloc, 0), -1, y)
        }
    }
}

fn kept_number(alloc: Global, n: i64) -> Option<Form>
    ensures { result ≡ option_map number_form (within Coefficient n) }
{
    match Range::Coefficient.kept(i128::from(n)) {
        Some(n) => Some(number_form(alloc, n)),
        None => None,
    }
}
