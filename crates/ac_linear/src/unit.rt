//! Forms of one unit, and products of forms.
ghost use Rattle.std.specs.Prelude.{◌≡◌, IfOk, option_map, pos};
ghost use Rattle.ac_linear.specs.NormalForm.{and_then, number_form, term_of_form, times, unit_form, unit_product, unit_read};

use crate::entry::{Entries, Entry, Form, Print};
use crate::form::plus;
use crate::range::Range;
use crate::written::term_of_form;
use ac_logic::{ArrayTerm, Sym, Term};
use ac_shared::Shared;
use std::alloc::{AllocError, Global};
use std::cmp::Ordering;

/// A constant.
pub fn number_form(alloc: Global, n: i128) -> Form
    ensures { result ≡ number_form n }
{
    Form {
        constant: n,
        entries: Entries {
            items: Vec::new(alloc),
        },
    }
}

/// Once a unit.
pub fn unit_form(alloc: Global, unit: Shared<Term>) -> Result<Form, AllocError>
    ensures { IfOk result (λ form. form ≡ unit_form unit) }
{
    let print = Print::of(alloc, unit.get())?;
    let mut items = Vec::new(alloc);
    items.push(Entry {
        unit,
        print,
        factor: 1,
    })?;
    Ok(Form {
        constant: 0,
        entries: Entries { items },
    })
}

/// A symbol of its own.
pub fn copied(symbol: &Sym) -> Result<Sym, AllocError>
    ensures { IfOk result (λ copy. copy ≡ symbol.now) }
{
    match symbol {
        Sym::Value(name) => {
            let name = name.clone()?;
            Ok(Sym::Value(name))
        }
        Sym::Init(name) => {
            let name = name.clone()?;
            Ok(Sym::Init(name))
        }
        Sym::Fresh(k) => Ok(Sym::Fresh(*k)),
    }
}

/// The unit of a read at two forms.
pub fn read_form(
    alloc: Global,
    array: &Shared<ArrayTerm>,
    x: &Form,
    y: &Form,
) -> Result<Option<Form>, AllocError>
    ensures { IfOk result (λ form. form ≡ and_then (term_of_form x.now) (λ i. option_map (unit_read array.now i) (term_of_form y.now))) }
{
    let Some(i) = term_of_form(alloc, x)? else {
        return Ok(None);
    };
    let Some(j) = term_of_form(alloc, y)? else {
        return Ok(None);
    };
    let array = array.share()?;
    let unit = Shared::new(alloc, Term::Read(array, i, j))?;
    let form = unit_form(alloc, unit)?;
    Ok(Some(form))
}

/// The product of two forms: a multiple where one is constant, else a unit.
#[tactic(auto, using(crate::proofs::Products::times_left, crate::proofs::Products::times_right, crate::proofs::Products::times_units))]
pub fn times(alloc: Global, x: Form, y: Form) -> Result<Option<Form>, AllocError>
    ensures { IfOk result (λ form. form ≡ times x y x.entries y.entries) }
{
    if x.entries.items.is_empty() {
        return plus(Range::Coefficient, number_form(alloc, 0), x.constant, y);
    }
    if y.entries.items.is_empty() {
        return plus(Range::Coefficient, number_form(alloc, 0), y.constant, x);
    }
    unit_times(alloc, &x, &y)
}

fn unit_times(alloc: Global, x: &Form, y: &Form) -> Result<Option<Form>, AllocError>
    ensures { IfOk result (λ form. form ≡ and_then (term_of_form x.now) (λ s. option_map (λ t. unit_form (unit_product s t)) (term_of_form y.now))) }
{
    let Some(s) = term_of_form(alloc, x)? else {
        return Ok(None);
    };
    let Some(t) = term_of_form(alloc, y)? else {
        return Ok(None);
    };
    let unit = unit_product(alloc, s, t)?;
    let form = unit_form(alloc, unit)?;
    Ok(Some(form))
}

/// The product with the lesser print first.
fn unit_product(alloc: Global, s: Shared<Term>, t: Shared<Term>) -> Result<Shared<Term>, AllocError>
    ensures { IfOk result (λ product. product ≡ unit_product s t) }
{
    let left = Print::of(alloc, s.get())?;
    let right = Print::of(alloc, t.get())?;
    match left.text().cmp(right.text()) {
        Ordering::Greater => Shared::new(alloc, Term::Mul(t, s)),
        Ordering::Less => Shared::new(alloc, Term::Mul(s, t)),
        Ordering::Equal => Shared::new(alloc, Term::Mul(s, t)),
    }
}
