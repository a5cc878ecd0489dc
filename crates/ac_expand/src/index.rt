//! The index terms of a formula.
ghost use Rattle.std.specs.Prelude.{◌≡◌, ◌++◌, ◌∷◌, [], ◌&&◌, if◌then◌else◌, reverse, IfOk, OnOk};
ghost use Rattle.ac_expand.specs.Index.{first_names, index, indexes, indexes_in, indexes_in_array, is_ground, is_ground_array, once, with_term};
ghost use Rattle.ac_expand.specs.Keys.{terms_of};

use crate::key::Key;
use ac_logic::{ArrayTerm, Formula, Sym, Term};
use ac_shared::Shared;
use indexmap::IndexSet;
use sqlite_items::Items;
use std::alloc::{AllocError, Global};

/// The terms at which an assumed `all` is opened, where so many `all` are shown outside every assumed one.
///
/// The time is linear in the size of the formula and in the sizes of its indexes.
#[tactic(auto, using(crate::proofs::Terms::one_name_more))]
pub(crate) fn index_terms(
    alloc: Global,
    formula: &Formula,
    shown: u32,
) -> Result<Items<Shared<Term>>, AllocError>
    ensures { IfOk result (λ terms. terms ≡ once (indexes formula.now) ++ first_names shown) }
{
    let mut found = Items::new(alloc);
    add_formula(formula, &mut found)?;
    let mut terms = distinct(alloc, found)?;
    for number in 0..shown {
        terms.push(Shared::new(alloc, Term::Sym(Sym::Fresh(number)))?)?;
    }
    Ok(terms)
}

/// Each term once, where it stands last in the list, the last first.
#[tactic(auto, using(crate::proofs::Terms::taken))]
fn distinct(
    alloc: Global,
    mut found: Items<Shared<Term>>,
) -> Result<Items<Shared<Term>>, AllocError>
    ensures { IfOk result (λ terms. terms ≡ once (reverse found)) }
{
    let mut seen = IndexSet::new(alloc);
    let mut terms = Items::new(alloc);
    while let Some(term) = found.pop() {
        add_new(&mut seen, &mut terms, term)?;
    }
    Ok(terms)
}

/// Adds a term to the list, and to the table of its terms, where it is none of them.
fn add_new(
    seen: &mut IndexSet<Key>,
    terms: &mut Items<Shared<Term>>,
    term: Shared<Term>,
) -> Result<(), AllocError>
    ensures table { terms.old ≡ terms_of seen.old.keys → OnOk result (terms.new ≡ terms_of seen.new.keys) }
    ensures added { terms.old ≡ terms_of seen.old.keys → OnOk result (terms.new ≡ with_term terms.old term) }
{
    let copy = term.share()?;
    let new = seen.insert(Key { term: copy })?;
    push_if(new, terms, term)?;
    Ok(())
}

fn push_if(new: bool, terms: &mut Items<Shared<Term>>, term: Shared<Term>) -> Result<(), AllocError>
    ensures { OnOk result (terms.new ≡ (if new then terms.old ++ term ∷ [] else terms.old)) }
{
    if new {
        terms.push(term)?;
    }
    Ok(())
}

/// Adds the indexes of a formula, the last first, so that the list in reverse has them in preorder.
#[tactic(auto, using(crate::proofs::Lists::in_front), unfolding(crate::specs::Opened::formula_shape, crate::specs::Opened::formula_child, crate::specs::Opened::term_shape, crate::specs::Opened::term_child, crate::specs::Opened::array_shape, crate::specs::Opened::array_child, crate::specs::Opened::hidden))]
fn add_formula(formula: &Formula, found: &mut Items<Shared<Term>>) -> Result<(), AllocError>
    ensures { OnOk result (reverse found.new ≡ indexes formula.now ++ reverse found.old) }
{
    match formula {
        Formula::True => Ok(()),
        Formula::False => Ok(()),
        Formula::Le(s, t) => add_sides(s, t, found),
        Formula::Eq(s, t) => add_sides(s, t, found),
        Formula::Not(f) => add_formula(f.get(), found),
        Formula::And(f, g) => {
            add_formula(g.get(), found)?;
            add_formula(f.get(), found)
        }
        Formula::Or(f, g) => {
            add_formula(g.get(), found)?;
            add_formula(f.get(), found)
        }
        Formula::Implies(f, g) => {
            add_formula(g.get(), found)?;
            add_formula(f.get(), found)
        }
        Formula::All(f) => add_formula(f.get(), found),
        Formula::Lab(_, f) => add_formula(f.get(), found),
    }
}

#[tactic(auto, using(crate::proofs::Lists::in_front), unfolding(crate::specs::Opened::formula_shape, crate::specs::Opened::formula_child, crate::specs::Opened::term_shape, crate::specs::Opened::term_child, crate::specs::Opened::array_shape, crate::specs::Opened::array_child, crate::specs::Opened::hidden))]
fn add_sides(
    left: &Shared<Term>,
    right: &Shared<Term>,
    found: &mut Items<Shared<Term>>,
) -> Result<(), AllocError>
    ensures { OnOk result (reverse found.new ≡ (indexes_in left.now ++ indexes_in right.now) ++ reverse found.old) }
{
    let _ = add_term(right.get(), found)?;
    let _ = add_term(left.get(), found)?;
    Ok(())
}

/// Adds the indexes of a term, the last first. The answer says whether no bound name stands in the term.
#[cycle(add_term)]
#[tactic(auto, using(crate::proofs::Lists::in_front), unfolding(crate::specs::Opened::formula_shape, crate::specs::Opened::formula_child, crate::specs::Opened::term_shape, crate::specs::Opened::term_child, crate::specs::Opened::array_shape, crate::specs::Opened::array_child, crate::specs::Opened::hidden))]
fn add_term(term: &Term, found: &mut Items<Shared<Term>>) -> Result<bool, AllocError>
    ensures closed { IfOk result (λ closed. closed ≡ is_ground term.now) }
    ensures found { OnOk result (reverse found.new ≡ indexes_in term.now ++ reverse found.old) }
{
    match term {
        Term::Num(_) => Ok(true),
        Term::Sym(_) => Ok(true),
        Term::Bound(_) => Ok(false),
        Term::Read(a, i, j) => {
            let second = add_index(j, found)?;
            let first = add_index(i, found)?;
            let array = add_array(a.get(), found)?;
            Ok(array && first && second)
        }
        Term::Add(s, t) => {
            let second = add_term(t.get(), found)?;
            let first = add_term(s.get(), found)?;
            Ok(first && second)
        }
        Term::Sub(s, t) => {
            let second = add_term(t.get(), found)?;
            let first = add_term(s.get(), found)?;
            Ok(first && second)
        }
        Term::Mul(s, t) => {
            let second = add_term(t.get(), found)?;
            let first = add_term(s.get(), found)?;
            Ok(first && second)
        }
        Term::Neg(t) => add_term(t.get(), found),
    }
}

#[cycle(add_term)]
#[tactic(auto, using(crate::proofs::Lists::in_front), unfolding(crate::specs::Opened::formula_shape, crate::specs::Opened::formula_child, crate::specs::Opened::term_shape, crate::specs::Opened::term_child, crate::specs::Opened::array_shape, crate::specs::Opened::array_child, crate::specs::Opened::hidden))]
fn add_array(array: &ArrayTerm, found: &mut Items<Shared<Term>>) -> Result<bool, AllocError>
    ensures closed { IfOk result (λ closed. closed ≡ is_ground_array array.now) }
    ensures found { OnOk result (reverse found.new ≡ indexes_in_array array.now ++ reverse found.old) }
{
    match array {
        ArrayTerm::Sym(_) => Ok(true),
        ArrayTerm::Put(a, i, j, v) => {
            let value = add_term(v.get(), found)?;
            let second = add_index(j, found)?;
            let first = add_index(i, found)?;
            let array = add_array(a.get(), found)?;
            Ok(all_closed(array, first, second, value))
        }
    }
}

/// Whether no bound name stands in the parts of a put.
fn all_closed(array: bool, first: bool, second: bool, value: bool) -> bool
    ensures { result ≡ (array && first && second && value) }
{
    array && first && second && value
}

/// Adds what stands in an index, and then the index itself, where no bound name stands in it.
#[cycle(add_term)]
#[tactic(auto, using(crate::proofs::Lists::pushed))]
fn add_index(place: &Shared<Term>, found: &mut Items<Shared<Term>>) -> Result<bool, AllocError>
    ensures closed { IfOk result (λ closed. closed ≡ is_ground place.now) }
    ensures found { OnOk result (reverse found.new ≡ (index place.now ++ indexes_in place.now) ++ reverse found.old) }
{
    let closed = add_term(place.get(), found)?;
    if closed {
        found.push(place.share()?)?;
    }
    Ok(closed)
}
