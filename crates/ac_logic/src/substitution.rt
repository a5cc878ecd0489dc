//! Changes of symbols, all made at once.
ghost use Rattle.std.specs.Prelude.{◌≡◌, IfOk, ◌↔◌};
ghost use Rattle.ac_logic.specs.Answer.{renewed};
ghost use Rattle.ac_logic.specs.Meaning.{Holds, Valuation};
ghost use Rattle.ac_logic.specs.Patterns.{Array, Scalar};
ghost use Rattle.ac_logic.specs.Substitution.{AreClosedChanges, array_after, array_symbol_after, changed, formula_after, scalar_after, term_after};

use crate::equality::same_symbol;
use crate::formula::{ArrayTerm, Change, Formula, Sym, Term};
use crate::renewal::{NewPut, NewRead, renew, renew_one, renew_put, renew_read, renew_two};
use ac_shared::Shared;
use std::alloc::{AllocError, Global};

/// The formula with all changes made at once. A scalar symbol is changed by `Change::Scalar` alone, an array symbol
/// by `Change::Array` alone; of two changes of one symbol the first counts. Nodes under which nothing changes are
/// shared and not made again. The time is linear in the size of the formula times the number of changes.
pub fn substitute(
    alloc: Global,
    formula: &Shared<Formula>,
    changes: &[Change],
) -> Result<Shared<Formula>, AllocError>
    requires { AreClosedChanges changes.now }
    ensures tree { IfOk result (λ after. after ≡ formula_after changes.now formula.now) }
    ensures meaning { IfOk result (λ after. (w : Valuation) → Holds w after ↔ Holds (changed w changes.now) formula.now) }
{
    let new = changed_formula(alloc, formula.get(), changes)?;
    renew(formula, new)
}

fn changed_formula(
    alloc: Global,
    formula: &Formula,
    changes: &[Change],
) -> Result<Option<Shared<Formula>>, AllocError>
    ensures { IfOk result (λ new. renewed formula.now new ≡ formula_after changes.now formula.now) }
{
    match formula {
        Formula::True => Ok(None),
        Formula::False => Ok(None),
        Formula::Le(s, t) => {
            let u = changed_term(alloc, s.get(), changes)?;
            let v = changed_term(alloc, t.get(), changes)?;
            renew_two(alloc, s, u, t, v, Formula::Le)
        }
        Formula::Eq(s, t) => {
            let u = changed_term(alloc, s.get(), changes)?;
            let v = changed_term(alloc, t.get(), changes)?;
            renew_two(alloc, s, u, t, v, Formula::Eq)
        }
        Formula::Not(f) => {
            let h = changed_formula(alloc, f.get(), changes)?;
            renew_one(alloc, h, Formula::Not)
        }
        Formula::And(f, g) => {
            let h = changed_formula(alloc, f.get(), changes)?;
            let i = changed_formula(alloc, g.get(), changes)?;
            renew_two(alloc, f, h, g, i, Formula::And)
        }
        Formula::Or(f, g) => {
            let h = changed_formula(alloc, f.get(), changes)?;
            let i = changed_formula(alloc, g.get(), changes)?;
            renew_two(alloc, f, h, g, i, Formula::Or)
        }
        Formula::Implies(f, g) => {
            let h = changed_formula(alloc, f.get(), changes)?;
            let i = changed_formula(alloc, g.get(), changes)?;
            renew_two(alloc, f, h, g, i, Formula::Implies)
        }
        Formula::All(f) => {
            let h = changed_formula(alloc, f.get(), changes)?;
            renew_one(alloc, h, Formula::All)
        }
        Formula::Lab(l, f) => {
            let h = changed_formula(alloc, f.get(), changes)?;
            renew_one(alloc, h, |f| Formula::Lab(*l, f))
        }
    }
}

#[cycle(changed_term)]
fn changed_term(
    alloc: Global,
    term: &Term,
    changes: &[Change],
) -> Result<Option<Shared<Term>>, AllocError>
    ensures { IfOk result (λ new. renewed term.now new ≡ term_after changes.now term.now) }
{
    match term {
        Term::Num(_) => Ok(None),
        Term::Sym(s) => changed_scalar(s, changes),
        Term::Bound(_) => Ok(None),
        Term::Read(a, i, j) => {
            let b = changed_array(alloc, a.get(), changes)?;
            let k = changed_term(alloc, i.get(), changes)?;
            let l = changed_term(alloc, j.get(), changes)?;
            renew_read(
                alloc,
                a,
                i,
                j,
                NewRead {
                    array: b,
                    first: k,
                    second: l,
                },
            )
        }
        Term::Add(s, t) => {
            let u = changed_term(alloc, s.get(), changes)?;
            let v = changed_term(alloc, t.get(), changes)?;
            renew_two(alloc, s, u, t, v, Term::Add)
        }
        Term::Sub(s, t) => {
            let u = changed_term(alloc, s.get(), changes)?;
            let v = changed_term(alloc, t.get(), changes)?;
            renew_two(alloc, s, u, t, v, Term::Sub)
        }
        Term::Mul(s, t) => {
            let u = changed_term(alloc, s.get(), changes)?;
            let v = changed_term(alloc, t.get(), changes)?;
            renew_two(alloc, s, u, t, v, Term::Mul)
        }
        Term::Neg(t) => {
            let u = changed_term(alloc, t.get(), changes)?;
            renew_one(alloc, u, Term::Neg)
        }
    }
}

#[cycle(changed_term)]
fn changed_array(
    alloc: Global,
    array: &ArrayTerm,
    changes: &[Change],
) -> Result<Option<Shared<ArrayTerm>>, AllocError>
    ensures { IfOk result (λ new. renewed array.now new ≡ array_after changes.now array.now) }
{
    match array {
        ArrayTerm::Sym(s) => changed_array_symbol(s, changes),
        ArrayTerm::Put(a, i, j, v) => {
            let b = changed_array(alloc, a.get(), changes)?;
            let k = changed_term(alloc, i.get(), changes)?;
            let l = changed_term(alloc, j.get(), changes)?;
            let u = changed_term(alloc, v.get(), changes)?;
            renew_put(
                alloc,
                a,
                i,
                j,
                v,
                NewPut {
                    array: b,
                    first: k,
                    second: l,
                    value: u,
                },
            )
        }
    }
}

fn changed_scalar(symbol: &Sym, changes: &[Change]) -> Result<Option<Shared<Term>>, AllocError>
    ensures { IfOk result (λ new. renewed (Scalar symbol.now) new ≡ scalar_after changes.now symbol.now) }
{
    for change in changes {
        if let Change::Scalar(x, t) = change {
            if same_symbol(x, symbol) {
                return Ok(Some(t.share()?));
            }
        }
    }
    Ok(None)
}

fn changed_array_symbol(
    symbol: &Sym,
    changes: &[Change],
) -> Result<Option<Shared<ArrayTerm>>, AllocError>
    ensures { IfOk result (λ new. renewed (Array symbol.now) new ≡ array_symbol_after changes.now symbol.now) }
{
    for change in changes {
        if let Change::Array(x, a) = change {
            if same_symbol(x, symbol) {
                return Ok(Some(a.share()?));
            }
        }
    }
    Ok(None)
}
