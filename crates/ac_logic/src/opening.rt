//! The body of an `all` at a term.
ghost use Rattle.std.specs.Prelude.{◌≡◌, IfOk};
ghost use Rattle.ac_logic.specs.Answer.{renewed};
ghost use Rattle.ac_logic.specs.Opening.{array_at, bound_at, formula_at, opened, term_at};

use crate::formula::{ArrayTerm, Formula, Term};
use crate::renewal::{NewPut, NewRead, renew, renew_one, renew_put, renew_read, renew_two};
use ac_shared::Shared;
use std::alloc::{AllocError, Global};

/// The body of an `all` with the term in place of its variable. Nodes under which the variable does not stand, nor one
/// from further out, are shared and not made again. The time is linear in the size of the body.
pub fn open_body(
    alloc: Global,
    body: &Shared<Formula>,
    term: &Shared<Term>,
) -> Result<Shared<Formula>, AllocError>
    ensures { IfOk result (λ f. f ≡ opened term.now body.now) }
{
    let new = formula_opened(alloc, body.get(), 0, term)?;
    renew(body, new)
}

fn formula_opened(
    alloc: Global,
    formula: &Formula,
    depth: u64,
    by: &Shared<Term>,
) -> Result<Option<Shared<Formula>>, AllocError>
    ensures { IfOk result (λ new. renewed formula.now new ≡ formula_at depth by.now formula.now) }
{
    match formula {
        Formula::True => Ok(None),
        Formula::False => Ok(None),
        Formula::Le(s, t) => {
            let u = term_opened(alloc, s.get(), depth, by)?;
            let v = term_opened(alloc, t.get(), depth, by)?;
            renew_two(alloc, s, u, t, v, Formula::Le)
        }
        Formula::Eq(s, t) => {
            let u = term_opened(alloc, s.get(), depth, by)?;
            let v = term_opened(alloc, t.get(), depth, by)?;
            renew_two(alloc, s, u, t, v, Formula::Eq)
        }
        Formula::Not(f) => {
            let h = formula_opened(alloc, f.get(), depth, by)?;
            renew_one(alloc, h, Formula::Not)
        }
        Formula::And(f, g) => {
            let h = formula_opened(alloc, f.get(), depth, by)?;
            let i = formula_opened(alloc, g.get(), depth, by)?;
            renew_two(alloc, f, h, g, i, Formula::And)
        }
        Formula::Or(f, g) => {
            let h = formula_opened(alloc, f.get(), depth, by)?;
            let i = formula_opened(alloc, g.get(), depth, by)?;
            renew_two(alloc, f, h, g, i, Formula::Or)
        }
        Formula::Implies(f, g) => {
            let h = formula_opened(alloc, f.get(), depth, by)?;
            let i = formula_opened(alloc, g.get(), depth, by)?;
            renew_two(alloc, f, h, g, i, Formula::Implies)
        }
        Formula::All(f) => {
            let deeper = depth.checked_add(1).ok_or(AllocError)?;
            let h = formula_opened(alloc, f.get(), deeper, by)?;
            renew_one(alloc, h, Formula::All)
        }
        Formula::Lab(l, f) => {
            let h = formula_opened(alloc, f.get(), depth, by)?;
            renew_one(alloc, h, |f| Formula::Lab(*l, f))
        }
    }
}

#[cycle(term_opened)]
fn term_opened(
    alloc: Global,
    term: &Term,
    depth: u64,
    by: &Shared<Term>,
) -> Result<Option<Shared<Term>>, AllocError>
    ensures { IfOk result (λ new. renewed term.now new ≡ term_at depth by.now term.now) }
{
    match term {
        Term::Num(_) => Ok(None),
        Term::Sym(_) => Ok(None),
        Term::Bound(k) => bound_opened(alloc, *k, depth, by),
        Term::Read(a, i, j) => {
            let b = array_opened(alloc, a.get(), depth, by)?;
            let k = term_opened(alloc, i.get(), depth, by)?;
            let l = term_opened(alloc, j.get(), depth, by)?;
            renew_read(
                alloc,
                a,
                i,
                j,
                NewRead {
                    array: b,
                    first: k,
                    second: l,
                },
            )
        }
        Term::Add(s, t) => {
            let u = term_opened(alloc, s.get(), depth, by)?;
            let v = term_opened(alloc, t.get(), depth, by)?;
            renew_two(alloc, s, u, t, v, Term::Add)
        }
        Term::Sub(s, t) => {
            let u = term_opened(alloc, s.get(), depth, by)?;
            let v = term_opened(alloc, t.get(), depth, by)?;
            renew_two(alloc, s, u, t, v, Term::Sub)
        }
        Term::Mul(s, t) => {
            let u = term_opened(alloc, s.get(), depth, by)?;
            let v = term_opened(alloc, t.get(), depth, by)?;
            renew_two(alloc, s, u, t, v, Term::Mul)
        }
        Term::Neg(t) => {
            let u = term_opened(alloc, t.get(), depth, by)?;
            renew_one(alloc, u, Term::Neg)
        }
    }
}

#[cycle(term_opened)]
fn array_opened(
    alloc: Global,
    array: &ArrayTerm,
    depth: u64,
    by: &Shared<Term>,
) -> Result<Option<Shared<ArrayTerm>>, AllocError>
    ensures { IfOk result (λ new. renewed array.now new ≡ array_at depth by.now array.now) }
{
    match array {
        ArrayTerm::Sym(_) => Ok(None),
        ArrayTerm::Put(a, i, j, v) => {
            let b = array_opened(alloc, a.get(), depth, by)?;
            let k = term_opened(alloc, i.get(), depth, by)?;
            let l = term_opened(alloc, j.get(), depth, by)?;
            let u = term_opened(alloc, v.get(), depth, by)?;
            renew_put(
                alloc,
                a,
                i,
                j,
                v,
                NewPut {
                    array: b,
                    first: k,
                    second: l,
                    value: u,
                },
            )
        }
    }
}

fn bound_opened(
    alloc: Global,
    k: u32,
    depth: u64,
    by: &Shared<Term>,
) -> Result<Option<Shared<Term>>, AllocError>
    ensures { IfOk result (λ new. renewed (Term.Bound k) new ≡ bound_at depth by.now k) }
{
    let place = u64::from(k);
    if place == depth {
        return Ok(Some(by.share()?));
    }
    if depth < place {
        return Ok(Some(Shared::new(alloc, Term::Bound(k - 1))?));
    }
    Ok(None)
}
