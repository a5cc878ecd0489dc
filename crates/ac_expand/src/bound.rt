//! Terms in place of bound names.
ghost use Rattle.std.specs.Prelude.{◌≡◌, IfOk, reverse, get_or};
ghost use Rattle.ac_logic.specs.Answer.{renewed};
ghost use Rattle.ac_logic.specs.declared.formula.Term.{Bound};
ghost use Rattle.ac_expand.specs.Ground.{with_terms, array_with_terms};

use ac_logic::{ArrayTerm, NewPut, NewRead, Term, renew_one, renew_put, renew_read, renew_two};
use ac_shared::Shared;
use std::alloc::{AllocError, Global};

/// The term with the terms of the bound names, the outermost first, in their places; none where it is the old one.
#[cycle(term_with)]
pub(crate) fn term_with(
    alloc: Global,
    term: &Term,
    bound: &[Shared<Term>],
) -> Result<Option<Shared<Term>>, AllocError>
    ensures { IfOk result (λ new. renewed term.now new ≡ with_terms (reverse bound.now) term.now) }
{
    match term {
        Term::Num(_) => Ok(None),
        Term::Sym(_) => Ok(None),
        Term::Bound(k) => bound_name(*k, bound),
        Term::Read(a, i, j) => {
            let b = array_with(alloc, a.get(), bound)?;
            let k = term_with(alloc, i.get(), bound)?;
            let l = term_with(alloc, j.get(), bound)?;
            renew_read(
                alloc,
                a,
                i,
                j,
                NewRead {
                    array: b,
                    first: k,
                    second: l,
                },
            )
        }
        Term::Add(s, t) => {
            let u = term_with(alloc, s.get(), bound)?;
            let v = term_with(alloc, t.get(), bound)?;
            renew_two(alloc, s, u, t, v, Term::Add)
        }
        Term::Sub(s, t) => {
            let u = term_with(alloc, s.get(), bound)?;
            let v = term_with(alloc, t.get(), bound)?;
            renew_two(alloc, s, u, t, v, Term::Sub)
        }
        Term::Mul(s, t) => {
            let u = term_with(alloc, s.get(), bound)?;
            let v = term_with(alloc, t.get(), bound)?;
            renew_two(alloc, s, u, t, v, Term::Mul)
        }
        Term::Neg(t) => {
            let u = term_with(alloc, t.get(), bound)?;
            renew_one(alloc, u, Term::Neg)
        }
    }
}

#[cycle(term_with)]
fn array_with(
    alloc: Global,
    array: &ArrayTerm,
    bound: &[Shared<Term>],
) -> Result<Option<Shared<ArrayTerm>>, AllocError>
    ensures { IfOk result (λ new. renewed array.now new ≡ array_with_terms (reverse bound.now) array.now) }
{
    match array {
        ArrayTerm::Sym(_) => Ok(None),
        ArrayTerm::Put(a, i, j, v) => {
            let b = array_with(alloc, a.get(), bound)?;
            let k = term_with(alloc, i.get(), bound)?;
            let l = term_with(alloc, j.get(), bound)?;
            let u = term_with(alloc, v.get(), bound)?;
            renew_put(
                alloc,
                a,
                i,
                j,
                v,
                NewPut {
                    array: b,
                    first: k,
                    second: l,
                    value: u,
                },
            )
        }
    }
}

/// The term of a bound name, none where it has none.
#[tactic(auto, using(crate::proofs::Lists::named_last, crate::proofs::Lists::not_named))]
fn bound_name(k: u32, bound: &[Shared<Term>]) -> Result<Option<Shared<Term>>, AllocError>
    ensures { IfOk result (λ new. renewed (Bound k) new ≡ get_or (reverse bound.now) k (Bound k)) }
{
    let place = k as usize;
    if bound.len() <= place {
        return Ok(None);
    }
    let term = bound[bound.len() - 1 - place].share()?;
    Ok(Some(term))
}
