//! The walk that makes the ground form.
ghost use Rattle.std.specs.Prelude.{◌≡◌, ◌∷◌, reverse, IfOk, MatchOption, OnOk, not, true, false};
ghost use Rattle.ac_logic.specs.Answer.{renewed};
ghost use Rattle.ac_logic.specs.Patterns.{Conjunction, Every};
ghost use Rattle.ac_expand.specs.Ground.{each, joined, made};

use crate::bound::term_with;
use crate::names::Names;
use ac_logic::{Formula, Sym, Term, renew, renew_one, renew_two};
use ac_shared::Shared;
use sqlite_items::Items;
use std::alloc::{AllocError, Global};

/// Where the walk stands: the terms of the bound names, the outermost first, and the next new names.
#[derive(Drop)]
pub(crate) struct Walk {
    pub(crate) bound: Items<Shared<Term>>,
    pub(crate) names: Names,
}

/// A place of the formula: whether it is shown, and whether it stands in an assumed `all`.
#[derive(Clone, Copy)]
pub(crate) struct Place {
    pub(crate) shown: bool,
    pub(crate) inside: bool,
}

impl Place {
    /// The place inside a negation or left of an implication.
    fn turned(self) -> Place
        ensures shown { result.shown ≡ not self.shown }
        ensures inside { result.inside ≡ self.inside }
    {
        Place {
            shown: !self.shown,
            inside: self.inside,
        }
    }
}

/// The ground form of a formula at a place; none where it is the formula itself.
#[cycle(expanded)]
pub(crate) fn expanded(
    alloc: Global,
    formula: &Formula,
    index: &[Shared<Term>],
    at: Place,
    walk: &mut Walk,
) -> Result<Option<Shared<Formula>>, AllocError>
    ensures made { IfOk result (λ new. renewed formula.now new ≡ (made index.now at.shown at.inside (reverse walk.old.bound) formula.now walk.old.names).0) }
    ensures names { OnOk result (walk.new.names ≡ (made index.now at.shown at.inside (reverse walk.old.bound) formula.now walk.old.names).1) }
    ensures back { OnOk result (walk.new.bound ≡ walk.old.bound) }
{
    match formula {
        Formula::True => Ok(None),
        Formula::False => Ok(None),
        Formula::Le(s, t) => {
            let u = term_with(alloc, s.get(), walk.bound.as_slice())?;
            let v = term_with(alloc, t.get(), walk.bound.as_slice())?;
            renew_two(alloc, s, u, t, v, Formula::Le)
        }
        Formula::Eq(s, t) => {
            let u = term_with(alloc, s.get(), walk.bound.as_slice())?;
            let v = term_with(alloc, t.get(), walk.bound.as_slice())?;
            renew_two(alloc, s, u, t, v, Formula::Eq)
        }
        Formula::Not(f) => {
            let h = expanded(alloc, f.get(), index, at.turned(), walk)?;
            renew_one(alloc, h, Formula::Not)
        }
        Formula::And(f, g) => {
            let h = expanded(alloc, f.get(), index, at, walk)?;
            let i = expanded(alloc, g.get(), index, at, walk)?;
            renew_two(alloc, f, h, g, i, Formula::And)
        }
        Formula::Or(f, g) => {
            let h = expanded(alloc, f.get(), index, at, walk)?;
            let i = expanded(alloc, g.get(), index, at, walk)?;
            renew_two(alloc, f, h, g, i, Formula::Or)
        }
        Formula::Implies(f, g) => {
            let h = expanded(alloc, f.get(), index, at.turned(), walk)?;
            let i = expanded(alloc, g.get(), index, at, walk)?;
            renew_two(alloc, f, h, g, i, Formula::Implies)
        }
        Formula::All(f) => Ok(Some(opened(alloc, f, index, at, walk)?)),
        Formula::Lab(l, f) => {
            let h = expanded(alloc, f.get(), index, at, walk)?;
            renew_one(alloc, h, |f| Formula::Lab(*l, f))
        }
    }
}

/// The ground form of an `all` with this body.
#[cycle(expanded)]
fn opened(
    alloc: Global,
    body: &Shared<Formula>,
    index: &[Shared<Term>],
    at: Place,
    walk: &mut Walk,
) -> Result<Shared<Formula>, AllocError>
    ensures made { IfOk result (λ new. new ≡ (made index.now at.shown at.inside (reverse walk.old.bound) (Every body.now) walk.old.names).0) }
    ensures names { OnOk result (walk.new.names ≡ (made index.now at.shown at.inside (reverse walk.old.bound) (Every body.now) walk.old.names).1) }
    ensures back { OnOk result (walk.new.bound ≡ walk.old.bound) }
{
    if at.shown {
        let name = walk.names.take(at.inside)?;
        let term = Shared::new(alloc, Term::Sym(Sym::Fresh(name)))?;
        opened_at(alloc, body, index, at, term, walk)
    } else {
        opened_at_each(alloc, body, index, walk)
    }
}

/// The body at each index term, joined by `and`.
#[cycle(expanded)]
fn opened_at_each(
    alloc: Global,
    body: &Shared<Formula>,
    index: &[Shared<Term>],
    walk: &mut Walk,
) -> Result<Shared<Formula>, AllocError>
    ensures made { IfOk result (λ new. new ≡ joined (each (λ t. made index.now false true (t ∷ reverse walk.old.bound) body.now) index.now walk.old.names).0) }
    ensures names { OnOk result (walk.new.names ≡ (each (λ t. made index.now false true (t ∷ reverse walk.old.bound) body.now) index.now walk.old.names).1) }
    ensures back { OnOk result (walk.new.bound ≡ walk.old.bound) }
{
    let at = Place {
        shown: false,
        inside: true,
    };
    let mut all = None;
    for term in index {
        let copy = term.share()?;
        let instance = opened_at(alloc, body, index, at, copy, walk)?;
        let next = joined(alloc, all, instance)?;
        all = Some(next);
    }
    match all {
        Some(all) => Ok(all),
        None => Shared::new(alloc, Formula::True),
    }
}

/// A formula behind those that are joined already.
fn joined(
    alloc: Global,
    before: Option<Shared<Formula>>,
    formula: Shared<Formula>,
) -> Result<Shared<Formula>, AllocError>
    ensures { IfOk result (λ new. MatchOption before (new ≡ formula) (λ f. new ≡ Conjunction f formula)) }
{
    match before {
        Some(before) => Shared::new(alloc, Formula::And(before, formula)),
        None => Ok(formula),
    }
}

/// The ground form of the body of an `all` at a term.
#[cycle(expanded)]
fn opened_at(
    alloc: Global,
    body: &Shared<Formula>,
    index: &[Shared<Term>],
    at: Place,
    term: Shared<Term>,
    walk: &mut Walk,
) -> Result<Shared<Formula>, AllocError>
    ensures made { IfOk result (λ new. new ≡ (made index.now at.shown at.inside (term ∷ reverse walk.old.bound) body.now walk.old.names).0) }
    ensures names { OnOk result (walk.new.names ≡ (made index.now at.shown at.inside (term ∷ reverse walk.old.bound) body.now walk.old.names).1) }
    ensures back { OnOk result (walk.new.bound ≡ walk.old.bound) }
{
    walk.bound.push(term)?;
    let new = expanded(alloc, body.get(), index, at, walk)?;
    drop(walk.bound.pop());
    renew(body, new)
}
