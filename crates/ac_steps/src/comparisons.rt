//! The comparisons of two terms that split a proof into cases.
ghost use Rattle.std.specs.Prelude.{◌≡◌, IfOk, pos};
ghost use Rattle.ac_logic.specs.declared.formula.Formula.{Le as AtMost, Eq as Equal};
ghost use Rattle.ac_proof.specs.Linear.{next};
ghost use Rattle.ac_proof.specs.Rules.{equal_or_apart, in_order};
ghost use Rattle.ac_steps.specs.Ways.{apart, below};

use ac_logic::{Formula, Term};
use ac_shared::Shared;
use std::alloc::{AllocError, Global};

/// The term `t + 1`.
fn next(alloc: Global, t: &Shared<Term>) -> Result<Shared<Term>, AllocError>
    ensures { IfOk result (λ u. u ≡ next t.now) }
{
    let one = Shared::new(alloc, Term::Num(1))?;
    Shared::new(alloc, Term::Add(t.share()?, one))
}

pub fn at_most(
    alloc: Global,
    s: &Shared<Term>,
    t: &Shared<Term>,
) -> Result<Shared<Formula>, AllocError>
    ensures { IfOk result (λ f. f ≡ AtMost s.now t.now) }
{
    Shared::new(alloc, Formula::Le(s.share()?, t.share()?))
}

pub fn equal(
    alloc: Global,
    s: &Shared<Term>,
    t: &Shared<Term>,
) -> Result<Shared<Formula>, AllocError>
    ensures { IfOk result (λ f. f ≡ Equal s.now t.now) }
{
    Shared::new(alloc, Formula::Eq(s.share()?, t.share()?))
}

/// `s + 1 <= t`.
pub fn below(
    alloc: Global,
    s: &Shared<Term>,
    t: &Shared<Term>,
) -> Result<Shared<Formula>, AllocError>
    ensures { IfOk result (λ f. f ≡ below s.now t.now) }
{
    let s = next(alloc, s)?;
    Shared::new(alloc, Formula::Le(s, t.share()?))
}

/// `s + 1 <= t or t + 1 <= s`.
pub fn apart(
    alloc: Global,
    s: &Shared<Term>,
    t: &Shared<Term>,
) -> Result<Shared<Formula>, AllocError>
    ensures { IfOk result (λ f. f ≡ apart s.now t.now) }
{
    let first = below(alloc, s, t)?;
    let second = below(alloc, t, s)?;
    Shared::new(alloc, Formula::Or(first, second))
}

/// `s <= t or t + 1 <= s`.
pub fn in_order(
    alloc: Global,
    s: &Shared<Term>,
    t: &Shared<Term>,
) -> Result<Shared<Formula>, AllocError>
    ensures { IfOk result (λ f. f ≡ in_order s.now t.now) }
{
    let first = at_most(alloc, s, t)?;
    let second = below(alloc, t, s)?;
    Shared::new(alloc, Formula::Or(first, second))
}

/// `s = t or { s + 1 <= t or t + 1 <= s }`.
pub fn equal_or_apart(
    alloc: Global,
    s: &Shared<Term>,
    t: &Shared<Term>,
) -> Result<Shared<Formula>, AllocError>
    ensures { IfOk result (λ f. f ≡ equal_or_apart s.now t.now) }
{
    let first = equal(alloc, s, t)?;
    let second = apart(alloc, s, t)?;
    Shared::new(alloc, Formula::Or(first, second))
}
