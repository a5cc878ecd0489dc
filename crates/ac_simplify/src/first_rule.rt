//! The first rule of the table that applies at the root of a formula.
ghost use Rattle.std.specs.Prelude.{◌≡◌, IfOk};
ghost use Rattle.ac_simplify.specs.Rewriting.{truth as truth_of};
ghost use Rattle.ac_simplify.specs.Order.{first_negation, first_conjunction, first_disjunction, first_implication, first_le, first_eq, first_labelled, first_every, first_rule as first_rule_of};

use crate::rule::RewriteRule;
use ac_logic::{Formula, Term};
use ac_shared::Shared;
use std::alloc::{AllocError, Global};

/// A rule, and what it makes of a formula.
type Reduct = Option<(RewriteRule, Shared<Formula>)>;

/// The first rule that applies at the root with its result; none where no rule applies there.
pub fn first_rule(alloc: Global, formula: &Formula) -> Result<Reduct, AllocError>
    ensures { IfOk result (λ r. r ≡ first_rule_of formula.now) }
{
    match formula {
        Formula::True => Ok(None),
        Formula::False => Ok(None),
        Formula::Le(s, t) => at_le(alloc, s.get(), t.get()),
        Formula::Eq(s, t) => at_eq(alloc, s.get(), t.get()),
        Formula::Not(f) => at_negation(alloc, f.get()),
        Formula::And(f, g) => at_conjunction(alloc, f, g),
        Formula::Or(f, g) => at_disjunction(alloc, f, g),
        Formula::Implies(f, g) => at_implication(alloc, f, g),
        Formula::All(f) => at_every(alloc, f.get()),
        Formula::Lab(_, f) => at_label(alloc, f.get()),
    }
}

fn truth(alloc: Global, value: bool) -> Result<Shared<Formula>, AllocError>
    ensures { IfOk result (λ f. f ≡ truth_of value) }
{
    if value {
        Shared::new(alloc, Formula::True)
    } else {
        Shared::new(alloc, Formula::False)
    }
}

fn at_le(alloc: Global, s: &Term, t: &Term) -> Result<Reduct, AllocError>
    ensures { IfOk result (λ r. r ≡ first_le s.now t.now) }
{
    match (s, t) {
        (Term::Num(m), Term::Num(n)) => {
            let value = truth(alloc, *m <= *n)?;
            Ok(Some((RewriteRule::Compared, value)))
        }
        _ => Ok(None),
    }
}

fn at_eq(alloc: Global, s: &Term, t: &Term) -> Result<Reduct, AllocError>
    ensures { IfOk result (λ r. r ≡ first_eq s.now t.now) }
{
    match (s, t) {
        (Term::Num(m), Term::Num(n)) => {
            let value = truth(alloc, *m == *n)?;
            Ok(Some((RewriteRule::Compared, value)))
        }
        _ => Ok(None),
    }
}

fn at_negation(alloc: Global, f: &Formula) -> Result<Reduct, AllocError>
    ensures { IfOk result (λ r. r ≡ first_negation f.now) }
{
    match f {
        Formula::True => {
            let value = truth(alloc, false)?;
            Ok(Some((RewriteRule::NotTrue, value)))
        }
        Formula::False => {
            let value = truth(alloc, true)?;
            Ok(Some((RewriteRule::NotFalse, value)))
        }
        _ => Ok(None),
    }
}

fn at_conjunction(
    alloc: Global,
    f: &Shared<Formula>,
    g: &Shared<Formula>,
) -> Result<Reduct, AllocError>
    ensures { IfOk result (λ r. r ≡ first_conjunction f.now g.now) }
{
    match (f.get(), g.get()) {
        (Formula::True, _) => {
            let other = g.share()?;
            Ok(Some((RewriteRule::TrueAnd, other)))
        }
        (_, Formula::True) => {
            let other = f.share()?;
            Ok(Some((RewriteRule::AndTrue, other)))
        }
        (Formula::False, _) => {
            let value = truth(alloc, false)?;
            Ok(Some((RewriteRule::FalseAnd, value)))
        }
        (_, Formula::False) => {
            let value = truth(alloc, false)?;
            Ok(Some((RewriteRule::AndFalse, value)))
        }
        _ => Ok(None),
    }
}

fn at_disjunction(
    alloc: Global,
    f: &Shared<Formula>,
    g: &Shared<Formula>,
) -> Result<Reduct, AllocError>
    ensures { IfOk result (λ r. r ≡ first_disjunction f.now g.now) }
{
    match (f.get(), g.get()) {
        (Formula::True, _) => {
            let value = truth(alloc, true)?;
            Ok(Some((RewriteRule::TrueOr, value)))
        }
        (_, Formula::True) => {
            let value = truth(alloc, true)?;
            Ok(Some((RewriteRule::OrTrue, value)))
        }
        (Formula::False, _) => {
            let other = g.share()?;
            Ok(Some((RewriteRule::FalseOr, other)))
        }
        (_, Formula::False) => {
            let other = f.share()?;
            Ok(Some((RewriteRule::OrFalse, other)))
        }
        _ => Ok(None),
    }
}

fn at_implication(
    alloc: Global,
    f: &Shared<Formula>,
    g: &Shared<Formula>,
) -> Result<Reduct, AllocError>
    ensures { IfOk result (λ r. r ≡ first_implication f.now g.now) }
{
    match (f.get(), g.get()) {
        (Formula::True, _) => {
            let other = g.share()?;
            Ok(Some((RewriteRule::TrueImplies, other)))
        }
        (Formula::False, _) => {
            let value = truth(alloc, true)?;
            Ok(Some((RewriteRule::FalseImplies, value)))
        }
        (_, Formula::True) => {
            let value = truth(alloc, true)?;
            Ok(Some((RewriteRule::ImpliesTrue, value)))
        }
        _ => Ok(None),
    }
}

fn at_label(alloc: Global, f: &Formula) -> Result<Reduct, AllocError>
    ensures { IfOk result (λ r. r ≡ first_labelled f.now) }
{
    match f {
        Formula::True => {
            let value = truth(alloc, true)?;
            Ok(Some((RewriteRule::LabelledTrue, value)))
        }
        _ => Ok(None),
    }
}

fn at_every(alloc: Global, f: &Formula) -> Result<Reduct, AllocError>
    ensures { IfOk result (λ r. r ≡ first_every f.now) }
{
    match f {
        Formula::True => {
            let value = truth(alloc, true)?;
            Ok(Some((RewriteRule::AllTrue, value)))
        }
        _ => Ok(None),
    }
}
