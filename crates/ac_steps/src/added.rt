//! What the premises of a plan may suppose besides its hypotheses.
ghost use Rattle.std.specs.Prelude.{◌≡◌, [], ◌∷◌, map, slice_index_or, IfOk};
ghost use Rattle.ac_logic.specs.declared.formula.Formula.{Le as AtMost, Eq as Equal};
ghost use Rattle.ac_logic.specs.declared.formula.Formula.TheVariants.{Not};
ghost use Rattle.ac_proof.specs.RuleNames.{plain_rule};
ghost use Rattle.ac_proof.specs.Rules.{antecedent, denied, sides};
ghost use Rattle.ac_steps.specs.Plans.{shown_by, context_at};
ghost use Rattle.ac_steps.specs.Ways.{apart, below, contexts_by_rule, shown_first};

use crate::comparisons::{apart, at_most, below, equal};
use crate::plan::{Plan, Way};
use ac_logic::{Formula, Term};
use ac_proof::RuleName;
use ac_shared::Shared;
use std::alloc::{AllocError, Global};

/// What premise number i may suppose besides the hypotheses.
pub fn context_of(alloc: Global, plan: &Plan, i: usize) -> Result<Vec<Shared<Formula>>, AllocError>
    ensures { IfOk result (λ more. more.items ≡ context_at plan.now i) }
{
    match &plan.way {
        Way::Plain(name) => by_rule(alloc, *name, &plan.goal, plan.premises.as_slice(), i),
        Way::FromDenial(s, t) => in_first(alloc, s, t, i),
        Way::Between(s, t) => in_side(alloc, s, t, i),
        Way::ByOrder(s, t) => in_order_case(alloc, s, t, i),
        Way::ByEquality(s, t) => in_equality_case(alloc, s, t, i),
        Way::Lemma => in_second(alloc, plan.premises.as_slice(), i),
        _ => Ok(Vec::new(alloc)),
    }
}

fn alone(alloc: Global, formula: Shared<Formula>) -> Result<Vec<Shared<Formula>>, AllocError>
    ensures { IfOk result (λ more. more.items ≡ formula ∷ []) }
{
    let mut more = Vec::new(alloc);
    more.push(formula)?;
    Ok(more)
}

fn in_first(
    alloc: Global,
    s: &Shared<Term>,
    t: &Shared<Term>,
    i: usize,
) -> Result<Vec<Shared<Formula>>, AllocError>
    ensures { IfOk result (λ more. more.items ≡ slice_index_or ((AtMost s.now t.now ∷ []) ∷ []) i []) }
{
    if i > 0 {
        return Ok(Vec::new(alloc));
    }
    alone(alloc, at_most(alloc, s, t)?)
}

/// In the case `s + 1 <= t` or `t + 1 <= s` of numbers that are not equal.
fn in_side(
    alloc: Global,
    s: &Shared<Term>,
    t: &Shared<Term>,
    i: usize,
) -> Result<Vec<Shared<Formula>>, AllocError>
    ensures { IfOk result (λ more. more.items ≡ slice_index_or ((apart s.now t.now ∷ below s.now t.now ∷ []) ∷ (apart s.now t.now ∷ below t.now s.now ∷ []) ∷ []) i []) }
{
    if i > 1 {
        return Ok(Vec::new(alloc));
    }
    let mut more = alone(alloc, apart(alloc, s, t)?)?;
    if i == 0 {
        more.push(below(alloc, s, t)?)?;
    } else {
        more.push(below(alloc, t, s)?)?;
    }
    Ok(more)
}

fn in_order_case(
    alloc: Global,
    s: &Shared<Term>,
    t: &Shared<Term>,
    i: usize,
) -> Result<Vec<Shared<Formula>>, AllocError>
    ensures { IfOk result (λ more. more.items ≡ slice_index_or ((AtMost s.now t.now ∷ []) ∷ (below t.now s.now ∷ []) ∷ []) i []) }
{
    if i == 0 {
        return alone(alloc, at_most(alloc, s, t)?);
    }
    if i == 1 {
        return alone(alloc, below(alloc, t, s)?);
    }
    Ok(Vec::new(alloc))
}

fn in_equality_case(
    alloc: Global,
    s: &Shared<Term>,
    t: &Shared<Term>,
    i: usize,
) -> Result<Vec<Shared<Formula>>, AllocError>
    ensures { IfOk result (λ more. more.items ≡ slice_index_or ((Equal s.now t.now ∷ []) ∷ (apart s.now t.now ∷ below s.now t.now ∷ []) ∷ (apart s.now t.now ∷ below t.now s.now ∷ []) ∷ []) i []) }
{
    if i == 0 {
        return alone(alloc, equal(alloc, s, t)?);
    }
    in_side(alloc, s, t, i - 1)
}

/// What the first plan shows, for the second.
fn in_second(
    alloc: Global,
    premises: &[Shared<Plan>],
    i: usize,
) -> Result<Vec<Shared<Formula>>, AllocError>
    ensures { IfOk result (λ more. more.items ≡ slice_index_or (shown_first (map shown_by premises.now)) i []) }
{
    match premises {
        [first, ..] => {
            if i == 1 {
                return alone(alloc, first.get().goal.share()?);
            }
            Ok(Vec::new(alloc))
        }
        [] => Ok(Vec::new(alloc)),
    }
}

/// By a rule without fields.
fn by_rule(
    alloc: Global,
    name: RuleName,
    goal: &Shared<Formula>,
    premises: &[Shared<Plan>],
    i: usize,
) -> Result<Vec<Shared<Formula>>, AllocError>
    ensures { IfOk result (λ more. more.items ≡ slice_index_or (contexts_by_rule (plain_rule name) goal.now (map shown_by premises.now)) i []) }
{
    match name {
        RuleName::OrElim => side_of(alloc, premises, i),
        RuleName::ImpliesIntro => antecedent_of(alloc, goal.get(), i),
        RuleName::NotIntro => denied_by(alloc, goal.get(), i),
        RuleName::Classical => denial_of(alloc, goal, i),
        _ => Ok(Vec::new(alloc)),
    }
}

/// For `or-elim`: each side of the disjunction that the first premise shows, for the second and third premise.
fn side_of(
    alloc: Global,
    premises: &[Shared<Plan>],
    i: usize,
) -> Result<Vec<Shared<Formula>>, AllocError>
    ensures { IfOk result (λ more. more.items ≡ slice_index_or (sides (map shown_by premises.now)) i []) }
{
    match premises {
        [first, ..] => side_in(alloc, first.get().goal.get(), i),
        [] => Ok(Vec::new(alloc)),
    }
}

fn side_in(alloc: Global, formula: &Formula, i: usize) -> Result<Vec<Shared<Formula>>, AllocError>
    ensures { IfOk result (λ more. more.items ≡ slice_index_or (sides (formula.now ∷ [])) i []) }
{
    let Formula::Or(a, b) = formula else {
        return Ok(Vec::new(alloc))
    };
    if i == 1 {
        return alone(alloc, a.share()?);
    }
    if i == 2 {
        return alone(alloc, b.share()?);
    }
    Ok(Vec::new(alloc))
}

/// For `implies-intro`: what the goal supposes.
fn antecedent_of(
    alloc: Global,
    goal: &Formula,
    i: usize,
) -> Result<Vec<Shared<Formula>>, AllocError>
    ensures { IfOk result (λ more. more.items ≡ slice_index_or (antecedent goal.now) i []) }
{
    let Formula::Implies(a, _) = goal else {
        return Ok(Vec::new(alloc))
    };
    if i > 0 {
        return Ok(Vec::new(alloc));
    }
    alone(alloc, a.share()?)
}

/// For `not-intro`: what the goal denies.
fn denied_by(alloc: Global, goal: &Formula, i: usize) -> Result<Vec<Shared<Formula>>, AllocError>
    ensures { IfOk result (λ more. more.items ≡ slice_index_or (denied goal.now) i []) }
{
    let Formula::Not(a) = goal else {
        return Ok(Vec::new(alloc))
    };
    if i > 0 {
        return Ok(Vec::new(alloc));
    }
    alone(alloc, a.share()?)
}

/// For `classical`: the denial of the goal.
fn denial_of(
    alloc: Global,
    goal: &Shared<Formula>,
    i: usize,
) -> Result<Vec<Shared<Formula>>, AllocError>
    ensures { IfOk result (λ more. more.items ≡ slice_index_or ((Not goal.now ∷ []) ∷ []) i []) }
{
    if i > 0 {
        return Ok(Vec::new(alloc));
    }
    alone(alloc, Shared::new(alloc, Formula::Not(goal.share()?))?)
}
