//! The rule of linear combinations.
ghost use Rattle.std.specs.Prelude.{◌≡◌, IsTrue, ◌↔◌, IfOk, map, [], ◌∷◌, Some};
ghost use Rattle.ac_logic.specs.declared.formula.Formula.{Le};
ghost use Rattle.ac_logic.specs.declared.formula.Term.TheVariants.{Sub};
ghost use Rattle.ac_linear.specs.declared.linear.Linear.{Linear as AnyLinear};
ghost use Rattle.ac_linear.specs.NormalForm.{and_then, normal_of};
ghost use Rattle.ac_linear.specs.Combination.{combination_of};
ghost use Rattle.ac_proof.specs.declared.rule.Rule.TheVariants as rule;
ghost use Rattle.ac_proof.specs.Linear.{IsContradiction, denial, facts_of_step, next};
ghost use Rattle.ac_proof.specs.Gathering.{some_if, facts_behind};
ghost use Rattle.ac_proof.specs.Rules.{IsInstance};
ghost use Rattle.ac_proof.specs.Checked.{goal_of};

use crate::facts::Facts;
use crate::tree::ProofTree;
use ac_linear::{LinFault, Linear, PrintedLinear, combine_printed};
use ac_logic::{Formula, Term};
use ac_shared::Shared;
use std::alloc::{AllocError, Global};

pub fn is_linear(
    alloc: Global,
    factors: &[u64],
    goal: &Formula,
    premises: &[ProofTree],
) -> Result<bool, AllocError>
    ensures { IfOk result (λ holds. IsTrue holds ↔ IsInstance [] (rule.Linear factors.now) goal.now (map goal_of premises.now)) }
{
    let Some(facts) = facts_of(alloc, goal, premises)? else {
        return Ok(false)
    };
    if factors.len() != facts.len() {
        return Ok(false);
    }
    contradicts(alloc, facts, factors)
}

/// The facts of a step; none where a formula is no fact, or too wide for one.
fn facts_of(
    alloc: Global,
    goal: &Formula,
    premises: &[ProofTree],
) -> Result<Option<Facts>, AllocError>
    ensures { IfOk result (λ facts. facts ≡ facts_of_step goal.now (map goal_of premises.now)) }
{
    let Some(mut facts) = denial_of(alloc, goal)? else {
        return Ok(None)
    };
    if push_facts(alloc, &mut facts, premises)? {
        Ok(Some(facts))
    } else {
        Ok(None)
    }
}

/// The fact that the goal gives, if it gives one.
fn denial_of(alloc: Global, goal: &Formula) -> Result<Option<Facts>, AllocError>
    ensures { IfOk result (λ facts. facts ≡ and_then (denial goal.now) (facts_behind [])) }
{
    match goal {
        Formula::False => Ok(Some(Facts::new(alloc))),
        Formula::Le(s, t) => denial_of_order(alloc, s, t),
        _ => Ok(None),
    }
}

/// The fact `t + 1 <= s`, alone.
fn denial_of_order(
    alloc: Global,
    s: &Shared<Term>,
    t: &Shared<Term>,
) -> Result<Option<Facts>, AllocError>
    ensures { IfOk result (λ facts. facts ≡ facts_behind [] (Le (next t.now) s.now ∷ [])) }
{
    let one = Shared::new(alloc, Term::Num(1))?;
    let above = Shared::new(alloc, Term::Add(t.share()?, one))?;
    let Some(fact) = difference(alloc, &above, s)? else {
        return Ok(None)
    };
    let mut facts = Facts::new(alloc);
    facts.push(fact)?;
    Ok(Some(facts))
}

/// Pushes the facts of the premises. False says that one is no fact, or too wide.
fn push_facts(alloc: Global, facts: &mut Facts, premises: &[ProofTree]) -> Result<bool, AllocError>
    ensures { IfOk result (λ all. some_if all facts.new ≡ facts_behind facts.old (map goal_of premises.now)) }
{
    for p in premises {
        if !push_fact(alloc, facts, p.goal.get())? {
            return Ok(false);
        }
    }
    Ok(true)
}

/// Pushes the fact of a formula.
fn push_fact(alloc: Global, facts: &mut Facts, formula: &Formula) -> Result<bool, AllocError>
    ensures { IfOk result (λ pushed. some_if pushed facts.new ≡ facts_behind facts.old (formula.now ∷ [])) }
{
    let Formula::Le(u, v) = formula else {
        return Ok(false)
    };
    let Some(fact) = difference(alloc, u, v)? else {
        return Ok(false)
    };
    facts.push(fact)?;
    Ok(true)
}

/// The normal form of u - v; none where it is too wide.
fn difference(
    alloc: Global,
    u: &Shared<Term>,
    v: &Shared<Term>,
) -> Result<Option<PrintedLinear>, AllocError>
    ensures { IfOk result (λ form. form ≡ normal_of (Sub u.now v.now)) }
{
    let difference = Shared::new(alloc, Term::Sub(u.share()?, v.share()?))?;
    match PrintedLinear::normal(alloc, difference.get()) {
        Ok(form) => Ok(Some(form)),
        Err(LinFault::Wide) => Ok(None),
        Err(LinFault::OutOfMemory) => Err(AllocError),
    }
}

/// Whether the combination of the facts is a contradiction.
fn contradicts(alloc: Global, facts: Facts, factors: &[u64]) -> Result<bool, AllocError>
    ensures { IfOk result (λ holds. IsTrue holds ↔ ((sum : AnyLinear) × (combination_of facts factors.now ≡ Some sum) × IsContradiction sum)) }
{
    match combine_printed(alloc, facts.into_vec(), factors) {
        Ok(sum) => Ok(is_contradiction(&sum)),
        Err(LinFault::Wide) => Ok(false),
        Err(LinFault::OutOfMemory) => Err(AllocError),
    }
}

fn is_contradiction(sum: &Linear) -> bool
    ensures { IsTrue result ↔ IsContradiction sum.now }
{
    sum.parts.is_empty() && sum.constant > 0
}
