//! The rules that a step of a plan stands for, as functions of proofs: what each gives in every context.
ghost use Rattle.std.specs.Prelude.{IfOk};
ghost use Rattle.ac_proof.specs.Rules.{equal_or_apart, in_order};
ghost use Rattle.ac_steps.specs.Steps.{IsAbsurdity, IsApplied, IsByCases, IsClash, IsHypothesisAt, IsSplit, IsSupposing};

use crate::comparisons::{equal_or_apart, in_order};
use crate::step::{one, step, three, two};
use ac_logic::{Formula, Term};
use ac_proof::{ProofTree, Rule};
use ac_shared::Shared;
use sqlite_items::Items;
use std::alloc::{AllocError, Global};

/// The hypothesis at a place.
pub fn hypothesis_at(alloc: Global, place: usize, formula: Shared<Formula>) -> ProofTree
    ensures { IsHypothesisAt place formula result }
{
    let n = place as u64;
    step(Rule::Hyp { n }, formula, Items::new(alloc))
}

/// Any goal from a contradiction.
pub fn absurd(
    alloc: Global,
    goal: Shared<Formula>,
    contradiction: ProofTree,
) -> Result<ProofTree, AllocError>
    ensures { IfOk result (IsAbsurdity goal contradiction) }
{
    let premises = one(alloc, contradiction)?;
    Ok(step(Rule::FalseElim, goal, premises))
}

/// A contradiction of a formula and its denial.
pub fn clash(alloc: Global, denial: ProofTree, shown: ProofTree) -> Result<ProofTree, AllocError>
    ensures { IfOk result (IsClash denial shown) }
{
    let premises = two(alloc, denial, shown)?;
    let falsity = Shared::new(alloc, Formula::False)?;
    Ok(step(Rule::NotElim, falsity, premises))
}

/// A goal in the two cases of a disjunction.
pub fn cases(
    alloc: Global,
    goal: Shared<Formula>,
    either: ProofTree,
    first: ProofTree,
    second: ProofTree,
) -> Result<ProofTree, AllocError>
    ensures { IfOk result (IsByCases goal either first second) }
{
    let premises = three(alloc, either, first, second)?;
    Ok(step(Rule::OrElim, goal, premises))
}

/// `s <= t or t + 1 <= s`.
pub fn order(alloc: Global, s: &Shared<Term>, t: &Shared<Term>) -> Result<ProofTree, AllocError>
    ensures { IfOk result (IsSplit s.now t.now (in_order s.now t.now)) }
{
    let goal = in_order(alloc, s, t)?;
    Ok(step(Rule::LeTotal, goal, Items::new(alloc)))
}

/// `s = t or { s + 1 <= t or t + 1 <= s }`.
pub fn equality(alloc: Global, s: &Shared<Term>, t: &Shared<Term>) -> Result<ProofTree, AllocError>
    ensures { IfOk result (IsSplit s.now t.now (equal_or_apart s.now t.now)) }
{
    let goal = equal_or_apart(alloc, s, t)?;
    Ok(step(Rule::EqSplit, goal, Items::new(alloc)))
}

/// An implication from its right side under its left.
pub fn supposing(
    alloc: Global,
    implication: Shared<Formula>,
    shown: ProofTree,
) -> Result<ProofTree, AllocError>
    ensures { IfOk result (IsSupposing implication shown) }
{
    let premises = one(alloc, shown)?;
    Ok(step(Rule::ImpliesIntro, implication, premises))
}

/// The right side of an implication from its left.
pub fn applied(
    alloc: Global,
    goal: Shared<Formula>,
    implication: ProofTree,
    shown: ProofTree,
) -> Result<ProofTree, AllocError>
    ensures { IfOk result (IsApplied goal implication shown) }
{
    let premises = two(alloc, implication, shown)?;
    Ok(step(Rule::ImpliesElim, goal, premises))
}
