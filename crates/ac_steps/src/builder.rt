//! From a plan to a proof.
ghost use Rattle.std.specs.Prelude.{◌≡◌, ℕ, ◌<◌, ◌++◌, length, None, IfOk, OnOk};
ghost use Rattle.ac_steps.specs.declared.plan.Plan.{out-Plan};
ghost use Rattle.ac_steps.specs.Plans.{IsLastStep, Shows, context_at, contexts_in, formulas_of, shown_by};
ghost use Rattle.ac_steps.specs.Proofs.{AreProofs, IsPremiseProof, IsProof};
ghost use Rattle.ac_steps.specs.Ways.{rule_by};

use crate::added::context_of;
use crate::cases::{between, by_equality, by_order, from_denial};
use crate::hypothesis::hypothesis;
use crate::lemma::by_lemma;
use crate::plan::{Plan, Way};
use crate::step::step;
use ac_logic::Formula;
use ac_proof::{ProofTree, Rule};
use ac_shared::Shared;
use sqlite_items::Items;
use std::alloc::{AllocError, Global};

/// The proof of a plan in a context that it holds in. The hypotheses stay.
#[cycle(tree)]
pub fn tree_of(
    alloc: Global,
    hyps: &mut Vec<Shared<Formula>>,
    plan: &Plan,
) -> Result<ProofTree, AllocError>
    requires { Shows hyps.old.items plan.now }
    ensures proof { IfOk result (IsProof hyps.old.items (shown_by plan.now)) }
    ensures hyps { OnOk result (hyps.new.items ≡ hyps.old.items) }
{
    let mut trees = Items::new(alloc);
    for i in 0..plan.premises.len() {
        let tree = premise_tree(alloc, hyps, plan, i)?;
        trees.push(tree)?;
    }
    let whole = assembled(alloc, hyps.as_slice(), plan, trees)?;
    Ok(whole)
}

/// The proof of premise number i, under what it may suppose.
#[cycle(tree)]
fn premise_tree(
    alloc: Global,
    hyps: &mut Vec<Shared<Formula>>,
    plan: &Plan,
    i: usize,
) -> Result<ProofTree, AllocError>
    requires place { i < length (out-Plan plan.now).premises }
    requires shows { Shows hyps.old.items plan.now }
    ensures proof { IfOk result (IsPremiseProof hyps.old.items plan.now i) }
    ensures hyps { OnOk result (hyps.new.items ≡ hyps.old.items) }
{
    let count = hyps.len();
    push_context(alloc, hyps, plan, i)?;
    let premises = plan.premises.as_slice();
    let tree = tree_of(alloc, hyps, premises[i].get())?;
    hyps.truncate(count);
    Ok(tree)
}

/// Pushes what premise number i may suppose besides the hypotheses.
fn push_context(
    alloc: Global,
    hyps: &mut Vec<Shared<Formula>>,
    plan: &Plan,
    i: usize,
) -> Result<(), AllocError>
    ensures { OnOk result (hyps.new.items ≡ hyps.old.items ++ context_at plan.now i) }
{
    let mut more = context_of(alloc, plan, i)?;
    hyps.append(&mut more)?;
    Ok(())
}

/// The last step, behind the proofs of its premises.
fn assembled(
    alloc: Global,
    hyps: &[Shared<Formula>],
    plan: &Plan,
    trees: Items<ProofTree>,
) -> Result<ProofTree, AllocError>
    requires planned { IsLastStep hyps.now plan.now }
    requires proofs { AreProofs hyps.now (contexts_in plan.now) (formulas_of plan.now) trees }
    ensures { IfOk result (IsProof hyps.now (out-Plan plan.now).goal) }
{
    let goal = plan.goal.share()?;
    let rule = rule_of(alloc, &plan.way)?;
    match rule {
        Some(rule) => Ok(step(rule, goal, trees)),
        None => unfolded(alloc, hyps, plan, trees),
    }
}

/// The rule that a way takes as it is.
fn rule_of(alloc: Global, way: &Way) -> Result<Option<Rule>, AllocError>
    ensures { IfOk result (λ rule. rule ≡ rule_by way.now) }
{
    match way {
        Way::Plain(name) => Ok(name.plain()),
        Way::Instance(t) => Ok(Some(Rule::AllElim { t: t.share()? })),
        Way::NewName(k) => Ok(Some(Rule::AllIntro { k: *k })),
        Way::Combination(factors) => {
            let factors = Items::from_slice(alloc, factors.as_slice())?;
            Ok(Some(Rule::Linear { factors }))
        }
        _ => Ok(None),
    }
}

/// The steps that stand for the last step of a plan.
fn unfolded(
    alloc: Global,
    hyps: &[Shared<Formula>],
    plan: &Plan,
    trees: Items<ProofTree>,
) -> Result<ProofTree, AllocError>
    requires planned { IsLastStep hyps.now plan.now }
    requires proofs { AreProofs hyps.now (contexts_in plan.now) (formulas_of plan.now) trees }
    requires no_rule { rule_by (out-Plan plan.now).way ≡ None }
    ensures { IfOk result (IsProof hyps.now (out-Plan plan.now).goal) }
{
    let place = hyps.len();
    match &plan.way {
        Way::Hypothesis => {
            drop(trees);
            hypothesis(alloc, hyps, &plan.goal)
        }
        Way::FromDenial(s, t) => from_denial(alloc, place, s, t, trees),
        Way::Between(s, t) => between(alloc, place, s, t, trees),
        Way::ByOrder(s, t) => by_order(alloc, s, t, &plan.goal, trees),
        Way::ByEquality(s, t) => by_equality(alloc, place, s, t, &plan.goal, trees),
        Way::Lemma => by_lemma(alloc, &plan.goal, trees),
        _ => unreachable!(),
    }
}
