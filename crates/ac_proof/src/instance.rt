//! Whether a step is one: readable, and an instance of its rule.
ghost use Rattle.std.specs.Prelude.{IsTrue, ◌↔◌, IfOk, map};
ghost use Rattle.ac_proof.specs.Rules.{IsInstance};
ghost use Rattle.ac_proof.specs.Checked.{HasReadableTerm, IsStep, goal_of};
ghost use Rattle.ac_proof.specs.Walk.{KnowsWell};

use crate::arithmetic::{is_eq_le, is_eq_split, is_le_total};
use crate::array::{is_read_put, is_read_same};
use crate::known::Known;
use crate::linear::is_linear;
use crate::propositional::{
    is_and_intro, is_and_left, is_and_right, is_classical, is_false_elim, is_hyp, is_implies_elim,
    is_implies_intro, is_lab_elim, is_lab_intro, is_not_elim, is_not_intro, is_or_elim, is_or_left,
    is_or_right, is_true_intro,
};
use crate::quantifier::{is_all_elim, is_all_intro};
use crate::rule::Rule;
use crate::tree::ProofTree;
use ac_logic::{Formula, is_readable, is_readable_term};
use ac_shared::Shared;
use std::alloc::{AllocError, Global};

/// Whether a step is one. Its goal is not read where it is known to be readable, or is one of readable hypotheses.
pub fn is_step(
    alloc: Global,
    hyps: &[Shared<Formula>],
    rule: &Rule,
    goal: &Formula,
    premises: &[ProofTree],
    known: Known,
) -> Result<bool, AllocError>
    requires { KnowsWell known hyps.now goal.now }
    ensures { IfOk result (λ holds. IsTrue holds ↔ IsStep hyps.now rule.now goal.now (map goal_of premises.now)) }
{
    if !has_readable_term(rule) || !is_instance(alloc, hyps, rule, goal, premises)? {
        return Ok(false);
    }
    if known.goal {
        return Ok(true);
    }
    match rule {
        Rule::Hyp { .. } => Ok(known.hyps || is_readable(goal)),
        _ => Ok(is_readable(goal)),
    }
}

fn has_readable_term(rule: &Rule) -> bool
    ensures { IsTrue result ↔ HasReadableTerm rule.now }
{
    match rule {
        Rule::AllElim { t } => is_readable_term(t.get()),
        _ => true,
    }
}

fn is_instance(
    alloc: Global,
    hyps: &[Shared<Formula>],
    rule: &Rule,
    goal: &Formula,
    premises: &[ProofTree],
) -> Result<bool, AllocError>
    ensures { IfOk result (λ holds. IsTrue holds ↔ IsInstance hyps.now rule.now goal.now (map goal_of premises.now)) }
{
    match rule {
        Rule::Hyp { n } => Ok(is_hyp(hyps, *n, goal, premises)),
        Rule::TrueIntro => Ok(is_true_intro(goal, premises)),
        Rule::FalseElim => Ok(is_false_elim(goal, premises)),
        Rule::AndIntro => Ok(is_and_intro(goal, premises)),
        Rule::AndLeft => Ok(is_and_left(goal, premises)),
        Rule::AndRight => Ok(is_and_right(goal, premises)),
        Rule::OrLeft => Ok(is_or_left(goal, premises)),
        Rule::OrRight => Ok(is_or_right(goal, premises)),
        Rule::OrElim => Ok(is_or_elim(goal, premises)),
        Rule::ImpliesIntro => Ok(is_implies_intro(goal, premises)),
        Rule::ImpliesElim => Ok(is_implies_elim(goal, premises)),
        Rule::NotIntro => Ok(is_not_intro(goal, premises)),
        Rule::NotElim => Ok(is_not_elim(goal, premises)),
        Rule::Classical => Ok(is_classical(goal, premises)),
        Rule::AllIntro { k } => Ok(is_all_intro(hyps, *k, goal, premises)),
        Rule::AllElim { t } => Ok(is_all_elim(t, goal, premises)),
        Rule::LabIntro => Ok(is_lab_intro(goal, premises)),
        Rule::LabElim => Ok(is_lab_elim(goal, premises)),
        Rule::Linear { factors } => is_linear(alloc, factors.as_slice(), goal, premises),
        Rule::EqLe => Ok(is_eq_le(goal, premises)),
        Rule::LeTotal => Ok(is_le_total(goal, premises)),
        Rule::EqSplit => Ok(is_eq_split(goal, premises)),
        Rule::ReadPut => Ok(is_read_put(goal, premises)),
        Rule::ReadSame => Ok(is_read_same(goal, premises)),
    }
}
