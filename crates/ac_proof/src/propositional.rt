//! The rules of propositional logic and of labels.
ghost use Rattle.std.specs.Prelude.{◌≡◌, IsTrue, ◌↔◌, map, []};
ghost use Rattle.ac_proof.specs.declared.rule.Rule.TheVariants.{Hyp, TrueIntro, FalseElim, AndIntro, AndLeft, AndRight, OrLeft, OrRight, OrElim, ImpliesIntro, ImpliesElim, NotIntro, NotElim, Classical, LabIntro, LabElim};
ghost use Rattle.ac_proof.specs.Rules.{IsInstance};
ghost use Rattle.ac_proof.specs.Checked.{goal_of};

use crate::premises::{are_none, both, lone};
use crate::tree::ProofTree;
use ac_logic::{Formula, same};
use ac_shared::Shared;
use sqlite_items::at;

pub fn is_hyp(hyps: &[Shared<Formula>], n: u64, goal: &Formula, premises: &[ProofTree]) -> bool
    ensures { IsTrue result ↔ IsInstance hyps.now (Hyp n) goal.now (map goal_of premises.now) }
{
    match at(hyps, n as usize) {
        Some(f) => are_none(premises) && same(f.get(), goal),
        None => false,
    }
}

pub fn is_true_intro(goal: &Formula, premises: &[ProofTree]) -> bool
    ensures { IsTrue result ↔ IsInstance [] TrueIntro goal.now (map goal_of premises.now) }
{
    are_none(premises) && matches!(goal, Formula::True)
}

pub fn is_false_elim(goal: &Formula, premises: &[ProofTree]) -> bool
    ensures { IsTrue result ↔ IsInstance [] FalseElim goal.now (map goal_of premises.now) }
{
    let Some(p) = lone(premises) else {
        return false
    };
    matches!(p, Formula::False)
}

pub fn is_and_intro(goal: &Formula, premises: &[ProofTree]) -> bool
    ensures { IsTrue result ↔ IsInstance [] AndIntro goal.now (map goal_of premises.now) }
{
    let Formula::And(a, b) = goal else {
        return false
    };
    let Some((p, q)) = both(premises) else {
        return false
    };
    same(p, a.get()) && same(q, b.get())
}

pub fn is_and_left(goal: &Formula, premises: &[ProofTree]) -> bool
    ensures { IsTrue result ↔ IsInstance [] AndLeft goal.now (map goal_of premises.now) }
{
    let Some(p) = lone(premises) else {
        return false
    };
    let Formula::And(a, _) = p else { return false };
    same(goal, a.get())
}

pub fn is_and_right(goal: &Formula, premises: &[ProofTree]) -> bool
    ensures { IsTrue result ↔ IsInstance [] AndRight goal.now (map goal_of premises.now) }
{
    let Some(p) = lone(premises) else {
        return false
    };
    let Formula::And(_, b) = p else { return false };
    same(goal, b.get())
}

pub fn is_or_left(goal: &Formula, premises: &[ProofTree]) -> bool
    ensures { IsTrue result ↔ IsInstance [] OrLeft goal.now (map goal_of premises.now) }
{
    let Formula::Or(a, _) = goal else {
        return false
    };
    let Some(p) = lone(premises) else {
        return false
    };
    same(p, a.get())
}

pub fn is_or_right(goal: &Formula, premises: &[ProofTree]) -> bool
    ensures { IsTrue result ↔ IsInstance [] OrRight goal.now (map goal_of premises.now) }
{
    let Formula::Or(_, b) = goal else {
        return false
    };
    let Some(p) = lone(premises) else {
        return false
    };
    same(p, b.get())
}

pub fn is_or_elim(goal: &Formula, premises: &[ProofTree]) -> bool
    ensures { IsTrue result ↔ IsInstance [] OrElim goal.now (map goal_of premises.now) }
{
    let [p, q, r] = premises else { return false };
    let Formula::Or(_, _) = p.goal.get() else {
        return false
    };
    same(q.goal.get(), goal) && same(r.goal.get(), goal)
}

pub fn is_implies_intro(goal: &Formula, premises: &[ProofTree]) -> bool
    ensures { IsTrue result ↔ IsInstance [] ImpliesIntro goal.now (map goal_of premises.now) }
{
    let Formula::Implies(_, b) = goal else {
        return false
    };
    let Some(p) = lone(premises) else {
        return false
    };
    same(p, b.get())
}

pub fn is_implies_elim(goal: &Formula, premises: &[ProofTree]) -> bool
    ensures { IsTrue result ↔ IsInstance [] ImpliesElim goal.now (map goal_of premises.now) }
{
    let Some((p, q)) = both(premises) else {
        return false
    };
    let Formula::Implies(a, b) = p else {
        return false
    };
    same(goal, b.get()) && same(q, a.get())
}

pub fn is_not_intro(goal: &Formula, premises: &[ProofTree]) -> bool
    ensures { IsTrue result ↔ IsInstance [] NotIntro goal.now (map goal_of premises.now) }
{
    let Formula::Not(_) = goal else { return false };
    let Some(p) = lone(premises) else {
        return false
    };
    matches!(p, Formula::False)
}

pub fn is_not_elim(goal: &Formula, premises: &[ProofTree]) -> bool
    ensures { IsTrue result ↔ IsInstance [] NotElim goal.now (map goal_of premises.now) }
{
    let Formula::False = goal else { return false };
    let Some((p, q)) = both(premises) else {
        return false
    };
    let Formula::Not(a) = p else { return false };
    same(q, a.get())
}

pub fn is_classical(goal: &Formula, premises: &[ProofTree]) -> bool
    ensures { IsTrue result ↔ IsInstance [] Classical goal.now (map goal_of premises.now) }
{
    let Some(p) = lone(premises) else {
        return false
    };
    matches!(p, Formula::False)
}

pub fn is_lab_intro(goal: &Formula, premises: &[ProofTree]) -> bool
    ensures { IsTrue result ↔ IsInstance [] LabIntro goal.now (map goal_of premises.now) }
{
    let Formula::Lab(_, a) = goal else {
        return false
    };
    let Some(p) = lone(premises) else {
        return false
    };
    same(p, a.get())
}

pub fn is_lab_elim(goal: &Formula, premises: &[ProofTree]) -> bool
    ensures { IsTrue result ↔ IsInstance [] LabElim goal.now (map goal_of premises.now) }
{
    let Some(p) = lone(premises) else {
        return false
    };
    let Formula::Lab(_, a) = p else { return false };
    same(goal, a.get())
}
