//! The rules of equality and order.
ghost use Rattle.std.specs.Prelude.{◌≡◌, IsTrue, ◌↔◌, map, [], pos};
ghost use Rattle.ac_logic.specs.declared.formula.Term.{Num};
ghost use Rattle.ac_logic.specs.declared.formula.Formula.{Le};
ghost use Rattle.ac_logic.specs.declared.formula.Formula.TheVariants.{Or};
ghost use Rattle.ac_proof.specs.declared.rule.Rule.TheVariants.{EqLe, LeTotal, EqSplit};
ghost use Rattle.ac_proof.specs.Rules.{IsInstance};
ghost use Rattle.ac_proof.specs.Linear.{next};
ghost use Rattle.ac_proof.specs.Checked.{goal_of};

use crate::premises::{are_none, lone};
use crate::tree::ProofTree;
use ac_logic::{Formula, Term, same_term};

pub fn is_eq_le(goal: &Formula, premises: &[ProofTree]) -> bool
    ensures { IsTrue result ↔ IsInstance [] EqLe goal.now (map goal_of premises.now) }
{
    let Some(p) = lone(premises) else {
        return false
    };
    let Formula::Eq(s, t) = p else { return false };
    is_order(goal, s.get(), t.get()) || is_order(goal, t.get(), s.get())
}

/// Whether the formula is `s <= t`.
fn is_order(formula: &Formula, s: &Term, t: &Term) -> bool
    ensures { IsTrue result ↔ (formula.now ≡ Le s.now t.now) }
{
    let Formula::Le(u, v) = formula else {
        return false
    };
    same_term(u.get(), s) && same_term(v.get(), t)
}

pub fn is_le_total(goal: &Formula, premises: &[ProofTree]) -> bool
    ensures { IsTrue result ↔ IsInstance [] LeTotal goal.now (map goal_of premises.now) }
{
    let Formula::Or(first, second) = goal else {
        return false
    };
    let Formula::Le(s, t) = first.get() else {
        return false
    };
    are_none(premises) && is_less(second.get(), t.get(), s.get())
}

pub fn is_eq_split(goal: &Formula, premises: &[ProofTree]) -> bool
    ensures { IsTrue result ↔ IsInstance [] EqSplit goal.now (map goal_of premises.now) }
{
    let Formula::Or(first, rest) = goal else {
        return false
    };
    let Formula::Eq(s, t) = first.get() else {
        return false
    };
    are_none(premises) && is_apart(rest.get(), s.get(), t.get())
}

/// Whether the formula is `s + 1 <= t or t + 1 <= s`.
fn is_apart(formula: &Formula, s: &Term, t: &Term) -> bool
    ensures { IsTrue result ↔ (formula.now ≡ Or (Le (next s.now) t.now) (Le (next t.now) s.now)) }
{
    let Formula::Or(below, above) = formula else {
        return false
    };
    is_less(below.get(), s, t) && is_less(above.get(), t, s)
}

/// Whether the formula is `s + 1 <= t`.
fn is_less(formula: &Formula, s: &Term, t: &Term) -> bool
    ensures { IsTrue result ↔ (formula.now ≡ Le (next s.now) t.now) }
{
    let Formula::Le(u, v) = formula else {
        return false
    };
    is_next(u.get(), s) && same_term(v.get(), t)
}

/// Whether the term is `s + 1`.
fn is_next(term: &Term, s: &Term) -> bool
    ensures { IsTrue result ↔ (term.now ≡ next s.now) }
{
    let Term::Add(u, one) = term else {
        return false
    };
    is_one(one.get()) && same_term(u.get(), s)
}

fn is_one(term: &Term) -> bool
    ensures { IsTrue result ↔ (term.now ≡ Num (pos 1)) }
{
    match term {
        Term::Num(n) => *n == 1,
        _ => false,
    }
}
