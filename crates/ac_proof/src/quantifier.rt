//! The rules of `all`.
ghost use Rattle.std.specs.Prelude.{◌≡◌, IsTrue, ◌↔◌, IfSome, IfNone, map, [], ◌∷◌, All as Each};
ghost use Rattle.ac_logic.specs.declared.formula.Formula.{Formula as AnyFormula};
ghost use Rattle.ac_logic.specs.declared.formula.Formula.TheVariants.{All};
ghost use Rattle.ac_logic.specs.Absence.{IsAbsent};
ghost use Rattle.ac_logic.specs.Bounds.{IsTermClosed};
ghost use Rattle.ac_logic.specs.Opening.{opened};
ghost use Rattle.ac_proof.specs.declared.rule.Rule.TheVariants.{AllIntro, AllElim};
ghost use Rattle.ac_proof.specs.New.{IsNew};
ghost use Rattle.ac_proof.specs.Rules.{IsInstance};
ghost use Rattle.ac_proof.specs.Checked.{goal_of};

use crate::tree::ProofTree;
use ac_logic::{Formula, Sym, Term, is_absent, is_term_closed};
use ac_opening::is_opening_of;
use ac_shared::Shared;

pub fn is_all_intro(
    hyps: &[Shared<Formula>],
    k: u32,
    goal: &Formula,
    premises: &[ProofTree],
) -> bool
    ensures { IsTrue result ↔ IsInstance hyps.now (AllIntro k) goal.now (map goal_of premises.now) }
{
    let Formula::All(a) = goal else { return false };
    let [p] = premises else { return false };
    let name = Term::Sym(Sym::Fresh(k));
    is_new(k, hyps, goal) && is_opening_of(a.get(), &name, p.goal.get())
}

/// Whether `#k` stands neither in the hypotheses nor in the goal.
fn is_new(k: u32, hyps: &[Shared<Formula>], goal: &Formula) -> bool
    ensures { IsTrue result ↔ IsNew k hyps.now goal.now }
{
    let name = Sym::Fresh(k);
    is_absent(&name, goal) && is_absent_in_all(&name, hyps)
}

fn is_absent_in_all(name: &Sym, formulas: &[Shared<Formula>]) -> bool
    ensures { IsTrue result ↔ Each (IsAbsent name.now) formulas.now }
{
    for f in formulas {
        if !is_absent(name, f.get()) {
            return false;
        }
    }
    true
}

pub fn is_all_elim(t: &Shared<Term>, goal: &Formula, premises: &[ProofTree]) -> bool
    ensures { IsTrue result ↔ IsInstance [] (AllElim t.now) goal.now (map goal_of premises.now) }
{
    let Some(a) = body_of(premises) else {
        return false
    };
    is_opening(goal, a, t)
}

/// What stands under the `all` of a lone premise.
fn body_of(premises: &[ProofTree]) -> Option<&Shared<Formula>>
    ensures some { IfSome result (λ a. map goal_of premises.now ≡ All a.now ∷ []) }
    ensures none { IfNone result ((a : AnyFormula) → map goal_of premises.now ≡ All a ∷ [] → ⊥) }
{
    let [p] = premises else { return None };
    let Formula::All(a) = p.goal.get() else {
        return None
    };
    Some(a)
}

fn is_opening(goal: &Formula, body: &Shared<Formula>, t: &Shared<Term>) -> bool
    ensures { IsTrue result ↔ ((goal.now ≡ opened t.now body.now) × IsTermClosed t.now) }
{
    is_opening_of(body.get(), t.get(), goal) && is_term_closed(t.get())
}
