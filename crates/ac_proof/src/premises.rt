//! What the premises of a step show.
ghost use Rattle.std.specs.Prelude.{◌≡◌, ◌↔◌, IsTrue, IfSome, IfNone, map, [], ◌∷◌};
ghost use Rattle.ac_logic.specs.declared.formula.Formula.{Formula as AnyFormula};
ghost use Rattle.ac_proof.specs.Checked.{goal_of};

use crate::tree::ProofTree;
use ac_logic::Formula;

/// Whether there are no premises.
pub fn are_none(premises: &[ProofTree]) -> bool
    ensures { IsTrue result ↔ (map goal_of premises.now ≡ []) }
{
    matches!(premises, [])
}

/// What a lone premise shows.
pub fn lone(premises: &[ProofTree]) -> Option<&Formula>
    ensures some { IfSome result (λ f. map goal_of premises.now ≡ f.now ∷ []) }
    ensures none { IfNone result ((f : AnyFormula) → map goal_of premises.now ≡ f ∷ [] → ⊥) }
{
    let [p] = premises else { return None };
    Some(p.goal.get())
}

/// What two premises show.
pub fn both(premises: &[ProofTree]) -> Option<(&Formula, &Formula)>
    ensures some { IfSome result (λ fs. map goal_of premises.now ≡ fs.0.now ∷ fs.1.now ∷ []) }
    ensures none { IfNone result ((f g : AnyFormula) → map goal_of premises.now ≡ f ∷ g ∷ [] → ⊥) }
{
    let [p, q] = premises else { return None };
    Some((p.goal.get(), q.goal.get()))
}
