//! What a checked proof is worth.
ghost use Rattle.std.specs.Prelude.{List};
ghost use Rattle.ac_logic.specs.declared.formula.Formula.{Formula as AnyFormula};
ghost use Rattle.ac_proof.specs.declared.tree.ProofTree.{ProofTree as AnyProof};
ghost use Rattle.ac_proof.specs.Checked.{Checked, goal_of};
ghost use Rattle.ac_proof.specs.Soundness.{Follows};

/// The goal of a checked proof holds under every valuation in which all hypotheses hold. The function does nothing: what it
/// ensures is the law.
pub fn soundness()
    ensures { (hyps : List AnyFormula) (proof : AnyProof) → Checked hyps proof → Follows hyps (goal_of proof) }
{}
