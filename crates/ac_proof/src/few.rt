//! Whether each step of a proof has few enough premises for a place among them to be a number of 32 bits.
ghost use Rattle.std.specs.Prelude.{IsTrue, ◌↔◌};
ghost use Rattle.ac_proof.specs.Checked.{HasFewPremises};

use crate::tree::ProofTree;

/// Whether each step has fewer than 2^32 premises, which `check_proof` asks for.
pub fn has_few_premises(tree: &ProofTree) -> bool
    ensures { IsTrue result ↔ HasFewPremises tree.now }
{
    let premises = tree.premises.as_slice();
    if premises.len() >= 1 << 32 {
        return false;
    }
    for p in premises {
        if !has_few_premises(p) {
            return false;
        }
    }
    true
}
