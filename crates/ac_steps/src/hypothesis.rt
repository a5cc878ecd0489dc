//! Hypotheses, and where they stand.
ghost use Rattle.std.specs.Prelude.{◌≡◌, Some, Contains, slice_get, IfOk};
ghost use Rattle.ac_logic.specs.Readable.{IsReadable};
ghost use Rattle.ac_steps.specs.Proofs.{IsProof};

use crate::rules::hypothesis_at;
use ac_logic::{Formula, same};
use ac_proof::ProofTree;
use ac_shared::Shared;
use std::alloc::{AllocError, Global};

/// A formula as the hypothesis that it is.
pub fn hypothesis(
    alloc: Global,
    hyps: &[Shared<Formula>],
    formula: &Shared<Formula>,
) -> Result<ProofTree, AllocError>
    requires known { Contains hyps.now formula.now }
    requires readable { IsReadable formula.now }
    ensures { IfOk result (IsProof hyps.now formula.now) }
{
    let place = place_of(hyps, formula.get());
    Ok(hypothesis_at(alloc, place, formula.share()?))
}

/// The first place of a hypothesis.
fn place_of(hyps: &[Shared<Formula>], formula: &Formula) -> usize
    requires { Contains hyps.now formula.now }
    ensures { slice_get hyps.now result ≡ Some formula.now }
{
    for i in 0..hyps.len() {
        if same(hyps[i].get(), formula) {
            return i;
        }
    }
    unreachable!()
}
