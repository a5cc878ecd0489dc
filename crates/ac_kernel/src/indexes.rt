//! Whether all that a refusal may tell by its index has an index of 32 bits.
ghost use Rattle.std.specs.Prelude.{IsTrue, ◌↔◌, All};
ghost use Rattle.ac_proof.specs.Checked.{HasFewPremises};
ghost use Rattle.ac_kernel.specs.Refusals.{HasSmallIndexes};

use ac_proof::{CertPart, ProvedCondition, has_few_premises};

/// Whether the part has fewer than 2^32 annotations, and each step of its proofs fewer than 2^32 premises.
pub fn has_small_indexes(part: &CertPart) -> bool
    ensures { IsTrue result ↔ HasSmallIndexes part.now }
{
    part.annotations.len() < 1 << 32 && have_few_premises(part.conditions.as_slice())
}

fn have_few_premises(entries: &[ProvedCondition]) -> bool
    ensures { IsTrue result ↔ All (λ e. HasFewPremises e.proof) entries.now }
{
    entries.iter().all(|entry| has_few_premises(&entry.proof))
}
