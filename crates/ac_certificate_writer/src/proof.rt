//! The steps of a proof written.
ghost use Rattle.std.specs.Prelude.{◌≡◌, OnOk, length};
ghost use Rattle.ac_proof.specs.declared.tree.ProofTree.{out-ProofTree};
ghost use Rattle.ac_lines.specs.CertificateText.{step_entry, steps_of};
ghost use Rattle.ac_certificate_writer.specs.Written.{written_of, with_entry, with_entries};

use crate::draft::{Draft, write_entry};
use crate::spelled::spelled_rule;
use ac_formula_printer::print_formula;
use ac_lines::Claim;
use ac_proof::ProofTree;
use std::alloc::{AllocError, Global};

/// Writes the last step of a proof.
fn write_step(alloc: Global, draft: &mut Draft, proof: &ProofTree) -> Result<(), AllocError>
    ensures { OnOk result (written_of draft.new ≡ with_entry (written_of draft.old) (step_entry (out-ProofTree proof.now).rule (out-ProofTree proof.now).goal (length (out-ProofTree proof.now).premises))) }
{
    let rule = spelled_rule(alloc, &proof.rule)?;
    let text = print_formula(alloc, proof.goal.get())?;
    let premises = proof.premises.len() as u64;
    write_entry(alloc, draft, Claim::Step { rule, premises }, text)
}

/// Writes the steps of a proof in preorder.
pub fn write_proof(alloc: Global, draft: &mut Draft, proof: &ProofTree) -> Result<(), AllocError>
    ensures { OnOk result (written_of draft.new ≡ with_entries (written_of draft.old) (steps_of proof.now)) }
{
    write_step(alloc, draft, proof)?;
    for premise in proof.premises.as_slice() {
        write_proof(alloc, draft, premise)?;
    }
    Ok(())
}
