//! The verdict on a program's bytes under a policy's bytes.

ghost use Rattle.std.specs.Prelude.{◌≡◌, ◌≢◌, ℕ, List, []};
ghost use Rattle.ac_verdict.specs.declared.count.Count.{Count as CountOf};
ghost use Rattle.ac_verdict.specs.AcceptedProgram.{program_of};
ghost use Rattle.ac_verdict.specs.Causes.{HasVerdict, IsCause};
ghost use Rattle.ac_verdict.specs.Headline.{IsCertified};

use crate::accepted_program::{AcceptedProgram, read_program};
use crate::findings::{Findings, found_under};
use crate::outcome::Outcome;
use crate::policy::read_policy;
use std::alloc::Global;

/// Certifies the program that the bytes spell under the policies that a policy file's bytes select.
pub fn certify_bytes(alloc: Global, program: &[u8], policy: &[u8]) -> Outcome
    ensures accepted { (ks : List CountOf) → result ≡ Outcome.Accepted ks → IsCertified program.now policy.now }
    ensures cause { IsCause program.now policy.now result }
{
    match read_program(alloc, program) {
        Ok(program) => judge(alloc, &program, policy),
        Err(outcome) => outcome,
    }
}

/// Judges a program that was accepted, under the policies that a policy file's bytes select.
pub fn judge(alloc: Global, program: &AcceptedProgram, policy: &[u8]) -> Outcome
    ensures { (bytes : List ℕ) → HasVerdict bytes (program_of program.now) → IsCause bytes policy.now result }
{
    let table = match read_policy(alloc, policy) {
        Ok(table) => table,
        Err(outcome) => return outcome,
    };
    match found_under(alloc, program.get(), table.policies.as_slice()) {
        Ok(findings) => verdict(findings),
        Err(_) => Outcome::OutOfMemory,
    }
}

/// Whether all conditions are proved.
fn verdict(findings: Findings) -> Outcome
    ensures accepted { findings.unproved ≡ [] → result ≡ Outcome.Accepted findings.counts }
    ensures rejected { findings.unproved ≢ [] → result ≡ Outcome.Rejected findings.counts findings.unproved }
{
    let Findings { counts, unproved } = findings;
    if unproved.is_empty() {
        return Outcome::Accepted { counts };
    }
    Outcome::Rejected { counts, unproved }
}
