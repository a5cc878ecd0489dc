//! A certificate against a program and a set of policies.
ghost use Rattle.std.specs.Prelude.{◌≡◌, ◌↔◌, ◌++◌, ◌∷◌, [], IsTrue, IfOk, IfErr, OnOk, All, map};
ghost use Rattle.ac_tree.specs.StaticRules.{KeepsStaticRules};
ghost use Rattle.ac_run.specs.Safety.{Safe};
ghost use Rattle.ac_policy_set.specs.Selected.{policies_of};
ghost use Rattle.ac_kernel.specs.Refusals.{HasSmallIndexes, IsRefusal};
ghost use Rattle.ac_verify.specs.Certificates.{Keeps, part_policies, IsAcceptedPart, IsFirstRefusedPart, IsAcceptedCertificate, IsCertificateRefusal, condition_count, conditions_for};

use ac_kernel::{Refused, has_small_indexes, is_same_policy, verify_part};
use ac_policy_set::{PolicySet, any_policy};
use ac_proof::{CertPart, Certificate};
use ac_tree::{PolicyName, Program};
use std::alloc::{AllocError, Global};

/// What is known of an accepted certificate: how many conditions each of its parts shows.
#[derive(Drop)]
pub struct Verified {
    pub counts: Vec<u32>,
}

/// Holds a certificate against a program and the selected policies. After Ok no run of the program violates a policy of the
/// set, whatever made the certificate: its annotations need not be the inferred ones.
pub fn verify(
    alloc: Global,
    program: &Program,
    set: &PolicySet,
    certificate: &Certificate,
) -> Result<Verified, Refused>
    requires rules { KeepsStaticRules program.now }
    requires indexes { All HasSmallIndexes certificate.now.parts }
    ensures safe { OnOk result (Safe program.now (policies_of set.now)) }
    ensures accepted { OnOk result (IsAcceptedCertificate program.now set.now certificate.now) }
    ensures counts { IfOk result (λ verified. verified.counts.items ≡ map (condition_count program.now set.now) certificate.now.parts) }
    ensures refused { IfErr result (IsCertificateRefusal program.now set.now certificate.now) }
{
    let parts = certificate.parts.as_slice();
    if !have_policies(parts, set.policies.as_slice()) {
        return Err(Refused::Policies);
    }
    let counts = counts_of(alloc, program, set, parts)?;
    Ok(Verified { counts })
}

/// How many conditions each part shows, under the policies that they name.
fn counts_of(
    alloc: Global,
    program: &Program,
    set: &PolicySet,
    parts: &[CertPart],
) -> Result<Vec<u32>, Refused>
    requires rules { KeepsStaticRules program.now }
    requires indexes { All HasSmallIndexes parts.now }
    ensures kept { OnOk result (All (Keeps program.now set.now.roles) (part_policies parts.now)) }
    ensures accepted { OnOk result (All (IsAcceptedPart program.now set.now) parts.now) }
    ensures counts { IfOk result (λ counts. counts.items ≡ map (condition_count program.now set.now) parts.now) }
    ensures refused { IfErr result (IsFirstRefusedPart program.now set.now parts.now) }
{
    let mut counts = Vec::new(alloc);
    for i in 0..parts.len() {
        let count = count_of(alloc, program, set, &parts[i])?;
        add(&mut counts, count)?;
    }
    Ok(counts)
}

fn add(counts: &mut Vec<u32>, count: u32) -> Result<(), AllocError>
    ensures { OnOk result (counts.new.items ≡ counts.old.items ++ count ∷ []) }
{
    counts.push(count)?;
    Ok(())
}

/// How many conditions a part shows, under the policy that it names.
fn count_of(
    alloc: Global,
    program: &Program,
    set: &PolicySet,
    part: &CertPart,
) -> Result<u32, Refused>
    requires rules { KeepsStaticRules program.now }
    requires indexes { HasSmallIndexes part.now }
    ensures kept { OnOk result (Keeps program.now set.now.roles part.now.policy) }
    ensures accepted { OnOk result (IsAcceptedPart program.now set.now part.now) }
    ensures count { IfOk result (λ count. count ≡ condition_count program.now set.now part.now) }
    ensures refused { IfErr result (IsRefusal program.now part.now (conditions_for program.now set.now part.now)) }
{
    let policy = any_policy(alloc, set, part.policy)?;
    let counted = verify_part(alloc, program, &policy, part);
    drop(policy);
    counted
}

/// Whether the parts are those of the policies, in their order.
fn have_policies(parts: &[CertPart], policies: &[PolicyName]) -> bool
    ensures { IsTrue result ↔ (part_policies parts.now ≡ policies.now) }
{
    if parts.len() != policies.len() {
        return false;
    }
    for i in 0..parts.len() {
        let name = policies[i];
        if !is_same_policy(parts[i].policy, name) {
            return false;
        }
    }
    true
}

/// Whether each part has small indexes, which `verify` asks for.
pub fn have_small_indexes(certificate: &Certificate) -> bool
    ensures { IsTrue result ↔ All HasSmallIndexes certificate.now.parts }
{
    certificate
        .parts
        .as_slice()
        .iter()
        .all(|part| has_small_indexes(part))
}
