//! A part of a certificate against a program and a policy.
ghost use Rattle.std.specs.Prelude.{◌≡◌, ◌<◌, ◌^◌, IfOk, IfErr, OnOk, All, length};
ghost use Rattle.ac_tree.specs.StaticRules.{KeepsStaticRules};
ghost use Rattle.ac_soundness.specs.NeverBad.{NeverBad};
ghost use Rattle.ac_kernel.specs.Anew.{conditions_of_part};
ghost use Rattle.ac_kernel.specs.Refusals.{HasSmallIndexes, IsAccepted, IsRefusal, IsAnnotationRefusal, IsEntriesRefusal, AreAllShown};
ghost use Rattle.ac_kernel.specs.WellFormed.{IsWellFormed};

use crate::annotations::first_ill_formed;
use crate::entries::check_entries;
use crate::refused::Refused;
use crate::regenerate::regenerate;
use ac_logic::Condition;
use ac_policy::Policy;
use ac_proof::{CertPart, soundness};
use ac_soundness::laws::conditions_are_enough;
use ac_tree::Program;
use std::alloc::Global;

/// How many conditions a program has under a policy and the annotations of a part, where the part has a checked proof of
/// each and nothing more. Then no run of the program from a start that fits has an event that the policy forbids, whatever
/// made the part. The name of the policy in the part only stands in the conditions.
pub fn verify_part<P: Policy>(
    alloc: Global,
    program: &Program,
    policy: &P,
    part: &CertPart,
) -> Result<u32, Refused>
    requires accepted { KeepsStaticRules program.now }
    requires indexes { HasSmallIndexes part.now }
    ensures safe { OnOk result (NeverBad program.now (P.bad policy.now program.now)) }
    ensures accepted { OnOk result (IsAccepted program.now part.now (conditions_of_part P.Policy policy.now program.now part.now)) }
    ensures count { IfOk result (λ count. count ≡ length (conditions_of_part P.Policy policy.now program.now part.now)) }
    ensures refused { IfErr result (IsRefusal program.now part.now (conditions_of_part P.Policy policy.now program.now part.now)) }
{
    check_annotations(alloc, program, part)?;
    let annotations = part.annotations.as_slice();
    let conditions = regenerate(alloc, program, policy, part.policy, annotations)?;
    let shown = check_conditions(alloc, conditions.as_slice(), part);
    let count = conditions.len() as u32;
    drop(conditions);
    shown?;
    soundness();
    conditions_are_enough(program, policy, part.policy, annotations);
    Ok(count)
}

fn check_annotations(alloc: Global, program: &Program, part: &CertPart) -> Result<(), Refused>
    requires { HasSmallIndexes part.now }
    ensures accepted { OnOk result (All (IsWellFormed program.now) part.now.annotations) }
    ensures refused { IfErr result (IsAnnotationRefusal program.now part.now) }
{
    match first_ill_formed(alloc, program, part.annotations.as_slice())? {
        Some(index) => Err(Refused::Annotation {
            policy: part.policy,
            index: index as u32,
        }),
        None => Ok(()),
    }
}

/// Checks the entries of the conditions, and that there are no more.
fn check_conditions(alloc: Global, conditions: &[Condition], part: &CertPart) -> Result<(), Refused>
    requires indexes { HasSmallIndexes part.now }
    requires count { length conditions.now < 2 ^ 32 }
    ensures shown { OnOk result (AreAllShown conditions.now part.now) }
    ensures refused { IfErr result (IsEntriesRefusal conditions.now part.now) }
{
    let entries = part.conditions.as_slice();
    check_entries(alloc, conditions, entries)?;
    if entries.len() > conditions.len() {
        return Err(Refused::Extra {
            policy: part.policy,
            index: conditions.len() as u32,
        });
    }
    Ok(())
}
