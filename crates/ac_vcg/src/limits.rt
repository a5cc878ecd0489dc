//! Whether conditions are within the limits: they are measured without their formulas, one target at a time, and none beyond
//! the limit on its size.
ghost use Rattle.std.specs.Prelude.{◌≡◌, ◌+◌, ◌≤◌, ℕ, List, None, Some, IfErr, OnOk};
ghost use Rattle.ac_tree.specs.declared.limit.LimitKind.TheVariants as kind;
ghost use Rattle.ac_tree.specs.Limits.{limit_of};
ghost use Rattle.ac_tree.specs.declared.policy.PolicyName.{PolicyName as AnyName};
ghost use Rattle.ac_logic.specs.declared.condition.Condition.{Condition as AnyCondition};
ghost use Rattle.ac_logic.specs.declared.formula.Formula.{Formula as AnyFormula};
ghost use Rattle.ac_logic.specs.Size.{saturated, size_of};
ghost use Rattle.ac_conditions.specs.AllConditions.{at_each};
ghost use Rattle.ac_conditions.specs.Conditions.{conditions_at as conditions_of};
ghost use Rattle.ac_conditions.specs.Part.{part_of};
ghost use Rattle.ac_vcg.specs.Ground.{IsGround};
ghost use Rattle.ac_profile.specs.Measure.{IsMeasure};
ghost use Rattle.ac_vcg.specs.Refusals.{or_else, size_refusal, depth_refusal, refusal_of_one, first_refusal, total_size, total_refusal, sizes_refusal, number_refusal, IsAnswered};
ghost use Rattle.ac_vcg.specs.Stands.{IsFor, AreFound};

use crate::fault::VcgFault;
use crate::found::Found;
use crate::one_target::{Ground, conditions_at};
use ac_logic::Annotation;
use ac_policy::Policy;
use ac_profile::Measure;
use ac_tree::{LimitKind, Pair, Program, Target};
use std::alloc::Global;

/// That there are no more conditions than the limit.
pub fn check_count(count: u64) -> Result<(), VcgFault>
    ensures within { OnOk result (number_refusal count ≡ None) }
    ensures fault { IfErr result (λ f. number_refusal count ≡ Some f) }
{
    let most = LimitKind::Conditions.number();
    if count > most {
        return Err(VcgFault::Count { value: most });
    }
    Ok(())
}

/// Why a condition of this size and depth is refused.
fn refusal_by(pair: Pair, size: u64, depth: u64) -> Option<VcgFault>
    ensures { result ≡ or_else (size_refusal pair size) (depth_refusal pair depth) }
{
    let largest = LimitKind::Size.number();
    let deepest = LimitKind::Depth.number();
    if size > largest {
        return Some(VcgFault::Size {
            pair,
            value: largest,
        });
    }
    if depth > deepest {
        return Some(VcgFault::Depth {
            pair,
            value: deepest,
        });
    }
    None
}

/// Why a condition is refused, by what is measured of it.
fn refusal_in(found: &Found<Measure>) -> Option<VcgFault>
    ensures { (name : AnyName) (c : AnyCondition) → IsFor IsMeasure name found.now c → result ≡ refusal_of_one c }
{
    match &found.goal {
        Measure::TooLarge => Some(VcgFault::Size {
            pair: found.pair,
            value: LimitKind::Size.number(),
        }),
        Measure::Known(profile) => refusal_by(found.pair, profile.size(), profile.depth()),
    }
}

/// The size of a formula within the limit.
fn size_in(measure: &Measure) -> u64
    ensures { (f : AnyFormula) → IsMeasure measure.now f → size_of f ≤ limit_of kind.Size → result ≡ saturated (size_of f) }
{
    match measure {
        Measure::TooLarge => 0,
        Measure::Known(profile) => profile.size(),
    }
}

/// Why the first of the conditions of a target is refused that is; they come with the last first. Where none is, their sizes
/// are added up.
fn first_refused(found: Vec<Found<Measure>>, total: &mut u64) -> Option<VcgFault>
    ensures fault { (name : AnyName) (cs : List AnyCondition) → AreFound IsMeasure name found.items cs → result ≡ first_refusal cs }
    ensures total { (name : AnyName) (cs : List AnyCondition) → AreFound IsMeasure name found.items cs → result ≡ None → saturated total.new ≡ saturated (total.old + total_size cs) }
{
    let mut found = found;
    while let Some(last) = found.pop() {
        let refusal = refusal_in(&last);
        if refusal.is_some() {
            return refusal;
        }
        *total = total.saturating_add(size_in(&last.goal));
    }
    None
}

/// That the sizes of all conditions together are within the limit.
fn check_total(total: u64) -> Result<(), VcgFault>
    ensures within { OnOk result (total_refusal total ≡ None) }
    ensures fault { IfErr result (λ f. total_refusal total ≡ Some f) }
{
    let largest = LimitKind::Total.number();
    if total > largest {
        return Err(VcgFault::Total { value: largest });
    }
    Ok(())
}

/// That each condition, and then all together, are within the limits on size and depth.
pub fn check_sizes<P: Policy>(
    alloc: Global,
    program: &Program,
    policy: &P,
    annotations: &[Annotation],
    ground: &Ground,
    targets: &[Target],
) -> Result<(), VcgFault>
    requires { IsGround program.now ground.now }
    ensures within { OnOk result ((name : AnyName) → sizes_refusal (at_each (conditions_of program.now name (part_of (P.need_of policy.now program.now) (P.effect_of policy.now program.now) (P.known_of policy.now) annotations.now)) targets.now) ≡ None) }
    ensures fault { IfErr result (λ f. (name : AnyName) → IsAnswered (sizes_refusal (at_each (conditions_of program.now name (part_of (P.need_of policy.now program.now) (P.effect_of policy.now program.now) (P.known_of policy.now) annotations.now)) targets.now)) f) }
{
    let mut total = 0;
    for target in targets {
        let found = conditions_at(alloc, program, policy, annotations, ground, target)?;
        if let Some(refusal) = first_refused(found, &mut total) {
            return Err(refusal);
        }
    }
    check_total(total)
}
