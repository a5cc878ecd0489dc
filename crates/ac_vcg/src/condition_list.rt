//! The conditions of a program.
//!
//! What is made is measured first: the conditions are counted, then each is measured without its formula, one target at a
//! time. So no formula is made beyond a limit.
ghost use Rattle.std.specs.Prelude.{◌≡◌, ◌++◌, List, None, IfOk, OnOk, IfErr};
ghost use Rattle.ac_logic.specs.declared.condition.Condition.{Condition as AnyCondition};
ghost use Rattle.ac_conditions.specs.AllConditions.{at_each, all_conditions as every_condition};
ghost use Rattle.ac_conditions.specs.Conditions.{conditions_at as conditions_of};
ghost use Rattle.ac_conditions.specs.Part.{part_of};
ghost use Rattle.ac_vcg.specs.Ground.{IsGround, IsMade};
ghost use Rattle.ac_vcg.specs.Refusals.{refusal_of_all, IsAnswered};
ghost use Rattle.ac_vcg.specs.Stands.{AreFound, IsFor};

use crate::fault::VcgFault;
use crate::found::Found;
use crate::limits::{check_count, check_sizes};
use crate::one_target::{Ground, conditions_at};
use crate::plan::make_plan;
use ac_logic::{Annotation, Condition};
use ac_policy::Policy;
use ac_profile::Made;
use ac_targets::{is_numbered, ranges};
use ac_tree::{PolicyName, Program, Target};
use std::alloc::{AllocError, Global};

/// The verification conditions of a program under a policy, by target and then by cut.
pub fn conditions<P: Policy>(
    alloc: Global,
    program: &Program,
    policy: &P,
    name: PolicyName,
    annotations: &[Annotation],
) -> Result<Vec<Condition>, VcgFault>
    ensures made { IfOk result (λ made. made.items ≡ every_condition program.now name (P.need_of policy.now program.now) (P.effect_of policy.now program.now) (P.known_of policy.now) annotations.now) }
    ensures within { OnOk result (refusal_of_all (every_condition program.now name (P.need_of policy.now program.now) (P.effect_of policy.now program.now) (P.known_of policy.now) annotations.now) ≡ None) }
    ensures fault { IfErr result (IsAnswered (refusal_of_all (every_condition program.now name (P.need_of policy.now program.now) (P.effect_of policy.now program.now) (P.known_of policy.now) annotations.now))) }
{
    let ranges = ranges(alloc, program)?;
    let is_ordered = is_numbered(program);
    let ground = Ground { ranges, is_ordered };
    let plan = make_plan(alloc, program, policy, annotations, &ground)?;
    check_count(plan.count)?;
    let targets = plan.targets.as_slice();
    check_sizes(alloc, program, policy, annotations, &ground, targets)?;
    let made = make_all(alloc, program, policy, name, annotations, &ground, targets)?;
    Ok(made)
}

/// The conditions of some targets.
fn make_all<P: Policy>(
    alloc: Global,
    program: &Program,
    policy: &P,
    name: PolicyName,
    annotations: &[Annotation],
    ground: &Ground,
    targets: &[Target],
) -> Result<Vec<Condition>, AllocError>
    requires { IsGround program.now ground.now }
    ensures { IfOk result (λ all. all.items ≡ at_each (conditions_of program.now name (part_of (P.need_of policy.now program.now) (P.effect_of policy.now program.now) (P.known_of policy.now) annotations.now)) targets.now) }
{
    let mut all = Vec::new(alloc);
    for target in targets {
        let found = conditions_at(alloc, program, policy, annotations, ground, target)?;
        add_conditions(name, found, &mut all)?;
    }
    Ok(all)
}

/// Adds the conditions of a target, which come with the last first.
fn add_conditions(
    name: PolicyName,
    found: Vec<Found<Made>>,
    all: &mut Vec<Condition>,
) -> Result<(), AllocError>
    ensures { OnOk result ((cs : List AnyCondition) → AreFound IsMade name found.items cs → all.new.items ≡ all.old.items ++ cs) }
{
    let mut found = found;
    while let Some(last) = found.pop() {
        all.push(made_condition(name, last))?;
    }
    Ok(())
}

fn made_condition(name: PolicyName, found: Found<Made>) -> Condition
    ensures { (c : AnyCondition) → IsFor IsMade name found c → result ≡ c }
{
    let Found { pair, goal } = found;
    let Made { formula } = goal;
    Condition {
        policy: name,
        pair,
        formula,
    }
}
