//! The conditions of one target.
ghost use Rattle.std.specs.Prelude.{IfOk};
ghost use Rattle.ac_tree.specs.declared.policy.PolicyName.{PolicyName as AnyName};
ghost use Rattle.ac_conditions.specs.Conditions.{conditions_at as conditions_of};
ghost use Rattle.ac_conditions.specs.Part.{part_of};
ghost use Rattle.ac_vcg.specs.Ground.{IsGround};
ghost use Rattle.ac_vcg.specs.Stands.{AreFound};

use crate::found::Found;
use crate::walk::{add_condition, walk_block};
use ac_logic::{Annotation, Formula};
use ac_policy::Policy;
use ac_preconditions::aim::Aim;
use ac_preconditions::barriers::mark_barriers;
use ac_profile::Precondition;
use ac_shared::Shared;
use ac_tree::{Cut, Pair, Program, Target};
use std::alloc::{AllocError, Global};

/// What the conditions of every target are made of.
#[derive(Drop)]
pub struct Ground {
    pub ranges: Vec<Shared<Formula>>,
    pub is_ordered: bool,
}

/// The conditions of a target, the last first.
pub fn conditions_at<P: Policy, G: Precondition>(
    alloc: Global,
    program: &Program,
    policy: &P,
    annotations: &[Annotation],
    ground: &Ground,
    target: &Target,
) -> Result<Vec<Found<G>>, AllocError>
    requires { IsGround program.now ground.now }
    ensures { IfOk result (λ found. (name : AnyName) → AreFound G.stands name found.items (conditions_of program.now name (part_of (P.need_of policy.now program.now) (P.effect_of policy.now program.now) (P.known_of policy.now) annotations.now) target.now)) }
{
    let marks = mark_barriers(alloc, annotations)?;
    let barriers = marks.as_slice();
    let aim = Aim {
        program,
        policy,
        annotations,
        barriers,
        target: *target,
        is_ordered: ground.is_ordered,
    };
    let hypotheses = ground.ranges.as_slice();
    let mut found = Vec::new(alloc);
    let body = program.body.as_slice();
    let path = walk_block(alloc, body, &aim, hypotheses, None, &mut found)?;
    let pair = Pair {
        cut: Cut::Start,
        target: *target,
    };
    add_condition(alloc, pair, hypotheses, &[], path, &mut found)?;
    Ok(found)
}
