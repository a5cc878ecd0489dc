//! The conditions of a part are made anew.
ghost use Rattle.std.specs.Prelude.{◌≡◌, IfOk, IfErr, OnOk};
ghost use Rattle.ac_kernel.specs.Anew.{conditions_under};
ghost use Rattle.ac_kernel.specs.Refusals.{AreWithinLimits, IsLimitRefusal, limit_in};

use crate::refused::Refused;
use ac_logic::{Annotation, Condition};
use ac_policy::Policy;
use ac_tree::{LimitKind, PolicyName, Program};
use ac_vcg::{VcgFault, conditions};
use std::alloc::Global;

/// Makes the conditions of a program under a policy, or tells the limit that they pass first.
pub fn regenerate<P: Policy>(
    alloc: Global,
    program: &Program,
    policy: &P,
    name: PolicyName,
    annotations: &[Annotation],
) -> Result<Vec<Condition>, Refused>
    ensures made { IfOk result (λ made. made.items ≡ conditions_under P.Policy policy.now program.now name annotations.now) }
    ensures within { OnOk result (AreWithinLimits (conditions_under P.Policy policy.now program.now name annotations.now)) }
    ensures refused { IfErr result (IsLimitRefusal (conditions_under P.Policy policy.now program.now name annotations.now)) }
{
    match conditions(alloc, program, policy, name, annotations) {
        Ok(made) => Ok(made),
        Err(fault) => match limit_of(&fault) {
            Some(which) => Err(Refused::Limit { which }),
            None => Err(Refused::OutOfMemory),
        },
    }
}

/// The limit that is passed.
fn limit_of(fault: &VcgFault) -> Option<LimitKind>
    ensures { result ≡ limit_in fault.now }
{
    match fault {
        VcgFault::Count { .. } => Some(LimitKind::Conditions),
        VcgFault::Size { .. } => Some(LimitKind::Size),
        VcgFault::Depth { .. } => Some(LimitKind::Depth),
        VcgFault::Total { .. } => Some(LimitKind::Total),
        VcgFault::OutOfMemory => None,
    }
}
