//! The theorem that verification conditions are enough.
ghost use Rattle.std.specs.Prelude.{All, ℕ};
ghost use Rattle.ac_tree.specs.StaticRules.{KeepsStaticRules};
ghost use Rattle.ac_run.specs.declared.start.Start as started;
ghost use Rattle.ac_run.specs.Run.{run};
ghost use Rattle.ac_run.specs.Start.{Fits};
ghost use Rattle.ac_run.specs.Violation.{Violates};
ghost use Rattle.ac_policy.specs.AnyPolicy.{name_of, roles_of, need_at, effect_at, known_at};
ghost use Rattle.ac_conditions.specs.AllConditions.{all_conditions};
ghost use Rattle.ac_conditions.specs.Conditions.{IsValid};
ghost use Rattle.ac_soundness.specs.NeverBad.{NeverBad};

use ac_logic::Annotation;
use ac_policy::{AnyPolicy, Policy};
use ac_tree::{PolicyName, Program};

/// The law of soundness: where a program keeps the static rules and each of its conditions holds under every valuation, whatever
/// the annotations are, no run of it from a start that fits has an event that is bad by the policy.
pub fn conditions_are_enough<P: Policy>(
    program: &Program,
    policy: &P,
    name: PolicyName,
    annotations: &[Annotation],
)
    requires accepted { KeepsStaticRules program.now }
    requires hold { All IsValid (all_conditions program.now name (P.need_of policy.now program.now) (P.effect_of policy.now program.now) (P.known_of policy.now) annotations.now) }
    ensures { NeverBad program.now (P.bad policy.now program.now) }
{}

/// The same for the three policies, in the words of what they forbid: no run from a start that fits violates the policy.
pub fn no_run_violates(
    program: &Program,
    policy: &AnyPolicy,
    name: PolicyName,
    annotations: &[Annotation],
)
    requires accepted { KeepsStaticRules program.now }
    requires hold { All IsValid (all_conditions program.now name (need_at policy.now program.now) (effect_at policy.now program.now) (known_at policy.now) annotations.now) }
    ensures { (start : started.Start) (n : ℕ) → Fits program.now start → ¬ Violates program.now start (roles_of policy.now) (name_of policy.now) (run program.now start n).trace }
{
    conditions_are_enough(program, policy, name, annotations);
}
