//! Which hypotheses a plan uses.
ghost use Rattle.std.specs.Prelude.{◌≡◌, ◌↔◌, IsTrue};
ghost use Rattle.ac_steps.specs.Contexts.{IsHypothesis, Uses};

use crate::plan::{Plan, Way};
use ac_logic::{Formula, same};

/// Whether some step of a plan is the formula as a hypothesis. A plan that does not use one shows its goal without it.
pub fn uses(plan: &Plan, formula: &Formula) -> bool
    ensures { IsTrue result ↔ Uses formula.now plan.now }
{
    if is_hypothesis(&plan.way, plan.goal.get(), formula) {
        return true;
    }
    let premises = plan.premises.as_slice();
    for premise in premises {
        if uses(premise.get(), formula) {
            return true;
        }
    }
    false
}

fn is_hypothesis(way: &Way, goal: &Formula, formula: &Formula) -> bool
    ensures { IsTrue result ↔ IsHypothesis formula.now way.now goal.now }
{
    match way {
        Way::Hypothesis => same(goal, formula),
        _ => false,
    }
}
