//! What is found of a program under its policies.

ghost use Rattle.std.specs.Prelude.{◌≡◌, IfOk};
ghost use Rattle.ac_verdict.specs.Sites.{counts, unproved};

use crate::count::Count;
use crate::sites::{conditions_under, unproved_under};
use ac_tree::{Node, PolicyName, Program};
use sqlite_items::Items;
use std::alloc::{AllocError, Global};

/// The numbers of conditions, policy by policy, and the nodes of those that are unproved.
#[derive(Drop)]
pub(crate) struct Findings {
    pub(crate) counts: Items<Count>,
    pub(crate) unproved: Items<Node>,
}

/// What is found of a supported program under these policies, in their order.
#[tactic(auto, using(crate::proofs::Counted::found_rules))]
pub(crate) fn found_under(
    alloc: Global,
    program: &Program,
    policies: &[PolicyName],
) -> Result<Findings, AllocError>
    ensures counts { IfOk result (λ f. f.counts ≡ counts policies.now program.now) }
    ensures unproved { IfOk result (λ f. f.unproved ≡ unproved policies.now program.now) }
{
    let mut counts = Items::new(alloc);
    let mut unproved = Items::new(alloc);
    for policy in policies {
        let nodes = unproved_under(alloc, *policy, program)?;
        counts.push(Count {
            policy: *policy,
            conditions: conditions_under(*policy, program),
            unproved: nodes.len(),
        })?;
        unproved.append(nodes)?;
    }
    Ok(Findings { counts, unproved })
}
