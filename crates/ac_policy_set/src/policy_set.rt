//! Sets of policies.
ghost use Rattle.std.specs.Prelude.{◌≡◌, IfOk};
ghost use Rattle.ac_policy_set.specs.Selected.{policy_named};

use ac_codes::Pattern;
use ac_policy::AnyPolicy;
use ac_tree::{Name, PolicyName};
use sqlite_items::Items;
use std::alloc::{AllocError, Global};

/// What a policy file selects.
#[derive(Drop)]
pub struct PolicySet {
    /// The selected policies in their fixed order, each once.
    pub policies: Items<PolicyName>,
    /// The roles in which only a symmetric matrix may be used, under symm.
    pub roles: Items<Name>,
    /// The patterns in the order of their numbers, from 1: those of the file, then those of the library where it counts.
    pub patterns: Items<Pattern>,
}

/// The policy of a name, with the roles of the set.
pub fn any_policy(alloc: Global, set: &PolicySet, name: PolicyName) -> Result<AnyPolicy, AllocError>
    ensures { IfOk result (λ policy. policy ≡ policy_named set.now.roles name) }
{
    match name {
        PolicyName::Init => Ok(AnyPolicy::Init),
        PolicyName::Bounds => Ok(AnyPolicy::Bounds),
        PolicyName::Symm => Ok(AnyPolicy::Symm {
            roles: copied(alloc, set.roles.as_slice())?,
        }),
    }
}

fn copied(alloc: Global, names: &[Name]) -> Result<Items<Name>, AllocError>
    ensures { IfOk result (λ copy. copy ≡ names.now) }
{
    let mut copy = Vec::new(alloc);
    for name in names {
        copy.push(name.clone()?)?;
    }
    Ok(Items::from_vec(copy))
}
