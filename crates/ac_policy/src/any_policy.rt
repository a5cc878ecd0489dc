//! The three policies.
ghost use Rattle.ac_policy.specs.AnyPolicy.{Forbids, shadow_of, need_at, effect_at, known_at};
ghost use Rattle.ac_policy.specs.AnyPolicyLaws.{form_law, effect_law, need_law, known_law, for_law};

use crate::policy::Policy;
use crate::site::Site;
use crate::{bounds, init, symm};
use ac_logic::{Change, Formula};
use ac_shared::Shared;
use ac_tree::{Name, Program};
use sqlite_items::Items;
use std::alloc::{AllocError, Global};

/// A policy that a policy file can select.
#[derive(Drop)]
pub enum AnyPolicy {
    /// What is read or used of a name that is no input was written before.
    Init,
    /// Every access lies within the extents of its array.
    Bounds,
    /// What is used in one of the roles is a symmetric matrix.
    Symm { roles: Items<Name> },
}

impl Policy for AnyPolicy {
    ghost shadow = { λ q p start. shadow_of q };

    ghost bad = { λ q p start. Forbids q p start };

    ghost need_of = { λ q p s. need_at q p s };

    ghost effect_of = { λ q p s. effect_at q p s };

    ghost known_of = { λ q x. known_at q x };

    fn need(
        &self,
        alloc: Global,
        program: &Program,
        site: &Site,
    ) -> Result<Option<Shared<Formula>>, AllocError> {
        match self {
            AnyPolicy::Init => init::need(alloc, program, site),
            AnyPolicy::Bounds => bounds::need(alloc, program, site),
            AnyPolicy::Symm { roles } => symm::need(alloc, program, site, roles.as_slice()),
        }
    }

    fn effect(
        &self,
        alloc: Global,
        program: &Program,
        site: &Site,
    ) -> Result<Vec<Change>, AllocError> {
        match self {
            AnyPolicy::Init => init::effect(alloc, program, site),
            AnyPolicy::Bounds => Ok(Vec::new(alloc)),
            AnyPolicy::Symm { .. } => Ok(Vec::new(alloc)),
        }
    }

    fn known(&self, alloc: Global, name: &Name) -> Result<Option<Shared<Formula>>, AllocError> {
        match self {
            AnyPolicy::Init => init::known(alloc, name),
            AnyPolicy::Bounds => Ok(None),
            AnyPolicy::Symm { .. } => Ok(None),
        }
    }

    ghost law_form = { λ q p. form_law q p };

    ghost law_effect = { λ q p start. effect_law q p start };

    ghost law_need = { λ q p start kept fits. need_law q p start kept fits };

    ghost law_known = { λ q p start. known_law q p start };

    ghost law_for = { λ q p start. for_law q p start };
}
