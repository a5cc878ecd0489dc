//! Ground forms, and why there is none.
ghost use Rattle.std.specs.Prelude.{◌≡◌};
ghost use Rattle.ac_expand.specs.declared.answer.ExpandFault.TheVariants.{OutOfMemory};

use ac_logic::{Formula, Term};
use ac_shared::Shared;
use sqlite_items::Items;
use std::alloc::AllocError;
use thiserror::Error;

/// The ground form of a formula, the terms at which its assumed `all` are opened, and the number of their instances.
#[derive(Drop)]
pub struct Ground {
    pub formula: Shared<Formula>,
    pub index: Items<Shared<Term>>,
    pub instances: u64,
}

/// Why there is no ground form.
#[derive(Debug, Drop, Error)]
pub enum ExpandFault {
    /// There are more instances than the limit, which is the value.
    #[error("more instances than the limit")]
    Instances { value: u64 },
    #[error("out of memory")]
    OutOfMemory,
}

impl From<AllocError> for ExpandFault {
    ghost from_gives = { λ _ e. e ≡ OutOfMemory };

    fn from(_error: AllocError) -> ExpandFault {
        ExpandFault::OutOfMemory
    }
}
