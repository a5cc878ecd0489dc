//! Why a proof is refused.
ghost use Rattle.std.specs.Prelude.{◌≡◌};
ghost use Rattle.ac_proof.specs.declared.fault.CheckFault.TheVariants.{OutOfMemory};

use crate::tree::StepPath;
use std::alloc::AllocError;
use thiserror::Error;

/// Why a proof is refused.
#[derive(Debug, Drop, Error)]
pub enum CheckFault {
    /// The first step in preorder that is not readable or is no instance of its rule.
    #[error("a step is no instance of its rule")]
    Step(StepPath),
    #[error("out of memory")]
    OutOfMemory,
}

impl From<AllocError> for CheckFault {
    ghost from_gives = { λ _ e. e ≡ OutOfMemory };

    fn from(_error: AllocError) -> CheckFault {
        CheckFault::OutOfMemory
    }
}
