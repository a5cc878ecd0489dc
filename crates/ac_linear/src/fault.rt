//! Why there is no linear form.
ghost use Rattle.std.specs.Prelude.{◌≡◌};
ghost use Rattle.ac_linear.specs.declared.fault.LinFault.TheVariants.{OutOfMemory};

use std::alloc::AllocError;

/// Why there is no form.
#[derive(Debug, Drop, thiserror::Error)]
pub enum LinFault {
    /// A number on the way leaves its range.
    #[error("a number is too wide")]
    Wide,
    #[error("out of memory")]
    OutOfMemory,
}

impl From<AllocError> for LinFault {
    ghost from_gives = { λ _ e. e ≡ OutOfMemory };

    fn from(_error: AllocError) -> LinFault {
        LinFault::OutOfMemory
    }
}
