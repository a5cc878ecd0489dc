//! How a step ends, and why it isn't made.

use std::alloc::AllocError;

/// How a step ended: the run went on, it halted in this step or before, or no task was left.
#[derive(Clone, Copy)]
pub enum Stepped {
    Went,
    Halted,
    Ended,
}

/// Why a step isn't made: 128 bits don't hold a number of it, or memory ran out.
#[derive(Debug, Drop, thiserror::Error)]
pub enum StepFault {
    #[error("a number of the step is too wide")]
    Wide,
    #[error("out of memory")]
    OutOfMemory,
}

impl From<AllocError> for StepFault {
    ghost use Rattle.std.specs.Prelude.{◌≡◌};
    ghost use Rattle.ac_stepper.specs.declared.fault.StepFault.TheVariants.{OutOfMemory};

    ghost from_gives = { λ _ e. e ≡ OutOfMemory };

    fn from(_error: AllocError) -> StepFault {
        StepFault::OutOfMemory
    }
}
