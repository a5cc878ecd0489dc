//! The faults of a check by the table of names.

use ac_tree::StaticFault;
use std::alloc::AllocError;

/// Why a program is not accepted.
#[derive(Drop)]
pub enum NamesFault {
    /// The first node that breaks a static rule, and the least rule that it breaks.
    Static(StaticFault),
    OutOfMemory,
}

impl From<AllocError> for NamesFault {
    ghost use Rattle.std.specs.Prelude.{◌≡◌};
    ghost use Rattle.ac_names.specs.declared.names_fault.NamesFault.TheVariants.{OutOfMemory};

    ghost from_gives = { λ _ e. e ≡ OutOfMemory };

    fn from(_error: AllocError) -> NamesFault {
        NamesFault::OutOfMemory
    }
}

impl From<StaticFault> for NamesFault {
    ghost use Rattle.std.specs.Prelude.{◌≡◌};
    ghost use Rattle.ac_names.specs.declared.names_fault.NamesFault.TheVariants.{Static};

    ghost from_gives = { λ fault e. e ≡ Static fault };

    fn from(fault: StaticFault) -> NamesFault {
        NamesFault::Static(fault)
    }
}
