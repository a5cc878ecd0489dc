//! Why there is no instance.

use ac_tree::Name;
use std::alloc::AllocError;

/// What is wrong with a name in a formula.
#[derive(Clone, Copy, Debug)]
pub enum Reason {
    /// No declaration has it.
    Undeclared,
    /// It stands as an array and has no extents, or as a scalar and has some.
    Rank,
    /// Its shadow variable stands there, and it is a constant or an input.
    NoShadow,
}

/// Why there is no instance.
#[derive(Debug, Drop, thiserror::Error)]
pub enum InstanceFault {
    /// The formula with the values put in doesn't speak of the program: the first name in preorder with which something is
    /// wrong, and the first reason.
    #[error("a name in a formula of a pattern doesn't fit the program")]
    Bad { name: Name, reason: Reason },
    #[error("out of memory")]
    OutOfMemory,
}

impl From<AllocError> for InstanceFault {
    ghost use Rattle.std.specs.Prelude.{◌≡◌};
    ghost use Rattle.ac_instance.specs.declared.fault.InstanceFault.TheVariants.{OutOfMemory};

    ghost from_gives = { λ _ e. e ≡ OutOfMemory };

    fn from(_error: AllocError) -> InstanceFault {
        InstanceFault::OutOfMemory
    }
}
