//! Why the conditions of a program are refused.
use ac_tree::Pair;
use std::alloc::AllocError;

/// What passes its limit, with the limit; or want of memory.
#[derive(Debug, Drop)]
pub enum VcgFault {
    /// The number of conditions.
    Count { value: u64 },
    /// The depth of the condition of a pair.
    Depth { pair: Pair, value: u64 },
    /// The size of the condition of a pair.
    Size { pair: Pair, value: u64 },
    /// The sizes of all conditions together.
    Total { value: u64 },
    OutOfMemory,
}

impl From<AllocError> for VcgFault {
    ghost use Rattle.std.specs.Prelude.{◌≡◌};
    ghost use Rattle.ac_vcg.specs.declared.fault.VcgFault.TheVariants.{OutOfMemory};

    ghost from_gives = { λ _ e. e ≡ OutOfMemory };

    fn from(error: AllocError) -> VcgFault {
        VcgFault::OutOfMemory
    }
}
