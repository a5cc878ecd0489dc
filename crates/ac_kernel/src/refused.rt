//! Why a certificate, or a part of one, is refused.
ghost use Rattle.std.specs.Prelude.{◌≡◌};
ghost use Rattle.ac_kernel.specs.declared.refused.Refused.TheVariants.{OutOfMemory};

use ac_tree::{LimitKind, Pair, PolicyName};
use sqlite_items::Items;
use std::alloc::AllocError;

/// Why a certificate, or a part of one, is refused, in the order in which that is looked for. Places are counted from 0.
#[derive(Drop)]
pub enum Refused {
    /// The parts are not those of the selected policies, in their order. A part alone is never refused so.
    Policies,
    /// The first annotation that is not well formed.
    Annotation {
        policy: PolicyName,
        index: u32,
    },
    /// The limit that the conditions pass first.
    Limit {
        which: LimitKind,
    },
    /// The first condition whose entry is absent, or of another policy or pair.
    Missing {
        policy: PolicyName,
        pair: Pair,
    },
    /// The first condition whose entry has another formula.
    Differs {
        policy: PolicyName,
        pair: Pair,
    },
    /// The first condition whose entry has a proof with a step that is refused, and the path to that step.
    Step {
        policy: PolicyName,
        pair: Pair,
        path: Items<u32>,
    },
    /// The first entry behind that of the last condition.
    Extra {
        policy: PolicyName,
        index: u32,
    },
    OutOfMemory,
}

impl From<AllocError> for Refused {
    ghost from_gives = { λ _ e. e ≡ OutOfMemory };

    fn from(_error: AllocError) -> Refused {
        Refused::OutOfMemory
    }
}
