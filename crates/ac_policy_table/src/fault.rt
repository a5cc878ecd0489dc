//! Why the bytes of a policy file have no table.
use crate::key::PolicyKey;
use crate::text::Text;
use ac_tree::LimitKind;
use std::alloc::{AllocError, AllocFailed};
use thiserror::Error;

/// Why the bytes of a policy file have no table: the first thing that is wrong.
#[derive(Debug, Drop, Error)]
pub enum TableFault {
    /// The bytes of the file, or its patterns, are more than the limit on them; `value` is the greatest number that is allowed.
    #[error("the limit of {value} is passed")]
    Limit { which: LimitKind, value: u64 },
    /// The bytes are no UTF-8, or not TOML.
    #[error("the file is not TOML")]
    NotToml,
    /// The least key, by its bytes, that no policy file has.
    #[error("a key is unknown")]
    UnknownKey { key: Text },
    /// The first key that is required and missing.
    #[error("a key is missing")]
    MissingKey { key: PolicyKey },
    /// The first key whose value is bad.
    #[error("a value is bad")]
    BadValue { key: PolicyKey },
    #[error("out of memory")]
    OutOfMemory,
}

impl From<AllocError> for TableFault {
    ghost use Rattle.std.specs.Prelude.{◌≡◌};
    ghost use Rattle.ac_policy_table.specs.declared.fault.TableFault.TheVariants.{OutOfMemory};

    ghost from_gives = { λ _ e. e ≡ OutOfMemory };

    fn from(_error: AllocError) -> TableFault {
        TableFault::OutOfMemory
    }
}

impl<T: Drop> From<AllocFailed<T>> for TableFault {
    ghost use Rattle.std.specs.Prelude.{◌≡◌};
    ghost use Rattle.ac_policy_table.specs.declared.fault.TableFault.TheVariants.{OutOfMemory};

    ghost from_gives = { λ _ e. e ≡ OutOfMemory };

    fn from(_error: AllocFailed<T>) -> TableFault {
        TableFault::OutOfMemory
    }
}
