//! Why a policy file is refused.

use ac_policy_table::{PatternKey, PolicyKey, Text};

/// Why a policy file is refused.
#[derive(Drop)]
pub enum PolicyFault {
    /// The bytes are no UTF-8, or not TOML.
    NotToml,
    /// The least key, by its bytes, that no policy file has.
    UnknownKey { key: Text },
    /// The first key that is required and missing.
    MissingKey { key: PolicyKey },
    /// The first key whose value is bad.
    BadValue { key: PolicyKey },
    /// The first pattern of the file is refused.
    FirstPattern { fault: PatternFault },
}

/// Why a pattern is refused.
#[derive(Drop)]
pub enum PatternFault {
    /// The least key, by its bytes, that no pattern has.
    UnknownKey { key: Text },
    /// The first key that is required and missing.
    MissingKey { key: PatternKey },
    /// The first key whose value is bad.
    BadValue { key: PatternKey },
    /// Its texts are not read yet.
    NotSupported,
}
