//! Why a text is not cut into tokens.
use std::alloc::{AllocError, AllocFailed};
use thiserror::Error;

/// Why a text is not cut into tokens, with the place of the first fault.
#[derive(Debug, Drop, Error)]
pub enum TokenFault {
    /// No token begins here, or two or more digits begin with 0.
    #[error("no token begins at {at}")]
    Token { at: u32 },
    /// The literal that begins here is above the limit.
    #[error("the literal at {at} is too large")]
    Literal { at: u32 },
    /// The name that begins here is longer than the limit.
    #[error("the name at {at} is too long")]
    Name { at: u32 },
    #[error("out of memory")]
    OutOfMemory,
}

impl From<AllocError> for TokenFault {
    ghost use Rattle.std.specs.Prelude.{◌≡◌};
    ghost use Rattle.ac_tokens.specs.declared.token_fault.TokenFault.TheVariants.{OutOfMemory};

    ghost from_gives = { λ _ e. e ≡ OutOfMemory };

    fn from(_error: AllocError) -> TokenFault {
        TokenFault::OutOfMemory
    }
}

impl<T: Drop> From<AllocFailed<T>> for TokenFault {
    ghost use Rattle.std.specs.Prelude.{◌≡◌};
    ghost use Rattle.ac_tokens.specs.declared.token_fault.TokenFault.TheVariants.{OutOfMemory};

    ghost from_gives = { λ _ e. e ≡ OutOfMemory };

    fn from(_error: AllocFailed<T>) -> TokenFault {
        TokenFault::OutOfMemory
    }
}
