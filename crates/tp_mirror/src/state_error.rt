//! Why bytes are no state file.

ghost use Rattle.std.specs.Prelude.{◌≡◌};
ghost use Rattle.tp_mirror.specs.declared.state_error.StateError.TheVariants.{OutOfMemory};

use std::alloc::{AllocError, AllocFailed};
use thiserror::Error;

/// Why bytes were refused as a state file.
#[derive(Clone, Copy, Debug, PartialEq, Eq, Error)]
pub enum StateError {
    /// The first 8 bytes aren't the magic.
    #[error("BadMagic")]
    BadMagic,
    /// A field isn't whole.
    #[error("Truncated")]
    Truncated,
    /// The byte that says whether NOTE is away is neither 0 nor 1.
    #[error("BadFlag")]
    BadFlag,
    /// Bytes follow the last file.
    #[error("Trailing")]
    Trailing,
    /// A growth was refused.
    #[error("OutOfMemory")]
    OutOfMemory,
}

impl From<AllocError> for StateError {
    ghost from_gives = { λ _ e. e ≡ OutOfMemory };

    fn from(_e: AllocError) -> StateError {
        StateError::OutOfMemory
    }
}

impl<T: Drop> From<AllocFailed<T>> for StateError {
    ghost from_gives = { λ _ e. e ≡ OutOfMemory };

    fn from(_e: AllocFailed<T>) -> StateError {
        StateError::OutOfMemory
    }
}
