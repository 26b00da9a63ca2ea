//! Why a call that receives changes was refused.

ghost use Rattle.std.specs.Prelude.{◌≡◌};
ghost use Rattle.tp_receive.specs.declared.error.ReceiveError.TheVariants.{OutOfMemory};

use std::alloc::{AllocError, AllocFailed};
use thiserror::Error;

/// Why a call that receives changes was refused.
#[derive(Clone, Copy, Debug, PartialEq, Eq, Error)]
pub enum ReceiveError {
    /// More than 1,024 changes would have to wait.
    #[error("PendingFull")]
    PendingFull,
    /// The keeper refused a change.
    #[error("NotKept")]
    NotKept,
    /// A growth was refused.
    #[error("OutOfMemory")]
    OutOfMemory,
}

impl From<AllocError> for ReceiveError {
    ghost from_gives = { λ _ e. e ≡ OutOfMemory };

    fn from(_e: AllocError) -> ReceiveError {
        ReceiveError::OutOfMemory
    }
}

impl<T: Drop> From<AllocFailed<T>> for ReceiveError {
    ghost from_gives = { λ _ e. e ≡ OutOfMemory };

    fn from(_e: AllocFailed<T>) -> ReceiveError {
        ReceiveError::OutOfMemory
    }
}
