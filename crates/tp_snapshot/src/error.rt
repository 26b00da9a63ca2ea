//! Why there is no snapshot.

ghost use Rattle.std.specs.Prelude.{◌≡◌};
ghost use Rattle.tp_snapshot.specs.declared.error.SnapshotError.TheVariants.{OutOfMemory};

use std::alloc::{AllocError, AllocFailed};
use thiserror::Error;

/// Why a call that asks for what a past shows was refused.
#[derive(Clone, Copy, Debug, PartialEq, Eq, Error)]
pub enum SnapshotError {
    /// A hash isn't that of an applied change.
    #[error("UnknownHead")]
    UnknownHead,
    /// A growth was refused.
    #[error("OutOfMemory")]
    OutOfMemory,
}

impl From<AllocError> for SnapshotError {
    ghost from_gives = { λ _ e. e ≡ OutOfMemory };

    fn from(_e: AllocError) -> SnapshotError {
        SnapshotError::OutOfMemory
    }
}

impl<T: Drop> From<AllocFailed<T>> for SnapshotError {
    ghost from_gives = { λ _ e. e ≡ OutOfMemory };

    fn from(_e: AllocFailed<T>) -> SnapshotError {
        SnapshotError::OutOfMemory
    }
}
