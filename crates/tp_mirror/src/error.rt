//! Why a mirror stopped.

use std::alloc::{AllocError, AllocFailed};
use thiserror::Error;

/// Why a call was refused. After any of these the next call is [`start`](crate::start).
#[derive(Clone, Copy, Debug, PartialEq, Eq, Error)]
pub enum MirrorError {
    /// A growth was refused.
    #[error("OutOfMemory")]
    OutOfMemory,
    /// The system or the journal refused: the workspace knows more.
    #[error("Failed")]
    Failed,
    /// The state file is another document's.
    #[error("OtherDocument")]
    OtherDocument,
    /// At the first use, NOTE is being written.
    #[error("Busy")]
    Busy,
    /// At the first use, NOTE isn't UTF-8.
    #[error("NotText")]
    NotText,
    /// At the first use, NOTE and the journal have different texts, and nothing says which one is taken.
    #[error("BothHaveText")]
    BothHaveText,
    /// The journal has none of the texts that the state file remembers.
    #[error("NothingKnown")]
    NothingKnown,
    /// A number of the state file would pass 64 bits.
    #[error("Limit")]
    Limit,
}

impl From<AllocError> for MirrorError {
    fn from(_: AllocError) -> MirrorError {
        MirrorError::OutOfMemory
    }
}

impl<T: Drop> From<AllocFailed<T>> for MirrorError {
    fn from(_error: AllocFailed<T>) -> MirrorError {
        MirrorError::OutOfMemory
    }
}
