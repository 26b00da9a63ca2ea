//! Why a call on a journal was refused.

use thiserror::Error;

/// Why a call on a journal was refused.
#[derive(Clone, Copy, Debug, PartialEq, Eq, Error)]
pub enum JournalError {
    /// The device failed in this call, which is counted.
    #[error("Io")]
    Io,
    /// A growth was refused.
    #[error("OutOfMemory")]
    OutOfMemory,
}
