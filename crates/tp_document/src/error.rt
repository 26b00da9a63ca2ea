//! Why a call on a document was refused.

ghost use Rattle.std.specs.Prelude.{◌≡◌, Some};
ghost use Rattle.tp_document.specs.DocError.{code_of, receiving, refusal_of_snapshot};
ghost use Rattle.tp_document.specs.declared.error.DocError.TheVariants.{OutOfMemory};

use std::alloc::{AllocError, AllocFailed};
use thiserror::Error;
use tp_receive::ReceiveError;
use tp_snapshot::SnapshotError;

/// Why a call was refused. A refused call leaves the document as it was, but for `OutOfMemory` and `NotKept` of the
/// calls that receive changes: see [`Document::apply`](crate::Document::apply).
#[derive(Clone, Copy, Debug, PartialEq, Eq, Error)]
pub enum DocError {
    /// A splice or a cursor asks for characters past the end of the text.
    #[error("OutOfRange")]
    OutOfRange,
    /// The last counter of the edit would be past 2^48 - 1.
    #[error("CounterLimit")]
    CounterLimit,
    /// The edit has more than 65,536 operations.
    #[error("TooManyOps")]
    TooManyOps,
    /// There are more than 65,535 heads.
    #[error("TooManyHeads")]
    TooManyHeads,
    /// A hash that was named as a head isn't applied.
    #[error("UnknownHead")]
    UnknownHead,
    /// A cursor's element isn't there.
    #[error("UnknownElement")]
    UnknownElement,
    /// More than 1,024 changes would wait.
    #[error("PendingFull")]
    PendingFull,
    /// Another change has the hash of the new one.
    #[error("HashTaken")]
    HashTaken,
    /// A growth was refused.
    #[error("OutOfMemory")]
    OutOfMemory,
    /// What came is of another document.
    #[error("OtherDocument")]
    OtherDocument,
    /// The message has more than 65,535 bytes, or the change more than 4,194,304.
    #[error("TooLong")]
    TooLong,
    /// There are 4,294,967,295 changes.
    #[error("Full")]
    Full,
    /// The keeper didn't keep a change.
    #[error("NotKept")]
    NotKept,
}

impl DocError {
    /// The number of the refusal, from 1 in the order of the variants.
    pub fn code(&self) -> u8
        ensures { result ≡ code_of self.now }
    {
        match self {
            DocError::OutOfRange => 1,
            DocError::CounterLimit => 2,
            DocError::TooManyOps => 3,
            DocError::TooManyHeads => 4,
            DocError::UnknownHead => 5,
            DocError::UnknownElement => 6,
            DocError::PendingFull => 7,
            DocError::HashTaken => 8,
            DocError::OutOfMemory => 9,
            DocError::OtherDocument => 10,
            DocError::TooLong => 11,
            DocError::Full => 12,
            DocError::NotKept => 13,
        }
    }
}

impl From<AllocError> for DocError {
    ghost from_gives = { λ _ e. e ≡ OutOfMemory };

    fn from(_e: AllocError) -> DocError {
        DocError::OutOfMemory
    }
}

impl<T: Drop> From<AllocFailed<T>> for DocError {
    ghost from_gives = { λ _ e. e ≡ OutOfMemory };

    fn from(_e: AllocFailed<T>) -> DocError {
        DocError::OutOfMemory
    }
}

impl From<ReceiveError> for DocError {
    ghost from_gives = { λ e d. receiving d ≡ Some e };

    fn from(error: ReceiveError) -> DocError {
        match error {
            ReceiveError::PendingFull => DocError::PendingFull,
            ReceiveError::NotKept => DocError::NotKept,
            ReceiveError::OutOfMemory => DocError::OutOfMemory,
        }
    }
}

impl From<SnapshotError> for DocError {
    ghost from_gives = { λ e d. d ≡ refusal_of_snapshot e };

    fn from(error: SnapshotError) -> DocError {
        match error {
            SnapshotError::UnknownHead => DocError::UnknownHead,
            SnapshotError::OutOfMemory => DocError::OutOfMemory,
        }
    }
}
