//! Why a change was refused.

ghost use Rattle.std.specs.Prelude.{◌≡◌};
ghost use Rattle.tp_layout.specs.ChangeError.{code_of};
ghost use Rattle.tp_layout.specs.declared.error.ChangeError.TheVariants.{OutOfMemory};

use std::alloc::{AllocError, AllocFailed};
use thiserror::Error;

/// What is wrong with the bytes or the parts of a change, or that a growth was refused.
#[derive(Clone, Copy, Debug, PartialEq, Eq, Error)]
pub enum ChangeError {
    /// The version byte is neither 1 nor 2.
    #[error("Version")]
    Version,
    /// A field isn't whole.
    #[error("Short")]
    Short,
    /// Bytes follow the last record.
    #[error("Trailing")]
    Trailing,
    /// The sequence number or the start counter is 0.
    #[error("ZeroSeqOrStart")]
    ZeroSeqOrStart,
    /// The message or a run's text is no UTF-8.
    #[error("BadUtf8")]
    BadUtf8,
    /// The dependencies don't rise strictly.
    #[error("DepsOrder")]
    DepsOrder,
    /// There is no record.
    #[error("NoRecords")]
    NoRecords,
    /// A record's or a reference's tag is unknown to the version.
    #[error("BadTag")]
    BadTag,
    /// An insert run has no byte, or a run of deletes fewer than two.
    #[error("EmptyRun")]
    EmptyRun,
    /// A limit is passed: 4,194,304 bytes, 65,536 operations, counters of 2^48 - 1, also those that a run deletes,
    /// 65,535 dependencies or message bytes.
    #[error("Limit")]
    Limit,
    /// A growth was refused.
    #[error("OutOfMemory")]
    OutOfMemory,
    /// The version is 2, and no record is a run of deletes.
    #[error("NoRun")]
    NoRun,
}

impl ChangeError {
    /// The number of the refusal, from 1 in the order of the variants.
    pub fn code(&self) -> u8
        ensures { result ≡ code_of self.now }
    {
        match self {
            ChangeError::Version => 1,
            ChangeError::Short => 2,
            ChangeError::Trailing => 3,
            ChangeError::ZeroSeqOrStart => 4,
            ChangeError::BadUtf8 => 5,
            ChangeError::DepsOrder => 6,
            ChangeError::NoRecords => 7,
            ChangeError::BadTag => 8,
            ChangeError::EmptyRun => 9,
            ChangeError::Limit => 10,
            ChangeError::OutOfMemory => 11,
            ChangeError::NoRun => 12,
        }
    }
}

impl From<AllocError> for ChangeError {
    ghost from_gives = { λ _ e. e ≡ OutOfMemory };

    fn from(_e: AllocError) -> ChangeError {
        ChangeError::OutOfMemory
    }
}

impl<T: Drop> From<AllocFailed<T>> for ChangeError {
    ghost from_gives = { λ _ e. e ≡ OutOfMemory };

    fn from(_e: AllocFailed<T>) -> ChangeError {
        ChangeError::OutOfMemory
    }
}
