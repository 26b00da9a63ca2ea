//! Why a log was refused.

ghost use Rattle.std.specs.Prelude.{◌≡◌};
ghost use Rattle.tp_textpeer.specs.ShowFault.{code_of};
ghost use Rattle.tp_textpeer.specs.declared.error.ShowFault.TheVariants.{OutOfMemory};

use std::alloc::{AllocError, AllocFailed};
use thiserror::Error;
use tp_change::ChangeError;

/// What is wrong with a log, or why it could not be shown.
#[derive(Clone, Copy, Debug, PartialEq, Eq, Error)]
pub enum ShowFault {
    /// A change isn't of the first change's actor, or doesn't depend on just the change before it.
    #[error("NotChain")]
    NotChain,
    /// A change's sequence number isn't 1 more than that of the change before it, or 1 for the first.
    #[error("BadSeq")]
    BadSeq,
    /// A change's start isn't 1 more than the last counter before it, or 1 for the first.
    #[error("BadStart")]
    BadStart,
    /// A reference or a target names no element that was inserted before.
    #[error("BadReference")]
    BadReference,
    /// A length or a change's bytes are refused. It is never `OutOfMemory`.
    #[error("{0}")]
    Change(ChangeError),
    /// A growth was refused.
    #[error("OutOfMemory")]
    OutOfMemory,
    /// The reader or the writer failed.
    #[error("Io")]
    Io,
}

impl ShowFault {
    /// The number of the refusal, from 1 in the order of the variants.
    pub fn code(&self) -> u8
        ensures { result ≡ code_of self.now }
    {
        match self {
            ShowFault::NotChain => 1,
            ShowFault::BadSeq => 2,
            ShowFault::BadStart => 3,
            ShowFault::BadReference => 4,
            ShowFault::Change(_) => 5,
            ShowFault::OutOfMemory => 6,
            ShowFault::Io => 7,
        }
    }
}

impl From<AllocError> for ShowFault {
    ghost from_gives = { λ _ e. e ≡ OutOfMemory };

    fn from(_e: AllocError) -> ShowFault {
        ShowFault::OutOfMemory
    }
}

impl<T: Drop> From<AllocFailed<T>> for ShowFault {
    ghost from_gives = { λ _ e. e ≡ OutOfMemory };

    fn from(_e: AllocFailed<T>) -> ShowFault {
        ShowFault::OutOfMemory
    }
}

/// A fault, and the number of the change at which it was met, counted from 0.
#[derive(Clone, Copy, Debug, PartialEq, Eq, Error)]
#[error("change {change}: {fault}")]
pub struct ShowError {
    /// The change, counted from 0; 0 with `Io` and `OutOfMemory`.
    pub change: u64,
    /// What is wrong there.
    pub fault: ShowFault,
}
