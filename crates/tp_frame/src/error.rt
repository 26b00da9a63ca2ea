//! Why a frame was refused.

ghost use Rattle.std.specs.Prelude.{◌≡◌};
ghost use Rattle.tp_frame.specs.FrameError.{code_of};
ghost use Rattle.tp_frame.specs.declared.error.FrameError.TheVariants.{OutOfMemory};

use std::alloc::{AllocError, AllocFailed};
use thiserror::Error;

/// What is wrong with the frame that comes next, or that a growth was refused.
#[derive(Clone, Copy, Debug, PartialEq, Eq, Error)]
pub enum FrameError {
    /// The length of the body is past 16,777,216.
    #[error("TooLong")]
    TooLong,
    /// The body has no byte, or begins with an unknown kind; or a done or a refusal has another length than its kind
    /// asks for.
    #[error("BadKind")]
    BadKind,
    /// The body of a hello hasn't 18 bytes.
    #[error("BadHello")]
    BadHello,
    /// A growth was refused.
    #[error("OutOfMemory")]
    OutOfMemory,
}

impl FrameError {
    /// The number of the refusal, from 1 in the order of the variants.
    pub fn code(&self) -> u8
        ensures { result ≡ code_of self.now }
    {
        match self {
            FrameError::TooLong => 1,
            FrameError::BadKind => 2,
            FrameError::BadHello => 3,
            FrameError::OutOfMemory => 4,
        }
    }
}

impl From<AllocError> for FrameError {
    ghost from_gives = { λ _ e. e ≡ OutOfMemory };

    fn from(_e: AllocError) -> FrameError {
        FrameError::OutOfMemory
    }
}

impl<T: Drop> From<AllocFailed<T>> for FrameError {
    ghost from_gives = { λ _ e. e ≡ OutOfMemory };

    fn from(_e: AllocFailed<T>) -> FrameError {
        FrameError::OutOfMemory
    }
}
