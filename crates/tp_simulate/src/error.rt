//! Why a script wasn't run to its end.

ghost use Rattle.std.specs.Prelude.{◌≡◌};
ghost use Rattle.tp_simulate.specs.SimError.{IsOutsideError, code_of};
ghost use Rattle.tp_simulate.specs.declared.error.SimError.TheVariants.{OutOfMemory};

use std::alloc::{AllocError, AllocFailed};
use std::io;
use std::io::ErrorKind;
use thiserror::Error;

/// Why a script wasn't run to its end.
#[derive(Clone, Copy, Debug, PartialEq, Eq, Error)]
pub enum SimError {
    /// The line with this number, from 1, has another shape than those of docs/FORMATS.md, or names a mark that isn't set.
    #[error("line {0}")]
    Line(u64),
    /// The reader or the writer failed.
    #[error("Io")]
    Io,
    /// A growth was refused.
    #[error("OutOfMemory")]
    OutOfMemory,
}

impl SimError {
    /// The number of the refusal, from 1 in the order of the variants.
    pub fn code(&self) -> u8
        ensures { result ≡ code_of self.now }
    {
        match self {
            SimError::Line(_) => 1,
            SimError::Io => 2,
            SimError::OutOfMemory => 3,
        }
    }
}

impl From<AllocError> for SimError {
    ghost from_gives = { λ _ e. e ≡ OutOfMemory };

    fn from(_e: AllocError) -> SimError {
        SimError::OutOfMemory
    }
}

impl<T: Drop> From<AllocFailed<T>> for SimError {
    ghost from_gives = { λ _ e. e ≡ OutOfMemory };

    fn from(_e: AllocFailed<T>) -> SimError {
        SimError::OutOfMemory
    }
}

/// Which refusal the fault of a reader or a writer is.
pub(crate) fn refusal_of_device(error: io::Error) -> SimError
    ensures { IsOutsideError result }
{
    match error.kind() {
        ErrorKind::OutOfMemory => SimError::OutOfMemory,
        _ => SimError::Io,
    }
}
