//! Why a journal in a file wasn't opened.

ghost use Rattle.std.specs.Prelude.{◌≡◌, ◌⊎◌};
ghost use Rattle.tp_journal.specs.declared.opening.OpenError.TheVariants.{Io, OutOfMemory};

use std::io;
use std::io::ErrorKind;
use thiserror::Error;

/// Why a journal in a file wasn't opened. Its bytes are as they were.
#[derive(Clone, Copy, Debug, PartialEq, Eq, Error)]
pub enum OpenError {
    /// Another has it open as a journal.
    #[error("Busy")]
    Busy,
    /// The file can't be opened for reading and writing, locked, or read.
    #[error("Io")]
    Io,
    /// A growth was refused.
    #[error("OutOfMemory")]
    OutOfMemory,
}

impl From<io::Error> for OpenError {
    ghost from_gives = { λ _ e. (e ≡ Io) ⊎ (e ≡ OutOfMemory) };

    fn from(error: io::Error) -> OpenError {
        match error.kind() {
            ErrorKind::OutOfMemory => OpenError::OutOfMemory,
            _ => OpenError::Io,
        }
    }
}
