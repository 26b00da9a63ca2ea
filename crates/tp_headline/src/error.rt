//! Why a world refuses an event.

ghost use Rattle.std.specs.Prelude.{◌≡◌};
ghost use Rattle.tp_headline.specs.WorldError.{code_of};

use thiserror::Error;

/// Why an event was refused. A refused event changes nothing.
#[derive(Clone, Copy, Debug, PartialEq, Eq, Error)]
pub enum WorldError {
    /// There is no peer with a number that the event names.
    #[error("NoPeer")]
    NoPeer,
    /// The actor was named by an earlier event.
    #[error("ActorUsed")]
    ActorUsed,
    /// Delivered bytes of any origin carry a change that no peer made.
    #[error("ForeignChange")]
    ForeignChange,
    /// The event would make a change with the hash of another one.
    #[error("HashClash")]
    HashClash,
    /// A peer that the event acts on or reads has stopped.
    #[error("Stopped")]
    Stopped,
    /// There is no wire entry with the number.
    #[error("NoEntry")]
    NoEntry,
    /// A growth of the world's own was refused.
    #[error("OutOfMemory")]
    OutOfMemory,
}

impl WorldError {
    /// The number of the refusal, from 1 in the order of the variants.
    pub fn code(&self) -> u8
        ensures { result ≡ code_of self.now }
    {
        match self {
            WorldError::NoPeer => 1,
            WorldError::ActorUsed => 2,
            WorldError::ForeignChange => 3,
            WorldError::HashClash => 4,
            WorldError::Stopped => 5,
            WorldError::NoEntry => 6,
            WorldError::OutOfMemory => 7,
        }
    }
}
