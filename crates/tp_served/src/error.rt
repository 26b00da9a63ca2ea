//! Why a call on a served peer was refused.

ghost use Rattle.std.specs.Prelude.{◌≡◌};
ghost use Rattle.tp_served.specs.ServedError.{code_of};

use thiserror::Error;
use tp_peer::PeerError;

/// Why a call was refused.
#[derive(Clone, Copy, Debug, PartialEq, Eq, Error)]
pub enum ServedError {
    /// Another seat had the peer when the call tried to take it. Nothing has changed.
    #[error("Busy")]
    Busy,
    /// The peer refused the call.
    #[error("{0}")]
    Peer(PeerError),
    /// The number of seats isn't 1 to 64, or not all seats were given.
    #[error("BadSeats")]
    BadSeats,
    /// A growth was refused while the peer was opened.
    #[error("OutOfMemory")]
    OutOfMemory,
}

impl ServedError {
    /// The number of the refusal: 1 to 4, in the order above.
    pub fn code(&self) -> u8
        ensures { result ≡ code_of self.now }
    {
        match self {
            ServedError::Busy => 1,
            ServedError::Peer(_) => 2,
            ServedError::BadSeats => 3,
            ServedError::OutOfMemory => 4,
        }
    }
}
