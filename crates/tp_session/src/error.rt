//! Why a session ended.

ghost use Rattle.std.specs.Prelude.{◌≡◌};
ghost use Rattle.tp_session.specs.declared.error.NetError.TheVariants.{Io, Peer};
ghost use Rattle.tp_session.specs.NetError.{code_of, error_of_fault, refusal_of};

use crate::reason::Reason;
use std::io;
use thiserror::Error;
use tp_frame::{Frame, FrameError};
use tp_peer::PeerError;

/// Why a session ended before both sides had said done.
#[derive(Clone, Copy, Debug, PartialEq, Eq, Error)]
pub enum NetError {
    /// The stream failed, or its bytes ended before the session did.
    #[error("Io")]
    Io,
    /// The other sent bytes that are no frame, or a message of this side is too long for one.
    #[error("Frame")]
    Frame,
    /// The other's hello names another document.
    #[error("OtherDocument")]
    OtherDocument,
    /// The other's hello has another version of the protocol.
    #[error("Version")]
    Version,
    /// The other sent a frame where the rules don't allow it.
    #[error("Unexpected")]
    Unexpected,
    /// The other sent a refusal, with this number.
    #[error("RefusedByOther")]
    RefusedByOther {
        /// The number that it sent.
        code: u8,
    },
    /// The host refused to receive a message or to make one.
    #[error("{0}")]
    Peer(PeerError),
    /// A growth was refused for what goes round the messages: a frame, or the bytes that came.
    #[error("OutOfMemory")]
    OutOfMemory,
}

impl NetError {
    /// The number of the error, from 1 in the order of the variants.
    pub fn code(&self) -> u8
        ensures { result ≡ code_of self.now }
    {
        match self {
            NetError::Io => 1,
            NetError::Frame => 2,
            NetError::OtherDocument => 3,
            NetError::Version => 4,
            NetError::Unexpected => 5,
            NetError::RefusedByOther { code: _ } => 6,
            NetError::Peer(_) => 7,
            NetError::OutOfMemory => 8,
        }
    }

    /// The refusal that the other is due where a session ends so: none where its stream is gone, or where it sent a
    /// refusal itself.
    pub fn refusal(&self) -> Option<Frame>
        ensures { result ≡ refusal_of self.now }
    {
        match self {
            NetError::Io => None,
            NetError::Frame => Some(Reason::Malformed.frame()),
            NetError::OtherDocument => Some(Reason::OtherDocument.frame()),
            NetError::Version => Some(Reason::Version.frame()),
            NetError::Unexpected => Some(Reason::Malformed.frame()),
            NetError::RefusedByOther { code: _ } => None,
            NetError::Peer(error) => Some(Reason::from(*error).frame()),
            NetError::OutOfMemory => Some(Reason::Other.frame()),
        }
    }
}

impl From<FrameError> for NetError {
    ghost from_gives = { λ e r. r ≡ error_of_fault e };

    fn from(error: FrameError) -> NetError {
        match error {
            FrameError::OutOfMemory => NetError::OutOfMemory,
            _ => NetError::Frame,
        }
    }
}

impl From<PeerError> for NetError {
    ghost from_gives = { λ refusal e. e ≡ Peer refusal };

    fn from(error: PeerError) -> NetError {
        NetError::Peer(error)
    }
}

impl From<io::Error> for NetError {
    ghost from_gives = { λ _ e. e ≡ Io };

    fn from(_e: io::Error) -> NetError {
        NetError::Io
    }
}
