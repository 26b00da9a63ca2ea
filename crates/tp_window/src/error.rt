//! Why a request of a page is refused.

ghost use Rattle.std.specs.Prelude.{◌≡◌, ◌↔◌, IsTrue};
ghost use Rattle.tp_peer.specs.PeerError.{refusal_of_document};
ghost use Rattle.tp_peer.specs.declared.error.PeerError.TheVariants as peer;
ghost use Rattle.tp_peer.specs.declared.editing_at.EditAtError.TheVariants as at;
ghost use Rattle.tp_window.specs.Refusals.{refusal_of_text};
ghost use Rattle.tp_window.specs.declared.error.WindowError.TheVariants as refusal;

use std::alloc::{AllocError, AllocFailed};
use thiserror::Error;
use tp_document::DocError;
use tp_opid::HexError;
use tp_peer::{EditAtError, PeerError};

/// Why a request of a page is refused.
#[derive(Clone, Copy, Debug, PartialEq, Eq, Error)]
pub enum WindowError {
    /// The text is no request, a hash or an actor in it isn't one, or it doesn't say heads by either a list or a number.
    #[error("BadRequest")]
    BadRequest,
    /// No answer had the number, or its heads are forgotten: the page is to open the text anew.
    #[error("Forgotten")]
    Forgotten,
    /// The peer refused it: it has stopped, a head is unknown, or the edit doesn't fit the text at them.
    #[error("{0}")]
    Edit(EditAtError),
    /// A growth was refused.
    #[error("OutOfMemory")]
    OutOfMemory,
}

impl WindowError {
    /// Whether the peer had stopped before: an earlier refusal was for the failure that stopped it.
    pub fn is_stopped(&self) -> bool
        ensures { IsTrue result ↔ (self.now ≡ refusal.Edit (at.Peer peer.Stopped)) }
    {
        matches!(
            self,
            WindowError::Edit(EditAtError::Peer(PeerError::Stopped))
        )
    }
}

impl From<AllocError> for WindowError {
    ghost from_gives = { λ _ refused. refused ≡ refusal.OutOfMemory };

    fn from(_e: AllocError) -> WindowError {
        WindowError::OutOfMemory
    }
}

impl<T: Drop> From<AllocFailed<T>> for WindowError {
    ghost from_gives = { λ _ refused. refused ≡ refusal.OutOfMemory };

    fn from(_e: AllocFailed<T>) -> WindowError {
        WindowError::OutOfMemory
    }
}

impl From<HexError> for WindowError {
    ghost from_gives = { λ error refused. refused ≡ refusal_of_text error };

    fn from(error: HexError) -> WindowError {
        match error {
            HexError::BadHex => WindowError::BadRequest,
            HexError::OutOfMemory => WindowError::OutOfMemory,
        }
    }
}

impl From<DocError> for WindowError {
    ghost from_gives = { λ error refused. refused ≡ refusal.Edit (at.Peer (refusal_of_document error)) };

    fn from(error: DocError) -> WindowError {
        WindowError::Edit(EditAtError::Peer(PeerError::from(error)))
    }
}
