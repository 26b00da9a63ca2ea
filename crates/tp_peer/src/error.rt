//! Why a call on a peer was refused.

ghost use Rattle.std.specs.Prelude.{◌≡◌};
ghost use Rattle.tp_peer.specs.PeerError.{code_of, refusal_of_bytes, refusal_of_document, refusal_of_journal, refusal_of_sync};
ghost use Rattle.tp_peer.specs.PeerError as refusal;

use thiserror::Error;
use tp_document::DocError;
use tp_journal::JournalError;
use tp_store::StoreError;
use tp_sync::SyncError;

/// Why a call was refused. It leaves the peer as it was, but for `OutOfMemory` of a merge and of a message that
/// comes, which leaves what had entered, and `JournalFailed`, which stops the peer.
#[derive(Clone, Copy, Debug, PartialEq, Eq, Error)]
pub enum PeerError {
    /// A change that is there bears the actor under which the peer was to be opened.
    #[error("ActorInUse")]
    ActorInUse,
    /// The device of the journal failed in this call.
    #[error("JournalFailed")]
    JournalFailed,
    /// The peer, or the one that was to be merged, has stopped since its journal failed.
    #[error("Stopped")]
    Stopped,
    /// The link would be a new one, and the peer has 1,024.
    #[error("TooManyLinks")]
    TooManyLinks,
    /// The journal has a header already, or other bytes than the beginning of one.
    #[error("JournalNotEmpty")]
    JournalNotEmpty,
    /// The document refused it. It is never `OutOfMemory` or `NotKept`.
    #[error("{0}")]
    Doc(DocError),
    /// The bytes are no message, more than 1,024 changes would wait, or the document has too many heads to tell them. It
    /// is never `OutOfMemory`, `OtherDocument` or `NotKept`.
    #[error("{0}")]
    Sync(SyncError),
    /// The journal doesn't recover. It is never `Io` or `OutOfMemory`.
    #[error("{0}")]
    Store(StoreError),
    /// A growth was refused.
    #[error("OutOfMemory")]
    OutOfMemory,
}

impl PeerError {
    /// The number of the refusal, from 1 in the order of the variants.
    pub fn code(&self) -> u8
        ensures { result ≡ code_of self.now }
    {
        match self {
            PeerError::ActorInUse => 1,
            PeerError::JournalFailed => 2,
            PeerError::Stopped => 3,
            PeerError::TooManyLinks => 4,
            PeerError::JournalNotEmpty => 5,
            PeerError::Doc(_) => 6,
            PeerError::Sync(_) => 7,
            PeerError::Store(_) => 8,
            PeerError::OutOfMemory => 9,
        }
    }

    /// Whether it says that the device of the journal failed.
    pub(crate) fn is_failed(&self) -> bool
        ensures { result ≡ refusal.is_failed self.now }
    {
        matches!(self, PeerError::JournalFailed)
    }
}

/// Whether the outcome of a call stops the peer: the device of the journal failed.
pub(crate) fn stops<T>(outcome: &Result<T, PeerError>) -> bool
    ensures { result ≡ refusal.stops outcome.now }
{
    match outcome {
        Ok(_) => false,
        Err(error) => error.is_failed(),
    }
}

impl From<DocError> for PeerError {
    ghost from_gives = { λ e r. r ≡ refusal_of_document e };

    fn from(error: DocError) -> PeerError {
        match error {
            DocError::OutOfMemory => PeerError::OutOfMemory,
            DocError::NotKept => PeerError::JournalFailed,
            error => PeerError::Doc(error),
        }
    }
}

impl From<SyncError> for PeerError {
    ghost from_gives = { λ e r. r ≡ refusal_of_sync e };

    fn from(error: SyncError) -> PeerError {
        match error {
            SyncError::OutOfMemory => PeerError::OutOfMemory,
            SyncError::NotKept => PeerError::JournalFailed,
            error => PeerError::Sync(error),
        }
    }
}

impl From<JournalError> for PeerError {
    ghost from_gives = { λ e r. r ≡ refusal_of_journal e };

    fn from(error: JournalError) -> PeerError {
        match error {
            JournalError::Io => PeerError::JournalFailed,
            JournalError::OutOfMemory => PeerError::OutOfMemory,
        }
    }
}

impl From<StoreError> for PeerError {
    ghost from_gives = { λ e r. r ≡ refusal_of_bytes e };

    fn from(error: StoreError) -> PeerError {
        match error {
            StoreError::OutOfMemory => PeerError::OutOfMemory,
            StoreError::Io => PeerError::JournalFailed,
            error => PeerError::Store(error),
        }
    }
}
