//! Why a side refuses what the other sent, as a refusal frame tells it.

ghost use Rattle.std.specs.Prelude.{◌≡◌};
ghost use Rattle.tp_frame.specs.declared.frame.Frame.TheVariants.{Refusal};
ghost use Rattle.tp_session.specs.Reason.{number_of, reason_of};

use tp_document::DocError;
use tp_frame::Frame;
use tp_peer::PeerError;
use tp_sync::SyncError;

/// Why a side refuses what the other sent.
#[derive(Clone, Copy, Debug, PartialEq, Eq)]
pub enum Reason {
    /// It holds another document.
    OtherDocument,
    /// It speaks another version of the protocol.
    Version,
    /// What came is no frame, message or change, or a frame that the rules don't allow there.
    Malformed,
    /// More than 1,024 changes would wait, or its document has too many heads to tell them.
    TooMany,
    /// Any other refusal.
    Other,
}

impl Reason {
    /// The number that a refusal frame tells, from 1 in the order of the variants.
    pub fn code(self) -> u8
        ensures { result ≡ number_of self }
    {
        match self {
            Reason::OtherDocument => 1,
            Reason::Version => 2,
            Reason::Malformed => 3,
            Reason::TooMany => 4,
            Reason::Other => 5,
        }
    }

    /// The refusal frame.
    pub fn frame(self) -> Frame
        ensures { result ≡ Refusal (number_of self) }
    {
        Frame::Refusal(self.code())
    }
}

impl From<PeerError> for Reason {
    ghost from_gives = { λ e r. r ≡ reason_of e };

    fn from(error: PeerError) -> Reason {
        match error {
            PeerError::Sync(SyncError::BadMessage | SyncError::BadChange) => Reason::Malformed,
            PeerError::Sync(SyncError::PendingFull | SyncError::TooManyHeads) => Reason::TooMany,
            PeerError::Doc(DocError::PendingFull | DocError::TooManyHeads) => Reason::TooMany,
            _ => Reason::Other,
        }
    }
}
