//! What a world replies to an event.

ghost use Rattle.std.specs.Prelude.{◌≡◌};
ghost use Rattle.tp_peer.specs.PeerStep.{Merged, Refused as PeerRefused, reply_of_result};
ghost use Rattle.tp_peer.specs.Taking.{report_of};
ghost use Rattle.tp_headline.specs.Reply.{Answered};
ghost use Rattle.tp_event.specs.Making.{is_made};
ghost use Rattle.tp_event.specs.Views.{answer_of, event_reply_of};

use tp_call::Reply as PeerReply;
use tp_document::Applied;
use tp_headline::WorldError;
use tp_peer::PeerError;

/// What a peer answered to a call.
#[derive(Drop)]
pub enum Answer {
    /// To one that needs no other peer.
    Alone(PeerReply),
    /// To a merge.
    Merged(Applied),
}

impl Answer {
    /// What a merge answered.
    pub(crate) fn of_merge(merged: Result<Applied, PeerError>) -> Answer
        ensures { answer_of result ≡ reply_of_result (λ a. Merged (report_of a)) merged }
    {
        match merged {
            Ok(applied) => Answer::Merged(applied),
            Err(error) => Answer::Alone(PeerReply::Refused(error)),
        }
    }

    /// Whether an edit made a change.
    pub(crate) fn is_made(&self) -> bool
        ensures { result ≡ is_made (answer_of self.now) }
    {
        match self {
            Answer::Alone(PeerReply::Made(Some(_))) => true,
            _ => false,
        }
    }
}

/// What is replied to an event.
#[derive(Drop)]
pub enum Reply {
    /// A peer joined, with this number.
    Peer(usize),
    /// A message was sent: the entry of the wire with this number.
    Wire(usize),
    /// The peer that crashed runs again.
    Reopened,
    /// The device of the peer's journal is to fail.
    Armed,
    /// What the peer answered otherwise, or why it couldn't be opened.
    Answered(Answer),
    /// The world refused the event, and is as it was.
    Refused(WorldError),
}

impl Reply {
    /// Why a peer couldn't be opened.
    pub(crate) fn open_refusal(error: PeerError) -> Reply
        ensures { event_reply_of result ≡ Answered (PeerRefused error) }
    {
        Reply::Answered(Answer::Alone(PeerReply::Refused(error)))
    }
}
