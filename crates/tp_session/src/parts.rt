//! A frame that comes in parts.

ghost use Rattle.std.specs.Prelude.{◌≡◌, ◌≤◌, ◌++◌, length, Ok, Option, Result};
ghost use Rattle.tp_frame.specs.Parts.{OpenedFrame};
ghost use Rattle.tp_codec.specs.Gives.{Gives};
ghost use Rattle.tp_message.specs.declared.error.SyncError.{SyncError as Refusal};
ghost use Rattle.tp_message.specs.declared.error.SyncError.TheVariants.{OutOfMemory};
ghost use Rattle.tp_message.specs.Reading.{message_at};
ghost use Rattle.tp_message.specs.ReaderState.{ReaderState};
ghost use Rattle.tp_session.specs.PartStep.{ContinuesReading, IsAfterFrame, IsReading, SessionPartStep, ReadsGiven, and_given, none_of};
ghost use Rattle.tp_session.specs.SessionState.{SessionState};
ghost use Rattle.tp_session.specs.SessionStep.{AnswersSync};

use crate::error::NetError;
use crate::host::Host;
use crate::session::{Phase, Session, late};
use crate::turn::{Ended, Turn};
use std::alloc::Global;
use tp_digest::Ahead;
use tp_frame::Part;
use tp_peer::PeerError;
use tp_sync::{Message, MessageReader, SyncError};

// A reader of a message of a given length.
#[tactic(auto, using(crate::proofs::ReadingLaws::reads_none))]
fn reader_of(alloc: Global, len: u32) -> Result<MessageReader, SyncError>
    ensures { ReadsGiven (none_of len) result }
{
    MessageReader::new(alloc, len)
}

// The reader, once it took all of the piece.
fn read_on(reader: MessageReader, piece: &[u8]) -> Result<MessageReader, SyncError>
    ensures { (frame : OpenedFrame) → ReadsGiven frame (Ok reader)
        → length (frame.given ++ piece.now) ≤ frame.len
        → ReadsGiven (and_given frame piece.now) result }
{
    let mut taking = reader;
    let mut ahead = Ahead::none();
    let mut at = 0;
    'fields: while at < piece.len() && !taking.whole() {
        let rest = &piece[at..];
        if ahead.is_used_up() {
            if let Some(next) = taking.next_four(rest) {
                ahead = next;
            }
        }
        at += taking.take_ahead(rest, &mut ahead)?;
    }
    Ok(taking)
}

// The message whose bytes the reader took. One that isn't whole was refused, and is refused so again, or has no end yet.
fn message_in(mut reader: MessageReader) -> Result<Message, SyncError>
    ensures { (frame : OpenedFrame) → ReadsGiven frame (Ok reader) → length frame.given ≡ frame.len
        → Gives OutOfMemory (λ m. m) result (message_at frame.given) }
{
    if reader.whole() {
        return Ok(reader.finish());
    }
    reader.take(&[])?;
    Err(SyncError::BadMessage)
}

impl Session {
    // Goes on reading, or ends where what came is refused.
    fn go_on(&mut self, read: Result<MessageReader, SyncError>) -> Result<Turn, Ended>
        ensures { ContinuesReading self.old read result self.new }
    {
        match read {
            Ok(reader) => {
                self.reading = Some(reader);
                Ok(Turn {
                    send: None,
                    ended: false,
                })
            }
            Err(error) => self.fail(NetError::Peer(PeerError::from(error))),
        }
    }

    // The next bytes of a sync frame come.
    fn on_piece(&mut self, piece: &[u8]) -> Result<Turn, Ended>
        ensures { (s : SessionState) (frame : OpenedFrame) → IsReading s frame self.old
            → length (frame.given ++ piece.now) ≤ frame.len
            → (read : Result ReaderState Refusal) × ReadsGiven (and_given frame piece.now) read
            × ContinuesReading s read result self.new }
    {
        match self.reading.take() {
            Some(reader) => self.go_on(read_on(reader, piece)),
            None => Err(late()),
        }
    }

    // A sync frame ends.
    fn on_end<H: Host>(&mut self, host: &mut H) -> Result<Turn, Ended>
        ensures step { (s : SessionState) (frame : OpenedFrame) → IsReading s frame self.old
            → length frame.given ≡ frame.len
            → AnswersSync H.steps frame.given (s, H.seen host.old) result (self.new, H.seen host.new) }
        ensures host { H.goes_on host.old host.new }
    {
        match self.reading.take() {
            Some(reader) => match message_in(reader) {
                Ok(message) => {
                    let received = host.receive_message(message);
                    self.answer(received, host)
                }
                Err(error) => self.fail(NetError::Peer(PeerError::from(error))),
            },
            None => Err(late()),
        }
    }

    /// Takes a part of a frame of the other, and says what to send and whether the session has ended: over the parts of
    /// one frame that come in order, the last answer is [`on_frame`](Session::on_frame)'s for the frame, and those before
    /// send nothing.
    ///
    /// The message of a sync frame is decoded as its bytes come, and received by the host once it is whole. Where it is
    /// refused as no message, and where memory is refused for it, the host isn't asked: the session ends as where the host
    /// refuses it so, and at the part whose bytes show it, since every frame of this length that begins so is refused. A
    /// sync frame that may not come is refused at its begin.
    ///
    /// Of the bytes of a message those of one hash or change at most are held, which are 4,194,304 at most, and what was
    /// decoded. A byte is copied only where its field comes in several pieces.
    #[tactic(auto, using(crate::proofs::ReadingLaws::awaits))]
    pub fn on_part<H: Host>(
        &mut self,
        alloc: Global,
        part: Part,
        host: &mut H,
    ) -> Result<Turn, Ended>
        ensures step { (s : SessionState) (opened : Option OpenedFrame) → IsAfterFrame s opened self.old
            → SessionPartStep H.steps (s, H.seen host.old) opened part result (self.new, H.seen host.new) }
        ensures host { H.goes_on host.old host.new }
    {
        match (self.phase, part) {
            (Phase::Exchanges, Part::Begin(len)) => self.go_on(reader_of(alloc, len)),
            (Phase::Over, Part::Begin(_)) => Err(late()),
            (_, Part::Begin(_)) => self.fail(NetError::Unexpected),
            (_, Part::Piece(bytes)) => self.on_piece(bytes.as_slice()),
            (_, Part::End) => self.on_end(host),
            (_, Part::Whole(frame)) => self.on_frame(frame, host),
        }
    }
}
