//! The session: what a side answers to each frame.

ghost use Rattle.std.specs.Prelude.{◌≡◌, ◌≤◌, length, None, MatchOption};
ghost use Rattle.tp_layout.specs.declared.limits.TheConstants.{MAX_BYTES};
ghost use Rattle.tp_peer.specs.PeerStep.{Received as Reported, reply_of_result};
ghost use Rattle.tp_peer.specs.Taking.{report_of};
ghost use Rattle.tp_session.specs.SessionState.{new_session, first_frame_of, counting, greeting};
ghost use Rattle.tp_session.specs.SessionStep.{SessionStep, SendsFrame, EndsSession, RefusesSessionStep, AsksForMessage, SendsGenerated, Greets, AnswersReceived, AnswersSync};

use crate::error::NetError;
use crate::host::Host;
use crate::turn::{Ended, Turn};
use bytes::Bytes;
use std::marker::Model;
use tp_frame::Frame;
use tp_opid::DocId;
use tp_peer::{Outgoing, PeerError, Received};
use tp_sync::MessageReader;

/// The version of the protocol that a hello names.
pub const VERSION: u8 = 2;

/// Which side of a session it is.
#[derive(Clone, Copy, Debug, PartialEq, Eq)]
pub enum Role {
    /// The side that connected. It sends the first frame, and the first message.
    Client,
    /// The side that was connected to.
    Server,
}

/// How far a session is.
#[derive(Clone, Copy, Debug, PartialEq, Eq)]
pub enum Phase {
    /// The other's hello hasn't come.
    AwaitsHello,
    /// Messages go to and fro.
    Exchanges,
    /// This side has said done.
    SaidDone,
    /// It has ended.
    Over,
}

/// One side of a session.
///
/// Contracts see its role, its document's identifier, how far it is, how many changes were applied here and how far the
/// message of a sync frame was read. [`on_frame`](Session::on_frame) is a `SessionStep`, and
/// [`on_part`](Session::on_part) is a `SessionPartStep`.
#[derive(Drop)]
pub struct Session {
    role: Role,
    id: DocId,
    pub(crate) phase: Phase,
    applied: u64,
    pub(crate) reading: Option<MessageReader>,
}

impl Model for Session {
    ghost use Rattle.tp_session.specs.SessionState.{SessionState};

    ghost Value = { SessionState };

    ghost view = { λ s. record { role = s.role; id = s.id; phase = s.phase; applied = s.applied; reading = s.reading } };
}

impl Session {
    /// The side with the role of a session about the document, at its begin. No memory.
    pub fn new(role: Role, id: DocId) -> Session
        ensures { result ≡ new_session role id }
    {
        Session {
            role,
            id,
            phase: Phase::AwaitsHello,
            applied: 0,
            reading: None,
        }
    }

    /// The frame with which the side begins: the client's hello. A server begins with none.
    pub fn first(&self) -> Option<Frame>
        ensures { result ≡ first_frame_of self.now.role self.now.id }
    {
        match self.role {
            Role::Client => Some(self.hello()),
            Role::Server => None,
        }
    }

    // The side's hello.
    fn hello(&self) -> Frame
        ensures { result ≡ greeting self.now.id }
    {
        Frame::Hello {
            version: VERSION,
            id: self.id,
        }
    }

    /// How far the session is.
    pub fn phase(&self) -> Phase
        ensures { result ≡ self.now.phase }
    {
        self.phase
    }

    /// How many changes were applied here in this session. Past 2^64 - 1 the number stays.
    pub fn applied_count(&self) -> u64
        ensures { result ≡ self.now.applied }
    {
        self.applied
    }

    /// How many bytes are held of a message that comes in parts: those of a field that isn't whole yet, at most 4,194,304.
    pub fn held(&self) -> usize
        ensures exact { MatchOption self.now.reading (result ≡ 0)
            (λ reader. result ≡ length reader.held) }
        ensures few { result ≤ MAX_BYTES }
    {
        match &self.reading {
            Some(reader) => reader.held(),
            None => 0,
        }
    }

    // Goes on, and sends a frame.
    fn say(&mut self, frame: Frame, phase: Phase) -> Result<Turn, Ended>
        ensures { SendsFrame self.old frame phase result self.new }
    {
        self.phase = phase;
        Ok(Turn {
            send: Some(frame),
            ended: false,
        })
    }

    // Ends well, and sends what it still has to.
    fn close(&mut self, send: Option<Frame>) -> Result<Turn, Ended>
        ensures { EndsSession self.old send result self.new }
    {
        self.phase = Phase::Over;
        Ok(Turn { send, ended: true })
    }

    // Ends for an error, with the refusal that is due.
    pub(crate) fn fail(&mut self, error: NetError) -> Result<Turn, Ended>
        ensures { RefusesSessionStep self.old error result self.new }
    {
        self.phase = Phase::Over;
        Err(Ended::new(error))
    }

    // Counts the changes that a message brought.
    fn count(&mut self, received: &Received)
        ensures { self.new ≡ counting self.old (length received.now.applied.applied.items) }
    {
        let more = received.applied.applied.len() as u64;
        self.applied = self.applied.saturating_add(more);
    }

    // Sends a message that was made, or done in its place where it would be refused as the one before.
    fn send(&mut self, sent: Outgoing, stale: bool) -> Result<Turn, Ended>
        ensures { SendsGenerated self.old stale (sent.bytes.items, sent.again) result self.new }
    {
        if stale && sent.again {
            return self.say(Frame::Done, Phase::SaidDone);
        }
        match Bytes::from_vec(sent.bytes) {
            Ok(bytes) => self.say(Frame::Sync(bytes), Phase::Exchanges),
            Err(_) => self.fail(NetError::OutOfMemory),
        }
    }

    // Sends the host's next message, or done where it has none.
    fn tell<H: Host>(&mut self, stale: bool, host: &mut H) -> Result<Turn, Ended>
        ensures step { AsksForMessage H.steps stale (self.old, H.seen host.old)
            result (self.new, H.seen host.new) }
        ensures host { H.goes_on host.old host.new }
    {
        match host.generate() {
            Ok(Some(sent)) => self.send(sent, stale),
            Ok(None) => self.say(Frame::Done, Phase::SaidDone),
            Err(error) => self.fail(NetError::Peer(error)),
        }
    }

    // The first hello comes.
    fn greet<H: Host>(&mut self, version: u8, id: DocId, host: &mut H) -> Result<Turn, Ended>
        ensures step { Greets H.steps version id (self.old, H.seen host.old)
            result (self.new, H.seen host.new) }
        ensures host { H.goes_on host.old host.new }
    {
        if version != VERSION {
            return self.fail(NetError::Version);
        }
        if !self.id.is(&id) {
            return self.fail(NetError::OtherDocument);
        }
        match self.role {
            Role::Client => self.tell(false, host),
            Role::Server => self.say(self.hello(), Phase::Exchanges),
        }
    }

    // Answers a message by what the host replied as it received it.
    pub(crate) fn answer<H: Host>(
        &mut self,
        received: Result<Received, PeerError>,
        host: &mut H,
    ) -> Result<Turn, Ended>
        ensures step { AnswersReceived H.steps
            (reply_of_result (λ r. Reported (report_of r.applied) r.same_heads) received)
            (self.old, H.seen host.old) result (self.new, H.seen host.new) }
        ensures host { H.goes_on host.old host.new }
    {
        match received {
            Ok(received) => {
                let stale = received.applied.applied.is_empty() && received.same_heads;
                self.count(&received);
                self.tell(stale, host)
            }
            Err(error) => self.fail(NetError::Peer(error)),
        }
    }

    // A message comes.
    fn hear<H: Host>(&mut self, bytes: &[u8], host: &mut H) -> Result<Turn, Ended>
        ensures step { AnswersSync H.steps bytes.now (self.old, H.seen host.old)
            result (self.new, H.seen host.new) }
        ensures host { H.goes_on host.old host.new }
    {
        let received = host.receive(bytes);
        self.answer(received, host)
    }

    /// Takes a frame of the other, and says what to send and whether the session has ended.
    ///
    /// The first frame has to be a hello: of another version it is refused as `Version`, and then of another document
    /// as `OtherDocument`. A server answers it by its hello, and a client by the message that the host makes, or by
    /// done where it makes none. A message is received by the host and answered by the next that it makes; by done
    /// where it makes none, and where the message applied no change and declared the heads of the one before, while the
    /// next begins again with what is due: the other refuses what it is sent. To done a side that hasn't said it says
    /// done, and the session has ended. After its own done it takes done and a refusal alone. Every other frame is
    /// refused as `Unexpected`, a refusal ends the session as `RefusedByOther`, and what the host refuses as `Peer`;
    /// `OutOfMemory` where a frame can't be made of a message.
    ///
    /// Each `Err` ends the session, and has the refusal frame that is due. A session that has ended answers each frame
    /// as `Unexpected`, and sends nothing.
    ///
    /// The cost is that of the host's calls. No byte of a message is copied.
    pub fn on_frame<H: Host>(&mut self, frame: Frame, host: &mut H) -> Result<Turn, Ended>
        ensures step { SessionStep H.steps (self.old, H.seen host.old) frame
            result (self.new, H.seen host.new) }
        ensures host { H.goes_on host.old host.new }
    {
        match (self.phase, &frame) {
            (Phase::AwaitsHello, Frame::Hello { version, id }) => self.greet(*version, *id, host),
            (Phase::Exchanges, Frame::Sync(bytes)) => self.hear(bytes.as_slice(), host),
            (Phase::Over, _) => Err(late()),
            (_, Frame::Refusal(code)) => self.fail(NetError::RefusedByOther { code: *code }),
            (Phase::Exchanges, Frame::Done) => self.close(Some(Frame::Done)),
            (Phase::SaidDone, Frame::Done) => self.close(None),
            _ => self.fail(NetError::Unexpected),
        }
    }
}

// What a session that has ended answers: nothing is sent.
pub(crate) fn late() -> Ended
    ensures { result ≡ record { error = NetError.Unexpected; send = None } }
{
    Ended {
        error: NetError::Unexpected,
        send: None,
    }
}
