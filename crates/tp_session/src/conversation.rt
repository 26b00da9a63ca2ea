//! A side of a session over bytes that come in any pieces.

ghost use Rattle.std.specs.Prelude.{◌≡◌, ◌⊎◌, ◌++◌, ℕ, List, [], true, false, Err, Some, None, IfOk, IfErr, OnErr, IsTrue};
ghost use Rattle.tp_frame.specs.declared.frame.Frame.{Frame as FrameOf};
ghost use Rattle.tp_session.specs.declared.session.Phase.TheVariants.{Over};
ghost use Rattle.tp_session.specs.Conversation.{RefusesFeed, EndsBy, Goes, HasCome, HasNoBytes, IsNoFrame, TakesNext, at_frame, frame_bytes, is_last};
ghost use Rattle.tp_session.specs.Laws as law;
ghost use Rattle.tp_session.specs.NetError.{refusal_of};
ghost use Rattle.tp_session.specs.SessionState.{new_session, first_frame_of};

use crate::error::NetError;
use crate::host::Host;
use crate::session::{Phase, Role, Session, late};
use crate::turn::{Ended, Turn};
use std::alloc::Global;
use std::marker::Model;
use tp_frame::{Frame, Part, PartFramer, bytes_after_frame, write_frame};
use tp_ghost::GhostBytes;
use tp_opid::DocId;

/// How a conversation goes on.
#[derive(Clone, Copy, Debug, PartialEq, Eq)]
pub enum Next {
    /// No whole frame is there: more bytes have to come.
    Waits,
    /// A frame was taken, and more of them may be there: the next call takes them, which may feed no bytes.
    GoesOn,
    /// Both sides have said done. No more is taken.
    Ended,
}

/// What comes of bytes that were fed.
#[derive(Drop)]
pub struct Output {
    /// The bytes that are to be sent, if any are.
    pub send: Vec<u8>,
    /// How it goes on.
    pub next: Next,
}

// Whether a frame ends with the part.
fn is_last(part: &Part) -> bool
    ensures { result ≡ is_last part.now }
{
    match part {
        Part::Begin(_) | Part::Piece(_) => false,
        Part::End | Part::Whole(_) => true,
    }
}

// The bytes of the frame, if there is one.
fn bytes_of(alloc: Global, frame: &Option<Frame>) -> Result<Vec<u8>, NetError>
    ensures ok { IfOk result (λ bytes. bytes.items ≡ frame_bytes frame.now) }
    ensures err { IfErr result (λ e. HasNoBytes e × (f : FrameOf) × (frame.now ≡ Some f)) }
{
    match frame {
        Some(frame) => Ok(write_frame(alloc, frame)?),
        None => Ok(Vec::new(alloc)),
    }
}

// The session's turn about the next frame, if it is whole. Of one that isn't the session takes what is there.
fn take_frame<H: Host>(
    alloc: Global,
    framer: &mut PartFramer,
    session: &mut Session,
    host: &mut H,
) -> Result<Option<Turn>, NetError>
    ensures ok { (came : List ℕ) → HasCome came session.old framer.old
        → IfOk result (λ turn. (rest : List ℕ) × HasCome rest session.new framer.new
        × TakesNext H.steps (at_frame session.old, H.seen host.old) came turn
        rest (at_frame session.new, H.seen host.new)) }
    ensures err { (came : List ℕ) → HasCome came session.old framer.old
        → law.is_over session.old.phase ≡ false
        → IfErr result (λ e. (IsNoFrame came e × (H.seen host.new ≡ H.seen host.old))
        ⊎ EndsBy H.steps (at_frame session.old, H.seen host.old) came e (H.seen host.new)) }
    ensures host { H.goes_on host.old host.new }
{
    for _ in 0..u64::MAX {
        let Some(part) = framer.next()? else {
            return Ok(None);
        };
        let last = is_last(&part);
        let turn = session.on_part(alloc, part, host)?;
        if last {
            return Ok(Some(turn));
        }
    }
    Err(NetError::OutOfMemory)
}

// What a conversation keeps: `came` is what came since the last frame ended.
#[derive(Drop)]
struct Side {
    alloc: Global,
    session: Session,
    framer: PartFramer,
    came: GhostBytes,
}

impl Side {
    // Takes the bytes, and answers the next frame if it is whole.
    fn answer<H: Host>(&mut self, bytes: &[u8], host: &mut H) -> Result<Output, NetError>
        ensures ok { HasCome self.old.came.bytes self.old.session self.old.framer
            → IfOk result (λ output. Goes H.steps (at_frame self.old.session, H.seen host.old)
            (self.old.came.bytes ++ bytes.now) output.next output.send.items
            (at_frame self.new.session, H.seen host.new) self.new.came.bytes
            × HasCome self.new.came.bytes self.new.session self.new.framer) }
        ensures err { HasCome self.old.came.bytes self.old.session self.old.framer
            → law.is_over self.old.session.phase ≡ false
            → IfErr result (λ e. RefusesFeed H.steps (at_frame self.old.session, H.seen host.old)
            (self.old.came.bytes ++ bytes.now) e (H.seen host.new)) }
        ensures host { H.goes_on host.old host.new }
    {
        self.came = GhostBytes::with(&self.came, bytes);
        self.framer.feed(bytes)?;
        let Some(turn) = take_frame(self.alloc, &mut self.framer, &mut self.session, host)? else {
            return Ok(Output {
                send: Vec::new(self.alloc),
                next: Next::Waits,
            });
        };
        self.came = bytes_after_frame(&self.came);
        let send = bytes_of(self.alloc, &turn.send)?;
        let next = if turn.ended {
            Next::Ended
        } else {
            Next::GoesOn
        };
        Ok(Output { send, next })
    }
}

/// One side of a session that takes the other's bytes in whatever pieces they come.
///
/// Contracts see the session as the last frame left it, and the bytes that came since. Of these a sync frame's are held
/// as [`Session::on_part`] says, and of others 21 at most after a call that waits.
pub struct Conversation {
    side: Side,
}

impl Drop for Conversation {
    fn drop(self) {
        let Conversation { side: _ } = self;
    }
}

impl Model for Conversation {
    ghost use Rattle.std.specs.Prelude.{◌≡◌, false};
    ghost use Rattle.tp_session.specs.Conversation.{ConversationState, HasCome, at_frame};
    ghost use Rattle.tp_session.specs.Laws as law;

    ghost Value = { ConversationState };

    ghost view = { λ c. record { session = at_frame c.side.session; bytes = c.side.came.bytes } };

    ghost invariant = { λ c. law.is_over c.side.session.phase ≡ false
        → HasCome c.side.came.bytes c.side.session c.side.framer };
}

impl Conversation {
    /// The side with the role of a session about the document, at its begin. No memory.
    pub fn new(alloc: Global, role: Role, id: DocId) -> Conversation
        ensures { result ≡ record { session = new_session role id; bytes = [] } }
    {
        Conversation {
            side: Side {
                alloc,
                session: Session::new(role, id),
                framer: PartFramer::new(alloc),
                came: GhostBytes::none(),
            },
        }
    }

    /// The bytes with which the side begins: those of the client's hello. A server begins with none. `OutOfMemory`.
    pub fn first(&self) -> Result<Vec<u8>, NetError>
        ensures ok { IfOk result (λ bytes. bytes.items
            ≡ frame_bytes (first_frame_of self.now.session.role self.now.session.id)) }
        ensures err { IfErr result (λ e. HasNoBytes e × (f : FrameOf)
            × (first_frame_of self.now.session.role self.now.session.id ≡ Some f)) }
    {
        bytes_of(self.side.alloc, &self.side.session.first())
    }

    /// Whether it has ended, well or for an error.
    pub fn is_over(&self) -> bool
        ensures { result ≡ law.is_over self.now.session.phase }
    {
        matches!(self.side.session.phase(), Phase::Over)
    }

    /// How many changes were applied here. Past 2^64 - 1 the number stays.
    pub fn applied_count(&self) -> u64
        ensures { result ≡ self.now.session.applied }
    {
        self.side.session.applied_count()
    }

    /// Takes the next bytes of the other side, which may be none, and answers the next frame if it is whole, as
    /// [`Session::on_frame`] does. What came after it is kept for the next call.
    ///
    /// Each error ends the session, and has the refusal frame that is due: `Frame` where what came is no frame, or a
    /// message of the host is too long for one; `OutOfMemory`; and else what `on_frame` answers, at the bytes that show
    /// it. One that has ended answers `Unexpected`, takes nothing and sends nothing.
    ///
    /// The bytes are copied once, and those of an answer are written once. All else is the cost of the host's calls.
    pub fn feed<H: Host>(&mut self, bytes: &[u8], host: &mut H) -> Result<Output, Ended>
        ensures output { IfOk result (λ output. Goes H.steps (self.old.session, H.seen host.old)
            (self.old.bytes ++ bytes.now) output.next output.send.items
            (self.new.session, H.seen host.new) self.new.bytes) }
        ensures err { law.is_over self.old.session.phase ≡ false → IfErr result
            (λ ended. RefusesFeed H.steps (self.old.session, H.seen host.old)
            (self.old.bytes ++ bytes.now) ended.error (H.seen host.new)
            × (ended.send ≡ refusal_of ended.error)) }
        ensures over { OnErr result (self.new.session.phase ≡ Over) }
        ensures late { IsTrue (law.is_over self.old.session.phase)
            → (result ≡ Err (record { error = NetError.Unexpected; send = None }))
            × (self.new ≡ self.old) × (H.seen host.new ≡ H.seen host.old) }
        ensures host { H.goes_on host.old host.new }
    {
        if self.is_over() {
            return Err(late());
        }
        match self.side.answer(bytes, host) {
            Ok(output) => Ok(output),
            Err(error) => {
                self.side.session.phase = Phase::Over;
                Err(Ended::new(error))
            }
        }
    }
}
