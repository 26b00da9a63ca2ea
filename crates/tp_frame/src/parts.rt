//! Parts of frames out of a stream that comes in any pieces.

ghost use Rattle.std.specs.Prelude.{◌≡◌, ◌≤◌, ◌⊎◌, ℕ, ◌<◌, [], length, Err, None, Ok, OnOk, OnErr, IsOkUnless};
ghost use Rattle.tp_frame.specs.declared.error.FrameError.TheVariants.{OutOfMemory};
ghost use Rattle.tp_frame.specs.declared.parts.Stage.TheVariants.{Front, Inside, Refused};
ghost use Rattle.tp_frame.specs.Parts.{PartsBefore, at_first, with_more, IsPartStateOf, PartAnswers, InsideAnswers, MayWait};

use crate::error::FrameError;
use crate::frame::Frame;
use crate::limits::HEADER_LEN;
use crate::reading::{NoFrame, Opening, opening_of};
use bytes::{Bytes, BytesMut};
use std::alloc::Global;
use std::marker::Model;

/// A part of the stream of frames. A sync frame comes as its begin, pieces and its end; any other frame comes whole.
#[derive(Debug, PartialEq, Eq, Drop)]
pub enum Part {
    /// A sync frame begins: how many bytes are after its kind, at most 16,777,215.
    Begin(u32),
    /// The next bytes of the sync frame, at least one.
    Piece(Bytes),
    /// The sync frame ends: all its bytes were given.
    End,
    /// Another frame than sync.
    Whole(Frame),
}

/// Where a framer of parts is in the stream.
#[derive(Clone, Copy)]
pub(crate) enum Stage {
    /// Between frames, or in the front of one.
    Front,
    /// In a sync frame that has `left` bytes still to be given.
    Inside { left: usize },
    /// At a frame that is refused once `left` more bytes came, whatever they are.
    Refused { left: usize, error: FrameError },
}

/// Takes a stream of bytes in whatever pieces it comes, and gives the parts of its frames as soon as they are there, so
/// that no frame is ever held whole.
///
/// Contracts see its stage and the bytes held, and speak of whatever led to these: the bytes that came since the last
/// whole frame, and what was given of a sync frame that has begun.
pub struct PartFramer {
    buffer: BytesMut,
    stage: Stage,
}

impl Drop for PartFramer {
    fn drop(self) {
        let PartFramer {
            buffer: _,
            stage: _,
        } = self;
    }
}

impl Model for PartFramer {
    ghost use Rattle.tp_frame.specs.PartState.{PartState};

    ghost Value = { PartState };

    ghost view = { λ f. record { stage = f.stage; held = f.buffer.items } };
}

impl PartFramer {
    /// A framer that holds nothing. No memory.
    pub fn new(alloc: Global) -> PartFramer
        ensures { IsPartStateOf at_first result }
    {
        PartFramer {
            buffer: BytesMut::new(alloc),
            stage: Stage::Front,
        }
    }

    /// How many bytes are held: those fed of which no part was given yet. At most 21 once `next` answered `None`.
    pub fn held(&self) -> usize
        ensures { result ≡ length self.now.held }
    {
        self.buffer.len()
    }

    /// Takes the next bytes of the stream. The only refusal is `OutOfMemory`, which takes none of them.
    ///
    /// The bytes are copied once. Those of a frame that is refused are counted and not held.
    pub fn feed(&mut self, bytes: &[u8]) -> Result<(), FrameError>
        ensures ok { OnOk result ((led : PartsBefore) → IsPartStateOf led self.old
            → IsPartStateOf (with_more led bytes.now) self.new) }
        ensures err { OnErr result (self.new ≡ self.old) }
        ensures memory { IsOkUnless result OutOfMemory }
    {
        if let Stage::Refused { left, error } = self.stage {
            let left = left.saturating_sub(bytes.len());
            self.stage = Stage::Refused { left, error };
        } else {
            self.buffer.extend_from_slice(bytes)?;
        }
        Ok(())
    }

    /// The next part, or `None` where its bytes aren't there yet and show no fault.
    ///
    /// A sync frame begins once its kind is there. A piece has all bytes of its frame that are held, and the end comes
    /// with the last of them. Refused are, and every later call answers the same: `TooLong` for a length past
    /// 16,777,216, and `BadKind` for a length of 0, once the 4 bytes of the length are there; `BadKind` for a kind past
    /// 3 once its byte is there; and once the body is whole, `BadHello` for a hello of another length than 18, and
    /// `BadKind` for a done of another length than 1 and a refusal of another than 2. `OutOfMemory` is answered at a
    /// piece alone, and changes nothing.
    ///
    /// No byte is copied, but for a hello's document: a piece is a part of the framer's block, which is kept as long as
    /// it is. What is taken is a count of the block's owners.
    pub fn next(&mut self) -> Result<Option<Part>, FrameError>
        ensures exact { (led : PartsBefore) → IsPartStateOf led self.old → PartAnswers led result self.new }
        ensures soon { result ≡ Ok None → MayWait self.new.stage self.new.held }
        ensures memory { result ≡ Err OutOfMemory → self.new ≡ self.old }
    {
        match self.stage {
            Stage::Front => self.begin(),
            Stage::Inside { left } => self.go_on(left),
            Stage::Refused { left, error } => refusal_after(left, error),
        }
    }

    // The next part where no sync frame has begun.
    fn begin(&mut self) -> Result<Option<Part>, FrameError>
        requires { self.old.stage ≡ Front }
        ensures exact { PartAnswers (with_more at_first self.old.held) result self.new }
        ensures soon { result ≡ Ok None → MayWait self.new.stage self.new.held }
        ensures memory { result ≡ Err OutOfMemory → ⊥ }
    {
        match opening_of(self.buffer.as_slice()) {
            Ok(Opening::Sync { len }) => {
                self.buffer.advance(HEADER_LEN);
                self.stage = Stage::Inside { left: len };
                Ok(Some(Part::Begin(len as u32)))
            }
            Ok(Opening::Whole { frame, len }) => {
                self.buffer.advance(len);
                Ok(Some(Part::Whole(frame)))
            }
            Ok(Opening::Refused { left, error }) => self.refuse(left, error),
            Err(NoFrame::Missing) => Ok(None),
            Err(NoFrame::Fault(error)) => self.refuse(0, error),
        }
    }

    // Lets go of the bytes of a frame that is refused once `left` more came.
    fn refuse(&mut self, left: usize, error: FrameError) -> Result<Option<Part>, FrameError>
        ensures waits { 0 < left → result ≡ Ok None }
        ensures shows { left ≡ 0 → result ≡ Err error }
        ensures state { self.new ≡ record { stage = Refused left error; held = [] } }
    {
        self.buffer.clear();
        self.stage = Stage::Refused { left, error };
        refusal_after(left, error)
    }

    // The next part of the sync frame, which has `left` bytes still to be given.
    fn go_on(&mut self, left: usize) -> Result<Option<Part>, FrameError>
        requires { self.old.stage ≡ Inside left }
        ensures { InsideAnswers left self.old.held result self.new }
    {
        if left == 0 {
            self.stage = Stage::Front;
            return Ok(Some(Part::End));
        }
        let len = piece_len(left, self.buffer.len());
        if len == 0 {
            return Ok(None);
        }
        let piece = self.buffer.freeze_to(len)?;
        self.stage = Stage::Inside { left: left - len };
        Ok(Some(Part::Piece(piece)))
    }
}

// How long a piece can be.
fn piece_len(left: usize, held: usize) -> usize
    ensures within { (result ≤ left) × (result ≤ held) }
    ensures longest { (result ≡ left) ⊎ (result ≡ held) }
{
    left.min(held)
}

// What is answered at a frame that is refused once `left` more bytes came.
fn refusal_after(left: usize, error: FrameError) -> Result<Option<Part>, FrameError>
    ensures waits { 0 < left → result ≡ Ok None }
    ensures shows { left ≡ 0 → result ≡ Err error }
{
    if left > 0 { Ok(None) } else { Err(error) }
}
