//! Parts of a stream that are joined to its frames.

ghost use Rattle.std.specs.Prelude.{◌≡◌, ◌++◌, [], length, List, ℕ, None, Some, OnOk, OnErr, IsOkUnless};
ghost use Rattle.tp_frame.specs.declared.error.FrameError.TheVariants.{OutOfMemory};
ghost use Rattle.tp_frame.specs.Joining.{with_given, JoinerInvariant, BodyAnswers, EndAnswers};
ghost use Rattle.tp_frame.specs.Parts.{IsPartStateOf};
ghost use Rattle.tp_frame.specs.Stream.{NextFrame};

use crate::error::FrameError;
use crate::frame::Frame;
use crate::history::bytes_after_frame;
use crate::parts::{Part, PartFramer};
use bytes::Bytes;
use std::alloc::Global;
use tp_ghost::GhostBytes;

/// Joins the parts of a stream to its frames.
///
/// The bytes of a sync frame that has begun are left with the parts until all are there. So they come as one piece, which
/// is the frame's with no copy, and nothing is lost where memory is refused.
#[derive(Drop)]
pub(crate) struct Joiner {
    parts: PartFramer,
    // How many bytes come after the kind of the sync frame that has begun.
    begun: Option<u32>,
    came: GhostBytes,
}

impl Joiner {
    /// Nothing came. No memory.
    pub(crate) fn new(alloc: Global) -> Joiner
        ensures joined { JoinerInvariant result }
        ensures came { result.came.bytes ≡ [] }
    {
        Joiner {
            parts: PartFramer::new(alloc),
            begun: None,
            came: GhostBytes::none(),
        }
    }

    /// Takes the next bytes of the stream, or none of them.
    pub(crate) fn feed(&mut self, bytes: &[u8]) -> Result<(), FrameError>
        requires { JoinerInvariant self.old }
        ensures joined { JoinerInvariant self.new }
        ensures ok { OnOk result (self.new.came.bytes ≡ self.old.came.bytes ++ bytes.now) }
        ensures err { OnErr result (self.new.came.bytes ≡ self.old.came.bytes) }
        ensures memory { IsOkUnless result OutOfMemory }
    {
        self.parts.feed(bytes)?;
        self.came = GhostBytes::with(&self.came, bytes);
        Ok(())
    }

    /// The next frame.
    pub(crate) fn next(&mut self) -> Result<Option<Frame>, FrameError>
        requires { JoinerInvariant self.old }
        ensures joined { JoinerInvariant self.new }
        ensures exact { NextFrame self.old.came.bytes result self.new.came.bytes }
    {
        if let Some(len) = self.begun {
            return self.sync(len);
        }
        match self.parts.next()? {
            None => Ok(None),
            Some(Part::Begin(len)) => {
                self.begun = Some(len);
                self.sync(len)
            }
            Some(Part::Whole(frame)) => {
                self.came = bytes_after_frame(&self.came);
                Ok(Some(frame))
            }
            Some(Part::Piece(_)) => unreachable!(),
            Some(Part::End) => unreachable!(),
        }
    }

    // The sync frame that has begun.
    fn sync(&mut self, len: u32) -> Result<Option<Frame>, FrameError>
        requires joined { JoinerInvariant self.old }
        requires begun { self.old.begun ≡ Some len }
        ensures joined { JoinerInvariant self.new }
        ensures exact { NextFrame self.old.came.bytes result self.new.came.bytes }
    {
        match sync_body(&mut self.parts, len, &self.came)? {
            None => Ok(None),
            Some(body) => {
                self.begun = None;
                let frame = Frame::Sync(body);
                self.came = bytes_after_frame(&self.came);
                Ok(Some(frame))
            }
        }
    }
}

// The body of the sync frame that has begun, once all its bytes are there.
fn sync_body(
    parts: &mut PartFramer,
    len: u32,
    came: &GhostBytes,
) -> Result<Option<Bytes>, FrameError>
    requires { IsPartStateOf (with_given came.now.bytes len []) parts.old }
    ensures { BodyAnswers came.now.bytes len result parts.new }
{
    if parts.held() < len as usize {
        return Ok(None);
    }
    if len == 0 {
        let none: &[u8] = &[];
        end(parts, none, came);
        return Ok(Some(Bytes::new()));
    }
    match parts.next()? {
        Some(Part::Piece(body)) => {
            end(parts, body.as_slice(), came);
            Ok(Some(body))
        }
        None => unreachable!(),
        Some(Part::Begin(_)) => unreachable!(),
        Some(Part::Whole(_)) => unreachable!(),
        Some(Part::End) => unreachable!(),
    }
}

// Takes the end of the sync frame: all its bytes were given, so nothing else comes next.
fn end(parts: &mut PartFramer, body: &[u8], _came: &GhostBytes)
    requires { IsPartStateOf (with_given _came.now.bytes (length body.now) body.now) parts.old }
    ensures { EndAnswers _came.now.bytes body.now parts.new }
{
    let _end = parts.next();
}
