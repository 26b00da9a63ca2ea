//! Reading what is at the front of bytes.
//!
//! Nothing here takes memory or makes a copy, but for the 16 bytes of a hello's document.
#![tactic(auto, unfolding(tp_codec::specs::Reading::or_fail, tp_codec::specs::Reading::found_or, tp_codec::specs::Reading::and_then, tp_codec::specs::Reading::and_next, tp_codec::specs::Reading::give, tp_codec::specs::Reading::require, tp_codec::specs::Reading::pass_or_fail, crate::specs::Reading::head_at))]

ghost use Rattle.std.specs.Prelude.{◌≡◌, ℕ, ◌<◌, ◌≤◌, length, slice_index, Err, IfOk, IfErr, IsOkUnless};
ghost use Rattle.std.specs.Int.{w32};
ghost use Rattle.tp_codec.specs.Prefix.{byte_at, bytes_at, number_at};
ghost use Rattle.tp_codec.specs.Reading.{or_fail};
ghost use Rattle.tp_frame.specs.declared.reading.NoFrame.TheVariants.{Missing, Fault};
ghost use Rattle.tp_frame.specs.declared.error.FrameError.TheVariants.{BadKind, BadHello, OutOfMemory};
ghost use Rattle.tp_codec.specs.Gives.{Is};
ghost use Rattle.tp_frame.specs.Openings.{right_len, fault_of, IsOpening};
ghost use Rattle.tp_frame.specs.Parts.{HasSyncKind};
ghost use Rattle.tp_frame.specs.Reading.{head_at, hello_of, done_of, refusal_frame_of, frame_after, frame_at};

use crate::error::FrameError;
use crate::frame::Frame;
use crate::limits::{HEADER_LEN, MAX_BODY};
use tp_codec::Reader;
use tp_opid::DocId;

/// Why no frame was read.
#[derive(Clone, Copy)]
pub(crate) enum NoFrame {
    /// The bytes end before the frame does.
    Missing,
    /// The frame is refused, whatever follows.
    Fault(FrameError),
}

/// What comes before the content of a frame: its kind, and how many bytes the content has.
#[derive(Clone, Copy)]
pub(crate) struct Head {
    kind: u8,
    len: usize,
}

/// What is at the front, as soon as its length and its kind say it.
#[derive(Drop)]
pub(crate) enum Opening {
    /// A sync frame, with `len` bytes after its kind, which needn't be there yet.
    Sync { len: usize },
    /// Any other frame, whole, and how many bytes it has.
    Whole { frame: Frame, len: usize },
    /// A frame of a wrong length for its kind: it is refused once that many more bytes came.
    Refused { left: usize, error: FrameError },
}

fn u32_of(reader: &mut Reader<'_>) -> Result<u32, NoFrame>
    ensures found { Is (λ n. (n, reader.new)) result
        (or_fail Missing (number_at w32) reader.old) }
    ensures err { IsOkUnless result Missing }
{
    match reader.u32() {
        Some(n) => Ok(n),
        None => Err(NoFrame::Missing),
    }
}

fn u8_of(reader: &mut Reader<'_>) -> Result<u8, NoFrame>
    ensures found { Is (λ b. (b, reader.new)) result (or_fail Missing byte_at reader.old) }
    ensures err { IsOkUnless result Missing }
{
    match reader.u8() {
        Some(byte) => Ok(byte),
        None => Err(NoFrame::Missing),
    }
}

fn bytes_of<'a>(reader: &mut Reader<'a>, count: usize) -> Result<&'a [u8], NoFrame>
    ensures found { Is (λ b. (b.now, reader.new)) result
        (or_fail Missing (bytes_at count) reader.old) }
    ensures err { IsOkUnless result Missing }
{
    match reader.bytes(count) {
        Some(bytes) => Ok(bytes),
        None => Err(NoFrame::Missing),
    }
}

// The next head. The length is judged once it is whole, and the kind before the rest is there.
fn head_of(reader: &mut Reader<'_>) -> Result<Head, NoFrame>
    ensures found { Is (λ h. (h, reader.new)) result (head_at reader.old) }
    ensures err { IfErr result (λ e. e ≡ Fault OutOfMemory → ⊥) }
{
    let len = u32_of(reader)? as usize;
    if len > MAX_BODY {
        return Err(NoFrame::Fault(FrameError::TooLong));
    }
    if len < 1 {
        return Err(NoFrame::Fault(FrameError::BadKind));
    }
    let kind = u8_of(reader)?;
    if kind >= 4 {
        return Err(NoFrame::Fault(FrameError::BadKind));
    }
    Ok(Head { kind, len: len - 1 })
}

// The hello that is after its kind.
fn hello_in(content: &[u8]) -> Result<Frame, FrameError>
    ensures found { Is (λ f. f) result (hello_of content.now) }
    ensures err { IsOkUnless result BadHello }
{
    match content {
        [version, rest @ ..] if rest.len() == 16 => {
            let mut id = [0; 16];
            id.copy_from_slice(rest);
            Ok(Frame::Hello {
                version: *version,
                id: DocId(id),
            })
        }
        _ => Err(FrameError::BadHello),
    }
}

// The done that is after its kind.
fn done_in(content: &[u8]) -> Result<Frame, FrameError>
    ensures found { Is (λ f. f) result (done_of content.now) }
    ensures err { IsOkUnless result BadKind }
{
    match content {
        [] => Ok(Frame::Done),
        _ => Err(FrameError::BadKind),
    }
}

// The refusal that is after its kind.
fn refusal_in(content: &[u8]) -> Result<Frame, FrameError>
    ensures found { Is (λ f. f) result (refusal_frame_of content.now) }
    ensures err { IsOkUnless result BadKind }
{
    match content {
        [code] => Ok(Frame::Refusal(*code)),
        _ => Err(FrameError::BadKind),
    }
}

// The frame that a body is, but for a sync frame.
fn frame_of(kind: u8, content: &[u8]) -> Result<Frame, FrameError>
    requires { kind ≡ 1 → ⊥ }
    ensures found { Is (λ f. f) result (frame_after kind content.now) }
    ensures err { IfErr result (λ e. e ≡ OutOfMemory → ⊥) }
{
    match kind {
        0 => hello_in(content),
        2 => done_in(content),
        3 => refusal_in(content),
        _ => Err(FrameError::BadKind),
    }
}

// How many bytes come after a kind, but for a sync frame's.
fn right_len(kind: u8) -> usize
    requires { kind ≡ 1 → ⊥ }
    ensures len { result ≡ right_len kind }
    ensures small { result ≤ 17 }
{
    match kind {
        0 => 17,
        2 => 0,
        _ => 1,
    }
}

// The fault of a frame of a kind, where another number of bytes comes after it.
fn fault_of(kind: u8) -> FrameError
    ensures { result ≡ fault_of kind }
{
    match kind {
        0 => FrameError::BadHello,
        _ => FrameError::BadKind,
    }
}

/// What is at the front of the bytes, or why nothing is known of it yet. The content of a sync frame and of a frame of
/// a wrong length isn't waited for; so at most 21 bytes are waited with.
pub(crate) fn opening_of(bytes: &[u8]) -> Result<Opening, NoFrame>
    ensures found { IfOk result (λ opening. IsOpening bytes.now opening) }
    ensures err { IfErr result (λ e. (frame_at bytes.now ≡ Err e) × (e ≡ Fault OutOfMemory → ⊥)) }
    ensures missing { result ≡ Err Missing → length bytes.now ≤ 21 }
    ensures soon { result ≡ Err Missing → HasSyncKind bytes.now → ⊥ }
    ensures bytes { (i : ℕ) → slice_index bytes.now i < 256 }
{
    let mut reader = Reader::new(bytes);
    let head = head_of(&mut reader)?;
    if head.kind == 1 {
        return Ok(Opening::Sync { len: head.len });
    }
    if head.len != right_len(head.kind) {
        return Ok(Opening::Refused {
            left: head.len.saturating_sub(reader.len()),
            error: fault_of(head.kind),
        });
    }
    let content = bytes_of(&mut reader, head.len)?;
    match frame_of(head.kind, content) {
        Ok(frame) => Ok(Opening::Whole {
            frame,
            len: HEADER_LEN + head.len,
        }),
        Err(e) => Err(NoFrame::Fault(e)),
    }
}
