//! The bytes of a frame.

ghost use Rattle.std.specs.Prelude.{◌≡◌, ℕ, ◌<◌, ◌↔◌, ◌⊎◌, ◌∷◌, ◌++◌, length, slice_index, Err, IfOk, IfErr, OnOk};
ghost use Rattle.tp_frame.specs.declared.error.FrameError.TheVariants.{TooLong, OutOfMemory};
ghost use Rattle.tp_frame.specs.Frame.{body_of, body_len, frame_spelling, IsTypedFrame, IsFrame};

use crate::error::FrameError;
use crate::frame::Frame;
use crate::limits::MAX_BODY;
use std::alloc::{AllocError, Global};
use tp_list::array_len;

// How many bytes the body of a frame has, and what its type says of them.
fn len_of(frame: &Frame) -> usize
    ensures len { result ≡ body_len (body_of frame.now) }
    ensures typed { IsTypedFrame frame.now }
{
    match frame {
        Frame::Hello { version, id } => {
            let _version = *version;
            2 + array_len(id.0)
        }
        Frame::Sync(bytes) => {
            let bytes = bytes.as_slice();
            1 + bytes.len()
        }
        Frame::Done => 1,
        Frame::Refusal(code) => {
            let _code = *code;
            2
        }
    }
}

// Puts the body of a frame.
fn put_body(out: &mut Vec<u8>, frame: &Frame) -> Result<(), AllocError>
    ensures { OnOk result (out.new.items
        ≡ out.old.items ++ (body_of frame.now).kind ∷ (body_of frame.now).content) }
{
    match frame {
        Frame::Hello { version, id } => {
            out.extend_from_slice(&[0, *version])?;
            out.extend_from_slice(&id.0)
        }
        Frame::Sync(bytes) => {
            out.extend_from_slice(&[1])?;
            out.extend_from_slice(bytes.as_slice())
        }
        Frame::Done => out.extend_from_slice(&[2]),
        Frame::Refusal(code) => out.extend_from_slice(&[3, *code]),
    }
}

/// The bytes of a frame, as docs/FORMATS.md lays them out. They are written once, into memory that is reserved once.
///
/// Refused as `TooLong` where the body would have more than 16,777,216 bytes, which only a sync frame's can, and as
/// `OutOfMemory`.
pub fn write_frame(alloc: Global, frame: &Frame) -> Result<Vec<u8>, FrameError>
    ensures bytes { IfOk result (λ v. IsFrame frame.now × (v.items ≡ frame_spelling frame.now)) }
    ensures too_long { (result ≡ Err TooLong) ↔ (MAX_BODY < body_len (body_of frame.now)) }
    ensures err { IfErr result (λ e. (e ≡ TooLong) ⊎ (e ≡ OutOfMemory)) }
{
    let len = len_of(frame);
    if len > MAX_BODY {
        return Err(FrameError::TooLong);
    }
    let mut out = Vec::with_capacity(alloc, 4 + len)?;
    out.extend_from_slice(&(len as u32).to_be_bytes())?;
    put_body(&mut out, frame)?;
    Ok(out)
}
