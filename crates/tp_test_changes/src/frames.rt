//! Frames as words spell them, and as answers print them.

use bytes::Bytes;
use std::alloc::Global;
use tp_frame::Frame;
use tp_opid::DocId;
use tp_test_runner::{Fault, Shelf, byte};

/// Adds the name of the bytes, or their number where no bytes of that kind have one.
pub fn put_bytes(shelf: &Shelf<Vec<u8>>, out: &mut String, content: &[u8]) -> Result<(), Fault> {
    for (name, bytes) in shelf.all() {
        if bytes.as_slice() == content {
            return Ok(out.push_str(name.as_str())?);
        }
    }
    let len = content.len();
    write!(out, "{len} bytes")?;
    Ok(())
}

fn put_hello(alloc: Global, out: &mut String, version: u8, id: &DocId) -> Result<(), Fault> {
    write!(out, "hello:{version}:")?;
    match id.to_text(alloc) {
        Ok(digits) => Ok(out.push_str(digits.as_str())?),
        Err(_) => Err(Fault::Memory),
    }
}

/// Adds a frame: `hello:VERSION:DIGITS`, `sync:BYTES`, `done` or `refusal:CODE`.
pub fn put_frame(shelf: &Shelf<Vec<u8>>, out: &mut String, frame: &Frame) -> Result<(), Fault> {
    match frame {
        Frame::Hello { version, id } => put_hello(shelf.alloc(), out, *version, id),
        Frame::Sync(content) => {
            out.push_str("sync:")?;
            put_bytes(shelf, out, content.as_slice())
        }
        Frame::Done => Ok(out.push_str("done")?),
        Frame::Refusal(code) => {
            write!(out, "refusal:{code}")?;
            Ok(())
        }
    }
}

fn hello(word: &str) -> Result<Frame, Fault> {
    let fault = Fault::Row("no hello");
    let (version, digits) = word.split_once(':').ok_or(fault)?;
    Ok(Frame::Hello {
        version: byte(version)?,
        id: DocId::from_text(digits).ok().ok_or(fault)?,
    })
}

/// The frame that a word spells, as answers print it.
pub fn frame(shelf: &Shelf<Vec<u8>>, word: &str) -> Result<Frame, Fault> {
    if word == "done" {
        return Ok(Frame::Done);
    }
    match word.split_once(':').ok_or(Fault::Row("no frame"))? {
        ("hello", rest) => hello(rest),
        ("refusal", code) => Ok(Frame::Refusal(byte(code)?)),
        ("sync", name) => {
            let content = shelf.get(name)?;
            Ok(Frame::Sync(Bytes::copy_from_slice(shelf.alloc(), content)?))
        }
        _ => Err(Fault::Row("no frame")),
    }
}
