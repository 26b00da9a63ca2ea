//! Calls on streams of frames.

use crate::frames::{frame, put_frame};
use crate::parts;
use crate::world::World;
use std::alloc::Global;
use tp_frame::{FrameError, Framer, write_frame};
use tp_test_runner::{Fault, Judge, Runs, Shelf, Words, answer_ok, keep_bytes, of_cuts, refusal};

// The bytes of the frame that a word spells.
fn frame_bytes(shelf: &Shelf<Vec<u8>>, word: &str) -> Result<Result<Vec<u8>, FrameError>, Fault> {
    let frame = frame(shelf, word)?;
    Ok(write_frame(shelf.alloc(), &frame))
}

// Adds the bytes of a frame, or tells why it has none.
fn push_frame(
    shelf: &Shelf<Vec<u8>>,
    whole: &mut Vec<u8>,
    word: &str,
) -> Result<Option<FrameError>, Fault> {
    match frame_bytes(shelf, word)? {
        Ok(bytes) => {
            whole.extend_from_slice(&bytes)?;
            Ok(None)
        }
        Err(error) => Ok(Some(error)),
    }
}

// `stream NAME FRAME..`: the bytes of the frames, one after another; answers how many there are.
fn stream(world: &mut World, words: &mut Words) -> Result<String, Fault> {
    let name = words.next()?;
    let mut whole = Vec::new(world.alloc);
    for word in words.rest() {
        if let Some(error) = push_frame(&world.bytes, &mut whole, word.as_str())? {
            return refusal(world.alloc, error);
        }
    }
    keep_bytes(&mut world.bytes, name, whole)
}

/// Adds a blank after what is there.
pub fn put_blank(out: &mut String) -> Result<(), Fault> {
    if !out.is_empty() {
        out.push(' ')?;
    }
    Ok(())
}

/// What is there, or `none`.
pub fn or_none(out: String) -> Result<String, Fault> {
    if out.is_empty() {
        return Ok(String::from_str(*out.allocator(), "none")?);
    }
    Ok(out)
}

// Adds the next frame, or the fault that shows. Whether there was a frame.
fn put_next(shelf: &Shelf<Vec<u8>>, framer: &mut Framer, out: &mut String) -> Result<bool, Fault> {
    match framer.next() {
        Ok(Some(frame)) => {
            put_blank(out)?;
            put_frame(shelf, out, &frame)?;
            Ok(true)
        }
        Ok(None) => Ok(false),
        Err(error) => {
            put_blank(out)?;
            let name = refusal(shelf.alloc(), error)?;
            out.push_str(name.as_str())?;
            Ok(false)
        }
    }
}

// Feeds a piece, and adds each frame that is whole then.
fn put_piece(
    shelf: &Shelf<Vec<u8>>,
    framer: &mut Framer,
    out: &mut String,
    piece: &[u8],
) -> Result<(), Fault> {
    if let Err(error) = framer.feed(piece) {
        return Err(fault_of(error));
    }
    for _ in 0..=piece.len() {
        if !put_next(shelf, framer, out)? {
            return Ok(());
        }
    }
    Ok(())
}

/// What a row answers for a refused feed.
pub fn fault_of(error: FrameError) -> Fault {
    match error {
        FrameError::OutOfMemory => Fault::Refused,
        _ => Fault::Row("another refusal"),
    }
}

// The frames of the stream, fed as one piece.
fn in_one(shelf: &Shelf<Vec<u8>>, whole: &[u8]) -> Result<String, Fault> {
    let mut framer = Framer::new(shelf.alloc());
    let mut out = String::new(shelf.alloc());
    put_piece(shelf, &mut framer, &mut out, whole)?;
    or_none(out)
}

// The frames of the stream, fed in two pieces.
fn in_two(shelf: &Shelf<Vec<u8>>, first: &[u8], second: &[u8]) -> Result<String, Fault> {
    let alloc = shelf.alloc();
    let mut framer = Framer::new(alloc);
    let mut out = String::new(alloc);
    put_piece(shelf, &mut framer, &mut out, first)?;
    put_piece(shelf, &mut framer, &mut out, second)?;
    or_none(out)
}

// The frames of the stream, fed byte by byte.
fn by_byte(shelf: &Shelf<Vec<u8>>, whole: &[u8]) -> Result<String, Fault> {
    let alloc = shelf.alloc();
    let mut framer = Framer::new(alloc);
    let mut out = String::new(alloc);
    for byte in whole {
        put_piece(shelf, &mut framer, &mut out, &[*byte])?;
    }
    or_none(out)
}

// The frames of the stream, fed in two pieces that are parted at each place.
fn at_each_place(shelf: &Shelf<Vec<u8>>, whole: &[u8]) -> Result<String, Fault> {
    let mut runs = Runs::new(shelf.alloc(), 0);
    for at in 0..=whole.len() {
        let (first, second) = whole.split_at(at);
        runs.add(in_two(shelf, first, second)?)?;
    }
    runs.end()
}

/// Answers for bytes by the frames that they give.
#[derive(Clone, Copy, Drop)]
struct InOne<'a>(&'a Shelf<Vec<u8>>);

impl Judge for InOne<'_> {
    fn judge(&self, bytes: &[u8]) -> Result<String, Fault> {
        in_one(self.0, bytes)
    }
}

// `frames BYTES`, `frames_by_byte BYTES`, `frames_parted BYTES`, `frames_cut BYTES`: the frames that the bytes give,
// and the fault where one shows.
fn frames(shelf: &Shelf<Vec<u8>>, word: &str, words: &mut Words) -> Result<String, Fault> {
    let whole = shelf.get(words.next()?)?;
    match word {
        "frames" => in_one(shelf, whole),
        "frames_by_byte" => by_byte(shelf, whole),
        "frames_parted" => at_each_place(shelf, whole),
        _ => of_cuts(shelf.alloc(), &InOne(shelf), whole),
    }
}

// `feed FRAMER BYTES`.
fn feed(world: &mut World, words: &mut Words) -> Result<String, Fault> {
    let framer = world.framers.get_mut(words.next()?)?;
    match framer.feed(world.bytes.get(words.next()?)?) {
        Ok(()) => answer_ok(world.alloc),
        Err(error) => refusal(world.alloc, error),
    }
}

// `next FRAMER`: the next frame, `none`, or the refusal.
fn next(world: &mut World, words: &mut Words) -> Result<String, Fault> {
    let framer = world.framers.get_mut(words.next()?)?;
    let mut out = String::new(world.alloc);
    let _is_frame = put_next(&world.bytes, framer, &mut out)?;
    or_none(out)
}

// `framer NAME`: one that holds nothing.
fn make(alloc: Global, framers: &mut Shelf<Framer>, words: &mut Words) -> Result<String, Fault> {
    framers.put(words.next()?, Framer::new(alloc))?;
    answer_ok(alloc)
}

/// Makes a call on frames; `None` where the word is none of these.
pub fn call(world: &mut World, word: &str, words: &mut Words) -> Option<Result<String, Fault>> {
    Some(match word {
        "stream" => stream(world, words),
        "frames" | "frames_by_byte" | "frames_parted" | "frames_cut" => {
            frames(&world.bytes, word, words)
        }
        "parts" | "joined" | "joined_parted" | "held" | "flood" => {
            parts::parts(&world.bytes, word, words)
        }
        "framer" => make(world.alloc, &mut world.framers, words),
        "feed" => feed(world, words),
        "next" => next(world, words),
        _ => return None,
    })
}
