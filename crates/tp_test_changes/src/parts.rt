//! Calls on streams of frames that come in parts.

use crate::frames::{put_bytes, put_frame};
use crate::streams::{fault_of, or_none, put_blank};
use std::alloc::Global;
use tp_frame::{Frame, Part, PartFramer};
use tp_test_runner::{Fault, Runs, Shelf, Words, count, refusal};

/// How many bytes a flood comes in at once.
const FLOOD_LEN: usize = 4096;

// Adds a part as it is: `begin:LEN`, `piece:BYTES`, `end` or a frame.
fn put_part(shelf: &Shelf<Vec<u8>>, out: &mut String, part: &Part) -> Result<(), Fault> {
    put_blank(out)?;
    match part {
        Part::Begin(len) => write!(out, "begin:{len}")?,
        Part::Piece(bytes) => {
            out.push_str("piece:")?;
            put_bytes(shelf, out, bytes.as_slice())?;
        }
        Part::End => out.push_str("end")?,
        Part::Whole(frame) => put_frame(shelf, out, frame)?,
    }
    Ok(())
}

/// What parts gave so far.
#[derive(Drop)]
struct Joined {
    /// The frames that they make.
    frames: String,
    /// The sync frame that hasn't ended: how long it is, and what was given of it.
    open: Option<u32>,
    body: Vec<u8>,
}

impl Joined {
    fn new(alloc: Global) -> Joined {
        Joined {
            frames: String::new(alloc),
            open: None,
            body: Vec::new(alloc),
        }
    }

    // Adds the sync frame that ends.
    fn put_sync(&mut self, shelf: &Shelf<Vec<u8>>, word: &str) -> Result<(), Fault> {
        put_blank(&mut self.frames)?;
        self.frames.push_str(word)?;
        put_bytes(shelf, &mut self.frames, self.body.as_slice())
    }

    fn end(&mut self, shelf: &Shelf<Vec<u8>>) -> Result<(), Fault> {
        match self.open {
            Some(len) if len as usize == self.body.len() => {}
            _ => return Err(Fault::Row("another length")),
        }
        self.open = None;
        self.put_sync(shelf, "sync:")
    }

    fn add(&mut self, shelf: &Shelf<Vec<u8>>, part: &Part) -> Result<(), Fault> {
        match part {
            Part::Begin(len) => {
                self.open = Some(*len);
                self.body.clear();
            }
            Part::Piece(bytes) => self.body.extend_from_slice(bytes.as_slice())?,
            Part::End => self.end(shelf)?,
            Part::Whole(frame) => self.put_whole(shelf, frame)?,
        }
        Ok(())
    }

    fn put_whole(&mut self, shelf: &Shelf<Vec<u8>>, frame: &Frame) -> Result<(), Fault> {
        put_blank(&mut self.frames)?;
        put_frame(shelf, &mut self.frames, frame)
    }

    // All frames, and `open:BYTES` for the sync frame that hasn't ended.
    fn answer(mut self, shelf: &Shelf<Vec<u8>>) -> Result<String, Fault> {
        if self.open.is_some() {
            self.put_sync(shelf, "open:")?;
        }
        or_none(self.frames)
    }
}

fn feed(framer: &mut PartFramer, piece: &[u8]) -> Result<(), Fault> {
    match framer.feed(piece) {
        Ok(()) => Ok(()),
        Err(error) => Err(fault_of(error)),
    }
}

// Feeds a piece, and joins each part that is there then; a fault is added by its name.
fn join_piece(
    shelf: &Shelf<Vec<u8>>,
    framer: &mut PartFramer,
    joined: &mut Joined,
    piece: &[u8],
) -> Result<(), Fault> {
    feed(framer, piece)?;
    for _ in 0..u64::MAX {
        match framer.next() {
            Ok(Some(part)) => joined.add(shelf, &part)?,
            Ok(None) => return Ok(()),
            Err(error) => {
                put_blank(&mut joined.frames)?;
                let name = refusal(shelf.alloc(), error)?;
                return Ok(joined.frames.push_str(name.as_str())?);
            }
        }
    }
    Ok(())
}

// The parts of the stream, fed as one piece, as they are.
fn in_one(shelf: &Shelf<Vec<u8>>, whole: &[u8]) -> Result<String, Fault> {
    let mut framer = PartFramer::new(shelf.alloc());
    let mut out = String::new(shelf.alloc());
    feed(&mut framer, whole)?;
    for _ in 0..u64::MAX {
        match framer.next() {
            Ok(Some(part)) => put_part(shelf, &mut out, &part)?,
            Ok(None) => return or_none(out),
            Err(error) => {
                put_blank(&mut out)?;
                let name = refusal(shelf.alloc(), error)?;
                out.push_str(name.as_str())?;
                return Ok(out);
            }
        }
    }
    Ok(out)
}

// The frames that the parts make, fed byte by byte.
fn by_byte(shelf: &Shelf<Vec<u8>>, whole: &[u8]) -> Result<String, Fault> {
    let mut framer = PartFramer::new(shelf.alloc());
    let mut joined = Joined::new(shelf.alloc());
    for byte in whole {
        join_piece(shelf, &mut framer, &mut joined, &[*byte])?;
    }
    joined.answer(shelf)
}

// The frames that the parts make, fed in two pieces.
fn in_two(shelf: &Shelf<Vec<u8>>, first: &[u8], second: &[u8]) -> Result<String, Fault> {
    let mut framer = PartFramer::new(shelf.alloc());
    let mut joined = Joined::new(shelf.alloc());
    join_piece(shelf, &mut framer, &mut joined, first)?;
    join_piece(shelf, &mut framer, &mut joined, second)?;
    joined.answer(shelf)
}

// The frames that the parts make, fed in two pieces that are parted at each place.
fn at_each_place(shelf: &Shelf<Vec<u8>>, whole: &[u8]) -> Result<String, Fault> {
    let mut runs = Runs::new(shelf.alloc(), 0);
    for at in 0..=whole.len() {
        let (first, second) = whole.split_at(at);
        runs.add(in_two(shelf, first, second)?)?;
    }
    runs.end()
}

// Takes all parts that are there. How many bytes are held then.
fn held_after(framer: &mut PartFramer) -> usize {
    for _ in 0..u64::MAX {
        match framer.next() {
            Ok(Some(_)) => {}
            _ => return framer.held(),
        }
    }
    framer.held()
}

// How many bytes are held after each byte of the stream.
fn held_lens(shelf: &Shelf<Vec<u8>>, whole: &[u8]) -> Result<String, Fault> {
    let alloc = shelf.alloc();
    let mut framer = PartFramer::new(alloc);
    let mut runs = Runs::new(alloc, 1);
    for byte in whole {
        feed(&mut framer, &[*byte])?;
        let len = held_after(&mut framer);
        runs.add(format!(in alloc; "{len}")?)?;
    }
    runs.end()
}

// Feeds `len` zeros; answers the most bytes that were held after any of their pieces.
fn flood(framer: &mut PartFramer, len: usize) -> Result<usize, Fault> {
    let zeros = [0; FLOOD_LEN];
    let mut most = held_after(framer);
    for _ in 0..len / FLOOD_LEN {
        feed(framer, &zeros)?;
        most = most.max(held_after(framer));
    }
    feed(framer, &zeros[..len % FLOOD_LEN])?;
    Ok(most.max(held_after(framer)))
}

// `flood BYTES LEN`: what comes next after the bytes and then `LEN` zeros, and how many bytes were held at most.
fn flood_after(shelf: &Shelf<Vec<u8>>, whole: &[u8], len: usize) -> Result<String, Fault> {
    let mut framer = PartFramer::new(shelf.alloc());
    feed(&mut framer, whole)?;
    let most = flood(&mut framer, len)?;
    let mut out = match framer.next() {
        Ok(_) => String::from_str(shelf.alloc(), "none")?,
        Err(error) => refusal(shelf.alloc(), error)?,
    };
    write!(out, ", held {most}")?;
    Ok(out)
}

/// `parts BYTES`: the parts, as they are, of a stream fed whole; `joined BYTES`, `joined_parted BYTES`: the frames that
/// they make, fed byte by byte and in two pieces at each place; `held BYTES`, `flood BYTES LEN`.
pub fn parts(shelf: &Shelf<Vec<u8>>, word: &str, words: &mut Words) -> Result<String, Fault> {
    let whole = shelf.get(words.next()?)?;
    match word {
        "parts" => in_one(shelf, whole),
        "joined" => by_byte(shelf, whole),
        "joined_parted" => at_each_place(shelf, whole),
        "held" => held_lens(shelf, whole),
        _ => flood_after(shelf, whole, count(words.next()?)?),
    }
}
