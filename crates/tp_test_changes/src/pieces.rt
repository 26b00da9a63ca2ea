//! Calls on messages whose bytes come in pieces.

use crate::judges::check_spelling;
use std::alloc::Global;
use tp_sync::{MessageReader, SyncError};
use tp_test_runner::{Fault, Runs, Shelf, Words, count, refusal};

// How far the bytes were taken, and how many were held at most.
#[derive(Clone, Copy, Drop)]
struct Course {
    taken: usize,
    most: usize,
    refused: Option<SyncError>,
}

// A reader of a message of `total` bytes, or the refusal.
fn reader(alloc: Global, total: usize) -> Result<Result<MessageReader, SyncError>, Fault> {
    let total = u32::try_from(total).ok().ok_or(Fault::Row("too long"))?;
    Ok(MessageReader::new(alloc, total))
}

// Gives the reader all of a piece, or as much as it takes.
fn feed(reader: &mut MessageReader, piece: &[u8]) -> Result<(), SyncError> {
    let mut rest = piece;
    for _ in 0..piece.len() {
        let taken = reader.take(rest)?;
        rest = &rest[taken..];
    }
    Ok(())
}

// Gives the reader one byte after another, up to a refusal.
fn by_byte(reader: &mut MessageReader, bytes: &[u8]) -> Course {
    let mut course = Course {
        taken: 0,
        most: 0,
        refused: None,
    };
    for byte in bytes {
        course.taken = course.taken.saturating_add(1);
        if let Err(error) = feed(reader, &[*byte]) {
            course.refused = Some(error);
            return course;
        }
        course.most = course.most.max(reader.held());
    }
    course
}

// `ok` where the message is whole, and is spelled by the bytes.
fn end_of(alloc: Global, reader: MessageReader, bytes: &[u8]) -> Result<String, Fault> {
    if !reader.whole() {
        return Ok(String::from_str(alloc, "goes on")?);
    }
    check_spelling(alloc, reader.finish().encode(), bytes)
}

fn line_of_course(
    alloc: Global,
    reader: MessageReader,
    bytes: &[u8],
    course: Course,
) -> Result<String, Fault> {
    let most = course.most;
    match course.refused {
        Some(error) => {
            let name = refusal(alloc, error)?;
            Ok(format!(in alloc; "{name} at {}, {most} held", course.taken)?)
        }
        None => {
            let end = end_of(alloc, reader, bytes)?;
            Ok(format!(in alloc; "{end}, {most} held")?)
        }
    }
}

// `message_by_byte BYTES TOTAL`.
fn of_bytes(alloc: Global, bytes: &[u8], total: usize) -> Result<String, Fault> {
    match reader(alloc, total)? {
        Ok(mut reader) => {
            let course = by_byte(&mut reader, bytes);
            line_of_course(alloc, reader, bytes, course)
        }
        Err(error) => refusal(alloc, error),
    }
}

fn feed_both(reader: &mut MessageReader, first: &[u8], second: &[u8]) -> Result<(), SyncError> {
    feed(reader, first)?;
    feed(reader, second)
}

// What comes of the bytes, which are two pieces.
fn in_two(alloc: Global, bytes: &[u8], first: &[u8], second: &[u8]) -> Result<String, Fault> {
    match reader(alloc, bytes.len())? {
        Ok(mut reader) => match feed_both(&mut reader, first, second) {
            Ok(()) => end_of(alloc, reader, bytes),
            Err(error) => refusal(alloc, error),
        },
        Err(error) => refusal(alloc, error),
    }
}

// `message_parted BYTES`.
fn at_each_place(alloc: Global, bytes: &[u8]) -> Result<String, Fault> {
    let mut runs = Runs::new(alloc, 0);
    for at in 0..=bytes.len() {
        let (first, second) = bytes.split_at(at);
        runs.add(in_two(alloc, bytes, first, second)?)?;
    }
    runs.end()
}

fn answer(shelf: &Shelf<Vec<u8>>, word: &str, words: &mut Words) -> Result<String, Fault> {
    let bytes = shelf.get(words.next()?)?;
    match word {
        "message_parted" => at_each_place(shelf.alloc(), bytes),
        _ => of_bytes(shelf.alloc(), bytes, count(words.next()?)?),
    }
}

/// Makes a call that reads a message from pieces: `message_parted BYTES`, from two that are cut at each place, and
/// `message_by_byte BYTES TOTAL`, as one that has `TOTAL` bytes, with the most bytes that were held; `None` where the
/// word is neither.
pub fn call(
    shelf: &Shelf<Vec<u8>>,
    word: &str,
    words: &mut Words,
) -> Option<Result<String, Fault>> {
    match word {
        "message_parted" | "message_by_byte" => Some(answer(shelf, word, words)),
        _ => None,
    }
}
