//! What bytes are decoded to, and what is shown of them.

use crate::logs::show_log;
use std::alloc::Global;
use std::fmt::Display;
use tp_change::Change;
use tp_sync::Message;
use tp_test_runner::{
    Fault, Judge, Shelf, Words, answer_ok, bytes, count, of_complements, of_cuts, refusal,
    with_others_at,
};

/// What bytes are read as.
#[derive(Clone, Copy, Drop)]
enum Format {
    Change,
    Log,
    Message,
}

/// Answers for bytes by what they are read as.
#[derive(Clone, Copy, Drop)]
struct Reading {
    alloc: Global,
    format: Format,
}

/// `ok` where the bytes are spelled by just what they were decoded to.
pub fn check_spelling<E: Display + Drop>(
    alloc: Global,
    again: Result<Vec<u8>, E>,
    bytes: &[u8],
) -> Result<String, Fault> {
    match again {
        Ok(spelled) if spelled.as_slice() == bytes => answer_ok(alloc),
        Ok(_) => Ok(String::from_str(alloc, "spelled otherwise")?),
        Err(error) => refusal(alloc, error),
    }
}

fn change(alloc: Global, bytes: &[u8]) -> Result<String, Fault> {
    match Change::decode(alloc, bytes) {
        Ok(change) => check_spelling(alloc, change.encode(), bytes),
        Err(error) => refusal(alloc, error),
    }
}

fn message(alloc: Global, bytes: &[u8]) -> Result<String, Fault> {
    match Message::decode(alloc, bytes) {
        Ok(message) => check_spelling(alloc, message.encode(), bytes),
        Err(error) => refusal(alloc, error),
    }
}

impl Judge for Reading {
    fn judge(&self, bytes: &[u8]) -> Result<String, Fault> {
        match self.format {
            Format::Change => change(self.alloc, bytes),
            Format::Log => show_log(self.alloc, bytes),
            Format::Message => message(self.alloc, bytes),
        }
    }
}

// `altered BYTES AT HEX`: what the bytes are decoded to with these in the place of those from `AT` on.
fn of_altered(reading: Reading, whole: &[u8], words: &mut Words) -> Result<String, Fault> {
    let at = count(words.next()?)?;
    let others = bytes(reading.alloc, words.next()?)?;
    let changed = with_others_at(reading.alloc, whole, at, &others)?;
    reading.judge(&changed)
}

// What a call reads bytes as.
fn format_of(word: &str) -> Option<Format> {
    match word {
        "decode" | "altered" | "cuts" | "complements" => Some(Format::Change),
        "show" | "show_cuts" | "show_complements" => Some(Format::Log),
        "is_message" | "message_cuts" | "message_complements" => Some(Format::Message),
        _ => None,
    }
}

fn judge_by(
    reading: Reading,
    whole: &[u8],
    word: &str,
    words: &mut Words,
) -> Result<String, Fault> {
    match word {
        "altered" => of_altered(reading, whole, words),
        "cuts" | "show_cuts" | "message_cuts" => of_cuts(reading.alloc, &reading, whole),
        "complements" | "show_complements" | "message_complements" => {
            of_complements(reading.alloc, &reading, whole)
        }
        _ => reading.judge(whole),
    }
}

// What a reading of the bytes with the name answers.
fn judged_named(
    shelf: &Shelf<Vec<u8>>,
    format: Format,
    word: &str,
    words: &mut Words,
) -> Result<String, Fault> {
    let alloc = shelf.alloc();
    let whole = shelf.get(words.next()?)?;
    judge_by(Reading { alloc, format }, whole, word, words)
}

/// Makes a call that reads bytes: `decode BYTES`, `altered BYTES AT HEX`, `cuts BYTES`, `complements BYTES` as a change,
/// `show`, `show_cuts`, `show_complements` as a log, `is_message`, `message_cuts`, `message_complements` as a message;
/// `None` where the word is none of these.
pub fn call(
    shelf: &Shelf<Vec<u8>>,
    word: &str,
    words: &mut Words,
) -> Option<Result<String, Fault>> {
    match format_of(word) {
        Some(format) => Some(judged_named(shelf, format, word, words)),
        None => None,
    }
}
