//! Calls on logs and what is shown of them.

use std::alloc::Global;
use tp_test_runner::{Fault, Input, Output, Runs, Shelf, Words, count, in_quotes, refusal};
use tp_textpeer::{Refusal, ShowError, show};

// What was written, or the line of the refusal, and whether something was written before it.
fn answer(alloc: Global, shown: Result<(), ShowError>, wrote: &[u8]) -> Result<String, Fault> {
    match shown {
        Ok(()) => match str::from_utf8(wrote) {
            Ok(text) => in_quotes(alloc, text),
            Err(_) => Ok(String::from_str(alloc, "no text")?),
        },
        Err(error) => {
            let mut line = refusal(alloc, Refusal(error))?;
            if !wrote.is_empty() {
                line.push_str(", written in part")?;
            }
            Ok(line)
        }
    }
}

// A writer with room for what is shown of a log, so that no refused growth of its own makes it fail.
fn roomy(alloc: Global, log: &[u8]) -> Result<Vec<u8>, Fault> {
    let room = log.len().saturating_add(1);
    Ok(Vec::with_capacity(alloc, room)?)
}

/// What is shown of a log.
pub fn show_log(alloc: Global, log: &[u8]) -> Result<String, Fault> {
    let mut reader = log;
    let mut out = roomy(alloc, log)?;
    let shown = show(alloc, &mut reader, &mut out);
    answer(alloc, shown, &out)
}

fn shown_until_reader_fails(
    alloc: Global,
    whole: &[u8],
    calls_left: usize,
) -> Result<String, Fault> {
    let mut reader = Input::failing(whole, calls_left);
    let mut out = roomy(alloc, whole)?;
    let shown = show(alloc, &mut reader, &mut out);
    answer(alloc, shown, &out)
}

fn shown_until_writer_fails(
    alloc: Global,
    whole: &[u8],
    calls_left: usize,
) -> Result<String, Fault> {
    let mut reader = whole;
    let mut writer = Output::new(roomy(alloc, whole)?);
    writer.piece = 1;
    writer.succeeds = Some(calls_left);
    let shown = show(alloc, &mut reader, &mut writer);
    if shown.is_err() {
        // (a writer that fails may have taken a part)
        writer.bytes.clear();
    }
    answer(alloc, shown, &writer.bytes)
}

fn shown_until_fails(
    alloc: Global,
    whole: &[u8],
    word: &str,
    calls_left: usize,
) -> Result<String, Fault> {
    if word == "show_reader_fails" {
        shown_until_reader_fails(alloc, whole, calls_left)
    } else {
        shown_until_writer_fails(alloc, whole, calls_left)
    }
}

// `show_reader_fails NAME TIMES`, `show_writer_fails NAME TIMES`: what is shown where the reader or the writer fails at
// its call 0, 1 and so on.
fn fails(shelf: &Shelf<Vec<u8>>, word: &str, words: &mut Words) -> Result<String, Fault> {
    let alloc = shelf.alloc();
    let whole = shelf.get(words.next()?)?;
    let times = count(words.next()?)?;
    let mut runs = Runs::new(alloc, 0);
    for calls_left in 0..times {
        runs.add(shown_until_fails(alloc, whole, word, calls_left)?)?;
    }
    runs.end()
}

/// Makes a call that shows a log with a reader or a writer that fails; `None` where the word is none of these.
pub fn call(
    shelf: &Shelf<Vec<u8>>,
    word: &str,
    words: &mut Words,
) -> Option<Result<String, Fault>> {
    match word {
        "show_reader_fails" | "show_writer_fails" => Some(fails(shelf, word, words)),
        _ => None,
    }
}
