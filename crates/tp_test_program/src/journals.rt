//! Calls on journals, in files and in memory.

use crate::budget::Budget;
use crate::host::Host;
use std::alloc::{AllocError, Global};
use std::fs::{File, OpenFile};
use std::io::Write;
use std::rt::Files;
use tp_commands::Recovery;
use tp_journal::{FileJournal, Journal, JournalError, Lockable, MemJournal, OpenError};
use tp_store::StoreError;
use tp_test_runner::{Fault, Words, bytes, number};

/// A call on a journal.
#[derive(Drop)]
enum JournalCall {
    /// The bytes are appended.
    Append(Vec<u8>),
    /// The content is cut to this many bytes.
    Cut(u64),
    /// All of it is read.
    Read,
    /// The device's failures are counted.
    Failures,
    /// What was written to a file is brought to the disk.
    Sync,
}

// Why no answer was made. A file on a device that fails has lifetimes of its own, beside which no call may name `'static`,
// as `Fault` does.
#[derive(Clone, Copy)]
enum Stop {
    Refused,
    Memory,
}

impl From<AllocError> for Stop {
    fn from(_e: AllocError) -> Stop {
        Stop::Memory
    }
}

impl From<Stop> for Fault {
    fn from(stop: Stop) -> Fault {
        match stop {
            Stop::Refused => Fault::Refused,
            Stop::Memory => Fault::Memory,
        }
    }
}

// `append:HEX`, `cut:LEN`, `read`, `failures`, `sync`.
fn call_in(alloc: Global, word: &str) -> Result<JournalCall, Fault> {
    match word.split_once(':') {
        Some(("append", digits)) => Ok(JournalCall::Append(bytes(alloc, digits)?)),
        Some(("cut", len)) => Ok(JournalCall::Cut(number(len)?)),
        None if word == "read" => Ok(JournalCall::Read),
        None if word == "failures" => Ok(JournalCall::Failures),
        None if word == "sync" => Ok(JournalCall::Sync),
        _ => Err(Fault::Row("no such call on a journal")),
    }
}

fn calls_in(alloc: Global, words: &[String]) -> Result<Vec<JournalCall>, Fault> {
    let mut calls = Vec::new(alloc);
    for word in words {
        calls.push(call_in(alloc, word.as_str())?)?;
    }
    Ok(calls)
}

// A refusal as an answer, by its name.
fn name_of_refusal(alloc: Global, error: JournalError) -> Result<String, Stop> {
    match error {
        JournalError::OutOfMemory => Err(Stop::Refused),
        error => Ok(format!(in alloc; "{error}")?),
    }
}

fn line_of_answer(alloc: Global, answer: Result<(), JournalError>) -> Result<String, Stop> {
    match answer {
        Ok(()) => Ok(String::from_str(alloc, "ok")?),
        Err(error) => name_of_refusal(alloc, error),
    }
}

fn read<J: Journal>(alloc: Global, journal: &mut J) -> Result<String, Stop> {
    match journal.read_all() {
        Ok(all) => Ok(hex::encode(alloc, all.as_slice())?),
        Err(error) => name_of_refusal(alloc, error),
    }
}

// What the call on the journal answers; what is in memory is on no disk.
fn answer<J: Journal>(alloc: Global, journal: &mut J, call: &JournalCall) -> Result<String, Stop> {
    match call {
        JournalCall::Append(more) => line_of_answer(alloc, journal.append(more)),
        JournalCall::Cut(len) => line_of_answer(alloc, journal.cut(*len)),
        JournalCall::Read => read(alloc, journal),
        JournalCall::Failures => Ok(format!(in alloc; "{}", journal.failures())?),
        JournalCall::Sync => Ok(String::from_str(alloc, "ok")?),
    }
}

// What the call on a journal in a file answers.
fn answer_in_file<F: Write + OpenFile + Drop>(
    alloc: Global,
    journal: &mut FileJournal<F>,
    call: &JournalCall,
) -> Result<String, Stop> {
    match call {
        JournalCall::Sync => line_of_answer(alloc, journal.sync()),
        call => answer(alloc, journal, call),
    }
}

fn put(out: &mut String, answer: String) -> Result<(), Stop> {
    if !out.is_empty() {
        out.push(' ')?;
    }
    Ok(out.push_str(answer.as_str())?)
}

fn answers_in_file<F: Write + OpenFile + Drop>(
    alloc: Global,
    journal: &mut FileJournal<F>,
    calls: &[JournalCall],
) -> Result<String, Stop> {
    let mut out = String::new(alloc);
    for call in calls {
        put(&mut out, answer_in_file(alloc, journal, call)?)?;
    }
    Ok(out)
}

// Opens the file as a journal and makes the calls.
fn in_file<R: Files + AllocGlobal>(
    rt: &R,
    path: &str,
    make: bool,
    calls: &[JournalCall],
) -> Result<String, Stop>
where
    R::File: Lockable,
{
    let alloc = rt.alloc();
    match FileJournal::at(rt, alloc, path, make) {
        Ok(mut journal) => answers_in_file(alloc, &mut journal, calls),
        Err(OpenError::OutOfMemory) => Err(Stop::Refused),
        Err(error) => Ok(format!(in alloc; "{error}")?),
    }
}

// Opens the file as a journal that holds no copy of its content.
fn open_journal<R: Files + AllocGlobal>(
    rt: &R,
    path: &str,
) -> Result<(FileJournal<R::File>, Recovery), OpenError>
where
    R::File: Lockable,
{
    FileJournal::recovering(rt, rt.alloc(), path, false)
}

// How many bytes are kept of what was recovered, or why it wasn't.
fn line_of_recovery(alloc: Global, recovered: Recovery) -> Result<String, Stop> {
    match recovered {
        Ok(recovered) => Ok(format!(in alloc; "keep {}", recovered.keep)?),
        Err(StoreError::OutOfMemory) => Err(Stop::Refused),
        Err(error) => Ok(format!(in alloc; "{error}")?),
    }
}

// What the file recovers to, and the answers of the calls.
fn recovered_in_file<R: Files + AllocGlobal>(
    rt: &R,
    path: &str,
    calls: &[JournalCall],
) -> Result<String, Stop>
where
    R::File: Lockable,
{
    let alloc = rt.alloc();
    match open_journal(rt, path) {
        Ok((mut journal, recovered)) => {
            let mut out = line_of_recovery(alloc, recovered)?;
            put(&mut out, answers_in_file(alloc, &mut journal, calls)?)?;
            Ok(out)
        }
        Err(OpenError::OutOfMemory) => Err(Stop::Refused),
        Err(error) => Ok(format!(in alloc; "{error}")?),
    }
}

fn limit(words: &mut Words, key: &str) -> Result<Budget, Fault> {
    match words.option(key) {
        Some(word) => Ok(Budget::new(number(word)?)),
        None => Ok(Budget::new(u64::MAX)),
    }
}

// `journal NAME [make=1] [device=N] [takes=N] CALL..`: the calls on the file as a journal, which is made where it is
// absent; its device fails after `device` calls, and takes as many bytes as `takes` says.
fn journal<R: Files<File = File> + AllocGlobal>(
    rt: &R,
    words: &mut Words,
) -> Result<String, Fault> {
    let path = words.next()?;
    let make = words.option("make").is_some();
    let device = limit(words, "device")?;
    let room = limit(words, "takes")?;
    let calls = calls_in(rt.alloc(), words.rest())?;
    let host = Host::new(rt, &device, &room)?;
    Ok(in_file(&host, path, make, &calls)?)
}

// `journal_recovered NAME [device=N] [takes=N] CALL..`: the calls on the file as a journal that holds no copy, after
// how many of its bytes are kept.
fn journal_recovered<R: Files<File = File> + AllocGlobal>(
    rt: &R,
    words: &mut Words,
) -> Result<String, Fault> {
    let path = words.next()?;
    let device = limit(words, "device")?;
    let room = limit(words, "takes")?;
    let calls = calls_in(rt.alloc(), words.rest())?;
    let host = Host::new(rt, &device, &room)?;
    Ok(recovered_in_file(&host, path, &calls)?)
}

// `journal_in_memory CALL..`: the calls on a journal in memory, and the bytes that it has at its end.
fn in_memory(alloc: Global, calls: &[String]) -> Result<String, Fault> {
    let mut journal = MemJournal::new(Vec::new(alloc));
    let mut out = String::new(alloc);
    for call in calls_in(alloc, calls)?.iter() {
        put(&mut out, answer(alloc, &mut journal, call)?)?;
    }
    put(&mut out, hex::encode(alloc, journal.into_vec().as_slice())?)?;
    Ok(out)
}

/// Makes calls on a journal; `None` where the word is none of these.
pub fn call<R: Files<File = File> + AllocGlobal>(
    rt: &R,
    word: &str,
    words: &mut Words,
) -> Option<Result<String, Fault>> {
    match word {
        "journal" => Some(journal(rt, words)),
        "journal_recovered" => Some(journal_recovered(rt, words)),
        "journal_in_memory" => Some(in_memory(rt.alloc(), words.rest())),
        _ => None,
    }
}
