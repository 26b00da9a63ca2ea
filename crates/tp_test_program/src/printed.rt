//! Running a script, and comparing what it prints.

use std::alloc::Global;
use tp_simulate::{SimError, simulate};
use tp_test_runner::Fault;

/// What a script prints, or the number of the line at which it is refused.
pub fn printed_by(alloc: Global, script: &[u8]) -> Result<Result<String, u64>, Fault> {
    let mut reader = script;
    let mut out = Vec::new(alloc);
    match simulate(alloc, &mut reader, &mut out) {
        Ok(()) => Ok(Ok(text_of(alloc, &out)?)),
        Err(SimError::Line(number)) => Ok(Err(number)),
        Err(SimError::OutOfMemory) => Err(Fault::Refused),
        Err(SimError::Io) => Err(Fault::Row("the script can't be run")),
    }
}

/// The bytes as a text.
pub fn text_of(alloc: Global, bytes: &[u8]) -> Result<String, Fault> {
    match str::from_utf8(bytes) {
        Ok(text) => Ok(String::from_str(alloc, text)?),
        Err(_) => Err(Fault::Row("no text")),
    }
}

/// The line of a text with the number, from 0; empty where there is none.
fn line_at(alloc: Global, text: &str, number: usize) -> Result<String, Fault> {
    Ok(String::from_str(alloc, text.lines().nth(number).unwrap_or(""))?)
}

/// How many lines a text has, and the last one.
pub fn last_line(alloc: Global, text: &str) -> Result<(usize, String), Fault> {
    let count = text.lines().count();
    let last = line_at(alloc, text, count.saturating_sub(1))?;
    Ok((count, last))
}

/// The line before the last one.
pub fn line_before(alloc: Global, text: &str) -> Result<String, Fault> {
    let count = text.lines().count();
    line_at(alloc, text, count.saturating_sub(2))
}

/// The number of lines, where the two are the same; else the first line that differs.
pub fn compare_lines(alloc: Global, printed: &str, wanted: &str) -> Result<String, Fault> {
    let mut number = 0u64;
    let mut others = wanted.lines();
    for line in printed.lines() {
        number = number.wrapping_add(1);
        if others.next() != Some(line) {
            return Ok(format!(in alloc; "line {number}: {line}")?);
        }
    }
    if printed.len() != wanted.len() {
        return Ok(format!(in alloc; "ends at line {number}")?);
    }
    Ok(format!(in alloc; "{number} lines")?)
}
