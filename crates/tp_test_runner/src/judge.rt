//! Answers for bytes that were cut or damaged, at each place.

use crate::altering::with_complement_at;
use crate::fault::Fault;
use crate::runs::Runs;
use std::alloc::Global;

/// Answers for bytes, as by what they are decoded to.
pub trait Judge {
    /// The answer for these bytes.
    fn judge(&self, bytes: &[u8]) -> Result<String, Fault>;
}

/// The answers for each prefix of the bytes, the whole the last.
pub fn of_cuts<J: Judge>(alloc: Global, judge: &J, whole: &[u8]) -> Result<String, Fault> {
    let mut runs = Runs::new(alloc, 0);
    for at in 0..=whole.len() {
        let (front, _) = whole.split_at(at);
        runs.add(judge.judge(front)?)?;
    }
    runs.end()
}

fn of_complement<J: Judge>(
    alloc: Global,
    judge: &J,
    whole: &[u8],
    at: usize,
) -> Result<String, Fault> {
    let damaged = with_complement_at(alloc, whole, at)?;
    judge.judge(&damaged)
}

/// The answers for the bytes with each of them complemented, by its offset.
pub fn of_complements<J: Judge>(alloc: Global, judge: &J, whole: &[u8]) -> Result<String, Fault> {
    let mut runs = Runs::new(alloc, 0);
    for at in 0..whole.len() {
        runs.add(of_complement(alloc, judge, whole, at)?)?;
    }
    runs.end()
}
