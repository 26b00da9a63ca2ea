//! Time and memory.

use std::fs;
use std::rt::{Clock, Files};
use std::time::Instant;

/// The time since it was started. Where the system has no clock that is 0.
#[derive(Clone, Copy)]
pub struct Stopwatch {
    start: Option<Instant>,
}

impl Stopwatch {
    /// It is started.
    pub fn start(rt: &impl Clock) -> Stopwatch {
        Stopwatch {
            start: Instant::now(rt).ok(),
        }
    }

    /// The time since then, in microseconds.
    pub fn micros(self, rt: &impl Clock) -> u64 {
        let Some(start) = self.start else {
            return 0;
        };
        match start.elapsed(rt) {
            Ok(elapsed) => elapsed
                .as_secs()
                .saturating_mul(1_000_000)
                .saturating_add(u64::from(elapsed.subsec_micros())),
            Err(_) => 0,
        }
    }
}

/// How many nanoseconds each of `count` took, where all took `micros` microseconds.
pub fn nanos_each(micros: u64, count: u64) -> u64 {
    micros.saturating_mul(1_000) / count.max(1)
}

/// Prints how long something took with `bytes` bytes, and how many megabytes a second that is.
pub fn report<R: Print>(rt: &R, name: &str, bytes: u64, micros: u64) -> anyhow::Result<()> {
    let millis = micros / 1000;
    let speed = bytes / micros.max(1);
    Ok(println!(rt; "{name:<24} {millis:>8} ms {speed:>8} MB/s")?)
}

/// The line of the system on the process that begins with the word, as `VmHWM:`, the most memory that it has held, or
/// `VmRSS:`, what it holds; empty where there is none.
pub fn memory<R: Files + AllocGlobal>(rt: &R, word: &str) -> anyhow::Result<String> {
    let status = fs::read_to_string(rt, "/proc/self/status")?;
    for line in status.lines() {
        if line.starts_with(word) {
            return Ok(String::from_str(rt.alloc(), line)?);
        }
    }
    Ok(String::new(rt.alloc()))
}

/// Prints the most memory that the process has held, as the system tells it.
pub fn report_memory<R: Files + Print + AllocGlobal>(rt: &R) -> anyhow::Result<()> {
    let line = memory(rt, "VmHWM:")?;
    Ok(println!(rt; "peak memory  {line}")?)
}
