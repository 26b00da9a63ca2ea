//! A stream whose reads end at a time.

use std::cell::Cell;
use std::io;
use std::io::{ErrorKind, Read, Write};
use std::net::OpenStream;
use std::time::{Clock, Duration, Instant};

// What is read has this many milliseconds at least.
const LEAST: u64 = 10;

/// A stream with a time after which nothing more is read, where the clock says what time it is. A read that would wait longer is
/// refused as `WouldBlock`, so that bytes which come one by one take no longer than all at once.
#[derive(Drop)]
pub(crate) struct Timed<'a, S: Drop, R> {
    rt: &'a R,
    stream: S,
    until: Cell<Option<Instant>>,
    is_asked: Cell<bool>,
}

impl<'a, S: Drop, R: Clock> Timed<'a, S, R> {
    /// The stream, which is read for that many seconds from a time on, or from now on where none is given. What has come by now is
    /// read in any case: it has 10 milliseconds at least.
    pub(crate) fn new(rt: &'a R, stream: S, from: Option<Instant>, secs: u64) -> Timed<'a, S, R> {
        let time = Duration::from_secs(secs);
        let left = match from {
            Some(from) => time
                .saturating_sub(from.elapsed(rt).unwrap_or(Duration::ZERO))
                .max(Duration::from_millis(LEAST)),
            None => time,
        };
        Timed {
            rt,
            stream,
            until: Cell::new(after(rt, left)),
            is_asked: Cell::new(false),
        }
    }

    /// The stream itself.
    pub(crate) fn into_inner(self) -> S {
        self.stream
    }

    /// It is read for that many seconds from now on; and whether its other side was asked for a sign of life since it gave one.
    pub(crate) fn extend(&self, secs: u64, is_asked: bool) {
        self.until.set(after(self.rt, Duration::from_secs(secs)));
        self.is_asked.set(is_asked);
    }

    /// Whether its other side was asked for a sign of life, and gave none yet.
    pub(crate) fn is_asked(&self) -> bool {
        self.is_asked.get()
    }

    // How long the next read may wait; `None` where the clock doesn't say.
    fn time_left(&self) -> Option<Duration> {
        let until = self.until.get()?;
        match Instant::now(self.rt) {
            Ok(now) => Some(until.saturating_duration_since(now)),
            Err(_) => None,
        }
    }
}

// The time when so much has passed.
fn after<R: Clock>(rt: &R, time: Duration) -> Option<Instant> {
    Instant::now(rt).ok()?.checked_add(time)
}

impl<S: OpenStream + Drop, R> Timed<'_, S, R> {
    /// Lets no write wait longer than that many seconds, where the stream knows such a bound.
    pub(crate) fn limit_writes(&self, secs: u64) {
        let _ = self
            .stream
            .set_write_timeout(Some(Duration::from_secs(secs)));
    }
}

impl<S: Read + OpenStream + Drop, R: Clock> Read for Timed<'_, S, R> {
    ghost remaining = { λ t. S.remaining t.stream };

    fn read(&mut self, buf: &mut [u8]) -> io::Result<usize> {
        if let Some(left) = self.time_left() {
            if left.is_zero() {
                return Err(io::Error::from(ErrorKind::WouldBlock));
            }
            let _ = self.stream.set_read_timeout(Some(left));
        }
        self.stream.read(buf)
    }
}

impl<S: Write + Drop, R> Write for Timed<'_, S, R> {
    ghost contents = { λ t. S.contents t.stream };

    fn write(&mut self, buf: &[u8]) -> io::Result<usize> {
        self.stream.write(buf)
    }

    fn flush(&mut self) -> io::Result<()> {
        self.stream.flush()
    }
}
