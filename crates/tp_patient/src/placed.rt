//! A stream that has a place.

use crate::first::first_wait;
use crate::places::Place;
use std::cell::Cell;
use std::io;
use std::io::{ErrorKind, Read, Write};
use std::net::{OpenStream, Shutdown, SocketAddr};
use std::sync::Wait;
use std::sync::ledger::Ledger;
use std::time::{Clock, Duration, Instant};

/// A stream with its place, which is free again once the stream is closed.
///
/// Until its first bytes have come, which a read or a peek finds, no read waits longer for them than is left of ten seconds since
/// the stream was accepted, where a bound is set at all; a millisecond is always left. From then on a bound is as it is set.
#[derive(Drop)]
pub struct Placed<'a, S: Drop, K: Ledger, R: Wait + Clock> {
    stream: S,
    place: Place<'a, K, R>,
    accepted: Option<Instant>,
    has_begun: Cell<bool>,
}

impl<'a, S: Drop, K: Ledger, R: Wait + Clock> Placed<'a, S, K, R> {
    /// The stream, which was just accepted, with its place.
    pub(crate) fn new(stream: S, place: Place<'a, K, R>) -> Placed<'a, S, K, R> {
        let accepted = Instant::now(place.rt).ok();
        Placed {
            stream,
            place,
            accepted,
            has_begun: Cell::new(false),
        }
    }

    // How long has passed since it was accepted, as far as the clock says.
    fn age(&self) -> Duration {
        match self.accepted {
            Some(accepted) => accepted.elapsed(self.place.rt).unwrap_or(Duration::ZERO),
            None => Duration::ZERO,
        }
    }

    // Bytes have come, or it has ended.
    fn note(&self, outcome: &io::Result<usize>) {
        if outcome.is_ok() {
            self.has_begun.set(true);
        }
    }
}

impl<'a, S: Read + Drop, K: Ledger, R: Wait + Clock> Read for Placed<'a, S, K, R> {
    ghost remaining = { λ p. S.remaining p.stream };

    fn read(&mut self, buf: &mut [u8]) -> io::Result<usize> {
        let outcome = self.stream.read(buf);
        self.note(&outcome);
        outcome
    }
}

impl<'a, S: Write + Drop, K: Ledger, R: Wait + Clock> Write for Placed<'a, S, K, R> {
    ghost contents = { λ p. S.contents p.stream };

    fn write(&mut self, buf: &[u8]) -> io::Result<usize> {
        self.stream.write(buf)
    }

    fn flush(&mut self) -> io::Result<()> {
        self.stream.flush()
    }
}

/// Another handle of a stream takes a place too: where none is free it is refused as `ResourceBusy`.
impl<'a, S: OpenStream + Drop, K: Ledger, R: Wait + Clock> OpenStream for Placed<'a, S, K, R> {
    fn peer_addr(&self) -> io::Result<SocketAddr> {
        self.stream.peer_addr()
    }

    fn local_addr(&self) -> io::Result<SocketAddr> {
        self.stream.local_addr()
    }

    fn shutdown(&self, how: Shutdown) -> io::Result<()> {
        self.stream.shutdown(how)
    }

    fn set_nodelay(&self, nodelay: bool) -> io::Result<()> {
        self.stream.set_nodelay(nodelay)
    }

    fn set_read_timeout(&self, dur: Option<Duration>) -> io::Result<()> {
        if self.has_begun.get() {
            return self.stream.set_read_timeout(dur);
        }
        self.stream
            .set_read_timeout(Some(first_wait(dur, self.age())))
    }

    fn set_write_timeout(&self, dur: Option<Duration>) -> io::Result<()> {
        self.stream.set_write_timeout(dur)
    }

    fn peek(&self, buf: &mut [u8]) -> io::Result<usize> {
        let outcome = self.stream.peek(buf);
        self.note(&outcome);
        outcome
    }

    fn try_clone(&self) -> io::Result<Placed<'a, S, K, R>> {
        let Some(place) = self.place.another() else {
            return Err(io::Error::from(ErrorKind::ResourceBusy));
        };
        let stream = self.stream.try_clone()?;
        Ok(Placed {
            stream,
            place,
            accepted: self.accepted,
            has_begun: Cell::new(self.has_begun.get()),
        })
    }
}
