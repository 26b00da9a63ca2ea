//! A reader and a writer over memory that fail where a row says so.

use std::io;
use std::io::{ErrorKind, Read, Write};

/// Gives bytes, up to `piece` at once.
#[derive(Drop)]
pub struct Input<'a> {
    /// What is left of them.
    pub left: &'a [u8],
    /// How many bytes a read gives at most.
    pub piece: usize,
    /// How many reads still succeed; `None` where none fails.
    pub succeeds: Option<usize>,
    /// Whether the next read is interrupted, and then every other.
    pub interrupted: Option<bool>,
}

impl<'a> Input<'a> {
    /// All bytes at once, with no failure.
    pub fn new(bytes: &'a [u8]) -> Input<'a> {
        Input {
            left: bytes,
            piece: usize::MAX,
            succeeds: None,
            interrupted: None,
        }
    }

    /// A byte at a time, every other read being interrupted.
    pub fn by_byte(bytes: &'a [u8]) -> Input<'a> {
        Input {
            left: bytes,
            piece: 1,
            succeeds: None,
            interrupted: Some(true),
        }
    }

    /// A byte at a time, and a failure after `succeeds` reads.
    pub fn failing(bytes: &'a [u8], succeeds: usize) -> Input<'a> {
        Input {
            left: bytes,
            piece: 1,
            succeeds: Some(succeeds),
            interrupted: None,
        }
    }
}

// Counts a call down. It fails where none is left.
fn count_down(succeeds: &mut Option<usize>) -> io::Result<()> {
    match succeeds {
        None => Ok(()),
        Some(0) => Err(io::Error::from(ErrorKind::ConnectionReset)),
        Some(left) => {
            *left -= 1;
            Ok(())
        }
    }
}

impl Read for Input<'_> {
    fn read(&mut self, buf: &mut [u8]) -> io::Result<usize> {
        if let Some(now) = self.interrupted {
            self.interrupted = Some(!now);
            if now {
                return Err(io::Error::from(ErrorKind::Interrupted));
            }
        }
        count_down(&mut self.succeeds)?;
        let len = self.piece.min(self.left.len()).min(buf.len());
        let (front, rest) = self.left.split_at(len);
        buf[..len].copy_from_slice(front);
        self.left = rest;
        Ok(len)
    }
}

/// Keeps the bytes that are written.
#[derive(Drop)]
pub struct Output {
    /// The bytes.
    pub bytes: Vec<u8>,
    /// How many bytes a write takes at most.
    pub piece: usize,
    /// How many calls, of writes and of flushes, still succeed; `None` where none fails.
    pub succeeds: Option<usize>,
    /// Whether one has failed.
    pub failed: bool,
    /// Whether there was no memory for the bytes.
    pub refused: bool,
}

impl Output {
    /// No bytes yet, in this vector, with no failure and all bytes of a write at once.
    pub fn new(bytes: Vec<u8>) -> Output {
        Output {
            bytes,
            piece: usize::MAX,
            succeeds: None,
            failed: false,
            refused: false,
        }
    }

    // Counts a call down, and keeps that it failed.
    fn call(&mut self) -> io::Result<()> {
        let answer = count_down(&mut self.succeeds);
        self.failed = self.failed || answer.is_err();
        answer
    }
}

impl Write for Output {
    fn write(&mut self, buf: &[u8]) -> io::Result<usize> {
        self.call()?;
        let len = self.piece.min(buf.len());
        let (front, _) = buf.split_at(len);
        match self.bytes.extend_from_slice(front) {
            Ok(()) => Ok(len),
            Err(e) => {
                self.refused = true;
                Err(io::Error::from(e))
            }
        }
    }

    fn flush(&mut self) -> io::Result<()> {
        self.call()
    }
}
