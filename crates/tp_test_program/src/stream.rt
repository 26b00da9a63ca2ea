//! A standard stream that keeps what is printed.

use crate::budget::Budget;
use std::alloc::{AllocError, Global};
use std::cell::RefCell;
use std::fmt::Display;
use std::io;
use std::io::{ErrorKind, Write};

// No growth is refused while this much is printed at most.
const ROOM: usize = 65_536;

/// A stream that keeps what is printed, until its calls fail.
#[derive(Drop)]
pub struct Stream {
    held: RefCell<Vec<u8>>,
    budget: Budget,
}

impl Stream {
    /// Nothing printed yet; as many calls succeed as the budget has.
    pub fn new(alloc: Global, budget: Budget) -> Result<Stream, AllocError> {
        Ok(Stream {
            held: RefCell::new(Vec::with_capacity(alloc, ROOM)?),
            budget,
        })
    }

    /// Prints a value.
    pub fn put(&self, value: impl Display + Drop) -> io::Result<()> {
        self.budget.spend()?;
        match self.held.try_borrow_mut() {
            Ok(mut held) => write!(held, "{value}"),
            Err(_) => Err(io::Error::from(ErrorKind::Other)),
        }
    }

    /// Prints bytes.
    pub fn put_bytes(&self, bytes: &[u8]) -> io::Result<()> {
        self.budget.spend()?;
        match self.held.try_borrow_mut() {
            Ok(mut held) => Ok(held.extend_from_slice(bytes)?),
            Err(_) => Err(io::Error::from(ErrorKind::Other)),
        }
    }

    /// Prints one byte, or none of none.
    pub fn put_byte(&self, bytes: &[u8]) -> io::Result<usize> {
        match bytes.first() {
            Some(byte) => {
                self.put_bytes(&[*byte])?;
                Ok(1)
            }
            None => Ok(0),
        }
    }

    /// All that was printed, where it is a text.
    pub fn text(&self, alloc: Global) -> Result<String, AllocError> {
        match self.held.try_borrow() {
            Ok(held) => match str::from_utf8(held.as_slice()) {
                Ok(text) => String::from_str(alloc, text),
                Err(_) => String::from_str(alloc, "no text"),
            },
            Err(_) => String::from_str(alloc, "in use"),
        }
    }
}
