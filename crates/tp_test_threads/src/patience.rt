//! How long the tests wait.

use std::thread;
use std::time::{Clock, Duration, Instant};

// A client waits at most this many seconds, for a server that listens or for another client.
const MOST: u64 = 20;

// It lets the others go on for this many milliseconds before it looks again.
const PAUSE: u64 = 1;

/// A time that ends.
#[derive(Drop)]
pub struct Patience {
    // When it began, where the clock said so.
    begun: Option<Instant>,
}

impl Patience {
    /// It begins.
    pub fn new<R: Clock>(rt: &R) -> Patience {
        Patience {
            begun: Instant::now(rt).ok(),
        }
    }

    /// Waits a little. Whether it lasts still.
    pub fn lasts<R: Clock>(&self, rt: &R) -> bool {
        thread::sleep(rt, Duration::from_millis(PAUSE));
        match self.begun {
            Some(begun) => begun
                .elapsed(rt)
                .is_ok_and(|so_far| so_far.as_secs() < MOST),
            None => false,
        }
    }
}
