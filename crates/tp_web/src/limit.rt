//! How many of something may be open at once.

ghost use Rattle.std.specs.Prelude.{◌≡◌, ◌+◌, ◌-◌, ◌<◌, ◌≤◌, ◌↔◌, IsTrue};
ghost use Rattle.std.specs.Bool.{OnFalse, OnTrue};

use std::sync::{Mutex, Wait};

// How many are open, and how many may be.
#[derive(Drop)]
struct Open {
    count: u64,
    most: u64,
    ghost few: { count ≤ most },
}

impl Open {
    // Counts one more, where it may be open.
    fn enter(&mut self) -> bool
        ensures may { IsTrue result ↔ (self.old.count < self.old.most) }
        ensures entered { OnTrue result (self.new.count ≡ self.old.count + 1) }
        ensures refused { OnFalse result (self.new.count ≡ self.old.count) }
        ensures most { self.new.most ≡ self.old.most }
    {
        if self.count >= self.most {
            return false;
        }
        self.count += 1;
        true
    }

    // One that was open isn't any more.
    fn leave(&mut self)
        ensures left { self.new.count ≡ self.old.count - 1 }
        ensures most { self.new.most ≡ self.old.most }
    {
        self.count = self.count.saturating_sub(1);
    }
}

/// Counts what is open, for many threads.
#[derive(Drop)]
pub(crate) struct Limit {
    open: Mutex<Open>,
}

impl Limit {
    /// Nothing is open, and that many may be.
    pub(crate) fn new(most: u64) -> Limit {
        Limit {
            open: Mutex::new(Open { count: 0, most }),
        }
    }

    /// Counts one more, and says whether it may be open.
    pub(crate) fn enter<R: Wait>(&self, rt: &R) -> bool {
        self.open.lock(rt).enter()
    }

    /// One that was counted isn't open any more.
    pub(crate) fn leave<R: Wait>(&self, rt: &R) {
        self.open.lock(rt).leave();
    }
}
