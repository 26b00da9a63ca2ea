//! A journal at whose appends a thread can be held.

ghost use Rattle.std.specs.Prelude.{◌≡◌};
ghost use Rattle.tp_journal.specs.Journal.{no_device};

use std::alloc::Global;
use std::sync::Arc;
use std::sync::atomic::{AtomicBool, Ordering};
use std::thread;
use tp_journal::{Journal, JournalError, MemJournal};

/// How often a thread looks for another at most, so that none waits for ever.
const MOST_LOOKS: u64 = 20_000_000;

/// A gate, open or closed. A thread that comes to it while it is closed is held there.
#[derive(Drop)]
pub struct Gate {
    is_closed: AtomicBool,
    is_come_to: AtomicBool,
}

impl Gate {
    /// An open gate.
    pub fn new() -> Gate {
        Gate {
            is_closed: AtomicBool::new(false),
            is_come_to: AtomicBool::new(false),
        }
    }

    /// Holds each thread that comes.
    pub fn close(&self) {
        self.is_closed.store(true, Ordering::SeqCst);
    }

    /// Lets all go on.
    pub fn open(&self) {
        self.is_closed.store(false, Ordering::SeqCst);
    }

    // Goes on once it is open.
    fn pass(&self) {
        for _ in 0..MOST_LOOKS {
            if !self.is_closed.load(Ordering::SeqCst) {
                break;
            }
            self.is_come_to.store(true, Ordering::SeqCst);
            thread::yield_now();
        }
    }

    /// Waits until a thread is held. Whether one is.
    pub fn holds_one(&self) -> bool {
        for _ in 0..MOST_LOOKS {
            if self.is_come_to.load(Ordering::SeqCst) {
                return true;
            }
            thread::yield_now();
        }
        false
    }
}

/// A journal in memory, each of whose appends goes through a gate.
#[derive(Drop)]
pub struct GatedJournal {
    /// Where the bytes are.
    pub memory: MemJournal,
    /// The gate.
    pub gate: Arc<Gate, Global>,
}

impl Journal for GatedJournal {
    ghost content = { λ j. j.memory };

    ghost device = { λ _. no_device };

    ghost is_settled = { λ _. Unit {0} };

    fn append(&mut self, bytes: &[u8]) -> Result<(), JournalError> {
        self.gate.pass();
        self.memory.append(bytes)
    }

    fn settle(&mut self) -> Result<(), JournalError> {
        self.memory.settle()
    }

    fn cut(&mut self, len: u64) -> Result<(), JournalError> {
        self.memory.cut(len)
    }

    fn read_all(&mut self) -> Result<Vec<u8>, JournalError> {
        self.memory.read_all()
    }

    fn failures(&self) -> u64 {
        0
    }
}
