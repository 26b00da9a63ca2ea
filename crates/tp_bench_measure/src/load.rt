//! Calls on a peer, and through a seat of a served one.

ghost use Rattle.std.specs.Prelude.{◌≡◌};

use std::sync::Wait;
use tp_edit::Splice;
use tp_journal::MemJournal;
use tp_peer::Peer;
use tp_served::{Seat, Served};

// An edit of one character at the start.
const TYPED: Splice<'static> = Splice {
    at: 0,
    del: 0,
    text: "x",
};

/// What is called.
#[derive(Clone, Copy)]
pub enum Task {
    /// The text is read.
    Read,
    /// A character is typed at its start.
    Edit,
}

/// What is called, and how often.
#[derive(Clone, Copy)]
pub struct Load {
    task: Task,
    calls: usize,
}

impl Load {
    /// `calls` calls of the task.
    pub fn new(task: Task, calls: usize) -> Load {
        Load { task, calls }
    }

    /// How many calls there are.
    pub fn calls(&self) -> usize {
        self.calls
    }

    /// A half of the calls.
    pub fn half(self) -> Load {
        Load {
            task: self.task,
            calls: self.calls / 2,
        }
    }

    /// Makes the calls on a peer. How many were done.
    pub fn on_peer(self, peer: &mut Peer<MemJournal>) -> usize {
        let mut done = 0usize;
        for _ in 0..self.calls {
            let is_done = match self.task {
                Task::Read => peer.read().is_ok(),
                Task::Edit => peer.edit(&[TYPED], 0, "").is_ok(),
            };
            done = done.saturating_add(usize::from(is_done));
        }
        done
    }

    /// Makes the calls through a seat. How many were done.
    pub fn on_seat<R: Wait>(self, rt: &R, served: &Served<MemJournal>, seat: Seat) -> usize
        requires { seat.served ≡ served.now.served }
    {
        let mut seat = seat;
        let mut done = 0usize;
        for _ in 0..self.calls {
            let is_done = match self.task {
                Task::Read => served.read(rt, &mut seat).is_ok(),
                Task::Edit => served.edit(rt, &mut seat, &[TYPED], 0, "").is_ok(),
            };
            done = done.saturating_add(usize::from(is_done));
        }
        done
    }
}
