//! How many changes a session moves.

use tp_peer::{Outgoing, PeerError, Received};

/// How many changes the messages of a session brought and carried, up to 2^64 - 1 each.
#[derive(Clone, Copy, Debug, PartialEq, Eq)]
pub struct Tally {
    /// Those that entered here.
    pub entered: u64,
    /// Those that were sent to the other side, which may have had them.
    pub sent: u64,
}

// The number with which the bytes begin, in 4 bytes, and the bytes after it; 0 and none where they are fewer.
fn count_of(bytes: &[u8]) -> (u32, &[u8]) {
    match bytes {
        [a, b, c, d, rest @ ..] => (u32::from_be_bytes([*a, *b, *c, *d]), rest),
        _ => (0, &[]),
    }
}

// The bytes after a list of hashes, with its count before it; none where they end within it.
fn after_hashes(bytes: &[u8]) -> &[u8] {
    let (count, rest) = count_of(bytes);
    rest.get(32 * count as usize..).unwrap_or(&[])
}

// How many changes a message of version 2 carries: their count is after the version and three lists of hashes.
fn changes_in(message: &[u8]) -> u32 {
    let lists = message.get(1..).unwrap_or(&[]);
    count_of(after_hashes(after_hashes(after_hashes(lists)))).0
}

impl Tally {
    /// No change yet.
    pub(crate) fn new() -> Tally {
        Tally {
            entered: 0,
            sent: 0,
        }
    }

    /// Counts the changes that entered by a message, if it was received.
    pub(crate) fn receive(&mut self, received: &Result<Received, PeerError>) {
        if let Ok(received) = received {
            let more = received.applied.applied.len() as u64;
            self.entered = self.entered.saturating_add(more);
        }
    }

    /// Counts the changes that a message carries, if one was made.
    pub(crate) fn send(&mut self, made: &Result<Option<Outgoing>, PeerError>) {
        if let Ok(Some(message)) = made {
            let more = u64::from(changes_in(&message.bytes));
            self.sent = self.sent.saturating_add(more);
        }
    }
}
