//! Under whom windows edit.

use crate::head::earlier_actor;
use rand_chacha::ChaCha20Rng;
use rand_core::SeedableRng;
use std::alloc::Global;
use tp_opid::Actor;
use tp_peer::fresh_actor;
use tp_window::Window;

// A page gets the actor of a connection again that is at most this many before its own.
const MOST_EARLIER: u64 = 4096;

/// The actors of a page's windows, from one connection on: each connection has one, which is drawn from the key by its number.
/// No two of them are the same, but for chance.
#[derive(Clone, Copy)]
pub(crate) struct Actors {
    /// What they are drawn from.
    pub key: [u8; 32],
    /// The number of the connection, from 1 in the order of acceptance.
    pub number: u64,
}

impl Actors {
    // That of the connection with the number.
    fn at(&self, number: u64) -> Actor {
        let mut generator = ChaCha20Rng::from_seed(self.key);
        generator.set_stream(number);
        fresh_actor(&mut generator)
    }

    // Whether the actor is that of a connection before this one. Only the last of these are asked.
    fn has_earlier(&self, actor: &Actor) -> bool {
        for number in self.number.saturating_sub(MOST_EARLIER).max(1)..self.number {
            if self.at(number).is(actor) {
                return true;
            }
        }
        false
    }

    /// The window that the request asks for, whose head the bytes begin with: of an actor of its own, or of the earlier one that
    /// its page names. So an edit that came twice, on a connection that was cut off and on the next, is made once: an actor makes
    /// no second change on the same heads.
    pub(crate) fn window(&self, alloc: Global, request: &[u8]) -> Window {
        match earlier_actor(request) {
            Some(actor) if self.has_earlier(&actor) => Window::new(alloc, actor),
            _ => Window::new(alloc, self.at(self.number)),
        }
    }
}
