//! What a page's program and its windows know, and nobody else.

use rand_chacha::ChaCha20Rng;
use rand_core::{Rng, SeedableRng};

/// What makes a page one of this run of the program. Both are to be drawn from the system, anew for each run.
#[derive(Clone, Copy)]
pub struct Secret {
    /// The key that a page has to know.
    pub key: [u8; 16],
    /// What the program's challenges are drawn from.
    pub challenges: [u8; 32],
}

impl Secret {
    /// The challenge to the page of the connection with the number, from 1. That of each number is another one, but for chance.
    pub(crate) fn challenge(&self, number: u64) -> [u8; 16] {
        let mut generator = ChaCha20Rng::from_seed(self.challenges);
        generator.set_stream(number);
        let mut challenge = [0; 16];
        generator.fill_bytes(&mut challenge);
        challenge
    }
}
