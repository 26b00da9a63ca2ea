//! Digests taken ahead.
ghost use Rattle.std.specs.Prelude.{[], map, slice_index_or, ◌<◌, ◌≡◌, ℕ, true, IsTrue};
ghost use Rattle.sha2.specs.Sha256.{sha256};

use crate::four::sha256_of_four;
use sha2::{Digest, Sha256};

/// Four pieces whose digests are expected to be asked for next, in this order.
///
/// What is expected is a hint: the answer to `digest` is right whatever it is asked for. The digests are taken once the
/// first of them is asked for, and not where one of the pieces is longer than 4,096 bytes, or than twice the first and
/// 256. So whoever asks for a digest only after a look at the piece, and ends at a fault, has waited for three pieces
/// in vain at most, of 12,288 bytes together at most, whatever lengths another chose.
#[derive(Drop)]
pub struct Ahead<'a> {
    pieces: [&'a [u8]; 4],
    digests: [[u8; 32]; 4],
    next: usize,
    is_taken: bool,
    ghost ready: { IsTrue is_taken → (k : ℕ) → k < 4
        → slice_index_or digests k [] ≡ slice_index_or (map (λ piece. sha256 piece.now) pieces) k [] },
}

// The most bytes of a piece whose digest is taken beside others. Changes of typing have some hundred; for a long piece
// what is saved is little beside what a fault after it would cost.
const LONGEST: usize = 4_096;

// Whether none of the pieces is longer than that, or than twice the first and 256 bytes.
fn are_alike(pieces: &[&[u8]; 4]) -> bool {
    let most = pieces[0]
        .len()
        .saturating_mul(2)
        .saturating_add(256)
        .min(LONGEST);
    pieces.iter().all(|piece| piece.len() <= most)
}

impl<'a> Ahead<'a> {
    /// Nothing is expected.
    pub fn none() -> Ahead<'a> {
        Ahead {
            pieces: [&[], &[], &[], &[]],
            digests: [[0; 32]; 4],
            next: 4,
            is_taken: false,
        }
    }

    /// Expects these pieces. For fewer than four write empty ones after them.
    pub fn of(pieces: [&'a [u8]; 4]) -> Ahead<'a> {
        Ahead {
            pieces,
            digests: [[0; 32]; 4],
            next: 0,
            is_taken: false,
        }
    }

    /// Whether none of the pieces is expected any more.
    pub fn is_used_up(&self) -> bool {
        self.next >= 4
    }

    // Whether the digests are there: they are taken at once, where the pieces are alike. Else nothing is expected any
    // more.
    fn take(&mut self) -> bool
        ensures pieces { self.new.pieces ≡ self.old.pieces }
        ensures next { IsTrue result → self.new.next ≡ self.old.next }
        ensures taken { IsTrue result → IsTrue self.new.is_taken }
    {
        if self.is_taken {
            return true;
        }
        if !are_alike(&self.pieces) {
            self.next = 4;
            return false;
        }
        self.digests = sha256_of_four(self.pieces);
        self.is_taken = true;
        true
    }

    /// The SHA-256 digest of any bytes: if they are the piece that is expected next, the one taken beside those of the
    /// other pieces, and then it has been asked for; and else it is taken now, and what is expected stays.
    pub fn digest(&mut self, bytes: &[u8]) -> [u8; 32]
        ensures { result ≡ sha256 bytes.now }
    {
        if self.next < 4 {
            let piece = self.pieces[self.next];
            if piece == bytes && self.take() {
                let digest = self.digests[self.next];
                self.next += 1;
                return digest;
            }
        }
        Sha256::digest(bytes)
    }
}
