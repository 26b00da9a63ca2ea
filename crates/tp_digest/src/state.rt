//! The hash values of four messages, and what a block of each does to them (FIPS 180-4, 6.2.2).
ghost use Rattle.std.specs.Prelude.{◌≡◌, ◌+◌, ◌<◌, ◌≤◌, ℕ, slice_index, slice_index_or, List, []};
ghost use Rattle.sha2.specs.Sha256.{add_state, compress, digest_bytes, initial_hash_256, round, rounds};

use crate::schedule::write_schedule;
use crate::words::{big_sigma0, big_sigma1, choose, majority, sum};
use std::simd::prelude::*;

/// K 0, .., K 63 (4.2.2).
const ROUND_CONSTANTS: [u32; 64] = [
    0x428a2f98, 0x71374491, 0xb5c0fbcf, 0xe9b5dba5, 0x3956c25b, 0x59f111f1, 0x923f82a4, 0xab1c5ed5,
    0xd807aa98, 0x12835b01, 0x243185be, 0x550c7dc3, 0x72be5d74, 0x80deb1fe, 0x9bdc06a7, 0xc19bf174,
    0xe49b69c1, 0xefbe4786, 0x0fc19dc6, 0x240ca1cc, 0x2de92c6f, 0x4a7484aa, 0x5cb0a9dc, 0x76f988da,
    0x983e5152, 0xa831c66d, 0xb00327c8, 0xbf597fc7, 0xc6e00bf3, 0xd5a79147, 0x06ca6351, 0x14292967,
    0x27b70a85, 0x2e1b2138, 0x4d2c6dfc, 0x53380d13, 0x650a7354, 0x766a0abb, 0x81c2c92e, 0x92722c85,
    0xa2bfe8a1, 0xa81a664b, 0xc24b8b70, 0xc76c51a3, 0xd192e819, 0xd6990624, 0xf40e3585, 0x106aa070,
    0x19a4c116, 0x1e376c08, 0x2748774c, 0x34b0bcb5, 0x391c0cb3, 0x4ed8aa4a, 0x5b9cca4f, 0x682e6ff3,
    0x748f82ee, 0x78a5636f, 0x84c87814, 0x8cc70208, 0x90befffa, 0xa4506ceb, 0xbef9a3f7, 0xc67178f2,
];

/// Eight words, each in four lanes: lane k is of message k.
#[derive(Clone, Copy)]
pub(crate) struct State {
    a: u32x4,
    b: u32x4,
    c: u32x4,
    d: u32x4,
    e: u32x4,
    f: u32x4,
    g: u32x4,
    h: u32x4,
}

impl State {
    ghost use Rattle.tp_digest.specs.Lanes.{lane_of, lane_words};

    /// The initial hash value in each lane (5.3.3).
    #[inline(always)]
    pub(crate) fn initial() -> State
        ensures { (k : ℕ) → k < 4 → lane_of result k ≡ initial_hash_256 }
    {
        State {
            a: u32x4::splat(0x6a09e667),
            b: u32x4::splat(0xbb67ae85),
            c: u32x4::splat(0x3c6ef372),
            d: u32x4::splat(0xa54ff53a),
            e: u32x4::splat(0x510e527f),
            f: u32x4::splat(0x9b05688c),
            g: u32x4::splat(0x1f83d9ab),
            h: u32x4::splat(0x5be0cd19),
        }
    }

    /// One round on the working variables (6.2.2, step 3).
    #[inline(always)]
    fn round(self, constant: u32, word: u32x4) -> State
        ensures { (k : ℕ) → k < 4
            → lane_of result k ≡ round (lane_of self k) constant (slice_index word k) }
    {
        let chosen = choose(self.e, self.f, self.g);
        let temp1 = sum(
            sum(
                sum(sum(self.h, big_sigma1(self.e)), chosen),
                u32x4::splat(constant),
            ),
            word,
        );
        let temp2 = sum(big_sigma0(self.a), majority(self.a, self.b, self.c));
        State {
            a: sum(temp1, temp2),
            b: self.a,
            c: self.b,
            d: self.c,
            e: sum(self.d, temp1),
            f: self.e,
            g: self.f,
            h: self.g,
        }
    }

    /// The state with another's words added to it (6.2.2, step 4).
    #[inline(always)]
    fn plus(self, other: State) -> State
        ensures { (k : ℕ) → k < 4 → lane_of result k ≡ add_state (lane_of self k) (lane_of other k) }
    {
        State {
            a: sum(self.a, other.a),
            b: sum(self.b, other.b),
            c: sum(self.c, other.c),
            d: sum(self.d, other.d),
            e: sum(self.e, other.e),
            f: sum(self.f, other.f),
            g: sum(self.g, other.g),
            h: sum(self.h, other.h),
        }
    }

    /// Round t, with K t and W t.
    #[inline(always)]
    fn round_at(self, words: &[u32x4; 64], t: usize) -> State
        requires { t < 64 }
        ensures { (k : ℕ) (h : List ℕ) → k < 4 → lane_of self k ≡ rounds h (lane_words words.now k) t
            → lane_of result k ≡ rounds h (lane_words words.now k) (t + 1) }
    {
        self.round(ROUND_CONSTANTS[t], words[t])
    }

    /// Eight rounds from round t on, in a row: so no word is moved from one variable to the next between them.
    #[inline(always)]
    fn eight_rounds(self, words: &[u32x4; 64], t: usize) -> State
        requires { t + 8 ≤ 64 }
        ensures { (k : ℕ) (h : List ℕ) → k < 4 → lane_of self k ≡ rounds h (lane_words words.now k) t
            → lane_of result k ≡ rounds h (lane_words words.now k) (t + 8) }
    {
        let half = self
            .round_at(words, t)
            .round_at(words, t + 1)
            .round_at(words, t + 2)
            .round_at(words, t + 3);
        half.round_at(words, t + 4)
            .round_at(words, t + 5)
            .round_at(words, t + 6)
            .round_at(words, t + 7)
    }

    /// The state after 64 rounds with these words.
    #[inline(always)]
    fn after_rounds(self, words: &[u32x4; 64]) -> State
        ensures { (k : ℕ) → k < 4
            → lane_of result k ≡ rounds (lane_of self k) (lane_words words.now k) 64 }
    {
        let mut working = self;
        for eighth in 0..8 {
            working = working.eight_rounds(words, 8 * eighth);
        }
        working
    }

    /// The state after one more block of each message. The words are room for the schedule.
    #[inline(always)]
    pub(crate) fn after_blocks(self, blocks: &[[u8; 64]; 4], words: &mut [u32x4; 64]) -> State
        ensures { (k : ℕ) → k < 4 → lane_of result k ≡ compress (lane_of self k) (slice_index_or blocks.now k []) }
    {
        write_schedule(words, blocks);
        self.plus(self.after_rounds(words))
    }

    /// The words of one lane.
    fn lane(&self, lane: usize) -> [u32; 8]
        requires { lane < 4 }
        ensures { result ≡ lane_of self.now lane }
    {
        [
            self.a.to_array()[lane],
            self.b.to_array()[lane],
            self.c.to_array()[lane],
            self.d.to_array()[lane],
            self.e.to_array()[lane],
            self.f.to_array()[lane],
            self.g.to_array()[lane],
            self.h.to_array()[lane],
        ]
    }

    /// The digest in one lane: its words, high byte first.
    pub(crate) fn digest(&self, lane: usize) -> [u8; 32]
        requires { lane < 4 }
        ensures { result ≡ digest_bytes (lane_of self.now lane) 8 }
    {
        let mut bytes = [0; 32];
        let words = self.lane(lane);
        for (i, word) in words.iter().enumerate() {
            bytes[4 * i..4 * i + 4].copy_from_slice(&word.to_be_bytes());
        }
        bytes
    }
}
