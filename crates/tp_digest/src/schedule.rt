//! The message schedule of four blocks (FIPS 180-4, 6.2.2, step 1).
ghost use Rattle.std.specs.Prelude.{◌≡◌, ◌<◌, ◌≤◌, ◌+◌, ℕ, slice_index_or, []};
ghost use Rattle.sha2.specs.Sha256.{next_word, schedule, word_at};
ghost use Rattle.tp_digest.specs.Lanes.{HasInLanes, lane_words};

use crate::words::{small_sigma0, small_sigma1, sum};
use std::simd::prelude::*;

/// The word at a byte of a block, high byte first (5.2.1).
#[inline(always)]
fn word_at(block: &[u8; 64], at: usize) -> u32
    requires { at + 4 ≤ 64 }
    ensures { result ≡ word_at block.now at }
{
    u32::from_be_bytes([block[at], block[at + 1], block[at + 2], block[at + 3]])
}

/// W t, from the words before it.
#[inline(always)]
fn next_word(words: &[u32x4; 64], t: usize) -> u32x4
    requires from { 16 ≤ t }
    requires below { t < 64 }
    ensures { HasInLanes result (λ k. next_word (lane_words words.now k) t) }
{
    let recent = sum(small_sigma1(words[t - 2]), words[t - 7]);
    sum(sum(recent, small_sigma0(words[t - 15])), words[t - 16])
}

/// Writes W 0, .., W 63 of four blocks, whatever was there.
#[inline(always)]
pub(crate) fn write_schedule(words: &mut [u32x4; 64], blocks: &[[u8; 64]; 4])
    ensures { (k : ℕ) → k < 4 → lane_words words.new k ≡ schedule (slice_index_or blocks.now k []) 48 }
{
    for t in 0..16 {
        words[t] = u32x4::from_array([
            word_at(&blocks[0], 4 * t),
            word_at(&blocks[1], 4 * t),
            word_at(&blocks[2], 4 * t),
            word_at(&blocks[3], 4 * t),
        ]);
    }
    for t in 16..64 {
        words[t] = next_word(words, t);
    }
}
