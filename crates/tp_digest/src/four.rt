//! Four messages side by side.
ghost use Rattle.std.specs.Prelude.{◌≡◌, ◌≢◌, ◌<◌, ◌≤◌, ℕ, slice_index, slice_index_or, [], ◌∷◌, map};
ghost use Rattle.sha2.specs.Sha256.{digest_bytes, sha256};
ghost use Rattle.tp_digest.specs.Lanes.{lane_of};

use crate::padded::Padded;
use crate::state::State;
use sha2::{Digest, Sha256};
use std::simd::prelude::*;

#[inline(always)]
fn longest_of(counts: &[usize; 4]) -> usize
    ensures { (k : ℕ) → k < 4 → slice_index counts.now k ≤ result }
{
    counts[0].max(counts[1]).max(counts[2].max(counts[3]))
}

/// Writes the digest of each message that has ended with as many blocks.
#[inline(always)]
fn write_ended(digests: &mut [[u8; 32]; 4], state: &State, counts: &[usize; 4], done: usize)
    ensures ended { (k : ℕ) → k < 4 → slice_index counts.now k ≡ done
        → slice_index_or digests.new k [] ≡ digest_bytes (lane_of state.now k) 8 }
    ensures others { (k : ℕ) → k < 4 → slice_index counts.now k ≢ done
        → slice_index_or digests.new k [] ≡ slice_index_or digests.old k [] }
{
    for lane in 0..4 {
        if counts[lane] == done {
            digests[lane] = state.digest(lane);
        }
    }
}

/// The digests of four messages, a block of each at a time.
#[inline(never)]
fn side_by_side(first: &Padded, second: &Padded, third: &Padded, fourth: &Padded) -> [[u8; 32]; 4]
    ensures { result ≡ sha256 first.now.message.now ∷ sha256 second.now.message.now
        ∷ sha256 third.now.message.now ∷ sha256 fourth.now.message.now ∷ [] }
{
    let counts = [
        first.blocks(),
        second.blocks(),
        third.blocks(),
        fourth.blocks(),
    ];
    let mut digests = [[0; 32]; 4];
    let mut words = [u32x4::splat(0); 64];
    let mut state = State::initial();
    for i in 0..longest_of(&counts) {
        let blocks = [
            first.block(i),
            second.block(i),
            third.block(i),
            fourth.block(i),
        ];
        state = state.after_blocks(&blocks, &mut words);
        write_ended(&mut digests, &state, &counts, i + 1);
    }
    digests
}

/// The SHA-256 digests of four messages, in their order.
///
/// They are taken side by side, a block of each at a time, as long as the longest goes on: four of like lengths take
/// less than twice the time of one. Where the longest has more than half of all blocks each is taken alone.
pub fn sha256_of_four(messages: [&[u8]; 4]) -> [[u8; 32]; 4]
    ensures { result ≡ map (λ m. sha256 m.now) messages.entry }
{
    let [first, second, third, fourth] = messages;
    let a = Padded::new(first);
    let b = Padded::new(second);
    let c = Padded::new(third);
    let d = Padded::new(fourth);
    let counts = [a.blocks(), b.blocks(), c.blocks(), d.blocks()];
    let all = counts[0] + counts[1] + counts[2] + counts[3];
    if longest_of(&counts) > all / 2 {
        [
            Sha256::digest(first),
            Sha256::digest(second),
            Sha256::digest(third),
            Sha256::digest(fourth),
        ]
    } else {
        side_by_side(&a, &b, &c, &d)
    }
}
