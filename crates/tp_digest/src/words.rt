//! The functions of FIPS 180-4, 4.1.2, on four words at once.
ghost use Rattle.std.specs.Prelude.{◌<◌, slice_index};
ghost use Rattle.std.specs.Int.{w32, rotate_right};
ghost use Rattle.sha2.specs.Sha256.{add32, big_sigma0, big_sigma1, ch, maj, small_sigma0, small_sigma1};
ghost use Rattle.tp_digest.specs.Lanes.{HasInLanes};

use std::simd::prelude::*;

#[inline(always)]
fn rotate_lanes(x: u32x4, by: u32) -> u32x4
    requires positive { 0 < by }
    requires below { by < 32 }
    ensures { HasInLanes result (λ k. rotate_right w32 (slice_index x k) by) }
{
    (x >> by) | (x << (32 - by))
}

#[inline(always)]
pub(crate) fn sum(x: u32x4, y: u32x4) -> u32x4
    ensures { HasInLanes result (λ k. add32 (slice_index x k) (slice_index y k)) }
{
    x + y
}

#[inline(always)]
pub(crate) fn choose(x: u32x4, y: u32x4, z: u32x4) -> u32x4
    ensures { HasInLanes result (λ k. ch (slice_index x k) (slice_index y k) (slice_index z k)) }
{
    (x & y) ^ (!x & z)
}

#[inline(always)]
pub(crate) fn majority(x: u32x4, y: u32x4, z: u32x4) -> u32x4
    ensures { HasInLanes result (λ k. maj (slice_index x k) (slice_index y k) (slice_index z k)) }
{
    (x & y) ^ (x & z) ^ (y & z)
}

#[inline(always)]
pub(crate) fn big_sigma0(x: u32x4) -> u32x4
    ensures { HasInLanes result (λ k. big_sigma0 (slice_index x k)) }
{
    rotate_lanes(x, 2) ^ rotate_lanes(x, 13) ^ rotate_lanes(x, 22)
}

#[inline(always)]
pub(crate) fn big_sigma1(x: u32x4) -> u32x4
    ensures { HasInLanes result (λ k. big_sigma1 (slice_index x k)) }
{
    rotate_lanes(x, 6) ^ rotate_lanes(x, 11) ^ rotate_lanes(x, 25)
}

#[inline(always)]
pub(crate) fn small_sigma0(x: u32x4) -> u32x4
    ensures { HasInLanes result (λ k. small_sigma0 (slice_index x k)) }
{
    rotate_lanes(x, 7) ^ rotate_lanes(x, 18) ^ (x >> 3)
}

#[inline(always)]
pub(crate) fn small_sigma1(x: u32x4) -> u32x4
    ensures { HasInLanes result (λ k. small_sigma1 (slice_index x k)) }
{
    rotate_lanes(x, 17) ^ rotate_lanes(x, 19) ^ (x >> 10)
}
