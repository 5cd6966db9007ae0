// The functions of FIPS 180-4, 4.1.2, on each lane.
ghost use Rattle.std.specs.Prelude.{◌≡◌, slice_index};
ghost use Rattle.sha2.specs.Sha256.{add32, big_sigma0, big_sigma1, ch, maj, small_sigma0};
ghost use Rattle.sha2.specs.Sha256.{small_sigma1};
ghost use Rattle.pot_lanes.specs.Lanes.{by_lane};

use std::simd::prelude::*;

#[inline(always)]
#[tactic(auto, unfolding(crate::specs::Lanes::by_lane))]
pub(crate) fn ch(x: u32x4, y: u32x4, z: u32x4) -> u32x4
    ensures { result ≡ by_lane (λ l. ch (slice_index x l) (slice_index y l) (slice_index z l)) }
{
    (x & y) ^ (!x & z)
}

#[inline(always)]
#[tactic(auto, unfolding(crate::specs::Lanes::by_lane))]
pub(crate) fn maj(x: u32x4, y: u32x4, z: u32x4) -> u32x4
    ensures { result ≡ by_lane (λ l. maj (slice_index x l) (slice_index y l) (slice_index z l)) }
{
    y ^ ((x ^ y) & (y ^ z))
}

// Rotations under XOR are shifts to the right and shifts to the left, each inside the next: as many
// operations, and a third of the copies of `x`.
#[inline(always)]
#[tactic(auto, unfolding(crate::specs::Lanes::by_lane))]
pub(crate) fn big_sigma0(x: u32x4) -> u32x4
    ensures { result ≡ by_lane (λ l. big_sigma0 (slice_index x l)) }
{
    let right = ((((x >> u32x4::splat(9)) ^ x) >> u32x4::splat(11)) ^ x) >> u32x4::splat(2);
    let left = ((((x << u32x4::splat(11)) ^ x) << u32x4::splat(9)) ^ x) << u32x4::splat(10);
    right ^ left
}

#[inline(always)]
#[tactic(auto, unfolding(crate::specs::Lanes::by_lane))]
pub(crate) fn big_sigma1(x: u32x4) -> u32x4
    ensures { result ≡ by_lane (λ l. big_sigma1 (slice_index x l)) }
{
    let right = ((((x >> u32x4::splat(14)) ^ x) >> u32x4::splat(5)) ^ x) >> u32x4::splat(6);
    let left = ((((x << u32x4::splat(5)) ^ x) << u32x4::splat(14)) ^ x) << u32x4::splat(7);
    right ^ left
}

#[inline(always)]
#[tactic(auto, unfolding(crate::specs::Lanes::by_lane))]
pub(crate) fn small_sigma0(x: u32x4) -> u32x4
    ensures { result ≡ by_lane (λ l. small_sigma0 (slice_index x l)) }
{
    let right = ((((x >> u32x4::splat(11)) ^ x) >> u32x4::splat(4)) ^ x) >> u32x4::splat(3);
    let left = ((x << u32x4::splat(11)) ^ x) << u32x4::splat(14);
    right ^ left
}

#[inline(always)]
#[tactic(auto, unfolding(crate::specs::Lanes::by_lane))]
pub(crate) fn small_sigma1(x: u32x4) -> u32x4
    ensures { result ≡ by_lane (λ l. small_sigma1 (slice_index x l)) }
{
    let right = ((((x >> u32x4::splat(2)) ^ x) >> u32x4::splat(7)) ^ x) >> u32x4::splat(10);
    let left = ((x << u32x4::splat(2)) ^ x) << u32x4::splat(13);
    right ^ left
}

#[inline(always)]
#[tactic(auto, unfolding(crate::specs::Lanes::by_lane))]
pub(crate) fn add(x: u32x4, y: u32x4) -> u32x4
    ensures { result ≡ by_lane (λ l. add32 (slice_index x l) (slice_index y l)) }
{
    x + y
}

// A round's T 1 and T 2 (6.2.2, step 3).
#[inline(always)]
#[tactic(auto, unfolding(crate::specs::Lanes::by_lane))]
pub(crate) fn temp1(e: u32x4, f: u32x4, g: u32x4, h: u32x4, k: u32, word: u32x4) -> u32x4
    ensures { result
        ≡ by_lane (λ l. add32 (add32 (add32 (add32 (slice_index h l) (big_sigma1 (slice_index e l)))
        (ch (slice_index e l) (slice_index f l) (slice_index g l))) k) (slice_index word l)) }
{
    h + big_sigma1(e) + ch(e, f, g) + u32x4::splat(k) + word
}

#[inline(always)]
#[tactic(auto, unfolding(crate::specs::Lanes::by_lane))]
pub(crate) fn temp2(a: u32x4, b: u32x4, c: u32x4) -> u32x4
    ensures { result
        ≡ by_lane (λ l. add32 (big_sigma0 (slice_index a l))
        (maj (slice_index a l) (slice_index b l) (slice_index c l))) }
{
    big_sigma0(a) + maj(a, b, c)
}
