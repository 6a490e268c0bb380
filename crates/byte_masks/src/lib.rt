//! Masks of the first 16 bytes of a text: numbers with a bit for each byte, for searches that look
//! at 16 bytes at a time.
//!
//! Bit 0 is for the first byte. The lemmas on masks that are computed lane by lane are in
//! `proofs/Lanes.antt`.
#![tactic(auto)]

ghost use Rattle.std.specs.Int.{bit_at};
ghost use Rattle.std.specs.Prelude.{◌≡◌, ◌==◌, ℕ, ◌<◌, ◌≤◌, cond, length, slice_index};

use std::simd::prelude::*;

/// Returns a number with a bit for each of the first 16 bytes of a text, which is set where the
/// byte is this one.
///
/// In `a-b-............` the bits of `-` are 1 and 3, so the number is 10.
#[inline(always)]
pub fn places(text: &[u8], byte: u8) -> u64
    requires { 16 ≤ length text.now }
    ensures { (k : ℕ) → k < 16 → bit_at result k ≡ cond (slice_index text.now k == byte) 1 0 }
{
    u8x16::from_slice(text)
        .simd_eq(u8x16::splat(byte))
        .to_bitmask()
}

/// Returns the place of the lowest of 16 bits that is set, or 16 if none is.
///
/// Of 10 it is 1, and of 0 it is 16.
#[inline(always)]
pub fn first_of(bits: u64) -> usize
    ensures most { result ≤ 16 }
    ensures before { (k : ℕ) → k < result → bit_at bits k ≡ 0 }
    ensures at { result < 16 → bit_at bits result ≡ 1 }
{
    if bits == 0 {
        16
    } else {
        (bits.trailing_zeros() as usize).min(16)
    }
}
