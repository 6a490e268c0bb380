//! Searches in bytes, 16 at a time.

ghost use Rattle.std.specs.Prelude.{◌≡◌, ◌≢◌, ℕ, ◌<◌, ◌≤◌, ◌==◌, length, nat_lt, not, slice_index};
ghost use Rattle.std.specs.List.{prefix_len};
ghost use lib.Lanes.{chunk};

use std::simd::prelude::*;

/// Returns where the first control character of a text is, which is a byte below the space, or the
/// length of a text without one.
///
/// In `a⏎b` it is at 1.
pub fn find_control(text: &[u8]) -> usize
    ensures within { result ≤ length text.now }
    ensures before { (k : ℕ) → k < result → 32 ≤ slice_index text.now k }
    ensures at { result < length text.now → slice_index text.now result < 32 }
{
    let mut at = 0;
    while text.len() - at >= 16 {
        let before = first_below(&text[at..], b' ');
        if before < 16 {
            return at + before;
        }
        at += 16;
    }
    at + find_control_in_few(&text[at..])
}

/// Does what `find_control` does, byte by byte.
fn find_control_in_few(text: &[u8]) -> usize
    ensures within { result ≤ length text.now }
    ensures before { (k : ℕ) → k < result → 32 ≤ slice_index text.now k }
    ensures at { result < length text.now → slice_index text.now result < 32 }
{
    let mut at = 0;
    while at < text.len() && text[at] >= b' ' {
        at += 1;
    }
    at
}

/// Returns how many of the first 16 bytes of a text come before one that is below a limit.
///
/// Of sixteen letters with a tab as the third, 2 come before one below the space.
#[inline(always)]
pub fn first_below(text: &[u8], limit: u8) -> usize
    requires { 16 ≤ length text.now }
    ensures most { result ≤ 16 }
    ensures before { (k : ℕ) → k < result → limit ≤ slice_index text.now k }
    ensures at { result < 16 → slice_index text.now result < limit }
{
    before_below(text, limit)
}

/// Returns how many of the first 16 bytes of a text come before one that equals this byte.
///
/// Of sixteen letters with a quote as the third, 2 come before a quote.
#[inline(always)]
pub fn first_equal(text: &[u8], byte: u8) -> usize
    requires { 16 ≤ length text.now }
    ensures most { result ≤ 16 }
    ensures before { (k : ℕ) → k < result → slice_index text.now k ≢ byte }
    ensures at { result < 16 → slice_index text.now result ≡ byte }
{
    before_equal(text, byte)
}

/// Does what `first_below` does. Specified by the lanes.
#[inline(always)]
fn before_below(text: &[u8], limit: u8) -> usize
    requires { 16 ≤ length text.now }
    ensures { result ≡ prefix_len (λ x. not (nat_lt x limit)) (chunk 0 16 text.now) }
{
    let hits = u8x16::from_slice(text)
        .simd_lt(u8x16::splat(limit))
        .to_bitmask();
    if hits == 0 {
        16
    } else {
        hits.trailing_zeros() as usize
    }
}

/// Does what `first_equal` does. Specified by the lanes.
#[inline(always)]
fn before_equal(text: &[u8], byte: u8) -> usize
    requires { 16 ≤ length text.now }
    ensures { result ≡ prefix_len (λ x. not (x == byte)) (chunk 0 16 text.now) }
{
    let hits = u8x16::from_slice(text)
        .simd_eq(u8x16::splat(byte))
        .to_bitmask();
    if hits == 0 {
        16
    } else {
        hits.trailing_zeros() as usize
    }
}
