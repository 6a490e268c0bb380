//! Searches in a text, 32 bytes at a time.

ghost use Rattle.std.specs.Prelude.{◌≡◌, ◌≢◌, ℕ, ◌<◌, ◌≤◌, ◌==◌, not, take, length, slice_index};
ghost use Rattle.std.specs.List.{prefix_len};
ghost use lib.Lanes.{chunk};

use std::simd::prelude::*;

/// Returns where the first space of a text is, or the length of a text without one.
pub fn find_space(text: &[u8]) -> usize
    ensures within { result ≤ length text.now }
    ensures before { (k : ℕ) → k < result → slice_index text.now k ≢ 32 }
    ensures at { result < length text.now → slice_index text.now result ≡ 32 }
{
    if text.len() >= 32 {
        let end = near_space(text);
        if end < 32 {
            return end;
        }
    }
    far_space(text)
}

/// Returns where the first space of 32 bytes is, or 32.
fn near_space(text: &[u8]) -> usize
    requires { 32 ≤ length text.now }
    ensures before { (k : ℕ) → k < result → slice_index text.now k ≢ 32 }
    ensures at { result < 32 → slice_index text.now result ≡ 32 }
{
    first_of_32(text, b' ')
}

/// Returns how many of 32 bytes come before the first one that equals this byte.
fn first_of_32(text: &[u8], byte: u8) -> usize
    requires { 32 ≤ length text.now }
    ensures { result ≡ prefix_len (λ x. not (x == byte)) (chunk 0 32 text.now) }
{
    let hits = u8x32::from_slice(text)
        .simd_eq(u8x32::splat(byte))
        .to_bitmask();
    if hits == 0 {
        32
    } else {
        hits.trailing_zeros() as usize
    }
}

/// Does what `find_space` does, byte by byte.
fn far_space(text: &[u8]) -> usize
    ensures within { result ≤ length text.now }
    ensures before { (k : ℕ) → k < result → slice_index text.now k ≢ 32 }
    ensures at { result < length text.now → slice_index text.now result ≡ 32 }
{
    let mut at = 0;
    while at < text.len() {
        if text[at] == b' ' {
            return at;
        }
        at += 1;
    }
    at
}

/// Returns how many of the first 32 bytes of two texts are the same, up to the first that differs.
pub fn same_bytes(text: &[u8], other: &[u8]) -> usize
    requires text { 32 ≤ length text.now }
    requires other { 32 ≤ length other.now }
    ensures most { result ≤ 32 }
    ensures same { (n : ℕ) → n ≤ result → take n text.now ≡ take n other.now }
{
    let differ = u8x32::from_slice(text)
        .simd_ne(u8x32::from_slice(other))
        .to_bitmask();
    if differ == 0 {
        32
    } else {
        differ.trailing_zeros() as usize
    }
}
