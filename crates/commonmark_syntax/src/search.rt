//! Searches in bytes, 16 at a time.

ghost use Rattle.std.specs.Int.{bit_at};
ghost use Rattle.std.specs.Prelude.{◌≡◌, ◌≢◌, ◌==◌, ℕ, ◌<◌, ◌≤◌, cond, length, slice_index, true};

use crate::class::PlainClass;
use byte_masks::{first_of, places};

/// Returns how many bytes at the start of a text are in a class.
pub(crate) fn plain_length<C: PlainClass>(text: &[u8]) -> usize
    ensures most { result ≤ length text.now }
    ensures plain { (k : ℕ) → k < result → C.class (slice_index text.now k) ≡ true }
{
    if text.len() < 16 {
        return plain_length_of_few::<C>(text);
    }
    let last = text.len() - 16;
    let mut size = 0;
    while size < last {
        let more = plain_length_of_16::<C>(&text[size..]);
        if more < 16 {
            return size + more;
        }
        size += 16;
    }
    last + plain_length_of_16::<C>(&text[last..])
}

/// Does what `plain_length` does, byte by byte.
fn plain_length_of_few<C: PlainClass>(text: &[u8]) -> usize
    ensures most { result ≤ length text.now }
    ensures plain { (k : ℕ) → k < result → C.class (slice_index text.now k) ≡ true }
{
    let mut size = 0;
    while size < text.len() && C::has(text[size]) {
        size += 1;
    }
    size
}

/// Returns how many of the first 16 bytes of a text come before one that is not in a class.
#[inline(always)]
fn plain_length_of_16<C: PlainClass>(text: &[u8]) -> usize
    requires { 16 ≤ length text.now }
    ensures most { result ≤ 16 }
    ensures plain { (k : ℕ) → k < result → C.class (slice_index text.now k) ≡ true }
{
    first_of(C::others(text))
}

/// Returns where a byte first is in a text, or the length of a text without it.
pub(crate) fn find_byte(text: &[u8], of: u8) -> usize
    ensures most { result ≤ length text.now }
    ensures before { (k : ℕ) → k < result → slice_index text.now k ≢ of }
    ensures at { result < length text.now → slice_index text.now result ≡ of }
{
    if text.len() < 16 {
        return find_byte_in_few(text, of);
    }
    let last = text.len() - 16;
    let mut at = 0;
    while at < last {
        let before = find_byte_in_16(&text[at..], of);
        if before < 16 {
            return at + before;
        }
        at += 16;
    }
    last + find_byte_in_16(&text[last..], of)
}

/// Does what `find_byte` does, byte by byte.
fn find_byte_in_few(text: &[u8], of: u8) -> usize
    ensures most { result ≤ length text.now }
    ensures before { (k : ℕ) → k < result → slice_index text.now k ≢ of }
    ensures at { result < length text.now → slice_index text.now result ≡ of }
{
    let mut at = 0;
    while at < text.len() && text[at] != of {
        at += 1;
    }
    at
}

/// Does what `find_byte` does, in the first 16 bytes of a text.
#[inline(always)]
fn find_byte_in_16(text: &[u8], of: u8) -> usize
    requires { 16 ≤ length text.now }
    ensures most { result ≤ 16 }
    ensures before { (k : ℕ) → k < result → slice_index text.now k ≢ of }
    ensures at { result < 16 → slice_index text.now result ≡ of }
{
    first_of(places(text, of))
}
