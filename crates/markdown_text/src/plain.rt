//! Plain bytes: those of a text at which no construct may begin.

ghost use Rattle.std.specs.Int.{bit_at};
ghost use Rattle.std.specs.Prelude.{◌≡◌, ◌≤◌, ◌<◌, ◌+◌, ℕ, ◌&&◌, cond, false, length, not, slice_index, true};
ghost use Rattle.commonmark_syntax.specs.Inlines.{is_in_any_case};
ghost use Rattle.commonmark_syntax.specs.Syntax.{is_letter};
ghost use Rattle.markdown_attention.specs.ExtendedAddresses.{may_come_before, may_come_before_www};
ghost use Rattle.markdown_text.specs.Plain.{is_first_letter, is_mark, is_scheme_letter, may_begin};

use crate::gfm_autolink_literal::may_come_before;
use byte_masks::first_of;
use std::simd::prelude::*;

/// Returns how many bytes of a text, after the first, are plain: no construct may begin at them. With
/// `literals`, extended autolinks are among the constructs.
///
/// In `a b*c*` they are 2.
pub fn plain_length(text: &[u8], literals: bool) -> usize
    requires { 0 < length text.now }
    ensures within { result < length text.now }
    ensures plain { (k : ℕ) → k < result → may_begin literals (slice_index text.now k) (slice_index text.now (k + 1)) ≡ false }
    ensures next { result + 1 < length text.now → may_begin literals (slice_index text.now result) (slice_index text.now (result + 1)) ≡ true }
    ensures ascii { result + 1 < length text.now → slice_index text.now (result + 1) < 128 }
{
    let mut size = 0;
    while text.len() - size > 16 {
        let more = plain_length_of_16(&text[size..], literals);
        if more < 16 {
            return size + more;
        }
        size += 16;
    }
    size + plain_length_of_few(&text[size..], literals)
}

/// Whether a text has bytes and all of them are plain: no construct may begin at any of them. With
/// `literals`, extended autolinks are among the constructs.
///
/// `a b` is plain, and `a *b` is not.
pub fn is_plain(text: &[u8], literals: bool) -> bool
    ensures { result ≡ true → (k : ℕ) → k < length text.now → (before : ℕ) × (may_begin literals before (slice_index text.now k) ≡ false) }
{
    match text.first() {
        Some(first) if !may_begin(literals, b' ', *first) => {
            plain_length(text, literals) + 1 == text.len()
        }
        _ => false,
    }
}

/// Does what `plain_length` does, byte by byte.
fn plain_length_of_few(text: &[u8], literals: bool) -> usize
    requires { 0 < length text.now }
    ensures within { result < length text.now }
    ensures plain { (k : ℕ) → k < result → may_begin literals (slice_index text.now k) (slice_index text.now (k + 1)) ≡ false }
    ensures next { result + 1 < length text.now → may_begin literals (slice_index text.now result) (slice_index text.now (result + 1)) ≡ true }
{
    let mut size = 0;
    while size + 1 < text.len() && !may_begin(literals, text[size], text[size + 1]) {
        size += 1;
    }
    size
}

/// Whether a construct may begin at a byte, after another byte.
#[inline(always)]
fn may_begin(literals: bool, before: u8, byte: u8) -> bool
    ensures { result ≡ may_begin literals before byte }
{
    is_mark(byte) || literals && is_first_letter(byte) && may_come_before(byte, before)
}

/// Whether a construct may begin at a byte wherever it is.
fn is_mark(byte: u8) -> bool
    ensures { result ≡ is_mark byte }
{
    matches!(
        byte,
        b'\n' | b'!' | b'$' | b'&' | b'*' | b'<' | b'[' | b'\\' | b']' | b'_' | b'`' | b'~'
    )
}

/// Whether an extended autolink may begin with a byte.
fn is_first_letter(byte: u8) -> bool
    ensures { result ≡ is_first_letter byte }
{
    matches!(byte, b'F' | b'H' | b'W' | b'f' | b'h' | b'w')
}

/// Returns how many of 16 bytes, after the first of a text, come before one that is not plain.
#[inline(always)]
fn plain_length_of_16(text: &[u8], literals: bool) -> usize
    requires { 16 < length text.now }
    ensures most { result ≤ 16 }
    ensures plain { (k : ℕ) → k < result → may_begin literals (slice_index text.now k) (slice_index text.now (k + 1)) ≡ false }
    ensures next { result < 16 → may_begin literals (slice_index text.now result) (slice_index text.now (result + 1)) ≡ true }
{
    first_of(places(text, literals))
}

/// Returns a number with a bit for each of 16 bytes, after the first of a text, which is set where a
/// construct may begin.
#[inline(always)]
fn places(text: &[u8], literals: bool) -> u64
    requires { 16 < length text.now }
    ensures { (k : ℕ) → k < 16 → bit_at result k ≡ cond (may_begin literals (slice_index text.now k) (slice_index text.now (k + 1))) 1 0 }
{
    let bytes = &text[1..];
    if literals {
        marks(bytes) | literal_places(text)
    } else {
        marks(bytes)
    }
}

/// Returns a number with a bit for each of the first 16 bytes, which is set where `is_mark` holds.
#[inline(always)]
fn marks(text: &[u8]) -> u64
    requires { 16 ≤ length text.now }
    ensures { (k : ℕ) → k < 16 → bit_at result k ≡ cond (is_mark (slice_index text.now k)) 1 0 }
{
    let bytes = u8x16::from_slice(text);
    let brackets = (bytes - u8x16::splat(b'[')).simd_lt(u8x16::splat(3));
    let others = (bytes - u8x16::splat(b'_')).simd_lt(u8x16::splat(2));
    let hits = brackets
        | others
        | bytes.simd_eq(u8x16::splat(b'\n'))
        | bytes.simd_eq(u8x16::splat(b'!'))
        | bytes.simd_eq(u8x16::splat(b'$'))
        | bytes.simd_eq(u8x16::splat(b'&'))
        | bytes.simd_eq(u8x16::splat(b'*'))
        | bytes.simd_eq(u8x16::splat(b'<'))
        | bytes.simd_eq(u8x16::splat(b'~'));
    hits.to_bitmask()
}

/// Returns a number with a bit for each of 16 bytes, after the first of a text, which is set where
/// an extended autolink may begin.
#[inline(always)]
fn literal_places(text: &[u8]) -> u64
    requires { 16 < length text.now }
    ensures { (k : ℕ) → k < 16 → bit_at result k ≡ cond (is_first_letter (slice_index text.now (k + 1)) && may_come_before (slice_index text.now (k + 1)) (slice_index text.now k)) 1 0 }
{
    let bytes = &text[1..];
    (www_letters(bytes) & www_may_follow(text)) | (scheme_letters(bytes) & scheme_may_follow(text))
}

/// Returns a number with a bit for each of the first 16 bytes, which is set where it is a `w`.
#[inline(always)]
fn www_letters(text: &[u8]) -> u64
    requires { 16 ≤ length text.now }
    ensures { (k : ℕ) → k < 16 → bit_at result k ≡ cond (is_in_any_case 119 (slice_index text.now k)) 1 0 }
{
    let bytes = u8x16::from_slice(text) | u8x16::splat(32);
    let hits = bytes.simd_eq(u8x16::splat(b'w'));
    hits.to_bitmask()
}

/// Returns the same of the letters that may begin a scheme.
#[inline(always)]
fn scheme_letters(text: &[u8]) -> u64
    requires { 16 ≤ length text.now }
    ensures { (k : ℕ) → k < 16 → bit_at result k ≡ cond (is_scheme_letter (slice_index text.now k)) 1 0 }
{
    let bytes = u8x16::from_slice(text) | u8x16::splat(32);
    let hits = bytes.simd_eq(u8x16::splat(b'f')) | bytes.simd_eq(u8x16::splat(b'h'));
    hits.to_bitmask()
}

/// Returns the same of what may come before a scheme: the bytes that are no letters.
#[inline(always)]
fn scheme_may_follow(text: &[u8]) -> u64
    requires { 16 ≤ length text.now }
    ensures { (k : ℕ) → k < 16 → bit_at result k ≡ cond (not (is_letter (slice_index text.now k))) 1 0 }
{
    // From the byte after `z` on, around to the byte before `a`.
    let bytes = (u8x16::from_slice(text) | u8x16::splat(32)) - u8x16::splat(b'{');
    let hits = bytes.simd_lt(u8x16::splat(230));
    hits.to_bitmask()
}

/// Returns the same of what may come before `www.`.
#[inline(always)]
fn www_may_follow(text: &[u8]) -> u64
    requires { 16 ≤ length text.now }
    ensures { (k : ℕ) → k < 16 → bit_at result k ≡ cond (may_come_before_www (slice_index text.now k)) 1 0 }
{
    let bytes = u8x16::from_slice(text);
    let controls = (bytes - u8x16::splat(b'\t')).simd_lt(u8x16::splat(5));
    let hits = controls
        | bytes.simd_eq(u8x16::splat(b' '))
        | bytes.simd_eq(u8x16::splat(b'('))
        | bytes.simd_eq(u8x16::splat(b'*'))
        | bytes.simd_eq(u8x16::splat(b'_'))
        | bytes.simd_eq(u8x16::splat(b'~'));
    hits.to_bitmask()
}
