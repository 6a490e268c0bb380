//! Segments of the domains of extended autolinks (GFM).

ghost use Rattle.std.specs.Prelude.{◌≡◌, ◌≢◌, ◌≤◌, ◌<◌, ◌++◌, ◌-◌, ◌∷◌, ◌==◌, ℕ, IsTrue, List, MatchOption, IfSome, [], drop, length, slice_index, take, true};
ghost use Rattle.std.specs.Char.{IsScalar, encode_utf8};
ghost use Rattle.std.specs.Str.{all_scalars, encode_utf8_all};
ghost use Rattle.commonmark_syntax.specs.Cuts.{IsInLine};
ghost use Rattle.commonmark_syntax.specs.Inlines.{begins_with};
ghost use Rattle.markdown_attention.specs.ExtendedAddresses as page;

use crate::character_kind::{CharacterKind, kind_after};
use commonmark_syntax::bytes::{after, count_while, is_continuation};
use commonmark_syntax::class::{Class, WhiteSpace};

/// Returns the size of the segments that a text begins with, and of the single periods between
/// them.
///
/// In `a.b..c` it is 3.
pub fn size(text: &[u8]) -> usize
    ensures exact { (characters : List ℕ) → all_scalars characters ≡ true → text.now ≡ encode_utf8_all characters → take result text.now ≡ encode_utf8_all (page.segments characters) }
    ensures most { result ≤ length text.now }
    ensures in_line { IsInLine text.now result }
{
    if !begins_segment(text) {
        return 0;
    }
    text.len() - past_segments(text).len()
}

/// Returns the text after the segments that it continues with.
fn past_segments(text: &[u8]) -> &[u8]
    ensures exact { (characters : List ℕ) → all_scalars characters ≡ true → text.now ≡ encode_utf8_all characters → take (length text.now - length result.now) text.now ≡ encode_utf8_all (page.later_segments characters) }
    ensures most { length result.now ≤ length text.now }
    ensures in_line { IsInLine text.now (length text.now - length result.now) }
{
    let mut rest = text;
    'characters: while let Some(tail) = past_character(rest) {
        rest = tail;
    }
    rest
}

/// Returns the text after a character of a segment, or after a period before one.
fn past_character(text: &[u8]) -> Option<&[u8]>
    ensures exact { (characters : List ℕ) → all_scalars characters ≡ true → text.now ≡ encode_utf8_all characters → MatchOption result (page.later_segments characters ≡ []) (λ rest. (c : ℕ) × (u : List ℕ) × (characters ≡ c ∷ u) × (page.goes_on c u ≡ true) × (rest.now ≡ encode_utf8_all u)) }
    ensures rest { IfSome result (λ rest. rest.now ≡ drop (length text.now - length rest.now) text.now) }
    ensures less { IfSome result (λ rest. length rest.now < length text.now) }
    ensures in_line { IfSome result (λ rest. IsInLine text.now (length text.now - length rest.now)) }
{
    let rest = after_character(text);
    if begins_segment(text) || is_period(text) && begins_segment(rest) {
        Some(rest)
    } else {
        None
    }
}

/// Whether a text begins with a period.
fn is_period(text: &[u8]) -> bool
    ensures { result ≡ begins_with (λ c. c == 46) text.now }
{
    match text {
        [first, ..] => *first == b'.',
        [] => false,
    }
}

/// Returns the text after the character that it begins with.
fn after_character(text: &[u8]) -> &[u8]
    ensures exact { (c : ℕ) → (u : List ℕ) → IsScalar c → text.now ≡ encode_utf8 c ++ encode_utf8_all u → result.now ≡ encode_utf8_all u }
    ensures rest { result.now ≡ drop (length text.now - length result.now) text.now }
    ensures less { 0 < length text.now → length result.now < length text.now }
    ensures most { length result.now ≤ length text.now }
    ensures in_line { slice_index text.now 0 ≢ 10 → IsInLine text.now (length text.now - length result.now) }
{
    let later = after(text, 1);
    after(later, count_while(later, is_continuation))
}

/// Whether a text begins with a character of a segment: a letter or a digit, a hyphen or an
/// underscore (GFM). Any character that is neither white space nor punctuation counts as a letter
/// (micromark).
fn begins_segment(text: &[u8]) -> bool
    ensures exact { (characters : List ℕ) → all_scalars characters ≡ true → text.now ≡ encode_utf8_all characters → result ≡ begins_with page.is_of_segment characters }
    ensures some { IsTrue result → 0 < length text.now }
    ensures in_line { IsTrue result → slice_index text.now 0 ≢ 10 }
{
    match text.first() {
        None => false,
        Some(b'-' | b'_') => true,
        Some(byte) => !WhiteSpace::has(*byte) && is_other(kind_after(text)),
    }
}

/// Whether a kind is neither white space nor punctuation.
fn is_other(kind: CharacterKind) -> bool
    ensures { result ≡ page.is_other kind }
{
    match kind {
        CharacterKind::Other => true,
        CharacterKind::Whitespace | CharacterKind::Punctuation => false,
    }
}
