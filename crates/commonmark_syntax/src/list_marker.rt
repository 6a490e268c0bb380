//! Markers of items of lists (CommonMark).

ghost use Rattle.std.specs.Prelude.{◌≡◌, ◌≤◌, ◌<◌, ◌-◌, MatchOption, IfSome, drop, length, nat_lt, slice_index, take, false, true};
ghost use Rattle.std.specs.Str.{all_ascii_digits};
ghost use Rattle.commonmark_syntax.specs.Blocks as blocks;
ghost use Rattle.commonmark_syntax.specs.Language.{IsAt, IsNotAt, Leaves, many, one, some, tested, unless, nothing, ◌or◌, ◌then◌};
ghost use Rattle.commonmark_syntax.specs.Reading.{Reading};
ghost use Rattle.commonmark_syntax.specs.Syntax.{byte, is_blank, is_digit};

use crate::bytes::has_more;
use crate::class::{Bullet, Delimiter, Digit, Zero};
use crate::reading::{past_all, past_blank_or_end, past_byte, past_one};

/// The greatest number of digits in the number of an item (CommonMark).
const DIGITS_MOST: usize = 9;

/// Returns the size of the marker of the item that the text of a line begins with, if one does: a
/// bullet, or digits and a delimiter, before a space, a tab, or the end of the line (CommonMark).
///
/// In `- a` it is 1, and in `10. a` it is 3.
pub fn scan(text: &[u8]) -> Option<usize>
    ensures exact { MatchOption result (IsNotAt blocks.list_marker text.now) (λ size. Leaves blocks.list_marker text.now (drop size text.now)) }
    ensures most { IfSome result (λ size. size ≤ length text.now) }
    ensures least { IfSome result (λ size. 0 < size) }
    ensures digits { IfSome result (λ size. (size - 1 ≤ 9) × (all_ascii_digits (take (size - 1) text.now) ≡ true)) }
    ensures ordered { IfSome result (λ size. blocks.is_delimiter (slice_index text.now (size - 1)) ≡ nat_lt 0 (size - 1)) }
    ensures mark { IfSome result (λ size. (slice_index text.now (size - 1) < 128) × (is_blank (slice_index text.now (size - 1)) ≡ false)) }
{
    Some(text.len() - past(text)?.len())
}

/// Returns the text after a marker.
fn past(text: &[u8]) -> Option<&[u8]>
    ensures { Reading blocks.list_marker text.now (λ rest. rest.now) result }
{
    past_blank_or_end(past_marker(text)?)
}

/// Returns the text after a bullet, or a number and a delimiter.
fn past_marker(text: &[u8]) -> Option<&[u8]>
    ensures { Reading (one blocks.is_bullet or blocks.ordered_list_marker) text.now (λ rest. rest.now) result }
{
    match past_one::<Bullet>(text) {
        Some(rest) => Some(rest),
        None => past_one::<Delimiter>(past_number(text)?),
    }
}

/// Returns the text after the number of an item.
fn past_number(text: &[u8]) -> Option<&[u8]>
    ensures { Reading (tested (blocks.is_at_most 9) (some (one is_digit))) text.now (λ rest. rest.now) result }
{
    let rest = past_digits(text)?;
    let size = text.len() - rest.len();
    if is_short(&text[..size]) {
        Some(rest)
    } else {
        None
    }
}

/// Returns the text after digits.
fn past_digits(text: &[u8]) -> Option<&[u8]>
    ensures { Reading (some (one is_digit)) text.now (λ rest. rest.now) result }
{
    let rest = past_one::<Digit>(text)?;
    Some(past_all::<Digit>(rest))
}

/// Whether there are few enough digits.
fn is_short(digits: &[u8]) -> bool
    ensures { result ≡ blocks.is_at_most 9 digits.now }
{
    digits.len() <= DIGITS_MOST
}

/// Whether the text of a line begins with the marker of an item that may interrupt a paragraph.
/// Such an item has the number 1, if it has one, and is not blank (CommonMark).
///
/// It is true for `1. a`, and false for `2. a`.
pub fn may_interrupt(text: &[u8]) -> bool
    ensures yes { result ≡ true → IsAt blocks.interrupting_list_marker text.now }
    ensures no { result ≡ false → IsNotAt blocks.interrupting_list_marker text.now }
{
    past_interrupting(text).is_some()
}

/// Returns the text after the marker of an item that may interrupt a paragraph.
fn past_interrupting(text: &[u8]) -> Option<&[u8]>
    ensures { Reading blocks.interrupting_list_marker text.now (λ rest. rest.now) result }
{
    past_filled(past_first_marker(text)?)
}

/// Returns the text, if an item that is not blank may begin before it.
fn past_filled(text: &[u8]) -> Option<&[u8]>
    ensures { Reading (blocks.blank_or_end then unless blocks.is_blank_line nothing) text.now (λ rest. rest.now) result }
{
    let rest = past_blank_or_end(text)?;
    if has_more(rest) { Some(rest) } else { None }
}

/// Returns the text after a bullet, or the number 1 and a delimiter.
fn past_first_marker(text: &[u8]) -> Option<&[u8]>
    ensures { Reading (one blocks.is_bullet or blocks.marker_of_one) text.now (λ rest. rest.now) result }
{
    match past_one::<Bullet>(text) {
        Some(rest) => Some(rest),
        None => past_one::<Delimiter>(past_number_one(text)?),
    }
}

/// Returns the text after the number 1, in as many digits as a number may have.
fn past_number_one(text: &[u8]) -> Option<&[u8]>
    ensures { Reading (tested (blocks.is_at_most 9) (many (byte 48) then byte 49)) text.now (λ rest. rest.now) result }
{
    let rest = past_zeros_and_one(text)?;
    let size = text.len() - rest.len();
    if is_short(&text[..size]) {
        Some(rest)
    } else {
        None
    }
}

/// Returns the text after digits for the number 1.
fn past_zeros_and_one(text: &[u8]) -> Option<&[u8]>
    ensures { Reading (many (byte 48) then byte 49) text.now (λ rest. rest.now) result }
{
    past_byte(past_all::<Zero>(text), b'1')
}
