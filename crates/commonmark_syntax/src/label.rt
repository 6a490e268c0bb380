//! Labels of definitions and references (CommonMark).

ghost use Rattle.std.specs.Prelude.{◌≡◌, ◌≤◌, ◌<◌, ◌-◌, MatchOption, drop, filter, length, nat_le, not, slice_index, IfSome, IsSome};
ghost use Rattle.std.specs.List.{list_any};
ghost use Rattle.commonmark_syntax.specs.Cuts.{IsCut};
ghost use Rattle.commonmark_syntax.specs.Language.{IsNotAt, Leaves, many, tested};
ghost use Rattle.commonmark_syntax.specs.Reading.{Reading};
ghost use Rattle.commonmark_syntax.specs.Syntax.{begins_character, character, in_brackets, is_any, is_label_text, is_white_space, link_label};

use crate::bytes::{is_continuation, is_space_or_line_ending};
use crate::class::{AnyByte, InBrackets};
use crate::reading::{past_byte, past_characters};

/// The greatest number of characters between the brackets of a label (CommonMark).
pub const CHARACTERS_MOST: usize = 999;

/// Returns the length of the label that a text begins with, with its brackets (CommonMark).
///
/// A label ends at the first bracket in it without a backslash before it, which must be a closing
/// one. It contains more than white space, and at most [`CHARACTERS_MOST`] characters.
///
/// In `[a]: b` it is 3; `[a[b]]` begins with no label.
pub fn scan(text: &[u8]) -> Option<usize>
    ensures exact { MatchOption result (IsNotAt link_label text.now) (λ size. Leaves link_label text.now (drop size text.now)) }
    ensures most { IfSome result (λ size. size ≤ length text.now) }
    ensures least { IfSome result (λ size. 2 < size) }
    ensures first { IsSome result → slice_index text.now 0 ≡ 91 }
    ensures last { IfSome result (λ size. slice_index text.now (size - 1) ≡ 93) }
    ensures cut { IfSome result (λ size. IsCut text.now size) }
    ensures inside { IfSome result (λ size. IsCut text.now 1 × IsCut text.now (size - 1)) }
{
    Some(text.len() - past(text)?.len())
}

/// Returns the text after a label.
fn past(text: &[u8]) -> Option<&[u8]>
    ensures { Reading link_label text.now (λ rest. rest.now) result }
{
    past_byte(past_text(past_byte(text, b'[')?)?, b']')
}

/// Returns the text after the text of a label.
fn past_text(text: &[u8]) -> Option<&[u8]>
    ensures { Reading (tested is_label_text (many (character is_any in_brackets))) text.now (λ rest. rest.now) result }
{
    let rest = past_characters::<AnyByte, InBrackets>(text);
    let size = text.len() - rest.len();
    if is_text(&text[..size]) {
        Some(rest)
    } else {
        None
    }
}

/// Whether a label may have this text between its brackets: more than white space, and at most
/// [`CHARACTERS_MOST`] characters (CommonMark).
///
/// ` a ` is such a text, and ` ` is not.
pub fn is_text(inside: &[u8]) -> bool
    ensures { result ≡ is_label_text inside.now }
{
    has_more_than_white_space(inside) && has_few_characters(inside)
}

/// Whether a text contains more than white space.
fn has_more_than_white_space(text: &[u8]) -> bool
    ensures { result ≡ list_any (λ c. not (is_white_space c)) text.now }
{
    text.iter().any(|byte| !is_space_or_line_ending(*byte))
}

/// Whether a text has at most [`CHARACTERS_MOST`] characters. It has at most as many as it has bytes.
fn has_few_characters(text: &[u8]) -> bool
    ensures { result ≡ nat_le (length (filter begins_character text.now)) 999 }
{
    text.len() <= CHARACTERS_MOST || character_count(text) <= CHARACTERS_MOST
}

/// Returns the number of characters of a text.
pub(crate) fn character_count(text: &[u8]) -> usize
    ensures { result ≡ length (filter begins_character text.now) }
{
    let mut count = 0;
    let mut rest = text;
    'bytes: while let [first, tail @ ..] = rest {
        if begins_character(*first) {
            count += 1;
        }
        rest = tail;
    }
    count
}

/// Whether a byte begins a UTF-8 character.
fn begins_character(byte: u8) -> bool
    ensures { result ≡ begins_character byte }
{
    !is_continuation(byte)
}
