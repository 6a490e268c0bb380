//! Labels of footnote definitions, and the text that they share with calls (GFM).

ghost use Rattle.std.specs.Prelude.{◌≡◌, ◌≤◌, ◌<◌, ◌-◌, MatchOption, IfSome, Some, drop, length, slice_index};
ghost use Rattle.commonmark_syntax.specs.Blocks as blocks;
ghost use Rattle.commonmark_syntax.specs.Language.{IsNotAt, Leaves, many, nothing, one, unless, ◌then◌};
ghost use Rattle.commonmark_syntax.specs.Reading.{Reading, read};
ghost use Rattle.commonmark_syntax.specs.Syntax.{byte};

use crate::class::{InFootnote, TakenInFootnote};
use crate::label::{CHARACTERS_MOST, character_count};
use crate::reading::{past_byte, past_one, past_word};

/// Returns the size of the label of the footnote definition that the text of a line begins with,
/// with the four bytes around it, if it begins with one (GFM).
///
/// It is 5 in `[^a]: b`.
pub fn scan(text: &[u8]) -> Option<usize>
    ensures exact { MatchOption result (IsNotAt blocks.footnote_label text.now) (λ size. Leaves blocks.footnote_label text.now (drop size text.now)) }
    ensures most { IfSome result (λ size. size ≤ length text.now) }
    ensures least { IfSome result (λ size. 4 < size) }
    ensures opening { IfSome result (λ _. (slice_index text.now 0 ≡ 91) × (slice_index text.now 1 ≡ 94)) }
    ensures closing { IfSome result (λ size. (slice_index text.now (size - 2) ≡ 93) × (slice_index text.now (size - 1) ≡ 58)) }
{
    Some(text.len() - past(text)?.len())
}

/// Returns the text after the label of a footnote definition.
fn past(text: &[u8]) -> Option<&[u8]>
    ensures { Reading blocks.footnote_label text.now (λ rest. rest.now) result }
{
    past_word(past_text(past_word(text, b"[^")?)?, b"]:")
}

/// Returns the text after the text of a label.
pub(crate) fn past_text(text: &[u8]) -> Option<&[u8]>
    ensures { Reading blocks.footnote_text text.now (λ rest. rest.now) result }
{
    let rest = past_characters(text);
    let size = text.len() - rest.len();
    if is_text(&text[..size]) {
        Some(rest)
    } else {
        None
    }
}

/// Whether a label may have this text.
fn is_text(inside: &[u8]) -> bool
    ensures { result ≡ blocks.is_footnote_text inside.now }
{
    let characters = character_count(inside);
    1 <= characters && characters <= CHARACTERS_MOST
}

/// Returns the text after the characters of a label.
#[tactic(auto, using(crate::proofs::Loops::many_done))]
fn past_characters(text: &[u8]) -> &[u8]
    ensures { read (many blocks.footnote_character) text.now ≡ Some result.now }
{
    let mut rest = text;
    'characters: while let Some(tail) = past_character(rest) {
        rest = tail;
    }
    rest
}

/// Returns the text after a character of a label.
fn past_character(text: &[u8]) -> Option<&[u8]>
    ensures { Reading blocks.footnote_character text.now (λ rest. rest.now) result }
{
    if let Some(rest) = past_escape(text) {
        return Some(rest);
    }
    if let Some(rest) = past_backslash(text) {
        return Some(rest);
    }
    past_one::<InFootnote>(text)
}

/// Returns the text after a backslash and the byte that it escapes.
fn past_escape(text: &[u8]) -> Option<&[u8]>
    ensures { Reading (byte 92 then one blocks.is_taken) text.now (λ rest. rest.now) result }
{
    past_one::<TakenInFootnote>(past_byte(text, b'\\')?)
}

/// Returns the text after a backslash that stands for itself.
fn past_backslash(text: &[u8]) -> Option<&[u8]>
    ensures { Reading blocks.lone_backslash text.now (λ rest. rest.now) result }
{
    past_untaken(past_byte(text, b'\\')?)
}

/// Returns the text, if it does not begin with a byte that a backslash escapes.
fn past_untaken(text: &[u8]) -> Option<&[u8]>
    ensures { Reading (unless blocks.begins_taken nothing) text.now (λ rest. rest.now) result }
{
    if begins_taken(text) { None } else { Some(text) }
}

/// Whether a text begins with a byte that a backslash escapes.
fn begins_taken(text: &[u8]) -> bool
    ensures { result ≡ blocks.begins_taken text.now }
{
    match text {
        [first, ..] => matches!(*first, b'[' | b']' | b'\\'),
        [] => false,
    }
}
