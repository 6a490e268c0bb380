//! Titles of links, images and definitions (CommonMark).

ghost use Rattle.std.specs.Prelude.{◌≡◌, ◌≤◌, ◌<◌, ◌-◌, MatchOption, drop, length, slice_index, IfSome, Some};
ghost use Rattle.commonmark_syntax.specs.Cuts.{IsCut, closing_mark};
ghost use Rattle.commonmark_syntax.specs.Language.{IsNotAt, Leaves};
ghost use Rattle.commonmark_syntax.specs.Reading.{Reading};
ghost use Rattle.commonmark_syntax.specs.Syntax as page;

use crate::class::{AnyByte, InDoubleQuotes, InParentheses, InSingleQuotes, PlainClass};
use crate::reading::{past_byte, past_characters};

/// Returns the length of the title that a text begins with, with its markers: two quotation marks,
/// two apostrophes, or two parentheses (CommonMark).
///
/// A title contains no marker without a backslash before it, and no blank line.
///
/// In `"a" b` it is 3, and in `(a) b` too.
pub fn scan(text: &[u8]) -> Option<usize>
    ensures exact { MatchOption result (IsNotAt page.title text.now) (λ size. Leaves page.title text.now (drop size text.now)) }
    ensures most { IfSome result (λ size. size ≤ length text.now) }
    ensures least { IfSome result (λ size. 1 < size) }
    ensures marks { IfSome result (λ size. closing_mark (slice_index text.now 0) ≡ Some (slice_index text.now (size - 1))) }
    ensures cut { IfSome result (λ size. IsCut text.now size) }
    ensures inside { IfSome result (λ size. IsCut text.now 1 × IsCut text.now (size - 1)) }
{
    Some(text.len() - past(text)?.len())
}

/// Returns the text after a title.
fn past(text: &[u8]) -> Option<&[u8]>
    ensures { Reading page.title text.now (λ rest. rest.now) result }
{
    if let Some(rest) = past_titled::<InDoubleQuotes>(text, b'"', b'"') {
        return Some(rest);
    }
    if let Some(rest) = past_titled::<InSingleQuotes>(text, b'\'', b'\'') {
        return Some(rest);
    }
    past_titled::<InParentheses>(text, b'(', b')')
}

/// Returns the text after a title between two markers.
fn past_titled<C: PlainClass>(text: &[u8], opening: u8, closing: u8) -> Option<&[u8]>
    ensures { Reading (page.titled opening C.class closing) text.now (λ rest. rest.now) result }
{
    let inside = past_byte(text, opening)?;
    past_byte(past_text::<C>(inside)?, closing)
}

/// Returns the text after the text of a title.
fn past_text<C: PlainClass>(text: &[u8]) -> Option<&[u8]>
    ensures { Reading (page.title_text C.class) text.now (λ rest. rest.now) result }
{
    let rest = past_characters::<AnyByte, C>(text);
    let size = text.len() - rest.len();
    if has_blank_line(&text[..size]) {
        return None;
    }
    Some(rest)
}

/// Whether there is a blank line between two line endings.
fn has_blank_line(inside: &[u8]) -> bool
    ensures { result ≡ page.has_blank_line inside.now }
{
    let mut is_blank = false;
    let mut rest = inside;
    'bytes: while let [first, tail @ ..] = rest {
        match *first {
            b'\n' if is_blank => return true,
            b'\n' => is_blank = true,
            b' ' | b'\t' => {}
            _ => is_blank = false,
        }
        rest = tail;
    }
    false
}
