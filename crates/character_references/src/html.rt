//! A decoder that knows the named character references of HTML.

ghost use Rattle.std.specs.Prelude.{◌≡◌, map};
ghost use Rattle.character_references.specs.Html.{html, lines_for, lines_from};

use crate::html_names::LINES;
use crate::named::NamedReferences;
use crate::references::References;
use std::alloc::{AllocError, Global};

/// The decoder that knows the character references of CommonMark: the 2,125 names of HTML, and
/// numbers as in [`Decoder`](crate::decoder::Decoder).
///
/// The only error is that memory ran out.
///
/// `HtmlReferences.decode(alloc, "copy", b'&')` returns `©`.
#[derive(Clone, Copy, PartialEq, Eq, Debug)]
pub struct HtmlReferences;

impl References for HtmlReferences {
    ghost text = { λ _ value marker. html value marker };

    #[tactic(auto, unfolding(crate::specs::Html::html))]
    fn decode(&self, alloc: Global, value: &str, marker: u8) -> Result<Option<String>, AllocError> {
        let table = lines_for(&LINES, value);
        NamedReferences { table }.decode(alloc, value, marker)
    }
}

/// Returns the lines of the names that begin with the first byte of a value.
fn lines_for(lines: &[&'static str], value: &str) -> &'static str
    ensures { result.now ≡ lines_for (map (λ line. line.now) lines.now) value.now }
{
    match value.as_bytes() {
        [first, ..] => lines_from(lines, *first),
        [] => "",
    }
}

/// Returns the lines of the names that begin with a byte.
fn lines_from(lines: &[&'static str], first: u8) -> &'static str
    ensures { result.now ≡ lines_from (map (λ line. line.now) lines.now) first }
{
    if first < b'A' {
        return "";
    }
    match lines.get(usize::from(first - b'A')) {
        Some(found) => *found,
        None => "",
    }
}
