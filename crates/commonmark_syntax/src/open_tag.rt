//! HTML open tags (CommonMark).

ghost use Rattle.std.specs.Prelude.{◌≡◌, ◌≤◌, ◌<◌, MatchOption, drop, length, IfSome};
ghost use Rattle.commonmark_syntax.specs.Cuts.{IsCut};
ghost use Rattle.commonmark_syntax.specs.Language.{IsNotAt, Leaves, many};
ghost use Rattle.commonmark_syntax.specs.Reading.{Reading, read};
ghost use Rattle.commonmark_syntax.specs.Syntax.{attribute, open_tag, open_tag_end};

use crate::reading::{past_blanks, past_byte};
use crate::{attribute, tag_name};

/// Returns the length of the open tag that a text begins with (CommonMark): `<`, a name,
/// attributes, white space, `/` if it closes itself, and `>`.
///
/// In `<a b> c` it is 5, and in `<br />` it is 6.
pub fn scan(text: &[u8]) -> Option<usize>
    ensures exact { MatchOption result (IsNotAt open_tag text.now) (λ size. Leaves open_tag text.now (drop size text.now)) }
    ensures most { IfSome result (λ size. size ≤ length text.now) }
    ensures least { IfSome result (λ size. 2 < size) }
    ensures cut { IfSome result (λ size. IsCut text.now size) }
{
    Some(text.len() - past(text)?.len())
}

/// Returns the text after an open tag.
pub(crate) fn past(text: &[u8]) -> Option<&[u8]>
    ensures { Reading open_tag text.now (λ rest. rest.now) result }
{
    let rest = tag_name::past(past_byte(text, b'<')?)?;
    past_end(past_attributes(rest))
}

/// Returns the text after all attributes.
#[tactic(auto, using(crate::proofs::Loops::many_done))]
fn past_attributes(text: &[u8]) -> &[u8]
    ensures { read (many attribute) text.now ≡ Some result.now }
{
    let mut rest = text;
    'attributes: while let Some(tail) = attribute::past(rest) {
        rest = tail;
    }
    rest
}

/// Returns the text after the end of an open tag, with the white space before it.
fn past_end(text: &[u8]) -> Option<&[u8]>
    ensures { Reading open_tag_end text.now (λ rest. rest.now) result }
{
    let rest = past_blanks(text);
    match past_byte(rest, b'/') {
        Some(rest) => past_byte(rest, b'>'),
        None => past_byte(rest, b'>'),
    }
}
