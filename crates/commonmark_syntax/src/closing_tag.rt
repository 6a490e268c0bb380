//! HTML closing tags (CommonMark).

ghost use Rattle.std.specs.Prelude.{◌≤◌, ◌<◌, MatchOption, drop, length, IfSome};
ghost use Rattle.commonmark_syntax.specs.Cuts.{IsCut};
ghost use Rattle.commonmark_syntax.specs.Language.{IsNotAt, Leaves};
ghost use Rattle.commonmark_syntax.specs.Reading.{Reading};
ghost use Rattle.commonmark_syntax.specs.Syntax.{closing_tag};

use crate::reading::{past_blanks, past_byte, past_word};
use crate::tag_name;

/// Returns the length of the closing tag that a text begins with (CommonMark): `</`, a name, white
/// space and `>`.
///
/// In `</a > b` it is 5.
pub fn scan(text: &[u8]) -> Option<usize>
    ensures exact { MatchOption result (IsNotAt closing_tag text.now) (λ size. Leaves closing_tag text.now (drop size text.now)) }
    ensures most { IfSome result (λ size. size ≤ length text.now) }
    ensures least { IfSome result (λ size. 3 < size) }
    ensures cut { IfSome result (λ size. IsCut text.now size) }
{
    Some(text.len() - past(text)?.len())
}

/// Returns the text after a closing tag.
pub(crate) fn past(text: &[u8]) -> Option<&[u8]>
    ensures { Reading closing_tag text.now (λ rest. rest.now) result }
{
    let rest = tag_name::past(past_word(text, b"</")?)?;
    past_byte(past_blanks(rest), b'>')
}
