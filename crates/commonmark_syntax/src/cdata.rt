//! HTML CDATA sections (CommonMark).

ghost use Rattle.std.specs.Prelude.{◌≤◌, ◌<◌, MatchOption, drop, length, IfSome};
ghost use Rattle.commonmark_syntax.specs.Cuts.{IsCut};
ghost use Rattle.commonmark_syntax.specs.Language.{IsNotAt, Leaves};
ghost use Rattle.commonmark_syntax.specs.Reading.{Reading};
ghost use Rattle.commonmark_syntax.specs.Syntax.{cdata_section};

use crate::reading::{past_first, past_word};

/// Returns the length of the CDATA section that a text begins with (CommonMark): `<![CDATA[` up to
/// the first `]]>` after it.
///
/// In `<![CDATA[a]]> b` it is 13.
pub fn scan(text: &[u8]) -> Option<usize>
    ensures exact { MatchOption result (IsNotAt cdata_section text.now) (λ size. Leaves cdata_section text.now (drop size text.now)) }
    ensures most { IfSome result (λ size. size ≤ length text.now) }
    ensures least { IfSome result (λ size. 11 < size) }
    ensures cut { IfSome result (λ size. IsCut text.now size) }
{
    Some(text.len() - past(text)?.len())
}

/// Returns the text after a CDATA section.
fn past(text: &[u8]) -> Option<&[u8]>
    ensures { Reading cdata_section text.now (λ rest. rest.now) result }
{
    past_first(past_word(text, b"<![CDATA[")?, b"]]>")
}
