//! Hard line breaks by a backslash (CommonMark).

ghost use Rattle.std.specs.Prelude.{◌≡◌, ◌≤◌, MatchOption, Some, drop, length, slice_get, slice_index, IfSome};
ghost use Rattle.commonmark_syntax.specs.Cuts.{IsAscii};
ghost use Rattle.commonmark_syntax.specs.Inlines.{backslash_break};
ghost use Rattle.commonmark_syntax.specs.Language.{IsNotAt, Leaves};
ghost use Rattle.commonmark_syntax.specs.Reading.{Reading};

use crate::reading::past_byte;

/// Returns the length of the hard line break that a text begins with (CommonMark): a backslash, and
/// a line ending.
///
/// In a backslash, a line feed and an `a` it is 2.
pub fn scan(text: &[u8]) -> Option<usize>
    ensures exact { MatchOption result (IsNotAt backslash_break text.now) (λ size. Leaves backslash_break text.now (drop size text.now)) }
    ensures size { IfSome result (λ size. size ≡ 2) }
    ensures most { IfSome result (λ size. size ≤ length text.now) }
    ensures first { IfSome result (λ size. slice_index text.now 0 ≡ 92) }
    ensures feed { IfSome result (λ size. slice_get text.now 1 ≡ Some 10) }
{
    Some(text.len() - past(text)?.len())
}

/// Returns the text after a hard line break.
fn past(text: &[u8]) -> Option<&[u8]>
    ensures { Reading backslash_break text.now (λ rest. rest.now) result }
{
    past_byte(past_byte(text, b'\\')?, b'\n')
}
