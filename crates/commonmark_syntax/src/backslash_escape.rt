//! Backslash escapes (CommonMark).

ghost use Rattle.std.specs.Prelude.{◌≡◌, ◌≤◌, MatchOption, drop, length, IfSome};
ghost use Rattle.commonmark_syntax.specs.Cuts.{IsAscii, IsCut, IsInLine};
ghost use Rattle.commonmark_syntax.specs.Inlines.{backslash_escape};
ghost use Rattle.commonmark_syntax.specs.Language.{IsNotAt, Leaves};
ghost use Rattle.commonmark_syntax.specs.Reading.{Reading};

use crate::class::Punctuation;
use crate::reading::{past_byte, past_one};

/// Returns the length of the backslash escape that a text begins with (CommonMark): a backslash,
/// and ASCII punctuation.
///
/// In `\*a` it is 2.
pub fn scan(text: &[u8]) -> Option<usize>
    ensures exact { MatchOption result (IsNotAt backslash_escape text.now) (λ size. Leaves backslash_escape text.now (drop size text.now)) }
    ensures size { IfSome result (λ size. size ≡ 2) }
    ensures most { IfSome result (λ size. size ≤ length text.now) }
    ensures cut { IfSome result (λ size. IsCut text.now size) }
    ensures in_line { IfSome result (λ size. IsInLine text.now size) }
    ensures ascii { IfSome result (λ size. IsAscii text.now size) }
{
    Some(text.len() - past(text)?.len())
}

/// Returns the text after a backslash escape.
fn past(text: &[u8]) -> Option<&[u8]>
    ensures { Reading backslash_escape text.now (λ rest. rest.now) result }
{
    past_one::<Punctuation>(past_byte(text, b'\\')?)
}
