//! Hexadecimal numeric character references, such as `&#x26;` (CommonMark).

ghost use Rattle.std.specs.Prelude.{◌≤◌, ◌<◌, MatchOption, drop, length, IfSome};
ghost use Rattle.commonmark_syntax.specs.Cuts.{IsAscii, IsCut, IsInLine};
ghost use Rattle.commonmark_syntax.specs.Inlines.{hexadecimal_reference};
ghost use Rattle.commonmark_syntax.specs.Language.{IsNotAt, Leaves};
ghost use Rattle.commonmark_syntax.specs.Reading.{Reading};

use crate::class::{Hexadecimal, X};
use crate::reading::{past_at_most, past_byte, past_one, past_word};

/// The greatest number of digits after the first one (CommonMark).
const DIGITS_REST_MOST: usize = 5;

/// Returns the length of the hexadecimal numeric character reference that a text begins with
/// (CommonMark): `&#`, `x` or `X`, 1 to 6 hexadecimal digits, and `;`.
///
/// In `&#x26; a` it is 6.
pub fn scan(text: &[u8]) -> Option<usize>
    ensures exact { MatchOption result (IsNotAt hexadecimal_reference text.now) (λ size. Leaves hexadecimal_reference text.now (drop size text.now)) }
    ensures most { IfSome result (λ size. size ≤ length text.now) }
    ensures least { IfSome result (λ size. 4 < size) }
    ensures cut { IfSome result (λ size. IsCut text.now size) }
    ensures in_line { IfSome result (λ size. IsInLine text.now size) }
    ensures ascii { IfSome result (λ size. IsAscii text.now size) }
{
    Some(text.len() - past(text)?.len())
}

/// Returns the text after a hexadecimal numeric character reference.
fn past(text: &[u8]) -> Option<&[u8]>
    ensures { Reading hexadecimal_reference text.now (λ rest. rest.now) result }
{
    let rest = past_one::<X>(past_word(text, b"&#")?)?;
    let rest = past_one::<Hexadecimal>(rest)?;
    past_byte(past_at_most::<Hexadecimal>(rest, DIGITS_REST_MOST), b';')
}
