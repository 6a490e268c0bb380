//! Decimal numeric character references, such as `&#38;` (CommonMark).

ghost use Rattle.std.specs.Prelude.{◌≤◌, ◌<◌, MatchOption, drop, length, IfSome};
ghost use Rattle.commonmark_syntax.specs.Cuts.{IsAscii, IsCut, IsInLine};
ghost use Rattle.commonmark_syntax.specs.Inlines.{decimal_reference};
ghost use Rattle.commonmark_syntax.specs.Language.{IsNotAt, Leaves};
ghost use Rattle.commonmark_syntax.specs.Reading.{Reading};

use crate::class::Digit;
use crate::reading::{past_at_most, past_byte, past_one, past_word};

/// The greatest number of digits after the first one (CommonMark).
const DIGITS_REST_MOST: usize = 6;

/// Returns the length of the decimal numeric character reference that a text begins with
/// (CommonMark): `&#`, 1 to 7 digits, and `;`.
///
/// In `&#38; a` it is 5.
pub fn scan(text: &[u8]) -> Option<usize>
    ensures exact { MatchOption result (IsNotAt decimal_reference text.now) (λ size. Leaves decimal_reference text.now (drop size text.now)) }
    ensures most { IfSome result (λ size. size ≤ length text.now) }
    ensures least { IfSome result (λ size. 3 < size) }
    ensures cut { IfSome result (λ size. IsCut text.now size) }
    ensures in_line { IfSome result (λ size. IsInLine text.now size) }
    ensures ascii { IfSome result (λ size. IsAscii text.now size) }
{
    Some(text.len() - past(text)?.len())
}

/// Returns the text after a decimal numeric character reference.
fn past(text: &[u8]) -> Option<&[u8]>
    ensures { Reading decimal_reference text.now (λ rest. rest.now) result }
{
    let rest = past_one::<Digit>(past_word(text, b"&#")?)?;
    past_byte(past_at_most::<Digit>(rest, DIGITS_REST_MOST), b';')
}
