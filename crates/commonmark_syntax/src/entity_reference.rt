//! Entity references, such as `&amp;` (CommonMark).

ghost use Rattle.std.specs.Prelude.{◌≤◌, ◌<◌, MatchOption, drop, length, IfSome};
ghost use Rattle.commonmark_syntax.specs.Cuts.{IsAscii, IsCut, IsInLine};
ghost use Rattle.commonmark_syntax.specs.Inlines.{entity_reference};
ghost use Rattle.commonmark_syntax.specs.Language.{IsNotAt, Leaves};
ghost use Rattle.commonmark_syntax.specs.Reading.{Reading};

use crate::class::Alphanumeric;
use crate::reading::{past_at_most, past_byte, past_one};

/// The greatest number of bytes in the name of an entity after its first one. No entity of HTML has
/// a longer name.
const NAME_REST_MOST: usize = 30;

/// Returns the length of a possible entity reference that a text begins with (CommonMark): `&`, 1
/// to 31 ASCII letters and digits, and `;`.
///
/// In `&amp; a` it is 5.
pub fn scan(text: &[u8]) -> Option<usize>
    ensures exact { MatchOption result (IsNotAt entity_reference text.now) (λ size. Leaves entity_reference text.now (drop size text.now)) }
    ensures most { IfSome result (λ size. size ≤ length text.now) }
    ensures least { IfSome result (λ size. 2 < size) }
    ensures cut { IfSome result (λ size. IsCut text.now size) }
    ensures in_line { IfSome result (λ size. IsInLine text.now size) }
    ensures ascii { IfSome result (λ size. IsAscii text.now size) }
{
    Some(text.len() - past(text)?.len())
}

/// Returns the text after a possible entity reference.
fn past(text: &[u8]) -> Option<&[u8]>
    ensures { Reading entity_reference text.now (λ rest. rest.now) result }
{
    let rest = past_one::<Alphanumeric>(past_byte(text, b'&')?)?;
    past_byte(past_at_most::<Alphanumeric>(rest, NAME_REST_MOST), b';')
}
