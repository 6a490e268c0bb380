//! HTML declarations (CommonMark).

ghost use Rattle.std.specs.Prelude.{◌≤◌, ◌<◌, MatchOption, drop, length, IfSome};
ghost use Rattle.commonmark_syntax.specs.Cuts.{IsCut};
ghost use Rattle.commonmark_syntax.specs.Language.{IsNotAt, Leaves};
ghost use Rattle.commonmark_syntax.specs.Reading.{Reading};
ghost use Rattle.commonmark_syntax.specs.Syntax.{declaration};

use crate::class::Letter;
use crate::reading::{past_first, past_one, past_word};

/// Returns the length of the declaration that a text begins with (CommonMark): `<!`, an ASCII
/// letter, and everything up to the first `>` after it.
///
/// In `<!a b> c` it is 6.
pub fn scan(text: &[u8]) -> Option<usize>
    ensures exact { MatchOption result (IsNotAt declaration text.now) (λ size. Leaves declaration text.now (drop size text.now)) }
    ensures most { IfSome result (λ size. size ≤ length text.now) }
    ensures least { IfSome result (λ size. 3 < size) }
    ensures cut { IfSome result (λ size. IsCut text.now size) }
{
    Some(text.len() - past(text)?.len())
}

/// Returns the text after a declaration.
fn past(text: &[u8]) -> Option<&[u8]>
    ensures { Reading declaration text.now (λ rest. rest.now) result }
{
    let rest = past_one::<Letter>(past_word(text, b"<!")?)?;
    past_first(rest, b">")
}
