//! Fences of frontmatter (micromark).

ghost use Rattle.std.specs.Prelude.{◌≡◌, ◌≤◌, ◌<◌, MatchOption, drop, length, IfSome};
ghost use Rattle.commonmark_syntax.specs.Blocks.{frontmatter_fence};
ghost use Rattle.commonmark_syntax.specs.Cuts.{IsCut};
ghost use Rattle.commonmark_syntax.specs.Language.{IsNotAt, Leaves};
ghost use Rattle.commonmark_syntax.specs.Reading.{Reading};

use crate::reading::{past_blank_to_end, past_word};

/// Returns the number of signs of the frontmatter fence in a line, if the line is one: three, with
/// only spaces and tabs after them (micromark).
///
/// For hyphens it is 3 in `---`.
pub fn scan(text: &[u8], sign: u8) -> Option<usize>
    ensures exact { MatchOption result (IsNotAt (frontmatter_fence sign) text.now) (λ size. Leaves (frontmatter_fence sign) text.now (drop size text.now)) }
    ensures most { IfSome result (λ size. size ≤ length text.now) }
    ensures size { IfSome result (λ size. size ≡ 3) }
    ensures cut { sign < 128 → IfSome result (λ size. IsCut text.now size) }
{
    Some(text.len() - past(text, sign)?.len())
}

/// Returns the text after the signs of a fence.
fn past(text: &[u8], sign: u8) -> Option<&[u8]>
    ensures { Reading (frontmatter_fence sign) text.now (λ rest. rest.now) result }
{
    past_blank_to_end(past_word(text, &[sign, sign, sign])?)
}
