//! Fences that close code or math (CommonMark).

ghost use Rattle.std.specs.Prelude.{◌≤◌, ◌<◌, MatchOption, drop, length, IfSome};
ghost use Rattle.commonmark_syntax.specs.Blocks.{closing_fence};
ghost use Rattle.commonmark_syntax.specs.Cuts.{IsCut};
ghost use Rattle.commonmark_syntax.specs.Language.{IsNotAt, Leaves};
ghost use Rattle.commonmark_syntax.specs.Reading.{Reading};

use crate::reading::{past_blank_to_end, past_run};

/// Returns the number of signs of the fence in a line, if the line closes a fence of `opened`
/// signs: at least as many of them, with only spaces and tabs after them (CommonMark).
///
/// For a fence of three tildes it is 4 in four tildes.
pub fn scan(text: &[u8], sign: u8, opened: usize) -> Option<usize>
    ensures exact { MatchOption result (IsNotAt (closing_fence sign opened) text.now) (λ size. Leaves (closing_fence sign opened) text.now (drop size text.now)) }
    ensures most { IfSome result (λ size. size ≤ length text.now) }
    ensures cut { sign < 128 → IfSome result (λ size. IsCut text.now size) }
{
    Some(text.len() - past(text, sign, opened)?.len())
}

/// Returns the text after the signs of a closing fence.
fn past(text: &[u8], sign: u8, opened: usize) -> Option<&[u8]>
    ensures { Reading (closing_fence sign opened) text.now (λ rest. rest.now) result }
{
    past_blank_to_end(past_run(text, sign, opened)?)
}
