//! Fences that open code (CommonMark).

ghost use Rattle.std.specs.Prelude.{◌≤◌, ◌<◌, MatchOption, drop, length, slice_index, IfSome, IsSome};
ghost use Rattle.commonmark_syntax.specs.Blocks.{code_fence, none_to_end, run};
ghost use Rattle.commonmark_syntax.specs.Cuts.{IsCut};
ghost use Rattle.commonmark_syntax.specs.Language.{IsNotAt, Leaves, ◌then◌};
ghost use Rattle.commonmark_syntax.specs.Reading.{Reading};

use crate::reading::{past_none_to_end, past_run};

/// The smallest number of signs in a fence (CommonMark).
const SIGNS_LEAST: usize = 3;

/// Returns the number of signs of the code fence that a line opens with, if it does: backticks,
/// with none in the rest of the line, or tildes (CommonMark).
///
/// In `~~~ a` it is 3.
pub fn scan(text: &[u8]) -> Option<usize>
    ensures exact { MatchOption result (IsNotAt code_fence text.now) (λ size. Leaves code_fence text.now (drop size text.now)) }
    ensures most { IfSome result (λ size. size ≤ length text.now) }
    ensures least { IfSome result (λ size. 2 < size) }
    ensures first { IsSome result → slice_index text.now 0 < 128 }
    ensures cut { IfSome result (λ size. IsCut text.now size) }
{
    Some(text.len() - past(text)?.len())
}

/// Returns the text after the signs of a fence.
fn past(text: &[u8]) -> Option<&[u8]>
    ensures { Reading code_fence text.now (λ rest. rest.now) result }
{
    if let Some(rest) = past_backticks(text) {
        return Some(rest);
    }
    past_run(text, b'~', SIGNS_LEAST)
}

/// Returns the text after backticks, with none in the rest of the line.
fn past_backticks(text: &[u8]) -> Option<&[u8]>
    ensures { Reading (run 3 96 then none_to_end 96) text.now (λ rest. rest.now) result }
{
    past_none_to_end(past_run(text, b'`', SIGNS_LEAST)?, b'`')
}
