//! Fences that open math (micromark).

ghost use Rattle.std.specs.Prelude.{◌≤◌, ◌<◌, MatchOption, drop, length, IfSome};
ghost use Rattle.commonmark_syntax.specs.Blocks.{math_fence};
ghost use Rattle.commonmark_syntax.specs.Cuts.{IsCut};
ghost use Rattle.commonmark_syntax.specs.Language.{IsNotAt, Leaves};
ghost use Rattle.commonmark_syntax.specs.Reading.{Reading};

use crate::reading::{past_none_to_end, past_run};

/// The smallest number of signs in a fence (micromark).
const SIGNS_LEAST: usize = 2;

/// Returns the number of signs of the math fence that a line opens with, if it does: dollar signs,
/// with none in the rest of the line (micromark).
///
/// In `$$ a` it is 2.
pub fn scan(text: &[u8]) -> Option<usize>
    ensures exact { MatchOption result (IsNotAt math_fence text.now) (λ size. Leaves math_fence text.now (drop size text.now)) }
    ensures most { IfSome result (λ size. size ≤ length text.now) }
    ensures least { IfSome result (λ size. 1 < size) }
    ensures cut { IfSome result (λ size. IsCut text.now size) }
{
    Some(text.len() - past(text)?.len())
}

/// Returns the text after the signs of a fence.
fn past(text: &[u8]) -> Option<&[u8]>
    ensures { Reading math_fence text.now (λ rest. rest.now) result }
{
    past_none_to_end(past_run(text, b'$', SIGNS_LEAST)?, b'$')
}
