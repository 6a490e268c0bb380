//! Underlines of setext headings (CommonMark).

ghost use Rattle.std.specs.Prelude.{◌≤◌, ◌<◌, MatchOption, drop, length, IfSome};
ghost use Rattle.commonmark_syntax.specs.Blocks.{run, setext_underline};
ghost use Rattle.commonmark_syntax.specs.Cuts.{IsCut};
ghost use Rattle.commonmark_syntax.specs.Language.{IsNotAt, Leaves, ◌or◌};
ghost use Rattle.commonmark_syntax.specs.Reading.{Reading};

use crate::reading::{past_blank_to_end, past_run};

/// Returns the number of signs of the underline in a line, if the line is one: equals signs or
/// hyphens, with only spaces and tabs after them (CommonMark).
///
/// In `===` it is 3.
pub fn scan(text: &[u8]) -> Option<usize>
    ensures exact { MatchOption result (IsNotAt setext_underline text.now) (λ size. Leaves setext_underline text.now (drop size text.now)) }
    ensures most { IfSome result (λ size. size ≤ length text.now) }
    ensures least { IfSome result (λ size. 0 < size) }
    ensures cut { IfSome result (λ size. IsCut text.now size) }
{
    Some(text.len() - past(text)?.len())
}

/// Returns the text after the signs of an underline.
fn past(text: &[u8]) -> Option<&[u8]>
    ensures { Reading setext_underline text.now (λ rest. rest.now) result }
{
    past_blank_to_end(past_signs(text)?)
}

/// Returns the text after equals signs or hyphens.
fn past_signs(text: &[u8]) -> Option<&[u8]>
    ensures { Reading (run 1 61 or run 1 45) text.now (λ rest. rest.now) result }
{
    if let Some(rest) = past_run(text, b'=', 1) {
        return Some(rest);
    }
    past_run(text, b'-', 1)
}
