//! Opening sequences of headings with number signs (CommonMark).

ghost use Rattle.std.specs.Prelude.{◌≡◌, ◌≤◌, ◌<◌, MatchOption, drop, length, IfSome};
ghost use Rattle.commonmark_syntax.specs.Blocks.{atx_opening, is_at_most, run};
ghost use Rattle.commonmark_syntax.specs.Cuts.{IsCut};
ghost use Rattle.commonmark_syntax.specs.Language.{IsNotAt, Leaves, tested};
ghost use Rattle.commonmark_syntax.specs.Reading.{Reading};

use crate::reading::{past_blank_or_end, past_run};

/// The greatest number of number signs that a heading may begin with (CommonMark).
const SIGNS_MOST: usize = 6;

/// Returns the number of number signs that the heading in a line opens with, if there is one: one
/// to six, before a space, a tab, or the end of the line (CommonMark).
///
/// In `## a` it is 2.
pub fn scan(text: &[u8]) -> Option<usize>
    ensures exact { MatchOption result (IsNotAt atx_opening text.now) (λ size. Leaves atx_opening text.now (drop size text.now)) }
    ensures most { IfSome result (λ size. size ≤ length text.now) }
    ensures least { IfSome result (λ size. 0 < size) }
    ensures level { IfSome result (λ size. size ≤ 6) }
    ensures cut { IfSome result (λ size. IsCut text.now size) }
{
    Some(text.len() - past(text)?.len())
}

/// Returns the text after the signs that a heading opens with.
fn past(text: &[u8]) -> Option<&[u8]>
    ensures { Reading atx_opening text.now (λ rest. rest.now) result }
{
    past_blank_or_end(past_signs(text)?)
}

/// Returns the text after one to six number signs.
fn past_signs(text: &[u8]) -> Option<&[u8]>
    ensures { Reading (tested (is_at_most 6) (run 1 35)) text.now (λ rest. rest.now) result }
{
    let rest = past_run(text, b'#', 1)?;
    let size = text.len() - rest.len();
    if is_level(&text[..size]) {
        Some(rest)
    } else {
        None
    }
}

/// Whether these signs are few enough.
fn is_level(signs: &[u8]) -> bool
    ensures { result ≡ is_at_most 6 signs.now }
{
    signs.len() <= SIGNS_MOST
}
