//! Marks of tasks (GFM).

ghost use Rattle.std.specs.Prelude.{◌≡◌, ◌≤◌, MatchOption, drop, length, not, slice_index, IfSome};
ghost use Rattle.std.specs.List.{list_any};
ghost use Rattle.commonmark_syntax.specs.Cuts.{IsAscii};
ghost use Rattle.commonmark_syntax.specs.Inlines.{begins_no_task, begins_with, is_gfm_white_space, task_mark};
ghost use Rattle.commonmark_syntax.specs.Language.{IsNotAt, Leaves, nothing, unless};
ghost use Rattle.commonmark_syntax.specs.Reading.{Reading};

use crate::class::{Class, TaskValue, WhiteSpace};
use crate::reading::{past_byte, past_one};

/// Returns the length of the mark of a task that a text begins with (GFM): `[`, white space, `x` or
/// `X`, and `]`. White space comes after it, and then more of the text.
///
/// In `[x] a` it is 3.
pub fn scan(text: &[u8]) -> Option<usize>
    ensures exact { MatchOption result (IsNotAt task_mark text.now) (λ size. Leaves task_mark text.now (drop size text.now)) }
    ensures size { IfSome result (λ size. size ≡ 3) }
    ensures most { IfSome result (λ size. size ≤ length text.now) }
    ensures first { IfSome result (λ size. slice_index text.now 0 ≡ 91) }
    ensures last { IfSome result (λ size. slice_index text.now 2 ≡ 93) }
    ensures ascii { IfSome result (λ size. IsAscii text.now size) }
{
    Some(text.len() - past(text)?.len())
}

/// Returns the text after the mark of a task.
fn past(text: &[u8]) -> Option<&[u8]>
    ensures { Reading task_mark text.now (λ rest. rest.now) result }
{
    let rest = past_one::<TaskValue>(past_byte(text, b'[')?)?;
    before_task(past_byte(rest, b']')?)
}

/// Returns the text, if it may come after the mark of a task.
fn before_task(text: &[u8]) -> Option<&[u8]>
    ensures { Reading (unless begins_no_task nothing) text.now (λ rest. rest.now) result }
{
    if begins_no_task(text) {
        return None;
    }
    Some(text)
}

/// Whether a text does not begin with white space, or is only white space.
fn begins_no_task(text: &[u8]) -> bool
    ensures { result ≡ begins_no_task text.now }
{
    !(begins_with_white_space(text) && has_more_than_white_space(text))
}

/// Whether a text begins with white space.
fn begins_with_white_space(text: &[u8]) -> bool
    ensures { result ≡ begins_with is_gfm_white_space text.now }
{
    match text {
        [first, ..] => WhiteSpace::has(*first),
        [] => false,
    }
}

/// Whether a text contains more than white space.
fn has_more_than_white_space(text: &[u8]) -> bool
    ensures { result ≡ list_any (λ c. not (is_gfm_white_space c)) text.now }
{
    text.iter().any(|byte| !WhiteSpace::has(*byte))
}
