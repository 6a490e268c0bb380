//! HTML processing instructions (CommonMark).

ghost use Rattle.std.specs.Prelude.{◌≤◌, ◌<◌, MatchOption, drop, length, IfSome};
ghost use Rattle.commonmark_syntax.specs.Cuts.{IsCut};
ghost use Rattle.commonmark_syntax.specs.Language.{IsNotAt, Leaves};
ghost use Rattle.commonmark_syntax.specs.Reading.{Reading};
ghost use Rattle.commonmark_syntax.specs.Syntax.{processing_instruction};

use crate::reading::{past_first, past_word};

/// Returns the length of the processing instruction that a text begins with (CommonMark): `<?` up
/// to the first `?>` after it.
///
/// In `<?a?> b` it is 5.
pub fn scan(text: &[u8]) -> Option<usize>
    ensures exact { MatchOption result (IsNotAt processing_instruction text.now) (λ size. Leaves processing_instruction text.now (drop size text.now)) }
    ensures most { IfSome result (λ size. size ≤ length text.now) }
    ensures least { IfSome result (λ size. 3 < size) }
    ensures cut { IfSome result (λ size. IsCut text.now size) }
{
    Some(text.len() - past(text)?.len())
}

/// Returns the text after a processing instruction.
fn past(text: &[u8]) -> Option<&[u8]>
    ensures { Reading processing_instruction text.now (λ rest. rest.now) result }
{
    past_first(past_word(text, b"<?")?, b"?>")
}
