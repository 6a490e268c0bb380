//! Names of HTML tags (CommonMark).

ghost use Rattle.std.specs.Prelude.{◌≡◌, ◌≤◌, ◌<◌, MatchOption, drop, length, IfSome};
ghost use Rattle.commonmark_syntax.specs.Cuts.{IsCut, IsInLine};
ghost use Rattle.commonmark_syntax.specs.Language.{IsNotAt, Leaves};
ghost use Rattle.commonmark_syntax.specs.Reading.{Reading};
ghost use Rattle.commonmark_syntax.specs.Syntax.{tag_name, whole_tag_name};

use crate::class::{Letter, OfTagName};
use crate::reading::{past_all, past_one};

/// Returns the length of the name of a tag that a text begins with: a letter, and then letters,
/// digits and hyphens, all ASCII (CommonMark).
///
/// In `h1>` it is 2.
pub fn scan(text: &[u8]) -> Option<usize>
    ensures exact { MatchOption result (IsNotAt whole_tag_name text.now) (λ size. Leaves whole_tag_name text.now (drop size text.now)) }
    ensures most { IfSome result (λ size. size ≤ length text.now) }
    ensures least { IfSome result (λ size. 0 < size) }
    ensures cut { IfSome result (λ size. IsCut text.now size) }
    ensures in_line { IfSome result (λ size. IsInLine text.now size) }
{
    Some(text.len() - past_whole(text)?.len())
}

/// Returns the text after the whole name of a tag.
#[tactic(auto, using(crate::proofs::Names::whole_name))]
pub(crate) fn past_whole(text: &[u8]) -> Option<&[u8]>
    ensures { Reading whole_tag_name text.now (λ rest. rest.now) result }
{
    past(text)
}

/// Returns the text after the name of a tag.
pub(crate) fn past(text: &[u8]) -> Option<&[u8]>
    ensures { Reading tag_name text.now (λ rest. rest.now) result }
{
    let rest = past_one::<Letter>(text)?;
    Some(past_all::<OfTagName>(rest))
}
