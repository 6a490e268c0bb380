//! HTML comments (CommonMark).

ghost use Rattle.std.specs.Prelude.{◌≡◌, ◌≤◌, ◌<◌, MatchOption, codes, drop, length, IfSome};
ghost use Rattle.commonmark_syntax.specs.Cuts.{IsCut};
ghost use Rattle.commonmark_syntax.specs.Language.{IsNotAt, Leaves, through, unless};
ghost use Rattle.commonmark_syntax.specs.Reading.{Reading};
ghost use Rattle.commonmark_syntax.specs.Syntax.{begins_short, comment, long_comment};

use crate::reading::{past_first, past_word};

/// Returns the length of the comment that a text begins with (CommonMark 0.31): `<!-->`, `<!--->`,
/// or `<!--` up to the first `-->` after it.
///
/// In `<!-- a --> b` it is 10.
pub fn scan(text: &[u8]) -> Option<usize>
    ensures exact { MatchOption result (IsNotAt comment text.now) (λ size. Leaves comment text.now (drop size text.now)) }
    ensures most { IfSome result (λ size. size ≤ length text.now) }
    ensures least { IfSome result (λ size. 4 < size) }
    ensures cut { IfSome result (λ size. IsCut text.now size) }
{
    Some(text.len() - past(text)?.len())
}

/// Returns the text after a comment.
fn past(text: &[u8]) -> Option<&[u8]>
    ensures { Reading comment text.now (λ rest. rest.now) result }
{
    if let Some(rest) = past_word(text, b"<!-->") {
        return Some(rest);
    }
    if let Some(rest) = past_word(text, b"<!--->") {
        return Some(rest);
    }
    past_long(text)
}

/// Returns the text after a comment that is neither of the short ones.
fn past_long(text: &[u8]) -> Option<&[u8]>
    ensures { Reading long_comment text.now (λ rest. rest.now) result }
{
    past_inside(past_word(text, b"<!--")?)
}

/// Returns the text after the text of such a comment, with its end.
fn past_inside(text: &[u8]) -> Option<&[u8]>
    ensures { Reading (unless begins_short (through (codes "-->"))) text.now (λ rest. rest.now) result }
{
    if begins_short(text) {
        return None;
    }
    past_first(text, b"-->")
}

/// Whether a text begins like the end of a short comment.
fn begins_short(text: &[u8]) -> bool
    ensures { result ≡ begins_short text.now }
{
    match text {
        [b'>', ..] | [b'-', b'>', ..] => true,
        _ => false,
    }
}
