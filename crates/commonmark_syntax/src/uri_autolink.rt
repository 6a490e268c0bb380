//! URI autolinks: absolute URIs in angle brackets (CommonMark).

ghost use Rattle.std.specs.Prelude.{◌≤◌, ◌<◌, ◌-◌, ◌≡◌, MatchOption, drop, length, slice_index, IfSome};
ghost use Rattle.commonmark_syntax.specs.Cuts.{IsCut, IsInLine};
ghost use Rattle.commonmark_syntax.specs.Inlines.{absolute_uri, scheme, uri_autolink};
ghost use Rattle.commonmark_syntax.specs.Language.{IsNotAt, Leaves};
ghost use Rattle.commonmark_syntax.specs.Reading.{Reading};

use crate::class::{Letter, OfScheme, OfUri};
use crate::reading::{past_all, past_at_most, past_byte, past_one};

/// The greatest number of bytes in a scheme after its first two (CommonMark).
const SCHEME_REST_MOST: usize = 30;

/// Returns the length of the URI autolink that a text begins with (CommonMark): `<`, a scheme, `:`,
/// the rest of the URI, and `>`.
///
/// In `<ab:c> d` it is 6.
pub fn scan(text: &[u8]) -> Option<usize>
    ensures exact { MatchOption result (IsNotAt uri_autolink text.now) (λ size. Leaves uri_autolink text.now (drop size text.now)) }
    ensures most { IfSome result (λ size. size ≤ length text.now) }
    ensures least { IfSome result (λ size. 4 < size) }
    ensures first { IfSome result (λ size. slice_index text.now 0 ≡ 60) }
    ensures last { IfSome result (λ size. slice_index text.now (size - 1) ≡ 62) }
    ensures cut { IfSome result (λ size. IsCut text.now size) }
    ensures in_line { IfSome result (λ size. IsInLine text.now size) }
{
    Some(text.len() - past(text)?.len())
}

/// Returns the text after a URI autolink.
fn past(text: &[u8]) -> Option<&[u8]>
    ensures { Reading uri_autolink text.now (λ rest. rest.now) result }
{
    past_byte(past_uri(past_byte(text, b'<')?)?, b'>')
}

/// Returns the text after an absolute URI.
fn past_uri(text: &[u8]) -> Option<&[u8]>
    ensures { Reading absolute_uri text.now (λ rest. rest.now) result }
{
    let rest = past_byte(past_scheme(text)?, b':')?;
    Some(past_all::<OfUri>(rest))
}

/// Returns the text after a scheme.
fn past_scheme(text: &[u8]) -> Option<&[u8]>
    ensures { Reading scheme text.now (λ rest. rest.now) result }
{
    let rest = past_one::<OfScheme>(past_one::<Letter>(text)?)?;
    Some(past_at_most::<OfScheme>(rest, SCHEME_REST_MOST))
}
