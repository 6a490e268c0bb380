//! Beginnings of extended autolinks: `www.`, or a scheme with its slashes (GFM).

ghost use Rattle.std.specs.Prelude.{◌≡◌, ◌≤◌, ◌<◌, MatchOption, codes, drop, length, IfSome};
ghost use Rattle.commonmark_syntax.specs.Cuts.{IsInLine};
ghost use Rattle.commonmark_syntax.specs.Inlines as page;
ghost use Rattle.commonmark_syntax.specs.Language.{IsNotAt, Leaves, one, optional, ◌then◌};
ghost use Rattle.commonmark_syntax.specs.Reading.{Reading};

use crate::reading::past_word;

/// Returns the length of the beginning of an extended autolink, before its domain, if a text begins
/// with one (GFM): `www.`, `http://`, `https://` or `ftp://`, in letters of either case.
///
/// In `HTTP://a` it is 7.
pub fn scan(text: &[u8]) -> Option<usize>
    ensures exact { MatchOption result (IsNotAt page.extended_autolink_start text.now) (λ size. Leaves page.extended_autolink_start text.now (drop size text.now)) }
    ensures most { IfSome result (λ size. size ≤ length text.now) }
    ensures least { IfSome result (λ size. 3 < size) }
    ensures in_line { IfSome result (λ size. IsInLine text.now size) }
{
    Some(text.len() - past(text)?.len())
}

/// Returns the text after the beginning of an extended autolink.
fn past(text: &[u8]) -> Option<&[u8]>
    ensures { Reading page.extended_autolink_start text.now (λ rest. rest.now) result }
{
    if let Some(rest) = past_any_case(text, b"www.") {
        return Some(rest);
    }
    past_word(past_scheme(text)?, b"://")
}

/// Returns the text after a scheme of an extended autolink.
fn past_scheme(text: &[u8]) -> Option<&[u8]>
    ensures { Reading page.extended_scheme text.now (λ rest. rest.now) result }
{
    if let Some(rest) = past_http(text) {
        return Some(rest);
    }
    past_any_case(text, b"ftp")
}

/// Returns the text after `http` or `https`.
fn past_http(text: &[u8]) -> Option<&[u8]>
    ensures { Reading (page.in_any_case (codes "http") then optional (page.in_any_case (codes "s"))) text.now (λ rest. rest.now) result }
{
    let rest = past_any_case(text, b"http")?;
    match past_any_case(rest, b"s") {
        Some(tail) => Some(tail),
        None => Some(rest),
    }
}

/// Returns the text after this lowercase word, in letters of either case.
#[tactic(auto, using(crate::proofs::AnyCase::letter_read, crate::proofs::AnyCase::letter_missing))]
pub fn past_any_case<'a>(text: &'a [u8], expected: &[u8]) -> Option<&'a [u8]>
    ensures { Reading (page.in_any_case expected.now) text.now (λ rest. rest.now) result }
{
    let mut rest = text;
    let mut left = expected;
    'letters: while let [small, more @ ..] = left {
        rest = past_letter(rest, *small)?;
        left = more;
    }
    Some(rest)
}

/// Returns the text after the byte `small`, in either case if it is a letter.
fn past_letter(text: &[u8], small: u8) -> Option<&[u8]>
    ensures { Reading (one (page.is_in_any_case small)) text.now (λ rest. rest.now) result }
{
    match text {
        [first, rest @ ..] if first.to_ascii_lowercase() == small => Some(rest),
        _ => None,
    }
}
