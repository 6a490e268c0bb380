//! Email autolinks: email addresses in angle brackets (CommonMark).

ghost use Rattle.std.specs.Prelude.{◌≤◌, ◌<◌, ◌-◌, ◌≡◌, MatchOption, drop, length, slice_index, IfSome};
ghost use Rattle.commonmark_syntax.specs.Cuts.{IsCut, IsInLine};
ghost use Rattle.commonmark_syntax.specs.Inlines as page;
ghost use Rattle.commonmark_syntax.specs.Language.{IsNotAt, Leaves, many, one, some};
ghost use Rattle.commonmark_syntax.specs.Reading.{Reading, read};

use crate::class::{Alphanumeric, Class, OfDomainLabel, OfLocalPart};
use crate::reading::{past_all, past_byte, past_every, past_one};

/// The greatest number of bytes in a label of a domain (CommonMark).
const LABEL_MOST: usize = 63;

/// Returns the length of the email autolink that a text begins with (CommonMark): `<`, an email
/// address, and `>`.
///
/// In `<a@b.c> d` it is 7.
pub fn scan(text: &[u8]) -> Option<usize>
    ensures exact { MatchOption result (IsNotAt page.email_autolink text.now) (λ size. Leaves page.email_autolink text.now (drop size text.now)) }
    ensures most { IfSome result (λ size. size ≤ length text.now) }
    ensures least { IfSome result (λ size. 3 < size) }
    ensures first { IfSome result (λ size. slice_index text.now 0 ≡ 60) }
    ensures last { IfSome result (λ size. slice_index text.now (size - 1) ≡ 62) }
    ensures cut { IfSome result (λ size. IsCut text.now size) }
    ensures in_line { IfSome result (λ size. IsInLine text.now size) }
{
    Some(text.len() - past(text)?.len())
}

/// Returns the text after an email autolink.
fn past(text: &[u8]) -> Option<&[u8]>
    ensures { Reading page.email_autolink text.now (λ rest. rest.now) result }
{
    past_byte(past_address(past_byte(text, b'<')?)?, b'>')
}

/// Returns the text after an email address.
fn past_address(text: &[u8]) -> Option<&[u8]>
    ensures { Reading page.email_address text.now (λ rest. rest.now) result }
{
    let rest = past_byte(past_local_part(text)?, b'@')?;
    Some(past_next_labels(past_label(rest)?))
}

/// Returns the text after the part of an address before its at sign.
fn past_local_part(text: &[u8]) -> Option<&[u8]>
    ensures { Reading (some (one page.is_of_local_part)) text.now (λ rest. rest.now) result }
{
    let rest = past_one::<OfLocalPart>(text)?;
    Some(past_all::<OfLocalPart>(rest))
}

/// Returns the text after all labels of a domain except its first.
#[tactic(auto, using(crate::proofs::Loops::many_done))]
fn past_next_labels(text: &[u8]) -> &[u8]
    ensures { read (many page.next_domain_label) text.now ≡ Some result.now }
{
    let mut rest = text;
    'labels: while let Some(tail) = past_next_label(rest) {
        rest = tail;
    }
    rest
}

/// Returns the text after a label of a domain, with the period before it.
fn past_next_label(text: &[u8]) -> Option<&[u8]>
    ensures { Reading page.next_domain_label text.now (λ rest. rest.now) result }
{
    past_label(past_byte(text, b'.')?)
}

/// Returns the text after a label of a domain.
fn past_label(text: &[u8]) -> Option<&[u8]>
    ensures { Reading page.domain_label text.now (λ rest. rest.now) result }
{
    let rest = past_every::<OfDomainLabel>(text);
    let size = text.len() - rest.len();
    if is_label(&text[..size]) {
        Some(rest)
    } else {
        None
    }
}

/// Whether a run of letters, digits and hyphens is a label of a domain.
fn is_label(run: &[u8]) -> bool
    ensures { result ≡ page.is_domain_label run.now }
{
    if run.is_empty() || run.len() > LABEL_MOST {
        return false;
    }
    let is_begun = Alphanumeric::has(run[0]);
    let is_ended = Alphanumeric::has(run[run.len() - 1]);
    is_begun && is_ended
}
