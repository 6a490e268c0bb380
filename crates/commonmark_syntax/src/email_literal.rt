//! Email autolinks without angle brackets: email addresses in text (GFM).

ghost use Rattle.std.specs.Prelude.{◌≡◌, ◌≤◌, ◌<◌, ◌+◌, IfSome, List, MatchOption, Some, drop, false, length, slice_index, take, true, ℕ};
ghost use Rattle.commonmark_syntax.specs.Cuts.{IsCut};
ghost use Rattle.commonmark_syntax.specs.EmailLiterals as page;
ghost use Rattle.commonmark_syntax.specs.Inlines.{ends_with, in_any_case};
ghost use Rattle.commonmark_syntax.specs.Language.{Matches, many, one, ◌then◌};
ghost use Rattle.commonmark_syntax.specs.Reading.{Reading, read};
ghost use Rattle.commonmark_syntax.specs.Syntax.{byte, is_alphanumeric};
ghost use Rattle.commonmark_syntax.specs.declared.email_literal.EmailLiteral.{EmailLiteral};

use crate::bytes::{after, count_back, has_byte};
use crate::class::{Alphanumeric, Class, OfLiteralLocal, OfResource, OfSegment};
use crate::extended_autolink_start::past_any_case;
use crate::reading::{past_byte, past_one};

/// The protocol before the local part of an address.
#[derive(Clone, Copy, PartialEq, Eq, Debug)]
pub enum Kind {
    /// No protocol.
    Email,
    /// `mailto:`.
    Mailto,
    /// `xmpp:`.
    Xmpp,
}

/// An address in a text.
#[derive(Clone, Copy, PartialEq, Eq, Debug)]
pub struct EmailLiteral {
    /// The protocol before its local part.
    pub kind: Kind,
    /// The offset in the text where it begins.
    pub start: usize,
    /// The offset in the text where it ends.
    pub end: usize,
}

/// Returns the first address in a text (GFM): a local part, an at sign and a domain, with an
/// optional `mailto:` or `xmpp:` before them.
///
/// In `a b@c.d` it begins at 2 and ends at 7.
pub fn find(text: &[u8]) -> Option<EmailLiteral>
    ensures exact { MatchOption result (page.HasNoLiteral text.now) (page.IsFirstLiteral text.now) }
    ensures order { IfSome result (λ it. it.start < it.end) }
    ensures within { IfSome result (λ it. it.end ≤ length text.now) }
    ensures first { IfSome result (λ it. IsCut text.now it.start) }
    ensures last { IfSome result (λ it. IsCut text.now it.end) }
{
    for (at, byte) in text.iter().enumerate() {
        if *byte == b'@'
            && let Some(literal) = around(text, at)
        {
            return Some(literal);
        }
    }
    None
}

/// Returns the address around the at sign at an offset.
fn around(text: &[u8], at: usize) -> Option<EmailLiteral>
    requires within { at < length text.now }
    requires sign { slice_index text.now at ≡ 64 }
    ensures exact { MatchOption result ((it : EmailLiteral) → page.IsLiteralAt text.now at it → ⊥) (page.IsLiteralAt text.now at) }
    ensures first { IfSome result (λ it. IsCut text.now it.start) }
    ensures last { IfSome result (λ it. IsCut text.now it.end) }
{
    let beginning = with_protocol(before_local(&text[..at])?);
    let domain = domain_size(after(text, at + 1), beginning.kind)?;
    Some(EmailLiteral {
        kind: beginning.kind,
        start: beginning.start,
        end: at + 1 + domain,
    })
}

/// Returns the text before the local part that it ends with.
fn before_local(text: &[u8]) -> Option<&[u8]>
    ensures exact { MatchOption result ((front : List ℕ) → page.IsLocalPart text.now front → ⊥) (λ front. page.IsLocalPart text.now front.now) }
{
    let size = count_back(text, OfLiteralLocal::has);
    let front = &text[..text.len() - size];
    if size == 0 || ends_with_slash(front) {
        return None;
    }
    Some(front)
}

/// Whether a text ends with a slash.
fn ends_with_slash(text: &[u8]) -> bool
    ensures { result ≡ ends_with page.is_slash text.now }
{
    match text {
        [.., last] => *last == b'/',
        [] => false,
    }
}

/// Whether a text ends with a letter or a digit.
fn ends_with_alphanumeric(text: &[u8]) -> bool
    ensures { result ≡ ends_with is_alphanumeric text.now }
{
    match text {
        [.., last] => Alphanumeric::has(*last),
        [] => false,
    }
}

/// Where an address begins.
#[derive(Clone, Copy, PartialEq, Eq, Debug)]
struct Beginning {
    /// The protocol before its local part.
    kind: Kind,
    /// The offset in the text where it begins.
    start: usize,
}

/// Returns where an address begins whose local part comes after these bytes.
fn with_protocol(front: &[u8]) -> Beginning
    ensures exact { page.BeginsAfter front.now (take result.start front.now) result.kind }
    ensures within { result.start ≤ length front.now }
{
    if let Some(start) = before_protocol(front, b"mailto:") {
        return Beginning {
            kind: Kind::Mailto,
            start,
        };
    }
    if let Some(start) = before_protocol(front, b"xmpp:") {
        return Beginning {
            kind: Kind::Xmpp,
            start,
        };
    }
    Beginning {
        kind: Kind::Email,
        start: front.len(),
    }
}

/// Returns how many bytes come before a protocol that a text ends with, in letters of either case.
fn before_protocol(front: &[u8], protocol: &[u8]) -> Option<usize>
    ensures exact { MatchOption result (page.HasNoProtocol protocol.now front.now) (λ size. page.HasProtocol protocol.now front.now (take size front.now)) }
    ensures within { IfSome result (λ size. size ≤ length front.now) }
{
    let size = front.len().checked_sub(protocol.len())?;
    let (before, word) = front.split_at(size);
    if is_any_case(word, protocol) && !ends_with_alphanumeric(before) {
        Some(size)
    } else {
        None
    }
}

/// Whether a text is this lowercase word, in letters of either case.
fn is_any_case(text: &[u8], expected: &[u8]) -> bool
    ensures yes { result ≡ true → Matches (in_any_case expected.now) text.now }
    ensures no { result ≡ false → Matches (in_any_case expected.now) text.now → ⊥ }
{
    match past_any_case(text, expected) {
        Some(rest) => rest.is_empty(),
        None => false,
    }
}

/// Returns the size of the domain that a text begins with, in an address of this kind.
fn domain_size(text: &[u8], kind: Kind) -> Option<usize>
    ensures exact { MatchOption result ((t : List ℕ) → page.IsWholeDomain (page.domain_class kind) text.now t → ⊥) (λ size. page.IsWholeDomain (page.domain_class kind) text.now (drop size text.now)) }
    ensures most { IfSome result (λ size. size ≤ length text.now) }
    ensures cut { IfSome result (λ size. IsCut text.now size) }
{
    let rest = past_domain_of(text, kind)?;
    Some(text.len() - rest.len())
}

/// Returns the text after the domain of an address of this kind.
fn past_domain_of(text: &[u8], kind: Kind) -> Option<&[u8]>
    ensures { Reading (page.literal_domain (page.domain_class kind)) text.now (λ rest. rest.now) result }
{
    match kind {
        Kind::Xmpp => past_domain::<OfResource>(text),
        Kind::Email => past_domain::<OfSegment>(text),
        Kind::Mailto => past_domain::<OfSegment>(text),
    }
}

/// Returns the text after a domain.
fn past_domain<C: Class>(text: &[u8]) -> Option<&[u8]>
    ensures { Reading (page.literal_domain C.class) text.now (λ rest. rest.now) result }
{
    let rest = past_steps::<C>(past_one::<C>(text)?);
    let size = text.len() - rest.len();
    if is_domain(&text[..size]) {
        Some(rest)
    } else {
        None
    }
}

/// Whether segments of a domain form a domain.
fn is_domain(segments: &[u8]) -> bool
    ensures { result ≡ page.is_literal_domain segments.now }
{
    has_byte(segments, b'.') && ends_with_alphanumeric(segments)
}

/// Returns the text after all bytes of a domain except its first.
#[tactic(auto, using(crate::proofs::Loops::many_done))]
fn past_steps<C: Class>(text: &[u8]) -> &[u8]
    ensures { read (many (page.domain_step C.class)) text.now ≡ Some result.now }
{
    let mut rest = text;
    'steps: while let Some(tail) = past_step::<C>(rest) {
        rest = tail;
    }
    rest
}

/// Returns the text after a byte of a domain, or a period and a byte of a segment.
fn past_step<C: Class>(text: &[u8]) -> Option<&[u8]>
    ensures { Reading (page.domain_step C.class) text.now (λ rest. rest.now) result }
{
    if let Some(rest) = past_one::<C>(text) {
        return Some(rest);
    }
    past_period(text)
}

/// Returns the text after a period and a byte of a segment.
fn past_period(text: &[u8]) -> Option<&[u8]>
    ensures { Reading (byte 46 then one page.is_of_segment) text.now (λ rest. rest.now) result }
{
    past_one::<OfSegment>(past_byte(text, b'.')?)
}
