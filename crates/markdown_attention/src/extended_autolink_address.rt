//! Addresses of extended autolinks: a domain and a path, without punctuation at their end (GFM).

ghost use Rattle.std.specs.Prelude.{◌≡◌, ◌≤◌, ◌<◌, ◌+◌, ◌-◌, ℕ, IfSome, IsFalse, IsTrue, List, MatchOption, None, Some, drop, false, length, slice_index, take, true};
ghost use Rattle.std.specs.Str.{IsUtf8, all_scalars, encode_utf8_all};
ghost use Rattle.commonmark_syntax.specs.Blocks.{has};
ghost use Rattle.commonmark_syntax.specs.Cuts.{IsCut, IsInLine};
ghost use Rattle.markdown_attention.specs.ExtendedAddresses as page;

use crate::extended_autolink_segments;
use commonmark_syntax::bytes::{after, count_back};
use commonmark_syntax::extended_autolink_path;

/// A domain that was refused for an underscore. No address begins in it before that underscore.
///
/// It is not read again. All searches together are linear, since no bracket opens or closes within
/// a domain.
#[derive(Clone, Copy, PartialEq, Eq, Debug)]
pub struct RefusedDomain {
    /// Whether a bracket is open before it.
    in_bracket: bool,
    /// The offset in the content where it begins.
    start: usize,
    /// The offset of the underscore.
    end: usize,
}

impl RefusedDomain {
    /// Returns the state in which no domain has been refused yet.
    pub fn new() -> RefusedDomain
        ensures { (content : List ℕ) → page.IsRefused content result }
    {
        RefusedDomain {
            in_bracket: false,
            start: 0,
            end: 0,
        }
    }

    /// Whether it is known that no address begins at an offset.
    fn covers(&self, at: usize, in_bracket: bool) -> bool
        ensures bracket { IsTrue result → self.now.in_bracket ≡ in_bracket }
        ensures start { IsTrue result → self.now.start ≤ at }
        ensures end { IsTrue result → at < self.now.end }
        ensures other { IsFalse result → self.now.in_bracket ≡ in_bracket → self.now.start ≤ at → self.now.end ≤ at }
    {
        self.in_bracket == in_bracket && self.start <= at && at < self.end
    }
}

/// Returns the length of the address that begins at an offset of a content. With `in_bracket` a
/// bracket is open before it.
///
/// If its domain is refused for an underscore, that is stored in `refused`.
pub fn scan(
    content: &[u8],
    at: usize,
    in_bracket: bool,
    refused: &mut RefusedDomain,
) -> Option<usize>
    requires within { at ≤ length content.now }
    requires refused { page.IsRefused content.now refused.old }
    ensures refused { IsCut content.now at → page.IsRefused content.now refused.new }
    ensures exact { IsUtf8 content.now → (characters : List ℕ) → all_scalars characters ≡ true → drop at content.now ≡ encode_utf8_all characters → MatchOption result (page.address in_bracket (drop at content.now) (encode_utf8_all (page.segments characters)) ≡ None) (λ size. page.address in_bracket (drop at content.now) (encode_utf8_all (page.segments characters)) ≡ Some (take size (drop at content.now))) }
    ensures most { IfSome result (λ size. size ≤ length content.now - at) }
    ensures in_line { IfSome result (λ size. IsInLine (drop at content.now) size) }
    ensures next { IfSome result (λ size. at + size < length content.now → slice_index content.now (at + size) < 128) }
{
    if refused.covers(at, in_bracket) {
        return None;
    }
    let text = after(content, at);
    let whole = extended_autolink_segments::size(text);
    let size = domain_size(text, whole, in_bracket);
    if size == 0 {
        return None;
    }
    let domain = &text[..size];
    if let Some(place) = last_underscore(domain) {
        *refused = RefusedDomain {
            in_bracket,
            start: at,
            end: at + place,
        };
        return None;
    }
    Some(size + extended_autolink_path::scan(after(text, size), in_bracket))
}

/// Returns the size of the domain that a text begins with, given that its segments have this size.
/// Underscores at its end are not part of it if the address would end with them (micromark), nor
/// are the periods between them.
fn domain_size(text: &[u8], whole: usize, in_bracket: bool) -> usize
    requires { whole ≤ length text.now }
    ensures exact { take result text.now ≡ page.domain in_bracket text.now (take whole text.now) }
    ensures most { result ≤ whole }
{
    let stem = stem_size(&text[..whole]);
    if extended_autolink_path::is_trail(after(text, stem), in_bracket) {
        stem
    } else {
        whole
    }
}

/// Returns the size of segments without the periods and underscores at their end.
fn stem_size(segments: &[u8]) -> usize
    ensures exact { take result segments.now ≡ page.stem segments.now }
    ensures most { result ≤ length segments.now }
{
    segments.len() - count_back(segments, is_period_or_underscore)
}

/// Whether a byte is a period or an underscore.
fn is_period_or_underscore(byte: u8) -> bool
    ensures { result ≡ page.is_period_or_underscore byte }
{
    byte == b'.' || byte == b'_'
}

/// Returns the offset of the last underscore in the last two segments of a domain.
fn last_underscore(domain: &[u8]) -> Option<usize>
    ensures { MatchOption result (has 95 (page.last_two_segments domain.now) ≡ false) (λ place. (place < length domain.now) × (slice_index domain.now place ≡ 95) × (has 95 (page.last_two_segments domain.now) ≡ true)) }
{
    let clean = count_back(domain, |byte| byte != b'_');
    if clean < last_two_size(domain) {
        Some(domain.len() - clean - 1)
    } else {
        None
    }
}

/// Returns the size of the last two segments of a domain.
fn last_two_size(domain: &[u8]) -> usize
    ensures exact { drop (length domain.now - result) domain.now ≡ page.last_two_segments domain.now }
    ensures most { result ≤ length domain.now }
{
    let last = count_back(domain, |byte| byte != b'.');
    if last == domain.len() {
        return last;
    }
    let front = &domain[..domain.len() - last - 1];
    last + 1 + count_back(front, |byte| byte != b'.')
}
