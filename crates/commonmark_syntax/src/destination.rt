//! Destinations of links, images and definitions (CommonMark).

ghost use Rattle.std.specs.Prelude.{◌≡◌, ◌≢◌, ◌≤◌, ◌<◌, ◌-◌, ℕ, false, true, MatchOption, drop, length, slice_index, IfSome, None, Some};
ghost use Rattle.commonmark_syntax.specs.Cuts.{IsCut, IsInLine};
ghost use Rattle.commonmark_syntax.specs.Language.{IsNotAt, Leaves};
ghost use Rattle.commonmark_syntax.specs.Parentheses.{IsNoDestination, LeavesDestination, ends, kind, kind_in};
ghost use Rattle.commonmark_syntax.specs.Reading.{Reading};
ghost use Rattle.commonmark_syntax.specs.Syntax.{angle_destination};

use crate::bytes::{after, is_control};
use crate::class::{InAngleBrackets, InDestination, InLine};
use crate::reading::{past_byte, past_characters};
use crate::search::plain_length;

/// How deep parentheses may be nested in a destination without angle brackets. CommonMark requires
/// at least three; cmark and micromark allow this many.
const DEPTH_MOST: usize = 32;

/// What a byte is to a destination without angle brackets.
#[derive(Clone, Copy)]
enum Kind {
    /// It stands for itself.
    Plain,
    /// It escapes the byte after it.
    Escapes,
    /// It opens a pair.
    Opens,
    /// It closes a pair.
    Closes,
    /// It ends the destination.
    Stops,
}

/// Returns the length of the destination that a text begins with, with its angle brackets if it has
/// them (CommonMark).
///
/// In `<a b> c` it is 5, and in `a(b) c` it is 4.
#[tactic(auto, using(crate::proofs::Destinations::angle_exact))]
pub fn scan(text: &[u8]) -> Option<usize>
    ensures exact { MatchOption result (IsNoDestination text.now) (λ size. LeavesDestination text.now (drop size text.now)) }
    ensures most { IfSome result (λ size. size ≤ length text.now) }
    ensures least { IfSome result (λ size. 0 < size) }
    ensures cut { IfSome result (λ size. IsCut text.now size) }
    ensures in_line { IfSome result (λ size. IsInLine text.now size) }
    ensures enclosed { slice_index text.now 0 ≡ 60 → IfSome result (λ size. (1 < size) × (slice_index text.now (size - 1) ≡ 62)) }
    ensures inside { slice_index text.now 0 ≡ 60 → IfSome result (λ size. IsCut text.now 1 × IsCut text.now (size - 1)) }
    ensures raw { slice_index text.now 0 ≢ 60 → IfSome result (λ size. size < length text.now → slice_index text.now size < 128) }
{
    match text.first()? {
        b'<' => scan_angle(text),
        _ => scan_raw(text),
    }
}

/// Returns the length of the destination in angle brackets that a text begins with.
fn scan_angle(text: &[u8]) -> Option<usize>
    ensures exact { MatchOption result (IsNotAt angle_destination text.now) (λ size. Leaves angle_destination text.now (drop size text.now)) }
    ensures most { IfSome result (λ size. size ≤ length text.now) }
    ensures least { IfSome result (λ size. 1 < size) }
    ensures last { IfSome result (λ size. slice_index text.now (size - 1) ≡ 62) }
    ensures cut { IfSome result (λ size. IsCut text.now size) }
    ensures inside { IfSome result (λ size. IsCut text.now 1 × IsCut text.now (size - 1)) }
    ensures in_line { IfSome result (λ size. IsInLine text.now size) }
{
    Some(text.len() - past_angle(text)?.len())
}

/// Returns the text after a destination in angle brackets.
fn past_angle(text: &[u8]) -> Option<&[u8]>
    ensures { Reading angle_destination text.now (λ rest. rest.now) result }
{
    let inside = past_byte(text, b'<')?;
    past_byte(past_characters::<InLine, InAngleBrackets>(inside), b'>')
}

/// Returns the length of the destination without angle brackets that a text begins with.
fn scan_raw(text: &[u8]) -> Option<usize>
    requires { slice_index text.now 0 ≢ 60 }
    ensures exact { MatchOption result (IsNoDestination text.now) (λ size. LeavesDestination text.now (drop size text.now)) }
    ensures most { IfSome result (λ size. size ≤ length text.now) }
    ensures least { IfSome result (λ size. 0 < size) }
    ensures in_line { IfSome result (λ size. IsInLine text.now size) }
    ensures next { IfSome result (λ size. size < length text.now → slice_index text.now size < 128) }
{
    let size = text.len() - past_raw(text)?.len();
    if size > 0 { Some(size) } else { None }
}

/// Returns the text after the longest text whose parentheses are all escaped or in pairs, and that
/// ends where a destination ends. That text may be empty.
fn past_raw(text: &[u8]) -> Option<&[u8]>
    ensures { MatchOption result (ends text.now false 0 ≡ None) (λ rest. ends text.now false 0 ≡ Some rest.now) }
{
    let mut rest = text;
    let mut depth: usize = 0;
    'bytes: while let [first, tail @ ..] = rest {
        rest = match kind_of(*first) {
            Kind::Stops => break,
            Kind::Plain => past_plain(tail),
            Kind::Escapes => past_escaped(tail),
            Kind::Opens if depth >= DEPTH_MOST => return None,
            Kind::Opens => {
                depth += 1;
                tail
            }
            Kind::Closes if depth == 0 => return Some(rest),
            Kind::Closes => {
                depth -= 1;
                tail
            }
        };
    }
    if depth == 0 { Some(rest) } else { None }
}

/// Returns the text after the bytes that stand for themselves.
fn past_plain(text: &[u8]) -> &[u8]
    ensures most { length result.now ≤ length text.now }
    ensures same { (depth : ℕ) → ends text.now false depth ≡ ends result.now false depth }
{
    after(text, plain_length::<InDestination>(text))
}

/// Returns the text after the byte that a backslash before the text escapes, if it escapes one.
fn past_escaped(text: &[u8]) -> &[u8]
    ensures most { length result.now ≤ length text.now }
    ensures same { (depth : ℕ) → ends text.now true depth ≡ ends result.now false depth }
{
    match text {
        [first, rest @ ..] if !matches!(kind_of(*first), Kind::Stops) => rest,
        _ => text,
    }
}

/// Returns what a byte is to a destination without angle brackets.
fn kind_of(byte: u8) -> Kind
    ensures { kind_in result ≡ kind byte }
{
    match byte {
        b' ' => Kind::Stops,
        _ if is_control(byte) => Kind::Stops,
        b'\\' => Kind::Escapes,
        b'(' => Kind::Opens,
        b')' => Kind::Closes,
        _ => Kind::Plain,
    }
}
