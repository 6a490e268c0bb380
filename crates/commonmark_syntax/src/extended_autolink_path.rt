//! Paths of extended autolinks, and the punctuation that may not end them (GFM).

ghost use Rattle.std.specs.Prelude.{◌≡◌, ◌≢◌, ◌≤◌, ◌<◌, ◌+◌, ◌^◌, ℕ, List, MatchOption, Some, false, length, slice_index, take, true};
ghost use Rattle.commonmark_syntax.specs.Cuts.{IsInLine};
ghost use Rattle.commonmark_syntax.specs.ExtendedAutolinks as page;
ghost use Rattle.commonmark_syntax.specs.Reading.{Reading, read};

use crate::bytes::count_back;
use crate::class::{Alphanumeric, Class, Trailing, WhiteSpace};
use crate::reading::{past_byte, past_every, past_one};

/// Returns the size of the path of an extended autolink that a text begins with, after its domain,
/// without the punctuation at its end (GFM). With `in_bracket` a bracket is open before the
/// autolink, and a closing one without a matching opening one in the path ends it (micromark).
///
/// In `/a_(b)). c` it is 6.
pub fn scan(text: &[u8], in_bracket: bool) -> usize
    ensures exact { take result text.now ≡ page.trimmed (page.path in_bracket text.now) }
    ensures most { result ≤ length text.now }
    ensures in_line { IsInLine text.now result }
    ensures next { result < length text.now → slice_index text.now result < 128 }
{
    let path = &text[..path_size(text, in_bracket)];
    trimmed_size(path)
}

/// Whether the path that a text begins with would be empty without the punctuation at its end.
/// Every closing parenthesis counts as such punctuation here.
///
/// It is true for `_. a`.
pub fn is_trail(text: &[u8], in_bracket: bool) -> bool
    ensures { result ≡ page.is_trail (page.path in_bracket text.now) }
{
    match past_trail(text) {
        [first, ..] => ends_path(*first, 0, in_bracket),
        [] => true,
    }
}

/// Returns the size of the path that a text begins with, with the punctuation at its end.
fn path_size(text: &[u8], in_bracket: bool) -> usize
    ensures exact { take result text.now ≡ page.path in_bracket text.now }
    ensures most { result ≤ length text.now }
    ensures in_line { IsInLine text.now result }
    ensures next { result < length text.now → slice_index text.now result < 128 }
{
    let mut depth: usize = 0;
    for (size, byte) in text.iter().enumerate() {
        if ends_path(*byte, depth, in_bracket) {
            return size;
        }
        depth = depth_after(depth, *byte);
    }
    text.len()
}

/// Whether a byte ends a path with `depth` open brackets in it.
fn ends_path(byte: u8, depth: usize, in_bracket: bool) -> bool
    ensures exact { result ≡ page.ends_path in_bracket depth byte }
    ensures ascii { result ≡ true → byte < 128 }
    ensures feed { result ≡ false → byte ≢ 10 }
{
    WhiteSpace::has(byte) || byte == b'<' || in_bracket && byte == b']' && depth == 0
}

/// Returns how many brackets are open after a byte.
fn depth_after(depth: usize, byte: u8) -> usize
    requires { depth + 1 < 2 ^ 64 }
    ensures { result ≡ page.depth_after depth byte }
{
    match byte {
        b'[' => depth + 1,
        b']' => depth.saturating_sub(1),
        _ => depth,
    }
}

/// Returns the size of a path without the punctuation at its end. A closing parenthesis is kept if
/// it has a matching opening one in the path.
fn trimmed_size(path: &[u8]) -> usize
    ensures exact { take result path.now ≡ page.trimmed path.now }
    ensures most { result ≤ length path.now }
    ensures next { result < length path.now → slice_index path.now result < 128 }
{
    let mut unmatched = how_many(path, b')').saturating_sub(how_many(path, b'('));
    let mut rest = path;
    'end: while let Some((last, front)) = rest.split_last() {
        rest = match *last {
            b')' if unmatched > 0 => {
                unmatched -= 1;
                front
            }
            b';' => match before_name(front) {
                Some(front) => front,
                None => front,
            },
            last if Trailing::has(last) => front,
            _ => break,
        };
    }
    rest.len()
}

/// Returns how often a byte occurs in a text.
fn how_many(text: &[u8], sign: u8) -> usize
    ensures { result ≡ page.how_many sign text.now }
{
    text.iter().filter(|byte| **byte == sign).count()
}

/// Returns the text before the ampersand and the letters and digits that it ends with: with a
/// semicolon they look like a reference.
fn before_name(text: &[u8]) -> Option<&[u8]>
    ensures { MatchOption result ((front : List ℕ) → page.EndsWithName text.now front → ⊥) (λ front. page.EndsWithName text.now front.now) }
{
    let size = count_back(text, Alphanumeric::has);
    let (last, front) = text[..text.len() - size].split_last()?;
    if size > 0 && *last == b'&' {
        Some(front)
    } else {
        None
    }
}

/// Returns the text after the pieces of punctuation that a text begins with.
#[tactic(auto, using(crate::proofs::Loops::many_done))]
fn past_trail(text: &[u8]) -> &[u8]
    ensures { read page.trail text.now ≡ Some result.now }
{
    let mut rest = text;
    'pieces: while let Some(tail) = past_piece(rest) {
        rest = tail;
    }
    rest
}

/// Returns the text after a piece of what may not end an autolink.
fn past_piece(text: &[u8]) -> Option<&[u8]>
    ensures { Reading page.trail_piece text.now (λ rest. rest.now) result }
{
    if let Some(rest) = past_one::<Trailing>(text) {
        return Some(rest);
    }
    if let Some(rest) = past_byte(text, b')') {
        return Some(rest);
    }
    past_reference(text)
}

/// Returns the text after something that looks like an entity reference.
fn past_reference(text: &[u8]) -> Option<&[u8]>
    ensures { Reading page.reference_like text.now (λ rest. rest.now) result }
{
    let rest = past_one::<Alphanumeric>(past_byte(text, b'&')?)?;
    past_byte(past_every::<Alphanumeric>(rest), b';')
}
