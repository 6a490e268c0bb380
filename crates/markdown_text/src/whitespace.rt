//! White space: which bytes are white space (GFM), and the white space at the ends of data
//! (micromark), where the data begins or ends a line, or the text.

ghost use Rattle.std.specs.Prelude.{IsFalse, IsTrue, length, ◌≡◌, ◌≢◌, ◌≤◌, ◌<◌, ◌+◌, ◌-◌, drop, reverse, true};
ghost use Rattle.commonmark_syntax.specs.Inlines.{is_gfm_white_space, spaces_break};
ghost use Rattle.commonmark_syntax.specs.Language.{IsNotAt, Leaves};
ghost use Rattle.commonmark_syntax.specs.Cuts.{IsCut};
ghost use Rattle.markdown_text.specs.declared.output.Next.TheVariants.{LineEnding};

use crate::output::{ContentKind, Next};
use commonmark_syntax::bytes::{after, count_back, count_while, is_space_or_tab};
use commonmark_syntax::class::{Class, WhiteSpace};
use commonmark_syntax::spaces_break;

/// The white space at the ends of data that is written separately.
#[derive(Clone, Copy)]
pub struct Whitespace {
    /// How many bytes at the start.
    pub leading: usize,
    /// How many bytes at the end.
    pub trailing: usize,
    /// How many of those at the end are a hard break.
    pub hard_break: usize,
    ghost within: { hard_break ≤ trailing },
}

/// Whether a byte is white space (GFM).
pub fn is_white_space(byte: u8) -> bool
    ensures exact { result ≡ is_gfm_white_space byte }
    ensures ascii { IsTrue result → byte < 128 }
    ensures other { IsFalse result → byte ≢ 10 }
{
    WhiteSpace::has(byte)
}

/// Returns the white space at the ends of data, given where the data begins and what comes next.
#[inline(always)]
pub fn scan(
    text: &[u8],
    kind: ContentKind,
    is_line_start: bool,
    next: Next,
    has_breaks: bool,
) -> Whitespace
    ensures within { result.leading + result.trailing ≤ length text.now }
    ensures leading { IsCut text.now result.leading }
    ensures trailing { IsCut text.now (length text.now - result.trailing) }
    ensures hard_break { IsCut text.now (length text.now - result.hard_break) }
    ensures next { 0 < result.hard_break → next ≡ LineEnding }
    ensures has_breaks { 0 < result.hard_break → has_breaks ≡ true }
{
    let trailing = trailing_size(text, kind, next);
    let size = text.len() - trailing;
    Whitespace {
        leading: leading_size(&text[..size], is_line_start),
        trailing,
        hard_break: break_size(after(text, size), kind, next, has_breaks),
    }
}

/// Returns how many bytes at the end of data are white space that is written separately.
fn trailing_size(text: &[u8], kind: ContentKind, next: Next) -> usize
    ensures most { result ≤ length text.now }
    ensures cut { IsCut text.now (length text.now - result) }
{
    if !is_trimmed(kind, next) {
        return 0;
    }
    count_back(text, is_space_or_tab)
}

/// Returns how many bytes at the start of data are.
fn leading_size(text: &[u8], is_line_start: bool) -> usize
    ensures most { result ≤ length text.now }
    ensures cut { IsCut text.now result }
{
    if !is_line_start {
        return 0;
    }
    count_while(text, is_space_or_tab)
}

/// Returns how many bytes of the white space at the end of data are a hard break.
fn break_size(text: &[u8], kind: ContentKind, next: Next, has_breaks: bool) -> usize
    ensures most { result ≤ length text.now }
    ensures cut { IsCut text.now (length text.now - result) }
    ensures next { 0 < result → next ≡ LineEnding }
    ensures has_breaks { 0 < result → has_breaks ≡ true }
{
    if !has_breaks || kind != ContentKind::Text || next != Next::LineEnding {
        return 0;
    }
    hard_break(text)
}

/// Returns how many spaces at the end of a text are a hard break, if a line ending comes next.
fn hard_break(text: &[u8]) -> usize
    ensures some { 0 < result → Leaves spaces_break (reverse text.now) (drop result (reverse text.now)) }
    ensures none { result ≡ 0 → IsNotAt spaces_break (reverse text.now) }
    ensures most { result ≤ length text.now }
    ensures cut { IsCut text.now (length text.now - result) }
{
    match spaces_break::scan_back(text) {
        Some(size) => size,
        None => 0,
    }
}

/// Whether white space at the end of data is written separately.
fn is_trimmed(kind: ContentKind, next: Next) -> bool {
    match next {
        Next::Span => false,
        Next::LineEnding => true,
        Next::End => kind == ContentKind::Text,
    }
}
