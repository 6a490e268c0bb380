//! The text of a line ending, where line endings are text (CommonMark, "Line endings").

ghost use Rattle.std.specs.Prelude.{◌≡◌};
ghost use Rattle.markdown_grammar.specs.LineEndings.{ending_as, ends_line, is_before_line, is_empty_line, is_return};

use crate::slice::Document;
use markdown_nodes::event::Point;

/// Returns the text of a line ending that ends at a point, from its value.
///
/// If values are whole, a CR before an empty line becomes an LF. In a block quote such a line is
/// `>⏎`. Its marker is not part of a value, so the CR and the LF would be read as one line ending.
pub fn line_ending_of<'v>(document: &Document<'_>, value: &'v str, end: Point) -> &'v str
    ensures { result.now ≡ ending_as document.now value.now end }
{
    if document.is_whole()
        && is_return(value.as_bytes())
        && is_empty_line(document.bytes_from(end.index))
    {
        return "\n";
    }
    value
}

/// Whether a text is one CR.
fn is_return(text: &[u8]) -> bool
    ensures { result ≡ is_return text.now }
{
    matches!(text, [b'\r'])
}

/// Whether bytes begin with an empty line that is at least one byte long: the bytes that containers
/// and indentation put before a line, and then a line ending or the end of the document.
fn is_empty_line(bytes: &[u8]) -> bool
    ensures { result ≡ is_empty_line bytes.now }
{
    let mut rest = bytes;
    'line: while let Some((first, later)) = rest.split_first() {
        if *first == b'\r' {
            return true;
        }
        if !is_before_line(*first) {
            return false;
        }
        if ends_line(later) {
            return true;
        }
        rest = later;
    }
    false
}

/// Whether a line ends where these bytes begin.
fn ends_line(bytes: &[u8]) -> bool
    ensures { result ≡ ends_line bytes.now }
{
    matches!(bytes, [] | [b'\n' | b'\r', ..])
}

/// Whether a byte may come before the content of a line: a space, a tab, or the marker of a block
/// quote.
pub(crate) fn is_before_line(byte: u8) -> bool
    ensures { result ≡ is_before_line byte }
{
    matches!(byte, b' ' | b'\t' | b'>')
}
