//! The point of an event line: `line:column:index`, or `line:column:index:vs`.

ghost use Rattle.std.specs.Prelude.{◌≡◌, ◌<◌, ◌++◌, take, length, None, IfSome, MatchOption};
ghost use Rattle.event_lines.specs.Lines.{before, number_of, point_of};
ghost use Rattle.event_lines.specs.Fronts.{
  field_of,
  NoIndexBegins,
  NoNumberBegins,
  NumberBegins,
  FieldBegins,
  IndexBegins,
  LastNumberBegins,
  PointBegins,
  IsSaid,
};

use crate::search::same_bytes;
use markdown_events::event::Point;

/// A point and its text, with the line feed that ends its line.
#[derive(Clone, Copy)]
pub struct SaidPoint {
    point: Point,
    /// A buffer that begins with the text.
    bytes: [u8; 32],
    /// The length of the text, in bytes.
    length: usize,
}

/// Returns the point of the line that continues with this text, and the lines after it.
///
/// Two of three lines repeat the point of the line before, since a span ends where the next begins.
/// Such a text is compared with the last one, and its numbers are not read again.
pub fn next_point<'a>(text: &'a [u8], last: &mut Option<SaidPoint>) -> Option<(Point, &'a [u8])>
    requires { IfSome last.old IsSaid }
    ensures found { MatchOption result (point_of (before 10 text.now) ≡ None) (λ found. PointBegins text.now found.0 found.1.now) }
    ensures last { IfSome last.new IsSaid }
{
    if let Some(said) = last {
        if let Some(rest) = after_said(said, text) {
            return Some((said.point, rest));
        }
    }
    let (point, rest) = point(text)?;
    *last = said(point, text, rest);
    Some((point, rest))
}

/// Returns the rest of a text after the text of a point, if it begins with it.
fn after_said<'a>(said: &SaidPoint, text: &'a [u8]) -> Option<&'a [u8]>
    ensures { IfSome result (λ rest. text.now ≡ take said.now.length said.now.bytes ++ rest.now) }
{
    if text.len() >= 32 && said.length <= same_bytes(text, &said.bytes) {
        Some(&text[said.length..])
    } else {
        None
    }
}

/// Returns a point with its text, if a line feed ends the text within 32 bytes.
fn said(point: Point, text: &[u8], rest: &[u8]) -> Option<SaidPoint>
    requires { PointBegins text.now point rest.now }
    ensures { IfSome result IsSaid }
{
    let length = text.len() - rest.len();
    let bytes = text.first_chunk::<32>()?;
    if rest.is_empty() || length > 32 {
        return None;
    }
    Some(SaidPoint {
        point,
        bytes: *bytes,
        length,
    })
}

/// Returns the point of the line that continues with this text, and the lines after it.
fn point(text: &[u8]) -> Option<(Point, &[u8])>
    ensures { MatchOption result (point_of (before 10 text.now) ≡ None) (λ found. PointBegins text.now found.0 found.1.now) }
{
    let (line, after_line) = field(text)?;
    let (column, after_column) = field(after_line)?;
    let (index, vs, rest) = index_and_spaces(after_column)?;
    Some((
        Point {
            line,
            column,
            index,
            vs,
        },
        rest,
    ))
}

/// Returns a number that a colon ends, and the rest after the colon.
fn field(text: &[u8]) -> Option<(usize, &[u8])>
    ensures { MatchOption result (field_of (before 10 text.now) ≡ None) (λ found. FieldBegins text.now found.0 found.1.now) }
{
    let (value, count) = number(text)?;
    if count < text.len() && text[count] == b':' {
        Some((value, &text[count + 1..]))
    } else {
        None
    }
}

/// Returns an index and virtual spaces, which end the line, and the lines after it.
fn index_and_spaces(text: &[u8]) -> Option<(usize, usize, &[u8])>
    ensures { MatchOption result (NoIndexBegins text.now) (λ found. IndexBegins text.now found.0 found.1 found.2.now) }
{
    let (index, count) = number(text)?;
    if count == text.len() {
        return Some((index, 0, &[]));
    }
    let more = &text[count + 1..];
    match text[count] {
        b':' => {
            let (vs, rest) = last_number(more)?;
            Some((index, vs, rest))
        }
        b'\n' => Some((index, 0, more)),
        _ => None,
    }
}

/// Returns a number that ends the line, and the lines after it.
fn last_number(text: &[u8]) -> Option<(usize, &[u8])>
    ensures { MatchOption result (number_of (before 10 text.now) ≡ None) (λ found. LastNumberBegins text.now found.0 found.1.now) }
{
    let (value, count) = number(text)?;
    if count == text.len() {
        return Some((value, &[]));
    }
    if text[count] == b'\n' {
        Some((value, &text[count + 1..]))
    } else {
        None
    }
}

/// Returns the number that a text begins with, and how many digits it has.
fn number(text: &[u8]) -> Option<(usize, usize)>
    ensures { MatchOption result (NoNumberBegins text.now) (λ found. NumberBegins text.now found.0 found.1) }
{
    if text.len() >= 8 {
        let mut value: usize = 0;
        for count in 0..8 {
            let byte = text[count];
            if !byte.is_ascii_digit() {
                return counted(value, count);
            }
            value = value * 10 + (byte - b'0') as usize;
        }
    }
    long_number(text)
}

/// Does the same for a number of any length.
fn long_number(text: &[u8]) -> Option<(usize, usize)>
    ensures { MatchOption result (NoNumberBegins text.now) (λ found. NumberBegins text.now found.0 found.1) }
{
    let mut value: usize = 0;
    for count in 0..text.len() {
        let Some(digit) = char::from(text[count]).to_digit(10) else {
            return counted(value, count);
        };
        value = value.checked_mul(10)?.checked_add(digit as usize)?;
    }
    counted(value, text.len())
}

/// Returns a number and its digit count, if it has any digits.
fn counted(value: usize, count: usize) -> Option<(usize, usize)>
    ensures { MatchOption result (count ≡ 0) (λ found. (found.0 ≡ value) × (found.1 ≡ count) × (0 < count)) }
{
    if count == 0 {
        None
    } else {
        Some((value, count))
    }
}
