//! Points and positions in a document, as in unist.

ghost use Rattle.std.specs.Prelude.{◌≡◌, ◌≤◌, Some, drop};
ghost use Rattle.std.specs.Str.{IsUtf8};
ghost use Rattle.markdown_events.specs.Places.{point_text, position_text};

use crate::decimal::{put_decimal, put_text, text};
use std::fmt;

/// The greatest size of the text of a point: three numbers of up to 20 digits, and four bytes.
const POINT_SIZE: usize = 64;

/// The greatest size of the text of a position: six numbers, and seven bytes.
const POSITION_SIZE: usize = 127;

/// One place in a document (unist, `Point`). Debug prints it as `1:3 (2)`: line, column and offset.
///
/// In the document `Hi` the point after the `H` is `Point { line: 1, column: 2, offset: 1 }`.
#[derive(Clone, Copy, PartialEq, Eq)]
pub struct Point {
    /// The line, counted from 1.
    pub line: usize,
    /// The column, counted from 1.
    pub column: usize,
    /// The offset: how many bytes of the document come before the point, counted from 0.
    pub offset: usize,
}

impl Point {
    /// Returns the point at a line and a column, which count from 1, and an offset, which counts
    /// bytes from 0.
    ///
    /// `Point::new(1, 3, 2)` is printed as `1:3 (2)`.
    pub fn new(line: usize, column: usize, offset: usize) -> Point
        ensures { result ≡ record { line = line; column = column; offset = offset } }
    {
        Point {
            line,
            column,
            offset,
        }
    }
}

impl fmt::Debug for Point {
    ghost debug_output = { λ point. Some (point_text point) };

    fn fmt<W: fmt::Write>(&self, f: &mut fmt::Formatter<W>) -> fmt::Result {
        let mut buffer = [0; POINT_SIZE];
        let start = put_point(&mut buffer, *self);
        f.write_str(text(&buffer, start))
    }
}

/// Where a node is in a document (unist, `Position`). Debug prints it as `1:1-1:3 (0-2)`: line and
/// column of both ends, and then their offsets.
///
/// The root of the document `Hi` has a position that is printed as `1:1-1:3 (0-2)`.
#[derive(Clone, Copy, PartialEq, Eq)]
pub struct Position {
    /// The point before the first character.
    pub start: Point,
    /// The point after the last character.
    pub end: Point,
}

impl Position {
    /// Returns the position from one point to another, each by its line and column, which count
    /// from 1, and its offset, which counts bytes from 0.
    ///
    /// `Position::new(1, 1, 0, 1, 3, 2)` is printed as `1:1-1:3 (0-2)`.
    pub fn new(
        start_line: usize,
        start_column: usize,
        start_offset: usize,
        end_line: usize,
        end_column: usize,
        end_offset: usize,
    ) -> Position
        ensures start { result.start ≡ record { line = start_line; column = start_column; offset = start_offset } }
        ensures end { result.end ≡ record { line = end_line; column = end_column; offset = end_offset } }
    {
        Position {
            start: Point::new(start_line, start_column, start_offset),
            end: Point::new(end_line, end_column, end_offset),
        }
    }
}

impl fmt::Debug for Position {
    ghost debug_output = { λ position. Some (position_text position) };

    fn fmt<W: fmt::Write>(&self, f: &mut fmt::Formatter<W>) -> fmt::Result {
        let mut buffer = [0; POSITION_SIZE];
        let start = put_position(&mut buffer, *self);
        f.write_str(text(&buffer, start))
    }
}

/// Writes the text of a point at the end of a buffer, and returns the index of its first byte.
fn put_point(buffer: &mut [u8; POINT_SIZE], point: Point) -> usize
    ensures within { result ≤ 64 }
    ensures text { drop result buffer.new ≡ point_text point }
    ensures utf8 { IsUtf8 (drop result buffer.new) }
{
    let end = put_text(buffer, POINT_SIZE, ")");
    let end = put_decimal(buffer, end, point.offset);
    let end = put_text(buffer, end, " (");
    let end = put_decimal(buffer, end, point.column);
    let end = put_text(buffer, end, ":");
    put_decimal(buffer, end, point.line)
}

/// Writes the text of a position at the end of a buffer, and returns the index of its first byte.
fn put_position(buffer: &mut [u8; POSITION_SIZE], position: Position) -> usize
    ensures within { result ≤ 127 }
    ensures text { drop result buffer.new ≡ position_text position }
    ensures utf8 { IsUtf8 (drop result buffer.new) }
{
    let Position { start, end: last } = position;
    let end = put_text(buffer, POSITION_SIZE, ")");
    let end = put_decimal(buffer, end, last.offset);
    let end = put_text(buffer, end, "-");
    let end = put_decimal(buffer, end, start.offset);
    let end = put_text(buffer, end, " (");
    let end = put_decimal(buffer, end, last.column);
    let end = put_text(buffer, end, ":");
    let end = put_decimal(buffer, end, last.line);
    let end = put_text(buffer, end, "-");
    let end = put_decimal(buffer, end, start.column);
    let end = put_text(buffer, end, ":");
    put_decimal(buffer, end, start.line)
}
