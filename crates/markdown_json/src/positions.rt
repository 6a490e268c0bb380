//! The position of a node as JSON.

ghost use Rattle.std.specs.Prelude.{◌≡◌, ◌+◌, ◌++◌, ◌≤◌, ◌<◌, IsFalse, IsTrue, OnOk, codes, drop, length, string_bytes};
ghost use Rattle.std.specs.Str.{IsUtf8};
ghost use Rattle.markdown_json.specs.Fields.{point, position_end};

use crate::strings::push;
use markdown_events::decimal::{put_decimal, put_text, text};
use markdown_events::unist::Point;
use std::alloc::AllocError;
use std::marker::Model;

/// The greatest size of a point at the end of a position, in bytes: three numbers of up to 20
/// digits, and 38 bytes around them.
const END_SIZE: usize = 98;

/// The key before the point.
const END_KEY: &str = r#","end":"#;

/// Where the point ends, before the braces that close its position and its node.
const POINT_END: usize = 96;

/// The texts of the points of the last position, which are often those of the next one, too: a node
/// starts where the one before it ends, and a parent starts and ends as its first and last nodes do.
#[derive(Drop)]
pub struct LastPosition {
    start: PointText,
    end: PointText,
}

impl LastPosition {
    /// Returns the texts before the first position.
    pub fn none() -> LastPosition {
        LastPosition {
            start: PointText::new(),
            end: PointText::new(),
        }
    }

    /// Appends a position from one point to another, which is the last one then, from its start on,
    /// and the brace that closes its node.
    ///
    /// For the first character of a document they are
    /// `{"line":1,"column":1,"offset":0},"end":{"line":1,"column":2,"offset":1}}}`.
    pub fn push(&mut self, out: &mut String, start: Point, end: Point) -> Result<(), AllocError>
        ensures { OnOk result (string_bytes out.new ≡ string_bytes out.old ++ (point start ++ position_end end)) }
    {
        self.push_start(out, start)?;
        self.end.set(end);
        self.end.push_end(out)
    }

    /// Appends the point at which a position starts.
    fn push_start(&mut self, out: &mut String, place: Point) -> Result<(), AllocError>
        ensures { OnOk result (string_bytes out.new ≡ string_bytes out.old ++ point place) }
    {
        if self.end.is(place) {
            return self.end.push(out);
        }
        self.start.set(place);
        self.start.push(out)
    }
}

/// A point, and its text as the end of a position, at the end of a buffer.
#[derive(Drop)]
struct PointText {
    place: Point,
    buffer: [u8; END_SIZE],
    /// The index of the first byte of that text.
    first: usize,
}

impl Model for PointText {
    ghost use Rattle.std.specs.Prelude.{◌≡◌, ◌≤◌, ◌+◌, drop};
    ghost use Rattle.std.specs.Str.{IsUtf8};
    ghost use Rattle.markdown_events.specs.declared.unist.Point.{Point};
    ghost use Rattle.markdown_json.specs.Fields.{position_end};

    ghost Value = { Point };

    ghost view = { λ it. it.place };

    ghost invariant = { λ it. (it.first + 7 ≤ 96) × (drop it.first it.buffer ≡ position_end it.place) × IsUtf8 (drop it.first it.buffer) };
}

impl PointText {
    /// Returns the text of the first point of a document.
    fn new() -> PointText {
        let place = Point::new(1, 1, 0);
        let mut buffer = [0; END_SIZE];
        let first = put_end(&mut buffer, place);
        PointText {
            place,
            buffer,
            first,
        }
    }

    /// Whether it is the text of this point.
    fn is(&self, place: Point) -> bool
        ensures { IsTrue result → self.now ≡ place }
    {
        self.place == place
    }

    /// Makes it the text of this point.
    fn set(&mut self, place: Point)
        ensures { self.new ≡ place }
    {
        if self.place != place {
            self.place = place;
            self.first = put_end(&mut self.buffer, place);
        }
    }

    /// Appends the point.
    fn push(&self, out: &mut String) -> Result<(), AllocError>
        ensures { OnOk result (string_bytes out.new ≡ string_bytes out.old ++ point self.now) }
    {
        push(
            out,
            text(&self.buffer[..POINT_END], self.first + END_KEY.len()),
        )
    }

    /// Appends the point as the end of a position.
    fn push_end(&self, out: &mut String) -> Result<(), AllocError>
        ensures { OnOk result (string_bytes out.new ≡ string_bytes out.old ++ position_end self.now) }
    {
        push(out, text(&self.buffer, self.first))
    }
}

/// Writes a point as the end of a position at the end of a buffer, and returns the index of its
/// first byte.
fn put_end(buffer: &mut [u8; END_SIZE], place: Point) -> usize
    ensures within { result + 7 ≤ 96 }
    ensures text { drop result buffer.new ≡ position_end place }
    ensures utf8 { IsUtf8 (drop result buffer.new) }
{
    let at = put_text(buffer, END_SIZE, "}}}");
    let at = put_decimal(buffer, at, place.offset);
    let at = put_text(buffer, at, r#","offset":"#);
    let at = put_decimal(buffer, at, place.column);
    let at = put_text(buffer, at, r#","column":"#);
    let at = put_decimal(buffer, at, place.line);
    put_text(buffer, at, r#","end":{"line":"#)
}
