//! Points in UTF-16 code units, as JavaScript counts the characters of its strings.

ghost use Rattle.std.specs.Prelude.{◌≡◌, ◌+◌, ◌≤◌, ◌<◌, ◌^◌, IfOk, if◌then◌else◌, length, take};
ghost use Rattle.markdown_json.specs.Utf16;
ghost use Rattle.markdown_json.specs.Utf16.{counts_after, ends_line, units_at, utf16};

use markdown_events::unist::Point;
use std::alloc::{AllocError, Global};
use std::marker::Model;

/// How many bytes of a document are between two offsets whose counts are kept.
const BLOCK: usize = 32;

/// The counts before an offset.
#[derive(Clone, Copy, PartialEq, Eq, Debug)]
struct Counts {
    /// The units of the text before it.
    units: usize,
    /// The bytes of the last line of that text.
    line_bytes: usize,
    /// The units of that line.
    line_units: usize,
}

impl Counts {
    /// The counts before the first byte.
    const START: Counts = Counts {
        units: 0,
        line_bytes: 0,
        line_units: 0,
    };

    /// Returns the counts after one more byte.
    fn after(self, byte: u8) -> Counts
        requires units { self.units + 2 < 2 ^ 64 }
        requires line_bytes { self.line_bytes + 1 < 2 ^ 64 }
        requires line_units { self.line_units + 2 < 2 ^ 64 }
        ensures units { result.units ≡ self.units + units_at byte }
        ensures line_bytes { result.line_bytes ≡ (if ends_line byte then 0 else self.line_bytes + 1) }
        ensures line_units { result.line_units ≡ (if ends_line byte then 0 else self.line_units + units_at byte) }
    {
        let units = units_at(byte);
        if byte == b'\n' || byte == b'\r' {
            return Counts {
                units: self.units + units,
                line_bytes: 0,
                line_units: 0,
            };
        }
        Counts {
            units: self.units + units,
            line_bytes: self.line_bytes + 1,
            line_units: self.line_units + units,
        }
    }

    /// Returns the counts before the offset `end` of a document, from those before the offset
    /// `start`.
    fn up_to(self, document: &[u8], start: usize, end: usize) -> Counts
        requires order { start ≤ end }
        requires end { end ≤ length document.now }
        requires start { self ≡ counts_after (take start document.now) }
        ensures { result ≡ counts_after (take end document.now) }
    {
        let mut last = self;
        for offset in start..end {
            last = last.after(document[offset]);
        }
        last
    }
}

/// Returns how many UTF-16 units the character takes that begins with this byte, or 0 for a byte
/// within one.
fn units_at(byte: u8) -> usize
    ensures value { result ≡ Utf16.units_at byte }
    ensures bound { result ≤ 2 }
{
    match byte {
        0..128 => 1,
        128..192 => 0,
        192..240 => 1,
        _ => 2,
    }
}

/// The points of a document in UTF-16 code units, in which JavaScript counts columns and offsets.
/// The columns of the points that are looked up must count bytes.
///
/// It takes three bytes for each four of the document, and a look at no more than 31 bytes for each
/// point. A point after the end of the document has the offset of its end.
///
/// In the document `é!`, whose first character takes two bytes and one unit, the point before the
/// `!` is `1:3 (2)` in bytes, and `1:2 (1)` in units.
#[derive(Debug, Drop)]
pub struct Utf16Points<'a> {
    document: &'a [u8],
    /// The counts before the first byte of each block, and before the end of the last whole one.
    counts: Vec<Counts>,
}

impl<'a> Model for Utf16Points<'a> {
    ghost use Rattle.std.specs.Prelude.{List, ℕ};
    ghost use Rattle.markdown_json.specs.Utf16.{AreCountsOf};

    ghost Value = { List ℕ };

    ghost view = { λ it. it.document.now };

    ghost invariant = { λ it. AreCountsOf it.counts.items it.document.now };
}

impl<'a> Utf16Points<'a> {
    /// Returns the points of a document. The only error is that memory ran out.
    pub fn new(alloc: Global, document: &'a [u8]) -> Result<Utf16Points<'a>, AllocError>
        ensures { IfOk result (λ points. points ≡ document.now) }
    {
        let blocks = document.len() / BLOCK;
        let mut last = Counts::START;
        let mut counts = Vec::with_capacity(alloc, blocks + 1)?;
        counts.push(last)?;
        for block in 0..blocks {
            last = last.up_to(document, block * BLOCK, (block + 1) * BLOCK);
            counts.push(last)?;
        }
        Ok(Utf16Points { document, counts })
    }

    /// Returns the counts before an offset, or before the end if the offset is after it.
    fn counts_at(&self, offset: usize) -> Counts
        ensures { result ≡ counts_after (take offset self.now) }
    {
        let end = offset.min(self.document.len());
        let block = end / BLOCK;
        self.counts[block].up_to(self.document, block * BLOCK, end)
    }

    /// Returns a point of the document in units.
    pub fn counted(&self, point: Point) -> Point
        ensures { result ≡ utf16 self.now point }
    {
        let before = self.counts_at(point.offset);
        let in_line = point.column.saturating_sub(before.line_bytes);
        Point {
            line: point.line,
            column: before.line_units.saturating_add(in_line),
            offset: before.units,
        }
    }
}
