//! The document of a case: its bytes, and where its lines begin.

use markdown_nodes::event::Point;
use std::alloc::{AllocError, Global};

/// A document.
#[derive(Drop)]
pub struct Document {
    /// Its bytes.
    pub bytes: Vec<u8>,
    /// The offset where each of its lines begins.
    line_starts: Vec<usize>,
}

impl Document {
    /// Returns a document with these bytes, whose lines end at LF, CR and CRLF.
    pub fn new(alloc: Global, bytes: Vec<u8>) -> Result<Document, AllocError> {
        let line_starts = line_starts(alloc, bytes.as_slice())?;
        Ok(Document { bytes, line_starts })
    }

    /// Returns its text, if its bytes are UTF-8.
    pub fn text(&self) -> Option<&str> {
        str::from_utf8(self.bytes.as_slice()).ok()
    }

    /// Turns it into a single line.
    pub fn join_lines(&mut self) {
        self.line_starts.truncate(1);
    }

    /// Returns the point of an offset, including one after the document. A column is a byte.
    pub fn point(&self, offset: usize) -> Option<Point> {
        let line = self.line_starts.partition_point(|start| *start <= offset);
        let start = self.line_starts.get(line.checked_sub(1)?)?;
        Some(Point {
            line,
            column: offset.checked_sub(*start)?.checked_add(1)?,
            index: offset,
            vs: 0,
        })
    }
}

/// Returns where the lines of a document begin.
fn line_starts(alloc: Global, bytes: &[u8]) -> Result<Vec<usize>, AllocError> {
    let mut starts = Vec::new(alloc);
    starts.push(0)?;
    for index in 0..bytes.len() {
        let next = index + 1;
        if ends_line(bytes[index], bytes.get(next)) {
            starts.push(next)?;
        }
    }
    Ok(starts)
}

/// Whether a line ends after a byte, given the byte after it.
fn ends_line(byte: u8, next: Option<&u8>) -> bool {
    byte == b'\n' || byte == b'\r' && next != Some(&b'\n')
}
