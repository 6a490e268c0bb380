//! A content and the settings for reading it.

ghost use Rattle.std.specs.Prelude.{true, ◌≡◌};
ghost use Rattle.std.specs.Str.{is_utf8};

use crate::document::Reading;
use commonmark_syntax::bytes::after;
use commonmark_syntax::label::is_text;
use std::alloc::{AllocError, Global};

/// The bytes of a content, which are UTF-8, and the settings that its document is read with.
#[derive(Drop)]
pub struct Source<'c, R> {
    /// The settings that the document is read with.
    pub reading: &'c Reading<'c, R>,
    /// The bytes, with a line feed for each line ending.
    pub bytes: &'c [u8],
    /// Whether it is the text of a cell of a table.
    pub is_cell: bool,
    ghost utf8: { is_utf8 bytes.now ≡ true },
}

impl<R> Source<'_, R> {
    /// Whether the document has a definition for a label of this content. The only error is that
    /// memory ran out.
    pub fn defines(&self, label: &[u8]) -> Result<bool, AllocError> {
        let alloc = self.reading.alloc;
        if self.escapes_pipes(label) {
            let label = without_escapes(alloc, label)?;
            return self.reading.identifiers.defines(alloc, &label);
        }
        self.reading.identifiers.defines(alloc, label)
    }

    /// Whether the document has a footnote definition for a label of this content. The only error
    /// is that memory ran out.
    fn defines_footnote(&self, label: &[u8]) -> Result<bool, AllocError> {
        let alloc = self.reading.alloc;
        if self.escapes_pipes(label) {
            let label = without_escapes(alloc, label)?;
            return self.reading.identifiers.defines_footnote(alloc, &label);
        }
        self.reading.identifiers.defines_footnote(alloc, label)
    }

    /// Whether a label of this content that is alone between brackets is a reference: it is
    /// defined, or undefined references are read too. The only error is that memory ran out.
    pub fn refers(&self, label: &[u8]) -> Result<bool, AllocError> {
        if self.reading.options.undefined_references && is_text(label) {
            return Ok(true);
        }
        self.defines(label)
    }

    /// Whether a footnote label of this content that is alone between brackets is a reference: it
    /// is defined, or undefined references are read too. The only error is that memory ran out.
    pub fn calls_footnote(&self, label: &[u8]) -> Result<bool, AllocError> {
        if self.reading.options.undefined_references && is_text(label) {
            return Ok(true);
        }
        self.defines_footnote(label)
    }

    /// Whether pipes may be escaped in a label for the table around it.
    fn escapes_pipes(&self, label: &[u8]) -> bool {
        self.is_cell && label.contains(&b'|')
    }
}

/// Returns a label without the backslashes that escape pipes for the table around it (GFM). The
/// only error is that memory ran out.
fn without_escapes(alloc: Global, label: &[u8]) -> Result<Vec<u8>, AllocError> {
    let mut bytes = Vec::new(alloc);
    for (place, byte) in label.iter().enumerate() {
        if !matches!(after(label, place), [b'\\', b'|', ..]) {
            bytes.push(*byte)?;
        }
    }
    Ok(bytes)
}
