//! The bytes that the events of a document are expected to hide.

ghost use Rattle.std.specs.Prelude.{◌≡◌, IfOk, length};
ghost use Rattle.markdown.specs.Hidden.{flags_at};

use crate::events::recorded;
use crate::hidden::{flags_at, offsets_in_cells};
use crate::hidden_sink::HiddenSink;
use markdown_events::search::first_equal;
use markdown_flow::document::{Blocks, read};
use markdown_options::ParseOptions;
use std::alloc::{AllocError, Global};

/// The bytes of a document that its events are expected to hide.
///
/// First they are those that the cells of its tables hide. A label that hides the marker of a block quote
/// is rare, and is known only when the events are. A document that has one is read again.
#[derive(Drop)]
pub struct Expected {
    /// Their offsets, in order.
    pub offsets: Vec<usize>,
    /// A flag for each byte of the document, or no flags if none is hidden.
    pub flags: Vec<bool>,
}

impl Expected {
    /// Returns what the events of a document with these blocks are expected to hide. The only error is
    /// that memory ran out.
    pub fn new(
        alloc: Global,
        bytes: &[u8],
        options: &ParseOptions,
        blocks: &Blocks,
    ) -> Result<Expected, AllocError>
        ensures { IfOk result (λ expected. expected.flags.items ≡ flags_at (length bytes.now) expected.offsets.items) }
    {
        let offsets = if options.constructs.gfm_table && has_escaped_pipe(bytes) {
            offsets_in_cells(alloc, bytes, &blocks.pieces)?
        } else {
            Vec::new(alloc)
        };
        Expected::at(alloc, bytes.len(), offsets)
    }

    /// Returns what the events of a document hide. The document is read, and nothing but the offsets of
    /// these bytes is kept. The only error is that memory ran out.
    pub fn of_document(
        alloc: Global,
        value: &str,
        options: &ParseOptions,
    ) -> Result<Expected, AllocError>
        ensures { IfOk result (λ expected. expected.flags.items ≡ flags_at (length value.now) expected.offsets.items) }
    {
        let bytes = value.as_bytes();
        let blocks = read(alloc, bytes, options)?;
        let sink = HiddenSink::new(alloc, bytes);
        let sink = recorded(alloc, bytes, options, blocks, sink)?;
        Expected::at(alloc, bytes.len(), sink.into_offsets())
    }

    /// Returns that the bytes at these offsets are hidden in a document of `count` bytes.
    fn at(alloc: Global, count: usize, offsets: Vec<usize>) -> Result<Expected, AllocError>
        ensures { IfOk result (λ expected. expected.flags.items ≡ flags_at count expected.offsets.items) }
    {
        let flags = flags_at(alloc, count, &offsets)?;
        Ok(Expected { offsets, flags })
    }
}

/// Whether a text has a backslash before a pipe. Backslashes are searched for 16 bytes at a time.
fn has_escaped_pipe(text: &[u8]) -> bool {
    let mut rest = text;
    'backslashes: while rest.len() > 16 {
        let at = first_equal(rest, b'\\');
        if at < 16 && rest[at + 1] == b'|' {
            return true;
        }
        rest = &rest[at.min(15) + 1..];
    }
    has_escaped_pipe_in_few(rest)
}

/// Does what `has_escaped_pipe` does, byte by byte.
fn has_escaped_pipe_in_few(text: &[u8]) -> bool {
    let mut rest = text;
    'bytes: while let Some((first, later)) = rest.split_first() {
        if *first == b'\\' && matches!(later, [b'|', ..]) {
            return true;
        }
        rest = later;
    }
    false
}
