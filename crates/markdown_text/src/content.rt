//! The pieces of a content, and its bytes: its parts of lines, with a line feed for each line ending.

ghost use Rattle.std.specs.Prelude.{◌≡◌, ◌≤◌, ◌<◌, ◌-◌, Some, ◌++◌, IfNone, IfOk, IfSome, IsTrue, OnOk, drop, length, slice_get, slice_range, take};
ghost use Rattle.markdown_text.specs.Contents.{AreLines, IsPart, piece_bytes, joined, next_place};

use crate::spare_lists::{SpareLists, take_cleared};
use commonmark_syntax::bytes::after;
use markdown_events::event::Name;
use markdown_pieces::piece::{Piece, PieceKind};
use std::alloc::{AllocError, Global};

/// Where a content is after a piece.
#[derive(Clone, Copy)]
pub enum Place {
    /// After the text of a line. The content may end here.
    AfterText,
    /// After a line ending, and before the text of the next line.
    BeforeText,
    /// After a piece that belongs to no content.
    Outside,
}

impl Place {
    /// Returns where it is after one more piece, of this kind.
    fn after(self, kind: PieceKind) -> Place
        ensures { result ≡ next_place self kind }
    {
        match (self, kind) {
            (Place::AfterText, PieceKind::LineEnding) => Place::BeforeText,
            (Place::BeforeText, PieceKind::Text) => Place::AfterText,
            (Place::BeforeText, PieceKind::Token(Name::SpaceOrTab) | PieceKind::BlockQuotePrefix) =>
                { Place::BeforeText }
            _ => Place::Outside,
        }
    }
}

/// Returns how many of these pieces belong to the content of the first, which is the text of a
/// line. The content continues with the text of the next line if the line ends after the text.
pub fn content_size(pieces: &[Piece]) -> usize
    requires { 0 < length pieces.now }
    ensures most { result ≤ length pieces.now }
    ensures least { 0 < result }
    ensures lines { AreLines (take (result - 1) (drop 1 pieces.now)) }
{
    let mut size = 1;
    let mut count = 1;
    let mut place = Place::AfterText;
    for piece in after_first(pieces) {
        count += 1;
        place = place.after(piece.kind);
        match place {
            Place::AfterText => size = count,
            Place::BeforeText => continue,
            Place::Outside => break,
        }
    }
    size
}

/// Returns the pieces after the first one.
fn after_first(pieces: &[Piece]) -> &[Piece]
    ensures { result.now ≡ drop 1 pieces.now }
{
    pieces.get(1..).unwrap_or(&[])
}

/// Returns the bytes of a document between two offsets, or those of them that exist.
pub fn between(document: &[u8], from: usize, to: usize) -> &[u8]
    ensures { result.now ≡ slice_range document.now from to }
{
    after(document.get(..to).unwrap_or(document), from)
}

/// Returns where the bytes of a content that begins at an offset end in the document, if they are
/// unchanged there: its lines end with line feeds, and nothing comes before them.
pub fn range_end(document: &[u8], start: usize, pieces: &[Piece]) -> Option<usize>
    ensures { IfSome result (λ end. slice_range document.now start end ≡ joined document.now start pieces.now) }
{
    let mut at = start;
    for piece in pieces {
        if !stands_as_it_is(document, at, piece) {
            return None;
        }
        at = piece.end;
    }
    Some(at)
}

/// Whether the bytes of a piece that begins at an offset are unchanged in its content.
fn stands_as_it_is(document: &[u8], start: usize, piece: &Piece) -> bool
    ensures order { IsTrue result → start ≤ piece.now.end }
    ensures bytes { IsTrue result → slice_range document.now start piece.now.end ≡ piece_bytes document.now piece.now.kind start piece.now.end }
{
    match piece.kind {
        PieceKind::Text => start <= piece.end,
        PieceKind::LineEnding => {
            start < piece.end && matches!(between(document, start, piece.end), [b'\n'])
        }
        _ => false,
    }
}

/// Returns the bytes of a content that begins at an offset, in a list that is spare. The only error
/// is that memory ran out.
pub fn join(
    lists: &mut SpareLists,
    alloc: Global,
    document: &[u8],
    start: usize,
    pieces: &[Piece],
) -> Result<Vec<u8>, AllocError>
    ensures { IfOk result (λ bytes. bytes.items ≡ joined document.now start pieces.now) }
{
    let mut bytes = take_cleared(&mut lists.bytes, alloc);
    let mut at = start;
    for piece in pieces {
        add(&mut bytes, document, at, piece)?;
        at = piece.end;
    }
    Ok(bytes)
}

/// Appends the bytes of a piece that begins at an offset to those of its content. The only error is
/// that memory ran out.
fn add(bytes: &mut Vec<u8>, document: &[u8], start: usize, piece: &Piece) -> Result<(), AllocError>
    ensures { OnOk result (bytes.new.items ≡ bytes.old.items ++ piece_bytes document.now piece.now.kind start piece.now.end) }
{
    match piece.kind {
        PieceKind::Text => Ok(bytes.extend_from_slice(between(document, start, piece.end))?),
        PieceKind::LineEnding => Ok(bytes.push(b'\n')?),
        _ => Ok(()),
    }
}

/// Returns how many bytes come before the first line feed of a text.
pub fn line_feed_in(text: &[u8]) -> Option<usize>
    ensures found { IfSome result (λ size. slice_get text.now size ≡ Some 10) }
    ensures part { IfSome result (λ size. IsPart text.now 0 size) }
    ensures none { IfNone result (IsPart text.now 0 (length text.now)) }
{
    let mut size = 0;
    for byte in text {
        if *byte == b'\n' {
            return Some(size);
        }
        size += 1;
    }
    None
}
