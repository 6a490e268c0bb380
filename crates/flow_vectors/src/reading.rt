//! The block queries of the tests.

use markdown_events::event::Name;
use markdown_flow::document::{Blocks, read};
use markdown_options::{Constructs, ParseOptions};
use markdown_pieces::piece::{Piece, PieceKind};
use std::alloc::{AllocError, Global};
use std::process::Abort;

/// Returns the blocks of a document with these constructs.
pub fn blocks(alloc: Global, document: &str, constructs: Constructs) -> Result<Blocks, AllocError> {
    let options = ParseOptions {
        constructs,
        ..ParseOptions::gfm()
    };
    read(alloc, document.as_bytes(), &options)
}

/// Whether a document has a span of a name, with these constructs.
pub fn has(
    alloc: Global,
    document: &str,
    constructs: Constructs,
    name: Name,
) -> Result<bool, AllocError> {
    let blocks = blocks(alloc, document, constructs)?;
    Ok(
        blocks
            .pieces
            .iter()
            .any(|piece| piece.kind == PieceKind::Enter(name)),
    )
}

/// Returns the pieces of a document as a text, with all constructs. `(A` begins a span, `)` ends
/// one, and `A:1` is a token up to offset 1.
pub fn shown(alloc: Global, document: &str) -> Result<String, AllocError> {
    let blocks = blocks(alloc, document, Constructs::everything())?;
    let mut text = String::new(alloc);
    for piece in blocks.pieces.as_slice() {
        show(&mut text, piece)?;
    }
    Ok(text)
}

/// Appends a piece to a text.
fn show(text: &mut String, piece: &Piece) -> Result<(), AllocError> {
    match piece.kind {
        PieceKind::Enter(name) => {
            text.push_str("(")?;
            text.push_str(name.text())?;
            text.push_str(" ")
        }
        PieceKind::Exit(_) => text.push_str(") "),
        PieceKind::Token(name) => show_token(text, name.text(), piece),
        PieceKind::OpeningSequence => show_token(text, "OpeningSequence", piece),
        PieceKind::LineEnding => show_token(text, "LineEnding", piece),
        PieceKind::BlankLineEnding => show_token(text, "BlankLineEnding", piece),
        PieceKind::Text => show_token(text, "Text", piece),
        PieceKind::BlockQuotePrefix => show_token(text, "BlockQuotePrefix", piece),
    }
}

/// Appends a piece that has a length to a text.
fn show_token(text: &mut String, name: &str, piece: &Piece) -> Result<(), AllocError> {
    let end = piece.end;
    let virtual_spaces = piece.virtual_spaces;
    text.push_str(name)?;
    write!(text, ":{end}")?;
    if virtual_spaces > 0 {
        write!(text, "+{virtual_spaces}")?;
    }
    text.push_str(" ")
}

/// Stops the test if the pieces of a document are not these.
pub fn shows(rt: &impl Abort, alloc: Global, document: &str, want: &str) -> Result<(), AllocError> {
    let found = shown(alloc, document)?;
    assert_eq!(rt; found.as_str(), want, "{document}");
    Ok(())
}

/// Stops the test if a fact is false.
pub fn holds(rt: &impl Abort, fact: bool, case: &str) {
    assert!(rt; fact, "{case}");
}
