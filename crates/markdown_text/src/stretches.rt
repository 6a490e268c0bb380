//! Stretches of pieces: those that are written before their memory is given back.

ghost use Rattle.std.specs.Prelude.{IfOk, drop, length, ◌++◌, ◌<◌, ◌≡◌, ◌≤◌};
ghost use Rattle.markdown_text.specs.Contents.{BeginWithSpan, begins_span};

use markdown_pieces::piece::{Piece, PieceKind};
use std::alloc::{AllocError, Global};

/// Pieces are cut only if they are more than this: 128 KiB of memory.
const UNCUT: usize = 8_192;

/// Leaves the next stretch of pieces, and returns those after it, in a list of their own. The only
/// error is that memory ran out.
///
/// A stretch is three quarters of the pieces, and those up to the next span, so no content is cut in
/// two. What is left is small when the tree is large, and only a quarter of the pieces is moved.
pub fn cut_later(alloc: Global, pieces: &mut Vec<Piece>) -> Result<Vec<Piece>, AllocError>
    ensures all { IfOk result (λ later. pieces.new.items ++ later.items ≡ pieces.old.items) }
    ensures span { IfOk result (λ later. BeginWithSpan later.items) }
    ensures less { IfOk result (λ later. 0 < length pieces.old.items → length later.items < length pieces.old.items) }
{
    if pieces.len() <= UNCUT {
        return Ok(Vec::new(alloc));
    }
    let later = pieces.split_off(stretch_length(pieces.as_slice()))?;
    pieces.shrink_to_fit();
    Ok(later)
}

/// Returns how many pieces the next stretch has: three quarters, and those before the next span.
fn stretch_length(pieces: &[Piece]) -> usize
    requires { UNCUT < length pieces.now }
    ensures some { 0 < result }
    ensures within { result ≤ length pieces.now }
    ensures span { BeginWithSpan (drop result pieces.now) }
{
    let mut length = pieces.len() - pieces.len() / 4;
    'pieces: while length < pieces.len() && !is_enter(pieces[length].kind) {
        length += 1;
    }
    length
}

/// Whether a span begins with a piece of this kind.
fn is_enter(kind: PieceKind) -> bool
    ensures { result ≡ begins_span kind }
{
    matches!(kind, PieceKind::Enter(_))
}
