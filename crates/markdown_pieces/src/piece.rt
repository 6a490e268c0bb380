//! Pieces of a document.

ghost use Rattle.std.specs.Prelude.{◌≡◌};

use markdown_events::event::Name;

/// What a piece is (ours).
#[derive(Clone, Copy, PartialEq, Eq, Debug)]
pub enum PieceKind {
    /// A span begins here. The piece has no length.
    Enter(Name),
    /// A span ends here. The piece has no length.
    Exit(Name),
    /// A span that contains no span.
    Token(Name),
    /// The sequence that opens an ATX heading: one to six number signs. In the events it is a
    /// `HeadingAtxSequence`.
    OpeningSequence,
    /// The end of a line.
    LineEnding,
    /// The end of a blank line, or of a line that has only markers of containers.
    BlankLineEnding,
    /// The part of a line that belongs to a content whose inlines are not yet read.
    Text,
    /// The prefix of a block quote: a span with its marker, and the white space after that, if there is any.
    BlockQuotePrefix,
}

/// A piece of a document. It begins where the piece before it ends, and the first one begins at the
/// start of the document, so the pieces tile the document (ours).
///
/// The pieces of `# a` are `Enter(HeadingAtx)`, `OpeningSequence` up to 1, `Token(SpaceOrTab)` up
/// to 2, `Enter(HeadingAtxText)`, `Text` up to 3, `Exit(HeadingAtxText)` and `Exit(HeadingAtx)`.
#[derive(Clone, Copy, PartialEq, Eq, Debug)]
pub struct Piece {
    /// What it is.
    pub kind: PieceKind,
    /// How many columns of the tab at its end belong to it, if it ends within a tab, and otherwise
    /// 0.
    pub virtual_spaces: u8,
    /// Where it ends: an offset, which counts bytes from 0.
    pub end: usize,
}

impl Piece {
    /// Returns a piece that ends before a byte.
    ///
    /// `Piece::new(PieceKind::Text, 3)` ends at offset 3, not within a tab.
    pub fn new(kind: PieceKind, end: usize) -> Piece
        ensures { result ≡ record { kind = kind; end = end; virtual_spaces = 0 } }
    {
        Piece {
            kind,
            virtual_spaces: 0,
            end,
        }
    }
}
