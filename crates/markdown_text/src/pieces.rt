//! Pieces, as the writer receives them.

ghost use Rattle.std.specs.Prelude.{Bool, IfOk, IsTrue, List, OnOk, true, ◌≡◌, ◌≢◌};
ghost use Rattle.std.specs.Str.{IsCharBoundary};
ghost use Rattle.commonmark_syntax.specs.Cuts.{IsCut};
ghost use Rattle.event_writer.specs.Calls.{CanReach};
ghost use Rattle.event_writer.specs.Stages.{Enclosing, Stage, inlines};
ghost use Rattle.markdown_options.specs.declared.Constructs.{Constructs};
ghost use Rattle.markdown_pieces.specs.Spans.{IsOn};
ghost use Rattle.markdown_pieces.specs.Tilings.{Goes, Tiles, end_from, end_of, point};
ghost use Rattle.markdown_pieces.specs.Walks.{State, Steps};
ghost use Rattle.markdown_pieces.specs.declared.piece.PieceKind.TheVariants.{BlockQuotePrefix, Text};
ghost use Rattle.markdown_text.specs.AttentionEvents.{attention_events, is_between_texts};
ghost use Rattle.markdown_text.specs.Contents.{IsContent, IsLeft, joined, left, spot, whole};
ghost use Rattle.markdown_text.specs.Spans.{IsWithin};
ghost use Rattle.markdown_text.specs.Standings.{IsAmongInlines, IsAt, IsSomewhere, MayStep};

use crate::{blank, calls};
use character_references::references::References;
use event_writer::recorder::Recorder;
use event_writer::sink::Sink;
use markdown_events::event::Name;
use markdown_pieces::piece::{Piece, PieceKind};
use std::alloc::AllocError;

/// The rest of a content from the cursor on.
#[derive(Clone, Copy)]
pub struct Lines<'c> {
    /// The offset in the document where the text of this line ends.
    pub end: usize,
    /// The pieces after it.
    pub later: &'c [Piece],
}

/// Whether a piece of this kind is a text.
pub fn is_text(kind: PieceKind) -> bool
    ensures yes { IsTrue result → kind ≡ Text }
    ensures no { kind ≡ Text → IsTrue result }
{
    matches!(kind, PieceKind::Text)
}

/// Writes what comes before the next text of a content, and returns the rest of the content from
/// there on.
pub fn write_to_text<'c, R: References, S: Sink>(
    writer: &mut Recorder<'_, R, S>,
    pieces: &'c [Piece],
) -> Result<Lines<'c>, AllocError>
    requires content { IsContent pieces.now }
    requires tiles { Tiles writer.old.given.bytes (spot writer.old.cursor) pieces.now (end_from (spot writer.old.cursor) pieces.now) }
    requires at { IsSomewhere writer.old }
    ensures given { writer.new.given ≡ writer.old.given }
    ensures left { IfOk result (λ lines. IsLeft writer.old.given.bytes (spot writer.new.cursor) lines.end lines.later.now) }
    ensures bytes { IfOk result (λ lines. left writer.old.given.bytes writer.new.cursor.index lines.end lines.later.now ≡ joined writer.old.given.bytes writer.old.cursor.index pieces.now) }
    ensures end { IfOk result (λ lines. end_from (whole lines.end) lines.later.now ≡ end_from (spot writer.old.cursor) pieces.now) }
    ensures cut { IfOk result (λ lines. IsCut writer.old.given.bytes lines.end) }
    ensures at { (a : Stage) → (outer : List Enclosing) → IsAt writer.old a outer → OnOk result (IsAt writer.new a outer) }
    ensures within { (c : Constructs) → IsWithin c writer.old → OnOk result (IsWithin c writer.new) }
    ensures attention { OnOk result (attention_events writer.new.events ≡ attention_events writer.old.events) }
{
    let mut rest = pieces;
    'pieces: while let Some((piece, later)) = rest.split_first() {
        if is_text(piece.kind) {
            return Ok(Lines {
                end: piece.end,
                later,
            });
        }
        write_piece(writer, piece)?;
        rest = later;
    }
    unreachable!()
}

/// What comes directly before the text of a line.
#[derive(Clone, Copy, PartialEq, Eq)]
pub enum BeforeText {
    /// The line ending before it.
    LineEnding,
    /// The marker of a block quote.
    Marker,
    /// White space.
    Space,
}

/// Returns what comes directly before the next text of a content.
pub fn before_text(pieces: &[Piece]) -> BeforeText {
    let mut before = BeforeText::LineEnding;
    let mut start = 0;
    for piece in pieces {
        let is_byte = piece.end.saturating_sub(start) == 1 && piece.virtual_spaces == 0;
        before = match piece.kind {
            PieceKind::Text => return before,
            PieceKind::BlockQuotePrefix if is_byte => BeforeText::Marker,
            PieceKind::Token(_) | PieceKind::BlockQuotePrefix => BeforeText::Space,
            _ => BeforeText::LineEnding,
        };
        start = piece.end;
    }
    before
}

/// Whether pieces begin with a text.
fn begin_with_text(pieces: &[Piece]) -> bool {
    match pieces.first() {
        Some(piece) => is_text(piece.kind),
        None => false,
    }
}

/// Does what `write_to_text` does among inlines, but the last column of white space before the text
/// is data.
pub fn write_to_blank<'c, R: References, S: Sink>(
    writer: &mut Recorder<'_, R, S>,
    document: &[u8],
    pieces: &'c [Piece],
) -> Result<Lines<'c>, AllocError>
    requires document { document.now ≡ writer.old.given.bytes }
    requires content { IsContent pieces.now }
    requires tiles { Tiles writer.old.given.bytes (spot writer.old.cursor) pieces.now (end_from (spot writer.old.cursor) pieces.now) }
    requires at { IsAmongInlines writer.old }
    ensures given { writer.new.given ≡ writer.old.given }
    ensures left { IfOk result (λ lines. IsLeft writer.old.given.bytes (spot writer.new.cursor) lines.end lines.later.now) }
    ensures bytes { IfOk result (λ lines. left writer.old.given.bytes writer.new.cursor.index lines.end lines.later.now ≡ joined writer.old.given.bytes writer.old.cursor.index pieces.now) }
    ensures end { IfOk result (λ lines. end_from (whole lines.end) lines.later.now ≡ end_from (spot writer.old.cursor) pieces.now) }
    ensures at { (h : Bool) → (outer : List Enclosing) → IsAt writer.old (inlines h) outer → OnOk result (IsAt writer.new (inlines h) outer) }
    ensures within { (c : Constructs) → IsWithin c writer.old → OnOk result (IsWithin c writer.new) }
    ensures attention { OnOk result (attention_events writer.new.events ≡ attention_events writer.old.events) }
{
    let mut rest = pieces;
    'pieces: while let Some((piece, later)) = rest.split_first() {
        if is_text(piece.kind) {
            return Ok(Lines {
                end: piece.end,
                later,
            });
        }
        write_between(writer, document, piece, begin_with_text(later))?;
        rest = later;
    }
    unreachable!()
}

/// Writes a piece between two texts of a content. If it is the last one, its last column of white
/// space is data.
fn write_between<R: References, S: Sink>(
    writer: &mut Recorder<'_, R, S>,
    document: &[u8],
    piece: &Piece,
    is_last: bool,
) -> Result<(), AllocError>
    requires document { document.now ≡ writer.old.given.bytes }
    requires goes { Goes writer.old.given.bytes piece.now.kind (spot writer.old.cursor) (end_of piece.now) }
    requires between { is_between_texts piece.now.kind ≡ true }
    requires at { IsAmongInlines writer.old }
    ensures given { writer.new.given ≡ writer.old.given }
    ensures spot { OnOk result (spot writer.new.cursor ≡ end_of piece.now) }
    ensures at { (h : Bool) → (outer : List Enclosing) → IsAt writer.old (inlines h) outer → OnOk result (IsAt writer.new (inlines h) outer) }
    ensures within { (c : Constructs) → IsWithin c writer.old → OnOk result (IsWithin c writer.new) }
    ensures attention { OnOk result (attention_events writer.new.events ≡ attention_events writer.old.events) }
{
    let virtual_spaces = usize::from(piece.virtual_spaces);
    match piece.kind {
        PieceKind::Token(_) if is_last => {
            blank::write(writer, document, piece.end, virtual_spaces)
        }
        PieceKind::BlockQuotePrefix if is_last => {
            write_prefix_to_blank(writer, document, piece.end, virtual_spaces)
        }
        _ => write_piece(writer, piece),
    }
}

/// Writes the prefix of a block quote up to a place. The last column of white space in it is data.
fn write_prefix_to_blank<R: References, S: Sink>(
    writer: &mut Recorder<'_, R, S>,
    document: &[u8],
    end: usize,
    virtual_spaces: usize,
) -> Result<(), AllocError>
    requires document { document.now ≡ writer.old.given.bytes }
    requires goes { Goes writer.old.given.bytes BlockQuotePrefix (spot writer.old.cursor) (record { offset = end; virtual_spaces = virtual_spaces }) }
    requires at { IsAmongInlines writer.old }
    ensures given { writer.new.given ≡ writer.old.given }
    ensures spot { OnOk result (spot writer.new.cursor ≡ record { offset = end; virtual_spaces = virtual_spaces }) }
    ensures at { (h : Bool) → (outer : List Enclosing) → IsAt writer.old (inlines h) outer → OnOk result (IsAt writer.new (inlines h) outer) }
    ensures within { (c : Constructs) → IsWithin c writer.old → OnOk result (IsWithin c writer.new) }
    ensures attention { OnOk result (attention_events writer.new.events ≡ attention_events writer.old.events) }
{
    let marker_end = writer.cursor().index + 1;
    write_block_quote_prefix(writer, marker_end, 0)?;
    if marker_end == end && virtual_spaces == 0 {
        return Ok(());
    }
    blank::write(writer, document, end, virtual_spaces)
}

/// Writes a piece that is not a text.
#[inline(always)]
pub fn write_piece<R: References, S: Sink>(
    writer: &mut Recorder<'_, R, S>,
    piece: &Piece,
) -> Result<(), AllocError>
    requires goes { Goes writer.old.given.bytes piece.now.kind (spot writer.old.cursor) (end_of piece.now) }
    requires kind { piece.now.kind ≢ Text }
    requires step { MayStep writer.old piece.now.kind }
    ensures given { writer.new.given ≡ writer.old.given }
    ensures spot { OnOk result (spot writer.new.cursor ≡ end_of piece.now) }
    ensures at { (s t : State) → Steps piece.now.kind s t → IsAt writer.old s.stage s.outer → OnOk result (IsAt writer.new t.stage t.outer) }
    ensures within { (c : Constructs) → IsOn c piece.now.kind → IsWithin c writer.old → OnOk result (IsWithin c writer.new) }
    ensures attention { is_between_texts piece.now.kind ≡ true → OnOk result (attention_events writer.new.events ≡ attention_events writer.old.events) }
{
    let end = piece.end;
    let virtual_spaces = usize::from(piece.virtual_spaces);
    match piece.kind {
        PieceKind::Enter(name) => calls::enter(writer, name),
        PieceKind::Exit(_) => calls::exit(writer),
        PieceKind::Token(name) => calls::token(writer, name, end, virtual_spaces),
        PieceKind::OpeningSequence => calls::token(writer, Name::HeadingAtxSequence, end, 0),
        PieceKind::LineEnding => calls::line_ending(writer, Name::LineEnding),
        PieceKind::BlankLineEnding => calls::line_ending(writer, Name::BlankLineEnding),
        PieceKind::BlockQuotePrefix => { write_block_quote_prefix(writer, end, virtual_spaces) }
        PieceKind::Text => unreachable!(),
    }
}

/// Writes the prefix of a block quote up to a place: its marker, and the white space after that, if
/// there is any.
fn write_block_quote_prefix<R: References, S: Sink>(
    writer: &mut Recorder<'_, R, S>,
    end: usize,
    virtual_spaces: usize,
) -> Result<(), AllocError>
    requires goes { Goes writer.old.given.bytes BlockQuotePrefix (spot writer.old.cursor) (record { offset = end; virtual_spaces = virtual_spaces }) }
    requires at { IsSomewhere writer.old }
    ensures given { writer.new.given ≡ writer.old.given }
    ensures spot { OnOk result (spot writer.new.cursor ≡ record { offset = end; virtual_spaces = virtual_spaces }) }
    ensures at { (a : Stage) → (outer : List Enclosing) → IsAt writer.old a outer → OnOk result (IsAt writer.new a outer) }
    ensures within { (c : Constructs) → IsWithin c writer.old → OnOk result (IsWithin c writer.new) }
    ensures attention { OnOk result (attention_events writer.new.events ≡ attention_events writer.old.events) }
{
    calls::enter(writer, Name::BlockQuotePrefix)?;
    let marker_end = writer.cursor().index + 1;
    calls::token(writer, Name::BlockQuoteMarker, marker_end, 0)?;
    write_space(writer, end, virtual_spaces)?;
    calls::exit(writer)?;
    Ok(())
}

/// Writes white space up to an offset, and a number of columns into the tab there, unless it is
/// empty.
pub fn write_space<R: References, S: Sink>(
    writer: &mut Recorder<'_, R, S>,
    to: usize,
    virtual_spaces: usize,
) -> Result<(), AllocError>
    requires reach { CanReach writer.old.given.bytes (point (spot writer.old.cursor)) to virtual_spaces }
    requires cut { IsCharBoundary writer.old.given.bytes to }
    requires at { IsSomewhere writer.old }
    ensures given { writer.new.given ≡ writer.old.given }
    ensures spot { OnOk result (spot writer.new.cursor ≡ record { offset = to; virtual_spaces = virtual_spaces }) }
    ensures at { (a : Stage) → (outer : List Enclosing) → IsAt writer.old a outer → OnOk result (IsAt writer.new a outer) }
    ensures within { (c : Constructs) → IsWithin c writer.old → OnOk result (IsWithin c writer.new) }
    ensures attention { OnOk result (attention_events writer.new.events ≡ attention_events writer.old.events) }
{
    let cursor = writer.cursor();
    if cursor.index == to && cursor.vs == virtual_spaces {
        return Ok(());
    }
    calls::token(writer, Name::SpaceOrTab, to, virtual_spaces)
}
