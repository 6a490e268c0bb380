//! The events of a document, from its pieces.

ghost use Rattle.std.specs.Prelude.{Bool, IfOk, List, [], false, true, ◌≡◌};
ghost use Rattle.std.specs.Str.{is_utf8};
ghost use Rattle.event_writer.specs.Stages.{Enclosing, flow, inlines};
ghost use Rattle.markdown_options.specs.Spans.{AreOn};
ghost use Rattle.markdown_pieces.specs.Spans.{AreOn as ArePiecesOn};
ghost use Rattle.markdown_pieces.specs.Tilings.{Tiles, end_from};
ghost use Rattle.markdown_pieces.specs.Walks.{State, Walks, start};
ghost use Rattle.markdown_text.specs.Contents.{IsContent, joined, spot};
ghost use Rattle.markdown_text.specs.Spans.{IsWithin};
ghost use Rattle.markdown_text.specs.Standings.{IsAt};
ghost use Rattle.markdown_text.specs.Tasks.{BeginsContent, IsAtContent, IsAtPlace, MayWalk, next_task_place};
ghost use Rattle.markdown_text.specs.declared.document.TaskPlace.TheVariants.{InParagraph};

use crate::content::{between, content_size, join, range_end};
use crate::output::ContentKind;
use crate::pieces::{is_text, write_piece};
use crate::source::Source;
use crate::spare_lists::SpareLists;
use crate::stretches::cut_later;
use crate::{string, text};
use character_references::references::References;
use event_writer::recorder::Recorder;
use event_writer::sink::Sink;
use markdown_events::event::Name;
use markdown_options::ParseOptions;
use markdown_pieces::identifiers::Identifiers;
use markdown_pieces::piece::{Piece, PieceKind};
use std::alloc::{AllocError, Global};

/// The document, its options and what it defines, as needed to read it (ours).
///
/// With `ParseOptions::default()` and empty identifiers, `[a](b)` is a link, and `[a]` is not.
#[derive(Drop)]
pub struct Reading<'r, R> {
    /// The allocator.
    pub alloc: Global,
    /// The document.
    pub document: &'r [u8],
    /// How it is read: a construct that is off has no span.
    pub options: ParseOptions,
    /// The identifiers that the document defines.
    pub identifiers: &'r Identifiers,
    /// What character references stand for.
    pub references: &'r R,
}

/// Writes the pieces of a document, with the inlines in its texts and strings (micromark). The only
/// error is that memory ran out.
///
/// A text, and the texts of the next lines if a line ending comes after it, are one content. In a
/// paragraph, a heading or the cell of a table it is a text. Elsewhere it is a string, which has
/// only escapes and character references. The memory of the pieces is given back as they are
/// written.
///
/// The pieces of `a` are `Enter(Paragraph)`, `Text` up to 1, and `Exit(Paragraph)`. The writer gets
/// the enter of a `Name::Paragraph`, a `Name::Data` up to offset 1, and the exit.
pub fn write<'c, 'd, R: References, S: Sink>(
    reading: &'c Reading<'c, R>,
    pieces: Vec<Piece>,
    writer: Recorder<'d, R, S>,
) -> Result<Recorder<'d, R, S>, AllocError>
    requires document { writer.given.bytes ≡ reading.now.document.now }
    requires references { writer.given.references ≡ reading.now.references.now }
    requires tiles { Tiles reading.now.document.now (spot writer.cursor) pieces.items (end_from (spot writer.cursor) pieces.items) }
    requires nest { Walks start pieces.items start }
    requires root { IsAt writer (flow false) [] }
    requires on { ArePiecesOn reading.now.options.constructs pieces.items }
    requires events { AreOn reading.now.options.constructs writer.events }
    ensures given { IfOk result (λ written. written.given ≡ writer.entry.given) }
    ensures end { IfOk result (λ written. spot written.cursor ≡ end_from (spot writer.entry.cursor) pieces.items) }
    ensures root { IfOk result (λ written. IsAt written (flow false) []) }
    ensures options { IfOk result (λ written. AreOn reading.now.options.constructs written.events) }
{
    let mut writer = Box::new(reading.alloc, writer)?;
    let mut place = TaskPlace::Nowhere;
    let mut lists = SpareLists::new(reading.alloc);
    let mut stretch = pieces;
    'stretches: while !stretch.is_empty() {
        let later = cut_later(reading.alloc, &mut stretch)?;
        (writer, place) = write_stretch(&*reading, stretch.as_slice(), writer, place, &mut lists)?;
        stretch = later;
    }
    Ok(Box::into_inner(writer))
}

/// Writes a stretch of pieces that begins at a place, and returns the place after it.
fn write_stretch<'c, 'd, R: References, S: Sink>(
    reading: &'c Reading<'c, R>,
    pieces: &'c [Piece],
    writer: Box<Recorder<'d, R, S>>,
    place: TaskPlace,
    lists: &mut SpareLists,
) -> Result<(Box<Recorder<'d, R, S>>, TaskPlace), AllocError>
    requires document { writer.value.given.bytes ≡ reading.now.document.now }
    requires references { writer.value.given.references ≡ reading.now.references.now }
    requires tiles { Tiles reading.now.document.now (spot writer.value.cursor) pieces.now (end_from (spot writer.value.cursor) pieces.now) }
    requires nest { MayWalk writer.value place pieces.now }
    requires on { ArePiecesOn reading.now.options.constructs pieces.now }
    requires within { IsWithin reading.now.options.constructs writer.value }
    ensures given { IfOk result (λ written. written.0.value.given ≡ writer.entry.value.given) }
    ensures end { IfOk result (λ written. spot written.0.value.cursor ≡ end_from (spot writer.entry.value.cursor) pieces.now) }
    ensures nest { (s t : State) → IsAtPlace writer.entry.value place s → Walks s pieces.now t → IfOk result (λ written. IsAtPlace written.0.value written.1 t) }
    ensures within { IfOk result (λ written. IsWithin reading.now.options.constructs written.0.value) }
{
    let mut writer = writer;
    let mut place = place;
    let mut name = None;
    let mut rest = pieces;
    'pieces: while let Some((piece, later)) = rest.split_first() {
        if is_text(piece.kind) {
            let (content, later) = rest.split_at(content_size(rest));
            writer = inlines(reading, writer, content, name, place, lists)?;
            place = TaskPlace::Nowhere;
            rest = later;
            continue;
        }
        name = name_after(piece.kind, name);
        place = place.after(piece.kind);
        write_piece(&mut *writer, piece)?;
        rest = later;
    }
    Ok((writer, place))
}

/// Where the mark of a task may come: at the start of the first block of an item, if that is a
/// paragraph (GFM). The item may begin with a line ending.
#[derive(Clone, Copy, PartialEq, Eq)]
enum TaskPlace {
    /// Not before the next item.
    Nowhere,
    /// At the start of the next block, if it is a paragraph.
    InItem,
    /// Here.
    InParagraph,
}

impl TaskPlace {
    /// Returns the place after a piece of this kind.
    fn after(self, kind: PieceKind) -> TaskPlace
        ensures { result ≡ next_task_place self kind }
    {
        match (self, kind) {
            (_, PieceKind::Exit(Name::ListItemPrefix)) => TaskPlace::InItem,
            (TaskPlace::InItem, PieceKind::Enter(Name::Paragraph)) => TaskPlace::InParagraph,
            (_, PieceKind::Token(Name::SpaceOrTab) | PieceKind::BlankLineEnding) => self,
            _ => TaskPlace::Nowhere,
        }
    }
}

/// Whether a content at a place may begin with the mark of a task.
fn may_be_task(options: &ParseOptions, place: TaskPlace) -> bool
    ensures place { result ≡ true → place ≡ InParagraph }
    ensures on { result ≡ true → options.now.constructs.gfm_task_list_item ≡ true }
{
    options.constructs.gfm_task_list_item && place == TaskPlace::InParagraph
}

/// Returns the name of the last span that has begun, after a piece.
fn name_after(kind: PieceKind, before: Option<Name>) -> Option<Name> {
    match kind {
        PieceKind::Enter(name) => Some(name),
        _ => before,
    }
}

/// Returns the kind of a content in a span of this name.
#[inline(always)]
fn content_kind(name: Option<Name>) -> ContentKind {
    match name {
        Some(
            Name::Paragraph
            | Name::HeadingAtxText
            | Name::HeadingSetextText
            | Name::GfmTableCellText,
        ) => ContentKind::Text,
        _ => ContentKind::String,
    }
}

/// Writes a content in a span of this name, with the spans in it.
#[inline(always)]
fn inlines<'c, 'd, R: References, S: Sink>(
    reading: &'c Reading<'c, R>,
    writer: Box<Recorder<'d, R, S>>,
    pieces: &'c [Piece],
    name: Option<Name>,
    place: TaskPlace,
    lists: &mut SpareLists,
) -> Result<Box<Recorder<'d, R, S>>, AllocError>
    requires document { writer.value.given.bytes ≡ reading.now.document.now }
    requires references { writer.value.given.references ≡ reading.now.references.now }
    requires content { IsContent pieces.now }
    requires tiles { Tiles writer.value.given.bytes (spot writer.value.cursor) pieces.now (end_from (spot writer.value.cursor) pieces.now) }
    requires begins { BeginsContent place writer.value }
    requires within { IsWithin reading.now.options.constructs writer.value }
    ensures given { IfOk result (λ written. written.value.given ≡ writer.entry.value.given) }
    ensures end { IfOk result (λ written. spot written.value.cursor ≡ end_from (spot writer.entry.value.cursor) pieces.now) }
    ensures at { (h : Bool) → (outer : List Enclosing) → IsAtContent place writer.entry.value h outer → IfOk result (λ written. IsAt written.value (inlines h) outer) }
    ensures within { IfOk result (λ written. IsWithin reading.now.options.constructs written.value) }
{
    let document = reading.document;
    let start = writer.cursor().index;
    match range_end(document, start, pieces) {
        Some(end) => {
            let bytes = between(document, start, end);
            inlines_of(reading, writer, bytes, pieces, name, place, lists)
        }
        None => {
            let bytes = join(lists, reading.alloc, document, start, pieces)?;
            let text = bytes.as_slice();
            let written = inlines_of(reading, writer, text, pieces, name, place, lists);
            lists.bytes = bytes;
            written
        }
    }
}

/// Writes a content with these bytes.
#[inline(always)]
fn inlines_of<'c, 'd, R: References, S: Sink>(
    reading: &'c Reading<'c, R>,
    writer: Box<Recorder<'d, R, S>>,
    bytes: &'c [u8],
    pieces: &'c [Piece],
    name: Option<Name>,
    place: TaskPlace,
    lists: &mut SpareLists,
) -> Result<Box<Recorder<'d, R, S>>, AllocError>
    requires document { writer.value.given.bytes ≡ reading.now.document.now }
    requires references { writer.value.given.references ≡ reading.now.references.now }
    requires content { IsContent pieces.now }
    requires tiles { Tiles writer.value.given.bytes (spot writer.value.cursor) pieces.now (end_from (spot writer.value.cursor) pieces.now) }
    requires bytes { bytes.now ≡ joined writer.value.given.bytes writer.value.cursor.index pieces.now }
    requires utf8 { is_utf8 bytes.now ≡ true }
    requires begins { BeginsContent place writer.value }
    requires within { IsWithin reading.now.options.constructs writer.value }
    ensures given { IfOk result (λ written. written.value.given ≡ writer.entry.value.given) }
    ensures end { IfOk result (λ written. spot written.value.cursor ≡ end_from (spot writer.entry.value.cursor) pieces.now) }
    ensures at { (h : Bool) → (outer : List Enclosing) → IsAtContent place writer.entry.value h outer → IfOk result (λ written. IsAt written.value (inlines h) outer) }
    ensures within { IfOk result (λ written. IsWithin reading.now.options.constructs written.value) }
{
    let source = Source {
        reading,
        bytes,
        is_cell: name == Some(Name::GfmTableCellText),
    };
    match content_kind(name) {
        ContentKind::Text => {
            let is_task = may_be_task(&reading.options, place);
            text::inlines(&source, writer, pieces, is_task, lists)
        }
        ContentKind::String => string::inlines(&source, writer, pieces),
    }
}
