//! Hidden bytes: they are within a label or the cell of a table, but are not part of its content.

ghost use Rattle.std.specs.Prelude.{◌≡◌, ◌<◌, ◌+◌, ◌++◌, ◌-◌, ◌^◌, IfOk, OnOk, drop, length, take};
ghost use Rattle.markdown.specs.Hidden.{cell_after, escapes, flags_at, hidden, hidden_by, hidden_from, is_label, labels_after, with_set};

use markdown_events::event::{Event, Kind, Name};
use markdown_pieces::piece::{Piece, PieceKind};
use std::alloc::{AllocError, Global};

/// Returns a flag for each byte of a document with these events, which says whether it is hidden,
/// or no flags if no byte is. If you make a tree from the events of
/// [`to_events`](crate::to_events), pass the flags to `Document::hiding` of `markdown_tree`. The
/// only error is that memory ran out.
///
/// The hidden bytes are the marker of a block quote within a label that spans lines (CommonMark),
/// and a backslash before a pipe in the cell of a table (GFM).
///
/// In `> [a⏎> b]` the second `>` is hidden.
pub fn hidden_bytes(alloc: Global, bytes: &[u8], events: &[Event]) -> Result<Vec<bool>, AllocError>
    ensures { IfOk result (λ flags. flags.items ≡ hidden bytes.now events.now) }
{
    let offsets = hidden_offsets(alloc, bytes, events)?;
    flags_at(alloc, bytes.len(), &offsets)
}

/// Returns the offsets of the hidden bytes.
fn hidden_offsets(alloc: Global, bytes: &[u8], events: &[Event]) -> Result<Vec<usize>, AllocError>
    ensures { IfOk result (λ offsets. offsets.items ≡ hidden_from bytes.now 0 0 events.now) }
{
    let mut offsets = Vec::new(alloc);
    let mut labels = 0;
    let mut cell = 0;
    let mut rest = events;
    'events: while let Some((event, later)) = rest.split_first() {
        add_hidden(&mut offsets, bytes, labels, cell, event)?;
        labels = labels_after(labels, event);
        cell = cell_after(cell, event);
        rest = later;
    }
    Ok(offsets)
}

/// Returns the offsets of the bytes that the cells of tables hide, from the pieces of a document.
pub(crate) fn offsets_in_cells(
    alloc: Global,
    bytes: &[u8],
    pieces: &[Piece],
) -> Result<Vec<usize>, AllocError> {
    let mut offsets = Vec::new(alloc);
    let mut cell = 0;
    for piece in pieces {
        match piece.kind {
            PieceKind::Enter(Name::GfmTableCell) => cell = piece.end,
            PieceKind::Exit(Name::GfmTableCell) => {
                add_in_cell(&mut offsets, bytes, cell, piece.end)?;
            }
            _ => {}
        }
    }
    Ok(offsets)
}

/// Adds the offsets that an event hides, given how many labels are open and where the open cell
/// began.
pub(crate) fn add_hidden(
    offsets: &mut Vec<usize>,
    bytes: &[u8],
    labels: usize,
    cell: usize,
    event: &Event,
) -> Result<(), AllocError>
    ensures { OnOk result (offsets.new.items ≡ offsets.old.items ++ hidden_by bytes.now labels cell event.now.kind event.now.name event.now.point.index) }
{
    let index = event.point.index;
    match (event.kind, event.name) {
        (Kind::Enter, Name::BlockQuoteMarker) if labels > 0 => offsets.push(index)?,
        (Kind::Exit, Name::GfmTableCell) => add_in_cell(offsets, bytes, cell, index)?,
        _ => {}
    }
    Ok(())
}

/// Adds the offsets that a cell from one offset to another hides.
fn add_in_cell(
    offsets: &mut Vec<usize>,
    bytes: &[u8],
    start: usize,
    end: usize,
) -> Result<(), AllocError>
    ensures { OnOk result (offsets.new.items ≡ offsets.old.items ++ escapes start (take (end - start) (drop start bytes.now))) }
{
    add_escapes(offsets, part(bytes, start, end), start)
}

/// Returns how many labels are open after an event.
fn labels_after(labels: usize, event: &Event) -> usize
    requires { labels < 2 ^ 64 - 1 }
    ensures { result ≡ labels_after labels event.now.kind event.now.name }
{
    match event.kind {
        _ if !is_label(event.name) => labels,
        Kind::Enter => labels + 1,
        Kind::Exit => labels.saturating_sub(1),
    }
}

/// Whether definitions and references are matched by the bytes of a span with this name.
#[inline(always)]
pub(crate) fn is_label(name: Name) -> bool
    ensures { result ≡ is_label name }
{
    matches!(
        name,
        Name::LabelText
            | Name::ReferenceString
            | Name::DefinitionLabelString
            | Name::GfmFootnoteDefinitionLabelString
    )
}

/// Returns where the cell began that is open after an event.
pub(crate) fn cell_after(cell: usize, event: &Event) -> usize
    ensures { result ≡ cell_after cell event.now.kind event.now.name event.now.point.index }
{
    match (event.kind, event.name) {
        (Kind::Enter, Name::GfmTableCell) => event.point.index,
        _ => cell,
    }
}

/// Returns the bytes from one offset to another, or those of them that exist.
pub(crate) fn part(bytes: &[u8], start: usize, end: usize) -> &[u8]
    ensures { result.now ≡ take (end - start) (drop start bytes.now) }
{
    let rest = bytes.get(start..).unwrap_or(&[]);
    rest.get(..end.saturating_sub(start)).unwrap_or(rest)
}

/// Adds the offsets of the backslashes before pipes in a text that begins at an offset.
fn add_escapes(offsets: &mut Vec<usize>, text: &[u8], start: usize) -> Result<(), AllocError>
    requires { start + length text.now < 2 ^ 64 }
    ensures { OnOk result (offsets.new.items ≡ offsets.old.items ++ escapes start text.now) }
{
    let mut at = start;
    let mut rest = text;
    'bytes: while let Some((first, later)) = rest.split_first() {
        if *first == b'\\' && matches!(later, [b'|', ..]) {
            offsets.push(at)?;
        }
        at += 1;
        rest = later;
    }
    Ok(())
}

/// Returns a flag for each of `count` bytes, set at these offsets, or no flags if there is no
/// offset.
pub(crate) fn flags_at(
    alloc: Global,
    count: usize,
    offsets: &[usize],
) -> Result<Vec<bool>, AllocError>
    ensures { IfOk result (λ flags. flags.items ≡ flags_at count offsets.now) }
{
    if offsets.is_empty() {
        return Ok(Vec::new(alloc));
    }
    let mut flags = vec![in alloc; false; count]?;
    set_all(&mut flags, offsets);
    Ok(flags)
}

/// Sets the flags at these offsets.
fn set_all(flags: &mut Vec<bool>, offsets: &[usize])
    ensures { flags.new.items ≡ with_set offsets.now flags.old.items }
{
    let mut rest = offsets;
    'offsets: while let Some((at, later)) = rest.split_first() {
        if let Some(flag) = flags.get_mut(*at) {
            *flag = true;
        }
        rest = later;
    }
}
