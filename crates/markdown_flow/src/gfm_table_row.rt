//! Rows of tables: how they are split into cells (GFM).

ghost use Rattle.std.specs.Prelude.{[], OnOk, drop, false, length, slice_index, take, ◌≡◌, ◌≤◌, ◌<◌, ◌⊎◌};
ghost use Rattle.std.specs.Str.{IsAscii};
ghost use Rattle.commonmark_syntax.specs.Cuts.{IsCut};
ghost use Rattle.event_writer.specs.Stages.{Stage, inlines};
ghost use Rattle.markdown_flow.specs.Lines.{after_spaces};
ghost use Rattle.markdown_flow.specs.Outputs.{Keeps, Writes, WritesOn, WritesOut, rest_of, text_of};
ghost use Rattle.markdown_flow.specs.Rows.{IsFirst};

use crate::output::Output;
use crate::space_or_tab::{after_spaces, is_blank};
use commonmark_syntax::bytes::{after, trimmed_size};
use markdown_events::event::Name;
use std::alloc::AllocError;

/// A cell of a row.
#[derive(Clone, Copy)]
pub struct Cell<'d> {
    /// The size in bytes of the divider before it, or 0 if there is none.
    divider_size: usize,
    /// Its text, without the white space around it.
    pub text: &'d [u8],
    /// The rest of the row from the divider before the next cell on; empty if there is no next
    /// cell.
    pub next: &'d [u8],
}

impl<'d> Cell<'d> {
    /// Returns the first cell of a row, or of the rest of a row that begins with a divider.
    ///
    /// That of `| a | b |` has the text `a`, and the next is that of `| b |`.
    pub fn first(row: &'d [u8]) -> Cell<'d>
        ensures less { 0 < length row.now → length result.next.now < length row.now }
        ensures first { IsFirst row.now result }
    {
        let size = cell_size(row);
        let cell = &row[..size];
        let divider_size = divider_size(row);
        let text = after_spaces(after(cell, divider_size));
        Cell {
            divider_size,
            text: &text[..trimmed_size(text)],
            next: next_cell(after(row, size)),
        }
    }

    /// Writes what comes before its text: a divider, and the white space around it.
    pub fn write_before(&self, output: &mut Output<'_>) -> Result<(), AllocError>
        requires writes { Writes output.old }
        requires cut { IsCut (text_of output.old) self.now.divider_size }
        ensures written { OnOk result (WritesOn output.old output.new) }
        ensures rest { OnOk result (rest_of output.new ≡ after_spaces (drop self.now.divider_size (text_of output.old))) }
        ensures opens { (a : Stage) → Keeps result a output.old output.new }
    {
        output.white_space()?;
        output.token(Name::GfmTableCellDivider, self.divider_size)?;
        output.white_space()
    }

    /// Writes what comes after its text: white space, and after the last cell the end of the row.
    pub fn write_after(&self, output: &mut Output<'_>) -> Result<(), AllocError>
        requires writes { Writes output.old }
        requires cut { IsCut (text_of output.old) 1 }
        ensures written { OnOk result (WritesOn output.old output.new) }
        ensures rest { 0 < length self.now.next.now → OnOk result (rest_of output.new ≡ text_of output.old) }
        ensures ended { self.now.next.now ≡ [] → OnOk result (output.new.cursor.offset ≡ output.new.cursor.extent.end) }
        ensures opens { (a : Stage) → Keeps result a output.old output.new }
    {
        output.white_space()?;
        if !self.next.is_empty() {
            return Ok(());
        }
        output.token(Name::GfmTableCellDivider, 1)?;
        output.token_of_rest(Name::SpaceOrTab)
    }
}

/// Returns the size in bytes of the divider that a row begins with, or 0 if there is none.
fn divider_size(row: &[u8]) -> usize
    ensures within { result ≤ length row.now }
    ensures most { result ≤ 1 }
    ensures ascii { IsAscii (take result row.now) }
{
    match row {
        [b'|', ..] => 1,
        _ => 0,
    }
}

/// Returns the size in bytes of the first cell of a row, with the divider before it. It ends before
/// the next divider that is not escaped (GFM).
fn cell_size(row: &[u8]) -> usize
    ensures most { result ≤ length row.now }
    ensures least { 0 < length row.now → 0 < result }
    ensures divider { result < length row.now → slice_index row.now result ≡ 124 }
{
    let mut is_escaped = false;
    for (size, byte) in row.iter().enumerate() {
        match *byte {
            b'|' if size > 0 && !is_escaped => return size,
            b'\\' => is_escaped = !is_escaped,
            _ => is_escaped = false,
        }
    }
    row.len()
}

/// Returns the rest of a row that begins with a divider, if a cell comes after the divider, or
/// nothing. A last divider begins no cell.
fn next_cell(end: &[u8]) -> &[u8]
    ensures less { length result.now ≤ length end.now }
    ensures next { (result.now ≡ end.now) ⊎ ((result.now ≡ []) × IsAscii (drop 1 end.now)) }
{
    if is_blank(after(end, 1)) { &[] } else { end }
}

/// Returns how many cells a row has.
///
/// `| a | b |` has 2.
pub fn count(row: &[u8]) -> usize {
    let mut rest = row;
    let mut count = 0;
    'cells: while !rest.is_empty() {
        rest = next_cell(after(rest, cell_size(rest)));
        count += 1;
    }
    count
}

/// Writes the row in a line, with the white space before it.
pub fn write(output: &mut Output<'_>) -> Result<(), AllocError>
    requires { Writes output.old }
    ensures written { OnOk result (WritesOut output.old output.new) }
    ensures opens { Keeps result (inlines false) output.old output.new }
{
    output.enter(Name::GfmTableRow)?;
    let mut cell = Cell::first(after_spaces(output.rest()));
    write_cell(&cell, output)?;
    'cells: while !cell.next.is_empty() {
        cell = Cell::first(cell.next);
        write_cell(&cell, output)?;
    }
    output.exit(Name::GfmTableRow)
}

/// Writes a cell.
fn write_cell(cell: &Cell<'_>, output: &mut Output<'_>) -> Result<(), AllocError>
    requires writes { Writes output.old }
    requires first { IsFirst (text_of output.old) cell.now }
    ensures written { OnOk result (WritesOn output.old output.new) }
    ensures next { 0 < length cell.now.next.now → OnOk result (text_of output.new ≡ cell.now.next.now) }
    ensures ended { cell.now.next.now ≡ [] → OnOk result (output.new.cursor.offset ≡ output.new.cursor.extent.end) }
    ensures opens { Keeps result (inlines false) output.old output.new }
{
    output.enter(Name::GfmTableCell)?;
    cell.write_before(output)?;
    output.string(Name::GfmTableCellText, cell.text.len())?;
    cell.write_after(output)?;
    output.exit(Name::GfmTableCell)?;
    Ok(())
}
