//! White space before a text whose last column is data: a tree leaves out the blank that the text
//! after the mark of a task begins with, so that the text begins in the next column.

ghost use Rattle.std.specs.Prelude.{Bool, List, OnOk, Some, length, slice_get, ◌≡◌, ◌≤◌, ◌<◌, ◌+◌};
ghost use Rattle.commonmark_syntax.specs.Cuts.{IsCut};
ghost use Rattle.event_writer.specs.Calls.{CanReach};
ghost use Rattle.event_writer.specs.Places.{after_tab, column_at};
ghost use Rattle.event_writer.specs.Stages.{Enclosing, Stage, inlines};
ghost use Rattle.markdown_options.specs.declared.Constructs.{Constructs};
ghost use Rattle.markdown_pieces.specs.Tilings.{point};
ghost use Rattle.markdown_text.specs.AttentionEvents.{attention_events};
ghost use Rattle.markdown_text.specs.Contents.{spot};
ghost use Rattle.markdown_text.specs.Spans.{IsWithin};
ghost use Rattle.markdown_text.specs.Standings.{IsAmongInlines, IsAt, IsSomewhere};

use crate::calls;
use crate::pieces::write_space;
use character_references::references::References;
use commonmark_syntax::bytes::is_space_or_tab;
use event_writer::recorder::Recorder;
use event_writer::sink::Sink;
use markdown_events::event::Name;
use std::alloc::AllocError;

/// Writes white space up to an offset, and a number of columns into the tab there. Its last column
/// is data.
pub fn write<R: References, S: Sink>(
    writer: &mut Recorder<'_, R, S>,
    document: &[u8],
    to: usize,
    virtual_spaces: usize,
) -> Result<(), AllocError>
    requires document { document.now ≡ writer.old.given.bytes }
    requires reach { CanReach writer.old.given.bytes (point (spot writer.old.cursor)) to virtual_spaces }
    requires cut { IsCut writer.old.given.bytes to }
    requires at { IsAmongInlines writer.old }
    ensures given { writer.new.given ≡ writer.old.given }
    ensures spot { OnOk result (spot writer.new.cursor ≡ record { offset = to; virtual_spaces = virtual_spaces }) }
    ensures at { (h : Bool) → (outer : List Enclosing) → IsAt writer.old (inlines h) outer → OnOk result (IsAt writer.new (inlines h) outer) }
    ensures within { (c : Constructs) → IsWithin c writer.old → OnOk result (IsWithin c writer.new) }
    ensures attention { OnOk result (attention_events writer.new.events ≡ attention_events writer.old.events) }
{
    write_to_last_column(writer, document, to, virtual_spaces)?;
    calls::token(writer, Name::Data, to, virtual_spaces)
}

/// Writes white space up to the last column before an offset, or of some columns of the tab there.
fn write_to_last_column<R: References, S: Sink>(
    writer: &mut Recorder<'_, R, S>,
    document: &[u8],
    to: usize,
    virtual_spaces: usize,
) -> Result<(), AllocError>
    requires document { document.now ≡ writer.old.given.bytes }
    requires reach { CanReach writer.old.given.bytes (point (spot writer.old.cursor)) to virtual_spaces }
    requires cut { IsCut writer.old.given.bytes to }
    requires at { IsSomewhere writer.old }
    ensures given { writer.new.given ≡ writer.old.given }
    ensures reach { OnOk result (CanReach writer.old.given.bytes (point (spot writer.new.cursor)) to virtual_spaces) }
    ensures at { (a : Stage) → (outer : List Enclosing) → IsAt writer.old a outer → OnOk result (IsAt writer.new a outer) }
    ensures within { (c : Constructs) → IsWithin c writer.old → OnOk result (IsWithin c writer.new) }
    ensures attention { OnOk result (attention_events writer.new.events ≡ attention_events writer.old.events) }
{
    if virtual_spaces > 0 {
        return write_into_tab(writer, to, virtual_spaces);
    }
    write_to_byte(writer, document, to)
}

/// Writes white space up to the last of some columns of the tab at an offset.
fn write_into_tab<R: References, S: Sink>(
    writer: &mut Recorder<'_, R, S>,
    to: usize,
    virtual_spaces: usize,
) -> Result<(), AllocError>
    requires filled { 0 < virtual_spaces }
    requires reach { CanReach writer.old.given.bytes (point (spot writer.old.cursor)) to virtual_spaces }
    requires cut { IsCut writer.old.given.bytes to }
    requires at { IsSomewhere writer.old }
    ensures given { writer.new.given ≡ writer.old.given }
    ensures reach { OnOk result (CanReach writer.old.given.bytes (point (spot writer.new.cursor)) to virtual_spaces) }
    ensures at { (a : Stage) → (outer : List Enclosing) → IsAt writer.old a outer → OnOk result (IsAt writer.new a outer) }
    ensures within { (c : Constructs) → IsWithin c writer.old → OnOk result (IsWithin c writer.new) }
    ensures attention { OnOk result (attention_events writer.new.events ≡ attention_events writer.old.events) }
{
    let cursor = writer.cursor();
    if cursor.index == to && cursor.vs >= virtual_spaces {
        return Ok(());
    }
    write_space(writer, to, virtual_spaces - 1)
}

/// Writes white space up to the last column before an offset.
fn write_to_byte<R: References, S: Sink>(
    writer: &mut Recorder<'_, R, S>,
    document: &[u8],
    to: usize,
) -> Result<(), AllocError>
    requires document { document.now ≡ writer.old.given.bytes }
    requires reach { CanReach writer.old.given.bytes (point (spot writer.old.cursor)) to 0 }
    requires at { IsSomewhere writer.old }
    ensures given { writer.new.given ≡ writer.old.given }
    ensures reach { OnOk result (CanReach writer.old.given.bytes (point (spot writer.new.cursor)) to 0) }
    ensures at { (a : Stage) → (outer : List Enclosing) → IsAt writer.old a outer → OnOk result (IsAt writer.new a outer) }
    ensures within { (c : Constructs) → IsWithin c writer.old → OnOk result (IsWithin c writer.new) }
    ensures attention { OnOk result (attention_events writer.new.events ≡ attention_events writer.old.events) }
{
    if writer.cursor().index >= to || !is_space_or_tab(document[to - 1]) {
        return Ok(());
    }
    write_space_before(writer, to - 1)?;
    enter_tab(writer, document)
}

/// Writes white space up to an offset, if the cursor is before it.
fn write_space_before<R: References, S: Sink>(
    writer: &mut Recorder<'_, R, S>,
    to: usize,
) -> Result<(), AllocError>
    requires reach { writer.old.cursor.index < to → CanReach writer.old.given.bytes (point (spot writer.old.cursor)) to 0 }
    requires cut { IsCut writer.old.given.bytes to }
    requires order { writer.old.cursor.index ≤ to }
    requires within { to ≤ length writer.old.given.bytes }
    requires at { IsSomewhere writer.old }
    ensures given { writer.new.given ≡ writer.old.given }
    ensures index { OnOk result (writer.new.cursor.index ≡ to) }
    ensures at { (a : Stage) → (outer : List Enclosing) → IsAt writer.old a outer → OnOk result (IsAt writer.new a outer) }
    ensures within { (c : Constructs) → IsWithin c writer.old → OnOk result (IsWithin c writer.new) }
    ensures attention { OnOk result (attention_events writer.new.events ≡ attention_events writer.old.events) }
{
    if writer.cursor().index >= to {
        return Ok(());
    }
    write_space(writer, to, 0)
}

/// Writes the columns of the tab at the cursor but the last one, if a tab is there.
pub fn enter_tab<R: References, S: Sink>(
    writer: &mut Recorder<'_, R, S>,
    document: &[u8],
) -> Result<(), AllocError>
    requires document { document.now ≡ writer.old.given.bytes }
    requires at { IsSomewhere writer.old }
    ensures given { writer.new.given ≡ writer.old.given }
    ensures index { OnOk result (writer.new.cursor.index ≡ writer.old.cursor.index) }
    ensures last { slice_get writer.old.given.bytes writer.old.cursor.index ≡ Some 9 → OnOk result (column_at writer.old.given.bytes writer.old.cursor.index + writer.new.cursor.vs + 1 ≡ after_tab (column_at writer.old.given.bytes writer.old.cursor.index)) }
    ensures at { (a : Stage) → (outer : List Enclosing) → IsAt writer.old a outer → OnOk result (IsAt writer.new a outer) }
    ensures within { (c : Constructs) → IsWithin c writer.old → OnOk result (IsWithin c writer.new) }
    ensures attention { OnOk result (attention_events writer.new.events ≡ attention_events writer.old.events) }
{
    let cursor = writer.cursor();
    let columns = columns_before_last(cursor.column - cursor.vs);
    if document.get(cursor.index) != Some(&b'\t') || columns <= cursor.vs {
        return Ok(());
    }
    calls::token(writer, Name::SpaceOrTab, cursor.index, columns)
}

/// Returns how many columns of a tab come before its last one, given the column where it begins.
fn columns_before_last(column: usize) -> usize
    ensures { column + result + 1 ≡ after_tab column }
{
    match column % 4 {
        0 => 0,
        rest => 4 - rest,
    }
}
