//! Tables (GFM).

ghost use Rattle.std.specs.Prelude.{Bool, List, [], OnOk, Some, false, length, true, ◌≡◌, ◌<◌};
ghost use Rattle.std.specs.Str.{IsAscii};
ghost use Rattle.commonmark_syntax.specs.Blocks as blocks;
ghost use Rattle.commonmark_syntax.specs.Language.{Matches};
ghost use Rattle.event_writer.specs.Stages.{Enclosing, Stage, delimiter_row, inlines};
ghost use Rattle.markdown_flow.specs.Leaves.{in_flow, in_table};
ghost use Rattle.markdown_flow.specs.Outputs.{HasLine, Keeps, Opens, Stands, Writes, WritesOn, WritesOut, Reads, constructs_in, constructs_of, next_of, rest_of, source_of, spot, text_of};
ghost use Rattle.markdown_flow.specs.Contents.{Kept};
ghost use Rattle.markdown_pieces.specs.Spans.{IsAlwaysOn};
ghost use Rattle.markdown_pieces.specs.declared.piece.PieceKind.TheVariants.{Token};
ghost use Rattle.markdown_pieces.specs.Tilings.{IsPlain};
ghost use Rattle.markdown_pieces.specs.Walks.{after_token};

use crate::content::{Content, KeptLine};
use crate::gfm_table_row::{self, Cell};
use crate::input::Input;
use crate::line::Line;
use crate::output::Output;
use crate::space_or_tab::after_spaces;
use commonmark_syntax::bytes::{run_length, trimmed_size};
use commonmark_syntax::delimiter_row;
use markdown_events::event::Name;
use std::alloc::AllocError;

/// Whether the last line of a paragraph and the line after it are the head of a table (GFM). Always
/// false with `gfm_table` off.
pub fn begins(header: &Line<'_>, line: &Line<'_>) -> bool
    ensures ascii { result ≡ true → IsAscii line.now.text.now }
    ensures on { result ≡ true → (constructs_in line.now).gfm_table ≡ true }
    ensures row { result ≡ true → Matches blocks.delimiter_row line.now.text.now }
{
    if !line.constructs().gfm_table || line.is_indented() || header.is_indented() {
        return false;
    }
    delimiter_row::is_row(line.text())
        && !is_bare_divider(header.text())
        && gfm_table_row::count(header.text()) == gfm_table_row::count(line.text())
}

/// Whether a row is a lone divider, which is not the head of a table (micromark).
fn is_bare_divider(row: &[u8]) -> bool {
    row.starts_with(b"|") && trimmed_size(row) == 1
}

/// Writes the head of a table: the last line of a paragraph, and the line after it.
pub fn open<'d>(
    content: &Content<'d>,
    header: &KeptLine<'d>,
    input: &mut Input<'d>,
    output: &mut Output<'d>,
) -> Result<(), AllocError>
    requires stands { Stands output.old }
    requires header { Kept (source_of output.old) content.now.prefixes.items (spot output.old.cursor) header.now }
    requires input { Reads (source_of output.old) (next_of header.now.line) input.old }
    requires ascii { IsAscii input.old.line.text.now }
    requires on { (constructs_of output.old).gfm_table ≡ true }
    ensures writes { OnOk result (Writes output.new) }
    ensures at { OnOk result (HasLine output.new.cursor input.old.line) }
    ensures ended { OnOk result (output.new.cursor.offset ≡ output.new.cursor.extent.end) }
    ensures line { OnOk result (input.new.line ≡ input.old.line) }
    ensures taken { OnOk result (input.new.prefix.items ≡ []) }
    ensures opens { (n : Bool) → (outer : List Enclosing) → Opens output.old (in_flow n outer) → OnOk result (Opens output.new (in_table false n outer)) }
{
    content.begin(header, output)?;
    output.enter(Name::GfmTable)?;
    output.enter(Name::GfmTableHead)?;
    gfm_table_row::write(output)?;
    output.end_line()?;
    output.begin(input)?;
    write_delimiter_row(output)?;
    output.exit(Name::GfmTableHead)
}

/// Writes the delimiter row.
fn write_delimiter_row(output: &mut Output<'_>) -> Result<(), AllocError>
    requires writes { Writes output.old }
    requires ascii { IsAscii (text_of output.old) }
    ensures written { OnOk result (WritesOut output.old output.new) }
    ensures opens { Keeps result (inlines false) output.old output.new }
{
    output.enter(Name::GfmTableDelimiterRow)?;
    let mut cell = Cell::first(after_spaces(output.rest()));
    write_delimiter(&cell, output)?;
    'cells: while !cell.next.is_empty() {
        cell = Cell::first(cell.next);
        write_delimiter(&cell, output)?;
    }
    output.exit(Name::GfmTableDelimiterRow)
}

/// Writes a cell of the delimiter row.
fn write_delimiter(cell: &Cell<'_>, output: &mut Output<'_>) -> Result<(), AllocError>
    requires writes { Writes output.old }
    requires ascii { IsAscii (text_of output.old) }
    ensures written { OnOk result (WritesOn output.old output.new) }
    ensures ascii { 0 < length cell.now.next.now → OnOk result (IsAscii (text_of output.new)) }
    ensures ended { cell.now.next.now ≡ [] → OnOk result (output.new.cursor.offset ≡ output.new.cursor.extent.end) }
    ensures opens { Keeps result delimiter_row output.old output.new }
{
    output.enter(Name::GfmTableDelimiterCell)?;
    cell.write_before(output)?;
    output.enter(Name::GfmTableDelimiterCellValue)?;
    write_run(Name::GfmTableDelimiterMarker, b':', output)?;
    write_run(Name::GfmTableDelimiterFiller, b'-', output)?;
    write_run(Name::GfmTableDelimiterMarker, b':', output)?;
    output.exit(Name::GfmTableDelimiterCellValue)?;
    cell.write_after(output)?;
    output.exit(Name::GfmTableDelimiterCell)?;
    Ok(())
}

/// Writes the run of a byte that is next in the line, unless there is none.
fn write_run(name: Name, of: u8, output: &mut Output<'_>) -> Result<(), AllocError>
    requires writes { Writes output.old }
    requires plain { IsPlain name }
    requires on { IsAlwaysOn (Token name) }
    requires ascii { of < 128 }
    ensures written { OnOk result (WritesOn output.old output.new) }
    ensures rest { IsAscii (rest_of output.old) → OnOk result (IsAscii (rest_of output.new)) }
    ensures opens { (a : Stage) → after_token a name ≡ Some a → Keeps result a output.old output.new }
{
    let size = run_length(output.rest(), of);
    output.token(name, size)
}

/// Writes a row of the body. `has_body` says whether there was one before.
pub fn write_row(has_body: bool, output: &mut Output<'_>) -> Result<(), AllocError>
    requires { Writes output.old }
    ensures written { OnOk result (WritesOut output.old output.new) }
    ensures opens { (n : Bool) → (outer : List Enclosing) → Opens output.old (in_table has_body n outer) → OnOk result (Opens output.new (in_table true n outer)) }
{
    if has_body {
        return gfm_table_row::write(output);
    }
    output.enter(Name::GfmTableBody)?;
    gfm_table_row::write(output)
}

/// Writes the end of a table.
pub fn end(has_body: bool, output: &mut Output<'_>) -> Result<(), AllocError>
    requires { Stands output.old }
    ensures stands { OnOk result (Stands output.new) }
    ensures cursor { output.new.cursor ≡ output.old.cursor }
    ensures opens { (n : Bool) → (outer : List Enclosing) → Opens output.old (in_table has_body n outer) → OnOk result (Opens output.new (in_flow n outer)) }
{
    if !has_body {
        return output.exit_before_held(Name::GfmTable);
    }
    output.exit_before_held(Name::GfmTableBody)?;
    output.exit_before_held(Name::GfmTable)
}
