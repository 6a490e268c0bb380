//! Indented code (CommonMark).

ghost use Rattle.std.specs.Prelude.{Bool, List, OnOk, false, true, ◌≡◌};
ghost use Rattle.event_writer.specs.Stages.{Enclosing, flow, inlines};
ghost use Rattle.markdown_events.specs.declared.event.Name.TheVariants.{CodeIndented};
ghost use Rattle.markdown_flow.specs.Lines.{begins_indented_code};
ghost use Rattle.markdown_flow.specs.Outputs.{IsAt, Keeps, Opens, Stands, Writes, WritesOut, constructs_in, constructs_of, next_of, source_of, spot};
ghost use Rattle.markdown_flow.specs.Contents.{AreKept, Kept, after_lines};
ghost use Rattle.markdown_flow.specs.Moves.{HasMoved};
ghost use Rattle.markdown_pieces.specs.Walks.{at, inside};

use crate::content::{Content, KeptLine};
use crate::line::{Line, TAB_SIZE};
use crate::output::Output;
use markdown_events::event::Name;
use std::alloc::AllocError;

/// Whether a line begins indented code: it has four columns of white space or more, and something
/// after them (CommonMark). Always false with `code_indented` off.
pub fn begins(line: &Line<'_>) -> bool
    ensures exact { (constructs_in line.now).code_indented ≡ true → result ≡ begins_indented_code line.now.columns line.now.rest.now }
    ensures on { result ≡ true → (constructs_in line.now).code_indented ≡ true }
{
    line.is_indented() && !line.text().is_empty()
}

/// Writes the first line of indented code.
pub fn open<'d>(line: &mut Line<'d>, output: &mut Output<'d>) -> Result<(), AllocError>
    requires writes { Writes output.old }
    requires at { IsAt output.old.cursor line.old }
    requires on { (constructs_of output.old).code_indented ≡ true }
    ensures written { OnOk result (WritesOut output.old output.new) }
    ensures moved { HasMoved line.old line.new }
    ensures opens { (n : Bool) → (outer : List Enclosing) → Opens output.old (at (flow n) outer) → OnOk result (Opens output.new (at (inlines false) (inside CodeIndented (flow n) outer))) }
{
    output.enter(Name::CodeIndented)?;
    write_line(line, output)
}

/// Writes a line of indented code.
pub fn write_line<'d>(line: &mut Line<'d>, output: &mut Output<'d>) -> Result<(), AllocError>
    requires writes { Writes output.old }
    requires at { IsAt output.old.cursor line.old }
    ensures written { OnOk result (WritesOut output.old output.new) }
    ensures moved { HasMoved line.old line.new }
    ensures opens { Keeps result (inlines false) output.old output.new }
{
    output.columns(line, TAB_SIZE)?;
    output.token_of_rest(Name::CodeFlowChunk)
}

/// Writes blank lines that turned out to be in the code.
pub fn write_blank_lines<'d>(
    content: &Content<'d>,
    output: &mut Output<'d>,
) -> Result<(), AllocError>
    requires stands { Stands output.old }
    requires lines { AreKept (source_of output.old) content.now.prefixes.items (spot output.old.cursor) content.now.lines.items }
    ensures stands { OnOk result (Stands output.new) }
    ensures source { OnOk result (source_of output.new ≡ source_of output.old) }
    ensures spot { OnOk result (spot output.new.cursor ≡ after_lines (spot output.old.cursor) content.now.lines.items) }
    ensures opens { Keeps result (inlines false) output.old output.new }
{
    for kept in content.lines() {
        write_blank_line(content, kept, output)?;
    }
    Ok(())
}

/// Writes a blank line that turned out to be in the code.
fn write_blank_line<'d>(
    content: &Content<'d>,
    kept: &KeptLine<'d>,
    output: &mut Output<'d>,
) -> Result<(), AllocError>
    requires stands { Stands output.old }
    requires kept { Kept (source_of output.old) content.now.prefixes.items (spot output.old.cursor) kept.now }
    ensures stands { OnOk result (Stands output.new) }
    ensures source { OnOk result (source_of output.new ≡ source_of output.old) }
    ensures spot { OnOk result (spot output.new.cursor ≡ next_of kept.now.line) }
    ensures opens { Keeps result (inlines false) output.old output.new }
{
    content.begin(kept, output)?;
    let mut line = kept.line;
    write_line(&mut line, output)?;
    output.end_line()
}
