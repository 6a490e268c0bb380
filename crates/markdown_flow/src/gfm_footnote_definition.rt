//! Footnote definitions (GFM).

ghost use Rattle.std.specs.Prelude.{Bool, List, MatchOption, OnOk, IfSome, drop, false, true, ◌≡◌, ◌≤◌, ◌+◌};
ghost use Rattle.commonmark_syntax.specs.Blocks.{footnote_label};
ghost use Rattle.commonmark_syntax.specs.Language.{IsNotAt, Leaves};
ghost use Rattle.event_writer.specs.Stages.{Enclosing, flow, footnote_definition};
ghost use Rattle.markdown_events.specs.declared.event.Name.TheVariants.{GfmFootnoteDefinition};
ghost use Rattle.markdown_flow.specs.Outputs.{IsAt, Opens, Writes, WritesOn, Reads, constructs_in, constructs_of, rest_of};
ghost use Rattle.markdown_flow.specs.Moves.{HasMoved};
ghost use Rattle.markdown_flow.specs.Markers.{HasLabel};
ghost use Rattle.markdown_flow.specs.declared.line.Source.{Source};
ghost use Rattle.markdown_pieces.specs.Tilings.{Spot};
ghost use Rattle.markdown_pieces.specs.Walks.{at, inside};

use crate::input::Input;
use crate::line::{Line, TAB_SIZE};
use crate::output::Output;
use commonmark_syntax::footnote_label;
use markdown_events::event::Name;
use std::alloc::AllocError;

/// Returns the size of the label of the footnote definition that begins at the cursor of a line, if
/// one does: the bytes between the caret and the bracket (GFM). Always `None` with
/// `gfm_footnote_definition` off.
///
/// It is 1 in `[^a]: b`.
pub fn begins(line: &Line<'_>) -> Option<usize>
    ensures label { IfSome result (λ size. HasLabel line.now.text.now size) }
    ensures on { IfSome result (λ _. (constructs_in line.now).gfm_footnote_definition ≡ true) }
    ensures exact { (constructs_in line.now).gfm_footnote_definition ≡ true → MatchOption result (IsNotAt footnote_label line.now.text.now) (λ size. Leaves footnote_label line.now.text.now (drop (size + 4) line.now.text.now)) }
{
    if !line.constructs().gfm_footnote_definition {
        return None;
    }
    let size = footnote_label::scan(line.text())?;
    Some(size - 4)
}

/// Whether a footnote definition continues in a line: one that is blank, or indented by four
/// columns (GFM). If it does, its indentation is read.
pub fn continues(input: &mut Input<'_>) -> Result<bool, AllocError>
    ensures reads { (source : Source) → (from : Spot) → Reads source from input.old → OnOk result (Reads source from input.new) }
    ensures moved { OnOk result (HasMoved input.old.line input.new.line) }
{
    if !input.line.is_blank() && input.line.indent() < TAB_SIZE {
        return Ok(false);
    }
    input.columns(TAB_SIZE)?;
    Ok(true)
}

/// Writes the start of a footnote definition with a label of `size` bytes, at the cursor of a line.
pub fn open<'d>(size: usize, line: &mut Line<'d>, output: &mut Output<'d>) -> Result<(), AllocError>
    requires writes { Writes output.old }
    requires at { IsAt output.old.cursor line.old }
    requires label { HasLabel line.old.text.now size }
    requires on { (constructs_of output.old).gfm_footnote_definition ≡ true }
    ensures writes { OnOk result (Writes output.new) }
    ensures at { OnOk result (IsAt output.new.cursor line.new) }
    ensures moved { HasMoved line.old line.new }
    ensures opens { (n : Bool) → (outer : List Enclosing) → Opens output.old (at (flow n) outer) → OnOk result (Opens output.new (at (flow false) (inside GfmFootnoteDefinition (flow n) outer))) }
{
    output.enter(Name::GfmFootnoteDefinition)?;
    output.columns(line, line.indent())?;
    output.enter(Name::GfmFootnoteDefinitionPrefix)?;
    write_label(size, output)?;
    line.skip(size.saturating_add(4));
    output.token_to(Name::DefinitionMarker, line)?;
    output.columns(line, line.indent())?;
    output.exit(Name::GfmFootnoteDefinitionPrefix)
}

/// Writes a label of `size` bytes with its brackets. It is added to what the document defines.
fn write_label(size: usize, output: &mut Output<'_>) -> Result<(), AllocError>
    requires writes { Writes output.old }
    requires label { HasLabel (rest_of output.old) size }
    ensures written { OnOk result (WritesOn output.old output.new) }
    ensures most { OnOk result (output.new.cursor.offset ≤ output.old.cursor.offset + size + 3) }
    ensures opens { (outer : List Enclosing) → Opens output.old (at footnote_definition outer) → OnOk result (Opens output.new (at (flow false) outer)) }
{
    let marker = Name::GfmFootnoteDefinitionLabelMarker;
    output.enter(Name::GfmFootnoteDefinitionLabel)?;
    output.token(marker, 1)?;
    output.token(Name::GfmFootnoteDefinitionMarker, 1)?;
    let label = output.rest();
    output.define_footnote(label.get(..size).unwrap_or(label))?;
    output.string(Name::GfmFootnoteDefinitionLabelString, size)?;
    output.token(marker, 1)?;
    output.exit(Name::GfmFootnoteDefinitionLabel)
}
