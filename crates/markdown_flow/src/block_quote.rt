//! Block quotes (CommonMark).

ghost use Rattle.std.specs.Prelude.{Bool, List, [], OnOk, drop, false, length, slice_index, true, ◌≡◌, ◌<◌};
ghost use Rattle.commonmark_syntax.specs.Blocks.{block_quote_marker};
ghost use Rattle.commonmark_syntax.specs.Language.{IsNotAt, Leaves};
ghost use Rattle.event_writer.specs.Stages.{Enclosing, flow};
ghost use Rattle.markdown_events.specs.declared.event.Name.TheVariants.{BlockQuote};
ghost use Rattle.markdown_flow.specs.Outputs.{IsAt, Opens, Writes, Reads, constructs_in, constructs_of, is_indented};
ghost use Rattle.markdown_flow.specs.Moves.{HasMoved};
ghost use Rattle.markdown_flow.specs.declared.line.Source.{Source};
ghost use Rattle.markdown_pieces.specs.Tilings.{Spot};
ghost use Rattle.markdown_pieces.specs.Walks.{at, inside};

use crate::input::Input;
use crate::line::Line;
use crate::output::Output;
use commonmark_syntax::block_quote_marker;
use markdown_events::event::Name;
use std::alloc::AllocError;

/// Whether a block quote begins at the cursor of a line (CommonMark). Always false with
/// `block_quote` off.
pub fn begins(line: &Line<'_>) -> bool
    ensures on { result ≡ true → (constructs_in line.now).block_quote ≡ true }
    ensures yes { result ≡ true → Leaves block_quote_marker line.now.text.now (drop 1 line.now.text.now) }
    ensures no { result ≡ false → (constructs_in line.now).block_quote ≡ true → is_indented line.now ≡ false → IsNotAt block_quote_marker line.now.text.now }
{
    line.constructs().block_quote && has_marker(line)
}

/// Whether a line has the marker of a block quote at its cursor.
fn has_marker(line: &Line<'_>) -> bool
    ensures some { result ≡ true → 0 < length line.now.text.now }
    ensures ascii { result ≡ true → slice_index line.now.text.now 0 < 128 }
    ensures yes { result ≡ true → Leaves block_quote_marker line.now.text.now (drop 1 line.now.text.now) }
    ensures no { result ≡ false → is_indented line.now ≡ false → IsNotAt block_quote_marker line.now.text.now }
{
    !line.is_indented() && block_quote_marker::is_at(line.text())
}

/// Whether a block quote continues in a line (CommonMark). If it does, its prefix is read.
pub fn continues(input: &mut Input<'_>) -> Result<bool, AllocError>
    ensures reads { (source : Source) → (from : Spot) → Reads source from input.old → OnOk result (Reads source from input.new) }
    ensures moved { OnOk result (HasMoved input.old.line input.new.line) }
{
    if !has_marker(&input.line) {
        return Ok(false);
    }
    let indent = input.line.indent();
    input.columns(indent)?;
    input.block_quote_prefix()?;
    Ok(true)
}

/// Writes the start of a block quote at the cursor of the current line.
pub fn open<'d>(input: &mut Input<'d>, output: &mut Output<'d>) -> Result<(), AllocError>
    requires writes { Writes output.old }
    requires at { IsAt output.old.cursor input.old.line }
    requires taken { input.old.prefix.items ≡ [] }
    requires on { (constructs_of output.old).block_quote ≡ true }
    ensures writes { OnOk result (Writes output.new) }
    ensures at { OnOk result (IsAt output.new.cursor input.new.line) }
    ensures taken { OnOk result (input.new.prefix.items ≡ []) }
    ensures moved { OnOk result (HasMoved input.old.line input.new.line) }
    ensures opens { (n : Bool) → (outer : List Enclosing) → Opens output.old (at (flow n) outer) → OnOk result (Opens output.new (at (flow false) (inside BlockQuote (flow n) outer))) }
{
    output.enter(Name::BlockQuote)?;
    continues(input)?;
    output.begin(input)
}
