//! Thematic breaks (CommonMark).

ghost use Rattle.std.specs.Prelude.{OnOk, true, ◌≡◌, ◌<◌, ◌↔◌};
ghost use Rattle.std.specs.Str.{IsAscii};
ghost use Rattle.commonmark_syntax.specs.Blocks as blocks;
ghost use Rattle.commonmark_syntax.specs.Language.{Matches};
ghost use Rattle.markdown_flow.specs.Outputs.{KeepsFlow, Writes, WritesOut, constructs_in, constructs_of, text_of};

use crate::line::Line;
use crate::output::Output;
use commonmark_syntax::bytes::run_length;
use commonmark_syntax::thematic_break;
use markdown_events::event::Name;
use std::alloc::AllocError;

/// Whether the text of a line is a thematic break (CommonMark). Always false with `thematic_break`
/// off.
pub fn begins(line: &Line<'_>) -> bool
    ensures ascii { result ≡ true → IsAscii line.now.text.now }
    ensures on { result ≡ true → (constructs_in line.now).thematic_break ≡ true }
    ensures exact { (constructs_in line.now).thematic_break ≡ true → (result ≡ true) ↔ Matches blocks.thematic_break line.now.text.now }
{
    line.constructs().thematic_break && thematic_break::is_at(line.text(), line.is_in_tail())
}

/// Writes the thematic break in a line.
#[tactic(auto, using(crate::proofs::Ascii::ascii_cut, crate::proofs::Ascii::ascii_later, crate::proofs::Ascii::ascii_black))]
pub fn write(output: &mut Output<'_>) -> Result<(), AllocError>
    requires writes { Writes output.old }
    requires ascii { IsAscii (text_of output.old) }
    requires on { (constructs_of output.old).thematic_break ≡ true }
    ensures written { OnOk result (WritesOut output.old output.new) }
    ensures opens { KeepsFlow result output.old output.new }
{
    output.enter(Name::ThematicBreak)?;
    output.white_space()?;
    'runs: while let [first, rest @ ..] = output.rest() {
        output.token(Name::ThematicBreakSequence, 1 + run_length(rest, *first))?;
        output.white_space()?;
    }
    output.exit(Name::ThematicBreak)
}
