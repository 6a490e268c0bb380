//! Headings with number signs (CommonMark).

ghost use Rattle.std.specs.Prelude.{MatchOption, OnOk, IfSome, drop, true, ◌≡◌};
ghost use Rattle.commonmark_syntax.specs.Blocks.{atx_opening};
ghost use Rattle.commonmark_syntax.specs.Language.{IsNotAt, Leaves};
ghost use Rattle.markdown_flow.specs.Outputs.{KeepsFlow, Writes, WritesOut, constructs_in, constructs_of, text_of};
ghost use Rattle.markdown_flow.specs.Markers.{HasSigns};

use crate::line::Line;
use crate::output::Output;
use commonmark_syntax::bytes::trimmed_size;
use commonmark_syntax::{atx_closing, atx_opening};
use markdown_events::event::Name;
use std::alloc::AllocError;

/// Returns the number of signs that the heading in a line begins with, if there is one
/// (CommonMark). Always `None` with `heading_atx` off.
///
/// It is 2 in `## a`.
pub fn begins(line: &Line<'_>) -> Option<usize>
    ensures signs { IfSome result (λ size. HasSigns line.now.text.now size) }
    ensures on { IfSome result (λ _. (constructs_in line.now).heading_atx ≡ true) }
    ensures exact { (constructs_in line.now).heading_atx ≡ true → MatchOption result (IsNotAt atx_opening line.now.text.now) (λ size. Leaves atx_opening line.now.text.now (drop size line.now.text.now)) }
{
    if !line.constructs().heading_atx {
        return None;
    }
    atx_opening::scan(line.text())
}

/// Writes the heading in a line, which begins with `size` signs.
pub fn write(size: usize, output: &mut Output<'_>) -> Result<(), AllocError>
    requires writes { Writes output.old }
    requires signs { HasSigns (text_of output.old) size }
    requires on { (constructs_of output.old).heading_atx ≡ true }
    ensures written { OnOk result (WritesOut output.old output.new) }
    ensures opens { KeepsFlow result output.old output.new }
{
    output.enter(Name::HeadingAtx)?;
    output.white_space()?;
    output.opening_sequence(size)?;
    output.white_space()?;
    let text_size = atx_closing::text_size(output.rest());
    output.string(Name::HeadingAtxText, text_size)?;
    output.white_space()?;
    let closing_size = trimmed_size(output.rest());
    output.token(Name::HeadingAtxSequence, closing_size)?;
    output.token_of_rest(Name::SpaceOrTab)?;
    output.exit(Name::HeadingAtx)
}
