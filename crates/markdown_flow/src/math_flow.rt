//! Math between fences (micromark).

ghost use Rattle.std.specs.Prelude.{Bool, IfSome, List, MatchOption, OnOk, drop, true, ◌≡◌};
ghost use Rattle.commonmark_syntax.specs.Blocks.{math_fence};
ghost use Rattle.commonmark_syntax.specs.Cuts.{IsCut};
ghost use Rattle.commonmark_syntax.specs.Language.{IsNotAt, Leaves};
ghost use Rattle.event_writer.specs.Stages.{Enclosing};
ghost use Rattle.markdown_flow.specs.Leaves.{in_flow, in_raw, raw_name};
ghost use Rattle.markdown_flow.specs.Outputs.{Opens, Writes, WritesOut, constructs_in, constructs_of, rest_of, text_of};
ghost use Rattle.markdown_options.specs.Spans.{is_on};
ghost use Rattle.markdown_flow.specs.declared.raw_flow.RawFlow.TheVariants.{Math};

use crate::line::Line;
use crate::output::Output;
use crate::raw_flow::{Fence, RawFlow, write_closing, write_meta};
use commonmark_syntax::math_fence;
use markdown_events::event::Name;
use std::alloc::AllocError;

/// The sign of a fence.
const SIGN: u8 = b'$';

/// Returns the math fence that a line opens, if it opens one: dollars with none after them
/// (micromark). Always `None` with `math_flow` off.
///
/// In `$$ a` it has two dollars.
pub fn begins(line: &Line<'_>) -> Option<Fence>
    ensures cut { IfSome result (λ fence. IsCut line.now.text.now fence.size) }
    ensures on { IfSome result (λ fence. is_on (constructs_in line.now) (raw_name fence.content) ≡ true) }
    ensures exact { (constructs_in line.now).math_flow ≡ true → MatchOption result (IsNotAt math_fence line.now.text.now) (λ fence. Leaves math_fence line.now.text.now (drop fence.size line.now.text.now)) }
{
    if !line.constructs().math_flow {
        return None;
    }
    let size = math_fence::scan(line.text())?;
    Some(Fence {
        content: RawFlow::Math,
        sign: SIGN,
        size,
        indent: line.indent(),
    })
}

/// Writes the line of a fence of `size` signs, after the white space that it begins with.
pub fn open(size: usize, output: &mut Output<'_>) -> Result<(), AllocError>
    requires writes { Writes output.old }
    requires cut { IsCut (rest_of output.old) size }
    requires on { (constructs_of output.old).math_flow ≡ true }
    ensures written { OnOk result (WritesOut output.old output.new) }
    ensures opens { (n : Bool) → (outer : List Enclosing) → Opens output.old (in_flow n outer) → OnOk result (Opens output.new (in_raw Math n outer)) }
{
    output.enter(Name::MathFlow)?;
    output.enter(Name::MathFlowFence)?;
    output.token(Name::MathFlowFenceSequence, size)?;
    output.white_space()?;
    write_meta(Name::MathFlowFenceMeta, output)?;
    output.exit(Name::MathFlowFence)
}

/// Writes the line of a closing fence of `size` signs.
pub fn close(size: usize, output: &mut Output<'_>) -> Result<(), AllocError>
    requires writes { Writes output.old }
    requires cut { IsCut (text_of output.old) size }
    ensures written { OnOk result (WritesOut output.old output.new) }
    ensures opens { (n : Bool) → (outer : List Enclosing) → Opens output.old (in_raw Math n outer) → OnOk result (Opens output.new (in_flow n outer)) }
{
    output.enter(Name::MathFlowFence)?;
    write_closing(Name::MathFlowFenceSequence, size, output)?;
    output.exit(Name::MathFlowFence)?;
    output.exit(Name::MathFlow)
}
