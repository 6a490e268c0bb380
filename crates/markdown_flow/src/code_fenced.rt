//! Fenced code (CommonMark).

ghost use Rattle.std.specs.Prelude.{Bool, IfSome, List, MatchOption, OnOk, drop, true, ◌≡◌, ◌<◌};
ghost use Rattle.commonmark_syntax.specs.Blocks as blocks;
ghost use Rattle.commonmark_syntax.specs.Cuts.{IsCut};
ghost use Rattle.commonmark_syntax.specs.Language.{IsNotAt, Leaves};
ghost use Rattle.event_writer.specs.Stages.{Enclosing, code_fence, nothing};
ghost use Rattle.markdown_flow.specs.Leaves.{in_flow, in_raw, raw_name};
ghost use Rattle.markdown_flow.specs.Outputs.{Opens, Writes, WritesOut, constructs_in, constructs_of, rest_of, text_of};
ghost use Rattle.markdown_options.specs.Spans.{is_on};
ghost use Rattle.markdown_flow.specs.declared.raw_flow.RawFlow.TheVariants.{Code};
ghost use Rattle.markdown_pieces.specs.Walks.{at};

use crate::line::Line;
use crate::output::Output;
use crate::raw_flow::{Fence, RawFlow, write_closing, write_meta};
use commonmark_syntax::code_fence;
use commonmark_syntax::info_string::language_size;
use markdown_events::event::Name;
use std::alloc::AllocError;

/// Returns the code fence that a line opens, if it opens one: backticks with none after them, or
/// tildes (CommonMark). Always `None` with `code_fenced` off.
///
/// In `~~~ a` it has three tildes.
pub fn begins(line: &Line<'_>) -> Option<Fence>
    ensures cut { IfSome result (λ fence. IsCut line.now.text.now fence.size) }
    ensures on { IfSome result (λ fence. is_on (constructs_in line.now) (raw_name fence.content) ≡ true) }
    ensures exact { (constructs_in line.now).code_fenced ≡ true → MatchOption result (IsNotAt blocks.code_fence line.now.text.now) (λ fence. Leaves blocks.code_fence line.now.text.now (drop fence.size line.now.text.now)) }
{
    if !line.constructs().code_fenced {
        return None;
    }
    let size = code_fence::scan(line.text())?;
    let sign = *line.text().first()?;
    Some(Fence {
        content: RawFlow::Code,
        sign,
        size,
        indent: line.indent(),
    })
}

/// Writes the line of a fence of `size` signs, after the white space that it begins with.
pub fn open(size: usize, output: &mut Output<'_>) -> Result<(), AllocError>
    requires writes { Writes output.old }
    requires cut { IsCut (rest_of output.old) size }
    requires on { (constructs_of output.old).code_fenced ≡ true }
    ensures written { OnOk result (WritesOut output.old output.new) }
    ensures opens { (n : Bool) → (outer : List Enclosing) → Opens output.old (in_flow n outer) → OnOk result (Opens output.new (in_raw Code n outer)) }
{
    output.enter(Name::CodeFenced)?;
    output.enter(Name::CodeFencedFence)?;
    output.token(Name::CodeFencedFenceSequence, size)?;
    output.white_space()?;
    write_info(output)?;
    output.exit(Name::CodeFencedFence)
}

/// Writes the line of a closing fence of `size` signs.
pub fn close(size: usize, output: &mut Output<'_>) -> Result<(), AllocError>
    requires writes { Writes output.old }
    requires cut { IsCut (text_of output.old) size }
    ensures written { OnOk result (WritesOut output.old output.new) }
    ensures opens { (n : Bool) → (outer : List Enclosing) → Opens output.old (in_raw Code n outer) → OnOk result (Opens output.new (in_flow n outer)) }
{
    output.enter(Name::CodeFencedFence)?;
    write_closing(Name::CodeFencedFenceSequence, size, output)?;
    output.exit(Name::CodeFencedFence)?;
    output.exit(Name::CodeFenced)
}

/// Writes the language and the meta of the info string of a fence, which end the line (micromark).
pub fn write_info(output: &mut Output<'_>) -> Result<(), AllocError>
    requires { Writes output.old }
    ensures written { OnOk result (WritesOut output.old output.new) }
    ensures opens { (outer : List Enclosing) → Opens output.old (at code_fence outer) → OnOk result (Opens output.new (at nothing outer)) }
{
    let size = language_size(output.rest());
    output.string(Name::CodeFencedFenceInfo, size)?;
    output.white_space()?;
    write_meta(Name::CodeFencedFenceMeta, output)
}
