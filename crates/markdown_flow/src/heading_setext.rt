//! Headings with an underline (CommonMark).

ghost use Rattle.std.specs.Prelude.{List, [], MatchOption, OnOk, IfSome, drop, false, length, true, ◌≡◌, ◌<◌};
ghost use Rattle.commonmark_syntax.specs.Blocks.{setext_underline};
ghost use Rattle.commonmark_syntax.specs.Cuts.{IsCut};
ghost use Rattle.commonmark_syntax.specs.Language.{IsNotAt, Leaves};
ghost use Rattle.event_writer.specs.Stages.{Enclosing, heading_setext_underline, nothing};
ghost use Rattle.markdown_flow.specs.Outputs.{HasLine, KeepsFlow, Opens, Stands, Writes, WritesOut, Reads, constructs_in, constructs_of, is_indented, next_of, source_of, spot, text_of};
ghost use Rattle.markdown_flow.specs.Contents.{Kept, AreKept, after_lines};
ghost use Rattle.markdown_pieces.specs.Walks.{at};

use crate::content::{Content, KeptLine};
use crate::input::Input;
use crate::line::Line;
use crate::output::Output;
use commonmark_syntax::setext_underline;
use markdown_events::event::Name;
use std::alloc::AllocError;

/// Returns the number of signs of an underline, if the line is one (CommonMark). Always `None` with
/// `heading_setext` off.
///
/// It is 3 in `===`.
pub fn underline(line: &Line<'_>) -> Option<usize>
    ensures on { IfSome result (λ _. (constructs_in line.now).heading_setext ≡ true) }
    ensures exact { (constructs_in line.now).heading_setext ≡ true → is_indented line.now ≡ false → MatchOption result (IsNotAt setext_underline line.now.text.now) (λ size. Leaves setext_underline line.now.text.now (drop size line.now.text.now)) }
    ensures least { IfSome result (λ size. 0 < size) }
    ensures text { IfSome result (λ _. 0 < length line.now.text.now) }
    ensures cut { IfSome result (λ size. IsCut line.now.text.now size) }
{
    if !line.constructs().heading_setext || line.is_indented() {
        return None;
    }
    setext_underline::scan(line.text())
}

/// Writes a heading from lines of a content, with an underline of `size` signs.
pub fn write<'d>(
    content: &Content<'d>,
    first: &KeptLine<'d>,
    later: &[KeptLine<'d>],
    size: usize,
    input: &mut Input<'d>,
    output: &mut Output<'d>,
) -> Result<(), AllocError>
    requires stands { Stands output.old }
    requires first { Kept (source_of output.old) content.now.prefixes.items (spot output.old.cursor) first.now }
    requires later { AreKept (source_of output.old) content.now.prefixes.items (next_of first.now.line) later.now }
    requires input { Reads (source_of output.old) (after_lines (next_of first.now.line) later.now) input.old }
    requires on { (constructs_of output.old).heading_setext ≡ true }
    requires filled { 0 < size }
    requires text { 0 < length input.old.line.text.now }
    requires cut { IsCut input.old.line.text.now size }
    ensures writes { OnOk result (Writes output.new) }
    ensures at { OnOk result (HasLine output.new.cursor input.old.line) }
    ensures ended { OnOk result (output.new.cursor.offset ≡ output.new.cursor.extent.end) }
    ensures line { OnOk result (input.new.line ≡ input.old.line) }
    ensures taken { OnOk result (input.new.prefix.items ≡ []) }
    ensures opens { KeepsFlow result output.old output.new }
{
    content.begin(first, output)?;
    output.enter(Name::HeadingSetext)?;
    content.write_text(Name::HeadingSetextText, later, output)?;
    output.begin(input)?;
    write_underline(size, output)?;
    output.exit(Name::HeadingSetext)
}

/// Writes an underline of `size` signs.
fn write_underline(size: usize, output: &mut Output<'_>) -> Result<(), AllocError>
    requires writes { Writes output.old }
    requires filled { 0 < size }
    requires text { 0 < length (text_of output.old) }
    requires cut { IsCut (text_of output.old) size }
    ensures written { OnOk result (WritesOut output.old output.new) }
    ensures opens { (outer : List Enclosing) → Opens output.old (at heading_setext_underline outer) → OnOk result (Opens output.new (at nothing outer)) }
{
    output.enter(Name::HeadingSetextUnderline)?;
    output.white_space()?;
    output.token(Name::HeadingSetextUnderlineSequence, size)?;
    output.token_of_rest(Name::SpaceOrTab)?;
    output.exit(Name::HeadingSetextUnderline)
}
