//! Data (micromark): text that stands for itself, with the white space and the email addresses in
//! it.

ghost use Rattle.std.specs.Prelude.{Bool, List, OnOk, ◌<◌, ◌≡◌, true};
ghost use Rattle.event_writer.specs.Stages.{Enclosing, inlines};
ghost use Rattle.markdown_text.specs.AttentionEvents.{attention_of};
ghost use Rattle.markdown_text.specs.Contents.{IsPart};
ghost use Rattle.markdown_text.specs.Outputs.{AtInlines, IsFlushed, KeepsInlines, Stands, WritesTo, bytes_of, constructs_of};
ghost use Rattle.markdown_text.specs.Standings.{IsAt};
ghost use Rattle.markdown_text.specs.declared.output.Next.TheVariants.{LineEnding};

use crate::output::{Next, Output};
use crate::{gfm_autolink_literal_email, whitespace};
use character_references::references::References;
use event_writer::sink::Sink;
use markdown_events::event::Name;
use std::alloc::AllocError;

/// Writes data of one line up to an offset. White space that begins or ends a line, or the text, is
/// written separately.
pub fn write<R: References, S: Sink>(
    output: &mut Output<'_, '_, R, S>,
    end: usize,
    next: Next,
) -> Result<(), AllocError>
    requires stands { Stands output.old }
    requires data_end { end ≡ output.old.data }
    requires inlines { AtInlines output.old }
    ensures given { output.new.writer.value.given ≡ output.old.writer.value.given }
    ensures writes { OnOk result (WritesTo output.old output.new end) }
    ensures at { (h : Bool) → (outer : List Enclosing) → IsAt output.old.writer.value (inlines h) outer → OnOk result (IsFlushed next output.new (inlines h) outer) }
    ensures attention { OnOk result (attention_of output.new ≡ attention_of output.old) }
{
    let constructs = &output.source().reading.options.constructs;
    let is_after_mark = output.is_after_mark();
    let space = whitespace::scan(
        output.rest_to(end),
        output.kind(),
        output.is_line_start(),
        next,
        constructs.hard_break_trailing,
    );
    output.fill_to(Name::SpaceOrTab, output.offset_after(space.leading))?;
    output.begin_text(is_after_mark)?;
    write_text(output, end - space.trailing)?;
    output.fill_to(Name::SpaceOrTab, end - space.hard_break)?;
    write_break(output, end, next)
}

/// Writes a hard break up to an offset, if it has any bytes. It has some only before a line ending.
fn write_break<R: References, S: Sink>(
    output: &mut Output<'_, '_, R, S>,
    end: usize,
    next: Next,
) -> Result<(), AllocError>
    requires stands { Stands output.old }
    requires none_waits { output.old.data ≡ output.old.at }
    requires part { IsPart (bytes_of output.old) output.old.at end }
    requires next { output.old.at < end → next ≡ LineEnding }
    requires inlines { AtInlines output.old }
    requires on { output.old.at < end → (constructs_of output.old).hard_break_trailing ≡ true }
    ensures given { output.new.writer.value.given ≡ output.old.writer.value.given }
    ensures writes { OnOk result (WritesTo output.old output.new end) }
    ensures at { (h : Bool) → (outer : List Enclosing) → IsAt output.old.writer.value (inlines h) outer → OnOk result (IsFlushed next output.new (inlines h) outer) }
    ensures attention { OnOk result (attention_of output.new ≡ attention_of output.old) }
{
    match next {
        Next::LineEnding => output.hard_break_to(Name::HardBreakTrailing, end),
        Next::Span | Next::End => Ok(()),
    }
}

/// Writes data up to an offset, with the email addresses in it if they are links.
fn write_text<R: References, S: Sink>(
    output: &mut Output<'_, '_, R, S>,
    end: usize,
) -> Result<(), AllocError>
    requires stands { Stands output.old }
    requires part { IsPart (bytes_of output.old) output.old.at end }
    requires inlines { AtInlines output.old }
    ensures given { output.new.writer.value.given ≡ output.old.writer.value.given }
    ensures writes { OnOk result (WritesTo output.old output.new end) }
    ensures at { KeepsInlines result output.old output.new }
    ensures attention { OnOk result (attention_of output.new ≡ attention_of output.old) }
{
    let constructs = &output.source().reading.options.constructs;
    if constructs.gfm_autolink_literal && output.may_link() {
        return gfm_autolink_literal_email::write(output, end);
    }
    output.fill_to(Name::Data, end)
}
