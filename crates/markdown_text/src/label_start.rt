//! The start of a label (micromark).

ghost use Rattle.std.specs.Prelude.{Bool, List, OnOk, true, ◌+◌, ◌≡◌};
ghost use Rattle.event_writer.specs.Stages.{Enclosing, inlines};
ghost use Rattle.markdown_text.specs.Constructs.{is_label_on};
ghost use Rattle.markdown_text.specs.Contents.{IsAsciiPart};
ghost use Rattle.markdown_text.specs.Opens.{BeginsLabel, in_label_start, label_stage};
ghost use Rattle.markdown_text.specs.Outputs.{AtInlines, AtStage, Leads, Stands, WritesTo, bytes_of, constructs_of};
ghost use Rattle.markdown_text.specs.Standings.{IsAt};
ghost use Rattle.markdown_text.specs.Tokens.{label_start};

use crate::output::{Next, Output};
use crate::token::Labelled;
use character_references::references::References;
use event_writer::sink::Sink;
use markdown_events::event::Name;
use std::alloc::AllocError;

/// Writes the start of a label, according to what the label belongs to.
pub fn write<R: References, S: Sink>(
    output: &mut Output<'_, '_, R, S>,
    labelled: Labelled,
) -> Result<(), AllocError>
    requires stands { Stands output.old }
    requires ascii { IsAsciiPart (bytes_of output.old) output.old.data (output.old.data + label_start labelled) }
    requires inlines { AtInlines output.old }
    requires on { is_label_on (constructs_of output.old) labelled ≡ true }
    ensures given { output.new.writer.value.given ≡ output.old.writer.value.given }
    ensures writes { OnOk result (WritesTo output.old output.new (output.old.data + label_start labelled)) }
    ensures at { BeginsLabel result labelled output.old output.new }
{
    enter_start(output, labelled)?;
    write_signs(output, labelled)?;
    output.exit()
}

/// Opens the spans around the signs that begin a label.
fn enter_start<R: References, S: Sink>(
    output: &mut Output<'_, '_, R, S>,
    labelled: Labelled,
) -> Result<(), AllocError>
    requires stands { Stands output.old }
    requires inlines { AtInlines output.old }
    requires on { is_label_on (constructs_of output.old) labelled ≡ true }
    ensures given { output.new.writer.value.given ≡ output.old.writer.value.given }
    ensures writes { OnOk result (WritesTo output.old output.new output.old.data) }
    ensures at { (h : Bool) → (outer : List Enclosing) → IsAt output.old.writer.value (inlines h) outer → OnOk result (IsAt output.new.writer.value (label_stage labelled) (in_label_start labelled h outer)) }
{
    output.flush(Next::Span)?;
    output.enter(labelled.name())?;
    output.enter(Name::Label)?;
    output.enter(labelled.start_name())
}

/// Writes the signs that begin a label. An image has a sign before the bracket, and a call of a footnote one after it.
fn write_signs<R: References, S: Sink>(
    output: &mut Output<'_, '_, R, S>,
    labelled: Labelled,
) -> Result<(), AllocError>
    requires stands { Stands output.old }
    requires none_waits { output.old.data ≡ output.old.at }
    requires ascii { IsAsciiPart (bytes_of output.old) output.old.at (output.old.at + label_start labelled) }
    requires at { AtStage output.old (label_stage labelled) }
    ensures given { output.new.writer.value.given ≡ output.old.writer.value.given }
    ensures writes { OnOk result (WritesTo output.old output.new (output.old.at + label_start labelled)) }
    ensures at { Leads result (label_stage labelled) (label_stage labelled) output.old output.new }
{
    match labelled {
        Labelled::Link => output.token(Name::LabelMarker, 1),
        Labelled::Image => {
            output.token(Name::LabelImageMarker, 1)?;
            output.token(Name::LabelMarker, 1)
        }
        Labelled::FootnoteCall => {
            output.token(Name::LabelMarker, 1)?;
            output.token(Name::GfmFootnoteCallMarker, 1)
        }
    }
}
