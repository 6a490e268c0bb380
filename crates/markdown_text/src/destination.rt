//! The destination of a resource (CommonMark).

ghost use Rattle.std.specs.Prelude.{◌≡◌, ◌<◌, ◌+◌, OnOk};
ghost use Rattle.event_writer.specs.Stages.{resource, resource_title};
ghost use Rattle.markdown_text.specs.Outputs.{AtStage, Leads, Stands, WritesTo, bytes_of};
ghost use Rattle.markdown_text.specs.Tokens.{IsDestination, IsEnclosed};

use crate::output::Output;
use character_references::references::References;
use event_writer::sink::Sink;
use markdown_events::event::Name;
use std::alloc::AllocError;

/// Writes a destination of this length.
pub fn write<R: References, S: Sink>(
    output: &mut Output<'_, '_, R, S>,
    size: usize,
) -> Result<(), AllocError>
    requires stands { Stands output.old }
    requires none_waits { output.old.data ≡ output.old.at }
    requires filled { 0 < size }
    requires destination { IsDestination (bytes_of output.old) output.old.at (output.old.at + size) }
    requires at { AtStage output.old resource }
    ensures given { output.new.writer.value.given ≡ output.old.writer.value.given }
    ensures writes { OnOk result (WritesTo output.old output.new (output.old.at + size)) }
    ensures at { Leads result resource resource_title output.old output.new }
{
    let end = output.offset_after(size);
    output.enter(Name::ResourceDestination)?;
    write_inside(output, end)?;
    output.exit()
}

/// Writes the content of the span of a destination, up to an offset.
fn write_inside<R: References, S: Sink>(
    output: &mut Output<'_, '_, R, S>,
    end: usize,
) -> Result<(), AllocError>
    requires stands { Stands output.old }
    requires none_waits { output.old.data ≡ output.old.at }
    requires filled { output.old.at < end }
    requires destination { IsDestination (bytes_of output.old) output.old.at end }
    requires at { AtStage output.old resource }
    ensures given { output.new.writer.value.given ≡ output.old.writer.value.given }
    ensures writes { OnOk result (WritesTo output.old output.new end) }
    ensures at { Leads result resource resource_title output.old output.new }
{
    if output.rest()[0] == b'<' {
        return write_enclosed(output, end);
    }
    output.enter(Name::ResourceDestinationRaw)?;
    output.string(Name::ResourceDestinationString, end)?;
    output.exit()
}

/// Writes a destination in angle brackets that ends at an offset.
fn write_enclosed<R: References, S: Sink>(
    output: &mut Output<'_, '_, R, S>,
    end: usize,
) -> Result<(), AllocError>
    requires stands { Stands output.old }
    requires none_waits { output.old.data ≡ output.old.at }
    requires enclosed { IsEnclosed (bytes_of output.old) 1 output.old.at end }
    requires at { AtStage output.old resource }
    ensures given { output.new.writer.value.given ≡ output.old.writer.value.given }
    ensures writes { OnOk result (WritesTo output.old output.new end) }
    ensures at { Leads result resource resource_title output.old output.new }
{
    output.enter(Name::ResourceDestinationLiteral)?;
    output.token(Name::ResourceDestinationLiteralMarker, 1)?;
    output.string(Name::ResourceDestinationString, end - 1)?;
    output.token(Name::ResourceDestinationLiteralMarker, 1)?;
    output.exit()
}
