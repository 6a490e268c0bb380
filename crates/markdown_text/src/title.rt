//! The title of a resource (CommonMark).

ghost use Rattle.std.specs.Prelude.{◌≡◌, ◌+◌, OnOk};
ghost use Rattle.event_writer.specs.Stages.{endings, resource_title};
ghost use Rattle.markdown_text.specs.Outputs.{AtStage, Leads, Stands, WritesTo, bytes_of};
ghost use Rattle.markdown_text.specs.Tokens.{IsEnclosed};

use crate::output::Output;
use character_references::references::References;
use event_writer::sink::Sink;
use markdown_events::event::Name;
use std::alloc::AllocError;

/// Writes a title of this length.
pub fn write<R: References, S: Sink>(
    output: &mut Output<'_, '_, R, S>,
    size: usize,
) -> Result<(), AllocError>
    requires stands { Stands output.old }
    requires none_waits { output.old.data ≡ output.old.at }
    requires enclosed { IsEnclosed (bytes_of output.old) 1 output.old.at (output.old.at + size) }
    requires at { AtStage output.old resource_title }
    ensures given { output.new.writer.value.given ≡ output.old.writer.value.given }
    ensures writes { OnOk result (WritesTo output.old output.new (output.old.at + size)) }
    ensures at { Leads result resource_title endings output.old output.new }
{
    let end = output.offset_after(size);
    output.enter(Name::ResourceTitle)?;
    output.token(Name::ResourceTitleMarker, 1)?;
    output.string(Name::ResourceTitleString, end - 1)?;
    output.token(Name::ResourceTitleMarker, 1)?;
    output.exit()
}
