//! The reference of a link or an image (CommonMark), after its label: `[b]` in `[a][b]`, and `[]` in `[a][]`.

ghost use Rattle.std.specs.Prelude.{◌≡◌, OnOk};
ghost use Rattle.event_writer.specs.Stages.{endings, media_target};
ghost use Rattle.markdown_text.specs.Outputs.{AtStage, Leads, Stands, WritesTo, bytes_of};
ghost use Rattle.markdown_text.specs.Tokens.{IsEnclosed};

use crate::output::Output;
use character_references::references::References;
use event_writer::sink::Sink;
use markdown_events::event::Name;
use std::alloc::AllocError;

/// Writes a reference that ends at an offset.
pub fn write<R: References, S: Sink>(
    output: &mut Output<'_, '_, R, S>,
    end: usize,
) -> Result<(), AllocError>
    requires stands { Stands output.old }
    requires none_waits { output.old.data ≡ output.old.at }
    requires enclosed { IsEnclosed (bytes_of output.old) 1 output.old.at end }
    requires at { AtStage output.old media_target }
    ensures given { output.new.writer.value.given ≡ output.old.writer.value.given }
    ensures writes { OnOk result (WritesTo output.old output.new end) }
    ensures at { Leads result media_target endings output.old output.new }
{
    output.enter(Name::Reference)?;
    output.token(Name::ReferenceMarker, 1)?;
    output.string(Name::ReferenceString, end - 1)?;
    output.token(Name::ReferenceMarker, 1)?;
    output.exit()
}
