//! Paragraphs, and the definitions that they may begin with (CommonMark).

ghost use Rattle.std.specs.Prelude.{OnOk, ◌≡◌};
ghost use Rattle.markdown_flow.specs.Outputs.{KeepsFlow, Stands, source_of, spot};
ghost use Rattle.markdown_flow.specs.Contents.{AreKept, after_lines};

use crate::content::{Content, KeptLine};
use crate::definition_pieces;
use crate::output::Output;
use markdown_events::event::Name;
use std::alloc::{AllocError, Global};

/// Writes lines of a content: definitions, and a paragraph from the lines after them.
pub fn write<'d>(
    alloc: Global,
    content: &Content<'d>,
    lines: &[KeptLine<'d>],
    output: &mut Output<'d>,
) -> Result<(), AllocError>
    requires stands { Stands output.old }
    requires lines { AreKept (source_of output.old) content.now.prefixes.items (spot output.old.cursor) lines.now }
    ensures stands { OnOk result (Stands output.new) }
    ensures source { OnOk result (source_of output.new ≡ source_of output.old) }
    ensures spot { OnOk result (spot output.new.cursor ≡ after_lines (spot output.old.cursor) lines.now) }
    ensures opens { KeepsFlow result output.old output.new }
{
    let rest = definition_pieces::write(alloc, content, lines, output)?;
    if let [first, later @ ..] = rest {
        content.begin(first, output)?;
        content.write_text(Name::Paragraph, later, output)?;
    }
    Ok(())
}
