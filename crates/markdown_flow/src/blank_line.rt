//! Blank lines (CommonMark).

ghost use Rattle.std.specs.Prelude.{OnOk, ◌≡◌};
ghost use Rattle.event_writer.specs.Stages.{Stage};
ghost use Rattle.markdown_flow.specs.Outputs.{Keeps, Stands, source_of, spot};
ghost use Rattle.markdown_flow.specs.Contents.{AreKept, after_lines};

use crate::content::Content;
use crate::line::Line;
use crate::output::{Output, piece_to};
use markdown_events::event::Name;
use markdown_pieces::piece::PieceKind;
use std::alloc::AllocError;

/// Holds blank lines that were kept.
pub fn hold_kept<'d>(content: &Content<'d>, output: &mut Output<'d>) -> Result<(), AllocError>
    requires stands { Stands output.old }
    requires lines { AreKept (source_of output.old) content.now.prefixes.items (spot output.old.cursor) content.now.lines.items }
    ensures stands { OnOk result (Stands output.new) }
    ensures source { OnOk result (source_of output.new ≡ source_of output.old) }
    ensures spot { OnOk result (spot output.new.cursor ≡ after_lines (spot output.old.cursor) content.now.lines.items) }
    ensures opens { (a : Stage) → Keeps result a output.old output.new }
{
    for kept in content.lines() {
        output.hold_kept_blank(content.prefix_of(kept), &kept.line, kept.depth)?;
    }
    Ok(())
}
