//! The byte order mark at the start of a document (micromark).

ghost use Rattle.std.specs.Prelude.{OnOk, IfOk, ◌≡◌};
ghost use Rattle.markdown_flow.specs.Outputs.{KeepsFlow, Stands, source_of, spot, spot_in};
ghost use Rattle.markdown_pieces.specs.Tilings.{origin};

use crate::line::Line;
use crate::output::Output;
use markdown_events::event::Name;
use std::alloc::AllocError;

/// The mark U+FEFF in UTF-8.
const BYTE_ORDER_MARK: &[u8] = b"\xef\xbb\xbf";

/// Writes the mark that a document begins with, if it does, and returns the rest of the first line.
pub fn write<'d>(first: Line<'d>, output: &mut Output<'d>) -> Result<Line<'d>, AllocError>
    requires stands { Stands output.old }
    requires source { first.source ≡ source_of output.old }
    requires start { spot output.old.cursor ≡ spot_in first }
    requires origin { spot output.old.cursor ≡ origin }
    ensures stands { OnOk result (Stands output.new) }
    ensures source { OnOk result (source_of output.new ≡ source_of output.old) }
    ensures line { IfOk result (λ line. (line.source ≡ first.entry.source) × (spot output.new.cursor ≡ spot_in line)) }
    ensures opens { KeepsFlow result output.old output.new }
{
    if !first.rest().starts_with(BYTE_ORDER_MARK) {
        return Ok(first);
    }
    output.begin_kept(&[], &first)?;
    let mut line = first;
    line.skip(BYTE_ORDER_MARK.len());
    output.token_to(Name::ByteOrderMark, &line)?;
    Ok(line)
}
