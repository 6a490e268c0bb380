//! Events, written to a writer.

ghost use Rattle.std.specs.Prelude.{IfErr, OnOk};
ghost use Rattle.std.specs.Io.KnownBytes.{Appends};
ghost use Rattle.document_forms.specs.Errors.{IsOfWriting};
ghost use Rattle.event_lines.specs.Written.{written};

use crate::error::PrintError;
use crate::parsed::write_text;
use event_lines::written::lines_of;
use markdown_events::event::Event;
use std::alloc::Global;
use std::io::Write;

/// How many events are written at once.
const PIECE: usize = 1024;

/// Writes events, one on each line. The lines come in pieces, so that no one has to hold all of
/// them.
pub(crate) fn write_event_list<O: Write>(
    alloc: Global,
    events: &[Event],
    output: &mut O,
) -> Result<(), PrintError>
    ensures text { OnOk result (Appends (O.contents output.old) (O.contents output.new) (written events.now)) }
    ensures error { IfErr result IsOfWriting }
{
    let mut rest = events;
    'pieces: while !rest.is_empty() {
        let (piece, later) = rest.split_at(rest.len().min(PIECE));
        write_text(lines_of(alloc, piece), output)?;
        rest = later;
    }
    Ok(())
}
