//! A form of a document and of events that another tokenizer wrote.

ghost use Rattle.std.specs.Prelude.{◌≡◌, ℕ, List, IfErr, IfOk, IsSomeAnd, OnOk, Some};
ghost use Rattle.std.specs.Io.KnownBytes.{Appends};
ghost use Rattle.event_lines.specs.Lines.{lines};
ghost use Rattle.event_lines.specs.Written.{written};
ghost use Rattle.document_forms.specs.Compiled.{IsCompiledForm, IsUnread, IsWhyNot, Means};

use crate::error::PrintError;
use crate::event_list::write_event_list;
use crate::outcome::Printed;
use crate::parsed::text_of;
use event_lines::lines::{LinesError, events};
use markdown::compile_events;
use markdown_events::event::Event;
use markdown_events::message::Fault;
use markdown_nodes::mdast::Node;
use std::alloc::Global;
use std::io::Write;
use tree_forms::{Asked, write_tree};

/// Writes what is asked for of the tree of a document and its events, which are given as event lines.
///
/// The errors are `NotUtf8` if the document is not UTF-8, `EventLine` if a line is neither empty nor
/// an event line, `Refused` if the events have no tree, `Memory` if memory ran out, and `Output` if
/// the output cannot be written. After the last two some of the text is written, or none.
///
/// For the JSON of `Hi` and the lines of a paragraph with one data span it writes the line of a root
/// with a paragraph with a text.
pub fn write_compiled<O: Write>(
    alloc: Global,
    document: &[u8],
    event_lines: &[u8],
    asked: &Asked<'_>,
    output: &mut O,
) -> Result<Printed, PrintError>
    // What is written is the form of the tree of these events.
    ensures text { IfOk result (λ printed. (text : List ℕ) × IsCompiledForm text printed.is_clean asked.now.form asked.now.name.now document.now event_lines.now × Appends (O.contents output.old) (O.contents output.new) text) }
    // An error says what is wrong with the document, its lines or its events.
    ensures error { IfErr result (IsWhyNot document.now event_lines.now) }
{
    let document = text_of(document)?;
    let tree = tree_of(alloc, document, event_lines)?;
    let is_clean = write_tree(alloc, document, &tree, asked, output)?;
    Ok(Printed {
        is_clean,
        tree: Some(tree),
    })
}

/// Writes the events of a document, which are given as event lines, one on each line.
///
/// The errors are those of [`write_compiled`], except for `Refused`.
///
/// For `Hi` and two lines of a data span, with an empty one between them, it writes the two lines.
pub fn write_event_lines<O: Write>(
    alloc: Global,
    document: &[u8],
    event_lines: &[u8],
    output: &mut O,
) -> Result<(), PrintError>
    ensures text { OnOk result (IsSomeAnd (lines event_lines.now) (λ events. Appends (O.contents output.old) (O.contents output.new) (written events))) }
    ensures error { IfErr result (IsWhyNot document.now event_lines.now) }
{
    text_of(document)?;
    let events = events_of(alloc, event_lines)?;
    write_event_list(alloc, &events, output)
}

/// Returns the tree of a text and its events.
fn tree_of(alloc: Global, document: &str, event_lines: &[u8]) -> Result<Node, PrintError>
    ensures tree { IfOk result (λ tree. Means event_lines.now document.now tree) }
    ensures error { IfErr result (IsWhyNot document.now event_lines.now) }
{
    let events = events_of(alloc, event_lines)?;
    match compile_events(alloc, document, &events) {
        Ok(tree) => Ok(tree),
        Err(Fault::Message(message)) => Err(PrintError::Refused(message)),
        Err(Fault::Memory(_)) => Err(PrintError::Memory),
    }
}

/// Returns the events that lines describe.
fn events_of(alloc: Global, event_lines: &[u8]) -> Result<Vec<Event>, PrintError>
    ensures events { IfOk result (λ events. lines event_lines.now ≡ Some events.items) }
    ensures error { IfErr result (IsUnread event_lines.now) }
{
    match events(alloc, event_lines) {
        Ok(events) => Ok(events),
        Err(LinesError::Unread(number)) => Err(PrintError::EventLine(number)),
        Err(LinesError::Memory(_)) => Err(PrintError::Memory),
    }
}
