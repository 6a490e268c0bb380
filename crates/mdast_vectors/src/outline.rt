//! Events of spans in one line, mostly where their exact points do not matter, and the compilation
//! of events.

use character_references::decoder::Decoder;
use markdown_nodes::event::{Event, Kind, Name, Point};
use markdown_nodes::mdast::Node;
use markdown_nodes::message::Fault;
use markdown_tree::to_mdast::compile;
use std::alloc::{AllocError, Global};

/// Returns the result of `compile` for events over a document, with the decoder of the program.
pub fn compiled(alloc: Global, document: &[u8], events: &[Event]) -> Result<Node, Fault> {
    compile(alloc, events, document, &Decoder)
}

/// Returns the events of spans in order, each with the number of spans around it.
pub fn spelled(alloc: Global, outline: &[(usize, Name)]) -> Result<Vec<Event>, AllocError> {
    spelled_to(alloc, outline, 0)
}

/// Returns the events of such spans, all from the first byte of the document to this one.
pub fn spelled_to(
    alloc: Global,
    outline: &[(usize, Name)],
    end: usize,
) -> Result<Vec<Event>, AllocError> {
    let mut events = Vec::new(alloc);
    let mut names = Vec::new(alloc);
    for (depth, name) in outline {
        leave(&mut events, &mut names, *depth, end)?;
        events.push(enter(*name))?;
        names.push(*name)?;
    }
    leave(&mut events, &mut names, 0, end)?;
    Ok(events)
}

/// Ends the innermost of the open spans, until this number is left.
fn leave(
    events: &mut Vec<Event>,
    names: &mut Vec<Name>,
    depth: usize,
    end: usize,
) -> Result<(), AllocError> {
    for _ in depth..names.len() {
        if let Some(name) = names.pop() {
            events.push(event_at(Kind::Exit, name, end))?;
        }
    }
    Ok(())
}

pub fn enter(name: Name) -> Event {
    event_at(Kind::Enter, name, 0)
}

pub fn exit(name: Name) -> Event {
    event_at(Kind::Exit, name, 0)
}

/// Returns an event in the first line.
pub fn event_at(kind: Kind, name: Name, index: usize) -> Event {
    let point = Point {
        line: 1,
        column: index.saturating_add(1),
        index,
        vs: 0,
    };
    Event { kind, name, point }
}
