//! Writes the events of a case again.

use character_references::references::References;
use event_writer::error::WriteError;
use event_writer::writer::Writer;
use markdown_nodes::event::{Event, Kind, Name};
use std::alloc::{AllocError, Global};

/// Returns the events that the writer writes for these events, or `None` if it refuses one.
///
/// A span that contains nothing is a token.
pub fn rewritten<R: References>(
    alloc: Global,
    bytes: &[u8],
    references: &R,
    events: &[Event],
) -> Result<Option<Vec<Event>>, AllocError> {
    let mut writer = Writer::new(alloc, bytes, references)?;
    match write_all(&mut writer, events) {
        Ok(()) => Ok(writer.finish()),
        Err(WriteError::Misfit) => Ok(None),
        Err(WriteError::Memory(error)) => Err(error),
    }
}

/// Writes a list of events.
fn write_all<R: References>(
    writer: &mut Writer<'_, R>,
    events: &[Event],
) -> Result<(), WriteError> {
    let mut in_token = false;
    for index in 0..events.len() {
        if in_token {
            in_token = false;
            continue;
        }
        let event = events[index];
        in_token = write_next(writer, event, events.get(index + 1).copied())?;
    }
    Ok(())
}

/// Writes an event, or a token together with the next event. Returns whether it wrote a token.
fn write_next<R: References>(
    writer: &mut Writer<'_, R>,
    event: Event,
    next: Option<Event>,
) -> Result<bool, WriteError> {
    match (event.kind, next) {
        (Kind::Exit, _) => {
            writer.exit()?;
            Ok(false)
        }
        (Kind::Enter, Some(end)) if end.kind == Kind::Exit => {
            write_token(writer, event.name, end)?;
            Ok(true)
        }
        (Kind::Enter, _) => {
            writer.enter(event.name)?;
            Ok(false)
        }
    }
}

/// Writes a token up to its exit.
fn write_token<R: References>(
    writer: &mut Writer<'_, R>,
    name: Name,
    end: Event,
) -> Result<(), WriteError> {
    if end.point.line == writer.cursor().line {
        writer.token(name, end.point.index, end.point.vs)
    } else {
        writer.line_ending(name)
    }
}
