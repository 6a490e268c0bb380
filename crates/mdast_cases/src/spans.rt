//! Spans in the notation of a row, as events.
//!
//! `Paragraph 0-2 { Data 0-1, Data 1-2 }` is a Paragraph from offset 0 to 2 that contains two Data.
//! An end of a span is an offset, or a point, as `@line:column:index:vs`.
//!
//! The text is read in pieces separated by `, `: here `Paragraph 0-2 { Data 0-1` and `Data 1-2 }`.
//! A piece begins some spans, each inside the one before it, and ends the last of them, and one
//! more for each `}`.

use crate::document::Document;
use crate::line::LineError;
use markdown_nodes::event::{Event, Kind, Name, Point};
use std::alloc::Global;

/// Returns the events of the spans in a text, over a document.
pub fn events_of_spans(
    alloc: Global,
    document: &Document,
    text: &str,
) -> Result<Vec<Event>, LineError> {
    let mut walk = Walk {
        document,
        events: Vec::new(alloc),
        open: Vec::new(alloc),
    };
    for piece in text.split(", ") {
        walk.piece(piece)?;
    }
    if walk.open.is_empty() {
        Ok(walk.events)
    } else {
        Err(LineError::Unread)
    }
}

/// A walk over the pieces of a text.
#[derive(Drop)]
struct Walk<'a> {
    /// The document that the offsets refer to.
    document: &'a Document,
    /// The events so far.
    events: Vec<Event>,
    /// The exits of the open spans, the innermost last.
    open: Vec<Event>,
}

impl Walk<'_> {
    /// Continues over a piece.
    fn piece(&mut self, piece: &str) -> Result<(), LineError> {
        let mut parts = piece.split(" }");
        let begun = parts.next().ok_or(LineError::Unread)?;
        self.begin_all(begun)?;
        self.end()?;
        for part in parts {
            if !part.is_empty() {
                return Err(LineError::Unread);
            }
            self.end()?;
        }
        Ok(())
    }

    /// Begins spans, each inside the one before it.
    fn begin_all(&mut self, spans: &str) -> Result<(), LineError> {
        for span in spans.split(" { ") {
            self.begin(span)?;
        }
        Ok(())
    }

    /// Begins a span.
    fn begin(&mut self, span: &str) -> Result<(), LineError> {
        let (enter, exit) = ends(self.document, span).ok_or(LineError::Unread)?;
        self.events.push(enter)?;
        Ok(self.open.push(exit)?)
    }

    /// Ends the innermost open span.
    fn end(&mut self) -> Result<(), LineError> {
        let exit = self.open.pop().ok_or(LineError::Unread)?;
        self.events.push(exit)?;
        Ok(())
    }
}

/// Returns the enter and the exit of a span, from a text such as `Data 0-1`.
fn ends(document: &Document, span: &str) -> Option<(Event, Event)> {
    let (name, ends) = span.split_once(' ')?;
    let (begin, end) = ends.split_once('-')?;
    let name = Name::find(name)?;
    let enter = Event {
        kind: Kind::Enter,
        name,
        point: point(document, begin)?,
    };
    let exit = Event {
        kind: Kind::Exit,
        name,
        point: point(document, end)?,
    };
    Some((enter, exit))
}

/// Returns the point of an end of a span.
fn point(document: &Document, text: &str) -> Option<Point> {
    match text.strip_prefix('@') {
        Some(numbers) => point_of_numbers(numbers),
        None => document.point(number(text)?),
    }
}

/// Returns the point that `line:column:index:vs` stands for.
fn point_of_numbers(text: &str) -> Option<Point> {
    let mut parts = text.split(':');
    let mut numbers = [0; 4];
    for place in &mut numbers {
        *place = number(parts.next()?)?;
    }
    let [line, column, index, vs] = numbers;
    match parts.next() {
        None => Some(Point {
            line,
            column,
            index,
            vs,
        }),
        Some(_) => None,
    }
}

/// Returns the number that decimal digits stand for, with no sign before them.
fn number(digits: &str) -> Option<usize> {
    if digits.starts_with('+') {
        return None;
    }
    digits.parse::<usize>().ok()
}
