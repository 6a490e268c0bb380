//! Fields that are read from the events of a whole span.

use crate::expect::holds;
use markdown_nodes::event::{Event, Kind, Name, Point, span_begins};
use markdown_nodes::infer::{gfm_table_align, list_item_loose, list_loose};
use markdown_nodes::mdast::AlignKind;
use std::alloc::{AllocError, Global};

/// Returns the enter and the exit of a span without content.
fn span(name: Name) -> [Event; 2] {
    let point = Point {
        line: 1,
        column: 1,
        index: 0,
        vs: 0,
    };
    [
        Event {
            kind: Kind::Enter,
            name,
            point,
        },
        Event {
            kind: Kind::Exit,
            name,
            point,
        },
    ]
}

/// Returns whether the list that begins with the events is loose, if one does.
fn list(alloc: Global, events: &[Event]) -> Result<Option<bool>, AllocError> {
    let Some(_) = span_begins(alloc, events, 0)? else {
        return Ok(None);
    };
    match events.first() {
        Some(
            Event {
                name: Name::ListUnordered,
                ..
            },
        ) => Ok(Some(list_loose(events, 0, false))),
        _ => Ok(None),
    }
}

/// Returns whether the item that begins with the events is loose, if one does.
fn item(alloc: Global, events: &[Event]) -> Result<Option<bool>, AllocError> {
    let Some(_) = span_begins(alloc, events, 0)? else {
        return Ok(None);
    };
    match events.first() {
        Some(
            Event {
                name: Name::ListItem,
                ..
            },
        ) => Ok(Some(list_item_loose(events, 0))),
        _ => Ok(None),
    }
}

/// Returns how the columns of the table that begins with the events are aligned, if one does.
fn columns(alloc: Global, events: &[Event]) -> Result<Option<Vec<AlignKind>>, AllocError> {
    let Some(_) = span_begins(alloc, events, 0)? else {
        return Ok(None);
    };
    match events.first() {
        Some(
            Event {
                name: Name::GfmTable,
                ..
            },
        ) => Ok(Some(gfm_table_align(alloc, events, 0)?)),
        _ => Ok(None),
    }
}

#[test]
fn spans_without_content_are_tight_and_have_no_columns(rt: HostRuntime) -> Result<(), AllocError> {
    let alloc = rt.alloc();
    holds(&rt, list(alloc, &span(Name::ListUnordered))? == Some(false));
    holds(&rt, item(alloc, &span(Name::ListItem))? == Some(false));
    let columns = columns(alloc, &span(Name::GfmTable))?;
    holds(&rt, columns.is_some_and(|columns| columns.is_empty()));
    Ok(())
}
