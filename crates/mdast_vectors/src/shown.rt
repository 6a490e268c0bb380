//! The tree agrees with the calls on events, for lists and tables.

use crate::alignment::{TABLES, table_align};
use crate::depths::first_child;
use crate::expect::{holds, same};
use crate::outline::{compiled, enter, exit, spelled};
use crate::spread::{LISTS, item_spread, list_spread};
use markdown_nodes::event::{Event, Name};
use markdown_nodes::mdast::{AlignKind, Node};
use std::alloc::{AllocError, Global};
use std::process::Abort;
use std::test::Fail;

/// Where the span begins in the result of `placed`.
const BEGIN: usize = 3;

/// Returns the events of an outline in a block quote, after a paragraph.
fn placed(alloc: Global, outline: &[(usize, Name)]) -> Result<Vec<Event>, AllocError> {
    let mut events = Vec::new(alloc);
    events.push(enter(Name::BlockQuote))?;
    events.push(enter(Name::Paragraph))?;
    events.push(exit(Name::Paragraph))?;
    events.extend_from_slice(spelled(alloc, outline)?.as_slice())?;
    events.push(exit(Name::BlockQuote))?;
    Ok(events)
}

/// Returns the node of the outline.
fn shown(tree: &Node) -> Option<&Node> {
    first_child(tree)?.children()?.get(1)
}

/// Returns whether the list of the outline is spread.
fn shown_list(tree: &Node) -> Option<bool> {
    match shown(tree)? {
        Node::List(list) => Some(list.spread),
        _ => None,
    }
}

/// Returns whether each item of the list of the outline is spread, in order.
fn shown_items(alloc: Global, tree: &Node) -> Result<Vec<bool>, AllocError> {
    let mut items = Vec::new(alloc);
    if let Some(Node::List(list)) = shown(tree) {
        for child in &list.children {
            if let Node::ListItem(item) = child {
                items.push(item.spread)?;
            }
        }
    }
    Ok(items)
}

/// Returns whether each list item that begins in the events is loose, in order.
fn said_items(alloc: Global, events: &[Event]) -> Result<Vec<bool>, AllocError> {
    let mut items = Vec::new(alloc);
    for index in 0..events.len() {
        if let Some(spread) = item_spread(alloc, events, index)? {
            items.push(spread)?;
        }
    }
    Ok(items)
}

/// Returns how the columns of the table of the outline are aligned.
fn shown_table(tree: &Node) -> Option<&[AlignKind]> {
    match shown(tree)? {
        Node::Table(table) => Some(table.align.as_slice()),
        _ => None,
    }
}

/// Expects the list of an outline, and its items, to agree with the calls on their events.
fn list_shows(rt: &impl Abort, alloc: Global, outline: &[(usize, Name)]) -> Result<(), Fail> {
    let events = placed(alloc, outline)?;
    let list = list_spread(alloc, events.as_slice(), BEGIN, false)?;
    let items = said_items(alloc, events.as_slice())?;
    holds(rt, list.is_some() && !items.is_empty());
    let tree = compiled(alloc, b"", events.as_slice())?;
    same(rt, shown_list(&tree), list);
    holds(rt, shown_items(alloc, &tree)? == items);
    Ok(())
}

#[test]
fn lists_and_items_show_what_is_said_of_events(rt: HostRuntime) -> Result<(), Fail> {
    for (outline, _, _, _) in &LISTS {
        list_shows(&rt, rt.alloc(), outline)?;
    }
    Ok(())
}

/// Expects the table of an outline to agree with the call on its events.
fn table_shows(rt: &impl Abort, alloc: Global, outline: &[(usize, Name)]) -> Result<(), Fail> {
    let events = placed(alloc, outline)?;
    let kinds = table_align(alloc, events.as_slice(), BEGIN)?;
    holds(rt, kinds.is_some());
    let tree = compiled(alloc, b"", events.as_slice())?;
    holds(rt, shown_table(&tree) == kinds.as_deref());
    Ok(())
}

#[test]
fn tables_show_what_is_said_of_events(rt: HostRuntime) -> Result<(), Fail> {
    for (outline, _) in &TABLES {
        table_shows(&rt, rt.alloc(), outline)?;
    }
    Ok(())
}
