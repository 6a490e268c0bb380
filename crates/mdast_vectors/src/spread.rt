//! Whether lists and their items are loose.

use crate::expect::same;
use crate::outline::spelled;
use markdown_nodes::event::{Event, Name, span_begins};
use markdown_nodes::infer::{list_item_loose, list_loose};
use std::alloc::{AllocError, Global};
use std::process::Abort;

const LIST: (usize, Name) = (0, Name::ListUnordered);

const ITEM: (usize, Name) = (1, Name::ListItem);

const PREFIX: (usize, Name) = (2, Name::ListItemPrefix);

const SPACE: (usize, Name) = (2, Name::SpaceOrTab);

const TEXT: (usize, Name) = (2, Name::Paragraph);

const QUOTE: (usize, Name) = (2, Name::BlockQuote);

const MARK: (usize, Name) = (3, Name::BlockQuotePrefix);

/// A blank line between items.
const BLANK: (usize, Name) = (1, Name::BlankLineEnding);

/// A blank line in an item.
const BLANK_WITHIN: (usize, Name) = (2, Name::BlankLineEnding);

/// Outlines that begin with a list and its first item, with whether the list is loose, whether it
/// is loose if its items count, and whether that item is.
pub static LISTS: [(&[(usize, Name)], bool, bool, bool); 9] = [
    (&[LIST, ITEM, PREFIX, BLANK, ITEM], false, false, false),
    (
        &[LIST, ITEM, PREFIX, SPACE, BLANK, ITEM],
        false,
        false,
        false,
    ),
    (&[LIST, ITEM, PREFIX, BLANK, BLANK, ITEM], true, true, false),
    (
        &[LIST, ITEM, PREFIX, QUOTE, MARK, BLANK, ITEM],
        false,
        false,
        false,
    ),
    (
        &[LIST, ITEM, PREFIX, TEXT, BLANK_WITHIN, TEXT],
        false,
        true,
        true,
    ),
    (&[LIST, ITEM, PREFIX, BLANK_WITHIN], false, false, false),
    (
        &[LIST, ITEM, PREFIX, SPACE, BLANK_WITHIN],
        false,
        false,
        false,
    ),
    (&[LIST, ITEM, BLANK_WITHIN], false, true, true),
    (&[LIST, ITEM, PREFIX, TEXT, BLANK_WITHIN], false, true, true),
];

/// Returns whether the list that begins at this index is loose, if one begins there.
pub fn list_spread(
    alloc: Global,
    events: &[Event],
    index: usize,
    include_items: bool,
) -> Result<Option<bool>, AllocError> {
    let Some(_) = span_begins(alloc, events, index)? else {
        return Ok(None);
    };
    match events.get(index) {
        Some(
            Event {
                name: Name::ListOrdered | Name::ListUnordered,
                ..
            },
        ) => { Ok(Some(list_loose(events, index, include_items))) }
        _ => Ok(None),
    }
}

/// Returns whether the list item that begins at this index is loose, if one begins there.
pub fn item_spread(
    alloc: Global,
    events: &[Event],
    index: usize,
) -> Result<Option<bool>, AllocError> {
    let Some(_) = span_begins(alloc, events, index)? else {
        return Ok(None);
    };
    match events.get(index) {
        Some(
            Event {
                name: Name::ListItem,
                ..
            },
        ) => Ok(Some(list_item_loose(events, index))),
        _ => Ok(None),
    }
}

/// Returns whether the list of an outline is loose, whether it is loose if its items count, and
/// whether its first item is.
fn looseness(alloc: Global, outline: &[(usize, Name)]) -> Result<[Option<bool>; 3], AllocError> {
    let events = spelled(alloc, outline)?;
    Ok([
        list_spread(alloc, events.as_slice(), 0, false)?,
        list_spread(alloc, events.as_slice(), 0, true)?,
        item_spread(alloc, events.as_slice(), 1)?,
    ])
}

#[test]
fn blank_lines_make_lists_and_items_loose(rt: HostRuntime) -> Result<(), AllocError> {
    for (outline, list, with_items, item) in &LISTS {
        let found = looseness(rt.alloc(), outline)?;
        same(&rt, found, [Some(*list), Some(*with_items), Some(*item)]);
    }
    Ok(())
}
