//! Fields of nodes that are read from the events of a whole span: whether a list or an item is
//! spread, and how the columns of a table are aligned.
//!
//! Each function requires that the event at the index enters the right kind of span, and that a
//! well-formed span begins there. Use [`span_begins`](crate::event::span_begins) to check this.

ghost use Rattle.std.specs.Prelude.{◌≡◌, IsOk, IfOk, false, []};
ghost use Rattle.markdown_events.specs.declared.event.Name.TheVariants as names;
ghost use Rattle.markdown_events.specs.Forest.{Forest};
ghost use Rattle.markdown_events.specs.Spread.{loose_item, loose, align, align_kind_of};
ghost use Rattle.markdown_events.specs.Walks.{
  no_child,
  child_exited,
  item_walk,
  no_ends,
  counts_blank,
  list_entered,
  list_exited,
  list_walk,
  first_after,
  cells_walk,
  table_walk,
};
ghost use Rattle.markdown_events.specs.Begins.{Begins, BeginsWith, IsItemAt, IsListAt, IsTableAt};

use crate::event::{Event, Kind, Name};
use std::alloc::{AllocError, Global};
use std::fmt;

/// The alignment of a column of a table (GFM, tables; mdast, `alignType`). Debug prints its name.
#[derive(Clone, Copy, PartialEq, Eq)]
pub enum AlignKind {
    /// Left: `| :-- |`.
    Left,
    /// Right: `| --: |`.
    Right,
    /// Center: `| :-: |`.
    Center,
    /// No alignment: `| --- |`.
    None,
}

impl fmt::Debug for AlignKind {
    ghost use Rattle.std.specs.Prelude.{Some};
    ghost use Rattle.markdown_events.specs.Alignments.{alignment_name};

    ghost debug_output = { λ kind. Some (alignment_name kind) };

    fn fmt<W: fmt::Write>(&self, f: &mut fmt::Formatter<W>) -> fmt::Result {
        match self {
            AlignKind::Left => write!(f, "Left"),
            AlignKind::Right => write!(f, "Right"),
            AlignKind::Center => write!(f, "Center"),
            AlignKind::None => write!(f, "None"),
        }
    }
}

/// Whether the list whose enter is at this index, counted from 0, is loose.
///
/// It is loose if a blank line ending that is its direct child counts. Such a blank line ending
/// counts unless the sibling directly before it is an item without content at its end: an item
/// whose last child, one `SpaceOrTab` skipped, is its prefix, or a block quote that ends with its
/// own prefix. With `include_items`, a loose item, as in [`list_item_loose`], makes the list loose
/// too: these are the loose lists of CommonMark, and mdast's `spread` of a list leaves the items
/// out. Which blank lines do not count is a rule of markdown-rs. This cannot fail, and allocates no
/// memory. The event at the index must be the enter of a list, and a well-formed span must begin
/// there (see [`span_begins`](crate::event::span_begins)).
///
/// A list of an item with a paragraph, a blank line ending and another item is loose. It is not if
/// the first item has only its prefix.
pub fn list_loose(events: &[Event], index: usize, include_items: bool) -> bool
    requires span { Begins events.now index }
    requires name { IsListAt events.now index }
    ensures { (children : Forest) → BeginsWith events.now index children →
        result ≡ loose children include_items }
{
    list_walk(&events[index + 1..], include_items)
}

/// Whether the list item whose enter is at this index, counted from 0, is loose.
///
/// It is loose if a blank line ending that is its direct child counts. Such a blank line ending
/// counts unless the sibling before it, one `SpaceOrTab` skipped, is the item's prefix. This is
/// mdast's `spread` of a list item; that an item may begin with a blank line is CommonMark's rule.
/// This cannot fail, and allocates no memory. The event at the index must be the enter of a list
/// item, and a well-formed span must begin there (see [`span_begins`](crate::event::span_begins)).
///
/// An item of a prefix, a paragraph and a blank line ending is loose, and one of a prefix and a
/// blank line ending is not.
pub fn list_item_loose(events: &[Event], index: usize) -> bool
    requires span { Begins events.now index }
    requires name { IsItemAt events.now index }
    ensures { (children : Forest) → BeginsWith events.now index children →
        result ≡ loose_item children }
{
    item_walk(&events[index + 1..])
}

/// Returns the alignment of each column of the table whose enter is at this index, counted from 0.
///
/// Each delimiter cell value inside the table's first delimiter row makes one entry, in order:
/// `Center` if its first and its last child are colons, even if they are one and the same, `Left`
/// if only the first is, `Right` if only the last is, and otherwise `None` (GFM). A table without a
/// delimiter row has no entries. The only error is that memory ran out, and a table without entries
/// allocates no memory. The event at the index must be the enter of a table, and a well-formed span
/// must begin there (see [`span_begins`](crate::event::span_begins)).
///
/// A table with the delimiter row `| :-- | - |` has `[AlignKind::Left, AlignKind::None]`.
pub fn gfm_table_align(
    alloc: Global,
    events: &[Event],
    index: usize,
) -> Result<Vec<AlignKind>, AllocError>
    requires span { Begins events.now index }
    requires name { IsTableAt events.now index }
    ensures value { (children : Forest) → BeginsWith events.now index children →
        IfOk result (λ kinds. kinds.items ≡ align children) }
    ensures memory { (children : Forest) → BeginsWith events.now index children →
        align children ≡ [] → IsOk result }
{
    table_align(alloc, &events[index + 1..])
}

/// Whether the last child is of a given kind, and whether it is when one `SpaceOrTab` at the end is
/// skipped.
#[derive(Clone, Copy)]
struct Child {
    direct: bool,
    skipped: bool,
}

impl Child {
    /// Returns the state before the first child.
    fn none() -> Child
        ensures { result ≡ no_child }
    {
        Child {
            direct: false,
            skipped: false,
        }
    }
}

/// Returns what is known of the last child after one more child. That child has this name, and is
/// of the given kind if `is_it`.
fn child_exited(before: Child, is_it: bool, name: Name) -> Child
    ensures { result ≡ child_exited before is_it name }
{
    Child {
        direct: is_it,
        skipped: if name.role().is_space_or_tab() {
            before.direct
        } else {
            is_it
        },
    }
}

/// Whether a blank line counts in an item, from the events after its enter.
fn item_walk(events: &[Event]) -> bool
    ensures { result ≡ item_walk events.now 0 no_child }
{
    let mut depth = 0usize;
    let mut last = Child::none();
    for event in events {
        let role = event.name.role();
        match event.kind {
            Kind::Enter => {
                if depth == 0 && role.is_blank_line() && !last.skipped {
                    return true;
                }
                depth += 1;
            }
            Kind::Exit => {
                if depth == 0 {
                    return false;
                }
                depth -= 1;
                if depth == 0 {
                    last = child_exited(last, role.is_item_prefix(), event.name);
                }
            }
        }
    }
    false
}

/// How the children of a list end, and the children of its last child and of that one's last child.
#[derive(Clone, Copy)]
struct Ends {
    /// Whether the list ends with an item without content at its end.
    bare: bool,
    /// Whether its last child is open, and is an item in which blank lines count.
    counts: bool,
    /// Whether that child ends with its prefix.
    prefix: Child,
    /// Whether that child ends as an item without content does.
    inner: Child,
    /// Whether the last child of that child ends with the prefix of a block quote.
    quote: bool,
}

impl Ends {
    /// Returns the state before the first child.
    fn none() -> Ends
        ensures { result ≡ no_ends }
    {
        Ends {
            bare: false,
            counts: false,
            prefix: Child::none(),
            inner: Child::none(),
            quote: false,
        }
    }
}

/// Whether a blank line at this depth in the list makes it loose.
fn counts_blank(ends: Ends, depth: usize) -> bool
    ensures { result ≡ counts_blank ends depth }
{
    match depth {
        0 => !ends.bare,
        1 => ends.counts && !ends.prefix.skipped,
        _ => false,
    }
}

/// Returns the ends of the list after the enter of a span at this depth in it.
fn list_entered(ends: Ends, depth: usize, include_items: bool, name: Name) -> Ends
    ensures { result ≡ list_entered ends depth include_items name }
{
    if depth == 0 {
        Ends {
            counts: include_items && name.role().is_list_item(),
            ..ends
        }
    } else {
        ends
    }
}

/// Returns the ends of the list after the exit of a span at this depth in it.
fn list_exited(ends: Ends, depth: usize, name: Name) -> Ends
    ensures { result ≡ list_exited ends depth name }
{
    let role = name.role();
    match depth {
        0 => Ends {
            bare: role.is_list_item() && ends.inner.skipped,
            ..Ends::none()
        },
        1 => {
            let is_bare = role.is_item_prefix() || (role.is_block_quote() && ends.quote);
            Ends {
                prefix: child_exited(ends.prefix, role.is_item_prefix(), name),
                inner: child_exited(ends.inner, is_bare, name),
                quote: false,
                ..ends
            }
        }
        2 => Ends {
            quote: role.is_quote_prefix(),
            ..ends
        },
        _ => ends,
    }
}

/// Whether a list is loose, from the events after its enter.
fn list_walk(events: &[Event], include_items: bool) -> bool
    ensures { result ≡ list_walk include_items events.now 0 no_ends }
{
    let mut depth = 0usize;
    let mut ends = Ends::none();
    let mut rest = events;
    loop {
        let Some((event, after)) = rest.split_first() else {
            return false;
        };
        match event.kind {
            Kind::Enter => {
                if counts_blank(ends, depth) && event.name.role().is_blank_line() {
                    return true;
                }
                ends = list_entered(ends, depth, include_items, event.name);
                depth += 1;
            }
            Kind::Exit => {
                if depth == 0 {
                    return false;
                }
                depth -= 1;
                ends = list_exited(ends, depth, event.name);
            }
        }
        rest = after;
    }
}

/// Returns how a column is aligned, by whether its delimiter begins and ends with a colon.
fn align_kind_of(first: bool, last: bool) -> AlignKind
    ensures { result ≡ align_kind_of first last }
{
    match (first, last) {
        (true, true) => AlignKind::Center,
        (true, false) => AlignKind::Left,
        (false, true) => AlignKind::Right,
        (false, false) => AlignKind::None,
    }
}

/// Whether the last cell value begins with a marker, after one more event, with this name.
fn first_after(before: Name, first: bool, name: Name) -> bool
    ensures { result ≡ first_after before first name }
{
    if before.role().is_delimiter_cell_value() {
        name.role().is_delimiter_marker()
    } else {
        first
    }
}

/// Returns how the columns are aligned, from the events of the delimiter row after its enter.
fn row_align(alloc: Global, events: &[Event]) -> Result<Vec<AlignKind>, AllocError>
    ensures value { IfOk result (λ kinds.
        kinds.items ≡ cells_walk events.now names.GfmTableDelimiterRow false) }
    ensures memory { cells_walk events.now names.GfmTableDelimiterRow false ≡ [] → IsOk result }
{
    let mut kinds = Vec::new(alloc);
    let mut first = false;
    let mut before = Name::GfmTableDelimiterRow;
    let mut rest = events;
    loop {
        let Some((event, after)) = rest.split_first() else {
            return Ok(kinds);
        };
        let role = event.name.role();
        first = first_after(before, first, event.name);
        if event.kind == Kind::Exit {
            if role.is_delimiter_row() {
                return Ok(kinds);
            }
            if role.is_delimiter_cell_value() {
                kinds.push(align_kind_of(first, before.role().is_delimiter_marker()))?;
            }
        }
        before = event.name;
        rest = after;
    }
}

/// Returns how the columns are aligned, from the events of the table after its enter.
fn table_align(alloc: Global, events: &[Event]) -> Result<Vec<AlignKind>, AllocError>
    ensures value { IfOk result (λ kinds. kinds.items ≡ table_walk events.now 0) }
    ensures memory { table_walk events.now 0 ≡ [] → IsOk result }
{
    let mut depth = 0usize;
    let mut rest = events;
    loop {
        let Some((event, after)) = rest.split_first() else {
            return Ok(Vec::new(alloc));
        };
        match event.kind {
            Kind::Enter => {
                if event.name.role().is_delimiter_row() {
                    return row_align(alloc, after);
                }
                depth += 1;
            }
            Kind::Exit => {
                if depth == 0 {
                    return Ok(Vec::new(alloc));
                }
                depth -= 1;
            }
        }
        rest = after;
    }
}
