//! The place of a node, as needed for its HTML.

ghost use Rattle.std.specs.Prelude.{◌≡◌};
ghost use Rattle.markdown_nodes.specs.Access.{label_of, nodes_in};
ghost use Rattle.markdown_nodes.specs.View.{views};
ghost use Rattle.markdown_html.specs.Places.{after, any_spread, below, checked_of, followed, in_cell, in_footnote, in_item, in_list, in_listed, in_table, in_text, inside, is_spread, listed_kind, next_column, place, place_of, seen, task_kind, unended};

use markdown_nodes::mdast::{AlignKind, Node};

/// What a node is in.
#[derive(Clone, Copy, PartialEq, Eq)]
pub(crate) enum Kind {
    /// Text.
    Text,
    /// Text in a link.
    Linked,
    /// Blocks.
    Flow,
    /// An item of a tight list, whose paragraphs have no element of their own.
    Tight,
    /// A loose list.
    LooseItem,
    /// A tight list.
    TightItem,
    /// Something that is not written.
    Hidden,
    /// A table, as its first child.
    FirstRow,
    /// A table, as its second child.
    SecondRow,
    /// A table, after its second child.
    LaterRow,
    /// The first row of a table.
    HeaderCell,
    /// Another row.
    Cell,
    /// The section of the footnotes, as the footnote with this number, counted from 0.
    Note(usize),
    /// The footnote with this number, at its end.
    Tail(usize),
    /// A loose task, as its first child. The first paragraph has the check box, which is checked or
    /// not.
    Task(bool),
}

/// The place of a node.
#[derive(Clone, Copy)]
pub(crate) struct Place<'a> {
    /// What it is in.
    pub kind: Kind,
    /// The alignment of the columns from here on, if there are columns.
    pub columns: Option<&'a [AlignKind]>,
    /// Whether a reference that is here is written without its definition, which is more than the
    /// page may still copy.
    pub is_bare: bool,
}

impl<'a> Place<'a> {
    /// Returns a place without columns.
    pub fn new(kind: Kind) -> Place<'a>
        ensures { place_of result ≡ place kind }
    {
        Place {
            kind,
            columns: None,
            is_bare: false,
        }
    }

    /// Returns the place of the children of a node that is here.
    pub fn inside(self, node: &'a Node) -> Place<'a>
        ensures { place_of result ≡ inside (place_of self.entry) (label_of node.now) (views (nodes_in node.now)) }
    {
        match self.kind {
            Kind::Hidden => Place::new(Kind::Hidden),
            Kind::FirstRow => self.with(Kind::HeaderCell),
            Kind::SecondRow | Kind::LaterRow => self.with(Kind::Cell),
            Kind::HeaderCell | Kind::Cell => self.in_cell(),
            Kind::Text | Kind::Linked => in_text(self.kind, node),
            Kind::LooseItem => in_listed(false, node),
            Kind::TightItem => in_listed(true, node),
            _ => below(self.kind, node),
        }
    }

    /// Returns a place of another kind with the same columns.
    fn with(self, kind: Kind) -> Place<'a>
        ensures { place_of result ≡ record (place_of self.entry) { kind = kind } }
    {
        Place { kind, ..self }
    }

    /// Returns the place of the children of a cell.
    fn in_cell(self) -> Place<'a>
        ensures { place_of result ≡ in_cell (seen self.entry.columns) }
    {
        match self.columns {
            Some([]) => Place::new(Kind::Hidden),
            _ => Place::new(Kind::Text),
        }
    }

    /// Returns the place of the next sibling of a node.
    pub fn after(self) -> Place<'a>
        ensures { place_of result ≡ after (place_of self.entry) }
    {
        match self.kind {
            Kind::FirstRow => self.with(Kind::SecondRow),
            Kind::SecondRow => self.with(Kind::LaterRow),
            Kind::Task(_) => self.with(Kind::Flow),
            Kind::HeaderCell | Kind::Cell => Place {
                columns: next_column(self.columns),
                ..self
            },
            _ => self,
        }
    }

    /// Returns the place of a node before these others: only the last node of a footnote ends it.
    pub fn followed(self, rest: &[Node]) -> Place<'a>
        ensures { place_of result ≡ followed (place_of self.entry) (views rest.now) }
    {
        match rest {
            [] => self,
            _ => self.unended(),
        }
    }

    /// Returns the same place for a node that does not end its footnote.
    fn unended(self) -> Place<'a>
        ensures { place_of result ≡ unended (place_of self.entry) }
    {
        match self.kind {
            Kind::Tail(_) => Place::new(Kind::Flow),
            _ => self,
        }
    }
}

/// Returns the place of the children of a node in a text.
fn in_text<'a>(kind: Kind, node: &Node) -> Place<'a>
    ensures { place_of result ≡ in_text kind (label_of node.now) }
{
    match node {
        Node::Link(_) | Node::LinkReference(_) => Place::new(Kind::Linked),
        Node::FootnoteDefinition(_) => Place::new(Kind::Hidden),
        _ => Place::new(kind),
    }
}

/// Returns the place of the children of a node among blocks.
fn below(kind: Kind, node: &Node) -> Place<'_>
    ensures { place_of result ≡ below kind (label_of node.now) (views (nodes_in node.now)) }
{
    match node {
        Node::Root(_) | Node::Blockquote(_) => Place::new(Kind::Flow),
        Node::List(list) => in_list(list.spread || has_spread(&list.children)),
        Node::ListItem(_) => in_item(kind),
        Node::Table(table) => in_table(&table.align),
        Node::FootnoteDefinition(_) => in_footnote(kind),
        _ => in_text(Kind::Text, node),
    }
}

/// Returns the place of the children of a node that is in a list.
fn in_listed(tight: bool, node: &Node) -> Place<'_>
    ensures { place_of result ≡ in_listed tight (checked_of (label_of node.now)) (label_of node.now) (views (nodes_in node.now)) }
{
    match checked(node) {
        None => below(listed_kind(tight), node),
        Some(checked) => Place::new(task_kind(tight, checked)),
    }
}

/// Returns what a node in a list is in, if it is no task.
pub(crate) fn listed_kind(tight: bool) -> Kind
    ensures { result ≡ listed_kind tight }
{
    if tight { Kind::Tight } else { Kind::Flow }
}

/// Returns what the children of a task are in.
fn task_kind(tight: bool, checked: bool) -> Kind
    ensures { result ≡ task_kind tight checked }
{
    if tight {
        Kind::Tight
    } else {
        Kind::Task(checked)
    }
}

/// Returns whether a task is checked, if the node is one.
pub(crate) fn checked(node: &Node) -> Option<bool>
    ensures { result ≡ checked_of (label_of node.now) }
{
    match node {
        Node::ListItem(item) => item.checked,
        _ => None,
    }
}

/// Returns the place of the children of a list.
fn in_list<'a>(spread: bool) -> Place<'a>
    ensures { place_of result ≡ in_list spread }
{
    Place::new(if spread {
        Kind::LooseItem
    } else {
        Kind::TightItem
    })
}

/// Returns the place of the children of an item.
fn in_item<'a>(kind: Kind) -> Place<'a>
    ensures { place_of result ≡ in_item kind }
{
    match kind {
        Kind::Tight => Place::new(Kind::Tight),
        _ => Place::new(Kind::Flow),
    }
}

/// Returns the place of the children of a footnote.
fn in_footnote<'a>(kind: Kind) -> Place<'a>
    ensures { place_of result ≡ in_footnote kind }
{
    match kind {
        Kind::Note(number) => Place::new(Kind::Tail(number)),
        _ => Place::new(Kind::Hidden),
    }
}

/// Returns the place of the first row of a table with these alignments.
fn in_table(align: &[AlignKind]) -> Place<'_>
    ensures { place_of result ≡ in_table align.now }
{
    let columns = if align.is_empty() { None } else { Some(align) };
    Place {
        kind: Kind::FirstRow,
        columns,
        is_bare: false,
    }
}

/// Returns the columns after the first.
fn next_column(columns: Option<&[AlignKind]>) -> Option<&[AlignKind]>
    ensures { seen result ≡ next_column (seen columns.entry) }
{
    match columns {
        Some([_, rest @ ..]) => Some(rest),
        _ => columns,
    }
}

/// Whether one of the nodes is an item with paragraphs of its own.
fn has_spread(nodes: &[Node]) -> bool
    ensures { result ≡ any_spread (views nodes.now) }
{
    for node in nodes {
        if is_spread(node) {
            return true;
        }
    }
    false
}

/// Whether a node is an item with paragraphs of its own.
fn is_spread(node: &Node) -> bool
    ensures { result ≡ is_spread (label_of node.now) }
{
    match node {
        Node::ListItem(item) => item.spread,
        _ => false,
    }
}
