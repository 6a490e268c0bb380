//! The fifteen kinds with children.

use super::{carried, has_children};
use crate::trees::own;
use markdown_nodes::mdast;
use markdown_nodes::mdast::{Node, ReferenceKind};
use std::alloc::AllocError;
use std::process::Abort;

/// Checks a node with the empty list of children.
fn parent<R: Abort + AllocGlobal>(
    rt: &R,
    mut node: Node,
    prefix: &str,
    back: &str,
) -> Result<(), AllocError> {
    has_children(rt, &mut node, Some(0), prefix);
    carried(rt, rt.alloc(), &mut node, "", prefix, back)
}

#[test]
fn root(rt: HostRuntime) -> Result<(), AllocError> {
    let node = Node::Root(mdast::Root {
        children: Vec::new(rt.alloc()),
        position: None,
    });
    parent(&rt, node, "Root { children: [], ", " }")
}

#[test]
fn block_quote(rt: HostRuntime) -> Result<(), AllocError> {
    let node = Node::Blockquote(mdast::Blockquote {
        children: Vec::new(rt.alloc()),
        position: None,
    });
    parent(&rt, node, "Blockquote { children: [], ", " }")
}

#[test]
fn delete(rt: HostRuntime) -> Result<(), AllocError> {
    let node = Node::Delete(mdast::Delete {
        children: Vec::new(rt.alloc()),
        position: None,
    });
    parent(&rt, node, "Delete { children: [], ", " }")
}

#[test]
fn emphasis(rt: HostRuntime) -> Result<(), AllocError> {
    let node = Node::Emphasis(mdast::Emphasis {
        children: Vec::new(rt.alloc()),
        position: None,
    });
    parent(&rt, node, "Emphasis { children: [], ", " }")
}

#[test]
fn strong(rt: HostRuntime) -> Result<(), AllocError> {
    let node = Node::Strong(mdast::Strong {
        children: Vec::new(rt.alloc()),
        position: None,
    });
    parent(&rt, node, "Strong { children: [], ", " }")
}

#[test]
fn paragraph(rt: HostRuntime) -> Result<(), AllocError> {
    let node = Node::Paragraph(mdast::Paragraph {
        children: Vec::new(rt.alloc()),
        position: None,
    });
    parent(&rt, node, "Paragraph { children: [], ", " }")
}

#[test]
fn table_row(rt: HostRuntime) -> Result<(), AllocError> {
    let node = Node::TableRow(mdast::TableRow {
        children: Vec::new(rt.alloc()),
        position: None,
    });
    parent(&rt, node, "TableRow { children: [], ", " }")
}

#[test]
fn table_cell(rt: HostRuntime) -> Result<(), AllocError> {
    let node = Node::TableCell(mdast::TableCell {
        children: Vec::new(rt.alloc()),
        position: None,
    });
    parent(&rt, node, "TableCell { children: [], ", " }")
}

#[test]
fn heading(rt: HostRuntime) -> Result<(), AllocError> {
    let node = Node::Heading(mdast::Heading {
        children: Vec::new(rt.alloc()),
        position: None,
        depth: 1,
    });
    parent(&rt, node, "Heading { children: [], ", ", depth: 1 }")
}

#[test]
fn table(rt: HostRuntime) -> Result<(), AllocError> {
    let node = Node::Table(mdast::Table {
        children: Vec::new(rt.alloc()),
        position: None,
        align: Vec::new(rt.alloc()),
    });
    parent(&rt, node, "Table { children: [], ", ", align: [] }")
}

#[test]
fn list_item(rt: HostRuntime) -> Result<(), AllocError> {
    let node = Node::ListItem(mdast::ListItem {
        children: Vec::new(rt.alloc()),
        position: None,
        spread: false,
        checked: None,
    });
    parent(
        &rt,
        node,
        "ListItem { children: [], ",
        ", spread: false, checked: None }",
    )
}

#[test]
fn list(rt: HostRuntime) -> Result<(), AllocError> {
    let node = Node::List(mdast::List {
        children: Vec::new(rt.alloc()),
        position: None,
        ordered: false,
        start: None,
        spread: false,
    });
    parent(
        &rt,
        node,
        "List { children: [], ",
        ", ordered: false, start: None, spread: false }",
    )
}

#[test]
fn link_reference(rt: HostRuntime) -> Result<(), AllocError> {
    let node = Node::LinkReference(mdast::LinkReference {
        children: Vec::new(rt.alloc()),
        position: None,
        reference_kind: ReferenceKind::Full,
        identifier: own(rt.alloc(), "a")?,
        label: None,
    });
    parent(
        &rt,
        node,
        "LinkReference { children: [], ",
        ", reference_kind: Full, identifier: \"a\", label: None }",
    )
}

#[test]
fn link(rt: HostRuntime) -> Result<(), AllocError> {
    let node = Node::Link(mdast::Link {
        children: Vec::new(rt.alloc()),
        position: None,
        url: own(rt.alloc(), "a")?,
        title: None,
    });
    parent(
        &rt,
        node,
        "Link { children: [], ",
        ", url: \"a\", title: None }",
    )
}

#[test]
fn footnote_definition(rt: HostRuntime) -> Result<(), AllocError> {
    let node = Node::FootnoteDefinition(mdast::FootnoteDefinition {
        children: Vec::new(rt.alloc()),
        position: None,
        identifier: own(rt.alloc(), "a")?,
        label: None,
    });
    parent(
        &rt,
        node,
        "FootnoteDefinition { children: [], ",
        ", identifier: \"a\", label: None }",
    )
}
