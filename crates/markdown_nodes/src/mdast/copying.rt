//! Copies of nodes.

ghost use Rattle.std.specs.Prelude.{◌≡◌, IfOk};
ghost use Rattle.markdown_nodes.specs.Access.{nodes_in};
ghost use Rattle.markdown_nodes.specs.declared.mdast.Node.TheVariants as nodes;
ghost use Rattle.markdown_nodes.specs.View.{view, views};

use crate::mdast::{
    Blockquote, Delete, Emphasis, FootnoteDefinition, Heading, Link, LinkReference, List, ListItem,
    Node, Paragraph, Root, Strong, Table, TableCell, TableRow,
};
use markdown_kinds::copying::{copy_align, copy_optional};
use std::alloc::{AllocError, Global};

/// A parent, the copies of the first nodes in it, and the nodes after the one that is being copied.
#[derive(Drop)]
struct Frame<'a> {
    parent: &'a Node,
    rest: &'a [Node],
    copies: Vec<Node>,
}

/// Returns a copy of a node with these nodes as its children. A node that is not a parent drops
/// them.
#[tactic(auto, using(crate::proofs::Views::tree_rules))]
fn remake(node: &Node, children: Vec<Node>) -> Result<Node, AllocError>
    ensures { views children.items ≡ views (nodes_in node.now) → IfOk result (λ copy. view copy ≡ view node.now) }
{
    match node {
        Node::Root(node) => Ok(Node::Root(Root {
            children,
            position: node.position,
        })),
        Node::Blockquote(node) => Ok(Node::Blockquote(Blockquote {
            children,
            position: node.position,
        })),
        Node::FootnoteDefinition(node) => copy_footnote_definition(node, children),
        Node::List(node) => Ok(Node::List(List {
            children,
            position: node.position,
            ordered: node.ordered,
            start: node.start,
            spread: node.spread,
        })),
        Node::Toml(node) => Ok(Node::Toml(node.clone()?)),
        Node::Yaml(node) => Ok(Node::Yaml(node.clone()?)),
        Node::Break(node) => Ok(Node::Break(node.clone()?)),
        Node::InlineCode(node) => Ok(Node::InlineCode(node.clone()?)),
        Node::InlineMath(node) => Ok(Node::InlineMath(node.clone()?)),
        Node::Delete(node) => Ok(Node::Delete(Delete {
            children,
            position: node.position,
        })),
        Node::Emphasis(node) => Ok(Node::Emphasis(Emphasis {
            children,
            position: node.position,
        })),
        Node::FootnoteReference(node) => Ok(Node::FootnoteReference(node.clone()?)),
        Node::Html(node) => Ok(Node::Html(node.clone()?)),
        Node::Image(node) => Ok(Node::Image(node.clone()?)),
        Node::ImageReference(node) => Ok(Node::ImageReference(node.clone()?)),
        Node::Link(node) => copy_link(node, children),
        Node::LinkReference(node) => copy_link_reference(node, children),
        Node::Strong(node) => Ok(Node::Strong(Strong {
            children,
            position: node.position,
        })),
        Node::Text(node) => Ok(Node::Text(node.clone()?)),
        Node::Code(node) => Ok(Node::Code(node.clone()?)),
        Node::Math(node) => Ok(Node::Math(node.clone()?)),
        Node::Heading(node) => Ok(Node::Heading(Heading {
            children,
            position: node.position,
            depth: node.depth,
        })),
        Node::Table(node) => copy_table(node, children),
        Node::ThematicBreak(node) => Ok(Node::ThematicBreak(node.clone()?)),
        Node::TableRow(node) => Ok(Node::TableRow(TableRow {
            children,
            position: node.position,
        })),
        Node::TableCell(node) => Ok(Node::TableCell(TableCell {
            children,
            position: node.position,
        })),
        Node::ListItem(node) => Ok(Node::ListItem(ListItem {
            children,
            position: node.position,
            spread: node.spread,
            checked: node.checked,
        })),
        Node::Definition(node) => Ok(Node::Definition(node.clone()?)),
        Node::Paragraph(node) => Ok(Node::Paragraph(Paragraph {
            children,
            position: node.position,
        })),
    }
}

/// Returns a copy of a FootnoteDefinition with these children.
fn copy_footnote_definition(
    node: &FootnoteDefinition,
    children: Vec<Node>,
) -> Result<Node, AllocError>
    ensures { views children.items ≡ views (nodes_in (nodes.FootnoteDefinition node.now))
        → IfOk result (λ copy. view copy ≡ view (nodes.FootnoteDefinition node.now)) }
{
    Ok(Node::FootnoteDefinition(FootnoteDefinition {
        children,
        position: node.position,
        identifier: node.identifier.clone()?,
        label: copy_optional(&node.label)?,
    }))
}

/// Returns a copy of a Link with these children.
fn copy_link(node: &Link, children: Vec<Node>) -> Result<Node, AllocError>
    ensures { views children.items ≡ views (nodes_in (nodes.Link node.now))
        → IfOk result (λ copy. view copy ≡ view (nodes.Link node.now)) }
{
    Ok(Node::Link(Link {
        children,
        position: node.position,
        url: node.url.clone()?,
        title: copy_optional(&node.title)?,
    }))
}

/// Returns a copy of a LinkReference with these children.
fn copy_link_reference(node: &LinkReference, children: Vec<Node>) -> Result<Node, AllocError>
    ensures { views children.items ≡ views (nodes_in (nodes.LinkReference node.now))
        → IfOk result (λ copy. view copy ≡ view (nodes.LinkReference node.now)) }
{
    Ok(Node::LinkReference(LinkReference {
        children,
        position: node.position,
        reference_kind: node.reference_kind,
        identifier: node.identifier.clone()?,
        label: copy_optional(&node.label)?,
    }))
}

/// Returns a copy of a Table with these children.
fn copy_table(node: &Table, children: Vec<Node>) -> Result<Node, AllocError>
    ensures { views children.items ≡ views (nodes_in (nodes.Table node.now))
        → IfOk result (λ copy. view copy ≡ view (nodes.Table node.now)) }
{
    Ok(Node::Table(Table {
        children,
        position: node.position,
        align: copy_align(&node.align)?,
    }))
}

/// Returns a copy of a node and of everything in it.
pub fn copy(node: &Node, alloc: Global) -> Result<Node, AllocError>
    ensures { IfOk result (λ copy. view copy ≡ view node.now) }
{
    let mut frames: Vec<Frame> = Vec::new(alloc);
    let mut parent = node;
    let mut level = node.child_nodes();
    let mut copies = Vec::new(alloc);
    'walk: loop {
        if let Some((first, rest)) = level.split_first() {
            frames.push(Frame {
                parent,
                rest,
                copies,
            })?;
            parent = first;
            level = first.child_nodes();
            copies = Vec::new(alloc);
        } else {
            let copy = remake(parent, copies)?;
            let Some(frame) = frames.pop() else {
                return Ok(copy);
            };
            parent = frame.parent;
            level = frame.rest;
            copies = frame.copies;
            copies.push(copy)?;
        }
    }
}
