//! Nodes, and the calls on them.

use crate::expect::holds;
use markdown_nodes::mdast::{
    AlignKind, Blockquote, Break, Code, Definition, Delete, Emphasis, FootnoteDefinition,
    FootnoteReference, Heading, Html, Image, ImageReference, InlineCode, InlineMath, Link,
    LinkReference, List, ListItem, Math, Node, Paragraph, ReferenceKind, Root, Strong, Table,
    TableCell, TableRow, Text, ThematicBreak, Toml, Yaml,
};
use markdown_nodes::unist::Position;
use std::alloc::{AllocError, Global};

/// Returns mdast's name for the type of a node, from the structs of the 29 kinds.
fn type_of(node: &Node) -> &'static str {
    match node {
        Node::Root(Root { .. }) => "root",
        Node::Blockquote(Blockquote { .. }) => "blockquote",
        Node::FootnoteDefinition(FootnoteDefinition { .. }) => "footnoteDefinition",
        Node::List(List { .. }) => "list",
        Node::Toml(Toml { .. }) => "toml",
        Node::Yaml(Yaml { .. }) => "yaml",
        Node::Break(Break { .. }) => "break",
        Node::InlineCode(InlineCode { .. }) => "inlineCode",
        Node::InlineMath(InlineMath { .. }) => "inlineMath",
        Node::Delete(Delete { .. }) => "delete",
        Node::Emphasis(Emphasis { .. }) => "emphasis",
        Node::FootnoteReference(FootnoteReference { .. }) => "footnoteReference",
        Node::Html(Html { .. }) => "html",
        Node::Image(Image { .. }) => "image",
        Node::ImageReference(ImageReference { .. }) => "imageReference",
        Node::Link(Link { .. }) => "link",
        Node::LinkReference(LinkReference { .. }) => "linkReference",
        Node::Strong(Strong { .. }) => "strong",
        Node::Text(Text { .. }) => "text",
        Node::Code(Code { .. }) => "code",
        Node::Math(Math { .. }) => "math",
        Node::Heading(Heading { .. }) => "heading",
        Node::Table(Table { .. }) => "table",
        Node::ThematicBreak(ThematicBreak { .. }) => "thematicBreak",
        Node::TableRow(TableRow { .. }) => "tableRow",
        Node::TableCell(TableCell { .. }) => "tableCell",
        Node::ListItem(ListItem { .. }) => "listItem",
        Node::Definition(Definition { .. }) => "definition",
        Node::Paragraph(Paragraph { .. }) => "paragraph",
    }
}

/// Returns a paragraph without children.
fn paragraph(alloc: Global) -> Node {
    Node::Paragraph(Paragraph {
        children: Vec::new(alloc),
        position: None,
    })
}

#[test]
fn nodes_have_types(rt: HostRuntime) {
    holds(&rt, type_of(&paragraph(rt.alloc())) == "paragraph");
    holds(&rt, ReferenceKind::Full != ReferenceKind::Shortcut);
    holds(&rt, AlignKind::Left != AlignKind::None);
}

#[test]
fn nodes_have_children_and_a_position(rt: HostRuntime) -> Result<(), AllocError> {
    let mut node = paragraph(rt.alloc());
    holds(&rt, node.children().is_some());
    holds(&rt, node.children_mut().is_some());
    node.position_set(Some(Position::new(1, 1, 0, 1, 2, 1)));
    holds(&rt, node.position().is_some());
    holds(&rt, node.position_mut().is_some());
    holds(&rt, node.to_string(rt.alloc())?.is_empty());
    holds(&rt, node.clone(rt.alloc())? == node);
    Ok(())
}
