//! Queries of a tree.

use crate::expect::holds;
use markdown_nodes::mdast::{Break, Definition, Heading, Node, Text};
use markdown_nodes::unist::Position;
use mdast_util::definitions::definition_of;
use mdast_util::outline::outline;
use mdast_util::place::node_at;
use mdast_util::plain_text::plain_text;
use std::alloc::{AllocError, Global};

#[test]
fn a_byte_has_a_node(rt: HostRuntime) {
    let node = Node::Break(Break {
        position: Some(Position::new(1, 1, 0, 1, 2, 1)),
    });
    holds(&rt, node_at(&node, 0) == Some(&node));
    holds(&rt, node_at(&node, 1).is_none());
}

/// Returns a definition of `a` as `b`.
fn definition(alloc: Global) -> Result<Node, AllocError> {
    Ok(Node::Definition(Definition {
        position: None,
        url: String::from_str(alloc, "b")?,
        title: None,
        identifier: String::from_str(alloc, "a")?,
        label: None,
    }))
}

#[test]
fn an_identifier_has_a_definition(rt: HostRuntime) -> Result<(), AllocError> {
    let node = definition(rt.alloc())?;
    let found = definition_of(rt.alloc(), &node, "a")?;
    holds(&rt, found.is_some());
    Ok(())
}

#[test]
fn a_heading_has_a_line(rt: HostRuntime) -> Result<(), AllocError> {
    let node = Node::Heading(Heading {
        children: Vec::new(rt.alloc()),
        position: Some(Position::new(1, 1, 0, 1, 2, 1)),
        depth: 2,
    });
    let lines = outline(rt.alloc(), &node)?;
    holds(&rt, lines.as_str() == "   (1:1)\n");
    Ok(())
}

#[test]
fn a_text_is_plain(rt: HostRuntime) -> Result<(), AllocError> {
    let node = Node::Text(Text {
        value: String::from_str(rt.alloc(), "a")?,
        position: None,
    });
    let text = plain_text(rt.alloc(), &node)?;
    holds(&rt, text.as_str() == "a\n");
    Ok(())
}
