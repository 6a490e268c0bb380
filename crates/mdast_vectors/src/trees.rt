//! Nodes that the tests make. They have no positions.

use markdown_nodes::mdast::{Blockquote, Node, Paragraph, Root, Text};
use std::alloc::{AllocError, Global};

/// Returns a copy of a text.
pub fn own(alloc: Global, text: &str) -> Result<String, AllocError> {
    String::from_str(alloc, text)
}

/// Returns a text of this value.
pub fn text(alloc: Global, value: &str) -> Result<Node, AllocError> {
    Ok(Node::Text(Text {
        value: own(alloc, value)?,
        position: None,
    }))
}

/// Returns a root with these children.
pub fn root(children: Vec<Node>) -> Node {
    Node::Root(Root {
        children,
        position: None,
    })
}

/// Returns a paragraph with these children.
pub fn paragraph(children: Vec<Node>) -> Node {
    Node::Paragraph(Paragraph {
        children,
        position: None,
    })
}

/// Appends a node, if it was made.
pub fn add(nodes: &mut Vec<Node>, node: Result<Node, AllocError>) -> Result<(), AllocError> {
    Ok(nodes.push(node?)?)
}

/// Returns a list of one node.
pub fn alone(alloc: Global, node: Result<Node, AllocError>) -> Result<Vec<Node>, AllocError> {
    let mut nodes = Vec::new(alloc);
    add(&mut nodes, node)?;
    Ok(nodes)
}

/// Returns a block quote with these children.
pub fn blockquote(children: Vec<Node>) -> Node {
    Node::Blockquote(Blockquote {
        children,
        position: None,
    })
}

/// Returns a node in `depth` nested block quotes.
pub fn quoted(alloc: Global, node: Node, depth: usize) -> Result<Node, AllocError> {
    let mut node = node;
    for _ in 0..depth {
        node = blockquote(alone(alloc, Ok(node))?);
    }
    Ok(node)
}
