//! The characters beyond ASCII that std's Debug writes as Unicode escapes.

use crate::mdast::Node;
use crate::walk::Walk;
use markdown_kinds::escapes::{add_text, add_texts};
use std::alloc::{AllocError, Global};
use std::collections::BTreeSet;

/// Returns the characters beyond ASCII that `{:?}` writes as Unicode escapes, of the texts of a
/// node and of everything in it.
///
/// Std decides which characters these are, by how its Debug writes a string. The only error is that
/// memory ran out.
pub fn escapes_of(node: &Node, alloc: Global) -> Result<BTreeSet<char>, AllocError> {
    let mut escapes = BTreeSet::new(alloc);
    let mut walk = Walk::new(alloc, node);
    'nodes: while let Some(node) = walk.next()? {
        add_node(node, &mut escapes)?;
    }
    Ok(escapes)
}

/// Adds those in the texts of a node alone.
fn add_node(node: &Node, escapes: &mut BTreeSet<char>) -> Result<(), AllocError> {
    match node {
        Node::Toml(node) => add_text(&node.value, escapes),
        Node::Yaml(node) => add_text(&node.value, escapes),
        Node::InlineCode(node) => add_text(&node.value, escapes),
        Node::InlineMath(node) => add_text(&node.value, escapes),
        Node::Html(node) => add_text(&node.value, escapes),
        Node::Text(node) => add_text(&node.value, escapes),
        Node::Code(node) => add_texts(&node.value, &node.lang, &node.meta, escapes),
        Node::Math(node) => add_texts(&node.value, &node.meta, &None, escapes),
        Node::Link(node) => add_texts(&node.url, &node.title, &None, escapes),
        Node::Image(node) => {
            add_text(&node.alt, escapes)?;
            add_texts(&node.url, &node.title, &None, escapes)
        }
        Node::LinkReference(node) => add_texts(&node.identifier, &node.label, &None, escapes),
        Node::ImageReference(node) => {
            add_text(&node.alt, escapes)?;
            add_texts(&node.identifier, &node.label, &None, escapes)
        }
        Node::FootnoteReference(node) => add_texts(&node.identifier, &node.label, &None, escapes),
        Node::FootnoteDefinition(node) => add_texts(&node.identifier, &node.label, &None, escapes),
        Node::Definition(node) => {
            add_text(&node.url, escapes)?;
            add_texts(&node.identifier, &node.label, &node.title, escapes)
        }
        _ => Ok(()),
    }
}
