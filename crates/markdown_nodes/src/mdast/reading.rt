//! The plain text of nodes.

ghost use Rattle.std.specs.Prelude.{◌≡◌, ◌++◌, OnOk, string_bytes};
ghost use Rattle.markdown_nodes.specs.Access.{label_of};
ghost use Rattle.markdown_nodes.specs.Tree.{only, plain_text, value_of};
ghost use Rattle.markdown_nodes.specs.View.{view};

use crate::mdast::Node;
use crate::walk::Walk;
use std::alloc::{AllocError, Global};

/// Returns the value of a literal, or an empty text for any other kind.
fn value(node: &Node) -> &str
    ensures { result.now ≡ value_of (label_of node.now) }
{
    match node {
        Node::Toml(node) => node.value.as_str(),
        Node::Yaml(node) => node.value.as_str(),
        Node::InlineCode(node) => node.value.as_str(),
        Node::InlineMath(node) => node.value.as_str(),
        Node::Html(node) => node.value.as_str(),
        Node::Text(node) => node.value.as_str(),
        Node::Code(node) => node.value.as_str(),
        Node::Math(node) => node.value.as_str(),
        _ => "",
    }
}

/// Appends the plain text of a node to a text. After an error an unknown part of it has been
/// appended.
pub fn add_text(node: &Node, text: &mut String, alloc: Global) -> Result<(), AllocError>
    ensures { OnOk result (string_bytes text.new ≡ string_bytes text.old ++ plain_text (only (view node.now))) }
{
    let mut walk = Walk::new(alloc, node);
    'nodes: while let Some(node) = walk.next()? {
        text.push_str(value(node))?;
    }
    Ok(())
}
