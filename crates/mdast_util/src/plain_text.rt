//! The text of a document, as a search needs it.

ghost use Rattle.std.specs.Prelude.{◌≡◌, IfOk, OnOk, string_bytes};
ghost use Rattle.markdown_nodes.specs.Access.{label_of};
ghost use Rattle.markdown_nodes.specs.View.{view};
ghost use Rattle.mdast_util.specs.PlainText.{begins_line, ended, text_in_lines, with_words, words};

use markdown_nodes::mdast::Node;
use markdown_nodes::walk::Walk;
use std::alloc::{AllocError, Global};

/// Returns the text of a tree without its markup, as a search needs it.
///
/// Each paragraph, heading and table cell, and each block of code or math, begins a line. Text,
/// code and math contribute their value, an image its alternative text, and a hard break a line
/// feed. HTML, frontmatter and definitions contribute nothing. If there is any text, it ends with a
/// line feed. An empty block after others makes an empty line. The only error is that memory ran
/// out. The rule is ours. [`Node::to_string`] instead returns the values of all literals, with
/// nothing between them.
///
/// The tree of `# Hi *Earth*!\n\nNext` has the text `Hi Earth!\nNext\n`.
pub fn plain_text(alloc: Global, tree: &Node) -> Result<String, AllocError>
    ensures { IfOk result (λ text. string_bytes text ≡ text_in_lines (view tree.now)) }
{
    let mut text = String::new(alloc);
    let mut walk = Walk::new(alloc, tree);
    'nodes: while let Some(node) = walk.next()? {
        add_words(&mut text, node)?;
    }
    end_line(&mut text)?;
    Ok(text)
}

/// Appends the words of a node, on a line of their own if the node begins one.
fn add_words(text: &mut String, node: &Node) -> Result<(), AllocError>
    ensures { OnOk result (string_bytes text.new ≡ with_words (string_bytes text.old) (view node.now)) }
{
    if begins_line(node) {
        end_line(text)?;
    }
    text.push_str(words(node))
}

/// Appends a line feed, unless the text is empty.
fn end_line(text: &mut String) -> Result<(), AllocError>
    ensures { OnOk result (string_bytes text.new ≡ ended (string_bytes text.old)) }
{
    if text.is_empty() {
        return Ok(());
    }
    text.push_str("\n")
}

/// Whether the text of a node begins a line.
fn begins_line(node: &Node) -> bool
    ensures { result ≡ begins_line (label_of node.now) }
{
    match node {
        Node::Paragraph(_)
        | Node::Heading(_)
        | Node::TableCell(_)
        | Node::Code(_)
        | Node::Math(_) => true,
        _ => false,
    }
}

/// Returns the text of a node itself, without the nodes in it.
fn words(node: &Node) -> &str
    ensures { result.now ≡ words (label_of node.now) }
{
    match node {
        Node::Text(node) => node.value.as_str(),
        Node::InlineCode(node) => node.value.as_str(),
        Node::InlineMath(node) => node.value.as_str(),
        Node::Code(node) => node.value.as_str(),
        Node::Math(node) => node.value.as_str(),
        Node::Image(node) => node.alt.as_str(),
        Node::ImageReference(node) => node.alt.as_str(),
        Node::Break(_) => "\n",
        _ => "",
    }
}
