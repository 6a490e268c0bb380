//! The number of bytes of the texts in a tree, and how many bytes its page may copy.

ghost use Rattle.std.specs.Prelude.{◌≡◌, ◌+◌, ◌-◌, ◌^◌, max, min, option_map};
ghost use Rattle.markdown_nodes.specs.Access.{label_of};
ghost use Rattle.markdown_html.specs.Texts.{label_texts, length_of};

use markdown_nodes::mdast::Node;

/// Returns how many bytes a page may copy, by how many the texts of its tree have.
pub(crate) fn budget(texts: usize) -> usize
    ensures { result ≡ max 100_000 texts }
{
    if texts < 100_000 { 100_000 } else { texts }
}

/// Returns the length of a text, or 0 if there is none.
pub(crate) fn length(text: Option<&str>) -> usize
    ensures { result ≡ length_of (option_map (λ text. text.now) text.entry) }
{
    match text {
        Some(text) => text.len(),
        None => 0,
    }
}

/// Returns the number of bytes of a node's texts.
pub(crate) fn label_texts(node: &Node) -> usize
    ensures { result ≡ min (label_texts (label_of node.now)) (2 ^ 64 - 1) }
{
    match node {
        Node::Text(node) => node.value.len(),
        Node::Html(node) => node.value.len(),
        Node::InlineCode(node) => node.value.len(),
        Node::InlineMath(node) => node.value.len(),
        Node::Yaml(node) => node.value.len(),
        Node::Toml(node) => node.value.len(),
        Node::Code(node) => sum(
            node.value.len(),
            sum(length(node.lang.as_deref()), length(node.meta.as_deref())),
        ),
        Node::Math(node) => sum(node.value.len(), length(node.meta.as_deref())),
        Node::Link(node) => sum(node.url.len(), length(node.title.as_deref())),
        Node::Image(node) => sum(
            node.alt.len(),
            sum(node.url.len(), length(node.title.as_deref())),
        ),
        Node::LinkReference(node) => sum(node.identifier.len(), length(node.label.as_deref())),
        Node::ImageReference(node) => sum(
            node.alt.len(),
            sum(node.identifier.len(), length(node.label.as_deref())),
        ),
        Node::FootnoteReference(node) => sum(node.identifier.len(), length(node.label.as_deref())),
        Node::FootnoteDefinition(node) => sum(node.identifier.len(), length(node.label.as_deref())),
        Node::Definition(node) => sum(
            sum(node.url.len(), length(node.title.as_deref())),
            sum(node.identifier.len(), length(node.label.as_deref())),
        ),
        _ => 0,
    }
}

/// Returns the sum of two numbers, at most the largest one.
fn sum(first: usize, second: usize) -> usize
    ensures { result ≡ min (first + second) (2 ^ 64 - 1) }
{
    first.saturating_add(second)
}
