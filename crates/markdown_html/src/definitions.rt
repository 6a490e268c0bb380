//! Definitions, and what a reference copies from them.

ghost use Rattle.std.specs.Prelude.{◌≡◌, option_map};
ghost use Rattle.markdown_nodes.specs.Access.{label_of};
ghost use Rattle.markdown_nodes.specs.View.{view};
ghost use Rattle.markdown_html.specs.Html.{definition_cost, reference_identifier_of, title_of, url_of};

use crate::texts::length;
use markdown_nodes::mdast::Node;

/// Returns the identifier of the definition that a link or an image refers to.
pub(crate) fn reference_identifier(node: &Node) -> Option<&str>
    ensures { option_map (λ text. text.now) result ≡ reference_identifier_of (label_of node.now) }
{
    match node {
        Node::LinkReference(node) => Some(node.identifier.as_str()),
        Node::ImageReference(node) => Some(node.identifier.as_str()),
        _ => None,
    }
}

/// Returns how many bytes a reference copies from this definition.
pub(crate) fn definition_cost(node: &Node) -> usize
    ensures { result ≡ definition_cost (view node.now).label }
{
    url(node).len() + length(title(node))
}

/// Returns the address of a definition.
pub(crate) fn url(node: &Node) -> &str
    ensures { result.now ≡ url_of (view node.now).label }
{
    match node {
        Node::Definition(node) => node.url.as_str(),
        _ => "",
    }
}

/// Returns the title of a definition.
pub(crate) fn title(node: &Node) -> Option<&str>
    ensures { option_map (λ text. text.now) result ≡ title_of (view node.now).label }
{
    match node {
        Node::Definition(node) => node.title.as_deref(),
        _ => None,
    }
}
