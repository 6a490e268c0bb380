//! The headings of a tree, as a table of contents lists them.

ghost use Rattle.std.specs.Prelude.{◌≡◌, IfOk, map, option_map};
ghost use Rattle.markdown_nodes.specs.Access.{label_of};
ghost use Rattle.markdown_nodes.specs.View.{view};
ghost use Rattle.mdast_check.specs.Titles.{depth_of, said, titled, titles};

use markdown_nodes::mdast::Node;
use markdown_nodes::walk::Walk;
use std::alloc::{AllocError, Global};

/// A heading of a document.
#[derive(Debug, PartialEq, Eq, Drop)]
pub struct Title {
    /// Its depth: 1 for the highest in markdown, 6 for the lowest. In a tree made by hand it may be
    /// any number.
    pub depth: u8,
    /// Its plain text (see [`Node::to_string`]).
    pub text: String,
}

/// Returns the headings of a tree in order, including those in other nodes, such as a block quote.
///
/// The only error is that memory ran out. Headings and their depths are mdast's;
/// [`Node::to_string`] defines their text.
///
/// The tree of `# Hi *Earth*!` has one title, with the depth 1 and the text `Hi Earth!`.
pub fn headings(alloc: Global, tree: &Node) -> Result<Vec<Title>, AllocError>
    ensures { IfOk result (λ found. map said found.items ≡ titles (view tree.now)) }
{
    let mut found = Vec::new(alloc);
    let mut walk = Walk::new(alloc, tree);
    'nodes: while let Some(node) = walk.next()? {
        if let Some(title) = title_of(alloc, node)? {
            found.push(title)?;
        }
    }
    Ok(found)
}

/// Returns the title of a node, if it is a heading.
fn title_of(alloc: Global, node: &Node) -> Result<Option<Title>, AllocError>
    ensures { IfOk result (λ title. option_map said title ≡ titled (view node.now)) }
{
    let Some(depth) = depth(node) else {
        return Ok(None);
    };
    let text = node.to_string(alloc)?;
    Ok(Some(Title { depth, text }))
}

/// Returns the depth of a heading, and `None` for any other node.
///
/// The node of `## a` has the depth 2.
pub fn depth(node: &Node) -> Option<u8>
    ensures { result ≡ depth_of (label_of node.now) }
{
    match node {
        Node::Heading(heading) => Some(heading.depth),
        _ => None,
    }
}
