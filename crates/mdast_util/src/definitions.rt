//! The definition that a reference means.

ghost use Rattle.std.specs.Prelude.{◌≡◌, IfOk, option_map};
ghost use Rattle.std.specs.List.{find};
ghost use Rattle.markdown_nodes.specs.View.{view};
ghost use Rattle.mdast_util.specs.Definitions.{as_tree, definition_in, if_defines};

use markdown_nodes::mdast::{Definition, Node};
use markdown_nodes::walk::Walk;
use std::alloc::{AllocError, Global};

/// Returns the first Definition of a tree, in its order, with an identifier, or `None` if there is
/// none.
///
/// A link or an image by reference gets its URL and its title from it. If several definitions have
/// one identifier, the first counts (CommonMark). Identifiers are compared byte by byte, since
/// those of mdast are already normalized. The only error is that memory ran out.
///
/// In the tree of `[a]: b\n[a]: c` the identifier `a` has the definition with the URL `b`.
pub fn definition_of<'a>(
    alloc: Global,
    tree: &'a Node,
    identifier: &str,
) -> Result<Option<&'a Definition>, AllocError>
    ensures { IfOk result (λ found. option_map (λ node. as_tree node.now) found ≡ definition_in (view tree.now) identifier.now) }
{
    let mut walk = Walk::new(alloc, tree);
    'nodes: while let Some(node) = walk.next()? {
        if let Some(definition) = if_defines(node, identifier) {
            return Ok(Some(definition));
        }
    }
    Ok(None)
}

/// Returns the Definition of a node, if it is one with this identifier.
fn if_defines<'a>(node: &'a Node, identifier: &str) -> Option<&'a Definition>
    ensures { option_map (λ node. as_tree node.now) result ≡ if_defines identifier.now (view node.now) }
{
    let Node::Definition(definition) = node else {
        return None;
    };
    if definition.identifier.as_str() == identifier {
        Some(definition)
    } else {
        None
    }
}
