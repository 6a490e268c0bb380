//! The node at a place in the document.

ghost use Rattle.std.specs.Prelude.{◌≡◌, ◌↔◌, ℕ, Bool, false, true, Contains, IfSome, IsNone, option_map};
ghost use Rattle.std.specs.List.{find};
ghost use Rattle.markdown_nodes.specs.Tree.{only};
ghost use Rattle.markdown_nodes.specs.View.{view, views};
ghost use Rattle.markdown_grammar.specs.Ordered.{InOrder, IsOrdered, Standing};
ghost use Rattle.mdast_util.specs.Places.{IsAt, deepest, ends_by, holds};

use markdown_nodes::mdast::Node;

/// Returns the deepest node that holds the byte at an offset, or `None` if the tree does not hold
/// it.
///
/// An editor can use it to find the node at the cursor. The offset counts bytes from 0. A node
/// holds the bytes from its start to its end, but not the one at its end; a node without a position
/// holds none. A node counts only if its parents also hold the byte; of two in one parent the first
/// counts. The rule is ours.
///
/// The tree must be ordered (see `ordered` of the crate `markdown_grammar`), as the tree of each
/// document is. In another tree the result is a node that holds the byte, but it may not be the
/// deepest one. The child in each node is found by binary search. No memory is allocated.
///
/// In the tree of `Hi *Earth*` the offset 4 finds the text `Earth`, 3 the emphasis, and 10 nothing.
pub fn node_at(tree: &Node, offset: usize) -> Option<&Node>
    ensures deepest { IsOrdered (only (view tree.now)) → option_map (λ node. view node.now) result ≡ deepest offset (only (view tree.now)) }
    ensures held { IfSome result (λ node. IsAt offset (view tree.now) (view node.now)) }
    ensures none { IsNone result ↔ (holds offset (view tree.now).position ≡ false) }
{
    if !holds(tree, offset) {
        return None;
    }
    let mut node = tree;
    'levels: while let Some(child) = child_at(node.child_nodes(), offset) {
        node = child;
    }
    Some(node)
}

/// Returns the first of the nodes that ends after an offset, if it holds the byte there. If the
/// nodes are in order, no other one can hold it.
fn child_at(nodes: &[Node], offset: usize) -> Option<&Node>
    ensures first { (standing : Standing) (free : Bool) (low high : ℕ) → InOrder standing free low high (views nodes.now) → option_map (λ node. node.now) result ≡ find (λ node. holds offset (view node).position) nodes.now }
    ensures held { IfSome result (λ node. Contains nodes.now node.now × (holds offset (view node.now).position ≡ true)) }
{
    let index = nodes.partition_point(|node| ends_by(node, offset));
    let first = nodes.get(index)?;
    if holds(first, offset) {
        Some(first)
    } else {
        None
    }
}

/// Whether a node ends at an offset or before it. True for one without a position.
fn ends_by(node: &Node, offset: usize) -> bool
    ensures { result ≡ ends_by offset (view node.now).position }
{
    match node.position() {
        Some(here) => here.end.offset <= offset,
        None => true,
    }
}

/// Whether a node holds the byte at an offset.
fn holds(node: &Node, offset: usize) -> bool
    ensures { result ≡ holds offset (view node.now).position }
{
    match node.position() {
        Some(here) => here.start.offset <= offset && offset < here.end.offset,
        None => false,
    }
}
