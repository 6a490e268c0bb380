//! Whether a tree is ordered: the function is named in two crates.

use crate::expect::holds;
use markdown_grammar::ordered::ordered;
use markdown_nodes::mdast::{Break, Node};
use mdast_vectors::ordered as ordered_here;

#[test]
fn a_node_without_a_position_is_not_ordered(rt: HostRuntime) {
    let node = Node::Break(Break { position: None });
    holds(&rt, !ordered(&node));
    holds(&rt, !ordered_here(&node));
}
