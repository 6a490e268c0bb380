//! HTML: blocks and spans (CommonMark, "HTML blocks" and "Raw HTML").
//!
//! In markdown-rs: `on_enter_html`, `on_exit_html`.

ghost use Rattle.std.specs.Prelude.{◌≡◌, ◌≤◌, ◌+◌, IfOk};
ghost use Rattle.markdown_parts.specs.PartsSoFar.{IsNode};
ghost use Rattle.markdown_grammar.specs.Buffers.{node_count};
ghost use Rattle.markdown_nodes.specs.Tree as tree;
ghost use Rattle.markdown_nodes.specs.Tree.{nothing, plain_text};
ghost use Rattle.markdown_nodes.specs.View.{views};

use markdown_nodes::mdast::{Html, Node};
use markdown_nodes::steps::Steps;
use markdown_nodes::unist::Position;
use markdown_parts::buffer::values_of;
use std::alloc::{AllocError, Global};

/// Returns the node of HTML. Its value is the text of the nodes made in it, read in one step for
/// each. The only error is that memory ran out.
#[tactic(auto, unfolding(markdown_nodes::specs::View::view))]
pub fn html(
    alloc: Global,
    steps: &mut Steps<'_>,
    nodes: &mut Vec<Node>,
    position: Position,
) -> Result<Node, AllocError>
    ensures node { IfOk result (IsNode (tree.html (plain_text (views nodes.old.items))) nothing position) }
    ensures list { steps.new.events ≡ steps.old.events }
    ensures bound { steps.new.count ≤ steps.old.count + node_count (views nodes.old.items) }
{
    Ok(Node::Html(Html {
        value: values_of(alloc, steps, nodes)?,
        position: Some(position),
    }))
}
