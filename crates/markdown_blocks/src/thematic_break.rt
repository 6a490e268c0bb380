//! Thematic breaks (CommonMark, "Thematic breaks").
//!
//! In markdown-rs: `on_enter_thematic_break`.

ghost use Rattle.std.specs.Prelude.{◌≡◌};
ghost use Rattle.markdown_parts.specs.PartsSoFar.{placed};
ghost use Rattle.markdown_nodes.specs.Tree as tree;
ghost use Rattle.markdown_nodes.specs.Tree.{nothing};
ghost use Rattle.markdown_nodes.specs.View.{view};

use markdown_nodes::mdast::{Node, ThematicBreak};
use markdown_nodes::unist::Position;

/// Returns the node of a thematic break, whichever characters it is written with.
#[tactic(auto, unfolding(markdown_nodes::specs::View::view))]
pub fn thematic_break(position: Position) -> Node
    ensures { view result ≡ placed tree.thematic_break nothing position }
{
    Node::ThematicBreak(ThematicBreak {
        position: Some(position),
    })
}
