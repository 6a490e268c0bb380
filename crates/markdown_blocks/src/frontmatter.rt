//! Frontmatter: YAML or TOML at the start of a document (micromark-extension-frontmatter).
//!
//! In markdown-rs: `on_enter_frontmatter`, `on_exit_frontmatter`.

ghost use Rattle.std.specs.Prelude.{◌≡◌, ◌≤◌, ◌+◌, IfOk};
ghost use Rattle.markdown_blocks.specs.RawTexts.{frontmatter_text};
ghost use Rattle.markdown_parts.specs.PartsSoFar.{IsNode};
ghost use Rattle.markdown_grammar.specs.Buffers.{node_count};
ghost use Rattle.markdown_grammar.specs.Nodes.{frontmatter};
ghost use Rattle.markdown_nodes.specs.Tree.{nothing};
ghost use Rattle.markdown_nodes.specs.View.{views};

use markdown_nodes::mdast::{Node, Toml, Yaml};
use markdown_nodes::steps::Steps;
use markdown_nodes::unist::Position;
use markdown_parts::buffer::values_of;
use markdown_parts::texts::block_value;
use std::alloc::{AllocError, Global};

/// Returns the node of frontmatter: a Toml if the fences are plus signs, and otherwise a Yaml. Its
/// value is the text of the nodes made in it, without the line endings beside the fences. Reading
/// it takes one step for each node. The only error is that memory ran out.
#[tactic(auto, unfolding(markdown_nodes::specs::View::view))]
pub fn frontmatter(
    alloc: Global,
    steps: &mut Steps<'_>,
    nodes: &mut Vec<Node>,
    position: Position,
    is_toml: bool,
) -> Result<Node, AllocError>
    ensures node { IfOk result (IsNode (frontmatter is_toml (frontmatter_text nodes.old.items)) nothing position) }
    ensures list { steps.new.events ≡ steps.old.events }
    ensures bound { steps.new.count ≤ steps.old.count + node_count (views nodes.old.items) }
{
    let text = values_of(alloc, steps, nodes)?;
    let value = block_value(text, true, true);
    let position = Some(position);
    Ok(if is_toml {
        Node::Toml(Toml { value, position })
    } else {
        Node::Yaml(Yaml { value, position })
    })
}
