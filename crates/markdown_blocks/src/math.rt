//! Math: blocks and spans (the math extension of micromark, "micromark-extension-math").
//!
//! In markdown-rs: `on_enter_math_flow`, `on_exit_raw_flow_fence_meta`, `on_exit_raw_flow_fence`,
//! `on_exit_raw_flow`, `on_enter_math_text`, `on_exit_raw_text`.

ghost use Rattle.std.specs.Prelude.{◌≡◌, ◌≤◌, ◌+◌, IfOk, None, Some, is_some, string_bytes};
ghost use Rattle.markdown_blocks.specs.Fences.{math_fence, math_flow, math_label};
ghost use Rattle.markdown_blocks.specs.RawTexts.{fenced_text, inline_text};
ghost use Rattle.markdown_parts.specs.PartsSoFar.{GainsItem, GainsWords, IsFresh, IsNode, Makes, misfit_in};
ghost use Rattle.markdown_events.specs.declared.role.ItemKind.TheVariants as item_kinds;
ghost use Rattle.markdown_events.specs.declared.role.Part.TheVariants as parts;
ghost use Rattle.markdown_grammar.specs.Buffers.{node_count};
ghost use Rattle.markdown_grammar.specs.Grammar as models;
ghost use Rattle.markdown_grammar.specs.declared.error_kind.ErrorKind.TheVariants.{MissingFence};
ghost use Rattle.markdown_nodes.specs.Tree as tree;
ghost use Rattle.markdown_nodes.specs.Tree.{nothing};
ghost use Rattle.markdown_nodes.specs.View.{views};

use markdown_grammar::error_kind::{ErrorKind, Stop};
use markdown_nodes::mdast::{InlineMath, Math, Node};
use markdown_nodes::role::{Content, ItemKind, Part};
use markdown_nodes::steps::Steps;
use markdown_nodes::unist::Position;
use markdown_parts::buffer::values_of;
use markdown_parts::fenced::fenced_value;
use markdown_parts::misfits::at_most_one;
use markdown_parts::slice::Document;
use markdown_parts::texts::inline_value;
use std::alloc::{AllocError, Global};

/// The parts of the first fence of a block of math so far: the text after it, which is `meta` of
/// the node.
#[derive(Drop)]
pub struct MathFenceParts {
    pub meta: Option<String>,
}

/// The parts of a block of math so far: its first fence.
#[derive(Drop)]
pub struct MathFlowParts {
    pub fence: Option<MathFenceParts>,
}

impl MathFenceParts {
    /// Returns a first fence at its enter.
    pub fn new() -> MathFenceParts
        ensures { IsFresh (math_fence result) models.math_fence }
    {
        MathFenceParts { meta: None }
    }

    /// Returns the rule that this item would violate here, if any. A fence accepts one text after
    /// it. A second one is `ErrorKind::Repeated`, any other item `ErrorKind::Misplaced`.
    pub fn misfit(&self, what: ItemKind) -> Option<ErrorKind>
        ensures { result ≡ misfit_in (math_fence self.now) what }
    {
        match what {
            ItemKind::Part(Part::MathFlowFenceMeta) => at_most_one(self.meta.is_some()),
            _ => Some(ErrorKind::Misplaced),
        }
    }

    /// Stores the text after the fence.
    pub fn take_meta(&mut self, meta: String)
        requires { misfit_in (math_fence self.old) (item_kinds.Part parts.MathFlowFenceMeta) ≡ None }
        ensures { GainsWords parts.MathFlowFenceMeta (string_bytes meta) (math_fence self.old) (math_fence self.new) }
    {
        self.meta = Some(meta);
    }
}

impl MathFlowParts {
    /// Returns a block of math at its enter, before its first fence.
    pub fn new() -> MathFlowParts
        ensures { IsFresh (math_flow result) models.math_flow }
    {
        MathFlowParts { fence: None }
    }

    /// Returns the rule that this item would violate here, if any. A block of math accepts fences
    /// and line endings, and other content after its first fence. Any other item is
    /// `ErrorKind::Misplaced`.
    pub fn misfit(&self, what: ItemKind) -> Option<ErrorKind>
        ensures { result ≡ misfit_in (math_flow self.now) what }
    {
        match what {
            ItemKind::Content(Content::LineEnding) | ItemKind::Part(Part::MathFlowFence) => None,
            ItemKind::Content(_) if self.fence.is_some() => None,
            _ => Some(ErrorKind::Misplaced),
        }
    }

    /// Stores the first fence.
    pub fn take_fence(&mut self, fence: MathFenceParts)
        requires { self.old.fence ≡ None }
        ensures { GainsItem (item_kinds.Part parts.MathFlowFence) (math_fence fence) (math_flow self.old) (math_flow self.new) }
    {
        self.fence = Some(fence);
    }

    /// Returns the node of a block of math. Its value is the text of the nodes made in it, without
    /// the line endings beside the fences. Reading it takes one step for each node. If there was no
    /// fence, the block is refused as `ErrorKind::MissingFence`.
    pub fn node(
        self,
        alloc: Global,
        steps: &mut Steps<'_>,
        document: &Document<'_>,
        nodes: &mut Vec<Node>,
        position: Position,
    ) -> Result<Node, Stop>
        ensures node { Makes result (is_some self.fence) MissingFence
            (IsNode (math_label self.fence (fenced_text document.now position.end.offset nodes.old.items)) nothing position) }
        ensures list { steps.new.events ≡ steps.old.events }
        ensures bound { steps.new.count ≤ steps.old.count + node_count (views nodes.old.items) }
    {
        match self.fence {
            Some(fence) => Ok(block_math(alloc, steps, document, nodes, position, fence)?),
            None => Err(Stop::Refused(ErrorKind::MissingFence)),
        }
    }
}

/// Returns the node of a block of math.
#[tactic(auto, unfolding(markdown_nodes::specs::View::view))]
fn block_math(
    alloc: Global,
    steps: &mut Steps<'_>,
    document: &Document<'_>,
    nodes: &mut Vec<Node>,
    position: Position,
    fence: MathFenceParts,
) -> Result<Node, AllocError>
    ensures node { IfOk result (IsNode (math_label (Some fence) (fenced_text document.now position.end.offset nodes.old.items)) nothing position) }
    ensures list { steps.new.events ≡ steps.old.events }
    ensures bound { steps.new.count ≤ steps.old.count + node_count (views nodes.old.items) }
{
    let MathFenceParts { meta } = fence;
    let value = fenced_value(alloc, steps, document, nodes, position.end.offset)?;
    Ok(Node::Math(Math {
        value,
        position: Some(position),
        meta,
    }))
}

/// Returns the node of inline math. Its value is the text of the nodes made in it, read in one step
/// for each. Line endings become spaces, and one space is removed from each end, if both have one
/// and not all is spaces; in a table `\|` becomes `|`. The only error is that memory ran out.
#[tactic(auto, unfolding(markdown_nodes::specs::View::view))]
pub fn inline_math(
    alloc: Global,
    steps: &mut Steps<'_>,
    nodes: &mut Vec<Node>,
    position: Position,
    in_table: bool,
) -> Result<Node, AllocError>
    ensures node { IfOk result (IsNode (tree.inline_math (inline_text nodes.old.items in_table)) nothing position) }
    ensures list { steps.new.events ≡ steps.old.events }
    ensures bound { steps.new.count ≤ steps.old.count + node_count (views nodes.old.items) }
{
    let text = values_of(alloc, steps, nodes)?;
    Ok(Node::InlineMath(InlineMath {
        value: inline_value(alloc, text, in_table)?,
        position: Some(position),
    }))
}
