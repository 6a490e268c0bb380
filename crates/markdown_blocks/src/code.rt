//! Code: fenced and indented blocks (CommonMark, "Fenced code blocks" and "Indented code blocks")
//! and code spans ("Code spans").
//!
//! In markdown-rs: `on_enter_code_fenced`, `on_exit_code_fenced_fence_info`,
//! `on_exit_raw_flow_fence_meta`, `on_exit_raw_flow_fence`, `on_exit_raw_flow`,
//! `on_enter_code_indented`, `on_exit_code_indented`, `on_enter_code_text`, `on_exit_raw_text`.

ghost use Rattle.std.specs.Prelude.{◌≡◌, ◌≤◌, ◌+◌, IfOk, None, Some, is_some, string_bytes};
ghost use Rattle.markdown_blocks.specs.Fences.{code_fence, code_fenced, code_label};
ghost use Rattle.markdown_blocks.specs.RawTexts.{fenced_text, indented_text, inline_text};
ghost use Rattle.markdown_parts.specs.PartsSoFar.{GainsItem, GainsWords, IsFresh, IsNode, Makes, misfit_in};
ghost use Rattle.markdown_events.specs.declared.role.ItemKind.TheVariants as item_kinds;
ghost use Rattle.markdown_events.specs.declared.role.Part.TheVariants as parts;
ghost use Rattle.markdown_grammar.specs.Buffers.{node_count};
ghost use Rattle.markdown_grammar.specs.Grammar as models;
ghost use Rattle.markdown_grammar.specs.declared.error_kind.ErrorKind.TheVariants.{MissingFence};
ghost use Rattle.markdown_nodes.specs.Tree as tree;
ghost use Rattle.markdown_nodes.specs.Tree.{nothing};
ghost use Rattle.markdown_nodes.specs.View.{views};

use markdown_grammar::error_kind::{ErrorKind, Stop};
use markdown_nodes::mdast::{Code, InlineCode, Node};
use markdown_nodes::role::{Content, ItemKind, Part};
use markdown_nodes::steps::Steps;
use markdown_nodes::unist::Position;
use markdown_parts::buffer::values_of;
use markdown_parts::fenced::fenced_value;
use markdown_parts::misfits::at_most_one;
use markdown_parts::slice::Document;
use markdown_parts::texts::{block_value, inline_value};
use std::alloc::{AllocError, Global};

/// The parts of the first fence of a block of code so far: the language, which is `lang` of the
/// node, and the text after it, which is `meta`.
///
/// In the fence <code>```rust no_run</code> they are `rust` and `no_run`.
#[derive(Drop)]
pub struct CodeFenceParts {
    pub info: Option<String>,
    pub meta: Option<String>,
}

/// The parts of a block of fenced code so far: its first fence.
#[derive(Drop)]
pub struct CodeFencedParts {
    pub fence: Option<CodeFenceParts>,
}

impl CodeFenceParts {
    /// Returns a first fence at its enter.
    pub fn new() -> CodeFenceParts
        ensures { IsFresh (code_fence result) models.code_fence }
    {
        CodeFenceParts {
            info: None,
            meta: None,
        }
    }

    /// Returns the rule that this item would violate here, if any. A fence accepts one language and
    /// one text after it. A second one is `ErrorKind::Repeated`, any other item
    /// `ErrorKind::Misplaced`.
    pub fn misfit(&self, what: ItemKind) -> Option<ErrorKind>
        ensures { result ≡ misfit_in (code_fence self.now) what }
    {
        match what {
            ItemKind::Part(Part::CodeFencedFenceInfo) => at_most_one(self.info.is_some()),
            ItemKind::Part(Part::CodeFencedFenceMeta) => at_most_one(self.meta.is_some()),
            _ => Some(ErrorKind::Misplaced),
        }
    }

    /// Stores the language.
    pub fn take_info(&mut self, info: String)
        requires { misfit_in (code_fence self.old) (item_kinds.Part parts.CodeFencedFenceInfo) ≡ None }
        ensures { GainsWords parts.CodeFencedFenceInfo (string_bytes info) (code_fence self.old) (code_fence self.new) }
    {
        self.info = Some(info);
    }

    /// Stores the text after the language.
    pub fn take_meta(&mut self, meta: String)
        requires { misfit_in (code_fence self.old) (item_kinds.Part parts.CodeFencedFenceMeta) ≡ None }
        ensures { GainsWords parts.CodeFencedFenceMeta (string_bytes meta) (code_fence self.old) (code_fence self.new) }
    {
        self.meta = Some(meta);
    }
}

impl CodeFencedParts {
    /// Returns a block of fenced code at its enter, before its first fence.
    pub fn new() -> CodeFencedParts
        ensures { IsFresh (code_fenced result) models.code_fenced }
    {
        CodeFencedParts { fence: None }
    }

    /// Returns the rule that this item would violate here, if any. A block of code accepts fences
    /// and line endings, and other content after its first fence. Any other item is
    /// `ErrorKind::Misplaced`.
    pub fn misfit(&self, what: ItemKind) -> Option<ErrorKind>
        ensures { result ≡ misfit_in (code_fenced self.now) what }
    {
        match what {
            ItemKind::Content(Content::LineEnding) | ItemKind::Part(Part::CodeFencedFence) => None,
            ItemKind::Content(_) if self.fence.is_some() => None,
            _ => Some(ErrorKind::Misplaced),
        }
    }

    /// Stores the first fence.
    pub fn take_fence(&mut self, fence: CodeFenceParts)
        requires { self.old.fence ≡ None }
        ensures { GainsItem (item_kinds.Part parts.CodeFencedFence) (code_fence fence) (code_fenced self.old) (code_fenced self.new) }
    {
        self.fence = Some(fence);
    }

    /// Returns the node of a block of fenced code. Its value is the text of the nodes made in it,
    /// without the line endings beside the fences. Reading it takes one step for each node. If
    /// there was no fence, the block is refused as `ErrorKind::MissingFence`.
    pub fn node(
        self,
        alloc: Global,
        steps: &mut Steps<'_>,
        document: &Document<'_>,
        nodes: &mut Vec<Node>,
        position: Position,
    ) -> Result<Node, Stop>
        ensures node { Makes result (is_some self.fence) MissingFence
            (IsNode (code_label self.fence (fenced_text document.now position.end.offset nodes.old.items)) nothing position) }
        ensures list { steps.new.events ≡ steps.old.events }
        ensures bound { steps.new.count ≤ steps.old.count + node_count (views nodes.old.items) }
    {
        match self.fence {
            Some(fence) => Ok(fenced_code(alloc, steps, document, nodes, position, fence)?),
            None => Err(Stop::Refused(ErrorKind::MissingFence)),
        }
    }
}

/// Returns the node of fenced code.
#[tactic(auto, unfolding(markdown_nodes::specs::View::view))]
fn fenced_code(
    alloc: Global,
    steps: &mut Steps<'_>,
    document: &Document<'_>,
    nodes: &mut Vec<Node>,
    position: Position,
    fence: CodeFenceParts,
) -> Result<Node, AllocError>
    ensures node { IfOk result (IsNode (code_label (Some fence) (fenced_text document.now position.end.offset nodes.old.items)) nothing position) }
    ensures list { steps.new.events ≡ steps.old.events }
    ensures bound { steps.new.count ≤ steps.old.count + node_count (views nodes.old.items) }
{
    let CodeFenceParts { info, meta } = fence;
    let value = fenced_value(alloc, steps, document, nodes, position.end.offset)?;
    Ok(Node::Code(Code {
        value,
        position: Some(position),
        lang: info,
        meta,
    }))
}

/// Returns the node of indented code. Its value is the text of the nodes made in it, without one
/// line ending at its end. Reading it takes one step for each node. The only error is that memory
/// ran out.
#[tactic(auto, unfolding(markdown_nodes::specs::View::view))]
pub fn indented_code(
    alloc: Global,
    steps: &mut Steps<'_>,
    nodes: &mut Vec<Node>,
    position: Position,
) -> Result<Node, AllocError>
    ensures node { IfOk result (IsNode (tree.code (indented_text nodes.old.items) None None) nothing position) }
    ensures list { steps.new.events ≡ steps.old.events }
    ensures bound { steps.new.count ≤ steps.old.count + node_count (views nodes.old.items) }
{
    let text = values_of(alloc, steps, nodes)?;
    Ok(Node::Code(Code {
        value: block_value(text, false, true),
        position: Some(position),
        lang: None,
        meta: None,
    }))
}

/// Returns the node of a code span. Its value is the text of the nodes made in it, read in one step
/// for each. Line endings become spaces, and one space is removed from each end, if both have one
/// and not all is spaces; in a table `\|` becomes `|`. The only error is that memory ran out.
#[tactic(auto, unfolding(markdown_nodes::specs::View::view))]
pub fn inline_code(
    alloc: Global,
    steps: &mut Steps<'_>,
    nodes: &mut Vec<Node>,
    position: Position,
    in_table: bool,
) -> Result<Node, AllocError>
    ensures node { IfOk result (IsNode (tree.inline_code (inline_text nodes.old.items in_table)) nothing position) }
    ensures list { steps.new.events ≡ steps.old.events }
    ensures bound { steps.new.count ≤ steps.old.count + node_count (views nodes.old.items) }
{
    let text = values_of(alloc, steps, nodes)?;
    Ok(Node::InlineCode(InlineCode {
        value: inline_value(alloc, text, in_table)?,
        position: Some(position),
    }))
}
