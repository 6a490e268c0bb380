//! Footnote calls (GFM, footnotes): the node FootnoteReference of mdast.
//!
//! In markdown-rs: `on_enter_gfm_footnote_call`, and the part of `on_exit_media` for footnote
//! calls.

ghost use Rattle.std.specs.Prelude.{◌≡◌, ◌≤◌, ◌+◌, IfOk, None, Some};
ghost use Rattle.markdown_events.specs.declared.role.ItemKind.TheVariants as item_kinds;
ghost use Rattle.markdown_events.specs.declared.role.Part.TheVariants as parts;
ghost use Rattle.markdown_nodes.specs.Tree.{nothing};
ghost use Rattle.markdown_grammar.specs.Buffers.{node_count};
ghost use Rattle.markdown_grammar.specs.Grammar as models;
ghost use Rattle.markdown_parts.specs.PartsSoFar.{IsFresh, IsNode, misfit_in};
ghost use Rattle.markdown_inlines.specs.Labels.{ReadsLabel};
ghost use Rattle.markdown_inlines.specs.FootnoteCalls.{call_label, footnote_call};

use crate::label::{Label, identified};
use markdown_grammar::error_kind::{ErrorKind, Stop};
use markdown_nodes::event::Point;
use markdown_nodes::mdast::{FootnoteReference, Node};
use markdown_nodes::role::{Content, ItemKind, Part};
use markdown_nodes::steps::Steps;
use markdown_nodes::unist::Position;
use markdown_parts::label::Identified;
use markdown_parts::misfits::at_most_one;
use markdown_parts::slice::Document;
use std::alloc::{AllocError, Global};

/// The parts of a footnote call so far.
///
/// In `[^a]` the label is `a`.
#[derive(Drop)]
pub struct FootnoteCallParts<'a> {
    pub label: Option<Label<'a>>,
}

impl<'a> FootnoteCallParts<'a> {
    /// Returns a footnote call at its enter, at the `[` of `[^a]`.
    pub fn new() -> FootnoteCallParts<'a>
        ensures { IsFresh (footnote_call result) models.footnote_call }
    {
        FootnoteCallParts { label: None }
    }

    /// Returns the rule that this item would violate here, if any. A footnote call accepts one
    /// label, and line endings. A second label is `ErrorKind::Repeated`, any other item
    /// `ErrorKind::Misplaced`.
    pub fn misfit(&self, what: ItemKind) -> Option<ErrorKind>
        ensures { result ≡ misfit_in (footnote_call self.now) what }
    {
        match what {
            ItemKind::Content(Content::LineEnding) => None,
            ItemKind::Part(Part::LabelText) => at_most_one(self.label.is_some()),
            _ => Some(ErrorKind::Misplaced),
        }
    }

    /// Stores the label between two points, with the nodes made in it: `a` in `[^a]`. If it is not
    /// a text of the document, it is refused as `ErrorKind::InvalidSlice`.
    pub fn take_label(
        &mut self,
        document: &Document<'a>,
        nodes: Vec<Node>,
        start: Point,
        end: Point,
    ) -> Result<(), Stop>
        requires { misfit_in (footnote_call self.old) (item_kinds.Part parts.LabelText) ≡ None }
        ensures { ReadsLabel document.now nodes start end (footnote_call self.old) (footnote_call self.new) result }
    {
        self.label = Some(Label::read(document, nodes, start, end)?);
        Ok(())
    }

    /// Returns the node of a footnote call, which refers to the footnote that its label names.
    ///
    /// For `[^a]` it is a FootnoteReference to `a`. Reading the label takes one step for each node
    /// in it.
    #[tactic(auto, unfolding(markdown_nodes::specs::View::view))]
    pub fn node(
        self,
        alloc: Global,
        steps: &mut Steps<'_>,
        position: Position,
    ) -> Result<Node, AllocError>
        ensures node { IfOk result (IsNode (call_label self.entry) nothing position) }
        ensures list { steps.new.events ≡ steps.old.events }
        ensures bound { steps.new.count ≤ steps.old.count + node_count (footnote_call self.entry).label }
    {
        let Identified { identifier, label } = identified(alloc, steps, &self.label)?;
        Ok(Node::FootnoteReference(FootnoteReference {
            position: Some(position),
            identifier,
            label: Some(label),
        }))
    }
}
