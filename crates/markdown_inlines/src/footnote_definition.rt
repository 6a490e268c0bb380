//! Footnote definitions (GFM, "Footnotes").
//!
//! In markdown-rs: `on_enter_gfm_footnote_definition`, `on_exit_definition_id`.

ghost use Rattle.std.specs.Prelude.{◌≡◌, ◌≤◌, ◌+◌, None, option_map, string_bytes};
ghost use Rattle.markdown_inlines.specs.Definitions.{footnote_definition, footnote_label};
ghost use Rattle.markdown_parts.specs.PartsSoFar.{IsFresh, ReadsText, misfit_in, placed};
ghost use Rattle.markdown_events.specs.declared.role.ItemKind.TheVariants as item_kinds;
ghost use Rattle.markdown_events.specs.declared.role.Part.TheVariants as parts;
ghost use Rattle.markdown_grammar.specs.Buffers.{node_count};
ghost use Rattle.markdown_grammar.specs.Grammar as models;
ghost use Rattle.markdown_nodes.specs.Tree as tree;
ghost use Rattle.markdown_nodes.specs.View.{view, views};

use markdown_grammar::error_kind::{ErrorKind, Stop};
use markdown_nodes::event::Point;
use markdown_nodes::mdast::{FootnoteDefinition, Node};
use markdown_nodes::role::{ItemKind, Part};
use markdown_nodes::steps::Steps;
use markdown_nodes::unist::Position;
use markdown_parts::label::{Identified, identify, named};
use markdown_parts::misfits::at_most_one;
use markdown_parts::slice::Document;
use markdown_parts::value::visible_of;
use std::alloc::Global;

/// The parts of a footnote definition so far: its label.
///
/// In `[^a]: b` it is `a`.
#[derive(Drop)]
pub struct FootnoteDefinitionParts {
    pub label: Option<Identified>,
}

impl FootnoteDefinitionParts {
    /// Returns a footnote definition at its enter, at the `[` of `[^a]: b`.
    pub fn new() -> FootnoteDefinitionParts
        ensures { IsFresh (footnote_definition result) models.footnote_definition }
    {
        FootnoteDefinitionParts { label: None }
    }

    /// Returns the rule that this item would violate here, if any. A footnote definition accepts
    /// one label, and content. A second label is `ErrorKind::Repeated`, any other part
    /// `ErrorKind::Misplaced`.
    pub fn misfit(&self, what: ItemKind) -> Option<ErrorKind>
        ensures { result ≡ misfit_in (footnote_definition self.now) what }
    {
        match what {
            ItemKind::Content(_) => None,
            ItemKind::Part(Part::FootnoteDefinitionLabelString) => {
                at_most_one(self.label.is_some())
            }
            ItemKind::Part(_) => Some(ErrorKind::Misplaced),
        }
    }

    /// Stores the label between two points, with the nodes made in it, in one step for each: `a` in
    /// `[^a]: b`. If it is not a text of the document, it is refused as `ErrorKind::InvalidSlice`.
    pub fn take_label(
        &mut self,
        alloc: Global,
        steps: &mut Steps<'_>,
        document: &Document<'_>,
        nodes: &mut Vec<Node>,
        start: Point,
        end: Point,
    ) -> Result<(), Stop>
        requires { misfit_in (footnote_definition self.old) (item_kinds.Part parts.FootnoteDefinitionLabelString) ≡ None }
        ensures taken { ReadsText document.now parts.FootnoteDefinitionLabelString (views nodes.old.items) start end
            (footnote_definition self.old) (footnote_definition self.new) result }
        ensures list { steps.new.events ≡ steps.old.events }
        ensures bound { steps.new.count ≤ steps.old.count + node_count (views nodes.old.items) }
    {
        let visible = visible_of(alloc, document, start, end)?;
        self.label = Some(identify(alloc, steps, visible.as_str(), nodes)?);
        Ok(())
    }

    /// Returns the node of a footnote definition. Without a label its identifier is empty.
    pub fn node(self, alloc: Global, children: Vec<Node>, position: Position) -> Node
        ensures { view result ≡ placed (footnote_label self) (views children.items) position }
    {
        let (identifier, label) = named(alloc, self.label);
        footnote(children, position, identifier, label)
    }
}

/// Returns the node of a footnote definition with this identifier and this label.
fn footnote(
    children: Vec<Node>,
    position: Position,
    identifier: String,
    label: Option<String>,
) -> Node
    ensures { view result
        ≡ placed (tree.footnote_definition (string_bytes identifier) (option_map string_bytes label)) (views children.items) position }
{
    Node::FootnoteDefinition(FootnoteDefinition {
        children,
        position: Some(position),
        identifier,
        label,
    })
}
