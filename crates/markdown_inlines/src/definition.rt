//! Definitions (CommonMark, "Link reference definitions").
//!
//! In markdown-rs: `on_enter_definition`, `on_exit_definition_id`,
//! `on_exit_definition_destination_string`, `on_exit_definition_title_string`.

ghost use Rattle.std.specs.Prelude.{◌≡◌, ◌≤◌, ◌+◌, None, string_bytes};
ghost use Rattle.markdown_inlines.specs.Definitions.{definition, definition_label};
ghost use Rattle.markdown_parts.specs.PartsSoFar.{GainsWords, IsFresh, ReadsText, misfit_in, placed};
ghost use Rattle.markdown_events.specs.declared.role.ItemKind.TheVariants as item_kinds;
ghost use Rattle.markdown_events.specs.declared.role.Part.TheVariants as parts;
ghost use Rattle.markdown_grammar.specs.Buffers.{node_count};
ghost use Rattle.markdown_grammar.specs.Grammar as models;
ghost use Rattle.markdown_nodes.specs.Tree.{nothing};
ghost use Rattle.markdown_nodes.specs.View.{view, views};

use markdown_grammar::error_kind::{ErrorKind, Stop};
use markdown_nodes::event::Point;
use markdown_nodes::mdast::{Definition, Node};
use markdown_nodes::role::{Content, ItemKind, Part};
use markdown_nodes::steps::Steps;
use markdown_nodes::unist::Position;
use markdown_parts::label::{Identified, identify, named};
use markdown_parts::misfits::at_most_one;
use markdown_parts::slice::Document;
use markdown_parts::value::visible_of;
use std::alloc::Global;

/// The parts of a definition so far: its label, its destination and its title.
///
/// In `[a]: b "c"` they are `a`, `b` and `c`.
#[derive(Drop)]
pub struct DefinitionParts {
    pub label: Option<Identified>,
    pub destination: Option<String>,
    pub title: Option<String>,
}

impl DefinitionParts {
    /// Returns a definition at its enter, at the `[` of `[a]: b "c"`.
    pub fn new() -> DefinitionParts
        ensures { IsFresh (definition result) models.definition }
    {
        DefinitionParts {
            label: None,
            destination: None,
            title: None,
        }
    }

    /// Returns the rule that this item would violate here, if any. A definition accepts one label,
    /// one destination and one title, in any order, and line endings. A repeated part is
    /// `ErrorKind::Repeated`, any other item `ErrorKind::Misplaced`.
    pub fn misfit(&self, what: ItemKind) -> Option<ErrorKind>
        ensures { result ≡ misfit_in (definition self.now) what }
    {
        match what {
            ItemKind::Content(Content::LineEnding) => None,
            ItemKind::Part(Part::DefinitionLabelString) => at_most_one(self.label.is_some()),
            ItemKind::Part(Part::DefinitionDestinationString) => {
                at_most_one(self.destination.is_some())
            }
            ItemKind::Part(Part::DefinitionTitleString) => at_most_one(self.title.is_some()),
            _ => Some(ErrorKind::Misplaced),
        }
    }

    /// Stores the label between two points, with the nodes made in it, in one step for each: `a` in
    /// `[a]: b "c"`. If it is not a text of the document, it is refused as
    /// `ErrorKind::InvalidSlice`.
    pub fn take_label(
        &mut self,
        alloc: Global,
        steps: &mut Steps<'_>,
        document: &Document<'_>,
        nodes: &mut Vec<Node>,
        start: Point,
        end: Point,
    ) -> Result<(), Stop>
        requires { misfit_in (definition self.old) (item_kinds.Part parts.DefinitionLabelString) ≡ None }
        ensures taken { ReadsText document.now parts.DefinitionLabelString (views nodes.old.items) start end
            (definition self.old) (definition self.new) result }
        ensures list { steps.new.events ≡ steps.old.events }
        ensures bound { steps.new.count ≤ steps.old.count + node_count (views nodes.old.items) }
    {
        let visible = visible_of(alloc, document, start, end)?;
        self.label = Some(identify(alloc, steps, visible.as_str(), nodes)?);
        Ok(())
    }

    /// Stores the destination: `b` in `[a]: b "c"`.
    pub fn take_destination(&mut self, destination: String)
        requires { misfit_in (definition self.old) (item_kinds.Part parts.DefinitionDestinationString) ≡ None }
        ensures { GainsWords parts.DefinitionDestinationString (string_bytes destination) (definition self.old) (definition self.new) }
    {
        self.destination = Some(destination);
    }

    /// Stores the title: `c` in `[a]: b "c"`.
    pub fn take_title(&mut self, title: String)
        requires { misfit_in (definition self.old) (item_kinds.Part parts.DefinitionTitleString) ≡ None }
        ensures { GainsWords parts.DefinitionTitleString (string_bytes title) (definition self.old) (definition self.new) }
    {
        self.title = Some(title);
    }

    /// Returns the node of a definition. Without a label its identifier is empty, and without a
    /// destination its URL.
    #[tactic(auto, unfolding(markdown_nodes::specs::View::view))]
    pub fn node(self, alloc: Global, position: Position) -> Node
        ensures { view result ≡ placed (definition_label self) nothing position }
    {
        let DefinitionParts {
            label,
            destination,
            title,
        } = self;
        let (identifier, label) = named(alloc, label);
        Node::Definition(Definition {
            position: Some(position),
            url: destination.unwrap_or(String::new(alloc)),
            title,
            identifier,
            label,
        })
    }
}
