//! The parts that links and images have in common (CommonMark): a label, and after it a resource or
//! a reference.
//!
//! In markdown-rs: `on_enter_link`, `on_enter_image`, `on_enter_resource`,
//! `on_exit_resource_destination_string`, `on_exit_resource_title_string`, `on_enter_reference` and
//! `on_exit_reference_string`.

ghost use Rattle.std.specs.Prelude.{◌≡◌, ◌≤◌, ◌+◌, None, string_bytes};
ghost use Rattle.markdown_events.specs.declared.role.ItemKind.TheVariants as item_kinds;
ghost use Rattle.markdown_events.specs.declared.role.Part.TheVariants as parts;
ghost use Rattle.markdown_nodes.specs.View.{views};
ghost use Rattle.markdown_grammar.specs.Buffers.{node_count};
ghost use Rattle.markdown_grammar.specs.Grammar as models;
ghost use Rattle.markdown_parts.specs.PartsSoFar.{GainsItem, GainsWords, IsFresh, ReadsText, misfit_in};
ghost use Rattle.markdown_inlines.specs.Labels.{ReadsLabel};
ghost use Rattle.markdown_inlines.specs.Media;
ghost use Rattle.markdown_inlines.specs.Media.{media, reference, resource};

use crate::label::Label;
use markdown_grammar::error_kind::{ErrorKind, Stop};
use markdown_nodes::event::Point;
use markdown_nodes::mdast::Node;
use markdown_nodes::role::{Content, ItemKind, Part};
use markdown_nodes::steps::Steps;
use markdown_parts::label::{Identified, identify};
use markdown_parts::misfits::at_most_one;
use markdown_parts::slice::Document;
use markdown_parts::value::visible_of;
use std::alloc::Global;

/// The parts of a resource so far.
///
/// In `[a](b "c")` the destination is `b` and the title `c`.
#[derive(Drop)]
pub struct ResourceParts {
    pub destination: Option<String>,
    pub title: Option<String>,
}

/// The parts of a reference so far.
///
/// In `[a][b]` the string is `b`, and in `[a][]` there is none.
#[derive(Drop)]
pub struct ReferenceParts {
    pub string: Option<Identified>,
}

/// Where a link or an image leads.
#[derive(Drop)]
pub enum Target {
    /// To the name in its label, as in `[a]`.
    Label,
    /// To an address, as in `[a](b)`.
    Resource(ResourceParts),
    /// To the name in the string of its reference, as in `[a][b]`, or in its label, as in `[a][]`.
    Reference(ReferenceParts),
}

/// The parts of a link or an image so far: its label, and where it leads.
#[derive(Drop)]
pub struct MediaParts<'a> {
    pub label: Option<Label<'a>>,
    pub target: Target,
}

impl ResourceParts {
    /// Returns a resource at its enter, at the `(` of `[a](b "c")`.
    pub fn new() -> ResourceParts
        ensures { IsFresh (resource result) models.resource }
    {
        ResourceParts {
            destination: None,
            title: None,
        }
    }

    /// Returns the rule that this item would violate here, if any. A resource accepts one
    /// destination, one title, and line endings. A repeated part is `ErrorKind::Repeated`, any
    /// other item `ErrorKind::Misplaced`.
    pub fn misfit(&self, what: ItemKind) -> Option<ErrorKind>
        ensures { result ≡ misfit_in (resource self.now) what }
    {
        match what {
            ItemKind::Content(Content::LineEnding) => None,
            ItemKind::Part(Part::ResourceDestinationString) => {
                at_most_one(self.destination.is_some())
            }
            ItemKind::Part(Part::ResourceTitleString) => at_most_one(self.title.is_some()),
            _ => Some(ErrorKind::Misplaced),
        }
    }

    /// Stores the destination: `b` in `[a](b "c")`.
    pub fn take_destination(&mut self, destination: String)
        requires { misfit_in (resource self.old) (item_kinds.Part parts.ResourceDestinationString) ≡ None }
        ensures { GainsWords parts.ResourceDestinationString (string_bytes destination) (resource self.old) (resource self.new) }
    {
        self.destination = Some(destination);
    }

    /// Stores the title: `c` in `[a](b "c")`.
    pub fn take_title(&mut self, title: String)
        requires { misfit_in (resource self.old) (item_kinds.Part parts.ResourceTitleString) ≡ None }
        ensures { GainsWords parts.ResourceTitleString (string_bytes title) (resource self.old) (resource self.new) }
    {
        self.title = Some(title);
    }
}

impl ReferenceParts {
    /// Returns a reference at its enter, at the second `[` of `[a][b]`.
    pub fn new() -> ReferenceParts
        ensures { IsFresh (reference result) models.reference }
    {
        ReferenceParts { string: None }
    }

    /// Returns the rule that this item would violate here, if any. A reference accepts one string,
    /// and line endings. A second string is `ErrorKind::Repeated`, any other item
    /// `ErrorKind::Misplaced`.
    pub fn misfit(&self, what: ItemKind) -> Option<ErrorKind>
        ensures { result ≡ misfit_in (reference self.now) what }
    {
        match what {
            ItemKind::Content(Content::LineEnding) => None,
            ItemKind::Part(Part::ReferenceString) => at_most_one(self.string.is_some()),
            _ => Some(ErrorKind::Misplaced),
        }
    }

    /// Stores the string between two points, with the nodes made in it, in one step for each: `b`
    /// in `[a][b]`. If it is not a text of the document, it is refused as
    /// `ErrorKind::InvalidSlice`.
    pub fn take_string(
        &mut self,
        alloc: Global,
        steps: &mut Steps<'_>,
        document: &Document<'_>,
        nodes: &mut Vec<Node>,
        start: Point,
        end: Point,
    ) -> Result<(), Stop>
        requires { misfit_in (reference self.old) (item_kinds.Part parts.ReferenceString) ≡ None }
        ensures taken { ReadsText document.now parts.ReferenceString (views nodes.old.items) start end
            (reference self.old) (reference self.new) result }
        ensures list { steps.new.events ≡ steps.old.events }
        ensures bound { steps.new.count ≤ steps.old.count + node_count (views nodes.old.items) }
    {
        let visible = visible_of(alloc, document, start, end)?;
        self.string = Some(identify(alloc, steps, visible.as_str(), nodes)?);
        Ok(())
    }
}

impl<'a> MediaParts<'a> {
    /// Returns a link or an image at its enter, at the first `[` of `[a](b)`.
    pub fn new() -> MediaParts<'a>
        ensures { IsFresh (media result) models.media }
    {
        MediaParts {
            label: None,
            target: Target::Label,
        }
    }

    /// Returns the rule that this item would violate here, if any. A link or an image accepts one
    /// label, then one resource or one reference, and line endings. A repeated part is
    /// `ErrorKind::Repeated`, any other item `ErrorKind::Misplaced`.
    pub fn misfit(&self, what: ItemKind) -> Option<ErrorKind>
        ensures { result ≡ misfit_in (media self.now) what }
    {
        let has_label = self.label.is_some();
        match (what, &self.target) {
            (ItemKind::Content(Content::LineEnding), _) => None,
            (ItemKind::Part(Part::LabelText), _) if has_label => Some(ErrorKind::Repeated),
            (ItemKind::Part(Part::LabelText | Part::Resource | Part::Reference), Target::Label) => {
                None
            }
            (ItemKind::Part(Part::Resource), Target::Resource(_)) => Some(ErrorKind::Repeated),
            (ItemKind::Part(Part::Reference), Target::Reference(_)) => Some(ErrorKind::Repeated),
            _ => Some(ErrorKind::Misplaced),
        }
    }

    /// Stores the label between two points, with the nodes made in it: `a` in `[a](b)`. If it is
    /// not a text of the document, it is refused as `ErrorKind::InvalidSlice`.
    pub fn take_label(
        &mut self,
        document: &Document<'a>,
        nodes: Vec<Node>,
        start: Point,
        end: Point,
    ) -> Result<(), Stop>
        requires { misfit_in (media self.old) (item_kinds.Part parts.LabelText) ≡ None }
        ensures { ReadsLabel document.now nodes start end (media self.old) (media self.new) result }
    {
        self.label = Some(Label::read(document, nodes, start, end)?);
        Ok(())
    }

    /// Stores the resource that has ended in it: `(b)` in `[a](b)`.
    pub fn take_resource(&mut self, resource: ResourceParts)
        requires { misfit_in (media self.old) (item_kinds.Part parts.Resource) ≡ None }
        ensures { GainsItem (item_kinds.Part parts.Resource) (Media.resource resource) (media self.old) (media self.new) }
    {
        self.target = Target::Resource(resource);
    }

    /// Stores the reference that has ended in it: `[b]` in `[a][b]`.
    pub fn take_reference(&mut self, reference: ReferenceParts)
        requires { misfit_in (media self.old) (item_kinds.Part parts.Reference) ≡ None }
        ensures { GainsItem (item_kinds.Part parts.Reference) (Media.reference reference) (media self.old) (media self.new) }
    {
        self.target = Target::Reference(reference);
    }
}
