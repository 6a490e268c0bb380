//! Images (CommonMark): the nodes Image and ImageReference of mdast.
//!
//! In markdown-rs: `on_exit_media`, for an image.

ghost use Rattle.std.specs.Prelude.{◌≡◌, ◌≤◌, ◌+◌, IfOk, string_bytes};
ghost use Rattle.markdown_nodes.specs.Tree.{nothing};
ghost use Rattle.markdown_nodes.specs.View.{view};
ghost use Rattle.markdown_grammar.specs.Buffers.{node_count};
ghost use Rattle.markdown_parts.specs.PartsSoFar.{IsNode, placed};
ghost use Rattle.markdown_inlines.specs.Media.{image_by_label, image_by_name, image_by_resource, image_of, media};

use crate::label::{Label, identified_by, label_text};
use crate::media::{MediaParts, ReferenceParts, ResourceParts, Target};
use markdown_nodes::mdast::{Image, ImageReference, Node, ReferenceKind};
use markdown_nodes::steps::Steps;
use markdown_nodes::unist::Position;
use markdown_parts::label::Identified;
use std::alloc::{AllocError, Global};

impl MediaParts<'_> {
    /// Returns the node of an image. With a resource it has the address of that. Without one it
    /// refers to the name in its reference, or else in its label. The text of its label is its
    /// alternative text.
    ///
    /// For `![a](b)` it is an Image at `b` with the alternative text `a`, and for `![a]` an
    /// ImageReference to `a` with that text. Reading the label takes one step for each node in it.
    pub fn image(
        self,
        alloc: Global,
        steps: &mut Steps<'_>,
        position: Position,
    ) -> Result<Node, AllocError>
        ensures node { IfOk result (IsNode (image_of self.entry) nothing position) }
        ensures list { steps.new.events ≡ steps.old.events }
        ensures bound { steps.new.count ≤ steps.old.count + node_count (media self.entry).label }
    {
        let MediaParts { label, target } = self;
        let alt = label_text(alloc, steps, &label)?;
        match target {
            Target::Resource(at) => Ok(image_at(alloc, alt, position, at)),
            Target::Label => image_by_label(alloc, alt, position, ReferenceKind::Shortcut, &label),
            Target::Reference(ReferenceParts { string }) => match string {
                None => image_by_label(alloc, alt, position, ReferenceKind::Collapsed, &label),
                Some(named) => Ok(image_reference(alt, position, ReferenceKind::Full, named)),
            },
        }
    }
}

/// Returns an image by reference to the name in its label. The text of the label is the alternative
/// text.
fn image_by_label(
    alloc: Global,
    alt: String,
    position: Position,
    reference_kind: ReferenceKind,
    label: &Option<Label<'_>>,
) -> Result<Node, AllocError>
    ensures { IfOk result (IsNode (image_by_label (string_bytes alt) reference_kind label.now) nothing position) }
{
    let named = identified_by(alloc, label, alt.as_str())?;
    Ok(image_reference(alt, position, reference_kind, named))
}

/// Returns an image at an address.
#[tactic(auto, unfolding(markdown_nodes::specs::View::view))]
fn image_at(alloc: Global, alt: String, position: Position, resource: ResourceParts) -> Node
    ensures { view result ≡ placed (image_by_resource (string_bytes alt) resource) nothing position }
{
    let ResourceParts { destination, title } = resource;
    Node::Image(Image {
        position: Some(position),
        alt,
        url: destination.unwrap_or(String::new(alloc)),
        title,
    })
}

/// Returns an image by reference to this name.
#[tactic(auto, unfolding(markdown_nodes::specs::View::view))]
fn image_reference(
    alt: String,
    position: Position,
    reference_kind: ReferenceKind,
    named: Identified,
) -> Node
    ensures { view result ≡ placed (image_by_name (string_bytes alt) reference_kind named) nothing position }
{
    let Identified { identifier, label } = named;
    Node::ImageReference(ImageReference {
        position: Some(position),
        alt,
        reference_kind,
        identifier,
        label: Some(label),
    })
}
