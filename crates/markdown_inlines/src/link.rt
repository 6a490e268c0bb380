//! Links (CommonMark): the nodes Link and LinkReference of mdast.
//!
//! In markdown-rs: `on_exit_media`, for a link.

ghost use Rattle.std.specs.Prelude.{◌≡◌, ◌≤◌, ◌+◌, IfOk};
ghost use Rattle.markdown_nodes.specs.View.{view, views};
ghost use Rattle.markdown_grammar.specs.Buffers.{node_count};
ghost use Rattle.markdown_parts.specs.PartsSoFar.{IsNode, placed};
ghost use Rattle.markdown_inlines.specs.Labels;
ghost use Rattle.markdown_inlines.specs.Media.{link_by_label, link_by_name, link_of, media};

use crate::autolink::link_to;
use crate::label::{Label, identified, label_nodes};
use crate::media::{MediaParts, ReferenceParts, ResourceParts, Target};
use markdown_nodes::mdast::{LinkReference, Node, ReferenceKind};
use markdown_nodes::steps::Steps;
use markdown_nodes::unist::Position;
use markdown_parts::label::Identified;
use std::alloc::{AllocError, Global};

impl MediaParts<'_> {
    /// Returns the node of a link. With a resource it leads there. Without one it refers to the
    /// name in its reference, or else in its label.
    ///
    /// For `[a](b)` it is a Link to `b`, and for `[a]` a LinkReference to `a`, each with the text
    /// `a` in it. Reading a label that is referred to takes one step for each node in it.
    pub fn link(
        self,
        alloc: Global,
        steps: &mut Steps<'_>,
        position: Position,
    ) -> Result<Node, AllocError>
        ensures node { IfOk result (IsNode (link_of self.entry) (media self.entry).label position) }
        ensures list { steps.new.events ≡ steps.old.events }
        ensures bound { steps.new.count ≤ steps.old.count + node_count (media self.entry).label }
    {
        let MediaParts { label, target } = self;
        match target {
            Target::Resource(ResourceParts { destination, title }) => {
                let url = destination.unwrap_or(String::new(alloc));
                Ok(link_to(label_nodes(alloc, label), position, url, title))
            }
            Target::Label => {
                link_by_label(alloc, steps, label, position, ReferenceKind::Shortcut)
            }
            Target::Reference(ReferenceParts { string }) => match string {
                None => link_by_label(alloc, steps, label, position, ReferenceKind::Collapsed),
                Some(named) => {
                    let children = label_nodes(alloc, label);
                    Ok(link_reference(children, position, ReferenceKind::Full, named))
                }
            },
        }
    }
}

/// Returns a link by reference to the name in its label.
fn link_by_label(
    alloc: Global,
    steps: &mut Steps<'_>,
    label: Option<Label<'_>>,
    position: Position,
    reference_kind: ReferenceKind,
) -> Result<Node, AllocError>
    ensures node { IfOk result (IsNode (link_by_label reference_kind label.entry) (Labels.label_nodes label.entry) position) }
    ensures list { steps.new.events ≡ steps.old.events }
    ensures bound { steps.new.count ≤ steps.old.count + node_count (Labels.label_nodes label.entry) }
{
    let named = identified(alloc, steps, &label)?;
    let children = label_nodes(alloc, label);
    Ok(link_reference(children, position, reference_kind, named))
}

/// Returns a link by reference to this name.
fn link_reference(
    children: Vec<Node>,
    position: Position,
    reference_kind: ReferenceKind,
    named: Identified,
) -> Node
    ensures { view result ≡ placed (link_by_name reference_kind named) (views children.items) position }
{
    let Identified { identifier, label } = named;
    Node::LinkReference(LinkReference {
        children,
        position: Some(position),
        reference_kind,
        identifier,
        label: Some(label),
    })
}
