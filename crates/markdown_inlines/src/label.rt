//! Labels: the content of the first brackets of a link, an image or a footnote call (CommonMark,
//! link text, image description and link label; GFM, footnotes).
//!
//! In markdown-rs: `on_exit_label_text`, and the part of `on_exit_media` for labels.

ghost use Rattle.std.specs.Prelude.{◌≡◌, ◌≤◌, ◌+◌, IfOk, is_some, string_bytes};
ghost use Rattle.markdown_events.specs.Slices.{slice};
ghost use Rattle.markdown_nodes.specs.View.{views};
ghost use Rattle.markdown_grammar.specs.Buffers.{node_count};
ghost use Rattle.markdown_grammar.specs.declared.error_kind.ErrorKind.TheVariants.{InvalidSlice};
ghost use Rattle.markdown_steps.specs.Summaries.{identifier_of, text_of as text_in};
ghost use Rattle.markdown_parts.specs.PartsSoFar.{Makes};
ghost use Rattle.markdown_inlines.specs.Labels;
ghost use Rattle.markdown_inlines.specs.Labels.{IsLabelOf, label_kept};

use markdown_grammar::error_kind::Stop;
use markdown_nodes::event::Point;
use markdown_nodes::mdast::Node;
use markdown_nodes::steps::Steps;
use markdown_nodes::text::normalize_identifier;
use markdown_parts::buffer::label_of;
use markdown_parts::label::Identified;
use markdown_parts::slice::Document;
use markdown_parts::value::Slice;
use std::alloc::{AllocError, Global};

/// The label of a link, an image or a footnote call. Its identifier and its text are made only if a
/// node needs them.
#[derive(Drop)]
pub struct Label<'a> {
    /// Its slice of the document, by whose visible bytes it is matched.
    pub slice: Slice<'a>,
    /// The nodes made in it.
    pub nodes: Vec<Node>,
}

impl<'a> Label<'a> {
    /// Returns the label between two points, with the nodes made in it. If it is not a text of the
    /// document, it is refused as `ErrorKind::InvalidSlice`.
    ///
    /// In `[a *b*](c)` its visible bytes are `a *b*`, and its nodes are a text and an emphasis.
    pub fn read(
        document: &Document<'a>,
        nodes: Vec<Node>,
        start: Point,
        end: Point,
    ) -> Result<Label<'a>, Stop>
        ensures { Makes result (is_some (slice document.now.bytes start end)) InvalidSlice (IsLabelOf document.now start end nodes) }
    {
        let slice = Slice::between(document, start, end)?;
        Ok(Label { slice, nodes })
    }
}

/// Returns the identifier by which a label is matched. If there is no label it is empty.
pub(crate) fn label_identifier(
    alloc: Global,
    label: &Option<Label<'_>>,
) -> Result<String, AllocError>
    ensures { IfOk result (λ made. string_bytes made ≡ identifier_of (label_kept label.now)) }
{
    match label {
        Some(label) => normalize_identifier(alloc, label.slice.visible(alloc)?.as_str()),
        None => Ok(String::new(alloc)),
    }
}

/// Returns the text of a label, in one step for each node in it. If there is no label it is empty.
pub(crate) fn label_text(
    alloc: Global,
    steps: &mut Steps<'_>,
    label: &Option<Label<'_>>,
) -> Result<String, AllocError>
    ensures text { IfOk result (λ made. string_bytes made ≡ text_in (label_kept label.now)) }
    ensures list { steps.new.events ≡ steps.old.events }
    ensures bound { steps.new.count ≤ steps.old.count + node_count (Labels.label_nodes label.now) }
{
    match label {
        Some(label) => label_of(alloc, steps, &label.nodes),
        None => Ok(String::new(alloc)),
    }
}

/// Returns what a label refers to: the identifier and the label of an association (mdast).
///
/// For the label `A` of `[^A]` the identifier is `a` and the label is `A`. Reading the label takes
/// one step for each node in it. The only error is that memory ran out.
pub fn identified(
    alloc: Global,
    steps: &mut Steps<'_>,
    label: &Option<Label<'_>>,
) -> Result<Identified, AllocError>
    ensures identifier { IfOk result (λ made. string_bytes made.identifier ≡ identifier_of (label_kept label.now)) }
    ensures label { IfOk result (λ made. string_bytes made.label ≡ text_in (label_kept label.now)) }
    ensures list { steps.new.events ≡ steps.old.events }
    ensures bound { steps.new.count ≤ steps.old.count + node_count (Labels.label_nodes label.now) }
{
    Ok(Identified {
        identifier: label_identifier(alloc, label)?,
        label: label_text(alloc, steps, label)?,
    })
}

/// Returns what a label refers to, if its text has already been made.
pub(crate) fn identified_by(
    alloc: Global,
    label: &Option<Label<'_>>,
    text: &str,
) -> Result<Identified, AllocError>
    ensures identifier { IfOk result (λ made. string_bytes made.identifier ≡ identifier_of (label_kept label.now)) }
    ensures label { IfOk result (λ made. string_bytes made.label ≡ text.now) }
{
    Ok(Identified {
        identifier: label_identifier(alloc, label)?,
        label: String::from_str(alloc, text)?,
    })
}

/// Returns the nodes of a label. If there is no label there are none.
pub(crate) fn label_nodes(alloc: Global, label: Option<Label<'_>>) -> Vec<Node>
    ensures { views result.items ≡ Labels.label_nodes label.entry }
{
    match label {
        Some(label) => label.nodes,
        None => Vec::new(alloc),
    }
}
