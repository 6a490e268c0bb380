//! The labels by which definitions and references are matched.

ghost use Rattle.std.specs.Prelude.{◌≡◌, ◌≤◌, ◌+◌, IfOk, option_map, string_bytes};
ghost use Rattle.markdown_parts.specs.Labels.{identified_kept};
ghost use Rattle.markdown_events.specs.Texts.{fold};
ghost use Rattle.markdown_grammar.specs.Buffers.{node_count};
ghost use Rattle.markdown_nodes.specs.Tree.{plain_text};
ghost use Rattle.markdown_nodes.specs.View.{views};
ghost use Rattle.markdown_steps.specs.Summaries.{identifier_of, words_of};

use crate::buffer::values_of;
use markdown_nodes::mdast::Node;
use markdown_nodes::steps::Steps;
use markdown_nodes::text::normalize_identifier;
use std::alloc::{AllocError, Global};

/// A label as in mdast: its text, and the identifier by which it is matched, which is its slice of
/// the document, normalized.
///
/// For `[A  b]: c` the label is `A  b`, and the identifier `a b`.
#[derive(Drop)]
pub struct Identified {
    pub identifier: String,
    pub label: String,
}

/// Returns a label from its slice of the document and the nodes made in it, in one step for each
/// node. The only error is that memory ran out.
pub fn identify(
    alloc: Global,
    steps: &mut Steps<'_>,
    slice: &str,
    nodes: &mut Vec<Node>,
) -> Result<Identified, AllocError>
    ensures identifier { IfOk result (λ made. string_bytes made.identifier ≡ fold slice.now) }
    ensures label { IfOk result (λ made. string_bytes made.label ≡ plain_text (views nodes.old.items)) }
    ensures list { steps.new.events ≡ steps.old.events }
    ensures bound { steps.new.count ≤ steps.old.count + node_count (views nodes.old.items) }
{
    Ok(Identified {
        identifier: normalize_identifier(alloc, slice)?,
        label: values_of(alloc, steps, nodes)?,
    })
}

/// Returns the identifier and the label of a definition. If it has no label, the identifier is
/// empty.
pub fn named(alloc: Global, label: Option<Identified>) -> (String, Option<String>)
    ensures identifier { string_bytes result.0 ≡ identifier_of (identified_kept label) }
    ensures label { option_map string_bytes result.1 ≡ words_of (identified_kept label) }
{
    match label {
        Some(Identified { identifier, label }) => (identifier, Some(label)),
        None => (String::new(alloc), None),
    }
}
