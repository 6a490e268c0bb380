//! The values of blocks between fences: fenced code and math (CommonMark, "Fenced code blocks").

ghost use Rattle.std.specs.Prelude.{◌≡◌, ◌≤◌, ◌+◌, IfOk, string_bytes, take};
ghost use Rattle.std.specs.List.{list_all};
ghost use Rattle.markdown_grammar.specs.Fenced.{fenced, has_line_after, is_line_begun, only_place};
ghost use Rattle.markdown_grammar.specs.Buffers.{node_count};
ghost use Rattle.markdown_grammar.specs.LineEndings.{is_before_line};
ghost use Rattle.markdown_nodes.specs.View.{views};

use crate::buffer::values_of;
use crate::line_ending::is_before_line;
use crate::slice::Document;
use crate::texts::block_value;
use markdown_nodes::mdast::Node;
use markdown_nodes::steps::Steps;
use markdown_nodes::unist::Position;
use std::alloc::{AllocError, Global};

/// Returns the value of a block between fences, which ends at an offset in bytes: the text of the
/// nodes in it, without the line endings beside the fences. It takes one step for each node. The
/// only error is that memory ran out.
///
/// If values are whole, an empty line at the end of a block without a closing fence is kept: no
/// line ending ends it (CommonMark).
///
/// The text of `~~~⏎a⏎~~~` is `⏎a⏎`, and the value is `a`.
pub fn fenced_value(
    alloc: Global,
    steps: &mut Steps<'_>,
    document: &Document<'_>,
    nodes: &mut Vec<Node>,
    end: usize,
) -> Result<String, AllocError>
    ensures value { IfOk result (λ value. string_bytes value ≡ fenced document.now end (views nodes.old.items)) }
    ensures list { steps.new.events ≡ steps.old.events }
    ensures bound { steps.new.count ≤ steps.old.count + node_count (views nodes.old.items) }
{
    let place = place_of(nodes);
    let text = values_of(alloc, steps, nodes)?;
    let has_line_after = has_line_after(document, place, end);
    Ok(block_value(text, true, !has_line_after))
}

/// Returns the place of the text in a block between fences: that of the node in it, if it is the
/// only one.
fn place_of(nodes: &[Node]) -> Option<Position>
    ensures { result ≡ only_place (views nodes.now) }
{
    match nodes {
        [only] => only.position().copied(),
        _ => None,
    }
}

/// Whether a block that ends at an offset has one more line after the text at a place: an empty one
/// that no line ending ends.
fn has_line_after(document: &Document<'_>, place: Option<Position>, end: usize) -> bool
    ensures { result ≡ has_line_after document.now place end }
{
    match place {
        Some(place) if document.is_whole() => {
            let last = place.end.offset;
            let after = document.bytes_from(last);
            is_line_begun(first_bytes(after, end.saturating_sub(last)))
        }
        _ => false,
    }
}

/// Returns the first `count` bytes, or all if there are fewer.
fn first_bytes(bytes: &[u8], count: usize) -> &[u8]
    ensures { result.now ≡ take count bytes.now }
{
    bytes.get(..count).unwrap_or(bytes)
}

/// Whether bytes begin a line, and contain nothing but spaces, tabs, and markers of block quotes.
fn is_line_begun(bytes: &[u8]) -> bool
    ensures { result ≡ is_line_begun bytes.now }
{
    !bytes.is_empty() && all_before_line(bytes)
}

/// Whether all of these bytes may come before the content of a line.
fn all_before_line(bytes: &[u8]) -> bool
    ensures { result ≡ list_all is_before_line bytes.now }
{
    bytes.iter().all(|byte| is_before_line(*byte))
}
