//! Text, and hard breaks in it (CommonMark, textual content and hard line breaks).
//!
//! In markdown-rs: `on_enter_data`, `on_exit_data`, `on_enter_hard_break`, `on_exit_hard_break`,
//! and what `on_exit_line_ending` does after a break.

ghost use Rattle.std.specs.Prelude.{◌≡◌, is_some};
ghost use Rattle.markdown_events.specs.Slices.{slice, to_unist};
ghost use Rattle.markdown_nodes.specs.Tree as tree;
ghost use Rattle.markdown_nodes.specs.Tree.{join, nothing};
ghost use Rattle.markdown_nodes.specs.View.{view, views};
ghost use Rattle.markdown_grammar.specs.declared.error_kind.ErrorKind.TheVariants.{InvalidSlice};
ghost use Rattle.markdown_parts.specs.PartsSoFar.{Makes, placed};
ghost use Rattle.markdown_inlines.specs.Texts.{data_text, ending_text};

use markdown_grammar::error_kind::Stop;
use markdown_nodes::event::Point;
use markdown_nodes::mdast::{Break, Node};
use markdown_nodes::unist::Position;
use markdown_parts::joining::put_text;
use markdown_parts::line_ending::line_ending_of;
use markdown_parts::slice::{Document, position_of};
use markdown_parts::value::{value_as_it_stands, value_of};
use std::alloc::Global;

/// Appends the text of a span to the nodes. If the last node is a text, the two are joined, since
/// the data, references and line endings of one run of characters are one text in mdast.
///
/// In the document `ab`, the span from byte 0 to byte 1 adds the text `a`, and the next one makes
/// it `ab`. A span that is not a text of the document is refused as `ErrorKind::InvalidSlice`.
pub fn put_slice(
    alloc: Global,
    nodes: &mut Vec<Node>,
    document: &Document<'_>,
    start: Point,
    end: Point,
) -> Result<(), Stop>
    ensures { Makes result (is_some (slice document.now.bytes start end)) InvalidSlice
        (λ _. views nodes.new.items ≡ join (views nodes.old.items) (data_text document.now start end)) }
{
    let position = position_of(start, end);
    if let Some(value) = value_as_it_stands(document, start, end) {
        put_text(alloc, nodes, value, position)?;
        return Ok(());
    }
    let value = value_of(alloc, document, start, end)?;
    put_text(alloc, nodes, value.as_str(), position)?;
    Ok(())
}

/// Appends the text of a line ending to the nodes, as [`put_slice`] does for other spans.
///
/// If values are whole, the CR of `>~~~␍>⏎` is added as an LF: the empty line after it ends in an
/// LF, and the two would be read as one line ending.
pub fn put_line_ending(
    alloc: Global,
    nodes: &mut Vec<Node>,
    document: &Document<'_>,
    start: Point,
    end: Point,
) -> Result<(), Stop>
    ensures { Makes result (is_some (slice document.now.bytes start end)) InvalidSlice
        (λ _. views nodes.new.items ≡ join (views nodes.old.items) (ending_text document.now start end)) }
{
    let position = position_of(start, end);
    if let Some(value) = value_as_it_stands(document, start, end) {
        put_text(alloc, nodes, line_ending_of(document, value, end), position)?;
        return Ok(());
    }
    let made = value_of(alloc, document, start, end)?;
    put_text(
        alloc,
        nodes,
        line_ending_of(document, made.as_str(), end),
        position,
    )?;
    Ok(())
}

/// Returns the node of a hard break, completed by the line ending after it. In mdast a break
/// includes that line ending, so it ends where the line ending does.
///
/// For the two spaces and the line ending in `a  \nb` it extends from offset 1 to offset 4.
#[tactic(auto, unfolding(markdown_nodes::specs::View::view))]
pub fn hard_break(position: Position, end: Point) -> Node
    ensures { view result ≡ placed tree.«break» nothing (record position { end = to_unist end }) }
{
    Node::Break(Break {
        position: Some(Position {
            start: position.start,
            end: end.to_unist(),
        }),
    })
}
