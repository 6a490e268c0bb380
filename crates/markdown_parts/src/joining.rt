//! Adding nodes to a list: a text that comes after a text is joined with it.

ghost use Rattle.std.specs.Prelude.{◌≡◌, false, OnOk, IfOk};
ghost use Rattle.markdown_nodes.specs.Tree.{from_to, join, only};
ghost use Rattle.markdown_nodes.specs.View.{view, views};
ghost use Rattle.markdown_steps.specs.Consequences.{is_text};
ghost use Rattle.markdown_steps.specs.TextNodes.{one_text, text_node};

use markdown_nodes::mdast::{Node, Text};
use markdown_nodes::unist::Position;
use std::alloc::{AllocError, Global};
use std::mem;

/// Reserves room for one node if there is none: most lists of children stay that short.
fn one_place(nodes: &mut Vec<Node>) -> Result<(), AllocError>
    ensures { nodes.new.items ≡ nodes.old.items }
{
    if nodes.is_empty() {
        nodes.reserve_exact(1)?;
    }
    Ok(())
}

/// The number of cells to reserve room for with the first cell of a row.
const CELLS: usize = 4;

/// Reserves room for the first node if there is none, and for a few more if it is a cell, which is
/// seldom alone in its row.
#[inline(always)]
fn first_place(nodes: &mut Vec<Node>, first: &Node) -> Result<(), AllocError>
    ensures { nodes.new.items ≡ nodes.old.items }
{
    if nodes.is_empty() {
        nodes.reserve_exact(if matches!(first, Node::TableCell(_)) {
            CELLS
        } else {
            1
        })?;
    }
    Ok(())
}

/// Appends a node that is not a text. The only error is that memory ran out, as for the other
/// functions of this crate.
#[tactic(auto, using(crate::proofs::Views::views_put))]
#[inline(always)]
pub fn put(nodes: &mut Vec<Node>, node: Node) -> Result<(), AllocError>
    requires { is_text (view node).label ≡ false }
    ensures { OnOk result (views nodes.new.items ≡ join (views nodes.old.items) (only (view node))) }
{
    first_place(nodes, &node)?;
    nodes.push(node)?;
    Ok(())
}

/// Appends a part of a text. If the last node is a text, the part is joined with it, since the
/// data, references and line endings of one run of characters are one text in mdast.
///
/// After the text `a`, the part `b` makes it `ab`, which ends where the part does.
#[inline(always)]
pub fn put_text(
    alloc: Global,
    nodes: &mut Vec<Node>,
    value: &str,
    position: Position,
) -> Result<(), AllocError>
    ensures { OnOk result (views nodes.new.items ≡ join (views nodes.old.items) (one_text value.now position)) }
{
    if let Some(last) = nodes.last_mut() {
        if let Node::Text(text) = last {
            extend_text(text, value, position)?;
            return Ok(());
        }
    }
    one_place(nodes)?;
    nodes.push(new_text(alloc, value, position)?)?;
    Ok(())
}

/// Returns the node of a text.
#[tactic(auto, unfolding(markdown_nodes::specs::View::view))]
pub fn new_text(alloc: Global, value: &str, position: Position) -> Result<Node, AllocError>
    ensures { IfOk result (λ made. only (view made) ≡ one_text value.now position) }
{
    Ok(Node::Text(Text {
        value: String::from_str(alloc, value)?,
        position: Some(position),
    }))
}

/// Appends a part to a text: the position then ends where the part does.
#[inline(always)]
fn extend_text(text: &mut Text, part: &str, position: Position) -> Result<(), AllocError>
    ensures { OnOk result (text_node text.new ≡ join (text_node text.old) (one_text part.now position)) }
{
    text.value.push_str(part)?;
    if let Some(place) = &mut text.position {
        place.end = position.end;
    }
    Ok(())
}

/// Moves nodes to the end of a list. If the list ends with a text and the nodes begin with one, the
/// two are joined. An empty list changes places with the nodes.
#[tactic(auto, using(crate::proofs::Joins::none_appended))]
pub fn append(nodes: &mut Vec<Node>, others: &mut Vec<Node>) -> Result<(), AllocError>
    ensures { OnOk result (views nodes.new.items ≡ join (views nodes.old.items) (views others.old.items)) }
{
    if nodes.is_empty() {
        mem::swap(nodes, others);
        return Ok(());
    }
    if others.is_empty() {
        return Ok(());
    }
    put_any(nodes, others.remove(0))?;
    nodes.append(others)?;
    Ok(())
}

/// The most nodes that are moved to a list of their own length. A longer list is kept as it is.
const SHORT: usize = 32;

/// Moves the nodes of a list to one without room for more. What is left of the list is its room, for
/// the nodes of another span.
pub fn drained(alloc: Global, nodes: &mut Vec<Node>) -> Result<Vec<Node>, AllocError>
    ensures { IfOk result (λ list. list.items ≡ nodes.old.items) }
{
    if nodes.len() == nodes.capacity() || nodes.len() > SHORT {
        let mut list = mem::replace(nodes, Vec::new(alloc));
        list.shrink_to_fit();
        return Ok(list);
    }
    let mut list = Vec::new(alloc);
    list.reserve_exact(nodes.len())?;
    list.append(nodes)?;
    Ok(list)
}

/// Appends any node. A text is joined with a text that is the last node.
fn put_any(nodes: &mut Vec<Node>, node: Node) -> Result<(), AllocError>
    ensures { OnOk result (views nodes.new.items ≡ join (views nodes.old.items) (only (view node))) }
{
    if let Node::Text(text) = &node {
        if let Some(last) = nodes.last_mut() {
            if let Node::Text(before) = last {
                join_text(before, text)?;
                return Ok(());
            }
        }
    }
    first_place(nodes, &node)?;
    nodes.push(node)?;
    Ok(())
}

/// Joins a text with the next one, from the start of the first to the end of the second.
fn join_text(text: &mut Text, other: &Text) -> Result<(), AllocError>
    ensures { OnOk result (text_node text.new ≡ join (text_node text.old) (text_node other.now)) }
{
    text.value.push_str(other.value.as_str())?;
    text.position = from_to(text.position, other.position);
    Ok(())
}

/// Returns the position from the start of one to the end of another, if both are known.
fn from_to(first: Option<Position>, last: Option<Position>) -> Option<Position>
    ensures { result ≡ from_to first last }
{
    match (first, last) {
        (Some(first), Some(last)) => Some(Position {
            start: first.start,
            end: last.end,
        }),
        _ => None,
    }
}
