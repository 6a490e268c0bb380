//! Which trees are ordered. The rows of `mdast_replay` have lists whose trees are ordered, and some
//! whose are not.

use crate::expect::{holds, same};
use crate::ordered;
use markdown_nodes::mdast::{List, ListItem, Node, Paragraph, Root};
use markdown_nodes::unist::Position;
use std::alloc::{AllocError, Global};

/// Returns the position in the first line from one byte to another.
fn between(start: usize, end: usize) -> Option<Position> {
    let first = start.saturating_add(1);
    let last = end.saturating_add(1);
    Some(Position::new(1, first, start, 1, last, end))
}

/// Returns a paragraph without children.
fn paragraph(alloc: Global, position: Option<Position>) -> Node {
    Node::Paragraph(Paragraph {
        children: Vec::new(alloc),
        position,
    })
}

/// Returns a root of five bytes with these nodes.
fn root(children: Vec<Node>) -> Node {
    Node::Root(Root {
        children,
        position: between(0, 5),
    })
}

/// Returns a root of five bytes with paragraphs between these bytes, or without a position.
fn paragraphs(alloc: Global, places: &[Option<(usize, usize)>]) -> Result<Node, AllocError> {
    let mut children = Vec::new(alloc);
    for place in places {
        let position = place.and_then(|(start, end)| between(start, end));
        children.push(paragraph(alloc, position))?;
    }
    Ok(root(children))
}

/// Returns the tree of `* [x]`, with the paragraph of its item at this position.
fn checked_item(alloc: Global, position: Option<Position>) -> Result<Node, AllocError> {
    let item = Node::ListItem(ListItem {
        children: Vec::from_array(alloc, [paragraph(alloc, position)])?,
        position: between(0, 5),
        spread: false,
        checked: Some(true),
    });
    let list = Node::List(List {
        children: Vec::from_array(alloc, [item])?,
        position: between(0, 5),
        ordered: false,
        start: None,
        spread: false,
    });
    Ok(root(Vec::from_array(alloc, [list])?))
}

/// That paragraph may start after its end, and may not end after its item.
#[test]
fn the_first_paragraph_of_a_checked_item(rt: HostRuntime) -> Result<(), AllocError> {
    holds(&rt, ordered(&checked_item(rt.alloc(), between(6, 5))?));
    holds(&rt, !ordered(&checked_item(rt.alloc(), between(6, 6))?));
    Ok(())
}

/// Where the paragraphs in a root of five bytes are, and whether the root is ordered. It is ordered
/// if each has a position, begins and ends in the root, does not end before it begins, and does not
/// begin before an earlier one ends.
static PARAGRAPHS: [(&[Option<(usize, usize)>], bool); 7] = [
    (&[Some((0, 5))], true),
    (&[Some((0, 1)), None], false),
    (&[Some((0, 6))], false),
    (&[Some((6, 5))], false),
    (&[Some((4, 3))], false),
    (&[Some((0, 2)), Some((2, 3)), Some((3, 4))], true),
    (&[Some((0, 2)), Some((2, 3)), Some((1, 4))], false),
];

#[test]
fn paragraphs_nest_and_stand_in_order(rt: HostRuntime) -> Result<(), AllocError> {
    for (places, want) in &PARAGRAPHS {
        let tree = paragraphs(rt.alloc(), places)?;
        same(&rt, ordered(&tree), *want);
    }
    Ok(())
}

#[test]
fn a_node_has_a_position(rt: HostRuntime) {
    holds(&rt, ordered(&paragraph(rt.alloc(), between(0, 1))));
    holds(&rt, !ordered(&paragraph(rt.alloc(), None)));
}
