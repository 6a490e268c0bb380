//! The results of the calls on nodes, and how nodes are printed: a test for each of the 29 kinds,
//! by their names, and then larger trees. The cases of `mdast_replay` also have trees of each kind.

mod literals;
mod parents;
mod voids;

use crate::expect::{holds, holds_in, prints, same, same_in, says};
use crate::trees::{add, alone, own, paragraph, quoted, text};
use markdown_nodes::mdast::{AlignKind, Break, Emphasis, Html, Image, InlineCode, Node, Table};
use markdown_nodes::unist::Position;
use std::alloc::{AllocError, Global};
use std::process::Abort;

/// Expects a node's copy to equal it, and to be printed like this, by Debug and as a text.
fn printed(rt: &impl Abort, alloc: Global, node: &Node, want: &str) -> Result<(), AllocError> {
    let copy = node.clone(alloc)?;
    holds_in(rt, copy == *node, want);
    prints(rt, alloc, &copy, want)?;
    says(rt, copy.to_debug_string(alloc), want)
}

/// Expects both calls to say that a node has this number of children, or that it can have none.
fn has_children(rt: &impl Abort, node: &mut Node, count: Option<usize>, case: &str) {
    let found = node.children().map(|children| children.len());
    same_in(rt, found, count, case);
    let found = node.children_mut().map(|children| children.len());
    same_in(rt, found, count, case);
}

/// Returns how a node is printed, with `prefix` and `back` around its position.
fn line(alloc: Global, prefix: &str, position: &str, back: &str) -> Result<String, AllocError> {
    format!(in alloc; "{prefix}position: {position}{back}")
}

/// Expects this text of a node with no position, and that it is printed with `prefix` and `back`
/// around the position.
fn carried(
    rt: &impl Abort,
    alloc: Global,
    node: &mut Node,
    text: &str,
    prefix: &str,
    back: &str,
) -> Result<(), AllocError> {
    holds_in(rt, node.position().is_none(), prefix);
    holds_in(rt, node.position_mut().is_none(), prefix);
    says(rt, node.to_string(alloc), text)?;
    let nowhere = line(alloc, prefix, "None", back)?;
    printed(rt, alloc, node, nowhere.as_str())?;
    node.position_set(Some(Position::new(1, 1, 0, 1, 2, 1)));
    let somewhere = line(alloc, prefix, "Some(1:1-1:2 (0-1))", back)?;
    printed(rt, alloc, node, somewhere.as_str())
}

/// Returns the code `c`.
fn code(alloc: Global) -> Result<Node, AllocError> {
    Ok(Node::InlineCode(InlineCode {
        value: own(alloc, "c")?,
        position: None,
    }))
}

/// Returns an emphasis of the code `c`.
fn stressed(alloc: Global) -> Result<Node, AllocError> {
    Ok(Node::Emphasis(Emphasis {
        children: alone(alloc, code(alloc))?,
        position: None,
    }))
}

/// Returns an image of `b`.
fn image(alloc: Global) -> Result<Node, AllocError> {
    Ok(Node::Image(Image {
        position: None,
        alt: own(alloc, "b")?,
        url: own(alloc, "b")?,
        title: None,
    }))
}

/// Returns the HTML `<d>`.
fn html(alloc: Global) -> Result<Node, AllocError> {
    Ok(Node::Html(Html {
        value: own(alloc, "<d>")?,
        position: None,
    }))
}

/// Returns a paragraph of the text `a`, an image of `b`, an emphasis of the code `c`, a break and
/// `<d>`.
fn words(alloc: Global) -> Result<Node, AllocError> {
    let mut children = Vec::new(alloc);
    add(&mut children, text(alloc, "a"))?;
    add(&mut children, image(alloc))?;
    add(&mut children, stressed(alloc))?;
    add(&mut children, Ok(Node::Break(Break { position: None })))?;
    add(&mut children, html(alloc))?;
    Ok(paragraph(children))
}

/// Appends a text to the children of a node.
fn add_text(alloc: Global, node: &mut Node, value: &str) -> Result<(), AllocError> {
    match node.children_mut() {
        Some(children) => add(children, text(alloc, value)),
        None => Ok(()),
    }
}

#[test]
fn text_of_a_paragraph(rt: HostRuntime) -> Result<(), AllocError> {
    let position = Some(Position::new(1, 1, 0, 1, 2, 1));
    let mut node = words(rt.alloc())?;
    node.position_set(position);
    says(&rt, node.to_string(rt.alloc()), "ac<d>")?;
    add_text(rt.alloc(), &mut node, "e")?;
    says(&rt, node.to_string(rt.alloc()), "ac<d>e")?;
    same(&rt, node.position().copied(), position);
    Ok(())
}

#[test]
fn child_nodes_of_a_paragraph_and_of_a_text(rt: HostRuntime) -> Result<(), AllocError> {
    let paragraph = words(rt.alloc())?;
    same(&rt, paragraph.child_nodes().len(), 5);
    let leaf = text(rt.alloc(), "a")?;
    same(&rt, leaf.child_nodes().len(), 0);
    Ok(())
}

/// Returns a table with a column.
fn table(alloc: Global) -> Result<Node, AllocError> {
    Ok(Node::Table(Table {
        children: Vec::new(alloc),
        position: Some(Position::new(1, 1, 0, 1, 2, 1)),
        align: Vec::from_array(alloc, [AlignKind::Left])?,
    }))
}

#[test]
fn column_of_a_table(rt: HostRuntime) -> Result<(), AllocError> {
    let mut node = table(rt.alloc())?;
    if let Some(position) = node.position_mut() {
        position.start.column = 7;
    }
    let want = "Table { children: [], position: Some(1:7-1:2 (0-1)), align: [Left] }";
    printed(&rt, rt.alloc(), &node, want)
}

#[test]
fn positions_count(rt: HostRuntime) -> Result<(), AllocError> {
    let node = words(rt.alloc())?;
    let mut other = words(rt.alloc())?;
    holds(&rt, other == node);
    other.position_set(Some(Position::new(1, 1, 0, 1, 2, 1)));
    holds(&rt, other != node);
    Ok(())
}

/// Returns the length of a node as Debug prints it.
fn debug_length(alloc: Global, node: &Node) -> Result<usize, AllocError> {
    let line = format!(in alloc; "{node:?}")?;
    Ok(line.len())
}

#[test]
fn thousand_block_quotes(rt: HostRuntime) -> Result<(), AllocError> {
    let node = quoted(rt.alloc(), text(rt.alloc(), "a")?, 1000)?;
    let copy = node.clone(rt.alloc())?;
    holds(&rt, copy == node);
    says(&rt, copy.to_string(rt.alloc()), "a")?;
    // 1,000 times `Blockquote { children: [` and `], position: None }`, and the text within.
    same(&rt, debug_length(rt.alloc(), &copy)?, 43_035);
    Ok(())
}
