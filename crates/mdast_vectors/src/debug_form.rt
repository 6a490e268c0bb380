//! Nodes are printed in the form that std's Debug derives.

use crate::expect::{prints, same, says};
use crate::trees::{add, alone, paragraph, text};
use markdown_nodes::mdast::{Break, Emphasis, Node, Paragraph};
use std::alloc::{AllocError, Global};
use std::process::Abort;

/// The number of characters in one text.
const BATCH: u32 = 4096;

/// Returns the characters from this one on, one batch of them, without surrogates.
fn characters(alloc: Global, first: u32) -> Result<String, AllocError> {
    let mut value = String::new(alloc);
    for offset in 0..BATCH {
        if let Some(c) = char::from_u32(first.saturating_add(offset)) {
            value.push(c)?;
        }
    }
    Ok(value)
}

/// Returns a paragraph of this text.
fn paragraph_of(alloc: Global, value: &str) -> Result<Node, AllocError> {
    Ok(paragraph(alone(alloc, text(alloc, value))?))
}

/// Returns how a paragraph of a text is printed, if std prints the text.
fn line_of(alloc: Global, value: &str) -> Result<String, AllocError> {
    format!(in alloc;
        "Paragraph {{ children: [Text {{ value: {value:?}, position: None }}], position: None }}"
    )
}

/// Expects a text to be quoted in a tree as std quotes it in a `str`. Its characters are counted.
fn quoted(rt: &impl Abort, alloc: Global, value: &str) -> Result<usize, AllocError> {
    let tree = paragraph_of(alloc, value)?;
    let line = line_of(alloc, value)?;
    prints(rt, alloc, &tree, line.as_str())?;
    Ok(value.chars().count())
}

/// A text is quoted in a tree as std quotes it in a `str`, whatever its characters. All are tried
/// except the 2,048 surrogates, which are not characters.
#[test]
fn each_character_is_quoted_as_std_quotes_it(rt: HostRuntime) -> Result<(), AllocError> {
    let mut found: usize = 0;
    for batch in 0..0x11_0000 / BATCH {
        let value = characters(rt.alloc(), batch.saturating_mul(BATCH))?;
        found = found.saturating_add(quoted(&rt, rt.alloc(), value.as_str())?);
    }
    same(&rt, found, 1_112_064);
    Ok(())
}

/// Returns an emphasis of a break and the text `b`.
fn emphasis(alloc: Global) -> Result<Node, AllocError> {
    let mut children = Vec::new(alloc);
    add(&mut children, Ok(Node::Break(Break { position: None })))?;
    add(&mut children, text(alloc, "b"))?;
    Ok(Node::Emphasis(Emphasis {
        children,
        position: None,
    }))
}

/// Returns a paragraph of the text `a`, an emphasis of a break and the text `b`, and the text `c`.
fn siblings(alloc: Global) -> Result<Paragraph, AllocError> {
    let mut children = Vec::new(alloc);
    add(&mut children, text(alloc, "a"))?;
    add(&mut children, emphasis(alloc))?;
    add(&mut children, text(alloc, "c"))?;
    Ok(Paragraph {
        children,
        position: None,
    })
}

#[test]
fn siblings_stand_after_commas(rt: HostRuntime) -> Result<(), AllocError> {
    let siblings = siblings(rt.alloc())?;
    let line =
        "Paragraph { children: [Text { value: \"a\", position: None }, Emphasis { children: [Break { position: None }, Text { value: \"b\", position: None }], position: None }, Text { value: \"c\", position: None }], position: None }";
    prints(&rt, rt.alloc(), &siblings, line)?;
    let tree = Node::Paragraph(siblings);
    prints(&rt, rt.alloc(), &tree, line)?;
    says(&rt, tree.to_debug_string(rt.alloc()), line)
}

/// Expects the pretty form of a tree to be its form on one line.
fn pretty_is_debug(rt: &impl Abort, alloc: Global, tree: &Node) -> Result<(), AllocError> {
    let line = format!(in alloc; "{tree:?}")?;
    says(rt, format!(in alloc; "{tree:#?}"), line.as_str())
}

#[test]
fn each_node_stands_on_one_line_of_the_pretty_form(rt: HostRuntime) -> Result<(), AllocError> {
    let siblings = siblings(rt.alloc())?;
    let lines =
        "Paragraph {\n    children: [\n        Text { value: \"a\", position: None },\n        Emphasis { children: [Break { position: None }, Text { value: \"b\", position: None }], position: None },\n        Text { value: \"c\", position: None },\n    ],\n    position: None,\n}";
    says(&rt, format!(in rt.alloc(); "{siblings:#?}"), lines)?;
    pretty_is_debug(&rt, rt.alloc(), &Node::Paragraph(siblings))
}
