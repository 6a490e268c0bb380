//! Deep trees.

use crate::expect::{holds, same, says};
use crate::ordered;
use crate::outline::{compiled, spelled, spelled_to};
use markdown_nodes::event::{Event, Name};
use markdown_nodes::mdast::Node;
use std::alloc::{AllocError, Global};
use std::process::Abort;
use std::test::Fail;

/// Returns `depth` nested lists, each the only child of the only item of the one before. The
/// innermost item has a paragraph and a blank line after it.
fn nested_lists(alloc: Global, depth: usize) -> Result<Vec<Event>, AllocError> {
    let mut outline = Vec::new(alloc);
    let mut around: usize = 0;
    for _ in 0..depth {
        outline.push((around, Name::ListUnordered))?;
        around = around.saturating_add(1);
        outline.push((around, Name::ListItem))?;
        around = around.saturating_add(1);
    }
    outline.push((around, Name::Paragraph))?;
    outline.push((around, Name::BlankLineEnding))?;
    spelled(alloc, outline.as_slice())
}

/// Returns the `spread` of a list or of a list item.
fn spread(node: &Node) -> Option<bool> {
    match node {
        Node::List(list) => Some(list.spread),
        Node::ListItem(item) => Some(item.spread),
        _ => None,
    }
}

/// Returns the first child of a node.
pub fn first_child(node: &Node) -> Option<&Node> {
    node.children()?.first()
}

#[test]
fn a_blank_line_in_the_innermost_of_nested_lists(rt: HostRuntime) -> Result<(), Fail> {
    let events = nested_lists(rt.alloc(), 200)?;
    let tree = compiled(rt.alloc(), b"", events.as_slice())?;
    let mut node = first_child(&tree);
    for level in 1..=400 {
        let found = node.and_then(spread);
        same(&rt, (level, found), (level, Some(level == 400)));
        node = node.and_then(first_child);
    }
    holds(&rt, matches!(node, Some(Node::Paragraph(_))));
    Ok(())
}

/// The number of levels in the towers.
const LEVELS: usize = 100_000;

/// Nested spans, and how their nodes are printed before and after the nodes in them.
#[derive(Clone, Copy)]
struct Spans<'a> {
    names: &'a [Name],
    before: &'a str,
    after: &'a str,
}

/// A document of one byte.
const ROOT: Spans<'static> = Spans {
    names: &[],
    before: "Root { children: [",
    after: "], position: Some(1:1-1:2 (0-1)) }",
};

/// A paragraph of the text `a`.
const PARAGRAPH: Spans<'static> = Spans {
    names: &[Name::Paragraph, Name::Data],
    before: "Paragraph { children: [Text { value: \"a\", position: Some(1:1-1:2 (0-1)) }",
    after: "], position: Some(1:1-1:2 (0-1)) }",
};

/// Returns the events of nested spans of one byte: outer ones, a hundred thousand levels, and inner
/// ones.
fn tower(
    alloc: Global,
    outer: Spans<'_>,
    level: Spans<'_>,
    inner: Spans<'_>,
) -> Result<Vec<Event>, AllocError> {
    let mut names = Vec::new(alloc);
    names.extend_from_slice(outer.names)?;
    for _ in 0..LEVELS {
        names.extend_from_slice(level.names)?;
    }
    names.extend_from_slice(inner.names)?;
    let mut outline = Vec::new(alloc);
    for (depth, name) in names.iter().enumerate() {
        outline.push((depth, *name))?;
    }
    spelled_to(alloc, outline.as_slice(), 1)
}

/// Returns how the tree of such events is printed.
fn line(
    alloc: Global,
    outer: Spans<'_>,
    level: Spans<'_>,
    inner: Spans<'_>,
) -> Result<String, AllocError> {
    let mut line = String::from_str(alloc, outer.before)?;
    line.push_str(level.before.repeat(alloc, LEVELS)?.as_str())?;
    line.push_str(inner.before)?;
    line.push_str(inner.after)?;
    line.push_str(level.after.repeat(alloc, LEVELS)?.as_str())?;
    line.push_str(outer.after)?;
    Ok(line)
}

/// Compiles, reads, copies, compares, prints and drops a tower over the byte `a`. Its tree is
/// ordered. It equals its copy, but not the tree over the byte `b`, which differs only in the
/// innermost spans.
fn expect(
    rt: &impl Abort,
    alloc: Global,
    outer: Spans<'_>,
    level: Spans<'_>,
    inner: Spans<'_>,
    text: &str,
) -> Result<(), Fail> {
    let events = tower(alloc, outer, level, inner)?;
    let copy = copied(rt, alloc, events.as_slice(), text)?;
    holds(rt, copy != compiled(alloc, b"b", events.as_slice())?);
    let line = line(alloc, outer, level, inner)?;
    printed(rt, alloc, &copy, line.as_str())
}

/// Returns the copy of the tree over the byte `a`, which is ordered and has this text.
fn copied(rt: &impl Abort, alloc: Global, events: &[Event], text: &str) -> Result<Node, Fail> {
    let tree = compiled(alloc, b"a", events)?;
    says(rt, tree.to_string(alloc), text)?;
    holds(rt, ordered(&tree));
    let copy = tree.clone(alloc)?;
    holds(rt, copy == tree);
    Ok(copy)
}

/// Expects a tree to be printed like this, by Debug and as a text. A difference is not shown, since
/// it is too long.
fn printed(rt: &impl Abort, alloc: Global, tree: &Node, line: &str) -> Result<(), Fail> {
    let shown = format!(in alloc; "{tree:?}")?;
    holds(rt, shown.as_str() == line);
    let text = tree.to_debug_string(alloc)?;
    holds(rt, text.as_str() == line);
    Ok(())
}

#[test]
fn a_text_in_a_hundred_thousand_block_quotes(rt: HostRuntime) -> Result<(), Fail> {
    let quote = Spans {
        names: &[Name::BlockQuote],
        before: "Blockquote { children: [",
        after: "], position: Some(1:1-1:2 (0-1)) }",
    };
    expect(&rt, rt.alloc(), ROOT, quote, PARAGRAPH, "a")
}

#[test]
fn a_text_in_a_hundred_thousand_lists(rt: HostRuntime) -> Result<(), Fail> {
    let list = Spans {
        names: &[Name::ListUnordered, Name::ListItem],
        before: "List { children: [ListItem { children: [",
        after: "], position: Some(1:1-1:2 (0-1)), spread: false, checked: None }], position: Some(1:1-1:2 (0-1)), ordered: false, start: None, spread: false }",
    };
    expect(&rt, rt.alloc(), ROOT, list, PARAGRAPH, "a")
}

#[test]
fn a_text_in_a_hundred_thousand_emphases(rt: HostRuntime) -> Result<(), Fail> {
    let emphasis = Spans {
        names: &[Name::Emphasis],
        before: "Emphasis { children: [",
        after: "], position: Some(1:1-1:2 (0-1)) }",
    };
    let text = Spans {
        names: &[Name::Data],
        before: "Text { value: \"a\", position: Some(1:1-1:2 (0-1)) ",
        after: "}",
    };
    expect(&rt, rt.alloc(), ROOT, emphasis, text, "a")
}

/// The text of the label becomes that of the image, and no emphasis is left.
#[test]
fn a_text_in_a_hundred_thousand_emphases_of_a_label(rt: HostRuntime) -> Result<(), Fail> {
    let image = Spans {
        names: &[Name::Image, Name::LabelText],
        before: "Root { children: [ImageReference { position: Some(1:1-1:2 (0-1)), ",
        after: " }], position: Some(1:1-1:2 (0-1)) }",
    };
    let emphasis = Spans {
        names: &[Name::Emphasis],
        before: "",
        after: "",
    };
    let text = Spans {
        names: &[Name::Data],
        before: "alt: \"a\", reference_kind: Shortcut, ",
        after: "identifier: \"a\", label: Some(\"a\")",
    };
    expect(&rt, rt.alloc(), image, emphasis, text, "")
}
