//! Queries of the tree of a document: the node at a byte, a definition, the outline, and the text.

use crate::expect::{same, says};
use crate::trees::{alone, root, text};
use markdown::{Constructs, ParseOptions, to_mdast};
use markdown_nodes::mdast::{Heading, Node};
use mdast_util::definitions::definition_of;
use mdast_util::outline::outline;
use mdast_util::place::node_at;
use mdast_util::plain_text::plain_text;
use std::alloc::{AllocError, Global};
use std::process::Abort;

/// Returns the tree of a document, with all constructs.
fn read(alloc: Global, document: &str) -> Result<Node, AllocError> {
    let options = ParseOptions {
        constructs: Constructs::everything(),
        ..ParseOptions::default()
    };
    to_mdast(alloc, document, &options)
}

/// Returns the start and end offsets of the deepest node at a byte.
fn found_at(tree: &Node, offset: usize) -> Option<(usize, usize)> {
    let here = node_at(tree, offset)?.position()?;
    Some((here.start.offset, here.end.offset))
}

/// Bytes of `Hi *Earth*` and a task, and the deepest node at each: a text; the emphasis at its
/// markers; the root at the line endings between blocks; the item at its marker and its mark; none at
/// the end.
static PLACES: [(usize, Option<(usize, usize)>); 9] = [
    (0, Some((0, 3))),
    (2, Some((0, 3))),
    (3, Some((3, 10))),
    (4, Some((4, 9))),
    (9, Some((3, 10))),
    (11, Some((0, 19))),
    (15, Some((12, 19))),
    (18, Some((18, 19))),
    (19, None),
];

#[test]
fn deepest_nodes_of_a_document(rt: HostRuntime) -> Result<(), AllocError> {
    let tree = read(rt.alloc(), "Hi *Earth*\n\n* [x] a")?;
    for (offset, want) in &PLACES {
        same(&rt, found_at(&tree, *offset), *want);
    }
    Ok(())
}

/// Stops the test if the address of an identifier is not this one.
fn means(
    rt: &impl Abort,
    alloc: Global,
    tree: &Node,
    identifier: &str,
    want: Option<&str>,
) -> Result<(), AllocError> {
    let found = definition_of(alloc, tree, identifier)?;
    same(rt, found.map(|node| node.url.as_str()), want);
    Ok(())
}

#[test]
fn the_first_definition_counts(rt: HostRuntime) -> Result<(), AllocError> {
    let tree = read(rt.alloc(), "> [b]: c\n\n[a]: d\n[b]: e\n")?;
    means(&rt, rt.alloc(), &tree, "a", Some("d"))?;
    means(&rt, rt.alloc(), &tree, "b", Some("c"))?;
    means(&rt, rt.alloc(), &tree, "A", None)
}

#[test]
fn outline_of_a_document(rt: HostRuntime) -> Result<(), AllocError> {
    let tree = read(rt.alloc(), "# Use\n\n> ### *Events*\n\nA\nb\n---\n")?;
    let want = "Use (1:1)\n    Events (3:3)\n  A b (5:1)\n";
    says(&rt, outline(rt.alloc(), &tree), want)
}

/// Returns a heading with a depth that no document produces, and without a position.
fn heading(alloc: Global) -> Result<Node, AllocError> {
    Ok(Node::Heading(Heading {
        children: alone(alloc, text(alloc, "a"))?,
        position: None,
        depth: 0,
    }))
}

#[test]
fn outline_of_a_heading_made_by_hand(rt: HostRuntime) -> Result<(), AllocError> {
    says(&rt, outline(rt.alloc(), &heading(rt.alloc())?), "a\n")
}

/// A document with each construct that has text, frontmatter, HTML and a definition.
const DOCUMENT: &str =
    "---\na\n---\n\n| b | c |\n| - | - |\n| d |   |\n\n```\ne\n\nf\n```\n\n$$\ng\n$$\n\n> `h`\\\n> <i>$j$ ![k](l) ![m]\n\n<div>\n\n[m]: n\n\n# o\n";

#[test]
fn text_of_a_document(rt: HostRuntime) -> Result<(), AllocError> {
    let tree = read(rt.alloc(), DOCUMENT)?;
    let want = "b\nc\nd\n\ne\n\nf\ng\nh\nj k m\no\n";
    says(&rt, plain_text(rt.alloc(), &tree), want)?;
    let line = read(rt.alloc(), "# Hi *Earth*!\n\nNext")?;
    says(&rt, plain_text(rt.alloc(), &line), "Hi Earth!\nNext\n")?;
    says(&rt, plain_text(rt.alloc(), &root(Vec::new(rt.alloc()))), "")
}
