//! The findings in trees that no list of events produces. A reference to a link or an image is
//! answered by a definition, one to a footnote by a footnote definition. The cases of `forms.txt`
//! have more.

use crate::expect::{prints, same};
use crate::trees::{add, alone, blockquote, own, quoted, root, text};
use markdown_nodes::mdast;
use markdown_nodes::mdast::{Node, ReferenceKind};
use mdast_check::outline::{depth, headings};
use mdast_check::references::{Open, open_references};
use std::alloc::{AllocError, Global};
use std::process::Abort;

fn heading(depth: u8, children: Vec<Node>) -> Node {
    Node::Heading(mdast::Heading {
        children,
        position: None,
        depth,
    })
}

/// Returns a link by reference, with no text.
fn link(alloc: Global, identifier: &str) -> Result<Node, AllocError> {
    Ok(Node::LinkReference(mdast::LinkReference {
        children: Vec::new(alloc),
        position: None,
        reference_kind: ReferenceKind::Shortcut,
        identifier: own(alloc, identifier)?,
        label: None,
    }))
}

/// Returns an image by reference, with the alternative text `b`.
fn image(alloc: Global, identifier: &str) -> Result<Node, AllocError> {
    Ok(Node::ImageReference(mdast::ImageReference {
        position: None,
        alt: own(alloc, "b")?,
        reference_kind: ReferenceKind::Full,
        identifier: own(alloc, identifier)?,
        label: None,
    }))
}

/// Returns a reference to a footnote.
fn footnote(alloc: Global, identifier: &str) -> Result<Node, AllocError> {
    Ok(Node::FootnoteReference(mdast::FootnoteReference {
        position: None,
        identifier: own(alloc, identifier)?,
        label: None,
    }))
}

/// Returns a definition with the address `b`.
fn definition(alloc: Global, identifier: &str) -> Result<Node, AllocError> {
    Ok(Node::Definition(mdast::Definition {
        position: None,
        url: own(alloc, "b")?,
        title: None,
        identifier: own(alloc, identifier)?,
        label: None,
    }))
}

/// Expects the open references of a tree to be printed like this.
fn opens(rt: &impl Abort, alloc: Global, tree: &Node, want: &str) -> Result<(), AllocError> {
    let found = open_references(alloc, tree)?;
    prints(rt, alloc, &found, want)
}

/// Expects the headings of a tree to be printed like this.
fn lists(rt: &impl Abort, alloc: Global, tree: &Node, want: &str) -> Result<(), AllocError> {
    let found = headings(alloc, tree)?;
    prints(rt, alloc, &found, want)
}

/// A tree may be a single node of any kind.
#[test]
fn trees_of_one_node(rt: HostRuntime) -> Result<(), AllocError> {
    let empty = root(Vec::new(rt.alloc()));
    opens(&rt, rt.alloc(), &empty, "[]")?;
    lists(&rt, rt.alloc(), &empty, "[]")?;
    let alone = heading(0, Vec::new(rt.alloc()));
    lists(&rt, rt.alloc(), &alone, "[Title { depth: 0, text: \"\" }]")?;
    let reference = footnote(rt.alloc(), "a")?;
    opens(
        &rt,
        rt.alloc(),
        &reference,
        "[Open { kind: Footnote, identifier: \"a\", position: None }]",
    )
}

/// A heading has its depth, and no other node has one.
#[test]
fn depths(rt: HostRuntime) -> Result<(), AllocError> {
    let second = heading(2, Vec::new(rt.alloc()));
    same(&rt, depth(&second), Some(2));
    same(&rt, depth(&text(rt.alloc(), "a")?), None);
    Ok(())
}

/// Returns a root of a link to `a` and a definition of `A`.
fn capital(alloc: Global) -> Result<Node, AllocError> {
    let mut nodes = Vec::new(alloc);
    add(&mut nodes, link(alloc, "a"))?;
    add(&mut nodes, definition(alloc, "A"))?;
    Ok(root(nodes))
}

/// Identifiers are compared unchanged: those of mdast are already normalized.
#[test]
fn identifiers_in_capitals(rt: HostRuntime) -> Result<(), AllocError> {
    let tree = capital(rt.alloc())?;
    opens(
        &rt,
        rt.alloc(),
        &tree,
        "[Open { kind: Link, identifier: \"a\", position: None }]",
    )
}

/// Returns the digits of a number.
fn digits(alloc: Global, number: u32) -> Result<String, AllocError> {
    format!(in alloc; "{number}")
}

/// Appends a link to a number, and its definition if it is a multiple of three.
fn add_number(alloc: Global, nodes: &mut Vec<Node>, number: u32) -> Result<(), AllocError> {
    let identifier = digits(alloc, number)?;
    add(nodes, link(alloc, identifier.as_str()))?;
    if number % 3 != 0 {
        return Ok(());
    }
    add(nodes, definition(alloc, identifier.as_str()))
}

/// Returns a root of links to a hundred identifiers, and definitions of those that are a multiple
/// of three.
fn hundred(alloc: Global) -> Result<Node, AllocError> {
    let mut nodes = Vec::new(alloc);
    for number in 0..100 {
        add_number(alloc, &mut nodes, number)?;
    }
    Ok(root(nodes))
}

/// Stops the test if this open reference is not to this number.
fn is_to(
    rt: &impl Abort,
    alloc: Global,
    open: Option<&Open>,
    number: u32,
) -> Result<(), AllocError> {
    let want = digits(alloc, number)?;
    let found = open.map(|open| open.identifier.as_str());
    same(rt, found, Some(want.as_str()));
    Ok(())
}

/// Of a hundred identifiers, those that are not multiples of three are missing.
#[test]
fn a_hundred_identifiers(rt: HostRuntime) -> Result<(), AllocError> {
    let tree = hundred(rt.alloc())?;
    let found = open_references(rt.alloc(), &tree)?;
    same(&rt, found.len(), 66);
    let mut numbers = found.iter();
    for number in 0..100 {
        if number % 3 != 0 {
            is_to(&rt, rt.alloc(), numbers.next(), number)?;
        }
    }
    Ok(())
}

/// The number of nested block quotes.
const LEVELS: usize = 100_000;

/// Returns a block quote of a heading of the text `a` and an image of `b`.
fn titled(alloc: Global) -> Result<Node, AllocError> {
    let mut nodes = Vec::new(alloc);
    add(&mut nodes, Ok(heading(6, alone(alloc, text(alloc, "a"))?)))?;
    add(&mut nodes, image(alloc, "b"))?;
    Ok(blockquote(nodes))
}

/// Returns a root of that in nested block quotes, a link to `c` and a definition of `b`.
fn levels(alloc: Global) -> Result<Node, AllocError> {
    let mut nodes = Vec::new(alloc);
    add(&mut nodes, quoted(alloc, titled(alloc)?, LEVELS))?;
    add(&mut nodes, link(alloc, "c"))?;
    add(&mut nodes, definition(alloc, "b"))?;
    Ok(root(nodes))
}

#[test]
fn a_hundred_thousand_levels(rt: HostRuntime) -> Result<(), AllocError> {
    let tree = levels(rt.alloc())?;
    opens(
        &rt,
        rt.alloc(),
        &tree,
        "[Open { kind: Link, identifier: \"c\", position: None }]",
    )?;
    lists(&rt, rt.alloc(), &tree, "[Title { depth: 6, text: \"a\" }]")
}
