//! What is wrong in trees, and how it is printed. The trees and the lines are written by hand.

use crate::expect::{same, says};
use crate::trees::{add, alone, blockquote, own, root, text};
use markdown_nodes::mdast;
use markdown_nodes::mdast::{Node, ReferenceKind};
use markdown_nodes::unist::Position;
use mdast_check::warnings::{Problem, Warning, warnings};
use std::alloc::{AllocError, Global};
use std::process::Abort;

/// Returns a heading without text.
fn heading(alloc: Global, depth: u8) -> Result<Node, AllocError> {
    Ok(Node::Heading(mdast::Heading {
        children: Vec::new(alloc),
        position: None,
        depth,
    }))
}

/// Returns a root of headings of these depths.
fn headings(alloc: Global, depths: &[u8]) -> Result<Node, AllocError> {
    let mut nodes = Vec::new(alloc);
    for depth in depths {
        add(&mut nodes, heading(alloc, *depth))?;
    }
    Ok(root(nodes))
}

/// Returns a link of these nodes.
fn link(alloc: Global, url: &str, children: Vec<Node>) -> Result<Node, AllocError> {
    Ok(Node::Link(mdast::Link {
        children,
        position: None,
        url: own(alloc, url)?,
        title: None,
    }))
}

/// Returns a link by reference of these nodes.
fn reference(alloc: Global, identifier: &str, children: Vec<Node>) -> Result<Node, AllocError> {
    Ok(Node::LinkReference(mdast::LinkReference {
        children,
        position: None,
        reference_kind: ReferenceKind::Full,
        identifier: own(alloc, identifier)?,
        label: None,
    }))
}

/// Returns a link by reference of the text `t`.
fn shown(alloc: Global, identifier: &str) -> Result<Node, AllocError> {
    reference(alloc, identifier, alone(alloc, text(alloc, "t"))?)
}

/// Returns an image with this alternative text.
fn image(alloc: Global, alt: &str) -> Result<Node, AllocError> {
    Ok(Node::Image(mdast::Image {
        position: None,
        alt: own(alloc, alt)?,
        url: own(alloc, "u")?,
        title: None,
    }))
}

/// Returns an image by reference with this alternative text.
fn image_reference(alloc: Global, identifier: &str, alt: &str) -> Result<Node, AllocError> {
    Ok(Node::ImageReference(mdast::ImageReference {
        position: None,
        alt: own(alloc, alt)?,
        reference_kind: ReferenceKind::Full,
        identifier: own(alloc, identifier)?,
        label: None,
    }))
}

/// Returns a call of a footnote.
fn call(alloc: Global, identifier: &str) -> Result<Node, AllocError> {
    Ok(Node::FootnoteReference(mdast::FootnoteReference {
        position: None,
        identifier: own(alloc, identifier)?,
        label: None,
    }))
}

/// Returns a definition with the address `u`.
fn definition(alloc: Global, identifier: &str) -> Result<Node, AllocError> {
    Ok(Node::Definition(mdast::Definition {
        position: None,
        url: own(alloc, "u")?,
        title: None,
        identifier: own(alloc, identifier)?,
        label: None,
    }))
}

/// Returns a footnote of these nodes.
fn footnote(alloc: Global, identifier: &str, children: Vec<Node>) -> Result<Node, AllocError> {
    Ok(Node::FootnoteDefinition(mdast::FootnoteDefinition {
        children,
        position: None,
        identifier: own(alloc, identifier)?,
        label: None,
    }))
}

/// Returns the lines of warnings.
fn lines(alloc: Global, found: &[Warning]) -> Result<String, AllocError> {
    let mut text = String::new(alloc);
    for warning in found {
        text.push_str(format!(in alloc; "{warning}\n")?.as_str())?;
    }
    Ok(text)
}

/// Expects the warnings about a tree to be printed like this.
fn warns(rt: &impl Abort, alloc: Global, tree: &Node, want: &str) -> Result<(), AllocError> {
    let found = warnings(alloc, tree)?;
    says(rt, lines(alloc, &found), want)
}

/// A heading may be one deeper than the one before, and any number less deep.
#[test]
fn headings_that_jump(rt: HostRuntime) -> Result<(), AllocError> {
    let tree = headings(rt.alloc(), &[3, 1, 3, 4, 2, 4, 1, 2, 2, 6])?;
    warns(
        &rt,
        rt.alloc(),
        &tree,
        "warning: heading of depth 3 after one of depth 1 (heading-jump)\n\
         warning: heading of depth 4 after one of depth 2 (heading-jump)\n\
         warning: heading of depth 6 after one of depth 2 (heading-jump)\n",
    )
}

/// In a tree made by hand a depth is any byte.
#[test]
fn headings_of_any_depth(rt: HostRuntime) -> Result<(), AllocError> {
    let tree = headings(rt.alloc(), &[255, 255, 0, 1, 0, 255])?;
    warns(
        &rt,
        rt.alloc(),
        &tree,
        "warning: heading of depth 255 after one of depth 0 (heading-jump)\n",
    )
}

/// Returns a root of a block quote of a heading of depth 1, and then a heading of depth 3.
fn quoted_heading(alloc: Global) -> Result<Node, AllocError> {
    let mut nodes = Vec::new(alloc);
    add(&mut nodes, Ok(blockquote(alone(alloc, heading(alloc, 1))?)))?;
    add(&mut nodes, heading(alloc, 3))?;
    Ok(root(nodes))
}

#[test]
fn a_heading_in_a_block_quote_stands_before(rt: HostRuntime) -> Result<(), AllocError> {
    let tree = quoted_heading(rt.alloc())?;
    warns(
        &rt,
        rt.alloc(),
        &tree,
        "warning: heading of depth 3 after one of depth 1 (heading-jump)\n",
    )
}

/// Returns references to `a`, `b` and `c`, and then a definition of `a` and a footnote `b`.
fn references(alloc: Global) -> Result<Node, AllocError> {
    let mut nodes = Vec::new(alloc);
    add(&mut nodes, shown(alloc, "a"))?;
    add(&mut nodes, shown(alloc, "b"))?;
    add(&mut nodes, image_reference(alloc, "b", "t"))?;
    add(&mut nodes, call(alloc, "a"))?;
    add(&mut nodes, call(alloc, "b"))?;
    add(&mut nodes, definition(alloc, "a"))?;
    add(&mut nodes, footnote(alloc, "b", Vec::new(alloc)))?;
    Ok(root(nodes))
}

#[test]
fn references_that_nothing_defines(rt: HostRuntime) -> Result<(), AllocError> {
    let tree = references(rt.alloc())?;
    warns(
        &rt,
        rt.alloc(),
        &tree,
        "warning: nothing defines the link \"b\" (reference-undefined)\n\
         warning: nothing defines the image \"b\" (reference-undefined)\n\
         warning: nothing defines the footnote \"a\" (reference-undefined)\n",
    )
}

/// Returns definitions of `a` twice and of `b`, footnotes `a` twice and `b`, and then an image of
/// `b` and, in a footnote `c`, a call of `c`.
fn definitions(alloc: Global) -> Result<Node, AllocError> {
    let mut nodes = Vec::new(alloc);
    add(&mut nodes, definition(alloc, "a"))?;
    add(&mut nodes, footnote(alloc, "a", Vec::new(alloc)))?;
    add(&mut nodes, definition(alloc, "b"))?;
    add(&mut nodes, definition(alloc, "a"))?;
    add(&mut nodes, footnote(alloc, "a", Vec::new(alloc)))?;
    add(&mut nodes, footnote(alloc, "b", Vec::new(alloc)))?;
    add(&mut nodes, image_reference(alloc, "b", "t"))?;
    add(
        &mut nodes,
        footnote(alloc, "c", alone(alloc, call(alloc, "c"))?),
    )?;
    Ok(root(nodes))
}

#[test]
fn definitions_that_nothing_needs(rt: HostRuntime) -> Result<(), AllocError> {
    let tree = definitions(rt.alloc())?;
    warns(
        &rt,
        rt.alloc(),
        &tree,
        "warning: nothing refers to the definition \"a\" (definition-unused)\n\
         warning: nothing calls the footnote \"a\" (footnote-unused)\n\
         warning: nothing refers to the definition \"a\" (definition-unused)\n\
         warning: \"a\" is defined before (definition-duplicate)\n\
         warning: nothing calls the footnote \"a\" (footnote-unused)\n\
         warning: \"a\" is defined before (definition-duplicate)\n\
         warning: nothing calls the footnote \"b\" (footnote-unused)\n",
    )
}

/// Returns a link to nowhere without text, one to nowhere with text, one to `u` without text, one
/// of an empty text in a block quote, one of an image with an alternative text, one of an image
/// without one, and one by reference without text.
fn links(alloc: Global) -> Result<Node, AllocError> {
    let mut nodes = Vec::new(alloc);
    add(&mut nodes, link(alloc, "", Vec::new(alloc)))?;
    add(&mut nodes, link(alloc, "", alone(alloc, text(alloc, "t"))?))?;
    add(&mut nodes, link(alloc, "u", Vec::new(alloc)))?;
    let empty = alone(alloc, Ok(blockquote(alone(alloc, text(alloc, ""))?)))?;
    add(&mut nodes, link(alloc, "u", empty))?;
    add(
        &mut nodes,
        link(alloc, "u", alone(alloc, image(alloc, "t"))?),
    )?;
    add(
        &mut nodes,
        link(alloc, "u", alone(alloc, image(alloc, ""))?),
    )?;
    add(&mut nodes, reference(alloc, "a", Vec::new(alloc)))?;
    Ok(root(nodes))
}

#[test]
fn links_and_images_that_are_empty(rt: HostRuntime) -> Result<(), AllocError> {
    let tree = links(rt.alloc())?;
    warns(
        &rt,
        rt.alloc(),
        &tree,
        "warning: the link has no address (link-empty)\n\
         warning: the link has no address (link-empty)\n\
         warning: the link has no text (link-empty)\n\
         warning: the link has no text (link-empty)\n\
         warning: the link has no text (link-empty)\n\
         warning: the image has no alternative text (image-without-alt)\n\
         warning: nothing defines the link \"a\" (reference-undefined)\n\
         warning: the link has no text (link-empty)\n",
    )
}

/// Returns a link of a link without text and of a text beside it.
fn link_beside_text(alloc: Global) -> Result<Node, AllocError> {
    let mut nodes = Vec::new(alloc);
    add(&mut nodes, link(alloc, "u", Vec::new(alloc)))?;
    add(&mut nodes, text(alloc, "t"))?;
    add(&mut nodes, link(alloc, "", Vec::new(alloc)))?;
    link(alloc, "u", nodes)
}

/// Text counts for the links around it, and for none beside it.
#[test]
fn links_in_a_link(rt: HostRuntime) -> Result<(), AllocError> {
    let tree = link_beside_text(rt.alloc())?;
    warns(
        &rt,
        rt.alloc(),
        &tree,
        "warning: the link has no text (link-empty)\n\
         warning: the link has no address (link-empty)\n",
    )
}

/// Returns an image by reference without an alternative text, at a place.
fn placed_image(alloc: Global, identifier: &str) -> Result<Node, AllocError> {
    let mut image = image_reference(alloc, identifier, "")?;
    image.position_set(Some(Position::new(3, 5, 20, 4, 1, 27)));
    Ok(image)
}

/// A warning begins with the line and the column where its node starts.
#[test]
fn warnings_with_a_position(rt: HostRuntime) -> Result<(), AllocError> {
    let tree = placed_image(rt.alloc(), "a")?;
    warns(
        &rt,
        rt.alloc(),
        &tree,
        "3:5: warning: nothing defines the image \"a\" (reference-undefined)\n\
         3:5: warning: the image has no alternative text (image-without-alt)\n",
    )
}

/// An identifier is on one line, whatever its characters.
#[test]
fn identifiers_in_one_line(rt: HostRuntime) -> Result<(), AllocError> {
    let tree = call(
        rt.alloc(),
        "a\"b\\c\r\nd\te\u{1b}f\u{7f}g\u{85}h\u{2028}i\u{2029}\u{e9}\u{1f600}",
    )?;
    warns(
        &rt,
        rt.alloc(),
        &tree,
        "warning: nothing defines the footnote \"a\"b\\c  d e f g h i \u{e9}\u{1f600}\" (reference-undefined)\n",
    )
}

/// Programs use the rule.
#[test]
fn rules_of_problems(rt: HostRuntime) {
    same(&rt, Problem::LinkWithoutAddress.rule(), "link-empty");
    same(&rt, Problem::LinkWithoutText.rule(), "link-empty");
    same(&rt, Problem::ImageWithoutAlt.rule(), "image-without-alt");
}

/// The number of nested links.
const LEVELS: usize = 100_000;

/// Returns a node in nested links to `u`.
fn linked(alloc: Global, node: Node) -> Result<Node, AllocError> {
    let mut node = node;
    for _ in 0..LEVELS {
        node = link(alloc, "u", alone(alloc, Ok(node))?)?;
    }
    Ok(node)
}

/// A text at the innermost level counts for all links around it.
#[test]
fn a_hundred_thousand_links(rt: HostRuntime) -> Result<(), AllocError> {
    let tree = linked(rt.alloc(), text(rt.alloc(), "t")?)?;
    same(&rt, warnings(rt.alloc(), &tree)?.len(), 0);
    let tree = linked(rt.alloc(), text(rt.alloc(), "")?)?;
    same(&rt, warnings(rt.alloc(), &tree)?.len(), LEVELS);
    Ok(())
}
