//! The six kinds with neither children nor a value.

use super::{carried, has_children};
use crate::trees::own;
use markdown_nodes::mdast;
use markdown_nodes::mdast::{Node, ReferenceKind};
use std::alloc::AllocError;
use std::process::Abort;

/// Checks a node with neither children nor a value.
fn void<R: Abort + AllocGlobal>(
    rt: &R,
    mut node: Node,
    prefix: &str,
    back: &str,
) -> Result<(), AllocError> {
    has_children(rt, &mut node, None, prefix);
    carried(rt, rt.alloc(), &mut node, "", prefix, back)
}

#[test]
fn break_node(rt: HostRuntime) -> Result<(), AllocError> {
    let node = Node::Break(mdast::Break { position: None });
    void(&rt, node, "Break { ", " }")
}

#[test]
fn thematic_break(rt: HostRuntime) -> Result<(), AllocError> {
    let node = Node::ThematicBreak(mdast::ThematicBreak { position: None });
    void(&rt, node, "ThematicBreak { ", " }")
}

#[test]
fn footnote_reference(rt: HostRuntime) -> Result<(), AllocError> {
    let node = Node::FootnoteReference(mdast::FootnoteReference {
        position: None,
        identifier: own(rt.alloc(), "a")?,
        label: Some(own(rt.alloc(), "b")?),
    });
    void(
        &rt,
        node,
        "FootnoteReference { ",
        ", identifier: \"a\", label: Some(\"b\") }",
    )
}

#[test]
fn image_reference(rt: HostRuntime) -> Result<(), AllocError> {
    let node = Node::ImageReference(mdast::ImageReference {
        position: None,
        alt: own(rt.alloc(), "a")?,
        reference_kind: ReferenceKind::Full,
        identifier: own(rt.alloc(), "b")?,
        label: Some(own(rt.alloc(), "c")?),
    });
    void(
        &rt,
        node,
        "ImageReference { ",
        ", alt: \"a\", reference_kind: Full, identifier: \"b\", label: Some(\"c\") }",
    )
}

#[test]
fn image(rt: HostRuntime) -> Result<(), AllocError> {
    let node = Node::Image(mdast::Image {
        position: None,
        alt: own(rt.alloc(), "a")?,
        url: own(rt.alloc(), "b")?,
        title: None,
    });
    void(
        &rt,
        node,
        "Image { ",
        ", alt: \"a\", url: \"b\", title: None }",
    )
}

#[test]
fn definition(rt: HostRuntime) -> Result<(), AllocError> {
    let node = Node::Definition(mdast::Definition {
        position: None,
        url: own(rt.alloc(), "b")?,
        title: None,
        identifier: own(rt.alloc(), "a")?,
        label: None,
    });
    void(
        &rt,
        node,
        "Definition { ",
        ", url: \"b\", title: None, identifier: \"a\", label: None }",
    )
}
