//! The eight kinds with a value.

use super::{carried, has_children};
use crate::trees::own;
use markdown_nodes::mdast;
use markdown_nodes::mdast::Node;
use std::alloc::AllocError;
use std::process::Abort;

/// Checks a node with the value `a`.
fn literal<R: Abort + AllocGlobal>(
    rt: &R,
    mut node: Node,
    prefix: &str,
    back: &str,
) -> Result<(), AllocError> {
    has_children(rt, &mut node, None, prefix);
    carried(rt, rt.alloc(), &mut node, "a", prefix, back)
}

#[test]
fn text(rt: HostRuntime) -> Result<(), AllocError> {
    let node = Node::Text(mdast::Text {
        value: own(rt.alloc(), "a")?,
        position: None,
    });
    literal(&rt, node, "Text { value: \"a\", ", " }")
}

#[test]
fn inline_code(rt: HostRuntime) -> Result<(), AllocError> {
    let node = Node::InlineCode(mdast::InlineCode {
        value: own(rt.alloc(), "a")?,
        position: None,
    });
    literal(&rt, node, "InlineCode { value: \"a\", ", " }")
}

#[test]
fn code(rt: HostRuntime) -> Result<(), AllocError> {
    let node = Node::Code(mdast::Code {
        value: own(rt.alloc(), "a")?,
        position: None,
        lang: None,
        meta: None,
    });
    literal(
        &rt,
        node,
        "Code { value: \"a\", ",
        ", lang: None, meta: None }",
    )
}

#[test]
fn inline_math(rt: HostRuntime) -> Result<(), AllocError> {
    let node = Node::InlineMath(mdast::InlineMath {
        value: own(rt.alloc(), "a")?,
        position: None,
    });
    literal(&rt, node, "InlineMath { value: \"a\", ", " }")
}

#[test]
fn math(rt: HostRuntime) -> Result<(), AllocError> {
    let node = Node::Math(mdast::Math {
        value: own(rt.alloc(), "a")?,
        position: None,
        meta: None,
    });
    literal(&rt, node, "Math { value: \"a\", ", ", meta: None }")
}

#[test]
fn html(rt: HostRuntime) -> Result<(), AllocError> {
    let node = Node::Html(mdast::Html {
        value: own(rt.alloc(), "a")?,
        position: None,
    });
    literal(&rt, node, "Html { value: \"a\", ", " }")
}

#[test]
fn toml(rt: HostRuntime) -> Result<(), AllocError> {
    let node = Node::Toml(mdast::Toml {
        value: own(rt.alloc(), "a")?,
        position: None,
    });
    literal(&rt, node, "Toml { value: \"a\", ", " }")
}

#[test]
fn yaml(rt: HostRuntime) -> Result<(), AllocError> {
    let node = Node::Yaml(mdast::Yaml {
        value: own(rt.alloc(), "a")?,
        position: None,
    });
    literal(&rt, node, "Yaml { value: \"a\", ", " }")
}
