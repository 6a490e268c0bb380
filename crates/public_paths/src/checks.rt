//! The checks of a tree.

use crate::expect::holds;
use markdown_nodes::mdast::{FootnoteReference, Heading, Node};
use mdast_check::walk::Walk;
use mdast_check::warnings::{Problem, warnings};
use mdast_check::{Open, OpenKind, Title, headings, open_references};
use std::alloc::{AllocError, Global};

/// Returns a heading without children.
fn heading(alloc: Global) -> Node {
    Node::Heading(Heading {
        children: Vec::new(alloc),
        position: None,
        depth: 1,
    })
}

#[test]
fn a_heading_gives_a_title(rt: HostRuntime) -> Result<(), AllocError> {
    let title = Title {
        depth: 1,
        text: String::new(rt.alloc()),
    };
    let found = headings(rt.alloc(), &heading(rt.alloc()))?;
    holds(&rt, found.first() == Some(&title));
    Ok(())
}

/// Returns a reference to the footnote `a`.
fn footnote_reference(alloc: Global) -> Result<Node, AllocError> {
    Ok(Node::FootnoteReference(FootnoteReference {
        position: None,
        identifier: String::from_str(alloc, "a")?,
        label: None,
    }))
}

#[test]
fn a_reference_without_a_definition_is_open(rt: HostRuntime) -> Result<(), AllocError> {
    let open = Open {
        kind: OpenKind::Footnote,
        identifier: String::from_str(rt.alloc(), "a")?,
        position: None,
    };
    let found = open_references(rt.alloc(), &footnote_reference(rt.alloc())?)?;
    holds(&rt, found.first() == Some(&open));
    Ok(())
}

#[test]
fn a_reference_without_a_definition_is_warned_of(rt: HostRuntime) -> Result<(), AllocError> {
    let found = warnings(rt.alloc(), &footnote_reference(rt.alloc())?)?;
    let problem = Problem::ReferenceUndefined {
        kind: OpenKind::Footnote,
        identifier: String::from_str(rt.alloc(), "a")?,
    };
    holds(
        &rt,
        found
            .first()
            .is_some_and(|warning| warning.problem == problem),
    );
    Ok(())
}

#[test]
fn a_walk_begins_at_its_node(rt: HostRuntime) -> Result<(), AllocError> {
    let node = heading(rt.alloc());
    let mut walk = Walk::new(rt.alloc(), &node);
    holds(&rt, walk.next()? == Some(&node));
    holds(&rt, walk.next()?.is_none());
    Ok(())
}
