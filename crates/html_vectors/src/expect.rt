//! The comparisons of the tests.

use markdown::{Constructs, ParseOptions, to_mdast};
use markdown_html::{HtmlOptions, to_html};
use markdown_nodes::mdast::Node;
use std::alloc::{AllocError, Global};
use std::process::Abort;

/// Stops the test if a text is not the expected one.
pub fn same(rt: &impl Abort, found: &str, want: &str) {
    assert_eq!(rt; found, want);
}

/// Stops the test if the page of a document, read with all constructs, is not the expected one.
pub fn shows(rt: &impl Abort, alloc: Global, document: &str, page: &str) -> Result<(), AllocError> {
    let options = ParseOptions {
        constructs: Constructs::everything(),
        ..ParseOptions::gfm()
    };
    let tree = to_mdast(alloc, document, &options)?;
    writes(rt, alloc, &tree, page)
}

/// Stops the test if the page of a tree is not the expected one.
pub fn writes(rt: &impl Abort, alloc: Global, tree: &Node, page: &str) -> Result<(), AllocError> {
    let found = to_html(alloc, tree, &HtmlOptions::default())?;
    same(rt, found.as_str(), page);
    Ok(())
}
