//! The first example program: `table_of_contents FILE..` prints the table of contents of each
//! markdown file.
//!
//! It prints one line for each heading, at any depth of the tree, below the heading that it belongs
//! to.
#![tactic(auto)]

use markdown::mdast::{Heading, Node};
use markdown::{ParseOptions, Walk, to_mdast};
use std::alloc::{AllocError, Global};
use std::{env, fs, io};

fn main(rt: HostRuntime) -> io::Result<()> {
    let alloc = rt.alloc();
    for name in env::args(&rt)?.skip(1) {
        let text = fs::read_to_string(&rt, name.as_str())?;
        let tree = to_mdast(alloc, text.as_str(), &ParseOptions::gfm())?;
        rt.print(table_of_contents(alloc, &tree)?)?;
    }
    Ok(())
}

/// Returns one line for each heading of a tree.
fn table_of_contents(alloc: Global, tree: &Node) -> Result<String, AllocError> {
    let mut lines = String::new(alloc);
    let mut walk = Walk::new(alloc, tree);
    while let Some(node) = walk.next()? {
        if let Node::Heading(heading) = node {
            add_line(alloc, node, heading, &mut lines)?;
        }
    }
    Ok(lines)
}

/// Appends the line of a heading: two spaces for each level above it, and its plain text.
fn add_line(
    alloc: Global,
    node: &Node,
    heading: &Heading,
    lines: &mut String,
) -> Result<(), AllocError> {
    for _ in 1..heading.depth {
        lines.push_str("  ")?;
    }
    lines.push_str("- ")?;
    lines.push_str(node.to_string(alloc)?.as_str())?;
    lines.push_str("\n")
}
