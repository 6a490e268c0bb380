//! The second example program: `links FILE..` prints the links of each markdown file, with their
//! places and addresses.
//!
//! A link by reference has the address of the definition that it refers to.
#![tactic(auto)]

use markdown::mdast::Node;
use markdown::{ParseOptions, Walk, to_mdast};
use std::alloc::{AllocError, Global};
use std::collections::BTreeMap;
use std::{env, fs, io};

fn main(rt: HostRuntime) -> io::Result<()> {
    for name in env::args(&rt)?.skip(1) {
        let text = fs::read_to_string(&rt, name.as_str())?;
        let tree = to_mdast(rt.alloc(), text.as_str(), &ParseOptions::gfm())?;
        rt.print(links(rt.alloc(), name.as_str(), &tree)?)?;
    }
    Ok(())
}

/// Returns one line for each link of a tree: the name of the document, the line of the link, its
/// text and its address.
fn links(alloc: Global, name: &str, tree: &Node) -> Result<String, AllocError> {
    let defined = defined(alloc, tree)?;
    let mut lines = String::new(alloc);
    let mut walk = Walk::new(alloc, tree);
    while let Some(node) = walk.next()? {
        if let Some(url) = url(&defined, node) {
            let line = node.position().map_or(0, |position| position.start.line);
            let text = node.to_string(alloc)?;
            lines.push_str(format!(in alloc; "{name}:{line}: {text} -> {url}\n")?.as_str())?;
        }
    }
    Ok(lines)
}

/// Returns the addresses that a tree defines, by identifier. The first definition of an identifier
/// counts.
fn defined<'a>(alloc: Global, tree: &'a Node) -> Result<BTreeMap<&'a str, &'a str>, AllocError> {
    let mut urls = BTreeMap::new(alloc);
    let mut walk = Walk::new(alloc, tree);
    while let Some(node) = walk.next()? {
        if let Node::Definition(definition) = node {
            urls.entry(definition.identifier.as_str())?
                .or_insert(definition.url.as_str());
        }
    }
    Ok(urls)
}

/// Returns the address of a link, and `None` for any other node.
fn url<'a>(defined: &BTreeMap<&'a str, &'a str>, node: &'a Node) -> Option<&'a str> {
    match node {
        Node::Link(link) => Some(link.url.as_str()),
        Node::LinkReference(link) => defined.get(link.identifier.as_str()).copied(),
        _ => None,
    }
}
