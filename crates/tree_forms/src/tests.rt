//! Tests of the forms of a tree, over trees that are made by hand, without positions. The texts are
//! worked out by hand: the drawn lines are those of unist-util-inspect, the pages those of
//! mdast-util-to-hast.

use crate::error::WriteError;
use crate::form::{Asked, TreeForm};
use crate::written::write_tree;
use markdown_nodes::mdast::{Blockquote, Link, Node, Paragraph, Root, Text};
use std::alloc::{AllocError, Global};
use std::io::{self, ErrorKind, Write};
use std::process::Abort;

/// Forms, and what is written in each for a paragraph with a link without an address, whose text is
/// `a`.
static WRITTEN: [(TreeForm, &str); 10] = [
    (
        TreeForm::Json,
        "{\"type\":\"root\",\"children\":[{\"type\":\"paragraph\",\"children\":[{\"type\":\"link\",\"title\":null,\"url\":\"\",\"children\":[{\"type\":\"text\",\"value\":\"a\"}]}]}]}\n",
    ),
    (
        TreeForm::JsonUtf16,
        "{\"type\":\"root\",\"children\":[{\"type\":\"paragraph\",\"children\":[{\"type\":\"link\",\"title\":null,\"url\":\"\",\"children\":[{\"type\":\"text\",\"value\":\"a\"}]}]}]}\n",
    ),
    (
        TreeForm::Drawn,
        "root[1]\n└─0 paragraph[1]\n    └─0 link[1] url: \"\"\n        └─0 text \"a\"\n",
    ),
    (
        TreeForm::Debug,
        "Root { children: [Paragraph { children: [Link { children: [Text { value: \"a\", position: None }], position: None, url: \"\", title: None }], position: None }], position: None }\n",
    ),
    (TreeForm::Outline, ""),
    (TreeForm::PlainText, "a\n"),
    (TreeForm::Html, "<p><a href=\"\">a</a></p>\n"),
    (TreeForm::UnsafeHtml, "<p><a href=\"\">a</a></p>\n"),
    (TreeForm::FilteredHtml, "<p><a href=\"\">a</a></p>\n"),
    (
        TreeForm::Warnings,
        "DOC:warning: the link has no address (link-empty)\n",
    ),
];

#[test]
fn writes_each_form(rt: HostRuntime) -> Result<(), AllocError> {
    let alloc = rt.alloc();
    let tree = root(alloc, paragraph(alloc, link(alloc, text(alloc)?)?)?)?;
    for (form, want) in &WRITTEN {
        let mut output = Vec::new(alloc);
        match write_tree(alloc, "[a]()", &tree, &asked(*form), &mut output) {
            Ok(is_clean) => {
                assert_eq!(rt; is_clean, *form != TreeForm::Warnings);
                assert_eq!(rt; output.as_slice(), want.as_bytes());
            }
            Err(WriteError::Memory) => return Err(AllocError),
            Err(WriteError::Output(_)) => assert!(rt; false, "{form:?} is not written"),
        }
    }
    Ok(())
}

/// A writer that is closed.
#[derive(Drop)]
struct Closed;

impl Write for Closed {
    fn write(&mut self, _bytes: &[u8]) -> io::Result<usize> {
        Err(io::Error::from(ErrorKind::BrokenPipe))
    }

    fn flush(&mut self) -> io::Result<()> {
        Ok(())
    }
}

#[test]
fn says_why_it_is_not_written(rt: HostRuntime) -> Result<(), AllocError> {
    let alloc = rt.alloc();
    let tree = root(alloc, paragraph(alloc, text(alloc)?)?)?;
    for (form, want) in &WRITTEN {
        let is_unwritten = match write_tree(alloc, "a", &tree, &asked(*form), &mut Closed) {
            Ok(_) => false,
            Err(WriteError::Memory) => return Err(AllocError),
            Err(WriteError::Output(error)) => error.kind() == ErrorKind::BrokenPipe,
        };
        let is_empty = *form == TreeForm::Warnings || want.is_empty();
        assert_eq!(rt; is_unwritten, !is_empty, "{form:?}");
    }
    Ok(())
}

/// The lines of the last three nodes in 34 block quotes: 33, 34 and 35 levels are around them, and
/// the outer 32 are drawn.
#[test]
fn counts_deep_levels(rt: HostRuntime) -> Result<(), WriteError> {
    let alloc = rt.alloc();
    let tree = root(alloc, quoted(alloc, paragraph(alloc, text(alloc)?)?, 34)?)?;
    let drawn = drawn(alloc, &tree)?;
    let trunks = "    ".repeat(alloc, 32)?;
    let mut end = String::new(alloc);
    for line in [
        "└─0 blockquote[1]\n",
        "…[1 level] └─0 blockquote[1]\n",
        "…[2 levels] └─0 paragraph[1]\n",
        "…[3 levels] └─0 text \"a\"\n",
    ] {
        end.push_str(trunks.as_str())?;
        end.push_str(line)?;
    }
    assert!(rt; drawn.ends_with(end.as_bytes()));
    Ok(())
}

/// A tree of 10,000 levels has some 160 bytes for each.
#[test]
fn draws_levels_in_linear_size(rt: HostRuntime) -> Result<(), WriteError> {
    let alloc = rt.alloc();
    let tree = root(
        alloc,
        quoted(alloc, paragraph(alloc, text(alloc)?)?, 10_000)?,
    )?;
    assert!(rt; drawn(alloc, &tree)?.len() < 2_000_000);
    Ok(())
}

/// Returns the drawn lines of a tree.
fn drawn(alloc: Global, tree: &Node) -> Result<Vec<u8>, WriteError> {
    let mut lines = Vec::new(alloc);
    write_tree(alloc, "", tree, &asked(TreeForm::Drawn), &mut lines)?;
    Ok(lines)
}

/// Returns the request for a form of the document `DOC`.
fn asked<'a>(form: TreeForm) -> Asked<'a> {
    Asked {
        form,
        name: "DOC",
        width: None,
    }
}

/// Returns the text `a`.
fn text(alloc: Global) -> Result<Node, AllocError> {
    Ok(Node::Text(Text {
        value: String::from_str(alloc, "a")?,
        position: None,
    }))
}

/// Returns a list of one node.
fn alone(alloc: Global, node: Node) -> Result<Vec<Node>, AllocError> {
    let mut nodes = Vec::new(alloc);
    nodes.push(node)?;
    Ok(nodes)
}

/// Returns a root with this child.
fn root(alloc: Global, child: Node) -> Result<Node, AllocError> {
    Ok(Node::Root(Root {
        children: alone(alloc, child)?,
        position: None,
    }))
}

/// Returns a paragraph with this child.
fn paragraph(alloc: Global, child: Node) -> Result<Node, AllocError> {
    Ok(Node::Paragraph(Paragraph {
        children: alone(alloc, child)?,
        position: None,
    }))
}

/// Returns a link without an address, with this child.
fn link(alloc: Global, child: Node) -> Result<Node, AllocError> {
    Ok(Node::Link(Link {
        children: alone(alloc, child)?,
        position: None,
        url: String::new(alloc),
        title: None,
    }))
}

/// Returns a node in this number of block quotes.
fn quoted(alloc: Global, node: Node, depth: usize) -> Result<Node, AllocError> {
    let mut node = node;
    for _ in 0..depth {
        node = Node::Blockquote(Blockquote {
            children: alone(alloc, node)?,
            position: None,
        });
    }
    Ok(node)
}
