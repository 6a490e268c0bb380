//! The pages of trees that no document produces.

use crate::expect::writes;
use markdown_nodes::mdast::{
    AlignKind, Blockquote, Code, Emphasis, FootnoteReference, Heading, Link, List, ListItem, Node,
    Paragraph, Table, TableCell, TableRow, Text,
};
use std::alloc::{AllocError, Global};

fn text(alloc: Global, value: &str) -> Result<Node, AllocError> {
    Ok(Node::Text(Text {
        value: String::from_str(alloc, value)?,
        position: None,
    }))
}

fn one(alloc: Global, node: Node) -> Result<Vec<Node>, AllocError> {
    let mut nodes = Vec::new(alloc);
    nodes.push(node)?;
    Ok(nodes)
}

#[test]
fn headings_of_any_depth(rt: HostRuntime) -> Result<(), AllocError> {
    let alloc = rt.alloc();
    for (depth, page) in [
        (0, "<h1>a</h1>\n"),
        (7, "<h6>a</h6>\n"),
        (255, "<h6>a</h6>\n"),
    ] {
        let heading = Node::Heading(Heading {
            children: one(alloc, text(alloc, "a")?)?,
            position: None,
            depth,
        });
        writes(&rt, alloc, &heading, page)?;
    }
    Ok(())
}

/// A row alone is its content. In a table without alignments there are as many columns as the row
/// has cells.
#[test]
fn rows_without_columns(rt: HostRuntime) -> Result<(), AllocError> {
    let alloc = rt.alloc();
    writes(&rt, alloc, &row_of(alloc, "a")?, "a")?;
    let table = Node::Table(Table {
        children: one(alloc, row_of(alloc, "a")?)?,
        position: None,
        align: Vec::new(alloc),
    });
    let page = "<table>\n<thead>\n<tr>\n<th>a</th>\n</tr>\n</thead>\n</table>\n";
    writes(&rt, alloc, &table, page)
}

/// A cell beyond the columns is not written.
#[test]
fn cells_beyond_the_columns(rt: HostRuntime) -> Result<(), AllocError> {
    let alloc = rt.alloc();
    let mut cells = one(alloc, cell(alloc, "a")?)?;
    cells.push(cell(alloc, "b")?)?;
    let row = Node::TableRow(TableRow {
        children: cells,
        position: None,
    });
    let mut align = Vec::new(alloc);
    align.push(AlignKind::None)?;
    let table = Node::Table(Table {
        children: one(alloc, row)?,
        position: None,
        align,
    });
    let page = "<table>\n<thead>\n<tr>\n<th>a</th>\n</tr>\n</thead>\n</table>\n";
    writes(&rt, alloc, &table, page)
}

fn cell(alloc: Global, value: &str) -> Result<Node, AllocError> {
    Ok(Node::TableCell(TableCell {
        children: one(alloc, text(alloc, value)?)?,
        position: None,
    }))
}

fn row_of(alloc: Global, value: &str) -> Result<Node, AllocError> {
    Ok(Node::TableRow(TableRow {
        children: one(alloc, cell(alloc, value)?)?,
        position: None,
    }))
}

/// An item alone is its content. A language of two words is not a class.
#[test]
fn items_and_code(rt: HostRuntime) -> Result<(), AllocError> {
    let alloc = rt.alloc();
    let item = Node::ListItem(ListItem {
        children: one(alloc, paragraph(alloc, text(alloc, "a")?)?)?,
        position: None,
        spread: false,
        checked: None,
    });
    writes(&rt, alloc, &item, "<p>a</p>\n")?;
    let code = Node::Code(Code {
        value: String::from_str(alloc, "a")?,
        position: None,
        lang: Some(String::from_str(alloc, "b c")?),
        meta: None,
    });
    writes(&rt, alloc, &code, "<pre><code>a\n</code></pre>\n")
}

fn paragraph(alloc: Global, node: Node) -> Result<Node, AllocError> {
    Ok(Node::Paragraph(Paragraph {
        children: one(alloc, node)?,
        position: None,
    }))
}

fn link(alloc: Global, url: &str, node: Node) -> Result<Node, AllocError> {
    Ok(Node::Link(Link {
        children: one(alloc, node)?,
        position: None,
        url: String::from_str(alloc, url)?,
        title: None,
    }))
}

fn table(alloc: Global, node: Node) -> Result<Node, AllocError> {
    Ok(Node::Table(Table {
        children: one(alloc, node)?,
        position: None,
        align: Vec::new(alloc),
    }))
}

/// A link within a link is its content, and so is a block within a text.
#[test]
fn links_in_links(rt: HostRuntime) -> Result<(), AllocError> {
    let alloc = rt.alloc();
    let inner = link(alloc, "b", text(alloc, "c")?)?;
    let nested = Node::Emphasis(Emphasis {
        children: one(alloc, paragraph(alloc, inner)?)?,
        position: None,
    });
    let outer = link(alloc, "a", nested)?;
    writes(&rt, alloc, &outer, "<a href=\"a\"><em>c</em></a>")
}

/// A block within a paragraph is its content. In a list, anything is an item; in a table, anything
/// is a row, whose children are cells.
#[test]
fn blocks_in_blocks(rt: HostRuntime) -> Result<(), AllocError> {
    let alloc = rt.alloc();
    let inner = table(alloc, row_of(alloc, "a")?)?;
    writes(&rt, alloc, &paragraph(alloc, inner)?, "<p>a</p>\n")?;
    let list = Node::List(List {
        children: one(alloc, table(alloc, paragraph(alloc, text(alloc, "a")?)?)?)?,
        position: None,
        ordered: false,
        start: None,
        spread: false,
    });
    writes(
        &rt,
        alloc,
        &list,
        "<ul>\n<li>\n<table>\n<thead>\n<tr>\n<th></th>\n</tr>\n</thead>\n</table>\n</li>\n</ul>\n",
    )?;
    let outer = table(alloc, table(alloc, row_of(alloc, "a")?)?)?;
    writes(
        &rt,
        alloc,
        &outer,
        "<table>\n<thead>\n<tr>\n<th>a</th>\n</tr>\n</thead>\n</table>\n",
    )
}

/// A list with one task, which has these children.
fn task(alloc: Global, children: Vec<Node>, spread: bool) -> Result<Node, AllocError> {
    let item = Node::ListItem(ListItem {
        children,
        position: None,
        spread,
        checked: Some(false),
    });
    Ok(Node::List(List {
        children: one(alloc, item)?,
        position: None,
        ordered: false,
        start: None,
        spread: false,
    }))
}

/// The pages of tasks that do not begin with a text.
static TASKS: [(bool, &str, &str); 2] = [
    (
        false,
        "<ul class=\"contains-task-list\">\n<li class=\"task-list-item\"><input type=\"checkbox\" disabled=\"\" /></li>\n</ul>\n",
        "<ul class=\"contains-task-list\">\n<li class=\"task-list-item\"><input type=\"checkbox\" disabled=\"\" />\n<blockquote>\n<p>a</p>\n</blockquote>\n</li>\n</ul>\n",
    ),
    (
        true,
        "<ul class=\"contains-task-list\">\n<li class=\"task-list-item\">\n<p><input type=\"checkbox\" disabled=\"\" /></p>\n</li>\n</ul>\n",
        "<ul class=\"contains-task-list\">\n<li class=\"task-list-item\">\n<p><input type=\"checkbox\" disabled=\"\" /></p>\n<blockquote>\n<p>a</p>\n</blockquote>\n</li>\n</ul>\n",
    ),
];

/// A task that does not begin with a paragraph has one of its own, with the box. Before a text there
/// is a blank.
#[test]
fn tasks_without_text(rt: HostRuntime) -> Result<(), AllocError> {
    let alloc = rt.alloc();
    for (spread, empty, quoting) in &TASKS {
        let spread = *spread;
        writes(&rt, alloc, &task(alloc, Vec::new(alloc), spread)?, empty)?;
        let quote = Node::Blockquote(Blockquote {
            children: one(alloc, paragraph(alloc, text(alloc, "a")?)?)?,
            position: None,
        });
        writes(
            &rt,
            alloc,
            &task(alloc, one(alloc, quote)?, spread)?,
            quoting,
        )?;
    }
    let empty = Node::Paragraph(Paragraph {
        children: Vec::new(alloc),
        position: None,
    });
    writes(
        &rt,
        alloc,
        &task(alloc, one(alloc, empty)?, true)?,
        "<ul class=\"contains-task-list\">\n<li class=\"task-list-item\">\n<p><input type=\"checkbox\" disabled=\"\" /></p>\n</li>\n</ul>\n",
    )
}

/// A list of any start, and a call of a footnote that is not there.
#[test]
fn starts_and_calls(rt: HostRuntime) -> Result<(), AllocError> {
    let alloc = rt.alloc();
    let list = Node::List(List {
        children: Vec::new(alloc),
        position: None,
        ordered: true,
        start: Some(4_294_967_295),
        spread: false,
    });
    writes(&rt, alloc, &list, "<ol start=\"4294967295\">\n</ol>\n")?;
    let call = Node::FootnoteReference(FootnoteReference {
        position: None,
        identifier: String::from_str(alloc, "<")?,
        label: None,
    });
    writes(&rt, alloc, &call, "[^&lt;]")
}

/// A hundred thousand nested emphases.
#[test]
fn deep(rt: HostRuntime) -> Result<(), AllocError> {
    let alloc = rt.alloc();
    let mut tree = text(alloc, "a")?;
    for _ in 0..100_000 {
        tree = Node::Emphasis(Emphasis {
            children: one(alloc, tree)?,
            position: None,
        });
    }
    let mut page = "<em>".repeat(alloc, 100_000)?;
    page.push_str("a")?;
    page.push_str("</em>".repeat(alloc, 100_000)?.as_str())?;
    writes(&rt, alloc, &tree, page.as_str())
}
