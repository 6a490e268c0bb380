//! Documents.

use crate::expect::holds;
use character_references::html::HtmlReferences;
use markdown::mdast::Node;
use markdown::{
    Constructs, JsonPieces, ParseOptions, Walk, compile_events, definition_of, hidden_bytes,
    node_at, to_events, to_json, to_mdast, to_outline, to_text,
};
use markdown_nodes::message::Fault;
use markdown_tree::to_mdast::{Document, Steps, compile_document};
use std::alloc::AllocError;

#[test]
fn a_document_is_read(rt: HostRuntime) -> Result<(), AllocError> {
    let options = ParseOptions {
        constructs: Constructs::gfm(),
        ..ParseOptions::default()
    };
    let events = to_events(rt.alloc(), "Hi", &options)?;
    holds(&rt, events.len() == 4);
    let tree = to_mdast(rt.alloc(), "Hi", &options)?;
    holds(&rt, matches!(&tree, Node::Root(_)));
    Ok(())
}

#[test]
fn a_document_has_an_outline(rt: HostRuntime) -> Result<(), AllocError> {
    let text = to_outline(rt.alloc(), "# Use\n\n## Events", &ParseOptions::default())?;
    holds(&rt, text.as_str() == "Use (1:1)\n  Events (3:1)\n");
    Ok(())
}

#[test]
fn a_document_has_a_text(rt: HostRuntime) -> Result<(), AllocError> {
    let text = to_text(
        rt.alloc(),
        "# Hi *Earth*!\n\nNext",
        &ParseOptions::default(),
    )?;
    holds(&rt, text.as_str() == "Hi Earth!\nNext\n");
    let text = to_text(rt.alloc(), "a\0b\nc", &ParseOptions::default())?;
    holds(&rt, text.as_str() == "a\u{fffd}b\nc\n");
    Ok(())
}

/// A label over two lines of a block quote. The offset of the second marker is 5.
const QUOTE: &str = "> [a\n> b]\n\n[a b]: c";

#[test]
fn a_tree_is_made_without_hidden_bytes(rt: HostRuntime) -> Result<(), Fault> {
    let events = to_events(rt.alloc(), QUOTE, &ParseOptions::default())?;
    let hidden = hidden_bytes(rt.alloc(), QUOTE.as_bytes(), &events)?;
    holds(&rt, hidden.iter().position(|flag| *flag) == Some(5));
    let document = Document::hiding(QUOTE.as_bytes(), &hidden);
    let mut steps = Steps::new(&events);
    let tree = compile_document(rt.alloc(), &mut steps, &document, &HtmlReferences)?;
    holds(
        &rt,
        tree == to_mdast(rt.alloc(), QUOTE, &ParseOptions::default())?,
    );
    Ok(())
}

#[test]
fn a_tree_is_made_of_a_text_without_hidden_bytes(rt: HostRuntime) -> Result<(), Fault> {
    let events = to_events(rt.alloc(), QUOTE, &ParseOptions::default())?;
    let hidden = hidden_bytes(rt.alloc(), QUOTE.as_bytes(), &events)?;
    let document = Document::of_text(QUOTE, &hidden);
    let mut steps = Steps::new(&events);
    let tree = compile_document(rt.alloc(), &mut steps, &document, &HtmlReferences)?;
    holds(
        &rt,
        tree == to_mdast(rt.alloc(), QUOTE, &ParseOptions::default())?,
    );
    Ok(())
}

#[test]
fn events_give_the_tree_of_their_document(rt: HostRuntime) -> Result<(), Fault> {
    let options = ParseOptions::default();
    let events = to_events(rt.alloc(), QUOTE, &options)?;
    let tree = compile_events(rt.alloc(), QUOTE, &events)?;
    holds(&rt, tree == to_mdast(rt.alloc(), QUOTE, &options)?);
    Ok(())
}

/// The backslash before the pipe is hidden, and so is the second marker of the quote.
#[test]
fn a_text_is_made_without_hidden_bytes(rt: HostRuntime) -> Result<(), AllocError> {
    let text = to_text(rt.alloc(), "|a|\n|-|\n|\\||", &ParseOptions::gfm())?;
    holds(&rt, text.as_str() == "a\n|\n");
    let text = to_text(rt.alloc(), QUOTE, &ParseOptions::default())?;
    holds(&rt, text.as_str() == "a\nb\n");
    Ok(())
}

/// The backslash before the pipe is hidden, and so is the second marker of the quote.
#[test]
fn an_outline_is_made_without_hidden_bytes(rt: HostRuntime) -> Result<(), AllocError> {
    let document = "|a|\n|-|\n|\\||\n\n# b";
    let text = to_outline(rt.alloc(), document, &ParseOptions::gfm())?;
    holds(&rt, text.as_str() == "b (5:1)\n");
    let text = to_outline(
        rt.alloc(),
        "> # [a\n> b]\n\n> [a\n> b]\n> -\n\n[a b]: c",
        &ParseOptions::default(),
    )?;
    holds(&rt, text.as_str() == "[a (1:3)\n  a b (4:3)\n");
    Ok(())
}

#[test]
fn a_tree_is_asked(rt: HostRuntime) -> Result<(), AllocError> {
    let tree = to_mdast(rt.alloc(), QUOTE, &ParseOptions::default())?;
    holds(&rt, matches!(node_at(&tree, 3), Some(Node::Text(_))));
    let definition = definition_of(rt.alloc(), &tree, "a b")?;
    holds(
        &rt,
        definition.is_some_and(|found| found.url.as_str() == "c"),
    );
    holds(&rt, Walk::new(rt.alloc(), &tree).next()? == Some(&tree));
    let line = to_json(rt.alloc(), &tree)?;
    holds(&rt, line.as_str().starts_with("{\"type\":\"root\""));
    let mut piece = String::new(rt.alloc());
    holds(
        &rt,
        JsonPieces::new(rt.alloc(), &tree).next_into(&mut piece)?,
    );
    holds(&rt, piece == line);
    Ok(())
}
