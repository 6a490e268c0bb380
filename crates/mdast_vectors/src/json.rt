//! The JSON of trees that no list of events produces. The cases of `forms.txt` and of the lists of
//! the original have each kind of node.

use crate::expect::{holds, same, says};
use crate::trees::{add, alone, quoted, root, text};
use markdown_json::{JsonPieces, to_json, to_json_utf16};
use markdown_nodes::unist::Position;
use std::alloc::{AllocError, Global};
use std::process::Abort;

#[test]
fn nodes_without_positions(rt: HostRuntime) -> Result<(), AllocError> {
    let mut children = Vec::new(rt.alloc());
    add(&mut children, text(rt.alloc(), "a"))?;
    add(&mut children, text(rt.alloc(), ""))?;
    says(
        &rt,
        to_json(rt.alloc(), &root(children)),
        r#"{"type":"root","children":[{"type":"text","value":"a"},{"type":"text","value":""}]}"#,
    )
}

/// Expects this text in this number of pieces.
fn comes_in(
    rt: &impl Abort,
    alloc: Global,
    pieces: JsonPieces,
    number: usize,
    want: &str,
) -> Result<(), AllocError> {
    let mut pieces = pieces;
    let mut piece = String::new(alloc);
    let mut line = String::new(alloc);
    let mut count: usize = 0;
    'pieces: while pieces.next_into(&mut piece)? {
        line.push_str(piece.as_str())?;
        count = count.saturating_add(1);
    }
    same(rt, count, number);
    holds(rt, line.as_str() == want);
    Ok(())
}

/// The text is as long as a piece, so that the ends of the nodes are another piece.
#[test]
fn a_long_text_in_two_pieces(rt: HostRuntime) -> Result<(), AllocError> {
    let alloc = rt.alloc();
    let long = "a".repeat(alloc, 65536)?;
    let tree = root(alone(alloc, text(alloc, long.as_str()))?);
    let mut line = String::from_str(
        alloc,
        r#"{"type":"root","children":[{"type":"text","value":""#,
    )?;
    line.push_str(long.as_str())?;
    line.push_str(r#""}]}"#)?;
    comes_in(&rt, alloc, JsonPieces::new(alloc, &tree), 2, line.as_str())
}

/// Expects this JSON for a text at a position, with the points in units, also in pieces. The
/// document has two lines, and the second begins with a tab.
fn in_units(
    rt: &impl Abort,
    alloc: Global,
    value: &str,
    position: Position,
    want: &str,
) -> Result<(), AllocError> {
    let document = "\u{E9}\n\t\u{1F600}!".as_bytes();
    let mut node = text(alloc, value)?;
    node.position_set(Some(position));
    says(rt, to_json_utf16(alloc, document, &node), want)?;
    comes_in(
        rt,
        alloc,
        JsonPieces::utf16(alloc, document, &node)?,
        1,
        want,
    )
}

/// In bytes the tab goes to column 5 and the character after it takes four; in units it takes two.
#[test]
fn points_in_utf16_units(rt: HostRuntime) -> Result<(), AllocError> {
    let first = Position::new(1, 1, 0, 1, 3, 2);
    let line =
        "{\"type\":\"text\",\"value\":\"\u{E9}\",\"position\":{\"start\":{\"line\":1,\"column\":1,\"offset\":0},\"end\":{\"line\":1,\"column\":2,\"offset\":1}}}";
    in_units(&rt, rt.alloc(), "\u{E9}", first, line)?;
    let last = Position::new(2, 9, 8, 2, 10, 9);
    let line =
        r#"{"type":"text","value":"!","position":{"start":{"line":2,"column":7,"offset":5},"end":{"line":2,"column":8,"offset":6}}}"#;
    in_units(&rt, rt.alloc(), "!", last, line)
}

/// The number of nested block quotes.
const LEVELS: usize = 100_000;

/// Returns the JSON of the text `a` in nested block quotes.
fn levels(alloc: Global) -> Result<String, AllocError> {
    let mut line = "{\"type\":\"blockquote\",\"children\":[".repeat(alloc, LEVELS)?;
    line.push_str("{\"type\":\"text\",\"value\":\"a\"}")?;
    line.push_str("]}".repeat(alloc, LEVELS)?.as_str())?;
    Ok(line)
}

#[test]
fn a_hundred_thousand_levels(rt: HostRuntime) -> Result<(), AllocError> {
    let tree = quoted(rt.alloc(), text(rt.alloc(), "a")?, LEVELS)?;
    let line = to_json(rt.alloc(), &tree)?;
    holds(&rt, line == levels(rt.alloc())?);
    Ok(())
}

/// Most pieces have 1,986 starts of a block quote, 33 bytes each, or 32,768 ends.
#[test]
fn a_hundred_thousand_levels_in_pieces(rt: HostRuntime) -> Result<(), AllocError> {
    let tree = quoted(rt.alloc(), text(rt.alloc(), "a")?, LEVELS)?;
    let line = levels(rt.alloc())?;
    let pieces = JsonPieces::new(rt.alloc(), &tree);
    comes_in(&rt, rt.alloc(), pieces, 54, line.as_str())
}
