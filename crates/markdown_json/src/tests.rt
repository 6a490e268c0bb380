//! Tests of points in UTF-16 units, in a document of more than one block of 32 bytes. The points in units are
//! those that Python counts.

use crate::to_json_utf16;
use markdown_nodes::mdast::{Node, Text};
use markdown_nodes::unist::{Point, Position};
use std::alloc::{AllocError, Global};
use std::process::Abort;

/// How many lines the document has, each of them ten bytes long.
const LINES: usize = 10;

/// A point in bytes, and the same one in units, as line, column and offset.
static POINTS: [([usize; 3], [usize; 3]); 8] = [
    ([1, 1, 0], [1, 1, 0]),
    // A character of two bytes ends at byte 32.
    ([4, 1, 30], [4, 1, 21]),
    ([4, 3, 32], [4, 2, 22]),
    // A character of four bytes has byte 64 in it.
    ([7, 5, 63], [7, 4, 44]),
    ([7, 9, 67], [7, 6, 46]),
    ([10, 10, 98], [10, 7, 68]),
    // The end of the document, and a point after it.
    ([11, 1, 100], [11, 1, 70]),
    ([11, 1, 1000], [11, 1, 70]),
];

#[test]
fn points_of_later_blocks(rt: HostRuntime) -> Result<(), AllocError> {
    let alloc = rt.alloc();
    let document = "\u{E9}\t\u{1F600}x\r\n".repeat(alloc, LINES)?;
    for (bytes, units) in &POINTS {
        expect_in_units(&rt, alloc, document.as_bytes(), *bytes, *units)?;
    }
    Ok(())
}

/// Expects that a point in bytes is this one in units.
fn expect_in_units(
    rt: &impl Abort,
    alloc: Global,
    document: &[u8],
    bytes: [usize; 3],
    units: [usize; 3],
) -> Result<(), AllocError> {
    let [line, column, offset] = bytes;
    let point = Point::new(line, column, offset);
    let node = Node::Text(Text {
        value: String::from_str(alloc, "a")?,
        position: Some(Position {
            start: point,
            end: point,
        }),
    });
    let [line, column, offset] = units;
    let text = to_json_utf16(alloc, document, &node)?;
    let point = format!(in alloc; "{{\"line\":{line},\"column\":{column},\"offset\":{offset}}}")?;
    let want = format!(in alloc;
        "{{\"type\":\"text\",\"value\":\"a\",\"position\":{{\"start\":{point},\"end\":{point}}}}}"
    )?;
    assert_eq!(rt; text.as_str(), want.as_str());
    Ok(())
}
