//! The outcomes of calls from other languages, with each status that a test can produce. The values
//! were worked out by hand.

use crate::expect::same;
use mdast_programs::outcomes::{Outcome, outcome_of};
use std::process::Abort;

/// The events of `Hi`, a paragraph with one data span.
const HI: &[u8] = b"+Paragraph 1:1:0\n+Data 1:1:0\n-Data 1:3:2\n-Paragraph 1:3:2\n";

/// The events of `&copy;`, a character reference.
const COPY: &[u8] =
    b"+CharacterReference 1:1:0\n+CharacterReferenceMarker 1:1:0\n-CharacterReferenceMarker 1:2:1\n+CharacterReferenceValue 1:2:1\n-CharacterReferenceValue 1:6:5\n-CharacterReference 1:7:6\n";

/// Returns an outcome with only this status.
pub fn bare(status: u32) -> Outcome {
    Outcome {
        status,
        text: b"",
        rule: b"",
        reason: b"",
        line: 0,
        column: 0,
        offset: 0,
    }
}

/// Expects an outcome to have these fields.
pub fn same_outcome(rt: &impl Abort, outcome: &Outcome, wanted: &Outcome) {
    same(rt, outcome.status, wanted.status);
    same(
        rt,
        str::from_utf8(outcome.text),
        str::from_utf8(wanted.text),
    );
    same(
        rt,
        str::from_utf8(outcome.rule),
        str::from_utf8(wanted.rule),
    );
    same(
        rt,
        str::from_utf8(outcome.reason),
        str::from_utf8(wanted.reason),
    );
    same(rt, outcome.line, wanted.line);
    same(rt, outcome.column, wanted.column);
    same(rt, outcome.offset, wanted.offset);
}

/// Expects the outcome of a call to have these fields.
fn expect<R: Abort + AllocGlobal>(rt: &R, input: [&[u8]; 3], wanted: &Outcome) {
    let [document, event_lines, references] = input;
    let outcome = outcome_of(rt.alloc(), document, event_lines, references);
    same_outcome(rt, &outcome, wanted);
}

#[test]
fn a_tree(rt: HostRuntime) {
    let mut wanted = bare(0);
    wanted.text =
        br#"{"type":"root","children":[{"type":"paragraph","children":[{"type":"text","value":"Hi","position":{"start":{"line":1,"column":1,"offset":0},"end":{"line":1,"column":3,"offset":2}}}],"position":{"start":{"line":1,"column":1,"offset":0},"end":{"line":1,"column":3,"offset":2}}}],"position":{"start":{"line":1,"column":1,"offset":0},"end":{"line":1,"column":3,"offset":2}}}"#;
    expect(&rt, [b"Hi", HI, b""], &wanted);
}

#[test]
fn a_name_of_the_table(rt: HostRuntime) {
    let mut wanted = bare(0);
    wanted.text =
        "{\"type\":\"root\",\"children\":[{\"type\":\"text\",\"value\":\"©\",\"position\":{\"start\":{\"line\":1,\"column\":1,\"offset\":0},\"end\":{\"line\":1,\"column\":7,\"offset\":6}}}],\"position\":{\"start\":{\"line\":1,\"column\":1,\"offset\":0},\"end\":{\"line\":1,\"column\":7,\"offset\":6}}}".as_bytes();
    expect(&rt, [b"&copy;", COPY, "copy=©".as_bytes()], &wanted);
}

#[test]
fn a_name_that_no_table_has(rt: HostRuntime) {
    let mut wanted = bare(1);
    wanted.rule = b"reference-unknown";
    wanted.reason = b"the decoder does not know this reference";
    wanted.line = 1;
    wanted.column = 6;
    wanted.offset = 5;
    expect(&rt, [b"&copy;", COPY, b""], &wanted);
}

#[test]
fn a_line_that_cannot_be_read(rt: HostRuntime) {
    let mut wanted = bare(2);
    wanted.line = 3;
    expect(&rt, [b"Hi", b"+Data 1:1:0\n\n-Data 1:3\n", b""], &wanted);
}

#[test]
fn a_table_that_is_not_utf8(rt: HostRuntime) {
    expect(&rt, [b"Hi", HI, b"copy=\xA9"], &bare(4));
}
