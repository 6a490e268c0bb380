//! The text of each refusal. The texts are those of the table in `docs/REFUSALS.md`.

use crate::expect::{holds, says};
use event_lines::lines::LinesError;
use markdown_grammar::error_kind::{ErrorKind, Stop};
use markdown_nodes::event::Point;
use markdown_nodes::message::{Fault, Message, Place};
use markdown_nodes::unist;
use std::alloc::AllocError;
use std::fmt::Display;
use std::process::Abort;

/// Each refusal, with its rule and its reason.
static REFUSALS: [(ErrorKind, &str, &str); 12] = [
    (
        ErrorKind::Unbalanced,
        "events-unbalanced",
        "an exit does not match the open span, or a span is left open",
    ),
    (
        ErrorKind::Misplaced,
        "name-misplaced",
        "this name cannot stand here",
    ),
    (
        ErrorKind::Repeated,
        "part-repeated",
        "this part may stand only once",
    ),
    (
        ErrorKind::Held,
        "span-held",
        "a span stands inside one that cannot hold it",
    ),
    (
        ErrorKind::InvalidSlice,
        "slice-invalid",
        "the span is not a text of the document",
    ),
    (
        ErrorKind::InvalidListValue,
        "list-value-invalid",
        "a list value is not a number up to 4294967295",
    ),
    (
        ErrorKind::MissingListValue,
        "list-value-missing",
        "an ordered list has no value",
    ),
    (
        ErrorKind::UnknownReference,
        "reference-unknown",
        "the decoder does not know this reference",
    ),
    (
        ErrorKind::IncompleteReference,
        "reference-incomplete",
        "a character reference has no marker before its value or no value",
    ),
    (
        ErrorKind::MissingFence,
        "fence-missing",
        "a raw block has no fence",
    ),
    (
        ErrorKind::HeadingDepth,
        "heading-depth",
        "a heading has no depth from 1 to 6",
    ),
    (
        ErrorKind::UnfinishedBreak,
        "break-unfinished",
        "a hard break is not followed by its line ending",
    ),
];

/// Whether a fault is a refusal at the event on line 3, of this rule and for this reason.
fn is_refusal(fault: &Fault, rule_id: &str, reason: &str) -> bool {
    let Fault::Message(message) = fault else {
        return false;
    };
    let place = Some(Place::Point(unist::Point::new(3, 5, 17)));
    message.rule_id == rule_id
        && message.reason == reason
        && message.source == "markdown-rs"
        && message.place == place
}

#[test]
fn each_refusal_names_its_rule_and_its_event(rt: HostRuntime) {
    let point = Point {
        line: 3,
        column: 5,
        index: 17,
        vs: 2,
    };
    for (error_kind, rule_id, reason) in &REFUSALS {
        let fault = Stop::Refused(*error_kind).at(point);
        holds(&rt, is_refusal(&fault, rule_id, reason));
    }
}

#[test]
fn want_of_memory_names_no_event(rt: HostRuntime) {
    let point = Point {
        line: 1,
        column: 1,
        index: 0,
        vs: 0,
    };
    let fault = Stop::Memory(AllocError).at(point);
    holds(&rt, matches!(&fault, Fault::Memory(_)));
}

/// Stops the test if a value is not printed like this.
fn expect_text<T: Display, A: Abort + AllocGlobal>(
    rt: &A,
    value: &T,
    text: &str,
) -> Result<(), AllocError> {
    says(rt, value.to_string(rt.alloc()), text)
}

#[test]
fn messages_and_faults_are_printed(rt: HostRuntime) -> Result<(), AllocError> {
    let mut message = Message {
        place: Some(Place::Point(unist::Point::new(3, 5, 17))),
        reason: "a raw block has no fence",
        rule_id: "fence-missing",
        source: "markdown-rs",
    };
    let said = "3:5 (17): a raw block has no fence (fence-missing)";
    expect_text(&rt, &message, said)?;
    expect_text(&rt, &Fault::Message(message), said)?;
    expect_text(&rt, &Fault::Memory(AllocError), "out of memory")?;
    message.place = Some(Place::Position(unist::Position::new(3, 5, 17, 4, 1, 20)));
    expect_text(&rt, &message, said)?;
    message.place = None;
    expect_text(&rt, &message, "a raw block has no fence (fence-missing)")?;
    expect_text(&rt, &LinesError::Unread(2), "event line 2 cannot be read")?;
    expect_text(&rt, &LinesError::Memory(AllocError), "out of memory")
}
