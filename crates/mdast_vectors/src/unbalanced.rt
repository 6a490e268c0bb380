//! The whole message for a list that is not that of a forest. The cases of `forms.txt` have more.

use crate::expect::same;
use crate::outline::{compiled, event_at};
use markdown_nodes::event::{Event, Kind, Name};
use markdown_nodes::mdast::Node;
use markdown_nodes::message::{Fault, Message, Place};
use markdown_nodes::unist::Point;
use std::alloc::{AllocError, Global};
use std::process::Abort;
use std::test::Fail;

/// Returns the message for a list that has no tree.
fn said(answer: Result<Node, Fault>) -> Result<Option<Message>, AllocError> {
    match answer {
        Ok(_) => Ok(None),
        Err(Fault::Message(message)) => Ok(Some(message)),
        Err(Fault::Memory(error)) => Err(error),
    }
}

/// Expects these events over `ab` to be unbalanced at this point, and the message to be complete.
fn unbalanced(rt: &impl Abort, alloc: Global, events: &[Event], point: Point) -> Result<(), Fail> {
    let want = Message {
        place: Some(Place::Point(point)),
        reason: "an exit does not match the open span, or a span is left open",
        rule_id: "events-unbalanced",
        source: "markdown-rs",
    };
    same(rt, said(compiled(alloc, b"ab", events))?, Some(want));
    Ok(())
}

/// A span that is left open is unbalanced at the last event.
#[test]
fn an_enter_alone(rt: HostRuntime) -> Result<(), Fail> {
    let events = [event_at(Kind::Enter, Name::Paragraph, 0)];
    unbalanced(&rt, rt.alloc(), &events, Point::new(1, 1, 0))
}
