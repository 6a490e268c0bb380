//! Messages and errors.

use crate::expect::holds;
use markdown_nodes::message::{Fault, Message, Place};
use markdown_nodes::unist::Point;

#[test]
fn a_fault_has_a_message_with_a_place(rt: HostRuntime) {
    let message = Message {
        place: Some(Place::Point(Point::new(1, 3, 2))),
        reason: "the value is no text of the document",
        rule_id: "slice-invalid",
        source: "markdown-rs",
    };
    let fault = Fault::Message(message);
    holds(
        &rt,
        matches!(&fault, Fault::Message(said) if *said == message),
    );
}
