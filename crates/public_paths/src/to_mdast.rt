//! From events to a tree.

use crate::expect::holds;
use markdown_nodes::event::{Event, Kind, Name, Point};
use markdown_nodes::mdast::Node;
use markdown_nodes::message::Fault;
use markdown_tree::History;
use markdown_tree::builder::TreeBuilder;
use markdown_tree::to_mdast::{Document, References, Steps, Values, compile, compile_counted};
use std::alloc::{AllocError, Global};
use step_count::count::Count;

/// A user's decoder, which knows nothing.
struct Nothing;

impl References for Nothing {
    ghost use Rattle.std.specs.Prelude.{None};

    ghost text = { λ _ _ _. None };

    fn decode(
        &self,
        _alloc: Global,
        _value: &str,
        _marker: u8,
    ) -> Result<Option<String>, AllocError> {
        Ok(None)
    }
}

#[test]
fn no_events_give_a_root(rt: HostRuntime) {
    let tree = compile(rt.alloc(), &[], b"", &Nothing);
    holds(&rt, matches!(&tree, Ok(Node::Root(_))));
    let tree = compile_counted(rt.alloc(), &mut Steps::new(&[]), b"", &Nothing);
    holds(&rt, matches!(&tree, Ok(Node::Root(_))));
}

/// The enter of a data span.
const ENTER: Event = Event {
    kind: Kind::Enter,
    name: Name::Data,
    point: Point {
        line: 1,
        column: 1,
        index: 0,
        vs: 0,
    },
};

#[test]
fn steps_read_events(rt: HostRuntime) {
    let events = [ENTER];
    let mut steps = Steps::new(&events);
    steps.tick();
    holds(&rt, steps.read(0) == Some(ENTER));
    holds(&rt, steps.read(1).is_none());
}

/// At run time there is nothing to ask of a count.
#[test]
fn a_count_ticks(_rt: HostRuntime) {
    let mut steps = Count::zero();
    steps.tick();
}

/// At run time there is nothing to ask of a history.
#[test]
fn a_history_has_one_more_event(_rt: HostRuntime) {
    let history = History::none();
    let _longer = history.and(&ENTER);
}

#[test]
fn a_builder_takes_events(rt: HostRuntime) {
    let document = Document::new(b"", Values::Whole);
    let mut builder = TreeBuilder::new(rt.alloc(), document, &Nothing);
    builder.enter(ENTER.name, ENTER.point);
    builder.exit(ENTER.name, ENTER.point);
    builder.take(&ENTER);
    // The span is left open.
    let outcome = builder.finish();
    holds(&rt, matches!(&outcome, Err(Fault::Message(_))));
}
