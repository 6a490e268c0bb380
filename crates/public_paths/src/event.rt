//! Events.

use crate::expect::holds;
use markdown_nodes::event::{Event, Kind, Name, Point, span_begins};
use markdown_nodes::unist;
use markdown_outline::heading_filter::HeadingFilter;
use markdown_words::words::Words;
use std::alloc::AllocError;

/// The point at the start of a document.
const START: Point = Point {
    line: 1,
    column: 1,
    index: 0,
    vs: 0,
};

#[test]
fn a_span_begins_at_its_enter(rt: HostRuntime) -> Result<(), AllocError> {
    let events = [Kind::Enter, Kind::Exit].map(|kind| Event {
        kind,
        name: Name::Data,
        point: START,
    });
    holds(&rt, span_begins(rt.alloc(), &events, 0)? == Some(1));
    Ok(())
}

#[test]
fn a_filter_passes_on_headings(rt: HostRuntime) {
    let mut filter = HeadingFilter::new();
    holds(&rt, !filter.enter(Name::Paragraph));
    holds(&rt, !filter.token(Name::Data));
    holds(&rt, !filter.exit(Name::Paragraph));
    holds(&rt, filter.enter(Name::HeadingAtx));
    holds(&rt, filter.token(Name::HeadingAtxSequence));
    holds(&rt, filter.exit(Name::HeadingAtx));
    holds(&rt, !filter.loses());
}

#[test]
fn words_are_said(rt: HostRuntime) -> Result<(), AllocError> {
    let end = Point {
        column: 3,
        index: 2,
        ..START
    };
    let mut words = Words::new(rt.alloc(), "Hi");
    words.enter(Name::Paragraph)?;
    words.token(Name::Data, &START, &end)?;
    words.exit(Name::Paragraph, &end)?;
    holds(&rt, !words.is_strange());
    words.give_up();
    holds(&rt, words.is_strange());
    holds(&rt, words.into_text()?.as_str() == "Hi\n");
    Ok(())
}

#[test]
fn hidden_bytes_are_not_said(rt: HostRuntime) -> Result<(), AllocError> {
    let end = Point {
        column: 5,
        index: 4,
        ..START
    };
    let mut words = Words::hiding(rt.alloc(), "a\\|b", &[false, true, false, false]);
    words.enter(Name::Paragraph)?;
    words.token(Name::Data, &START, &end)?;
    words.exit(Name::Paragraph, &end)?;
    holds(&rt, words.into_text()?.as_str() == "a|b\n");
    Ok(())
}

#[test]
fn names_are_texts_and_points_are_those_of_unist(rt: HostRuntime) {
    holds(&rt, Name::Data.text() == "Data");
    holds(&rt, Name::find("Data") == Some(Name::Data));
    holds(&rt, START.to_unist() == unist::Point::new(1, 1, 0));
}
