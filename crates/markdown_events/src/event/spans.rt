//! Where spans begin and end in a list of events.

ghost use Rattle.std.specs.Prelude.{ℕ, ◌≡◌, ◌↔◌, ◌≤◌, ◌<◌, [], length, reverse, Some, IfOk, IfSome};
ghost use Rattle.markdown_events.specs.Begins.{SpanAt};
ghost use Rattle.markdown_events.specs.Walks.{around_of, run};
ghost use Rattle.markdown_events.specs.OpenSpans.{AreOpen, names_of, opened_in};

use super::{Event, Kind, Name};
use crate::around::Around;
use std::alloc::{AllocError, Global};

/// Returns the index of the exit of the well-formed span whose enter is at this index, both counted
/// from 0, or `None` if no such span begins there.
///
/// `Some(last)` says that the events from `index` to `last`, both included, are one span. Each
/// enter has its exit, with the same name and in order. Line endings, blank line endings and spaces
/// contain no span. No delimiter row is inside a delimiter row, and no delimiter cell value inside
/// a delimiter cell value. The result is also `None` if the index is past the end of the list. The
/// rule is ours: the functions of [`infer`](crate::infer) require such a span. The only error is
/// that memory ran out.
///
/// In the events of a `Paragraph` with a `Data` in it, it is `Some(3)` at 0, `Some(2)` at 1, and
/// `None` at 2.
pub fn span_begins(
    alloc: Global,
    events: &[Event],
    index: usize,
) -> Result<Option<usize>, AllocError>
    ensures span { IfOk result (λ found. (last : ℕ) →
        (found ≡ Some last) ↔ SpanAt events.now index last) }
    ensures within { IfOk result (λ found. IfSome found (λ last.
        (index ≤ last) × (last < length events.now))) }
{
    if index >= events.len() {
        return Ok(None);
    }
    match last_of_span(alloc, &events[index..])? {
        Some(last) => Ok(Some(index + last)),
        None => Ok(None),
    }
}

/// An open span, and what is around the spans in it.
#[derive(Clone, Copy)]
struct Open {
    name: Name,
    inside: Around,
}

/// Returns the index of the last event of the span that these events begin with.
fn last_of_span(alloc: Global, events: &[Event]) -> Result<Option<usize>, AllocError>
    ensures run { IfOk result (λ found. found ≡ run events.now [] 0) }
    ensures within { IfOk result (λ found. IfSome found (λ last. last < length events.now)) }
{
    let mut spans: Vec<Open> = Vec::new(alloc);
    let mut passed = 0usize;
    let mut rest = events;
    loop {
        let Some((event, after)) = rest.split_first() else {
            return Ok(None);
        };
        match event.kind {
            Kind::Enter => match opened(spans.as_slice(), event.name) {
                Some(span) => spans.push(span)?,
                None => return Ok(None),
            },
            Kind::Exit => {
                match spans.pop() {
                    Some(span) if span.name.is(event.name) => {}
                    _ => return Ok(None),
                }
                if spans.is_empty() {
                    return Ok(Some(passed));
                }
            }
        }
        passed += 1;
        rest = after;
    }
}

/// Returns an open span of this name inside the open ones, the last of which is innermost, if it
/// may begin there.
fn opened(spans: &[Open], name: Name) -> Option<Open>
    requires { AreOpen (reverse spans.now) }
    ensures { result ≡ opened_in (names_of (reverse spans.now)) name }
{
    let around = innermost(spans);
    let role = name.role();
    if !around.allows(role) {
        return None;
    }
    Some(Open {
        name,
        inside: around.inside(role),
    })
}

/// Returns the context of a span that begins in the open ones.
fn innermost(spans: &[Open]) -> Around
    requires { AreOpen (reverse spans.now) }
    ensures { result ≡ around_of (names_of (reverse spans.now)) }
{
    match spans.last() {
        Some(span) => span.inside,
        None => Around::in_the_open(),
    }
}
