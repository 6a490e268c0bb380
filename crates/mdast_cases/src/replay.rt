//! Compiles a case, and compares the results with the expected ones.

use crate::case::{Case, Forms};
use crate::counts::{Counts, count};
use crate::rewrite::rewritten;
use markdown::to_mdast;
use markdown_grammar::ordered::ordered;
use markdown_json::to_json;
use markdown_nodes::event::{Event, Kind, Point};
use markdown_nodes::mdast::Node;
use markdown_nodes::message::{Fault, Message, Place};
use markdown_tree::builder::TreeBuilder;
use markdown_tree::to_mdast::{
    Document, References, Steps, Values, compile, compile_counted, compile_document, compile_with,
};
use mdast_check::report::report_of;
use std::alloc::{AllocError, AllocFailed, Global};

/// A list of events that is compiled for a case.
#[derive(Clone, Copy)]
pub enum List {
    /// That of the case.
    Whole,
    /// That of the case, through a reader that counts.
    Counted,
    /// That of the case, event by event.
    Built,
    /// Its first events, this many.
    First(usize),
    /// Its events, with this one, counted from 1, and the next swapped.
    Swapped(usize),
}

impl List {
    /// Returns how a line names the list, after the name of its case.
    fn text(self, alloc: Global) -> Result<String, AllocError> {
        match self {
            List::Whole => Ok(String::new(alloc)),
            List::Counted => String::from_str(alloc, ", counted,"),
            List::Built => String::from_str(alloc, ", event by event,"),
            List::First(count) => format!(in alloc; ", cut after event {count},"),
            List::Swapped(number) => format!(in alloc; ", swapped at event {number},"),
        }
    }
}

/// Why a case fails.
#[derive(Drop)]
pub enum ReplayError {
    /// This list has another answer.
    Differs(List, String),
    /// Memory ran out.
    Memory(AllocError),
}

impl From<AllocError> for ReplayError {
    fn from(error: AllocError) -> ReplayError {
        ReplayError::Memory(error)
    }
}

impl<T: Drop> From<AllocFailed<T>> for ReplayError {
    fn from(error: AllocFailed<T>) -> ReplayError {
        ReplayError::Memory(AllocError::from(error))
    }
}

/// Returns the line of a case that fails, or none if it passes. It counts the comparisons.
pub fn difference(
    alloc: Global,
    case: &Case<'_>,
    counts: &mut Counts,
) -> Result<Option<String>, AllocError> {
    match replay(alloc, case, counts) {
        Ok(()) => Ok(None),
        Err(ReplayError::Differs(list, answer)) => {
            let name = case.name;
            let list = list.text(alloc)?;
            Ok(Some(format!(in alloc; "{name}{list} gives {answer}")?))
        }
        Err(ReplayError::Memory(error)) => Err(error),
    }
}

/// Compiles a case, checks the forms of its tree, and compiles the list again with cuts and with
/// swapped exits.
fn replay(alloc: Global, case: &Case<'_>, counts: &mut Counts) -> Result<(), ReplayError> {
    read(alloc, case)?;
    let outcome = outcome(alloc, case, case.events.as_slice());
    expect(List::Whole, answer(alloc, &outcome), case.answer)?;
    expect(List::Counted, counted(alloc, case), case.answer)?;
    expect(List::Built, built(alloc, case), case.answer)?;
    match &outcome {
        Ok(tree) => replay_tree(alloc, case, tree, counts),
        Err(_) => Ok(()),
    }
}

/// Expects the tree of the document to be the answer of the case, if its events are those of the
/// tokenizer.
fn read(alloc: Global, case: &Case<'_>) -> Result<(), ReplayError> {
    match (&case.options, case.document.text()) {
        (Some(options), Some(text)) => {
            let tree = to_mdast(alloc, text, options)?;
            expect(List::Whole, shown(alloc, &tree), case.answer)
        }
        _ => Ok(()),
    }
}

/// Checks the forms of the tree of a case, and compiles the list again with cuts and with swapped
/// exits.
fn replay_tree(
    alloc: Global,
    case: &Case<'_>,
    tree: &Node,
    counts: &mut Counts,
) -> Result<(), ReplayError> {
    order(alloc, case, tree)?;
    written(alloc, case)?;
    copy(alloc, case, tree, &mut counts.copies)?;
    forms(alloc, &case.forms, tree, &mut counts.forms)?;
    cut(alloc, case, &mut counts.cuts)?;
    swap(alloc, case, &mut counts.swaps)
}

/// Compares an answer with the expected one.
fn expect(list: List, answer: Result<String, AllocError>, want: &str) -> Result<(), ReplayError> {
    let answer = answer?;
    if answer.as_str() == want {
        Ok(())
    } else {
        Err(ReplayError::Differs(list, answer))
    }
}

/// Expects the tree to be ordered if the offsets of the events never go back, and otherwise as the
/// case says.
fn order(alloc: Global, case: &Case<'_>, tree: &Node) -> Result<(), ReplayError> {
    let events = case.events.as_slice();
    let is_ordered = ordered(tree);
    if (never_goes_back(events) && !is_ordered) || case.ordered == Some(!is_ordered) {
        let answer = String::from_str(alloc, order_text(is_ordered))?;
        return Err(ReplayError::Differs(List::Whole, answer));
    }
    Ok(())
}

/// Expects the writer of events to write the list of the case, or to refuse a part of it, if the
/// case says which.
fn written(alloc: Global, case: &Case<'_>) -> Result<(), ReplayError> {
    let Some(want) = case.written else {
        return Ok(());
    };
    let bytes = case.document.bytes.as_slice();
    let events = case.events.as_slice();
    let is_written = match rewritten(alloc, bytes, &case.decoder, events)? {
        Some(written) => written.as_slice() == events,
        None => false,
    };
    if is_written == want {
        return Ok(());
    }
    let answer = String::from_str(alloc, written_text(is_written))?;
    Err(ReplayError::Differs(List::Whole, answer))
}

/// Returns how a line says whether the writer of events can write a list.
fn written_text(is_written: bool) -> &'static str {
    if is_written {
        "a list that the writer writes"
    } else {
        "a list that the writer does not write"
    }
}

/// Expects a copy of the tree to equal it, and `to_debug_string` to return the answer of the case.
fn copy(
    alloc: Global,
    case: &Case<'_>,
    tree: &Node,
    copies: &mut usize,
) -> Result<(), ReplayError> {
    let copy = tree.clone(alloc)?;
    if copy != *tree {
        let answer = format!(in alloc; "another copy, {copy:?}")?;
        return Err(ReplayError::Differs(List::Whole, answer));
    }
    expect(List::Whole, line_answer(alloc, &copy), case.answer)?;
    count(copies);
    Ok(())
}

/// Returns the answer of a case with this tree, from `to_debug_string`.
fn line_answer(alloc: Global, tree: &Node) -> Result<String, AllocError> {
    let line = tree.to_debug_string(alloc)?;
    format!(in alloc; "= {line}")
}

/// Expects the JSON, the plain text and the report of the tree to be those of the case.
fn forms(
    alloc: Global,
    forms: &Forms<'_>,
    tree: &Node,
    compared: &mut usize,
) -> Result<(), ReplayError> {
    if let Some(want) = forms.json {
        let json = to_json(alloc, tree);
        expect_form(alloc, "JSON", json, want.as_bytes(), compared)?;
    }
    if let Some(want) = &forms.plain {
        expect_form(alloc, "plain text", tree.to_string(alloc), want, compared)?;
    }
    if let Some(want) = &forms.report {
        expect_form(alloc, "report", report(alloc, tree), want, compared)?;
    }
    Ok(())
}

/// Returns the lines of the report on a tree.
fn report(alloc: Global, tree: &Node) -> Result<String, AllocError> {
    Ok(report_of(alloc, tree)?.text)
}

/// Compares the actual form of a tree with the expected one, and counts it.
fn expect_form(
    alloc: Global,
    what: &str,
    form: Result<String, AllocError>,
    want: &[u8],
    compared: &mut usize,
) -> Result<(), ReplayError> {
    let form = form?;
    if form.as_bytes() == want {
        count(compared);
        return Ok(());
    }
    let answer = format!(in alloc; "the {what} {form}")?;
    Err(ReplayError::Differs(List::Whole, answer))
}

/// Returns how a line says whether a tree is ordered.
fn order_text(is_ordered: bool) -> &'static str {
    if is_ordered {
        "a tree that is ordered"
    } else {
        "a tree that is not ordered"
    }
}

/// Whether no event's offset is less than that of the event before it.
fn never_goes_back(events: &[Event]) -> bool {
    let mut last: usize = 0;
    for event in events {
        if event.point.index < last {
            return false;
        }
        last = event.point.index;
    }
    true
}

/// Expects each beginning of the list that leaves a span open to be unbalanced at its last event.
fn cut(alloc: Global, case: &Case<'_>, cuts: &mut usize) -> Result<(), ReplayError> {
    let events = case.events.as_slice();
    let mut open: usize = 0;
    for index in 0..events.len() {
        let event = events[index];
        open = match event.kind {
            Kind::Enter => open.saturating_add(1),
            Kind::Exit => open.saturating_sub(1),
        };
        if open > 0 {
            let length = index + 1;
            let list = List::First(length);
            expect_unbalanced(alloc, case, list, &events[..length], event, cuts)?;
        }
    }
    Ok(())
}

/// Swaps two adjacent exits of different names, and expects the list to be unbalanced at the first
/// of them.
fn swap(alloc: Global, case: &Case<'_>, swaps: &mut usize) -> Result<(), ReplayError> {
    let events = case.events.as_slice();
    for index in 1..events.len() {
        let first = events[index - 1];
        let second = events[index];
        if are_unlike_exits(first, second) {
            let list = List::Swapped(index);
            let swapped = swapped(alloc, events, index)?;
            expect_unbalanced(alloc, case, list, swapped.as_slice(), second, swaps)?;
        }
    }
    Ok(())
}

/// Expects a list that is compiled for a case to be unbalanced at this event, and counts it.
fn expect_unbalanced(
    alloc: Global,
    case: &Case<'_>,
    list: List,
    events: &[Event],
    event: Event,
    compared: &mut usize,
) -> Result<(), ReplayError> {
    let want = unbalanced(alloc, event.point)?;
    let outcome = outcome(alloc, case, events);
    expect(list, answer(alloc, &outcome), want.as_str())?;
    count(compared);
    Ok(())
}

/// Whether two events are exits of different names.
fn are_unlike_exits(first: Event, second: Event) -> bool {
    first.kind == Kind::Exit && second.kind == Kind::Exit && !first.name.is(second.name)
}

/// Returns a list of events, with the one at this index and the one before it swapped.
fn swapped(alloc: Global, events: &[Event], index: usize) -> Result<Vec<Event>, AllocError> {
    let mut swapped = events.to_vec(alloc)?;
    if 0 < index && index < swapped.len() {
        swapped.swap(index - 1, index);
    }
    Ok(swapped)
}

/// Returns the result of `compile` for events over the document of a case.
fn outcome(alloc: Global, case: &Case<'_>, events: &[Event]) -> Result<Node, Fault> {
    let bytes = case.document.bytes.as_slice();
    match case.values {
        Values::AsInDocument => compile(alloc, events, bytes, &case.decoder),
        values if case.hidden.is_empty() => {
            compile_with(alloc, events, bytes, &case.decoder, values)
        }
        _ => compile_document(
            alloc,
            &mut Steps::new(events),
            &document_of(case),
            &case.decoder,
        ),
    }
}

/// Returns the document of a case, with its hidden bytes.
fn document_of<'c>(case: &'c Case<'_>) -> Document<'c> {
    let bytes = case.document.bytes.as_slice();
    if case.hidden.is_empty() {
        Document::new(bytes, case.values)
    } else {
        Document::hiding(bytes, &case.hidden)
    }
}

/// Returns the answer of a case from `compile_counted`.
fn counted(alloc: Global, case: &Case<'_>) -> Result<String, AllocError> {
    let mut steps = Steps::new(case.events.as_slice());
    let bytes = case.document.bytes.as_slice();
    let outcome = match case.values {
        Values::AsInDocument => compile_counted(alloc, &mut steps, bytes, &case.decoder),
        _ => compile_document(alloc, &mut steps, &document_of(case), &case.decoder),
    };
    answer(alloc, &outcome)
}

/// Returns the answer of a case from a builder that takes its enters and exits, and tokens at once.
fn built(alloc: Global, case: &Case<'_>) -> Result<String, AllocError> {
    let mut builder = TreeBuilder::new(alloc, document_of(case), &case.decoder);
    let mut waiting = None;
    for event in &case.events {
        waiting = take(&mut builder, waiting, *event);
    }
    if let Some(last) = waiting {
        builder.take(&last);
    }
    answer(alloc, &builder.finish())
}

/// Hands the event that waits, if one does, to a builder. Returns the event that waits now: the next
/// one, or none if the two are a token.
fn take<R: References>(
    builder: &mut TreeBuilder<'_, R>,
    waiting: Option<Event>,
    next: Event,
) -> Option<Event> {
    let Some(first) = waiting else {
        return Some(next);
    };
    if are_token(first, next) {
        builder.token(first.name, first.point, next.point);
        return None;
    }
    match first.kind {
        Kind::Enter => builder.enter(first.name, first.point),
        Kind::Exit => builder.exit(first.name, first.point),
    }
    Some(next)
}

/// Whether two events are the enter and the exit of a token.
fn are_token(first: Event, second: Event) -> bool {
    first.kind == Kind::Enter && second.kind == Kind::Exit && first.name.is(second.name)
}

/// Returns the answer of a case with this result.
fn answer(alloc: Global, outcome: &Result<Node, Fault>) -> Result<String, AllocError> {
    match outcome {
        Ok(tree) => shown(alloc, tree),
        Err(Fault::Message(message)) => refusal(alloc, message),
        Err(Fault::Memory(_)) => Err(AllocError),
    }
}

/// Returns the answer of a case with this tree.
fn shown(alloc: Global, tree: &Node) -> Result<String, AllocError> {
    format!(in alloc; "= {tree:?}")
}

/// Returns the answer of a case that is refused with this message.
fn refusal(alloc: Global, message: &Message) -> Result<String, AllocError> {
    match &message.place {
        Some(Place::Point(point)) => format!(in alloc; "! {} {point:?}", message.rule_id),
        _ => String::from_str(alloc, "! a message without a point"),
    }
}

/// Returns the answer of a list that is unbalanced at this point.
fn unbalanced(alloc: Global, point: Point) -> Result<String, AllocError> {
    let place = point.to_unist();
    format!(in alloc; "! events-unbalanced {place:?}")
}
