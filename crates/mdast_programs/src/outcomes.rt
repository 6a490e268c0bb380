//! The outcomes of calls from other languages. [`parsed::parsed`] takes a document, and returns its
//! tree as JSON or in another form. [`outcome_of`] takes a document and its event lines, and
//! returns its tree as JSON, or what is wrong. `mdast_c` has the functions that C calls.

ghost use Rattle.std.specs.Prelude.{◌≡◌, ◌≢◌, ◌⊎◌, ◌<◌, [], IfOk, IfSome, IsOkAnd, string_bytes};
ghost use Rattle.std.specs.String.{string_capacity};
ghost use Rattle.markdown_events.specs.Messages.{start_of};
ghost use Rattle.markdown_json.specs.Json.{json};
ghost use Rattle.markdown_nodes.specs.View.{view};
ghost use Rattle.mdast_programs.specs.Outcomes.{IsOutcome, IsWithoutRefusal, point_of};

mod constructs;
pub mod parsed;

use character_references::named::NamedReferences;
use event_lines::lines::{LinesError, events};
use markdown_events::message::{Fault, Message, Place};
use markdown_events::unist::Point;
use markdown_json::to_json;
use markdown_nodes::mdast::Node;
use markdown_tree::to_mdast::compile;
use std::alloc::{AllocError, Global};

/// The status of a tree, and of another form of it.
const TREE: u32 = 0;

/// The status of events that are refused.
const REFUSED: u32 = 1;

/// The status of event lines that cannot be read.
const UNREAD: u32 = 2;

/// The status if memory ran out.
const MEMORY: u32 = 3;

/// The status of a table of references that is not UTF-8.
const TABLE: u32 = 4;

/// The outcome of a call of [`outcome_of`] or [`parsed::parsed`].
///
/// `status` says which of the other fields are set; the others are an empty text or 0. A text is a
/// pointer and a length in bytes, and no pointer is null. The caller frees `text` after status 0,
/// even if it is empty, and never `rule` or `reason`, which are constants. The form is ours.
#[repr(C)]
#[derive(Drop)]
pub struct Outcome {
    /// 0 for a tree, 1 if the events are refused, 2 if a line cannot be read, 3 if memory ran out,
    /// 4 if the table of references is not UTF-8, 5 if the document is not UTF-8, and 6 if the
    /// options are invalid.
    pub status: u32,
    /// With status 0 the tree, as JSON or in the requested form.
    pub text: &'static [u8],
    /// With status 1 the rule that is violated: an identifier for programs, such as `slice-invalid`.
    pub rule: &'static [u8],
    /// With status 1 what is wrong: a sentence for people.
    pub reason: &'static [u8],
    /// With status 1 the line of the place, and with status 2 the number of the event line. Both
    /// count from 1.
    pub line: usize,
    /// With status 1 the column of the place, counted from 1.
    pub column: usize,
    /// How many bytes of the document come before a place: with status 1 the place of the error,
    /// and with status 5 the first byte that begins no character.
    pub offset: usize,
}

/// Compiles the tree of a document for a caller in another language.
///
/// `event_lines` has events, one on each line, in the form that [`events`] reads. `references` is a
/// table of `name=text` lines, as in [`NamedReferences`]; with an empty one, the names that are
/// known without a table remain. In the outcome `offset` counts bytes of the document from 0, and
/// `line` and `column` count from 1. The statuses are these:
///
/// - 0: the tree is in `text`, as JSON;
/// - 1: the events are refused, as by [`compile`]; `rule` and `reason` say why, and `line`,
///   `column` and `offset` say where;
/// - 2: the event line with the number `line` is the first one that cannot be read;
/// - 3: memory ran out;
/// - 4: `references` is not UTF-8, and nothing else was checked.
///
/// The form is ours.
///
/// For `Hi` and the events of a paragraph with one data span the status is 0, and `text` is a root
/// with a paragraph with a text. Without the last of these events the status is 1, `rule` is
/// `events-unbalanced`, and the place is line 1, column 3, offset 2.
pub fn outcome_of(alloc: Global, document: &[u8], event_lines: &[u8], references: &[u8]) -> Outcome
    ensures { IsOutcome result document.now event_lines.now references.now }
{
    let Ok(table) = str::from_utf8(references) else {
        return bare(TABLE);
    };
    let events = match events(alloc, event_lines) {
        Ok(events) => events,
        Err(LinesError::Unread(number)) => return unread(number),
        Err(LinesError::Memory(_)) => return bare(MEMORY),
    };
    match compile(alloc, &events, document, &NamedReferences { table }) {
        Ok(tree) => compiled(alloc, &tree),
        Err(Fault::Message(message)) => refused(message),
        Err(Fault::Memory(_)) => bare(MEMORY),
    }
}

/// Returns an outcome with only a status.
fn bare(status: u32) -> Outcome
    ensures status { result.status ≡ status }
    ensures text { result.text.now ≡ [] }
    ensures refusal { IsWithoutRefusal result }
    ensures line { result.line ≡ 0 }
{
    Outcome {
        status,
        text: b"",
        rule: b"",
        reason: b"",
        line: 0,
        column: 0,
        offset: 0,
    }
}

/// Returns the outcome for the number of the first line that cannot be read.
fn unread(number: usize) -> Outcome
    ensures status { result.status ≡ 2 }
    ensures text { result.text.now ≡ [] }
    ensures refusal { IsWithoutRefusal result }
    ensures line { result.line ≡ number }
{
    let mut outcome = bare(UNREAD);
    outcome.line = number;
    outcome
}

/// Returns a tree as JSON, in a text that the caller owns, or the outcome that memory ran out.
fn compiled(alloc: Global, tree: &Node) -> Outcome
    ensures status { (result.status ≡ 0) ⊎ (result.status ≡ 3) }
    ensures tree { result.status ≡ 0 → result.text.now ≡ json (view tree.now) }
    ensures text { result.status ≢ 0 → result.text.now ≡ [] }
    ensures refusal { IsWithoutRefusal result }
    ensures line { result.line ≡ 0 }
{
    with_text(to_json(alloc, tree))
}

/// Returns a text that the caller owns, or the outcome that memory ran out.
fn with_text(text: Result<String, AllocError>) -> Outcome
    ensures status { (result.status ≡ 0) ⊎ (result.status ≡ 3) }
    ensures given { result.status ≡ 0 → IsOkAnd text (λ text. result.text.now ≡ string_bytes text) }
    ensures text { result.status ≢ 0 → result.text.now ≡ [] }
    ensures refusal { IsWithoutRefusal result }
    ensures line { result.line ≡ 0 }
{
    let Ok(text) = text else {
        return bare(MEMORY);
    };
    match with_memory(text) {
        Ok(text) => {
            let mut outcome = bare(TREE);
            outcome.text = text.into_bytes().leak();
            outcome
        }
        Err(_) => bare(MEMORY),
    }
}

/// Returns a text whose bytes the caller can free: they are in an allocation of their own, even if
/// there are none.
fn with_memory(mut text: String) -> Result<String, AllocError>
    ensures bytes { IfOk result (λ given. string_bytes given ≡ string_bytes text) }
    ensures memory { IfOk result (λ given. 0 < string_capacity given) }
{
    if text.is_empty() {
        text.reserve_exact(1)?;
    }
    Ok(text)
}

/// Returns the outcome for a message.
fn refused(message: Message) -> Outcome
    ensures status { result.status ≡ 1 }
    ensures text { result.text.now ≡ [] }
    ensures rule { result.rule.now ≡ message.rule_id.now }
    ensures reason { result.reason.now ≡ message.reason.now }
    ensures point { IfSome message.place (λ place. point_of result ≡ start_of place) }
{
    let start = start(message.place);
    Outcome {
        status: REFUSED,
        text: b"",
        rule: message.rule_id.as_bytes(),
        reason: message.reason.as_bytes(),
        line: start.line,
        column: start.column,
        offset: start.offset,
    }
}

/// Returns where the place of a message begins, if it has one.
fn start(place: Option<Place>) -> Point
    ensures { IfSome place (λ place. result ≡ start_of place) }
{
    match place {
        Some(place) => place.start(),
        None => Point::new(0, 0, 0),
    }
}
