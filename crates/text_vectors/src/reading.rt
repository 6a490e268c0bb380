//! The event queries of the tests.

use markdown::{Constructs, ParseOptions, to_events};
use markdown_events::event::{Event, Kind, Name};
use std::alloc::{AllocError, Global};
use std::process::Abort;

/// Returns the events of a document with these constructs.
pub fn events(
    alloc: Global,
    document: &str,
    constructs: Constructs,
) -> Result<Vec<Event>, AllocError> {
    let options = ParseOptions {
        constructs,
        ..ParseOptions::gfm()
    };
    to_events(alloc, document, &options)
}

/// Whether a document has a span of a name, with these constructs.
pub fn has(
    alloc: Global,
    document: &str,
    constructs: Constructs,
    name: Name,
) -> Result<bool, AllocError> {
    let events = events(alloc, document, constructs)?;
    Ok(events.iter().any(|event| event.name == name))
}

/// Whether a document has a span of a name, with all constructs, if references need no definition.
pub fn has_undefined(alloc: Global, document: &str, name: Name) -> Result<bool, AllocError> {
    let options = ParseOptions {
        constructs: Constructs::everything(),
        undefined_references: true,
        ..ParseOptions::gfm()
    };
    let events = to_events(alloc, document, &options)?;
    Ok(events.iter().any(|event| event.name == name))
}

/// Returns the events of a document as a text, with all constructs. `(A` begins a span, `)` ends
/// one, and `A:1` is a token up to offset 1.
pub fn shown(alloc: Global, document: &str) -> Result<String, AllocError> {
    let events = events(alloc, document, Constructs::everything())?;
    let mut text = String::new(alloc);
    let mut entered = None;
    for event in events.iter() {
        entered = show(&mut text, event, entered)?;
    }
    Ok(text)
}

/// Appends an event to a text, and returns the name that it enters. `entered` is the name of the
/// event before it, if that is an enter: then an exit completes a token.
fn show(
    text: &mut String,
    event: &Event,
    entered: Option<Name>,
) -> Result<Option<Name>, AllocError> {
    match (event.kind, entered) {
        (Kind::Enter, None) => Ok(Some(event.name)),
        (Kind::Enter, Some(outer)) => {
            let name = outer.text();
            write!(text, "({name} ")?;
            Ok(Some(event.name))
        }
        (Kind::Exit, Some(token)) => {
            let name = token.text();
            let end = event.point.index;
            write!(text, "{name}:{end} ")?;
            Ok(None)
        }
        (Kind::Exit, None) => {
            text.push_str(") ")?;
            Ok(None)
        }
    }
}

/// Stops the test if a document does not have these events.
pub fn shows(rt: &impl Abort, alloc: Global, document: &str, want: &str) -> Result<(), AllocError> {
    let found = shown(alloc, document)?;
    assert_eq!(rt; found.as_str(), want, "{document}");
    Ok(())
}

/// Stops the test if a fact is false.
pub fn holds(rt: &impl Abort, fact: bool, case: &str) {
    assert!(rt; fact, "{case}");
}
