//! How the tokenizer reads the document of a case.

use crate::line::LineError;
use markdown::{Constructs, ParseOptions, to_events};
use markdown_nodes::event::Event;
use std::alloc::Global;

/// Returns how a document is read, from the word of a line `read`.
pub fn options_of_word(word: &str) -> Option<ParseOptions> {
    match word {
        "commonmark" => Some(ParseOptions::default()),
        "gfm" => Some(ParseOptions::gfm()),
        "all" => Some(ParseOptions {
            constructs: Constructs::everything(),
            ..ParseOptions::gfm()
        }),
        _ => None,
    }
}

/// Returns the events of a document.
pub fn events_of_document(
    alloc: Global,
    text: &str,
    options: &ParseOptions,
) -> Result<Vec<Event>, LineError> {
    Ok(to_events(alloc, text, options)?)
}
