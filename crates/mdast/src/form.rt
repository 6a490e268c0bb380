//! What is printed of a document, and how.

use crate::arguments::Request;
use crate::error::{DocumentError, PrintError};
use crate::progress::Progress;
use crate::screen::Screen;
use crate::source::Source;
use document_forms::{
    Asked, Printed, TreeForm, write_compiled, write_document, write_event_lines, write_events,
};
use std::io::Write;

/// What is printed of a document.
#[derive(Clone, Copy, PartialEq, Eq, Debug)]
pub enum Form {
    /// The events, one on each line.
    Events,
    /// A form of the tree.
    Tree(TreeForm),
}

/// Prints what is requested of a document, and returns the status: 1 if there are warnings, and
/// otherwise 0.
///
/// After the last document the program ends, and its memory with it. So the nodes of that tree are
/// not freed one by one.
pub fn print_form(
    rt: &HostRuntime,
    request: &Request,
    source: &Source,
    document: &[u8],
    progress: &mut Progress,
) -> Result<u8, PrintError> {
    let is_last = progress.is_last();
    let mut output = Screen::new(rt, progress);
    let is_clean = match request.printed_form() {
        Form::Events => {
            print_events(rt, request, document, &mut output)?;
            true
        }
        Form::Tree(form) => {
            let asked = Asked {
                form,
                name: source.name(),
                width: request.width,
            };
            let printed = print_tree(rt, request, document, &asked, &mut output)?;
            if is_last {
                printed.forget()
            } else {
                printed.is_clean
            }
        }
    };
    Ok(u8::from(!is_clean))
}

/// Prints the events of a document: those of the file that is requested, or those of the tokenizer.
fn print_events<O: Write>(
    rt: &HostRuntime,
    request: &Request,
    document: &[u8],
    output: &mut O,
) -> Result<(), PrintError> {
    let alloc = rt.alloc();
    match &request.events {
        Some(events) => {
            let lines = event_lines(rt, events)?;
            Ok(write_event_lines(alloc, document, &lines, output)?)
        }
        None => Ok(write_events(alloc, document, &request.options, output)?),
    }
}

/// Prints a form of the tree of a document, from the requested events.
pub fn print_tree<O: Write>(
    rt: &HostRuntime,
    request: &Request,
    document: &[u8],
    asked: &Asked<'_>,
    output: &mut O,
) -> Result<Printed, PrintError> {
    let alloc = rt.alloc();
    match &request.events {
        Some(events) => {
            let lines = event_lines(rt, events)?;
            Ok(write_compiled(alloc, document, &lines, asked, output)?)
        }
        None => Ok(write_document(alloc, document, &request.options, asked, output)?),
    }
}

/// Returns the event lines in a file.
fn event_lines(rt: &HostRuntime, source: &Source) -> Result<Vec<u8>, DocumentError> {
    match source.read(rt) {
        Ok(lines) => Ok(lines),
        Err(error) => Err(DocumentError::of_events(error)),
    }
}
