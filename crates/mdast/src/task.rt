//! The work of the program for each document.

use crate::arguments::Request;
use crate::error::{DocumentError, PrintError};
use crate::form::print_form;
use crate::messages::unwritten;
use crate::progress::Progress;
use crate::source::Source;
use std::io;

/// Prints what is requested of each document, and returns the status: the greatest of theirs.
///
/// A document without output does not keep the others from being printed. If the output cannot be
/// written, nothing more is tried; a closed reader is not an error.
pub fn run(rt: &HostRuntime, request: &Request) -> u8 {
    let mut progress = Progress::new(rt, request.documents.len());
    let mut status = 0;
    for source in &request.documents {
        match print_document(rt, request, source, &mut progress) {
            Ok(found) => status = status.max(found),
            Err(error) => return status.max(unwritten(rt, &error)),
        }
    }
    status
}

/// Prints what is requested of a document, or why there is no output or no more of it, and returns
/// the status. The error says why standard output cannot be written.
fn print_document(
    rt: &HostRuntime,
    request: &Request,
    source: &Source,
    progress: &mut Progress,
) -> io::Result<u8> {
    let printed = print(rt, request, source, progress);
    match printed {
        Ok(status) => Ok(status),
        Err(PrintError::Unwritten(error)) => Err(error),
        Err(PrintError::Document(error)) => {
            progress.clear(rt);
            let place = error.source(source, request.events.as_ref());
            let _ = rt.eprintln(format_args!("mdast: {place}: {error}"));
            Ok(error.status())
        }
    }
}

/// Prints what is requested of a document, and returns the status.
fn print(
    rt: &HostRuntime,
    request: &Request,
    source: &Source,
    progress: &mut Progress,
) -> Result<u8, PrintError> {
    progress.next();
    let document = match source.read(rt) {
        Ok(document) => document,
        Err(error) => return Err(PrintError::Document(DocumentError::of_document(error))),
    };
    progress.show(rt, source, document.len());
    print_form(rt, request, source, &document, progress)
}
