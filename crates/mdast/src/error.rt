//! Why a document has no output, or not all of it.

use crate::source::Source;
use markdown_nodes::message::Message;
use std::io::{self, ErrorKind};
use std::{error, fmt};

/// Why a document has no output.
#[derive(Debug, Drop)]
pub enum DocumentError {
    /// It cannot be read.
    Unread(ErrorKind),
    /// Its byte at this offset, counted from 0, does not begin a UTF-8 character.
    NotUtf8(usize),
    /// The file of its events cannot be read.
    UnreadEvents(ErrorKind),
    /// The line with this number, counted from 1, is not an event line.
    EventLine(usize),
    /// Its events have no tree.
    Refused(Message),
    /// Memory ran out.
    Memory,
}

impl DocumentError {
    /// Returns the error of a document that cannot be read.
    pub fn of_document(error: io::Error) -> DocumentError {
        match error.kind() {
            ErrorKind::OutOfMemory => DocumentError::Memory,
            kind => DocumentError::Unread(kind),
        }
    }

    /// Returns the error of events that cannot be read.
    pub fn of_events(error: io::Error) -> DocumentError {
        match error.kind() {
            ErrorKind::OutOfMemory => DocumentError::Memory,
            kind => DocumentError::UnreadEvents(kind),
        }
    }

    /// Returns the source that it is about, of a document and that of its events, if there is one.
    pub fn source<'a>(&self, document: &'a Source, events: Option<&'a Source>) -> &'a Source {
        match self {
            DocumentError::UnreadEvents(_) | DocumentError::EventLine(_) => {
                events.unwrap_or(document)
            }
            _ => document,
        }
    }

    /// Returns the exit status: 1 if the events have no tree, 3 if memory ran out, and otherwise 2.
    pub fn status(&self) -> u8 {
        match self {
            DocumentError::Refused(_) => 1,
            DocumentError::Memory => 3,
            _ => 2,
        }
    }
}

impl fmt::Display for DocumentError {
    fn fmt<W: fmt::Write>(&self, f: &mut fmt::Formatter<W>) -> fmt::Result {
        match self {
            DocumentError::Unread(kind) | DocumentError::UnreadEvents(kind) => {
                f.write_str(cause(*kind))
            }
            DocumentError::NotUtf8(offset) => write!(f, "byte {offset} is not UTF-8"),
            DocumentError::EventLine(number) => write!(f, "event line {number} cannot be read"),
            DocumentError::Refused(message) => write!(f, "{message}"),
            DocumentError::Memory => f.write_str("out of memory"),
        }
    }
}

impl error::Error for DocumentError {}

/// Why not all of what is requested of a document is printed.
#[derive(Debug, Drop)]
pub enum PrintError {
    /// It has no output, or no more of it.
    Document(DocumentError),
    /// Standard output cannot be written.
    Unwritten(io::Error),
}

impl From<DocumentError> for PrintError {
    fn from(error: DocumentError) -> PrintError {
        PrintError::Document(error)
    }
}

impl From<document_forms::PrintError> for PrintError {
    fn from(error: document_forms::PrintError) -> PrintError {
        match error {
            document_forms::PrintError::NotUtf8(offset) => {
                PrintError::Document(DocumentError::NotUtf8(offset))
            }
            document_forms::PrintError::EventLine(number) => {
                PrintError::Document(DocumentError::EventLine(number))
            }
            document_forms::PrintError::Refused(message) => {
                PrintError::Document(DocumentError::Refused(message))
            }
            document_forms::PrintError::Memory => PrintError::Document(DocumentError::Memory),
            document_forms::PrintError::Output(error) => PrintError::Unwritten(error),
        }
    }
}

/// Returns why a file cannot be read, for people.
fn cause(kind: ErrorKind) -> &'static str {
    match kind {
        ErrorKind::NotFound => "no such file",
        ErrorKind::PermissionDenied => "permission denied",
        ErrorKind::IsADirectory => "is a directory",
        ErrorKind::NotADirectory => "not a directory",
        _ => "cannot be read",
    }
}
