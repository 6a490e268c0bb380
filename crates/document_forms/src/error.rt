//! Why not all that is asked for of a document is written.

ghost use Rattle.std.specs.Prelude.{◌≡◌};
ghost use Rattle.document_forms.specs.Errors.{IsOfWriting};
ghost use Rattle.document_forms.specs.declared.error.PrintError.TheVariants.{Memory};

use markdown_events::message::Message;
use std::alloc::{AllocError, AllocFailed};
use std::io;
use tree_forms::WriteError;

/// Why not all that is asked for of a document is written.
#[derive(Debug, Drop)]
pub enum PrintError {
    /// The byte of the document at this offset, counted from 0, does not begin a UTF-8 character.
    NotUtf8(usize),
    /// The line with this number, counted from 1, is not an event line.
    EventLine(usize),
    /// The events of the document have no tree.
    Refused(Message),
    /// Memory ran out.
    Memory,
    /// The output cannot be written.
    Output(io::Error),
}

impl From<AllocError> for PrintError {
    ghost from_gives = { λ _ error. error ≡ Memory };

    fn from(_error: AllocError) -> PrintError {
        PrintError::Memory
    }
}

impl<T: Drop> From<AllocFailed<T>> for PrintError {
    ghost from_gives = { λ _ error. error ≡ Memory };

    fn from(_error: AllocFailed<T>) -> PrintError {
        PrintError::Memory
    }
}

impl From<WriteError> for PrintError {
    ghost from_gives = { λ _ error. IsOfWriting error };

    fn from(error: WriteError) -> PrintError {
        match error {
            WriteError::Memory => PrintError::Memory,
            WriteError::Output(error) => PrintError::Output(error),
        }
    }
}

impl From<io::Error> for PrintError {
    ghost from_gives = { λ _ error. IsOfWriting error };

    fn from(error: io::Error) -> PrintError {
        PrintError::Output(error)
    }
}
