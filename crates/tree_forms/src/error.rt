//! Why not all of a form is written.

use std::alloc::{AllocError, AllocFailed};
use std::io;

/// Why not all of a form is written.
#[derive(Debug, Drop)]
pub enum WriteError {
    /// Memory ran out.
    Memory,
    /// The output cannot be written.
    Output(io::Error),
}

impl From<AllocError> for WriteError {
    fn from(_error: AllocError) -> WriteError {
        WriteError::Memory
    }
}

impl<T: Drop> From<AllocFailed<T>> for WriteError {
    fn from(_error: AllocFailed<T>) -> WriteError {
        WriteError::Memory
    }
}

impl From<io::Error> for WriteError {
    fn from(error: io::Error) -> WriteError {
        WriteError::Output(error)
    }
}
