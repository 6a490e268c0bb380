//! What programs print of a document.
//!
//! `parsed` reads a document and writes a form of its tree, or its events. `compiled` does so with
//! events from another tokenizer, given as event lines. `error` says why not all is written, and
//! `outcome` has what is left to the caller after all is.
#![tactic(auto)]

mod compiled;
mod error;
mod event_list;
mod outcome;
mod parsed;
#[cfg(test)]
mod tests;

pub use compiled::{write_compiled, write_event_lines};
pub use error::PrintError;
pub use outcome::Printed;
pub use parsed::{write_document, write_events};
pub use tree_forms::{Asked, TreeForm};
