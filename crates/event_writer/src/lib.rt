//! The only producer of events.
//!
//! Whichever calls a [`writer::Writer`] gets, its finished events are those of a forest that the
//! grammar accepts. Their tokens tile the document, and each event is at its true line and column.
#![tactic(auto)]

mod cursor;
pub mod laws;
mod places;
pub mod recorder;
pub mod sink;
pub mod writer;

pub use markdown_acceptance::error;
