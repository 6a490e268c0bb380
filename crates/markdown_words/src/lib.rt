//! The words of a document, without its tree.
#![tactic(auto)]

mod closing;
pub mod laws;
mod setting;
mod speech;
pub mod words;
