//! The nodes of an mdast syntax tree. The crate also re-exports what they are built from, from
//! `markdown_events`: points and positions of unist, messages, and the events of a tokenizer.
#![tactic(auto)]

pub mod laws;
pub mod mdast;
pub mod walk;

pub use markdown_events::{
    around, decimal, event, infer, message, role, search, steps, text, unist,
};
