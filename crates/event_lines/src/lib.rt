//! Event lines: the events of a tokenizer as a text, one event on each line, and the reader of that
//! text.
#![tactic(auto)]

pub mod lines;
mod point;
mod search;
pub mod written;
