//! Builds an mdast syntax tree from the events of a tokenizer: [`compile`](to_mdast::compile).
//!
//! `context` has the open spans and what each event does to them, and `to_mdast` the loop over the
//! events. `builder` builds a tree event by event, without a list. `History` is what a proof says of
//! the events that were taken.
#![tactic(auto)]

pub mod builder;
mod context;
mod history;
mod spare_lists;
pub mod to_mdast;

pub use history::History;
pub use markdown_steps::laws;
