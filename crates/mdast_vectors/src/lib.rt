//! Worked examples of the whole layer, each a test with its expected values.
//!
//! They show what no contract says: that calls succeed, how nodes are printed, how deep trees may
//! be, and that the contracts mean what they were meant to. Their values were worked out by hand
//! from the rules of mdast, CommonMark and GFM, or are those of the tests of markdown-rs; none
//! comes from a run of this repository. Lists of events with their trees are in the tables that
//! `mdast_replay` reads. They are here only if they are too long, or if the tree comes from no
//! list. `scripts/refuse-memory-in-rows` runs the tests with each allocation refused in turn.
//!
//! The crate re-exports `ordered`, which says whether a tree's nodes nest and are in order. The
//! trees of a list whose offsets never go back are ordered.
#![tactic(auto)]

#[cfg(test)]
mod alignment;
#[cfg(test)]
mod check;
#[cfg(test)]
mod debug_form;
#[cfg(test)]
mod decoders;
#[cfg(test)]
mod depths;
#[cfg(test)]
mod expect;
#[cfg(test)]
mod joining;
#[cfg(test)]
mod json;
#[cfg(test)]
mod lines;
#[cfg(test)]
mod memory;
#[cfg(test)]
mod names;
#[cfg(test)]
mod nests;
#[cfg(test)]
mod nodes;
#[cfg(test)]
mod order;
#[cfg(test)]
mod outcomes;
#[cfg(test)]
mod outline;
#[cfg(test)]
mod pairs;
#[cfg(test)]
mod parsed;
#[cfg(test)]
mod questions;
#[cfg(test)]
mod refusals;
#[cfg(test)]
mod replay;
#[cfg(test)]
mod shown;
#[cfg(test)]
mod spans;
#[cfg(test)]
mod spread;
#[cfg(test)]
mod texts;
#[cfg(test)]
mod trees;
#[cfg(test)]
mod unbalanced;
#[cfg(test)]
mod warnings;
#[cfg(test)]
mod writer;

pub use markdown_grammar::ordered::ordered;
