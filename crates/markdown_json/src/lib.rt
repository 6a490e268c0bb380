//! Writes a tree as JSON, in the terms of mdast, as the programs of the unist ecosystem read and
//! write it.
//!
//! `pieces` goes over the tree, `kinds` has the fields of each kind of node, and `fields`,
//! `positions` and `strings` write them. `points` counts places in bytes or, with `utf16`, in UTF-16
//! code units. `json` has the functions that return the whole text.
#![tactic(auto)]

mod fields;
mod json;
mod kinds;
pub mod laws;
mod pieces;
mod points;
mod positions;
mod strings;
#[cfg(test)]
mod tests;
mod utf16;

pub use json::{to_json, to_json_utf16};
pub use pieces::JsonPieces;
