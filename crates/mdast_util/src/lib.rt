//! Queries of a tree: the node at a place, the definition of an identifier, an outline, and the
//! text for a search. In the unist ecosystem these are small packages, `unist-util-*` and
//! `mdast-util-*`.
//!
//! The tree may come from anywhere: from `compile`, from hand-written code, or from another parser.
//! `place::node_at` finds the deepest node at a byte, and `definitions::definition_of` the
//! definition that a reference means. `outline::outline` writes a table of contents, and
//! `plain_text::plain_text` writes the text, block by block.
#![tactic(auto)]

pub mod definitions;
pub mod outline;
pub mod place;
pub mod plain_text;
