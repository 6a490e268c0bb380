//! Parses a markdown document to an mdast tree, or to the events of its tokenizer.
//!
//! Use `to_mdast` for the tree, `to_events` for a token for every byte, `to_outline` for the headings
//! alone, and `to_text` for the text without its markup. `ParseOptions` says which constructs are on:
//! CommonMark, GFM, frontmatter and math.
//!
//! The crate also has what programs need to work with a tree: `mdast` has its nodes, and `unist`
//! their positions. `Walk` visits the nodes, `node_at` finds the one at a byte, and `definition_of`
//! finds the definition that a reference means. `to_json` prints a tree for other programs, and
//! `JsonPieces` does so piece by piece.
#![tactic(auto)]

mod events;
mod expected;
mod hidden;
mod hidden_sink;
mod hiding;
pub mod laws;
mod outline;
mod outline_sink;
mod text;
mod text_sink;
mod tree;
mod tree_sink;

pub use events::to_events;
pub use hidden::hidden_bytes;
pub use markdown_json::{JsonPieces, to_json, to_json_utf16};
pub use markdown_nodes::walk::Walk;
pub use markdown_nodes::{mdast, unist};
pub use markdown_options::{Constructs, ParseOptions};
pub use mdast_util::definitions::definition_of;
pub use mdast_util::place::node_at;
pub use outline::to_outline;
pub use text::to_text;
pub use tree::{compile_events, to_mdast};
