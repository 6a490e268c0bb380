//! The events of a tokenizer, and what is read from them without the grammar: names and what each
//! is to the tree, points, spans of a flat list, spread and alignment. It also has the one reader
//! of a list, which counts steps.
//!
//! What needs no event is here, too: points and positions of unist (`unist`), messages with a place
//! (`message`), numbers in decimal digits (`decimal`), searches (`search`), and transformations of texts (`text`). The
//! crate `markdown_nodes` re-exports these modules, each under its name.
#![tactic(auto)]

pub mod around;
pub mod decimal;
pub mod event;
pub mod infer;
pub mod laws;
pub mod message;
pub mod role;
pub mod search;
pub mod steps;
pub mod text;
pub mod unist;
