//! The result of reading the block structure of a document: pieces, in the order of the document,
//! and the identifiers that it defines.
//!
//! `markdown_flow` makes them, and `markdown_text` reads the inlines in them.
#![tactic(auto)]

pub mod identifiers;
pub mod piece;
