//! Inline constructs (CommonMark, "Inlines"; GFM), and the definitions that they refer to. For each
//! construct: what it accepts, what it keeps of that, and the node at its exit.
//!
//! Emphasis, strong emphasis and strikethrough are not here, since they keep only their nodes
//! (`parent` of `markdown_blocks`). Inline code and inline math are with the blocks that they share
//! their values with (`code` and `math` there).
#![tactic(auto)]

pub mod autolink;
pub mod character_reference;
pub mod definition;
pub mod footnote_call;
pub mod footnote_definition;
mod image;
pub mod label;
mod link;
pub mod media;
pub mod text;
