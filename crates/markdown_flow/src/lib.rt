//! The block structure of a document: document and flow of micromark.
//!
//! [`document::read`] reads a document line by line. It keeps the open containers and the open
//! leaf. It returns pieces, which tile the document, and the identifiers that it defines.
//! `markdown_text` reads the inlines in the pieces.
#![tactic(auto)]

mod blank_line;
mod block_quote;
mod byte_order_mark;
mod code_fenced;
mod code_indented;
mod container;
mod content;
mod definition;
mod definition_pieces;
pub mod document;
mod flow;
mod frontmatter;
mod gfm_footnote_definition;
mod gfm_table;
mod gfm_table_row;
mod heading_atx;
mod heading_setext;
mod html_flow;
mod input;
mod leaf;
mod line;
mod list_item;
mod math_flow;
mod output;
mod paragraph;
mod raw_flow;
mod space_or_tab;
mod thematic_break;
