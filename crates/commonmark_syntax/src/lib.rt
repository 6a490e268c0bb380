//! Scanners for the syntax of CommonMark and GFM: the beginnings and ends of blocks; autolinks,
//! character references, escapes, hard line breaks, and code spans; and what blocks and inlines
//! share: labels, destinations, titles, and HTML tags.
//!
//! Each scanner takes a text, and returns the length in bytes of the construct that the text begins
//! with, or nothing if it begins with none. A line ending in the text is a line feed. No scanner
//! uses the machine's stack for depth, and each reads a byte at most a few times.
#![tactic(auto)]

mod attribute;
pub mod atx_closing;
pub mod atx_opening;
pub mod backslash_break;
pub mod backslash_escape;
pub mod block_quote_marker;
pub mod bytes;
pub mod cdata;
pub mod class;
pub mod closing_fence;
pub mod closing_tag;
pub mod code_fence;
pub mod code_span;
pub mod comment;
pub mod decimal_reference;
pub mod declaration;
pub mod delimiter_row;
pub mod delimiter_run;
pub mod destination;
pub mod email_autolink;
pub mod email_literal;
pub mod entity_reference;
pub mod extended_autolink_path;
pub mod extended_autolink_start;
pub mod footnote_call;
pub mod footnote_label;
pub mod frontmatter_fence;
pub mod hexadecimal_reference;
pub mod html_block;
mod html_end;
mod html_names;
mod html_start;
pub mod html_tag;
pub mod info_string;
pub mod instruction;
pub mod label;
pub mod list_marker;
pub mod math_fence;
pub mod open_tag;
pub mod reading;
mod search;
pub mod setext_underline;
pub mod spaces_break;
pub mod tag_name;
pub mod task_mark;
pub mod thematic_break;
pub mod title;
pub mod uri_autolink;
