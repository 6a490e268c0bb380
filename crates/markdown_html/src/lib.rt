//! Renders markdown trees as HTML that is safe in a page, whoever wrote the document.
//!
//! `specs/Html.antt` defines the page of a tree, and `IsSafe` of the crate `html_text` defines
//! safety.
#![tactic(auto)]

mod attributes;
mod calls;
mod code;
mod definitions;
mod footnotes;
mod html;
mod links;
mod lists;
mod nodes;
mod page;
mod place;
mod source;
mod tables;
mod texts;

pub use html::{HtmlOptions, ID_PREFIX, RawHtml, UnsafeHtmlOptions, to_html, to_unsafe_html};
