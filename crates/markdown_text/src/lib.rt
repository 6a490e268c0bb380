//! Text and string content (micromark): the inlines of a paragraph, a heading or a table cell, and the
//! escapes and character references of a label, a destination or a title.
//!
//! A first pass over the bytes of a text finds the constructs in it (`tokenizer`), and a second one
//! writes their spans (`text`). Both are linear in the length of the text, and neither uses the
//! machine's stack for depth.
#![tactic(auto)]

mod attention;
mod attention_names;
mod autolink;
mod blank;
mod brackets;
mod calls;
mod character_escape;
mod character_reference;
mod content;
mod cursor;
mod data;
mod delimiter_run;
mod destination;
pub mod document;
mod gfm_autolink_literal;
mod gfm_autolink_literal_email;
mod gfm_label_start_footnote;
mod gfm_task_list_item_check;
mod hard_break_escape;
mod html_text;
mod label_end;
mod label_start;
mod label_start_image;
mod label_start_link;
mod output;
mod pieces;
mod plain;
mod raw_text;
mod reference;
mod resource;
mod source;
mod spare_lists;
mod stretches;
mod string;
mod text;
mod title;
mod token;
mod tokenizer;
mod whitespace;
