//! Texts and addresses in a page of HTML, and which texts are safe in one.
//!
//! `IsSafe` (`specs/Safe.antt`) is the definition of a safe text: a browser's tokenizer reads only listed
//! elements and attributes in it, and closes each element that it opens.
#![tactic(auto)]

pub mod escapes;
pub mod filter;
pub mod urls;
