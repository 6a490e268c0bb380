//! What character references stand for. The crate has the trait `References` of a decoder, which
//! the caller provides, and four decoders. `Decoder` knows numbers and four names,
//! `NamedReferences` also a table of names, `HtmlReferences` the names of HTML, and `NoReferences`
//! nothing.
#![tactic(auto)]

pub mod decoder;
pub mod html;
mod html_names;
pub mod named;
pub mod references;
mod search;
