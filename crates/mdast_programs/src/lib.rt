//! The work of the programs `mdast_show` and `mdast_replay`, and of the C interface.
//!
//! `run` is one run that prints a tree as Debug does, and `check` one that prints what `mdast_check`
//! finds in it. `outcomes` are the results of calls from other languages. `document`, `request`,
//! `input`, `output` and `program` have what has nothing to do with trees: arguments, files, and the
//! fixed lines of `mdast_show`.
#![tactic(auto)]

pub mod check;
pub mod document;
pub mod input;
pub mod outcomes;
pub mod output;
pub mod program;
pub mod request;
pub mod run;
