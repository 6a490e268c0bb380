//! Tables of cases. Some cases are lists of events over documents with the expected result of
//! `compile`; others are documents with the expected tree of `to_mdast`. The program `mdast_replay`
//! replays them.
//!
//! `table` reads a table, `replay` compares one case with the result of `compile`, `counts` has the
//! numbers of comparisons, and `run` is a run over the files of a program.
#![tactic(auto)]

mod case;
mod counts;
mod decoder;
mod document;
mod hexadecimal;
mod line;
mod reading;
mod replay;
mod rewrite;
pub mod run;
mod spans;
mod sums;
mod table;
mod unquoted;
