//! The grammar of forests of events, their meaning as an mdast syntax tree, which trees are
//! ordered, and why a list of events is refused. The definitions are in `specs/`. The code has the
//! kinds of errors, how values are read, and the test whether a tree is ordered.
#![tactic(auto)]

pub mod error_kind;
pub mod ordered;
pub mod values;
