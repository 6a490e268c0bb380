//! What programs print of a tree.
//!
//! `form` names the forms, and `written` writes a tree in one of them. `lines` draws the tree for
//! people, one line for each node, and `line` has what is in such a line. `error` says why not all is
//! written.
#![tactic(auto)]

mod error;
mod form;
mod line;
mod lines;
#[cfg(test)]
mod tests;
mod written;

pub use error::WriteError;
pub use form::{Asked, TreeForm};
pub use lines::TreeLines;
pub use written::write_tree;
