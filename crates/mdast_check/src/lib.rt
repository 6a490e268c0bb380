//! Checks of a tree, for linters and tables of contents: what is wrong in it, which references lead
//! nowhere, and which headings there are.
//!
//! The tree may come from anywhere: from `compile`, from hand-written code, or from another parser.
//! `open_references` finds the references that no definition answers, `headings` finds the
//! headings, and `report` writes both as lines. `warnings` finds what a linter warns about: these
//! references, and also headings that jump, definitions that are unused or duplicate, empty links,
//! and images without an alternative text; each warning can be printed. `walk` visits all nodes,
//! for checks of your own.
#![tactic(auto)]

pub mod laws;
pub mod outline;
pub mod references;
pub mod report;
pub mod warnings;

pub use markdown_nodes::walk;
pub use outline::{Title, headings};
pub use references::{Open, OpenKind, open_references};
pub use warnings::{Problem, Warning};
