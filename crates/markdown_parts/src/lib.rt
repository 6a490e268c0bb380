//! The parts that constructs make their nodes with: slices of the document, texts, labels, numbers,
//! and what each item is; lists of nodes whose texts merge (`joining`); and a stack that is never
//! empty (`nest`).
#![tactic(auto)]

pub mod buffer;
pub mod fenced;
pub mod items;
pub mod joining;
pub mod label;
pub mod line_ending;
pub mod marks;
pub mod misfits;
pub mod nest;
pub mod number;
pub mod slice;
pub mod texts;
pub mod value;
mod visible;
mod whole;
