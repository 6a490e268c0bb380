//! How much was compared for the cases of a table.

use std::alloc::{AllocError, Global};

/// How many comparisons matched, besides those of answers. All are of cases with a tree.
#[derive(Clone, Copy)]
pub struct Counts {
    /// Trees with their copies.
    pub copies: usize,
    /// JSON lines, plain texts and reports, if the table has them.
    pub forms: usize,
    /// Lists that were cut while a span is open.
    pub cuts: usize,
    /// Lists in which two adjacent exits of different names were swapped.
    pub swaps: usize,
}

impl Counts {
    /// Returns the counts before any comparison.
    pub fn new() -> Counts {
        Counts {
            copies: 0,
            forms: 0,
            cuts: 0,
            swaps: 0,
        }
    }

    /// Returns the counts as the text of a line.
    pub fn text(self, alloc: Global) -> Result<String, AllocError> {
        let Counts {
            copies,
            forms,
            cuts,
            swaps,
        } = self;
        format!(in alloc;
            "{copies} trees copied, {forms} forms, {cuts} lists cut, {swaps} pairs of exits swapped"
        )
    }
}

/// Counts one more.
pub fn count(number: &mut usize) {
    *number = number.saturating_add(1);
}
