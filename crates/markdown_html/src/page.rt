//! A page that is being written.

ghost use Rattle.std.specs.Prelude.{◌≡◌, ◌-◌, ◌++◌, OnOk, string_bytes};
ghost use Rattle.markdown_html.specs.Page.{fresh_line, is_fresh};
ghost use Rattle.markdown_html.specs.Pages.{page_of};

use crate::calls::Calls;
use std::alloc::AllocError;

/// A page that is being written.
#[derive(Drop)]
pub(crate) struct Page<'a> {
    /// The text written so far.
    pub text: String,
    /// The footnotes that are called in it.
    pub calls: Calls<'a>,
    /// How many bytes it may still copy.
    pub budget: usize,
}

impl<'a> Page<'a> {
    /// Copies this many bytes: takes them off the budget.
    pub fn spend(&mut self, cost: usize)
        ensures { page_of self.new ≡ record (page_of self.old) { budget = (page_of self.old).budget - cost } }
    {
        self.budget = self.budget.saturating_sub(cost);
    }
}

/// Begins a new line, unless one has just begun.
#[tactic(auto, unfolding(crate::specs::Page::fresh_line))]
pub(crate) fn push_fresh(out: &mut String) -> Result<(), AllocError>
    ensures { OnOk result (string_bytes out.new ≡ fresh_line (string_bytes out.old)) }
{
    if is_fresh(out.as_bytes()) {
        Ok(())
    } else {
        out.push_str("\n")
    }
}

/// Whether a text is empty or ends with a line feed.
fn is_fresh(text: &[u8]) -> bool
    ensures { result ≡ is_fresh text.now }
{
    match text.last() {
        Some(last) => *last == b'\n',
        None => true,
    }
}

/// Appends a text on a line of its own.
pub(crate) fn push_block(out: &mut String, text: &str) -> Result<(), AllocError>
    ensures { OnOk result (string_bytes out.new ≡ fresh_line (string_bytes out.old) ++ text.now) }
{
    push_fresh(out)?;
    out.push_str(text)
}
