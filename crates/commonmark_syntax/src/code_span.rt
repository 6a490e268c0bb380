//! Code spans, and math, which has dollars in place of backticks (CommonMark).

ghost use Rattle.std.specs.Prelude.{◌≡◌, ◌≢◌, ◌≤◌, ◌<◌, ◌+◌, ◌-◌, ◌^◌, IfOk, IfSome, MatchOption, OnOk, drop, false, length, nat_lt, slice_index, ℕ};
ghost use Rattle.commonmark_syntax.specs.Strings.{AreLast, FirstStringEnds, HasNoString, IsKept};

use crate::bytes::{after, run_length};
use crate::search::find_byte;
use std::alloc::{AllocError, Global};

/// Where the last string of each size ends, for one mark in a text.
///
/// With it, the string that closes a code span is searched only if there is one. A search without it
/// either finds its string, and the code span ends there, or is the last one without it. So all
/// searches together are linear.
#[derive(Drop)]
pub struct LastStrings {
    /// The offset where the last string of a size ends, indexed by the size. It is 0 if there is
    /// none.
    ends: Vec<usize>,
}

impl LastStrings {
    /// Returns the last strings of a mark in a text. The only error is that memory ran out.
    fn new(alloc: Global, text: &[u8], mark: u8) -> Result<LastStrings, AllocError>
        ensures { IfOk result (AreLast mark text.now) }
    {
        let mut last = LastStrings {
            ends: Vec::new(alloc),
        };
        let mut run: usize = 0;
        for (at, byte) in text.iter().enumerate() {
            if *byte == mark {
                run += 1;
            } else {
                last.keep(run, at)?;
                run = 0;
            }
        }
        last.keep(run, text.len())?;
        Ok(last)
    }

    /// Records that a string ends at an offset. An empty string is ignored. The only error is that
    /// memory ran out.
    fn keep(&mut self, size: usize, end: usize) -> Result<(), AllocError>
        requires order { size ≤ end }
        requires fits { end < 2 ^ 63 }
        ensures { OnOk result (IsKept size end self.old.ends.items self.new.ends.items) }
    {
        if size == 0 {
            return Ok(());
        }
        self.reach(size)?;
        self.ends[size] = end;
        Ok(())
    }

    /// Makes room for a size. The only error is that memory ran out.
    fn reach(&mut self, size: usize) -> Result<(), AllocError>
        requires { size < 2 ^ 63 }
        ensures room { OnOk result (size < length self.new.ends.items) }
        ensures same { OnOk result ((n : ℕ) → slice_index self.new.ends.items n ≡ slice_index self.old.ends.items n) }
    {
        if self.ends.len() <= size {
            self.ends.resize(size + 1, 0)?;
        }
        Ok(())
    }

    /// Whether it is known that a string of this size ends after an offset.
    fn has_after(&self, size: usize, at: usize) -> bool
        ensures { result ≡ nat_lt at (slice_index self.now.ends.items size) }
    {
        match self.ends.get(size) {
            Some(end) => at < *end,
            None => false,
        }
    }
}

/// Returns the length of the code span that begins with a string of `size` marks at an offset, if
/// one does (CommonMark).
///
/// `last` has what is known of the strings of the mark in the content. It is computed once, after
/// the first string that nothing closes. The only error is that memory ran out.
pub fn scan(
    alloc: Global,
    content: &[u8],
    mark: u8,
    at: usize,
    size: usize,
    last: &mut Option<LastStrings>,
) -> Result<Option<usize>, AllocError>
    requires some { 0 < size }
    requires within { at + size ≤ length content.now }
    requires next { at + size < length content.now → slice_index content.now (at + size) ≢ mark }
    requires last { IfSome last.old (AreLast mark content.now) }
    ensures last { IfSome last.new (AreLast mark content.now) }
    ensures exact { IfOk result (λ found. MatchOption found (HasNoString mark (drop (at + size) content.now) size) (λ whole. (size ≤ whole) × FirstStringEnds mark (drop (at + size) content.now) size (whole - size))) }
    ensures most { IfOk result (λ found. IfSome found (λ whole. at + whole ≤ length content.now)) }
{
    match last {
        Some(known) if !known.has_after(size, at + size) => return Ok(None),
        _ => {}
    }
    match length_through_string(after(content, at + size), mark, size) {
        Some(end) => Ok(Some(size + end)),
        None => {
            remember(alloc, content, mark, last)?;
            Ok(None)
        }
    }
}

/// Finds the last strings of a mark in a text, unless they are known. The only error is that memory
/// ran out.
fn remember(
    alloc: Global,
    content: &[u8],
    mark: u8,
    last: &mut Option<LastStrings>,
) -> Result<(), AllocError>
    requires { IfSome last.old (AreLast mark content.now) }
    ensures { IfSome last.new (AreLast mark content.now) }
{
    if last.is_none() {
        *last = Some(LastStrings::new(alloc, content, mark)?);
    }
    Ok(())
}

/// Returns the length of a text through the first string of `size` marks in it. This is the rest of
/// a code span after its opening string of the same size (CommonMark).
///
/// In `a$$b$c` it is 5 for one dollar.
fn length_through_string(text: &[u8], mark: u8, size: usize) -> Option<usize>
    requires { 0 < size }
    ensures exact { MatchOption result (HasNoString mark text.now size) (FirstStringEnds mark text.now size) }
    ensures most { IfSome result (λ end. end ≤ length text.now) }
    ensures least { IfSome result (λ end. size ≤ end) }
{
    let mut at = 0;
    while at < text.len() {
        let start = at + find_byte(&text[at..], mark);
        let run = run_length(&text[start..], mark);
        at = start + run;
        if run == size {
            return Some(at);
        }
    }
    None
}
