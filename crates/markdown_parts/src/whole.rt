//! Whole values: the columns of a split tab as spaces, and U+FFFD for each NUL (CommonMark, tabs and
//! insecure characters).

ghost use Rattle.std.specs.Prelude.{◌≡◌, ◌++◌, IfOk, OnOk, option_copied, string_bytes};
ghost use Rattle.markdown_grammar.specs.Whole.{before_tab, blanks, ended, left_of_tab, tab_width, whole, without_nul};

use markdown_nodes::event::Point;
use std::alloc::{AllocError, Global};

/// Returns the whole value of a slice of the document from one point to another. The only error is
/// that memory ran out.
///
/// The slice `foo` that begins at column 7, after two columns of a tab, is `␠␠foo`.
pub fn whole_value(
    alloc: Global,
    text: &str,
    start: Point,
    end: Point,
) -> Result<String, AllocError>
    ensures { IfOk result (λ value. string_bytes value ≡ whole text.now start end) }
{
    let mut value = String::new(alloc);
    if text.is_empty() {
        let count = left_of_tab(start).saturating_sub(left_of_tab(end));
        add_blanks(&mut value, count)?;
        return Ok(value);
    }
    add_blanks(&mut value, left_of_tab(start))?;
    add_ended(&mut value, text, end)?;
    Ok(value)
}

/// Returns how many columns a tab takes that begins at a column.
fn tab_width(column: usize) -> usize
    ensures { result ≡ tab_width column }
{
    4 - column.saturating_sub(1) % 4
}

/// Returns how many columns of a tab are left after a point within it.
fn left_of_tab(point: Point) -> usize
    ensures { result ≡ left_of_tab point }
{
    if point.vs > 0 {
        let begins = point.column.saturating_sub(point.vs);
        tab_width(begins).saturating_sub(point.vs)
    } else {
        0
    }
}

/// Appends spaces to a value.
fn add_blanks(value: &mut String, count: usize) -> Result<(), AllocError>
    ensures { OnOk result (string_bytes value.new ≡ string_bytes value.old ++ blanks count) }
{
    for _ in 0..count {
        value.push_str(" ")?;
    }
    Ok(())
}

/// Appends a text to a value. If it ends in a tab, the columns of the tab before the end are
/// appended.
fn add_ended(value: &mut String, text: &str, end: Point) -> Result<(), AllocError>
    ensures { OnOk result (string_bytes value.new ≡ string_bytes value.old ++ ended text.now end) }
{
    match before_tab(text, end) {
        Some(front) => {
            add_without_nul(value, front)?;
            add_blanks(value, end.vs.min(4))
        }
        None => add_without_nul(value, text),
    }
}

/// Returns the text before the tab in which it ends.
fn before_tab(text: &str, end: Point) -> Option<&str>
    ensures { option_copied result ≡ before_tab text.now end }
{
    if end.vs > 0 {
        text.strip_suffix('\t')
    } else {
        None
    }
}

/// Appends a text to a value, with U+FFFD for each NUL.
fn add_without_nul(value: &mut String, text: &str) -> Result<(), AllocError>
    ensures { OnOk result (string_bytes value.new ≡ string_bytes value.old ++ without_nul text.now) }
{
    let mut rest = text;
    'nul: while let Some((before, after)) = rest.split_once('\0') {
        value.push_str(before)?;
        value.push_str("\u{FFFD}")?;
        rest = after;
    }
    value.push_str(rest)
}
