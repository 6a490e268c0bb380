//! How the text of a span is changed before it becomes a field of a node.

ghost use Rattle.std.specs.Prelude.{◌≡◌, ◌<◌, ◌++◌, IfOk, string_bytes, unwrap_or, chars, encode_utf8_all};
ghost use Rattle.std.specs.Option.{option_copied};
ghost use Rattle.std.specs.List.{list_all, list_any};
ghost use Rattle.caseless.specs.Caseless.{default_case_fold};
ghost use Rattle.markdown_events.specs.Texts.{
  trim,
  without_first_line_ending,
  without_last_line_ending,
  without_escapes,
  is_space,
  without_padding,
  raw,
  spaces,
  is_blank,
  collapsed,
  fold,
};
ghost use Rattle.markdown_events.specs.TextWalks.{after_first, before_last, blanks_after, collapsed_part, spaced_part};

use std::alloc::{AllocError, Global};

/// Returns the value without one line ending at its start, if `at_start`, and then without one line
/// ending at the end of the rest, if `at_end`.
///
/// Frontmatter, code and math lose the line endings next to their fences this way. A line ending is
/// an LF, a CR or a CRLF (CommonMark). The start is trimmed first, so a value of one line ending
/// becomes empty (ours). This cannot fail, and allocates no memory.
///
/// `trim_eol("\na\n", true, true)` is `a`, and `trim_eol("\na\n", false, true)` keeps the first.
pub fn trim_eol(value: &str, at_start: bool, at_end: bool) -> &str
    ensures { result.now ≡ trim value.now at_start at_end }
{
    let left = if at_start {
        without_first_line_ending(value)
    } else {
        value
    };
    if at_end {
        without_last_line_ending(left)
    } else {
        left
    }
}

/// Returns the value of inline code or inline math from its text, in a table or not.
///
/// In a table, each backslash directly before a pipe is removed, since it escapes the pipe for the
/// table (GFM). Then one space is removed from each end, if the text is longer than two bytes,
/// begins and ends with a space, and is not all spaces (CommonMark). Line endings are kept; use
/// [`line_endings_to_spaces`] for them. The only error is that memory ran out.
///
/// `raw_text(alloc, " a ", false)?` is `a`, and `raw_text(alloc, "a\\|b", true)?` is `a|b`.
pub fn raw_text(alloc: Global, value: &str, in_table: bool) -> Result<String, AllocError>
    ensures { IfOk result (λ text. string_bytes text ≡ raw value.now in_table) }
{
    if !in_table {
        return String::from_str(alloc, without_padding(value));
    }
    let text = without_escapes(alloc, value)?;
    String::from_str(alloc, without_padding(text.as_str()))
}

/// Returns the value with one space in place of each line ending: CRLF, LF or CR (CommonMark, code
/// spans).
///
/// The only error is that memory ran out.
///
/// `line_endings_to_spaces(alloc, "a\r\nb")?` is `a b`.
pub fn line_endings_to_spaces(alloc: Global, value: &str) -> Result<String, AllocError>
    ensures { IfOk result (λ text. string_bytes text ≡ spaces value.now) }
{
    let mut text = String::new(alloc);
    let mut after_return = false;
    for c in value.chars() {
        push_spaced(&mut text, after_return, c)?;
        after_return = c == '\r';
    }
    Ok(text)
}

/// Returns the identifier of a label, by which references and definitions match.
///
/// Each run of tabs, LFs, CRs and spaces becomes one space, a space at either end is removed, and
/// the rest is case-folded with Unicode's full case folding (CommonMark, matching of labels). The
/// only error is that memory ran out.
///
/// `normalize_identifier(alloc, "\na\t\tB\r")?` is `a b`, and of both `ẞ` and `ß` it is `ss`.
pub fn normalize_identifier(alloc: Global, value: &str) -> Result<String, AllocError>
    ensures { IfOk result (λ text. string_bytes text ≡ fold value.now) }
{
    let text = collapsed(alloc, value)?;
    folded(alloc, text)
}

/// Returns the text with full case folding. That of a text in ASCII is the same in lower case.
fn folded(alloc: Global, text: String) -> Result<String, AllocError>
    ensures { IfOk result (λ folded. string_bytes folded ≡ encode_utf8_all (default_case_fold (chars (string_bytes text)))) }
{
    if !text.as_str().is_ascii() {
        return caseless::default_case_fold_str(alloc, text.as_str());
    }
    let mut lower = text;
    lower.make_ascii_lowercase();
    Ok(lower)
}

/// Returns the rest of a text after this first character, if it begins with it.
fn after_first(value: &str, first: char) -> Option<&str>
    requires { first < 128 }
    ensures { option_copied result ≡ after_first first value.now }
{
    value.strip_prefix(first)
}

/// Returns the text before this last character, if it ends with it.
fn before_last(value: &str, last: char) -> Option<&str>
    requires { last < 128 }
    ensures { option_copied result ≡ before_last last value.now }
{
    value.strip_suffix(last)
}

/// Returns the value without this character at its end, if it ends with it.
fn without_last(value: &str, last: char) -> &str
    requires { last < 128 }
    ensures { result.now ≡ unwrap_or (before_last last value.now) value.now }
{
    before_last(value, last).unwrap_or(value)
}

/// Returns the value without one line ending at its start.
fn without_first_line_ending(value: &str) -> &str
    ensures { result.now ≡ without_first_line_ending value.now }
{
    match after_first(value, '\r') {
        Some(rest) => after_first(rest, '\n').unwrap_or(rest),
        None => after_first(value, '\n').unwrap_or(value),
    }
}

/// Returns the value without one line ending at its end.
fn without_last_line_ending(value: &str) -> &str
    ensures { result.now ≡ without_last_line_ending value.now }
{
    match before_last(value, '\n') {
        Some(front) => without_last(front, '\r'),
        None => without_last(value, '\r'),
    }
}

/// Returns the value without each backslash directly before a pipe.
fn without_escapes(alloc: Global, value: &str) -> Result<String, AllocError>
    ensures { IfOk result (λ text. string_bytes text ≡ without_escapes value.now) }
{
    let mut text = String::new(alloc);
    let mut rest = value;
    loop {
        match rest.split_once('|') {
            Some((front, back)) => {
                text.push_str(without_last(front, '\\'))?;
                text.push_str("|")?;
                rest = back;
            }
            None => {
                text.push_str(rest)?;
                return Ok(text);
            }
        }
    }
}

/// Returns the value without one space at each end, if both may be removed.
fn without_padding(value: &str) -> &str
    ensures { result.now ≡ without_padding value.now }
{
    if value.len() <= 2 || is_all_spaces(value) {
        return value;
    }
    match after_first(value, ' ') {
        Some(rest) => before_last(rest, ' ').unwrap_or(value),
        None => value,
    }
}

fn is_all_spaces(value: &str) -> bool
    ensures { result ≡ list_all is_space value.now }
{
    value.as_bytes().iter().all(|byte| *byte == b' ')
}

/// Appends a character, or a space if it ends a line. An LF directly after a CR adds nothing.
fn push_spaced(text: &mut String, after_return: bool, c: char) -> Result<(), AllocError>
    ensures { IfOk result (λ _.
        string_bytes text.new ≡ string_bytes text.old ++ encode_utf8_all (spaced_part after_return c)) }
{
    if c == '\r' {
        return text.push(' ');
    }
    if c == '\n' {
        if after_return {
            return Ok(());
        }
        return text.push(' ');
    }
    text.push(c)
}

/// What comes before a character of a label.
#[derive(Clone, Copy)]
struct Blanks {
    /// Whether a character that is not a blank has come.
    started: bool,
    /// Whether blanks have come after such a character.
    pending: bool,
}

/// Whether a text has a tab, a line ending or a space.
fn has_blank(value: &str) -> bool
    ensures { result ≡ list_any is_blank value.now }
{
    value
        .as_bytes()
        .iter()
        .any(|byte| matches!(*byte, b'\t' | b'\n' | b'\r' | b' '))
}

/// Returns the value with each run of blanks as one space, and none at either end.
fn collapsed(alloc: Global, value: &str) -> Result<String, AllocError>
    ensures { IfOk result (λ text. string_bytes text ≡ encode_utf8_all (collapsed (chars value.now))) }
{
    if value.is_ascii() && !has_blank(value) {
        return String::from_str(alloc, value);
    }
    let mut text = String::with_capacity(alloc, value.len())?;
    let mut blanks = Blanks {
        started: false,
        pending: false,
    };
    for c in value.chars() {
        blanks = push_collapsed(&mut text, blanks, c)?;
    }
    Ok(text)
}

/// Appends a character, after one space if blanks are pending. A blank adds nothing. Returns what
/// comes before the next character.
fn push_collapsed(text: &mut String, before: Blanks, c: char) -> Result<Blanks, AllocError>
    ensures state { IfOk result (λ after. after ≡ blanks_after before c) }
    ensures bytes { IfOk result (λ _.
        string_bytes text.new ≡ string_bytes text.old ++ encode_utf8_all (collapsed_part before c)) }
{
    if is_blank(c) {
        return Ok(Blanks {
            started: before.started,
            pending: before.started,
        });
    }
    if before.pending {
        text.push(' ')?;
    }
    text.push(c)?;
    Ok(Blanks {
        started: true,
        pending: false,
    })
}

fn is_blank(c: char) -> bool
    ensures { result ≡ is_blank c }
{
    matches!(c, '\t' | '\n' | '\r' | ' ')
}
