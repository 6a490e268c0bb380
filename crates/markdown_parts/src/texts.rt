//! How a text is changed before it becomes the value or the address of a node.

ghost use Rattle.std.specs.Prelude.{◌≡◌, ◌<◌, ◌++◌, ◌&&◌, IfOk, drop, length, slice_index, string_bytes, true};
ghost use Rattle.std.specs.List.{list_all};
ghost use Rattle.markdown_events.specs.Texts.{raw, spaces, trim, without_first_line_ending, without_last_line_ending};
ghost use Rattle.markdown_parts.specs.ValueTexts.{is_kept, is_unpadded};

use markdown_nodes::text::{line_endings_to_spaces, raw_text, trim_eol};
use std::alloc::{AllocError, Global};

/// Returns the value of a block: the text without one line ending at its start and one at its end,
/// each if requested. Fenced code, math and frontmatter lose the line endings beside their fences
/// this way, and indented code only the last one. It allocates no memory.
///
/// A CR and an LF after it are one line ending. With both, `\na\n\n` becomes `a\n`.
pub fn block_value(mut text: String, at_start: bool, at_end: bool) -> String
    ensures { string_bytes result ≡ trim (string_bytes text) at_start at_end }
{
    if at_start {
        trim_start(&mut text);
    }
    if at_end {
        trim_end(&mut text);
    }
    text
}

/// Removes one line ending from the start of a text.
fn trim_start(text: &mut String)
    ensures { string_bytes text.new ≡ without_first_line_ending (string_bytes text.old) }
{
    match text.as_bytes() {
        [b'\r', b'\n', ..] => {
            remove_byte(text);
            remove_byte(text);
        }
        [b'\r' | b'\n', ..] => remove_byte(text),
        _ => {}
    }
}

/// Removes one line ending from the end of a text.
fn trim_end(text: &mut String)
    ensures { string_bytes text.new ≡ without_last_line_ending (string_bytes text.old) }
{
    let length = trim_eol(text.as_str(), false, true).len();
    text.truncate(length);
}

/// Removes the first character of a text, if it is an ASCII character.
pub fn remove_byte(value: &mut String)
    requires some { 0 < length (string_bytes value.old) }
    requires ascii { slice_index (string_bytes value.old) 0 < 128 }
    ensures { string_bytes value.new ≡ drop 1 (string_bytes value.old) }
{
    value.remove(0);
}

/// Returns the value of inline code or math. Each line ending becomes a space, and then one space
/// is removed from each end, if both have one and not all is spaces (CommonMark, code spans). In a
/// table `\|` becomes `|` (GFM, tables). An unchanged text is not copied. The only error is that
/// memory ran out.
pub fn inline_value(alloc: Global, text: String, in_table: bool) -> Result<String, AllocError>
    ensures { IfOk result (λ value. string_bytes value ≡ raw (spaces (string_bytes text)) in_table) }
{
    if is_its_own_value(text.as_bytes()) {
        return Ok(text);
    }
    let spaced = line_endings_to_spaces(alloc, text.as_str())?;
    raw_text(alloc, spaced.as_str(), in_table)
}

/// Whether a text does not begin with a space, and contains neither a line ending nor a backslash.
fn is_its_own_value(text: &[u8]) -> bool
    ensures { result ≡ (is_unpadded text.now && list_all is_kept text.now) }
{
    match text {
        [b' ', ..] => false,
        _ => is_kept_whole(text),
    }
}

/// Whether a text contains neither a line ending nor a backslash.
fn is_kept_whole(text: &[u8]) -> bool
    ensures { result ≡ list_all is_kept text.now }
{
    text.iter()
        .all(|byte| !matches!(*byte, b'\n' | b'\r' | b'\\'))
}

/// Returns an address with its scheme before it: `mailto:` before an email address, `http://`
/// before one that begins with `www.` (GFM, autolinks). The only error is that memory ran out.
pub fn address(alloc: Global, scheme: &str, value: &str) -> Result<String, AllocError>
    ensures { IfOk result (λ url. string_bytes url ≡ scheme.now ++ value.now) }
{
    let length = scheme.len().saturating_add(value.len());
    let mut url = String::with_capacity(alloc, length)?;
    url.push_str(scheme)?;
    url.push_str(value)?;
    Ok(url)
}
