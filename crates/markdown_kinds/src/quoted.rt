//! Texts between quotes, as Debug writes them, and fields that are texts.

ghost use Rattle.std.specs.Fmt.{WritesOnOk};
ghost use Rattle.std.specs.Prelude.{◌≡◌, ◌<◌, ◌≤◌, ◌++◌, ◌||◌, ◌==◌, IfOk, Some, codes, nat_lt, string_bytes};
ghost use Rattle.std.specs.List.{list_all};
ghost use Rattle.markdown_kinds.specs.Quoted;
ghost use Rattle.markdown_kinds.specs.Quoted.{escaped, members, quoted};

pub mod fields;

use std::alloc::{AllocError, Global};
use std::collections::BTreeSet;
use std::fmt;

/// A text, and the characters beyond ASCII that are written as Unicode escapes between its quotes.
#[derive(Drop)]
struct EscapedText<'a> {
    text: &'a str,
    escapes: &'a BTreeSet<char>,
}

impl fmt::Debug for EscapedText<'_> {
    ghost debug_output = { λ whole. Some (quoted (members whole.escapes.now) whole.text.now) };

    fn fmt<W: fmt::Write>(&self, f: &mut fmt::Formatter<W>) -> fmt::Result {
        write_quoted(self.text, self.escapes, f)
    }
}

/// Returns a text between quotes, as `{:?}` writes it.
///
/// `escapes` are the characters beyond ASCII that are written as Unicode escapes. Std's Debug
/// chooses them, and its contract leaves them open. For the texts of a syntax tree, `escapes_of` of
/// `markdown_nodes` returns them. The only error is that memory ran out.
///
/// A line feed is written as a backslash and an `n`, so the text stays on one line.
pub fn quote(text: &str, escapes: &BTreeSet<char>, alloc: Global) -> Result<String, AllocError>
    ensures { IfOk result (λ line. string_bytes line ≡ quoted (members escapes.now) text.now) }
{
    let whole = EscapedText { text, escapes };
    format!(in alloc; "{whole:?}")
}

/// Writes a text between quotes, like [`quote`]. `escapes` are the characters beyond ASCII that are
/// written as Unicode escapes. The only error is that of the writer.
///
/// For the text `a` it writes `"a"`.
pub fn write_quoted<W: fmt::Write>(
    text: &str,
    escapes: &BTreeSet<char>,
    f: &mut fmt::Formatter<W>,
) -> fmt::Result
    ensures { WritesOnOk W.write_str_gives f.old result (quoted (members escapes.now) text.now) f.new }
{
    if is_plain(text) {
        return write_plain(text, f);
    }
    if text.is_ascii() {
        return write!(f, "{text:?}");
    }
    f.write_str("\"")?;
    for c in text.chars() {
        write_escaped(c, escapes, f)?;
    }
    f.write_str("\"")
}

/// Whether a text is ASCII, and none of its characters has an escape.
fn is_plain(text: &str) -> bool
    ensures { result ≡ list_all Quoted.is_plain text.now }
{
    text.as_bytes().iter().all(|byte| matches!(*byte, b' '..=b'~')
        && *byte != b'"'
        && *byte != b'\\')
}

/// Writes a text between quotes, unchanged.
fn write_plain<W: fmt::Write>(text: &str, f: &mut fmt::Formatter<W>) -> fmt::Result
    ensures { WritesOnOk W.write_str_gives f.old result (codes "\"" ++ text.now ++ codes "\"") f.new }
{
    f.write_str("\"")?;
    f.write_str(text)?;
    f.write_str("\"")
}

/// Writes a character of a text between quotes.
fn write_escaped<W: fmt::Write>(
    c: char,
    escapes: &BTreeSet<char>,
    f: &mut fmt::Formatter<W>,
) -> fmt::Result
    ensures { WritesOnOk W.write_str_gives f.old result (escaped (members escapes.now) c) f.new }
{
    match c {
        '"' => f.write_str("\\\""),
        '\0' => f.write_str("\\0"),
        '\t' => f.write_str("\\t"),
        '\n' => f.write_str("\\n"),
        '\r' => f.write_str("\\r"),
        '\\' => f.write_str("\\\\"),
        _ => {
            if is_unicode_escaped(c, escapes) {
                let code = c as u32;
                return write!(f, "\\u{{{code:x}}}");
            }
            f.write_char(c)
        }
    }
}

/// Whether a character that has no escape of two characters is written as its Unicode escape.
fn is_unicode_escaped(c: char, escapes: &BTreeSet<char>) -> bool
    ensures ascii { c < 128 → result ≡ (nat_lt c 32 || c == 127) }
    ensures other { 128 ≤ c → result ≡ members escapes.now c }
{
    if c.is_ascii() {
        return c < ' ' || c == '\x7f';
    }
    escapes.contains(&c)
}
