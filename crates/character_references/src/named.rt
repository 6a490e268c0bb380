//! A decoder that knows a table of names.

ghost use Rattle.std.specs.Prelude.{◌≡◌, if◌then◌else◌, option_copied, ◌==◌, None};
ghost use Rattle.std.specs.Option.{option_or};
ghost use Rattle.std.specs.List.{before_first};
ghost use Rattle.std.specs.Str.{byte};
ghost use Rattle.character_references.specs.Named;
ghost use Rattle.character_references.specs.Named.{is_line_feed, known, new_line, text_in};

use crate::decoder::Decoder;
use crate::references::References;
use crate::search::find_line;
use std::alloc::{AllocError, Global};

/// The decoder that knows a table of names, such as that of HTML, and everything that [`Decoder`]
/// knows.
///
/// A line of the table is a name, `=` and its text, without `&` and `;`. The first line of a name
/// counts, and lines without `=` are ignored. No line can contain a line feed, the text of HTML's
/// `NewLine`: that name is known without a line.
///
/// `NamedReferences { table: "copy=©\nnbsp=\u{a0}" }.decode(alloc, "copy", b'&')` returns `©`.
#[derive(Clone, Copy, PartialEq, Eq, Debug)]
pub struct NamedReferences<'a> {
    /// The lines of the table.
    pub table: &'a str,
}

impl References for NamedReferences<'_> {
    ghost text = { λ references value marker. known references.table.now value marker };

    #[tactic(auto, unfolding(crate::specs::Named::known))]
    fn decode(&self, alloc: Global, value: &str, marker: u8) -> Result<Option<String>, AllocError> {
        match named(self.table, value, marker) {
            Some(text) => {
                let text = String::from_str(alloc, text)?;
                Ok(Some(text))
            }
            None => Decoder.decode(alloc, value, marker),
        }
    }
}

/// Returns the text of a value after `&`, from a table, or that of `NewLine`.
fn named<'a>(table: &'a str, value: &str, marker: u8) -> Option<&'a str>
    ensures { option_copied result
        ≡ (if marker == byte "&" then option_or (Named.text_of value.now table.now) (new_line value.now) else None) }
{
    if marker != b'&' {
        return None;
    }
    match text_of(table, value) {
        Some(text) => Some(text),
        None if value == "NewLine" => Some("\n"),
        None => None,
    }
}

/// Returns the text of a name, from the first line for that name.
fn text_of<'a>(table: &'a str, name: &str) -> Option<&'a str>
    ensures { option_copied result ≡ Named.text_of name.now table.now }
{
    let mut rest = table;
    loop {
        if let Some(text) = first_text(rest, name) {
            return Some(text);
        }
        let at = find_line(rest.as_bytes(), name.as_bytes());
        if at == rest.len() {
            return None;
        }
        rest = &rest[at + 1..];
    }
}

/// Returns the text of a name, if the first of these lines is for that name.
fn first_text<'a>(lines: &'a str, name: &str) -> Option<&'a str>
    ensures { option_copied result ≡ text_in name.now (before_first is_line_feed lines.now) }
{
    if !lines.starts_with(name) {
        return None;
    }
    match lines.split_once('\n') {
        Some((line, _)) => text_in(line, name),
        None => text_in(lines, name),
    }
}

/// Returns the text of a name, if this line is for that name.
fn text_in<'a>(line: &'a str, name: &str) -> Option<&'a str>
    ensures { option_copied result ≡ text_in name.now line.now }
{
    match line.split_once('=') {
        Some((found, text)) if found == name => Some(text),
        _ => None,
    }
}
