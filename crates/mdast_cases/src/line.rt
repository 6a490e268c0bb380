//! One line of a table.

use event_lines::lines::LinesError;
use std::alloc::{AllocError, AllocFailed};

/// What a line of a table is.
#[derive(Clone, Copy)]
pub enum LineKind {
    /// Empty, or a comment.
    Nothing,
    /// The beginning of a section with this name: `section Texts`.
    Section,
    /// The beginning of a case with this name: `row yaml`, or `case 12`.
    Case,
    /// The document, between quotes and with escapes: `"a\nb"`.
    Quoted,
    /// The document, in hexadecimal: `doc 610a62`.
    Hexadecimal,
    /// The unit of the columns: `columns bytes`, where the whole document is one line.
    Columns,
    /// The decoder of the case: `decoder blank`, the one that knows the empty value.
    Decoder,
    /// How values are read: `values whole`.
    Values,
    /// The spans of the list: `Paragraph 0-2 { Data 0-2 }`.
    Spans,
    /// An event of the list: `+Data 1:1:0`.
    Event,
    /// The list is that of the tokenizer, with these constructs on: `read gfm`.
    Read,
    /// The expected result of `compile`: `= Root { .. }` or `! slice-invalid 1:2 (1)`.
    Answer,
    /// Whether the tree is ordered: `ordered yes`.
    Ordered,
    /// Whether the writer of events can write this list: `written yes`.
    Written,
    /// The tree as JSON: `json {"type":"root","children":[]}`.
    Json,
    /// The plain text of the tree, between quotes and with escapes: `plain "Hi"`.
    Plain,
    /// The lines of the report on the tree, between quotes and with escapes:
    /// `report "heading 1 \"Hi\"\n"`.
    Report,
}

/// A line of a table.
#[derive(Clone, Copy)]
pub struct Line<'a> {
    /// What it is.
    pub kind: LineKind,
    /// The whole line.
    pub whole: &'a str,
    /// Its content: the text after its word, or the whole line if it begins with a sign.
    pub text: &'a str,
}

/// Why a line was not read.
#[derive(Drop)]
pub enum LineError {
    /// It is not a line of a table, or not one that may occur there.
    Unread,
    /// Memory ran out.
    Memory(AllocError),
}

impl From<AllocError> for LineError {
    fn from(error: AllocError) -> LineError {
        LineError::Memory(error)
    }
}

impl<T: Drop> From<AllocFailed<T>> for LineError {
    fn from(error: AllocFailed<T>) -> LineError {
        LineError::Memory(AllocError::from(error))
    }
}

impl From<LinesError> for LineError {
    fn from(error: LinesError) -> LineError {
        match error {
            LinesError::Unread(_) => LineError::Unread,
            LinesError::Memory(error) => LineError::Memory(error),
        }
    }
}

/// Returns a line, with the kind of the sign or the word that it begins with.
pub fn read_line(whole: &str) -> Option<Line<'_>> {
    let (kind, text) = match sign(whole.as_bytes()) {
        Some(kind) => (kind, whole),
        None => read_word(whole)?,
    };
    Some(Line { kind, whole, text })
}

/// Returns the kind of a line that begins with a sign, or is empty.
fn sign(line: &[u8]) -> Option<LineKind> {
    match line.first() {
        None | Some(b'#') => Some(LineKind::Nothing),
        Some(b'"') => Some(LineKind::Quoted),
        Some(b'+' | b'-') => Some(LineKind::Event),
        Some(b'=' | b'!') => Some(LineKind::Answer),
        Some(b'A'..=b'Z') => Some(LineKind::Spans),
        Some(_) => None,
    }
}

/// Returns the kind of a line that begins with a word, and the text after it.
fn read_word(line: &str) -> Option<(LineKind, &str)> {
    if line == "doc" {
        return Some((LineKind::Hexadecimal, ""));
    }
    let (word, rest) = line.split_once(' ')?;
    Some((word_kind(word)?, rest))
}

/// Returns the kind of a line that begins with this word.
fn word_kind(word: &str) -> Option<LineKind> {
    match word {
        "section" => Some(LineKind::Section),
        "row" | "case" => Some(LineKind::Case),
        "doc" => Some(LineKind::Hexadecimal),
        "columns" => Some(LineKind::Columns),
        "decoder" => Some(LineKind::Decoder),
        "values" => Some(LineKind::Values),
        "read" => Some(LineKind::Read),
        "ordered" => Some(LineKind::Ordered),
        "written" => Some(LineKind::Written),
        "json" => Some(LineKind::Json),
        "plain" => Some(LineKind::Plain),
        "report" => Some(LineKind::Report),
        _ => None,
    }
}
