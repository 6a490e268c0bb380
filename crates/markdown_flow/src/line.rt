//! Lines of a document.

ghost use Rattle.std.specs.Prelude.{
  ◌≡◌,
  ◌≤◌,
  ◌<◌,
  ◌+◌,
  ◌-◌,
  ◌*◌,
  ◌^◌,
  ◌||◌,
  IfNone,
  IfSome,
  drop,
  length,
  nat_le,
  nat_lt,
  true,
  ℕ,
};
ghost use Rattle.std.specs.Str.{IsAscii};
ghost use Rattle.std.proofs.Props.{props};
ghost use Rattle.commonmark_syntax.specs.Blocks.{has_one_sign, is_break_sign};
ghost use Rattle.commonmark_syntax.specs.Syntax.{is_blank};
ghost use Rattle.event_writer.specs.Calls.{EndsLine, line_ending_length};
ghost use Rattle.markdown_flow.specs.Lines.{
  HasColumns,
  IsBefore,
  IsInLine,
  IsRest,
  IsRest-prop,
  IsTail,
  after_spaces,
  columns_after,
  indentation,
  width,
};

use crate::space_or_tab::after_spaces;
use commonmark_syntax::bytes::{after, is_space_or_tab};
use commonmark_syntax::thematic_break;
use markdown_events::search::find_control;
use markdown_options::Constructs;

/// How many columns are between two tab stops (CommonMark).
pub const TAB_SIZE: usize = 4;

/// A document, and which constructs are on.
#[derive(Clone, Copy)]
pub struct Source<'d> {
    /// The bytes of the document.
    pub document: &'d [u8],
    /// Which constructs are on.
    pub constructs: &'d Constructs,
    ghost short: { length document.now < 2 ^ 61 },
}

/// A line of a document, with a cursor that moves over its prefix.
///
/// The *text* of the line is what comes after the cursor and the white space there.
#[derive(Clone, Copy)]
pub struct Line<'d> {
    /// The document.
    source: Source<'d>,
    /// The offset where the line begins.
    start: usize,
    /// The bytes after the cursor, without the line ending.
    rest: &'d [u8],
    /// The bytes of the text.
    text: &'d [u8],
    /// How many columns come before the cursor.
    columns: usize,
    /// How many columns of a tab come before the cursor, if it is within the tab, and otherwise 0.
    virtual_spaces: usize,
    /// How many columns of white space come after the cursor.
    indent: usize,
    /// How many bytes at the end are only white space and one of the signs of thematic breaks.
    tail: usize,
    /// The offset where the line ends, without its line ending.
    end: usize,
    /// The offset where the next line begins.
    next: usize,
    ghost whole: { IsRest source.document.now start end next } by { IsRest-prop source.document.now start end next },
    ghost later: { start < next },
    ghost rest_fits: { start + length rest.now ≤ end },
    ghost rest_stands: { IsBefore source.document.now end rest.now },
    ghost text_rests: { text.now ≡ after_spaces rest.now },
    ghost has_columns: { HasColumns source.document.now (end - length rest.now) virtual_spaces columns } by { Prim.hlevel props },
    ghost has_indent: { indent ≡ indentation columns rest.now },
    ghost tail_exact: { IsTail source.document.now start end tail } by { Prim.hlevel props },
}

impl<'d> Line<'d> {
    ghost use Rattle.commonmark_syntax.specs.Cuts.{IsCut};
    ghost use Rattle.markdown_flow.specs.Moves.{HasMoved};
    ghost use Rattle.markdown_flow.specs.Outputs.{ComesToCut, constructs_in, is_indented};

    /// Returns the line that begins at an offset, or `None` at the end of the document.
    #[inline(always)]
    pub fn new(source: Source<'d>, start: usize) -> Option<Line<'d>>
        requires { start < length source.document.now → HasColumns source.document.now start 0 0 }
        ensures same { IfSome result (λ line. line.source ≡ source.entry) }
        ensures start { IfSome result (λ line. line.start ≡ start) }
        ensures offset { IfSome result (λ line. line.end - length line.rest.now ≡ start) }
        ensures whole { IfSome result (λ line. line.virtual_spaces ≡ 0) }
        ensures none { IfNone result (length source.entry.document.now ≤ start) }
    {
        let document = source.document;
        let rest = after(document, start);
        if rest.is_empty() {
            return None;
        }
        let (bytes, ending) = rest.split_at(line_size(rest));
        let text = after_spaces(bytes);
        Some(Line {
            source,
            start,
            rest: bytes,
            text,
            columns: 0,
            virtual_spaces: 0,
            indent: indent_before(text, bytes),
            tail: tail_size(bytes),
            end: document.len() - ending.len(),
            next: document.len() - after_line_ending(ending).len(),
        })
    }

    /// Returns the next line, or `None` at the end of the document.
    pub fn following(&self) -> Option<Line<'d>>
        ensures same { IfSome result (λ line. line.source ≡ self.now.source) }
        ensures start { IfSome result (λ line. line.start ≡ self.now.next) }
        ensures offset { IfSome result (λ line. line.end - length line.rest.now ≡ self.now.next) }
        ensures whole { IfSome result (λ line. line.virtual_spaces ≡ 0) }
        ensures none { IfNone result (self.now.next ≡ length self.now.source.document.now) }
    {
        if !self.has_ending() {
            return None;
        }
        Line::new(self.source, self.next)
    }

    /// Returns the document, and which constructs are on.
    pub fn source(&self) -> Source<'d>
        ensures { result ≡ self.now.source }
    {
        self.source
    }

    /// Returns which constructs are on.
    pub fn constructs(&self) -> &'d Constructs
        ensures { result.now ≡ self.now.source.constructs.now }
    {
        self.source.constructs
    }

    /// Returns the bytes after the cursor.
    pub fn rest(&self) -> &'d [u8]
        ensures { result.now ≡ self.now.rest.now }
    {
        self.rest
    }

    /// Returns the bytes of the text.
    pub fn text(&self) -> &'d [u8]
        ensures { result.now ≡ self.now.text.now }
    {
        self.text
    }

    /// Returns the offset of the cursor.
    pub fn offset(&self) -> usize
        ensures { result ≡ self.now.end - length self.now.rest.now }
    {
        self.end - self.rest.len()
    }

    /// Returns how many columns of a tab come before the cursor, if it is within the tab, and
    /// otherwise 0.
    pub fn virtual_spaces(&self) -> u8
        ensures { result ≡ self.now.virtual_spaces }
    {
        self.virtual_spaces as u8
    }

    /// Returns how many columns come before the cursor.
    pub fn columns(&self) -> usize
        ensures { result ≡ self.now.columns }
    {
        self.columns
    }

    /// Returns the offset where the line ends, without its line ending.
    pub fn end(&self) -> usize
        ensures { result ≡ self.now.end }
    {
        self.end
    }

    /// Returns the offset where the next line begins.
    pub fn next(&self) -> usize
        ensures { result ≡ self.now.next }
    {
        self.next
    }

    /// Whether a line ending comes after the line.
    pub fn has_ending(&self) -> bool
        ensures { result ≡ nat_lt self.now.end self.now.next }
    {
        self.end < self.next
    }

    /// Returns how many columns of white space come after the cursor.
    pub fn indent(&self) -> usize
        ensures { result ≡ self.now.indent }
    {
        self.indent
    }

    /// Whether only white space comes after the cursor.
    pub fn is_blank(&self) -> bool {
        self.text.is_empty()
    }

    /// Whether the text is indented like code, and therefore is no other block (CommonMark). Always
    /// false with `code_indented` off (micromark).
    pub fn is_indented(&self) -> bool
        ensures on { result ≡ true → (constructs_in self.now).code_indented ≡ true }
        ensures exact { result ≡ is_indented self.now }
    {
        self.source.constructs.code_indented && self.indent >= TAB_SIZE
    }

    /// Whether the text has only white space and one of the signs of thematic breaks.
    ///
    /// This is computed once for a line, since each of many nested markers may need it.
    pub fn is_in_tail(&self) -> bool
        ensures ascii { result ≡ true → IsAscii self.now.text.now }
        ensures exact { result ≡ has_one_sign self.now.text.now }
    {
        self.text.len() <= self.tail
    }

    /// Moves the cursor over up to `columns` columns of white space.
    pub fn skip_columns(&mut self, columns: usize)
        ensures moved { HasMoved self.old self.new }
        ensures text { self.new.text ≡ self.old.text }
        ensures indent { self.new.indent ≡ self.old.indent - columns }
    {
        let moved = columns.min(self.indent);
        let mut left = moved;
        let mut rest = self.rest;
        let mut before = self.columns;
        let mut virtual_spaces = self.virtual_spaces;
        'bytes: while let [byte, after @ ..] = rest {
            let width = width(*byte, before);
            if left < width {
                break;
            }
            left -= width;
            rest = after;
            before += width;
            virtual_spaces = 0;
        }
        self.rest = rest;
        self.columns = before + left;
        self.virtual_spaces = virtual_spaces + left;
        self.indent -= moved;
    }

    /// Moves the cursor to the text.
    pub fn skip_white_space(&mut self)
        ensures moved { HasMoved self.old self.new }
        ensures rest { self.new.rest.now ≡ self.old.text.now }
        ensures whole { self.new.virtual_spaces ≡ 0 }
    {
        self.rest = self.text;
        self.columns += self.indent;
        self.virtual_spaces = 0;
        self.indent = 0;
    }

    /// Moves the cursor over `size` bytes of the text, and the white space before it.
    pub fn skip(&mut self, size: usize)
        ensures moved { HasMoved self.old self.new }
        ensures cut { IsCut self.old.text.now size → ComesToCut self.old self.new }
        ensures rest { self.new.rest.now ≡ drop size self.old.text.now }
        ensures whole { self.new.virtual_spaces ≡ 0 }
    {
        self.skip_white_space();
        let (skipped, rest) = self.rest.split_at(size.min(self.rest.len()));
        self.columns = columns_after(skipped, self.columns);
        self.rest = rest;
        self.text = after_spaces(rest);
        self.indent = indent_of(rest, self.columns);
    }
}

/// Returns the size of the line that a text begins with, without its line ending (CommonMark).
fn line_size(text: &[u8]) -> usize
    ensures within { result ≤ length text.now }
    ensures in_line { IsInLine text.now 0 result }
    ensures ending { result < length text.now → EndsLine text.now result }
{
    let mut size = find_control(text);
    'controls: while size < text.len() && !matches!(text[size], b'\n' | b'\r') {
        size += 1;
        size += find_control(&text[size..]);
    }
    size
}

/// Returns the text after the line ending that it begins with (CommonMark): a line feed, a carriage
/// return, or both.
fn after_line_ending(text: &[u8]) -> &[u8]
    requires { 0 < length text.now → EndsLine text.now 0 }
    ensures { length result.now ≡ length text.now - line_ending_length text.now 0 }
{
    match text {
        [b'\r', b'\n', rest @ ..] | [_, rest @ ..] => rest,
        [] => text,
    }
}

/// Returns how many bytes at the end of a line are only white space and one of the signs of thematic
/// breaks. Few lines end with such a byte.
fn tail_size(line: &[u8]) -> usize
    ensures { (n : ℕ) → n ≤ length line.now → has_one_sign (drop (length line.now - n) line.now) ≡ nat_le n result }
{
    let [.., last] = line else {
        return 0;
    };
    if is_of_tail(*last) {
        thematic_break::tail_size(line)
    } else {
        0
    }
}

/// Whether a byte is white space or a sign of thematic breaks.
fn is_of_tail(byte: u8) -> bool
    ensures { result ≡ (is_blank byte || is_break_sign byte) }
{
    matches!(byte, b' ' | b'\t' | b'*' | b'-' | b'_')
}

/// Returns how many columns of white space a line begins with, before its text. Most lines begin
/// with none.
fn indent_before(text: &[u8], line: &[u8]) -> usize
    requires text { text.now ≡ after_spaces line.now }
    requires fits { 4 * length line.now < 2 ^ 64 }
    ensures { result ≡ indentation 0 line.now }
{
    if text.len() == line.len() {
        return 0;
    }
    indent_of(line, 0)
}

/// Returns how many columns of white space a text begins with, if `columns` columns come before it.
fn indent_of(text: &[u8], columns: usize) -> usize
    requires { columns + 4 * length text.now < 2 ^ 64 }
    ensures { result ≡ indentation columns text.now }
{
    let mut end = columns;
    for byte in text {
        if !is_space_or_tab(*byte) {
            break;
        }
        end += width(*byte, end);
    }
    end - columns
}

/// Returns how many columns come before what follows a text, if `columns` come before the text.
fn columns_after(text: &[u8], columns: usize) -> usize
    requires { columns + 4 * length text.now < 2 ^ 64 }
    ensures { result ≡ columns_after columns text.now }
{
    let mut end = columns;
    for byte in text {
        end += width(*byte, end);
    }
    end
}

/// Returns how many columns a byte takes, if `columns` come before it (CommonMark, tab stops).
fn width(byte: u8, columns: usize) -> usize
    ensures value { result ≡ width byte columns }
    ensures least { 0 < result }
    ensures most { result ≤ 4 }
{
    if byte == b'\t' {
        TAB_SIZE - columns % TAB_SIZE
    } else {
        1
    }
}
