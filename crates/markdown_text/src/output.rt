//! The output of the spans of a content.

ghost use Rattle.std.specs.Prelude.{Bool, IfOk, IfSome, List, OnOk, Some, [], drop, false, length, slice_get, slice_range, true, ℕ, ◌-◌, ◌≡◌, ◌≤◌, ◌<◌, ◌+◌, ◌++◌, ◌∷◌};
ghost use Rattle.event_writer.specs.Stages.{Enclosing, Stage, character_reference_value, entered, exited, inlines, nothing, takes_line_endings};
ghost use Rattle.markdown_events.specs.Forest.{enter, exit};
ghost use Rattle.markdown_events.specs.Names.{role_of};
ghost use Rattle.markdown_events.specs.declared.event.Name.{Name};
ghost use Rattle.markdown_events.specs.declared.event.Name.TheVariants.{SpaceOrTab};
ghost use Rattle.markdown_options.specs.Spans.{is_on};
ghost use Rattle.markdown_pieces.specs.Walks.{inside};
ghost use Rattle.markdown_text.specs.AttentionEvents.{attention_events, attention_of, is_attention};
ghost use Rattle.markdown_text.specs.Contents.{IsPart, IsRange};
ghost use Rattle.markdown_text.specs.Outputs.{AtInlines, IsFlushed, KeepsInlines, MayDecode, MayFill, MayFillLines, MayPut, MayWriteString, after_plain, after_string, references_of};
ghost use Rattle.markdown_text.specs.Spans.{IsWithin};
ghost use Rattle.markdown_text.specs.Standings.{IsAt, IsSomewhere, MayEndLine, MayEnter, MayExit, StandsIn, after_line, is_hard_break};
ghost use Rattle.markdown_text.specs.declared.output.Next.TheVariants.{LineEnding};

use crate::content::{between, line_feed_in};
use crate::pieces::{BeforeText, Lines, before_text, write_to_blank, write_to_text};
use crate::source::Source;
use crate::{blank, calls, data, string};
use character_references::references::References;
use commonmark_syntax::bytes::{after, count_while, is_space_or_tab};
use commonmark_syntax::spaces_break;
use event_writer::recorder::Recorder;
use event_writer::sink::Sink;
use markdown_events::event::Name;
use markdown_pieces::piece::Piece;
use std::alloc::AllocError;
use std::mem;

/// What a content may contain (micromark).
#[derive(Clone, Copy, PartialEq, Eq)]
pub enum ContentKind {
    /// All inlines.
    Text,
    /// Only escapes and character references.
    String,
}

/// What comes after data.
#[derive(Clone, Copy, PartialEq, Eq)]
pub enum Next {
    /// The enter or the exit of a span.
    Span,
    /// A line ending.
    LineEnding,
    /// Nothing more of the content.
    End,
}

/// A content whose spans are being written. Between its lines are the pieces of the block
/// structure.
#[derive(Drop)]
pub struct Output<'c, 'd, R: References, S: Sink> {
    /// The content.
    source: &'c Source<'c, R>,
    /// The writer of the spans. It stays in place while it is handed on.
    writer: Box<Recorder<'d, R, S>>,
    /// The remaining pieces of the block structure.
    lines: Lines<'c>,
    /// The offset up to which everything is written.
    at: usize,
    /// The offset up to which data waits after that.
    data: usize,
    /// Whether nothing of this line is written yet.
    is_line_start: bool,
    /// Whether the text after the mark of a task begins here.
    is_after_mark: bool,
    /// What may occur here.
    kind: ContentKind,
    /// How many links are open.
    links: usize,
}

impl<'c, 'd, R: References, S: Sink> Output<'c, 'd, R, S> {
    ghost use Rattle.markdown_pieces.specs.Tilings.{Tiles, end_from};
    ghost use Rattle.markdown_text.specs.Contents.{IsContent, joined, spot};
    ghost use Rattle.markdown_text.specs.Outputs.{GoesOn, Stands, WritesTo, bytes_of, constructs_of, content_end, document_of};

    /// Returns the start of a content, which is at the cursor of the writer. `pieces` are those of
    /// the block structure.
    #[inline(always)]
    pub fn new(
        source: &'c Source<'c, R>,
        writer: Box<Recorder<'d, R, S>>,
        pieces: &'c [Piece],
        kind: ContentKind,
    ) -> Result<Self, AllocError>
        requires document { writer.value.given.bytes ≡ source.now.reading.now.document.now }
        requires references { writer.value.given.references ≡ source.now.reading.now.references.now }
        requires content { IsContent pieces.now }
        requires tiles { Tiles writer.value.given.bytes (spot writer.value.cursor) pieces.now (end_from (spot writer.value.cursor) pieces.now) }
        requires bytes { source.now.bytes.now ≡ joined writer.value.given.bytes writer.value.cursor.index pieces.now }
        requires stage { IsSomewhere writer.value }
        requires within { IsWithin source.now.reading.now.options.constructs writer.value }
        ensures given { IfOk result (λ output. output.writer.value.given ≡ writer.entry.value.given) }
        ensures stands { IfOk result (λ output. Stands output) }
        ensures document { IfOk result (λ output. document_of output ≡ source.now.reading.now.document.now) }
        ensures references { IfOk result (λ output. references_of output ≡ source.now.reading.now.references.now) }
        ensures constructs { IfOk result (λ output. constructs_of output ≡ source.now.reading.now.options.constructs) }
        ensures bytes { IfOk result (λ output. bytes_of output ≡ source.now.bytes.now) }
        ensures end { IfOk result (λ output. content_end output ≡ end_from (spot writer.entry.value.cursor) pieces.now) }
        ensures at { IfOk result (λ output. output.at ≡ 0) }
        ensures data_end { IfOk result (λ output. output.data ≡ 0) }
        ensures stage { (a : Stage) → (outer : List Enclosing) → IsAt writer.entry.value a outer → IfOk result (λ output. IsAt output.writer.value a outer) }
        ensures attention { IfOk result (λ output. attention_of output ≡ attention_events writer.entry.value.events) }
    {
        let mut writer = writer;
        let lines = write_to_text(&mut *writer, pieces)?;
        Ok(Output {
            source,
            writer,
            lines,
            at: 0,
            data: 0,
            is_line_start: kind == ContentKind::Text,
            is_after_mark: false,
            kind,
            links: 0,
        })
    }

    /// Returns the content.
    pub fn source(&self) -> &'c Source<'c, R>
        ensures { result.now ≡ self.now.source.now }
    {
        self.source
    }

    /// Returns what may occur here.
    pub fn kind(&self) -> ContentKind {
        self.kind
    }

    /// Returns the offset up to which everything is written.
    pub fn at(&self) -> usize
        ensures { result ≡ self.now.at }
    {
        self.at
    }

    /// Returns the offset `size` bytes after that.
    pub fn offset_after(&self, size: usize) -> usize
        requires { self.now.at + size ≤ length (bytes_of self.now) }
        ensures { result ≡ self.now.at + size }
    {
        later(self.at, size, self.source.bytes.len())
    }

    /// Returns the bytes that are not written yet.
    pub fn rest(&self) -> &'c [u8]
        ensures { result.now ≡ drop self.now.at (bytes_of self.now) }
    {
        after(self.source.bytes, self.at)
    }

    /// Returns the bytes that are not written yet, up to an offset.
    pub fn rest_to(&self, end: usize) -> &'c [u8]
        ensures { result.now ≡ slice_range (bytes_of self.now) self.now.at end }
    {
        between(self.source.bytes, self.at, end)
    }

    /// Whether nothing of this line is written yet. In a string it is true only after a line
    /// ending.
    pub fn is_line_start(&self) -> bool {
        self.is_line_start
    }

    /// Whether the text after the mark of a task begins here.
    pub fn is_after_mark(&self) -> bool {
        self.is_after_mark
    }

    /// Records that the text after the mark of a task begins here.
    pub fn begin_task(&mut self)
        requires { Stands self.old }
        ensures writer { self.new.writer.value ≡ self.old.writer.value }
        ensures goes_on { GoesOn self.old self.new }
        ensures at { self.new.at ≡ self.old.at }
        ensures data_end { self.new.data ≡ self.old.data }
    {
        self.is_after_mark = true;
    }

    /// Whether email addresses are links here.
    pub fn may_link(&self) -> bool {
        self.kind == ContentKind::Text && self.links == 0
    }

    /// Records that a link begins.
    pub fn enter_link(&mut self)
        requires { Stands self.old }
        ensures writer { self.new.writer.value ≡ self.old.writer.value }
        ensures goes_on { GoesOn self.old self.new }
        ensures at { self.new.at ≡ self.old.at }
        ensures data_end { self.new.data ≡ self.old.data }
    {
        self.links = self.links.saturating_add(1);
    }

    /// Records that a link ends.
    pub fn exit_link(&mut self)
        requires { Stands self.old }
        ensures writer { self.new.writer.value ≡ self.old.writer.value }
        ensures goes_on { GoesOn self.old self.new }
        ensures at { self.new.at ≡ self.old.at }
        ensures data_end { self.new.data ≡ self.old.data }
    {
        self.links = self.links.saturating_sub(1);
    }

    /// Adds data up to an offset. It is written together with the data beside it.
    pub fn data(&mut self, end: usize)
        requires stands { Stands self.old }
        requires part { IsPart (bytes_of self.old) self.old.data end }
        ensures writer { self.new.writer.value ≡ self.old.writer.value }
        ensures goes_on { GoesOn self.old self.new }
        ensures at { self.new.at ≡ self.old.at }
        ensures data_end { self.new.data ≡ end }
    {
        self.data = end;
    }

    /// Opens a span. No data waits.
    pub fn enter(&mut self, name: Name) -> Result<(), AllocError>
        requires stands { Stands self.old }
        requires none_waits { self.old.data ≡ self.old.at }
        requires may { MayEnter self.old.writer.value name }
        requires on { is_on (constructs_of self.old) name ≡ true }
        ensures given { self.new.writer.value.given ≡ self.old.writer.value.given }
        ensures writes { OnOk result (WritesTo self.old self.new self.old.at) }
        ensures stage { (a : Stage) → (outer : List Enclosing) → IsAt self.old.writer.value a outer → OnOk result (IfSome (entered a (role_of name)) (λ b. IsAt self.new.writer.value b (inside name a outer))) }
        ensures others { is_attention name ≡ false → OnOk result (attention_of self.new ≡ attention_of self.old) }
        ensures attention { is_attention name ≡ true → OnOk result (attention_of self.new ≡ attention_of self.old ++ enter name self.old.writer.value.cursor ∷ []) }
    {
        self.is_line_start = false;
        calls::enter(&mut *self.writer, name)
    }

    /// Closes the innermost span. No data waits.
    pub fn exit(&mut self) -> Result<(), AllocError>
        requires stands { Stands self.old }
        requires none_waits { self.old.data ≡ self.old.at }
        requires may { MayExit self.old.writer.value }
        ensures given { self.new.writer.value.given ≡ self.old.writer.value.given }
        ensures writes { OnOk result (WritesTo self.old self.new self.old.at) }
        ensures stage { (own a : Stage) → (name : Name) → (outer : List Enclosing) → IsAt self.old.writer.value own (inside name a outer) → OnOk result (IfSome (exited own a (role_of name)) (λ b. IsAt self.new.writer.value b outer)) }
        ensures others { (own a : Stage) → (name : Name) → (outer : List Enclosing) → IsAt self.old.writer.value own (inside name a outer) → is_attention name ≡ false → OnOk result (attention_of self.new ≡ attention_of self.old) }
        ensures attention { (own a : Stage) → (name : Name) → (outer : List Enclosing) → IsAt self.old.writer.value own (inside name a outer) → is_attention name ≡ true → OnOk result (attention_of self.new ≡ attention_of self.old ++ exit name self.old.writer.value.cursor ∷ []) }
    {
        self.is_line_start = false;
        calls::exit(&mut *self.writer)
    }

    /// Writes a token of `size` bytes.
    pub fn token(&mut self, name: Name, size: usize) -> Result<(), AllocError>
        requires stands { Stands self.old }
        requires filled { 0 < size }
        requires part { IsPart (bytes_of self.old) self.old.at (self.old.at + size) }
        requires may { MayPut self.old name }
        requires on { is_on (constructs_of self.old) name ≡ true }
        ensures given { self.new.writer.value.given ≡ self.old.writer.value.given }
        ensures writes { OnOk result (WritesTo self.old self.new (self.old.at + size)) }
        ensures whole { OnOk result (self.new.writer.value.cursor.vs ≡ 0) }
        ensures stage { (a : Stage) → (outer : List Enclosing) → IsAt self.old.writer.value a outer → OnOk result (IfSome (after_plain a name) (λ b. IsAt self.new.writer.value b outer)) }
        ensures attention { is_attention name ≡ false → OnOk result (attention_of self.new ≡ attention_of self.old) }
    {
        self.token_to(name, later(self.at, size, self.source.bytes.len()))
    }

    /// Writes a token up to an offset. It may take bytes of the waiting data.
    pub fn token_to(&mut self, name: Name, end: usize) -> Result<(), AllocError>
        requires stands { Stands self.old }
        requires filled { self.old.at < end }
        requires part { IsPart (bytes_of self.old) self.old.at end }
        requires may { MayPut self.old name }
        requires on { is_on (constructs_of self.old) name ≡ true }
        ensures given { self.new.writer.value.given ≡ self.old.writer.value.given }
        ensures writes { OnOk result (WritesTo self.old self.new end) }
        ensures whole { OnOk result (self.new.writer.value.cursor.vs ≡ 0) }
        ensures stage { (a : Stage) → (outer : List Enclosing) → IsAt self.old.writer.value a outer → OnOk result (IfSome (after_plain a name) (λ b. IsAt self.new.writer.value b outer)) }
        ensures attention { is_attention name ≡ false → OnOk result (attention_of self.new ≡ attention_of self.old) }
    {
        let to = self.move_to(end);
        calls::token(&mut *self.writer, name, to, 0)?;
        Ok(())
    }

    /// Writes the value of a character reference up to an offset.
    pub fn value_to(&mut self, end: usize) -> Result<(), AllocError>
        requires stands { Stands self.old }
        requires filled { self.old.at < end }
        requires part { IsPart (bytes_of self.old) self.old.at end }
        requires whole { self.old.writer.value.cursor.vs ≡ 0 }
        requires may { MayDecode (R.text (references_of self.old)) self.old end }
        ensures given { self.new.writer.value.given ≡ self.old.writer.value.given }
        ensures writes { OnOk result (WritesTo self.old self.new end) }
        ensures stage { (m : ℕ) → (outer : List Enclosing) → IsAt self.old.writer.value (character_reference_value m) outer → OnOk result (IsAt self.new.writer.value nothing outer) }
        ensures attention { OnOk result (attention_of self.new ≡ attention_of self.old) }
    {
        let to = self.move_to(end);
        calls::token(&mut *self.writer, Name::CharacterReferenceValue, to, 0)?;
        Ok(())
    }

    /// Writes a token up to an offset, if it has any bytes. It may take bytes of the waiting data.
    pub fn fill_to(&mut self, name: Name, end: usize) -> Result<(), AllocError>
        requires stands { Stands self.old }
        requires part { IsPart (bytes_of self.old) self.old.at end }
        requires may { MayFill self.old name }
        requires on { is_on (constructs_of self.old) name ≡ true }
        ensures given { self.new.writer.value.given ≡ self.old.writer.value.given }
        ensures writes { OnOk result (WritesTo self.old self.new end) }
        ensures stage { (a : Stage) → (outer : List Enclosing) → after_plain a name ≡ Some a → IsAt self.old.writer.value a outer → OnOk result (IsAt self.new.writer.value a outer) }
        ensures attention { is_attention name ≡ false → OnOk result (attention_of self.new ≡ attention_of self.old) }
    {
        if end <= self.at {
            self.data = end;
            return Ok(());
        }
        self.token_to(name, end)?;
        Ok(())
    }

    /// Writes trailing white space up to an offset as a hard break, if it has any bytes. Its line ending comes next.
    pub fn hard_break_to(&mut self, name: Name, end: usize) -> Result<(), AllocError>
        requires stands { Stands self.old }
        requires part { IsPart (bytes_of self.old) self.old.at end }
        requires name { is_hard_break (role_of name) ≡ true }
        requires inlines { AtInlines self.old }
        requires on { self.old.at < end → is_on (constructs_of self.old) name ≡ true }
        ensures given { self.new.writer.value.given ≡ self.old.writer.value.given }
        ensures writes { OnOk result (WritesTo self.old self.new end) }
        ensures stage { (h : Bool) → (outer : List Enclosing) → IsAt self.old.writer.value (inlines h) outer → OnOk result (IsFlushed LineEnding self.new (inlines h) outer) }
        ensures attention { is_attention name ≡ false → OnOk result (attention_of self.new ≡ attention_of self.old) }
    {
        if end <= self.at {
            self.data = end;
            return Ok(());
        }
        let to = self.move_to(end);
        calls::hard_break(&mut *self.writer, name, to)?;
        Ok(())
    }

    /// Moves to an offset, and returns where it is in the document.
    fn move_to(&mut self, end: usize) -> usize
        requires stands { Stands self.old }
        requires part { IsPart (bytes_of self.old) self.old.at end }
        ensures to { result ≡ self.old.writer.value.cursor.index + (end - self.old.at) }
        ensures writer { self.new.writer.value ≡ self.old.writer.value }
        ensures source { self.new.source ≡ self.old.source }
        ensures lines { self.new.lines ≡ self.old.lines }
        ensures at { self.new.at ≡ end }
        ensures data_end { self.new.data ≡ end }
    {
        let to = later(self.writer.cursor().index, end - self.at, self.lines.end);
        self.at = end;
        self.data = end;
        self.is_line_start = false;
        self.is_after_mark = false;
        to
    }

    /// Writes a line ending, and what comes before the text of the next line.
    pub fn line_ending(&mut self) -> Result<(), AllocError>
        requires stands { Stands self.old }
        requires feed { slice_get (bytes_of self.old) self.old.data ≡ Some 10 }
        requires inlines { AtInlines self.old }
        ensures given { self.new.writer.value.given ≡ self.old.writer.value.given }
        ensures writes { OnOk result (WritesTo self.old self.new (self.old.data + 1)) }
        ensures stage { KeepsInlines result self.old self.new }
        ensures attention { OnOk result (attention_of self.new ≡ attention_of self.old) }
    {
        if self.is_after_mark && self.is_mark_alone() {
            return self.mark_line_ending();
        }
        self.flush(Next::LineEnding)?;
        self.line_ending_as(Name::LineEnding)?;
        Ok(())
    }

    /// Whether the line ending after the waiting data is no part of the text after the mark of a task:
    /// before it are blanks alone, and something comes between it and the text. If that is no white
    /// space, the text must not begin with a blank, since a tree leaves that out.
    fn is_mark_alone(&self) -> bool {
        let blanks = self.rest_to(self.data);
        let has_break = self.source.reading.options.constructs.hard_break_trailing
            && spaces_break::scan_back(blanks).is_some();
        count_while(blanks, is_space_or_tab) == blanks.len()
            && !has_break
            && match before_text(self.lines.later) {
                BeforeText::LineEnding => false,
                BeforeText::Marker => !may_be_blank(after(self.source.bytes, self.data)),
                BeforeText::Space => true,
            }
    }

    /// Writes the line ending of a line with a mark alone, and what comes before the text of the
    /// next line. The last column of white space there is data. Blanks wait.
    fn mark_line_ending(&mut self) -> Result<(), AllocError>
        requires stands { Stands self.old }
        requires feed { slice_get (bytes_of self.old) self.old.data ≡ Some 10 }
        requires inlines { AtInlines self.old }
        ensures given { self.new.writer.value.given ≡ self.old.writer.value.given }
        ensures writes { OnOk result (WritesTo self.old self.new (self.old.data + 1)) }
        ensures stage { KeepsInlines result self.old self.new }
        ensures attention { OnOk result (attention_of self.new ≡ attention_of self.old) }
    {
        self.fill_to(Name::SpaceOrTab, self.data)?;
        self.line_ending_to_blank()
    }

    /// Writes a line ending that is no part of the text, and what comes before the text of the next
    /// line. The last column of white space there is data. No data waits.
    fn line_ending_to_blank(&mut self) -> Result<(), AllocError>
        requires stands { Stands self.old }
        requires none_waits { self.old.data ≡ self.old.at }
        requires feed { slice_get (bytes_of self.old) self.old.at ≡ Some 10 }
        requires inlines { AtInlines self.old }
        ensures given { self.new.writer.value.given ≡ self.old.writer.value.given }
        ensures writes { OnOk result (WritesTo self.old self.new (self.old.at + 1)) }
        ensures stage { KeepsInlines result self.old self.new }
        ensures attention { OnOk result (attention_of self.new ≡ attention_of self.old) }
    {
        let Some((_, next)) = self.lines.later.split_first() else {
            unreachable!()
        };
        let reading = self.source.reading;
        calls::line_ending(&mut *self.writer, Name::BlankLineEnding)?;
        self.lines = write_to_blank(&mut *self.writer, reading.document, next)?;
        self.at = later(self.at, 1, self.source.bytes.len());
        self.data = self.at;
        self.is_line_start = true;
        self.is_after_mark = false;
        Ok(())
    }

    /// Begins a text. After the mark of a task, a tab is entered at its last column.
    pub fn begin_text(&mut self, is_after_mark: bool) -> Result<(), AllocError>
        requires stands { Stands self.old }
        requires none_waits { self.old.data ≡ self.old.at }
        requires inlines { AtInlines self.old }
        ensures given { self.new.writer.value.given ≡ self.old.writer.value.given }
        ensures writes { OnOk result (WritesTo self.old self.new self.old.at) }
        ensures stage { KeepsInlines result self.old self.new }
        ensures attention { OnOk result (attention_of self.new ≡ attention_of self.old) }
    {
        if !is_after_mark || self.writer.cursor().index >= self.lines.end {
            return Ok(());
        }
        let reading = self.source.reading;
        blank::enter_tab(&mut *self.writer, reading.document)
    }

    /// Writes a line ending as a token of this name, and what comes before the text of the next
    /// line. No data waits.
    pub fn line_ending_as(&mut self, name: Name) -> Result<(), AllocError>
        requires stands { Stands self.old }
        requires none_waits { self.old.data ≡ self.old.at }
        requires feed { slice_get (bytes_of self.old) self.old.at ≡ Some 10 }
        requires may { MayEndLine (R.text self.old.writer.value.given.references) self.old.writer.value name }
        requires on { is_on (constructs_of self.old) name ≡ true }
        ensures given { self.new.writer.value.given ≡ self.old.writer.value.given }
        ensures writes { OnOk result (WritesTo self.old self.new (self.old.at + 1)) }
        ensures stage { (waits : Bool) → (a : Stage) → (outer : List Enclosing) → StandsIn waits self.old.writer.value a outer → OnOk result (IfSome (after_line waits a (role_of name)) (λ b. IsAt self.new.writer.value b outer)) }
        ensures attention { is_attention name ≡ false → OnOk result (attention_of self.new ≡ attention_of self.old) }
    {
        let Some((_, next)) = self.lines.later.split_first() else {
            unreachable!()
        };
        calls::line_ending(&mut *self.writer, name)?;
        self.lines = write_to_text(&mut *self.writer, next)?;
        self.at = later(self.at, 1, self.source.bytes.len());
        self.data = self.at;
        self.is_line_start = true;
        self.is_after_mark = false;
        Ok(())
    }

    /// Writes a token for the rest of each line up to an offset. White space that begins a line is
    /// written separately. No data waits.
    pub fn lines(&mut self, name: Name, end: usize) -> Result<(), AllocError>
        requires stands { Stands self.old }
        requires none_waits { self.old.data ≡ self.old.at }
        requires range { IsRange (bytes_of self.old) self.old.at end }
        requires may { MayFillLines self.old name }
        requires on { is_on (constructs_of self.old) name ≡ true }
        ensures given { self.new.writer.value.given ≡ self.old.writer.value.given }
        ensures writes { OnOk result (WritesTo self.old self.new end) }
        ensures stage { (a : Stage) → (outer : List Enclosing) → after_plain a name ≡ Some a → takes_line_endings a ≡ true → IsAt self.old.writer.value a outer → OnOk result (IsAt self.new.writer.value a outer) }
        ensures attention { is_attention name ≡ false → OnOk result (attention_of self.new ≡ attention_of self.old) }
    {
        'lines: while self.at < end {
            self.line(name, end)?;
        }
        Ok(())
    }

    /// Writes the rest of the line up to an offset, or the line ending if nothing of the line is
    /// left.
    fn line(&mut self, name: Name, end: usize) -> Result<(), AllocError>
        requires stands { Stands self.old }
        requires none_waits { self.old.data ≡ self.old.at }
        requires range { IsRange (bytes_of self.old) self.old.at end }
        requires filled { self.old.at < end }
        requires may { MayFillLines self.old name }
        requires on { is_on (constructs_of self.old) name ≡ true }
        ensures given { self.new.writer.value.given ≡ self.old.writer.value.given }
        ensures stage { (a : Stage) → (outer : List Enclosing) → after_plain a name ≡ Some a → takes_line_endings a ≡ true → IsAt self.old.writer.value a outer → OnOk result (IsAt self.new.writer.value a outer) }
        ensures goes_on { OnOk result (GoesOn self.old self.new) }
        ensures none_waits { OnOk result (self.new.data ≡ self.new.at) }
        ensures least { OnOk result (self.old.at < self.new.at) }
        ensures range { OnOk result (IsRange (bytes_of self.new) self.new.at end) }
        ensures attention { is_attention name ≡ false → OnOk result (attention_of self.new ≡ attention_of self.old) }
    {
        match line_feed_in(self.rest_to(end)) {
            Some(0) => self.line_start(end),
            Some(size) => self.token(name, size),
            None => self.token_to(name, end),
        }
    }

    /// Writes a line ending, and the white space after it, at most up to an offset.
    fn line_start(&mut self, end: usize) -> Result<(), AllocError>
        requires stands { Stands self.old }
        requires none_waits { self.old.data ≡ self.old.at }
        requires feed { slice_get (bytes_of self.old) self.old.at ≡ Some 10 }
        requires range { IsRange (bytes_of self.old) self.old.at end }
        requires filled { self.old.at < end }
        requires may { MayFillLines self.old SpaceOrTab }
        ensures given { self.new.writer.value.given ≡ self.old.writer.value.given }
        ensures stage { (a : Stage) → (outer : List Enclosing) → after_plain a SpaceOrTab ≡ Some a → takes_line_endings a ≡ true → IsAt self.old.writer.value a outer → OnOk result (IsAt self.new.writer.value a outer) }
        ensures goes_on { OnOk result (GoesOn self.old self.new) }
        ensures none_waits { OnOk result (self.new.data ≡ self.new.at) }
        ensures least { OnOk result (self.old.at < self.new.at) }
        ensures range { OnOk result (IsRange (bytes_of self.new) self.new.at end) }
        ensures attention { OnOk result (attention_of self.new ≡ attention_of self.old) }
    {
        self.line_ending_as(Name::LineEnding)?;
        let space = count_while(self.rest_to(end), is_space_or_tab);
        self.fill_to(Name::SpaceOrTab, self.offset_after(space))?;
        Ok(())
    }

    /// Writes `size` bytes of white space. No data waits.
    pub fn space(&mut self, size: usize) -> Result<(), AllocError>
        requires stands { Stands self.old }
        requires none_waits { self.old.data ≡ self.old.at }
        requires range { IsRange (bytes_of self.old) self.old.at (self.old.at + size) }
        requires may { MayFillLines self.old SpaceOrTab }
        ensures given { self.new.writer.value.given ≡ self.old.writer.value.given }
        ensures writes { OnOk result (WritesTo self.old self.new (self.old.at + size)) }
        ensures stage { (a : Stage) → (outer : List Enclosing) → after_plain a SpaceOrTab ≡ Some a → takes_line_endings a ≡ true → IsAt self.old.writer.value a outer → OnOk result (IsAt self.new.writer.value a outer) }
        ensures attention { OnOk result (attention_of self.new ≡ attention_of self.old) }
    {
        let end = later(self.at, size, self.source.bytes.len());
        self.lines(Name::SpaceOrTab, end)
    }

    /// Writes a span with a string up to an offset, if it has any bytes. No data waits.
    pub fn string(&mut self, name: Name, end: usize) -> Result<(), AllocError>
        requires stands { Stands self.old }
        requires none_waits { self.old.data ≡ self.old.at }
        requires range { IsRange (bytes_of self.old) self.old.at end }
        requires may { MayWriteString self.old name }
        requires on { is_on (constructs_of self.old) name ≡ true }
        ensures given { self.new.writer.value.given ≡ self.old.writer.value.given }
        ensures writes { OnOk result (WritesTo self.old self.new end) }
        ensures stage { (a : Stage) → (outer : List Enclosing) → IsAt self.old.writer.value a outer → OnOk result (IfSome (after_string a name) (λ b. IsAt self.new.writer.value b outer)) }
    {
        if self.at >= end {
            return Ok(());
        }
        self.enter(name)?;
        let kind = mem::replace(&mut self.kind, ContentKind::String);
        string::write(self, end)?;
        self.flush(Next::Span)?;
        self.kind = kind;
        self.exit()?;
        Ok(())
    }

    /// Writes the waiting data.
    pub fn flush(&mut self, next: Next) -> Result<(), AllocError>
        requires stands { Stands self.old }
        requires inlines { AtInlines self.old }
        ensures given { self.new.writer.value.given ≡ self.old.writer.value.given }
        ensures writes { OnOk result (WritesTo self.old self.new self.old.data) }
        ensures stage { (h : Bool) → (outer : List Enclosing) → IsAt self.old.writer.value (inlines h) outer → OnOk result (IsFlushed next self.new (inlines h) outer) }
        ensures attention { OnOk result (attention_of self.new ≡ attention_of self.old) }
    {
        let end = self.data;
        if end <= self.at {
            return Ok(());
        }
        data::write(self, end, next)
    }

    /// Writes the waiting data at the end of the content, and returns the writer.
    #[inline(always)]
    pub fn finish(mut self) -> Result<Box<Recorder<'d, R, S>>, AllocError>
        requires stands { Stands self }
        requires ended { self.data ≡ length (bytes_of self) }
        requires inlines { AtInlines self }
        ensures given { IfOk result (λ writer. writer.value.given ≡ self.entry.writer.value.given) }
        ensures end { IfOk result (λ writer. spot writer.value.cursor ≡ content_end self.entry) }
        ensures within { IfOk result (λ writer. IsWithin (constructs_of self.entry) writer.value) }
        ensures stage { (h : Bool) → (outer : List Enclosing) → IsAt self.entry.writer.value (inlines h) outer → IfOk result (λ writer. IsAt writer.value (inlines h) outer) }
        ensures attention { IfOk result (λ writer. attention_events writer.value.events ≡ attention_of self.entry) }
    {
        self.flush(Next::End)?;
        let Output { writer, .. } = self;
        Ok(writer)
    }
}

/// Whether a character reference that may stand for a blank comes after the line feed that a text
/// begins with: one by number, `&Tab;` or `&NewLine;`.
fn may_be_blank(text: &[u8]) -> bool {
    matches!(text, [_, b'&', b'#' | b'T' | b'N', ..])
}

/// Returns the offset `size` bytes after another. It is not after `_end`.
fn later(from: usize, size: usize, _end: usize) -> usize
    requires { from + size ≤ _end }
    ensures { result ≡ from + size }
{
    from + size
}
