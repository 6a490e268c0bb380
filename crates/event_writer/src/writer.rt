//! The writer of events.

ghost use Rattle.std.specs.Prelude.{◌≡◌, ◌≢◌, ◌<◌, ◌^◌, ◌∷◌, ◌++◌, [], IfNone, IfOk, IfSome, IsOk, None, OnErr, OnOk, false, length};
ghost use Rattle.event_writer.specs.Calls.{CanReach, EndsLine, IsLineStart};
ghost use Rattle.event_writer.specs.Finished.{IsFinished};
ghost use Rattle.event_writer.specs.Places.{IsPlace};
ghost use Rattle.event_writer.specs.Tilings.{IsBefore, origin};
ghost use Rattle.markdown_acceptance.specs.Calls.{
  AfterToken,
  AtRoot,
  Closed,
  IfMisfit,
  Opened,
  exit_of,
  may_close,
  may_open,
  may_write,
};
ghost use Rattle.markdown_acceptance.specs.Shown.{IsHopeless};
ghost use Rattle.markdown_events.specs.Forest.{enter, exit};
ghost use Rattle.markdown_events.specs.declared.event.Name.{Name};
ghost use Rattle.markdown_events.specs.declared.event.Point.{Point};
ghost use Rattle.markdown_grammar.specs.Document.{source};

use crate::cursor::Cursor;
use crate::sink::{enter_event, exit_event};
use character_references::references::References;
use markdown_acceptance::error::WriteError;
use markdown_acceptance::open_spans::OpenSpans;
use markdown_events::event::{Event, Name, Point};
use markdown_grammar::values::Values;
use markdown_parts::slice::Document;
use std::alloc::{AllocError, Global};
use std::marker::Model;

/// A writer of the events of a document: a cursor in it, the open spans, and the events so far
/// (ours).
///
/// Each call first checks with the grammar whether what it writes may be at the cursor. A token
/// begins at the cursor and moves it to the token's end; no other call moves it. So the finished
/// events are those of an accepted forest, and their tokens are the document, byte for byte. A call
/// that returns an error leaves the writer unchanged.
///
/// These calls write the events of `Hi`, a paragraph with one data span:
///
/// ```text
/// let mut writer = Writer::new(alloc, b"Hi", &NoReferences)?;
/// writer.enter(Name::Paragraph)?;
/// writer.token(Name::Data, 2, 0)?;
/// writer.exit()?;
/// let events = writer.finish();
/// ```
#[derive(Drop)]
pub struct Writer<'d, R: References> {
    /// The allocator.
    alloc: Global,
    /// The document.
    document: Document<'d>,
    /// What its character references stand for.
    references: &'d R,
    /// Where the next event is written.
    cursor: Cursor<'d>,
    /// The events so far.
    events: Vec<Event>,
    /// The spans that are open after them.
    spans: OpenSpans,
}

impl<'d, R: References> Model for Writer<'d, R> {
    ghost use Rattle.event_writer.specs.Tiles.{AreTiles};
    ghost use Rattle.event_writer.specs.Written.{Written};
    ghost use Rattle.markdown_acceptance.specs.Shown.{Tracks};
    ghost use Rattle.markdown_grammar.specs.Document.{source};
    ghost use Rattle.std.specs.Prelude.{None, ◌≡◌};

    ghost Value = { Written R };

    ghost view = { λ w. record {
      given = record { bytes = w.document.bytes; references = w.references.now; sink = None };
      events = w.events.items;
      cursor = w.cursor.at;
      spans = w.spans;
    } };

    ghost invariant = { λ w. Tracks (source w.document.bytes (R.text w.references.now)) w.events.items w.spans
        × AreTiles w.document.bytes w.events.items w.cursor.at
        × (w.cursor.bytes ≡ w.document.bytes) };
}

impl<'d, R: References> Writer<'d, R> {
    /// Returns a writer at the start of a document, with no event.
    ///
    /// It allocates no memory. A document of 2^61 bytes or more is refused as one for which memory
    /// ran out: its columns might not fit 64 bits.
    pub fn new(
        alloc: Global,
        document: &'d [u8],
        references: &'d R,
    ) -> Result<Writer<'d, R>, AllocError>
        ensures made { length document.now < 2 ^ 61 → IsOk result }
        ensures given { IfOk result (λ w. w.given ≡ record { bytes = document.now; references = references.now; sink = None }) }
        ensures events { IfOk result (λ w. w.events ≡ []) }
        ensures cursor { IfOk result (λ w. w.cursor ≡ origin) }
        ensures root { IfOk result (λ w. AtRoot w.spans) }
    {
        let cursor = Cursor::new(document)?;
        Ok(Writer {
            alloc,
            document: Document::new(document, Values::AsInDocument),
            references,
            cursor,
            events: Vec::new(alloc),
            spans: OpenSpans::new(alloc),
        })
    }

    /// Returns where the next event is written: line and column count from 1, the offset counts
    /// bytes from 0.
    ///
    /// In a new writer it is 1:1, at offset 0.
    pub fn cursor(&self) -> Point
        ensures { result ≡ self.now.cursor }
    {
        self.cursor.at()
    }

    /// Opens a span at the cursor.
    ///
    /// At the start of a document, `enter(Name::Paragraph)` opens a paragraph. The call returns a
    /// `WriteError::Misfit` if the grammar does not accept such a span, for example a
    /// `Name::LabelText` outside a link. It returns a `WriteError::Memory` if memory runs out.
    pub fn enter(&mut self, name: Name) -> Result<(), WriteError>
        ensures given { self.new.given ≡ self.old.given }
        ensures events { OnOk result (self.new.events ≡ self.old.events ++ enter name self.old.cursor ∷ []) }
        ensures cursor { self.new.cursor ≡ self.old.cursor }
        ensures opened { OnOk result (Opened name self.old.cursor self.old.spans self.new.spans) }
        ensures same { OnErr result (self.new ≡ self.old) }
        ensures refused { IfMisfit result (may_open self.old.given.bytes self.old.spans name self.old.cursor ≡ false) }
        ensures hopeless { IfMisfit result (IsHopeless (source self.old.given.bytes (R.text self.old.given.references)) (self.old.events ++ enter name self.old.cursor ∷ [])) }
    {
        let point = self.cursor.at();
        self.events.reserve(1)?;
        self.spans.enter(&self.document, name, point)?;
        self.events.push_reserved(enter_event(name, point));
        Ok(())
    }

    /// Closes the innermost span at the cursor.
    ///
    /// After `enter(Name::Paragraph)` it closes the paragraph. The call returns a
    /// `WriteError::Misfit` if no span is open, if the span lacks a required part, if a break in it
    /// waits for its line ending, or if its value cannot be read. It returns a `WriteError::Memory`
    /// if memory runs out.
    pub fn exit(&mut self) -> Result<(), WriteError>
        ensures given { self.new.given ≡ self.old.given }
        ensures events { OnOk result (self.new.events ≡ self.old.events ++ exit_of self.old.spans self.old.cursor) }
        ensures cursor { self.new.cursor ≡ self.old.cursor }
        ensures closed { OnOk result (Closed self.old.spans self.new.spans) }
        ensures same { OnErr result (self.new ≡ self.old) }
        ensures refused { IfMisfit result (may_close (source self.old.given.bytes (R.text self.old.given.references)) self.old.spans self.old.cursor ≡ false) }
        ensures hopeless { (name : Name) → IfMisfit result (IsHopeless (source self.old.given.bytes (R.text self.old.given.references)) (self.old.events ++ exit name self.old.cursor ∷ [])) }
    {
        let point = self.cursor.at();
        self.events.reserve(1)?;
        let name = self
            .spans
            .exit(self.alloc, &self.document, self.references, point)?;
        self.events.push_reserved(exit_event(name, point));
        Ok(())
    }

    /// Writes a token, a span that contains no span: from the cursor to an offset in the same line,
    /// and a number of columns into the tab there. The cursor moves to its end.
    ///
    /// In a paragraph, `token(Name::Data, 2, 0)` writes data up to offset 2. The call returns a
    /// `WriteError::Misfit` if the offset is before the cursor, if the line or the document ends
    /// before the offset, if the tab there has fewer columns, or if the grammar does not accept
    /// such a token. It returns a `WriteError::Memory` if memory runs out.
    pub fn token(&mut self, name: Name, to: usize, virtual_spaces: usize) -> Result<(), WriteError>
        ensures given { self.new.given ≡ self.old.given }
        ensures events { OnOk result (self.new.events ≡ self.old.events ++ enter name self.old.cursor ∷ exit name self.new.cursor ∷ []) }
        ensures index { OnOk result (self.new.cursor.index ≡ to) }
        ensures virtual_spaces { OnOk result (self.new.cursor.vs ≡ virtual_spaces) }
        ensures place { OnOk result (IsPlace self.old.given.bytes self.new.cursor) }
        ensures written { OnOk result (AfterToken name self.old.spans self.new.spans) }
        ensures same { OnErr result (self.new ≡ self.old) }
        ensures refused { IfMisfit result (CanReach self.old.given.bytes self.old.cursor to virtual_spaces
            → (end : Point) × (end.index ≡ to) × (end.vs ≡ virtual_spaces)
            × (may_write (source self.old.given.bytes (R.text self.old.given.references)) self.old.spans name self.old.cursor end ≡ false)) }
        ensures hopeless { IfMisfit result (CanReach self.old.given.bytes self.old.cursor to virtual_spaces
            → (end : Point) × IsPlace self.old.given.bytes end × (end.index ≡ to) × (end.vs ≡ virtual_spaces)
            × IsHopeless (source self.old.given.bytes (R.text self.old.given.references)) (self.old.events ++ enter name self.old.cursor ∷ exit name end ∷ [])) }
    {
        match self.cursor.point_at(to, virtual_spaces) {
            Some(end) => self.write(name, end),
            None => Err(WriteError::Misfit),
        }
    }

    /// Writes the line ending at the cursor as a token of this name: a line feed, a carriage
    /// return, or both in this order. The cursor moves to the start of the next line.
    ///
    /// In `a⏎b`, after the `a`, `line_ending(Name::LineEnding)` leaves the cursor at 2:1. The call
    /// returns a `WriteError::Misfit` if no line ends at the cursor, or if the grammar does not
    /// accept such a token. It returns a `WriteError::Memory` if memory runs out.
    pub fn line_ending(&mut self, name: Name) -> Result<(), WriteError>
        ensures given { self.new.given ≡ self.old.given }
        ensures events { OnOk result (self.new.events ≡ self.old.events ++ enter name self.old.cursor ∷ exit name self.new.cursor ∷ []) }
        ensures start { OnOk result (IsLineStart self.old.given.bytes self.old.cursor self.new.cursor) }
        ensures place { OnOk result (IsPlace self.old.given.bytes self.new.cursor) }
        ensures written { OnOk result (AfterToken name self.old.spans self.new.spans) }
        ensures same { OnErr result (self.new ≡ self.old) }
        ensures refused { IfMisfit result (EndsLine self.old.given.bytes self.old.cursor.index
            → (end : Point) × IsLineStart self.old.given.bytes self.old.cursor end
            × (may_write (source self.old.given.bytes (R.text self.old.given.references)) self.old.spans name self.old.cursor end ≡ false)) }
        ensures hopeless { IfMisfit result (EndsLine self.old.given.bytes self.old.cursor.index
            → (end : Point) × IsPlace self.old.given.bytes end × IsLineStart self.old.given.bytes self.old.cursor end
            × IsHopeless (source self.old.given.bytes (R.text self.old.given.references)) (self.old.events ++ enter name self.old.cursor ∷ exit name end ∷ [])) }
    {
        match self.cursor.next_line() {
            Some(end) => self.write(name, end),
            None => Err(WriteError::Misfit),
        }
    }

    /// Writes a token from the cursor to a point.
    fn write(&mut self, name: Name, end: Point) -> Result<(), WriteError>
        requires place { IsPlace self.old.given.bytes end }
        requires order { IsBefore self.old.cursor end }
        ensures given { self.new.given ≡ self.old.given }
        ensures events { OnOk result (self.new.events ≡ self.old.events ++ enter name self.old.cursor ∷ exit name end ∷ []) }
        ensures cursor { OnOk result (self.new.cursor ≡ end) }
        ensures written { OnOk result (AfterToken name self.old.spans self.new.spans) }
        ensures same { OnErr result (self.new ≡ self.old) }
        ensures refused { IfMisfit result (may_write (source self.old.given.bytes (R.text self.old.given.references)) self.old.spans name self.old.cursor end ≡ false) }
        ensures hopeless { IfMisfit result (IsHopeless (source self.old.given.bytes (R.text self.old.given.references)) (self.old.events ++ enter name self.old.cursor ∷ exit name end ∷ [])) }
    {
        let start = self.cursor.at();
        self.events.reserve(2)?;
        self.spans.token(
            self.alloc,
            &self.document,
            self.references,
            name,
            start,
            end,
        )?;
        self.events.push_reserved(enter_event(name, start));
        self.events.push_reserved(exit_event(name, end));
        self.cursor.move_to(end);
        Ok(())
    }

    /// Returns the events, if the document is written to its end, no span is open, and no break
    /// waits for its line ending.
    ///
    /// For the empty document this is the empty list.
    pub fn finish(self) -> Option<Vec<Event>>
        ensures events { IfSome result (λ events. events.items ≡ self.entry.events) }
        ensures finished { IfSome result (λ events. IsFinished (source self.entry.given.bytes (R.text self.entry.given.references)) events.items) }
        ensures left { IfNone result (self.entry.spans.frames ≡ [] → self.entry.spans.site.after_break ≡ false
            → self.entry.cursor.index ≢ length self.entry.given.bytes) }
    {
        if !self.spans.is_done() || !self.cursor.is_at_end() {
            return None;
        }
        Some(self.events)
    }
}
