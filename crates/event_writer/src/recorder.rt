//! The writer of events for a caller that is proved to write only what the grammar accepts.

ghost use Rattle.std.specs.Prelude.{◌≡◌, ◌<◌, ◌^◌, ◌∷◌, ◌++◌, [], IfOk, IsOk, OnErr, OnOk, false, length, true};
ghost use Rattle.event_writer.specs.Calls.{CanReach, EndsLine, IsLineStart};
ghost use Rattle.event_writer.specs.Finished.{IsFinished};
ghost use Rattle.event_writer.specs.Places.{IsPlace};
ghost use Rattle.event_writer.specs.Tilings.{IsBefore, origin};
ghost use Rattle.markdown_acceptance.specs.Calls.{
  AfterToken,
  AtRoot,
  Closed,
  Opened,
  exit_of,
  may_close,
  may_open,
  may_write,
};
ghost use Rattle.markdown_events.specs.Forest.{enter, exit};
ghost use Rattle.markdown_events.specs.declared.event.Point.{Point};
ghost use Rattle.markdown_grammar.specs.Document.{source};

use crate::cursor::Cursor;
use crate::sink::Sink;
use character_references::references::References;
use markdown_events::event::{Name, Point};
use std::alloc::{AllocError, Global};
use std::marker::Model;

/// A writer of the events of a document (ours), for a caller that is proved to write only what the
/// grammar accepts. It does what a [`Writer`](crate::writer::Writer) does, and tests nothing. Each
/// call requires what the writer would test, so the only error is that memory ran out. A call that
/// returns an error leaves the recorder unchanged. The events go to a [`Sink`]: a list of them, or
/// what is built of them.
///
/// These calls write the events of `Hi`, a paragraph with one data span:
///
/// ```text
/// let mut recorder = Recorder::new(alloc, b"Hi", &NoReferences, Vec::new(alloc))?;
/// recorder.enter(Name::Paragraph)?;
/// recorder.token(Name::Data, 2, 0)?;
/// recorder.exit()?;
/// let events = recorder.finish();
/// ```
#[derive(Drop)]
pub struct Recorder<'d, R: References, S: Sink> {
    /// What the character references of the document stand for.
    references: &'d R,
    /// Where the next event is written.
    cursor: Cursor<'d>,
    /// What takes the events.
    sink: S,
    /// The names of the open spans, the innermost last.
    names: Vec<Name>,
}

impl<'d, R: References, S: Sink> Model for Recorder<'d, R, S> {
    ghost use Rattle.event_writer.specs.Invariants.{IsRecorded};
    ghost use Rattle.event_writer.specs.Written.{Written};
    ghost use Rattle.markdown_acceptance.specs.Following.{open_after};

    ghost Value = { Written R };

    ghost view = { λ r. record {
      given = record { bytes = r.cursor.bytes; references = r.references.now; sink = S.document r.sink };
      events = S.taken r.sink;
      cursor = r.cursor.at;
      spans = open_after (S.taken r.sink);
    } };

    ghost invariant = { λ r. IsRecorded (R.text r.references.now) r.cursor.bytes (S.taken r.sink) r.cursor.at r.names.items };
}

impl<'d, R: References, S: Sink> Recorder<'d, R, S> {
    /// Returns a recorder at the start of a document, for a sink that has taken no event.
    ///
    /// It allocates no memory. A document of 2^61 bytes or more is refused as one for which memory
    /// ran out: its columns might not fit 64 bits.
    pub fn new(
        alloc: Global,
        document: &'d [u8],
        references: &'d R,
        sink: S,
    ) -> Result<Recorder<'d, R, S>, AllocError>
        requires { S.taken sink ≡ [] }
        ensures made { length document.now < 2 ^ 61 → IsOk result }
        ensures given { IfOk result (λ r. r.given ≡ record { bytes = document.now; references = references.now; sink = S.document sink }) }
        ensures events { IfOk result (λ r. r.events ≡ []) }
        ensures cursor { IfOk result (λ r. r.cursor ≡ origin) }
        ensures root { IfOk result (λ r. AtRoot r.spans) }
    {
        let cursor = Cursor::new(document)?;
        Ok(Recorder {
            references,
            cursor,
            sink,
            names: Vec::new(alloc),
        })
    }

    /// Returns where the next event is written: line and column count from 1, the offset counts
    /// bytes from 0.
    ///
    /// In a new recorder it is 1:1, at offset 0.
    pub fn cursor(&self) -> Point
        ensures here { result ≡ self.now.cursor }
        ensures place { IsPlace self.now.given.bytes result }
    {
        self.cursor.at()
    }

    /// Opens a span at the cursor.
    ///
    /// At the start of a document, `enter(Name::Paragraph)` opens a paragraph.
    pub fn enter(&mut self, name: Name) -> Result<(), AllocError>
        requires may { may_open self.old.given.bytes self.old.spans name self.old.cursor ≡ true }
        ensures given { self.new.given ≡ self.old.given }
        ensures events { OnOk result (self.new.events ≡ self.old.events ++ enter name self.old.cursor ∷ []) }
        ensures cursor { self.new.cursor ≡ self.old.cursor }
        ensures opened { OnOk result (Opened name self.old.cursor self.old.spans self.new.spans) }
        ensures same { OnErr result (self.new ≡ self.old) }
    {
        self.names.reserve(1)?;
        self.sink.enter(name, self.cursor.at())?;
        self.names.push_reserved(name);
        Ok(())
    }

    /// Closes the innermost span at the cursor.
    ///
    /// After `enter(Name::Paragraph)` it closes the paragraph.
    pub fn exit(&mut self) -> Result<(), AllocError>
        requires may { may_close (source self.old.given.bytes (R.text self.old.given.references)) self.old.spans self.old.cursor ≡ true }
        ensures given { self.new.given ≡ self.old.given }
        ensures events { OnOk result (self.new.events ≡ self.old.events ++ exit_of self.old.spans self.old.cursor) }
        ensures cursor { self.new.cursor ≡ self.old.cursor }
        ensures closed { OnOk result (Closed self.old.spans self.new.spans) }
        ensures same { OnErr result (self.new ≡ self.old) }
    {
        let Some(name) = self.names.last().copied() else {
            unreachable!()
        };
        self.sink.exit(name, self.cursor.at())?;
        self.names.pop();
        Ok(())
    }

    /// Writes a token, a span that contains no span: from the cursor to an offset in the same line,
    /// and a number of columns into the tab there. The cursor moves to its end.
    ///
    /// In a paragraph, `token(Name::Data, 2, 0)` writes data up to offset 2.
    pub fn token(&mut self, name: Name, to: usize, virtual_spaces: usize) -> Result<(), AllocError>
        requires reach { CanReach self.old.given.bytes self.old.cursor to virtual_spaces }
        requires may { (end : Point) → end.index ≡ to → end.vs ≡ virtual_spaces
            → may_write (source self.old.given.bytes (R.text self.old.given.references)) self.old.spans name self.old.cursor end ≡ true }
        ensures given { self.new.given ≡ self.old.given }
        ensures events { OnOk result (self.new.events ≡ self.old.events ++ enter name self.old.cursor ∷ exit name self.new.cursor ∷ []) }
        ensures index { OnOk result (self.new.cursor.index ≡ to) }
        ensures virtual_spaces { OnOk result (self.new.cursor.vs ≡ virtual_spaces) }
        ensures place { OnOk result (IsPlace self.old.given.bytes self.new.cursor) }
        ensures written { OnOk result (AfterToken name self.old.spans self.new.spans) }
        ensures same { OnErr result (self.new ≡ self.old) }
    {
        let end = self.cursor.reached(to, virtual_spaces);
        self.write(name, end)
    }

    /// Writes the line ending at the cursor as a token of this name: a line feed, a carriage
    /// return, or both in this order. The cursor moves to the start of the next line.
    ///
    /// In `a⏎b`, after the `a`, `line_ending(Name::LineEnding)` leaves the cursor at 2:1.
    pub fn line_ending(&mut self, name: Name) -> Result<(), AllocError>
        requires ends { EndsLine self.old.given.bytes self.old.cursor.index }
        requires may { (end : Point) → IsLineStart self.old.given.bytes self.old.cursor end
            → may_write (source self.old.given.bytes (R.text self.old.given.references)) self.old.spans name self.old.cursor end ≡ true }
        ensures given { self.new.given ≡ self.old.given }
        ensures events { OnOk result (self.new.events ≡ self.old.events ++ enter name self.old.cursor ∷ exit name self.new.cursor ∷ []) }
        ensures start { OnOk result (IsLineStart self.old.given.bytes self.old.cursor self.new.cursor) }
        ensures place { OnOk result (IsPlace self.old.given.bytes self.new.cursor) }
        ensures written { OnOk result (AfterToken name self.old.spans self.new.spans) }
        ensures same { OnErr result (self.new ≡ self.old) }
    {
        match self.cursor.next_line() {
            Some(end) => self.write(name, end),
            None => unreachable!(),
        }
    }

    /// Writes a token from the cursor to a point.
    #[inline(always)]
    fn write(&mut self, name: Name, end: Point) -> Result<(), AllocError>
        requires place { IsPlace self.old.given.bytes end }
        requires order { IsBefore self.old.cursor end }
        requires may { may_write (source self.old.given.bytes (R.text self.old.given.references)) self.old.spans name self.old.cursor end ≡ true }
        ensures given { self.new.given ≡ self.old.given }
        ensures events { OnOk result (self.new.events ≡ self.old.events ++ enter name self.old.cursor ∷ exit name end ∷ []) }
        ensures cursor { OnOk result (self.new.cursor ≡ end) }
        ensures written { OnOk result (AfterToken name self.old.spans self.new.spans) }
        ensures same { OnErr result (self.new ≡ self.old) }
    {
        let start = self.cursor.at();
        self.sink.token(name, start, end)?;
        self.cursor.move_to(end);
        Ok(())
    }

    /// Returns the sink, once the document is written to its end, no span is open, and no break waits
    /// for its line ending.
    ///
    /// For the empty document it has taken no event.
    pub fn finish(self) -> S
        requires frames { self.spans.frames ≡ [] }
        requires breaks { self.spans.site.after_break ≡ false }
        requires whole { self.cursor.index ≡ length self.given.bytes }
        ensures events { S.taken result ≡ self.entry.events }
        ensures document { S.document result ≡ self.entry.given.sink }
        ensures finished { IsFinished (source self.entry.given.bytes (R.text self.entry.given.references)) (S.taken result) }
    {
        self.sink
    }
}
