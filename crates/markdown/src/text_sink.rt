//! A sink of events that says their words.

ghost use Rattle.std.specs.Prelude.{◌≡◌, ◌++◌, ◌∷◌, [], IfOk, OnErr, OnOk, Some, false, length, string_bytes, true};
ghost use Rattle.markdown_events.specs.Forest.{enter, exit};
ghost use Rattle.character_references.specs.Html.{html};
ghost use Rattle.event_writer.specs.Finished.{IsFinished};
ghost use Rattle.markdown_grammar.specs.Document.{source_hiding};
ghost use Rattle.markdown_words.specs.Texts.{HasText};
ghost use Rattle.markdown.specs.Hidden.{flags_at, hidden};

use crate::expected::Expected;
use crate::hiding::Hiding;
use event_writer::sink::{Sink, enter_event, exit_event};
use markdown_events::event::{Name, Point};
use markdown_tree::History;
use markdown_words::words::Words;
use std::alloc::{AllocError, Global};
use std::marker::Model;

/// A sink that says the words of the events that it takes, with whole values.
#[derive(Drop)]
pub struct TextSink<'d> {
    /// The document.
    bytes: &'d [u8],
    /// The words so far. They stay in place while the sink is handed on.
    words: Box<Words<'d>>,
    /// Whether the events so far hide what they are expected to hide.
    hiding: Hiding<'d>,
    /// The events so far.
    history: History,
}

impl<'d> Model for TextSink<'d> {
    ghost use Rattle.markdown.specs.TextSinks.{IsTextOf, TextOf};

    ghost Value = { TextOf };

    ghost view = { λ t. record { document = t.bytes.now; hidden = t.words.value.document.hidden; events = t.history.events; strange = t.words.value.strange } };

    ghost invariant = { λ t. IsTextOf t.bytes.now t.words.value.document.hidden t.history.events t.words.value t.hiding };
}

impl<'d> TextSink<'d> {
    /// Returns a sink that has taken no event, for events that are expected to hide these bytes.
    pub fn new(
        alloc: Global,
        text: &'d str,
        expected: &'d Expected,
    ) -> Result<TextSink<'d>, AllocError>
        requires expected { expected.now.flags.items ≡ flags_at (length text.now) expected.now.offsets.items }
        ensures document { IfOk result (λ sink. sink.document ≡ text.now) }
        ensures events { IfOk result (λ sink. sink.events ≡ []) }
    {
        Ok(TextSink {
            bytes: text.as_bytes(),
            words: Box::new(alloc, Words::hiding(alloc, text, &expected.flags))?,
            hiding: Hiding::new(&expected.offsets),
            history: History::none(),
        })
    }

    /// Whether an event was strange, so that the words mean nothing.
    pub fn is_strange(&self) -> bool
        ensures { result ≡ self.now.strange }
    {
        self.words.is_strange()
    }

    /// Whether the events hide what they were expected to hide, so that the words are those of the
    /// document.
    pub fn hides_as_expected(&self) -> bool
        ensures { result ≡ true → self.now.hidden ≡ hidden self.now.document self.now.events }
    {
        self.hiding.is_as_expected()
    }

    /// Takes the enter of a span.
    #[inline(always)]
    fn take_enter(&mut self, name: Name, at: Point) -> Result<(), AllocError>
        ensures taken { OnOk result (self.new.events ≡ self.old.events ++ enter name at ∷ []) }
        ensures same { OnErr result (self.new.events ≡ self.old.events) }
        ensures document { self.new.document ≡ self.old.document }
    {
        if let Err(error) = self.words.enter(name) {
            self.words.give_up();
            return Err(error);
        }
        self.hiding.enter(name, &at);
        self.history = self.history.and(&enter_event(name, at));
        Ok(())
    }

    /// Takes the exit of a span.
    #[inline(always)]
    fn take_exit(&mut self, name: Name, at: Point) -> Result<(), AllocError>
        ensures taken { OnOk result (self.new.events ≡ self.old.events ++ exit name at ∷ []) }
        ensures same { OnErr result (self.new.events ≡ self.old.events) }
        ensures document { self.new.document ≡ self.old.document }
    {
        if let Err(error) = self.words.exit(name, &at) {
            self.words.give_up();
            return Err(error);
        }
        self.hiding.exit(self.bytes, name, &at);
        self.history = self.history.and(&exit_event(name, at));
        Ok(())
    }

    /// Takes the enter and the exit of a token.
    #[inline(always)]
    fn take_token(&mut self, name: Name, start: Point, end: Point) -> Result<(), AllocError>
        ensures taken { OnOk result (self.new.events ≡ self.old.events ++ enter name start ∷ exit name end ∷ []) }
        ensures same { OnErr result (self.new.events ≡ self.old.events) }
        ensures document { self.new.document ≡ self.old.document }
    {
        if let Err(error) = self.words.token(name, &start, &end) {
            self.words.give_up();
            return Err(error);
        }
        self.hiding.token(self.bytes, name, &start, &end);
        self.history = self.history.and(&enter_event(name, start));
        self.history = self.history.and(&exit_event(name, end));
        Ok(())
    }

    /// Returns the words of the events, where those bytes are hidden that were expected to be.
    pub fn finish(self) -> Result<String, AllocError>
        requires known { self.strange ≡ false }
        ensures { IsFinished (source_hiding self.entry.hidden self.entry.document html) self.entry.events
            → IfOk result (λ text. HasText (string_bytes text) self.entry.events (source_hiding self.entry.hidden self.entry.document html)) }
    {
        let TextSink { words, .. } = self;
        Box::into_inner(words).into_text()
    }
}

impl<'d> Sink for TextSink<'d> {
    ghost taken = { λ sink. sink.events };

    ghost document = { λ sink. Some sink.document };

    #[inline(always)]
    fn enter(&mut self, name: Name, at: Point) -> Result<(), AllocError> {
        self.take_enter(name, at)
    }

    #[inline(always)]
    fn exit(&mut self, name: Name, at: Point) -> Result<(), AllocError> {
        self.take_exit(name, at)
    }

    #[inline(always)]
    fn token(&mut self, name: Name, start: Point, end: Point) -> Result<(), AllocError> {
        self.take_token(name, start, end)
    }
}
