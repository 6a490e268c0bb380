//! A sink of events that builds the tree of their headings.

ghost use Rattle.std.specs.Prelude.{◌≡◌, ◌++◌, ◌∷◌, [], IfErr, IfOk, Some, false, length, true};
ghost use Rattle.markdown_events.specs.Forest.{enter, exit};
ghost use Rattle.character_references.specs.Html.{html};
ghost use Rattle.markdown_grammar.specs.Correct.{FailsRightly, IsMeaning};
ghost use Rattle.markdown_grammar.specs.Document.{source_hiding};
ghost use Rattle.markdown_outline.specs.HeadingFilter.{filtered, loses_none, outside};
ghost use Rattle.markdown.specs.Hidden.{flags_at, hidden};

use crate::expected::Expected;
use crate::hiding::Hiding;
use character_references::html::HtmlReferences;
use event_writer::sink::{Sink, enter_event, exit_event};
use markdown_events::event::{Name, Point};
use markdown_nodes::mdast::Node;
use markdown_nodes::message::Fault;
use markdown_outline::heading_filter::HeadingFilter;
use markdown_tree::History;
use markdown_tree::builder::TreeBuilder;
use markdown_tree::to_mdast::Document;
use std::alloc::{AllocError, Global};
use std::marker::Model;

/// A sink that builds the tree of the headings in the events that it takes, with whole values.
///
/// As in a [`TreeSink`](crate::tree_sink::TreeSink), it is built before it is known which bytes the events
/// hide.
#[derive(Drop)]
pub struct OutlineSink<'d> {
    /// The document.
    bytes: &'d [u8],
    /// The tree of the headings so far. It stays in place while the sink is handed on.
    builder: Box<TreeBuilder<'d, HtmlReferences>>,
    /// Whether the events so far hide what they are expected to hide.
    hiding: Box<Hiding<'d>>,
    /// Which events go to the builder.
    filter: HeadingFilter,
    /// All events so far.
    history: History,
}

impl<'d> Model for OutlineSink<'d> {
    ghost use Rattle.markdown.specs.OutlineSinks.{IsOutlineOf, OutlineOf};

    ghost Value = { OutlineOf };

    ghost view = { λ t. record { document = t.bytes.now; hidden = t.builder.value.document.hidden; events = t.history.events; loses = t.filter.loses } };

    ghost invariant = { λ t. IsOutlineOf t.bytes.now t.builder.value.document.hidden t.history.events t.builder.value t.hiding.value t.filter };
}

impl<'d> OutlineSink<'d> {
    /// Returns a sink that has taken no event, for events that are expected to hide these bytes.
    pub fn new(
        alloc: Global,
        text: &'d str,
        expected: &'d Expected,
    ) -> Result<OutlineSink<'d>, AllocError>
        requires expected { expected.now.flags.items ≡ flags_at (length text.now) expected.now.offsets.items }
        ensures document { IfOk result (λ sink. sink.document ≡ text.now) }
        ensures events { IfOk result (λ sink. sink.events ≡ []) }
    {
        let document = Document::of_text(text, &expected.flags);
        let builder = TreeBuilder::new(alloc, document, &HtmlReferences);
        Ok(OutlineSink {
            bytes: text.as_bytes(),
            builder: Box::new(alloc, builder)?,
            hiding: Box::new(alloc, Hiding::new(&expected.offsets))?,
            filter: HeadingFilter::new(),
            history: History::none(),
        })
    }

    /// Whether a heading was lost, so that the tree says nothing.
    pub fn loses(&self) -> bool
        ensures { result ≡ self.now.loses }
    {
        self.filter.loses()
    }

    /// Whether the events hide what they were expected to hide, so that the headings are those of the
    /// document.
    pub fn hides_as_expected(&self) -> bool
        ensures { result ≡ true → self.now.hidden ≡ hidden self.now.document self.now.events }
    {
        self.hiding.is_as_expected()
    }

    /// Takes the enter of a span.
    #[inline(always)]
    fn take_enter(&mut self, name: Name, at: Point)
        ensures events { self.new.events ≡ self.old.events ++ enter name at ∷ [] }
        ensures document { self.new.document ≡ self.old.document }
    {
        self.hiding.enter(name, &at);
        let passes = self.filter.enter(name);
        self.history = self.history.and(&enter_event(name, at));
        if passes {
            self.builder.enter(name, at);
        }
    }

    /// Takes the exit of a span.
    #[inline(always)]
    fn take_exit(&mut self, name: Name, at: Point)
        ensures events { self.new.events ≡ self.old.events ++ exit name at ∷ [] }
        ensures document { self.new.document ≡ self.old.document }
    {
        self.hiding.exit(self.bytes, name, &at);
        let passes = self.filter.exit(name);
        self.history = self.history.and(&exit_event(name, at));
        if passes {
            self.builder.exit(name, at);
        }
    }

    /// Takes the enter and the exit of a token.
    #[inline(always)]
    fn take_token(&mut self, name: Name, start: Point, end: Point)
        ensures events { self.new.events ≡ self.old.events ++ enter name start ∷ exit name end ∷ [] }
        ensures document { self.new.document ≡ self.old.document }
    {
        self.hiding.token(self.bytes, name, &start, &end);
        let passes = self.filter.token(name);
        self.history = self.history.and(&enter_event(name, start));
        self.history = self.history.and(&exit_event(name, end));
        if passes {
            self.builder.token(name, start, end);
        }
    }

    /// Returns the tree of the headings, where those bytes are hidden that were expected to be.
    pub fn finish(self) -> Result<Node, Fault>
        requires keeps { self.loses ≡ false }
        ensures found { IfOk result (λ tree. IsMeaning tree (filtered outside self.entry.events) (source_hiding self.entry.hidden self.entry.document html)) }
        ensures none { loses_none outside self.entry.events ≡ true }
        ensures refused { IfErr result (λ fault. FailsRightly fault (filtered outside self.entry.events) (source_hiding self.entry.hidden self.entry.document html)) }
    {
        let OutlineSink { builder, .. } = self;
        Box::into_inner(builder).finish()
    }
}

impl<'d> Sink for OutlineSink<'d> {
    ghost taken = { λ sink. sink.events };

    ghost document = { λ sink. Some sink.document };

    #[inline(always)]
    fn enter(&mut self, name: Name, at: Point) -> Result<(), AllocError> {
        self.take_enter(name, at);
        Ok(())
    }

    #[inline(always)]
    fn exit(&mut self, name: Name, at: Point) -> Result<(), AllocError> {
        self.take_exit(name, at);
        Ok(())
    }

    #[inline(always)]
    fn token(&mut self, name: Name, start: Point, end: Point) -> Result<(), AllocError> {
        self.take_token(name, start, end);
        Ok(())
    }
}
