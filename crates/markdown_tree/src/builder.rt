//! A tree that is built event by event.

ghost use Rattle.std.specs.Prelude.{◌≡◌, ◌<◌, ◌^◌, ◌++◌, ◌∷◌, [], IfErr, IfOk, Result, false, is_some};
ghost use Rattle.markdown_events.specs.Forest.{enter, exit};
ghost use Rattle.markdown_grammar.specs.Correct.{FailsRightly, IsMeaning};
ghost use Rattle.markdown_containers.specs.ContainerStates.{Stops};
ghost use Rattle.markdown_grammar.specs.Document.{Source, given_of, source_of};
ghost use Rattle.markdown_grammar.specs.Ordered.{IsOrdered, NeverGoesBack};
ghost use Rattle.markdown_grammar.specs.Refusals.{ErrorAt};
ghost use Rattle.markdown_nodes.specs.Tree.{only};
ghost use Rattle.markdown_nodes.specs.View.{view};
ghost use Rattle.markdown_steps.specs.Compiler;
ghost use Rattle.markdown_steps.specs.Compiler.{State, compiled, run};
ghost use Rattle.markdown_steps.specs.Extents.{extent_of};
ghost use Rattle.markdown_steps.specs.Well.{Well};
ghost use Rattle.markdown_tree.specs.Building.{HasState};
ghost use Rattle.markdown_tree.specs.States.{Completes, state_of};
ghost use Rattle.markdown_tree.specs.declared.context.Context.{Context};

use crate::context::{Context, TokenStop};
use crate::history::Passed;
use character_references::references::References;
use markdown_grammar::error_kind::Stop;
use markdown_nodes::event::{Event, Kind, Name, Point};
use markdown_nodes::mdast::{Node, Root};
use markdown_nodes::message::Fault;
use markdown_nodes::steps::Steps;
use markdown_parts::slice::Document;
use std::alloc::Global;
use std::marker::Model;

/// A tree that is built event by event (ours). It does what
/// [`compile_document`](crate::to_mdast::compile_document) does, without a list of the events.
///
/// ```text
/// let mut builder = TreeBuilder::new(alloc, Document::new(b"Hi", Values::Whole), &NoReferences);
/// for event in &events {
///     builder.take(event);
/// }
/// let tree = builder.finish()?;
/// ```
#[derive(Drop)]
pub struct TreeBuilder<'a, R: References> {
    /// The document.
    document: Document<'a>,
    /// What its character references stand for.
    references: &'a R,
    /// What the events so far have made.
    context: Context<'a>,
    /// Why an event was refused, or that memory ran out.
    fault: Option<Fault>,
    /// The events so far.
    passed: Passed,
    /// The steps, which nobody reads.
    steps: Steps<'a>,
    /// The allocator.
    alloc: Global,
}

impl<'a, R: References> Model for TreeBuilder<'a, R> {
    ghost use Rattle.markdown_grammar.specs.Document.{source_of};
    ghost use Rattle.markdown_tree.specs.Building.{Building, IsBuilt};

    ghost Value = { Building R };

    ghost view = { λ b. record { document = b.document; references = b.references.now; events = b.passed } };

    ghost invariant = { λ b. IsBuilt (source_of b.document (R.text b.references.now)) b.passed b.context b.fault };
}

impl<'a, R: References> TreeBuilder<'a, R> {
    /// Returns a builder that has taken no event. It allocates no memory.
    pub fn new(alloc: Global, document: Document<'a>, references: &'a R) -> TreeBuilder<'a, R>
        ensures { result ≡ record { document = document.entry; references = references.now; events = [] } }
    {
        TreeBuilder {
            document,
            references,
            context: Context::new(alloc),
            fault: None,
            passed: Passed::none(),
            steps: Steps::new(&[]),
            alloc,
        }
    }

    /// Takes the next event. After one that the grammar refuses, and once memory has run out, events
    /// change nothing any more.
    #[inline(always)]
    pub fn take(&mut self, event: &Event)
        ensures document { self.new.document ≡ self.old.document }
        ensures references { self.new.references ≡ self.old.references }
        ensures events { self.new.events ≡ self.old.events ++ event.now ∷ [] }
    {
        match event.kind {
            Kind::Enter => self.enter(event.name, event.point),
            Kind::Exit => self.exit(event.name, event.point),
        }
    }

    /// Takes the enter of a span, as [`take`](TreeBuilder::take) does with that event.
    #[inline(always)]
    pub fn enter(&mut self, name: Name, at: Point)
        ensures document { self.new.document ≡ self.old.document }
        ensures references { self.new.references ≡ self.old.references }
        ensures events { self.new.events ≡ self.old.events ++ enter name at ∷ [] }
    {
        if self.fault.is_some() {
            self.passed.add_enter(name, at);
            return;
        }
        open_span(
            self.alloc,
            &mut self.context,
            &mut self.fault,
            &self.document,
            name,
            &at,
        );
        self.passed.add_enter(name, at);
    }

    /// Takes the exit of a span, as [`take`](TreeBuilder::take) does with that event.
    #[inline(always)]
    pub fn exit(&mut self, name: Name, at: Point)
        ensures document { self.new.document ≡ self.old.document }
        ensures references { self.new.references ≡ self.old.references }
        ensures events { self.new.events ≡ self.old.events ++ exit name at ∷ [] }
    {
        if self.fault.is_some() {
            self.passed.add_exit(name, at);
            return;
        }
        close_span(
            self.alloc,
            &mut self.context,
            &mut self.fault,
            &mut self.steps,
            &self.document,
            self.references,
            name,
            &at,
        );
        self.passed.add_exit(name, at);
    }

    /// Takes the enter and the exit of a token, a span that contains no span. It does what two calls of
    /// [`take`](TreeBuilder::take) do, in fewer instructions.
    #[inline(always)]
    pub fn token(&mut self, name: Name, start: Point, end: Point)
        ensures document { self.new.document ≡ self.old.document }
        ensures references { self.new.references ≡ self.old.references }
        ensures events { self.new.events ≡ self.old.events ++ enter name start ∷ exit name end ∷ [] }
    {
        if self.fault.is_some() {
            self.passed.add_token(name, start, end);
            return;
        }
        advance_token(
            self.alloc,
            &mut self.context,
            &mut self.fault,
            &mut self.steps,
            &self.document,
            self.references,
            name,
            &start,
            &end,
        );
        self.passed.add_token(name, start, end);
    }

    /// Returns the tree of the events, or why they have none: one was refused, or at the end a span
    /// is open or a break waits for its line ending.
    pub fn finish(self) -> Result<Node, Fault>
        ensures found { IfOk result (λ tree. IsMeaning tree self.entry.events (source_of self.entry.document (R.text self.entry.references))) }
        ensures refused { IfErr result (λ fault. FailsRightly fault self.entry.events (source_of self.entry.document (R.text self.entry.references))) }
        ensures ordered { IfOk result (λ tree. NeverGoesBack self.entry.events → IsOrdered (only (view tree))) }
    {
        self.compiled()
    }

    /// Does what `finish` does. Specified by the compilation on values, `compiled`.
    fn compiled(self) -> Result<Node, Fault>
        ensures gives { Completes view result (compiled (source_of self.entry.document (R.text self.entry.references)) self.entry.events) }
        ensures fits { IfOk result (λ tree. (extent_of self.entry.events).end.offset < 2 ^ 64) }
    {
        let TreeBuilder {
            context,
            fault,
            passed,
            ..
        } = self;
        if let Some(fault) = fault {
            return Err(fault);
        }
        let violated = context.unfinished();
        let children = context.into_nodes();
        if let Some(error_kind) = violated {
            return Err(Stop::Refused(error_kind).at(passed.end()));
        }
        Ok(Node::Root(Root {
            children,
            position: Some(passed.extent()),
        }))
    }
}

/// Does what the enter of a span does to a context that no event has been refused for. A fault says
/// that it is refused, or that memory ran out.
#[inline(always)]
fn open_span<'a>(
    alloc: Global,
    context: &mut Context<'a>,
    fault: &mut Option<Fault>,
    document: &Document<'a>,
    name: Name,
    at: &Point,
)
    requires { is_some fault.old ≡ false }
    ensures { (s : Source) → given_of s ≡ document.now → HasState context.new fault.new (Compiler.step s (enter name at.now) (state_of context.old)) }
{
    if let Err(stop) = context.enter(alloc, document, name, at) {
        refuse(fault, stop, at);
    }
}

/// Does what the exit of a span does to a context that no event has been refused for.
#[inline(always)]
fn close_span<'a, R: References>(
    alloc: Global,
    context: &mut Context<'a>,
    fault: &mut Option<Fault>,
    steps: &mut Steps<'_>,
    document: &Document<'a>,
    references: &R,
    name: Name,
    at: &Point,
)
    requires well { Well (source_of document.now (R.text references.now)) (state_of context.old) }
    requires none { is_some fault.old ≡ false }
    ensures { HasState context.new fault.new
        (Compiler.step (source_of document.now (R.text references.now)) (exit name at.now) (state_of context.old)) }
{
    if let Err(stop) = context.exit(alloc, steps, document, references, name, at) {
        refuse(fault, stop, at);
    }
}

/// Keeps why an event is refused, or that memory ran out.
///
/// Not inlined: a fault is large, and its space would be cleared at each event.
#[inline(never)]
fn refuse(fault: &mut Option<Fault>, stop: Stop, point: &Point)
    ensures { (context : Context) → (expected : Result State ErrorAt) → Stops stop point.now expected → HasState context fault.new expected }
{
    *fault = Some(stop.at(*point));
}

/// Does what a token does to a context that no event has been refused for. A fault says that one of
/// its two events is refused, or that memory ran out.
#[inline(always)]
fn advance_token<'a, R: References>(
    alloc: Global,
    context: &mut Context<'a>,
    fault: &mut Option<Fault>,
    steps: &mut Steps<'_>,
    document: &Document<'a>,
    references: &R,
    name: Name,
    start: &Point,
    end: &Point,
)
    requires well { Well (source_of document.now (R.text references.now)) (state_of context.old) }
    requires none { is_some fault.old ≡ false }
    ensures { HasState context.new fault.new
        (run (source_of document.now (R.text references.now)) (enter name start.now ∷ exit name end.now ∷ []) (state_of context.old)) }
{
    match context.token(alloc, steps, document, references, name, start, end) {
        Ok(()) => (),
        Err(TokenStop::AtStart(stop)) => refuse(fault, stop, start),
        Err(TokenStop::AtEnd(stop)) => refuse(fault, stop, end),
    }
}
