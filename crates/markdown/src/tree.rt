//! The tree of a document.

ghost use Rattle.std.specs.Prelude.{IfErr, IfOk, IfSome, List, Some, [], length, ◌≡◌, ◌≢◌};
ghost use Rattle.character_references.specs.Html.{html};
ghost use Rattle.event_writer.specs.Finished.{IsFinished};
ghost use Rattle.markdown_events.specs.declared.event.Event.{Event};
ghost use Rattle.markdown_grammar.specs.Correct.{FailsRightly, IsMeaning};
ghost use Rattle.markdown.specs.Blocks.{AreBlocks};
ghost use Rattle.markdown.specs.Documents.{IsReadAsTree};
ghost use Rattle.markdown.specs.Hidden.{flags_at, hidden};
ghost use Rattle.markdown.specs.Roots.{whole_document};
ghost use Rattle.markdown_grammar.specs.Document.{source, source_hiding};
ghost use Rattle.markdown_grammar.specs.Ordered.{IsOrdered, NeverGoesBack};
ghost use Rattle.markdown_nodes.specs.Tree.{only};
ghost use Rattle.markdown_options.specs.Spans.{AreOn};
ghost use Rattle.markdown_nodes.specs.View.{view};
ghost use Rattle.markdown_events.specs.declared.message.Fault.TheVariants as faults;
ghost use Rattle.markdown_events.specs.declared.message.Message.{Message};

use crate::events::{recorded, to_events};
use crate::expected::Expected;
use crate::hidden::hidden_bytes;
use crate::tree_sink::TreeSink;
use character_references::html::HtmlReferences;
use event_writer::laws::{no_message_comes, offsets_never_go_back};
use markdown_events::event::Event;
use markdown_flow::document::{Blocks, read};
use markdown_nodes::mdast::Node;
use markdown_nodes::message::Fault;
use markdown_options::ParseOptions;
use markdown_tree::to_mdast::{Document, Steps, compile_document};
use std::alloc::{AllocError, Global};

/// Returns the mdast syntax tree of a document.
///
/// It is the meaning of the events of [`to_events`](crate::to_events), with whole values: a tab that a list marker
/// shares becomes spaces in code, and NUL becomes U+FFFD (CommonMark). Hidden bytes are left out:
/// the marker of a block quote from a label over lines (CommonMark), and the backslash before a
/// pipe in a table (GFM). In positions `line` and `column` count from 1, and `offset` counts bytes
/// from 0.
///
/// The only error is that memory ran out, as in `to_events`.
///
/// `to_mdast(alloc, "# Hi", &ParseOptions::default())?` is a root with a heading of depth 1.
pub fn to_mdast(alloc: Global, value: &str, options: &ParseOptions) -> Result<Node, AllocError>
    // The tree is the meaning of finished events, with whole values and without hidden bytes. No
    // event is of a construct that is off.
    ensures tree { IfOk result (λ tree. (events : List Event) × IsFinished (source value.now html) events
        × AreOn options.now.constructs events
        × IsMeaning tree events (source_hiding (hidden value.now events) value.now html)) }
    // Its root extends from the first byte of the document to the last.
    ensures root { IfOk result (λ tree. (view tree).position ≡ Some (whole_document value.now)) }
    // Nodes nest and siblings are in order, except for the starts in the first paragraphs of task
    // items.
    ensures ordered { IfOk result (λ tree. IsOrdered (only (view tree))) }
{
    let bytes = value.as_bytes();
    let blocks = read(alloc, bytes, options)?;
    let expected = Expected::new(alloc, bytes, options, &blocks)?;
    if let Some(tree) = tree_hiding(alloc, value, options, blocks, &expected)? {
        return Ok(tree);
    }
    tree_again(alloc, value, options)
}

/// Returns the tree of a document of which labels hide bytes. It is read twice: to collect these, and to
/// build the tree.
fn tree_again(alloc: Global, value: &str, options: &ParseOptions) -> Result<Node, AllocError>
    ensures tree { IfOk result (λ tree. IsReadAsTree options.now.constructs value.now tree) }
    ensures root { IfOk result (λ tree. (view tree).position ≡ Some (whole_document value.now)) }
    ensures ordered { IfOk result (λ tree. IsOrdered (only (view tree))) }
{
    let expected = Expected::of_document(alloc, value, options)?;
    let blocks = read(alloc, value.as_bytes(), options)?;
    if let Some(tree) = tree_hiding(alloc, value, options, blocks, &expected)? {
        return Ok(tree);
    }
    // That all readings have the same events is not proved, so this case stays.
    let events = to_events(alloc, value, options)?;
    tree_of(alloc, value, &events)
}

/// Returns the tree of a document with these blocks, unless its events hide other bytes than those that
/// they are expected to hide.
fn tree_hiding(
    alloc: Global,
    value: &str,
    options: &ParseOptions,
    blocks: Blocks,
    expected: &Expected,
) -> Result<Option<Node>, AllocError>
    requires blocks { AreBlocks value.now options.now.constructs blocks }
    requires expected { expected.now.flags.items ≡ flags_at (length value.now) expected.now.offsets.items }
    ensures tree { IfOk result (λ found. IfSome found (λ tree. IsReadAsTree options.now.constructs value.now tree)) }
    ensures root { IfOk result (λ found. IfSome found (λ tree. (view tree).position ≡ Some (whole_document value.now))) }
    ensures ordered { IfOk result (λ found. IfSome found (λ tree. IsOrdered (only (view tree)))) }
{
    let sink = TreeSink::new(alloc, value, expected)?;
    let sink = recorded(alloc, value.as_bytes(), options, blocks, sink)?;
    if sink.hides_as_expected() {
        let tree = built_tree(sink)?;
        return Ok(Some(tree));
    }
    Ok(None)
}

/// Returns the tree that a sink has built, if its events hide what they were expected to hide.
fn built_tree(sink: TreeSink<'_>) -> Result<Node, AllocError>
    requires finished { IsFinished (source sink.document html) sink.events }
    requires hidden { sink.hidden ≡ hidden sink.document sink.events }
    ensures tree { IfOk result (λ tree. IsMeaning tree sink.entry.events (source_hiding (hidden sink.entry.document sink.entry.events) sink.entry.document html)) }
    ensures root { IfOk result (λ tree. (view tree).position ≡ Some (whole_document sink.entry.document)) }
    ensures ordered { IfOk result (λ tree. IsOrdered (only (view tree))) }
{
    // For the proof: the tree is ordered, and there is no message.
    offsets_never_go_back();
    no_message_comes();
    match sink.finish() {
        Ok(tree) => Ok(tree),
        Err(fault) => Err(memory_error(fault)),
    }
}

/// Returns the tree of a document and its events.
fn tree_of(alloc: Global, value: &str, events: &[Event]) -> Result<Node, AllocError>
    requires { IsFinished (source value.now html) events.now }
    ensures tree { IfOk result (λ tree. IsMeaning tree events.now (source_hiding (hidden value.now events.now) value.now html)) }
    ensures root { IfOk result (λ tree. (view tree).position ≡ Some (whole_document value.now)) }
    ensures ordered { IfOk result (λ tree. IsOrdered (only (view tree))) }
{
    // For the proof: the tree is ordered, and there is no message.
    offsets_never_go_back();
    no_message_comes();
    match compile_events(alloc, value, events) {
        Ok(tree) => Ok(tree),
        Err(fault) => Err(memory_error(fault)),
    }
}

/// Returns the syntax tree of a document and its events, from any tokenizer.
///
/// It does what [`to_mdast`] does, with these events in place of those of [`to_events`]: values are
/// whole, and hidden bytes are left out. For the events of `to_events` it returns the tree of
/// `to_mdast`.
///
/// `Fault::Message` says which rule the events break, as for `compile` of the crate
/// `markdown_tree`, and `Fault::Memory` that memory ran out.
///
/// For `Hi` and the events of a paragraph with one data span it is a root with a paragraph with a
/// text.
pub fn compile_events(alloc: Global, value: &str, events: &[Event]) -> Result<Node, Fault>
    // A tree is the meaning of an accepted forest that has these events.
    ensures found { IfOk result (λ tree. IsMeaning tree events.now (source_hiding (hidden value.now events.now) value.now html)) }
    // There is a message only if there is no such forest.
    ensures refused { IfErr result (λ fault. FailsRightly fault events.now (source_hiding (hidden value.now events.now) value.now html)) }
    // If the offsets never go back, nodes nest and siblings are in order, except for the starts in
    // the first paragraphs of task items.
    ensures ordered { IfOk result (λ tree. NeverGoesBack events.now → IsOrdered (only (view tree))) }
{
    let bytes = value.as_bytes();
    let hidden = hidden_bytes(alloc, bytes, events)?;
    let document = Document::of_text(value, &hidden);
    compile_document(alloc, &mut Steps::new(events), &document, &HtmlReferences)
}

/// Returns the error that memory ran out, if a fault is not a message.
pub(crate) fn memory_error(fault: Fault) -> AllocError
    requires { (message : Message) → fault ≢ faults.Message message }
{
    match fault {
        Fault::Memory(error) => error,
        Fault::Message(_) => unreachable!(),
    }
}
