//! From events to a tree.

ghost use Rattle.std.specs.Prelude.{◌≡◌, ◌<◌, ◌≤◌, ◌+◌, ◌*◌, ◌^◌, [], length, IsOk, IfOk, IfErr};
ghost use Rattle.markdown_events.specs.Forest.{Forest, events_of};
ghost use Rattle.markdown_nodes.specs.Tree.{only};
ghost use Rattle.markdown_nodes.specs.View.{view};
ghost use Rattle.markdown_grammar.specs.Buffers.{buffered_events, buffered_nodes};
ghost use Rattle.markdown_steps.specs.Compiler.{compiled, opening, point_of, run};
ghost use Rattle.markdown_grammar.specs.Correct.{FailsRightly, IsMeaning};
ghost use Rattle.markdown_steps.specs.Extents.{extent_of, last_event};
ghost use Rattle.markdown_grammar.specs.Ordered.{IsOrdered, NeverGoesBack};
ghost use Rattle.markdown_grammar.specs.Document.{source, source_of, source_with};
ghost use Rattle.markdown_tree.specs.States.{Completes, state_of};
ghost use Rattle.markdown_events.specs.Steps.{event_count};
ghost use Rattle.markdown_steps.specs.Visits.{run_visits};

use crate::context::Context;
pub use character_references::references::References;
use markdown_grammar::error_kind::Stop;
pub use markdown_grammar::values::Values;
use markdown_nodes::event::{Event, Point};
use markdown_nodes::mdast::{Node, Root};
use markdown_nodes::message::Fault;
pub use markdown_nodes::steps::Steps;
use markdown_nodes::unist::Position;
pub use markdown_parts::slice::Document;
use markdown_parts::slice::position_of;
use std::alloc::Global;

/// Builds the mdast tree of a document from the events of its tokenizer.
///
/// `bytes` is the document that the points of the events refer to. `references` says which text
/// each character reference stands for.
///
/// Returns a tree exactly when the events are those of a forest that the grammar accepts for these
/// bytes and `references`. The tree is that forest's meaning. If the offsets of the events never go
/// back, the nodes of the tree nest and siblings are in order, except for the starts in the first
/// paragraphs of task items. Every other list is refused with a message that has one of the rules
/// below. The message is at the point of the first event at which something is wrong, or of the
/// last event if something is left open:
///
/// - `events-unbalanced`: an exit does not match the open span, or a span is open at the end;
/// - `span-held`: a span is in one that may contain no span, or a delimiter row or delimiter cell
///   value is in another one;
/// - `name-misplaced`: the container does not accept the name there;
/// - `part-repeated`: a part that may occur once occurs again;
/// - `slice-invalid`: a value that is read is not a text of the document, or a sequence or a byte
///   that is read is not in it;
/// - `list-value-invalid`: the value of an item is not a number up to 4294967295;
/// - `list-value-missing`: no item of an ordered list has a value;
/// - `reference-unknown`: `references` has no text for a character reference;
/// - `reference-incomplete`: a character reference has no value, or no marker before it;
/// - `fence-missing`: fenced code or math has no fence;
/// - `heading-depth`: a heading has no sequence, or the sequence of an ATX heading is not one to
///   six bytes long;
/// - `break-unfinished`: a hard break is not followed by its line ending.
///
/// `Fault::Memory` comes only if the allocator or the decoder ran out of memory. A refusal returns
/// no tree. For no events the tree is an empty root, and no memory is allocated. Which lists have a
/// tree is our rule. The nodes are those of mdast, and their content is that of CommonMark and GFM.
///
/// The events of `Hi`, a paragraph with one data span, produce a root with a paragraph with a text.
pub fn compile<R: References>(
    alloc: Global,
    events: &[Event],
    bytes: &[u8],
    references: &R,
) -> Result<Node, Fault>
    // A tree is the meaning of an accepted forest that has these events.
    ensures found { IfOk result (λ tree. IsMeaning tree events.now (source bytes.now (R.text references.now))) }
    // There is a message only if there is no such forest.
    ensures refused { IfErr result (λ fault. FailsRightly fault events.now (source bytes.now (R.text references.now))) }
    // If the offsets never go back, nodes nest and siblings are in order, except for the starts in
    // the first paragraphs of task items.
    ensures ordered { IfOk result (λ tree. NeverGoesBack events.now → IsOrdered (only (view tree))) }
    // Without events there is always a tree, whatever the allocator does.
    ensures empty { events.now ≡ [] → IsOk result }
{
    compile_with(alloc, events, bytes, references, Values::AsInDocument)
}

/// Does what [`compile`] does, and reads values as `values` says.
///
/// With [`Values::AsInDocument`] the result is that of [`compile`]. With [`Values::Whole`], texts
/// and addresses have the columns of a split tab as spaces, and U+FFFD for each NUL, as in
/// CommonMark. Both accept the same lists and refuse the others for the same reasons.
///
/// For the events of `>→→foo`, where `→` is a tab, whole values produce a code `␠␠foo`.
pub fn compile_with<R: References>(
    alloc: Global,
    events: &[Event],
    bytes: &[u8],
    references: &R,
    values: Values,
) -> Result<Node, Fault>
    // A tree is the meaning of an accepted forest that has these events.
    ensures found { IfOk result (λ tree. IsMeaning tree events.now (source_with values bytes.now (R.text references.now))) }
    // There is a message only if there is no such forest.
    ensures refused { IfErr result (λ fault. FailsRightly fault events.now (source_with values bytes.now (R.text references.now))) }
    // If the offsets never go back, nodes nest and siblings are in order, except for the starts in
    // the first paragraphs of task items.
    ensures ordered { IfOk result (λ tree. NeverGoesBack events.now → IsOrdered (only (view tree))) }
    // Without events there is always a tree, whatever the allocator does.
    ensures empty { events.now ≡ [] → IsOk result }
{
    let document = Document::new(bytes, values);
    compile_document(alloc, &mut Steps::new(events), &document, references)
}

/// Does what [`compile`] does for the list in `steps`. It reads the list through `steps` alone, and
/// adds its steps to the count.
///
/// It adds at most four steps for each event. For a tree it also adds one for each node in each
/// buffer: a span whose nodes are collected for a text, such as code, a label or a title. If there
/// is no tree, it adds at most one more for each event inside a span with such a name. The bound is
/// ours.
///
/// For the events of `Hi`, a paragraph with one data span, it adds at most 16 steps: there are four
/// events, and a paragraph is not a buffer.
pub fn compile_counted<R: References>(
    alloc: Global,
    steps: &mut Steps<'_>,
    bytes: &[u8],
    references: &R,
) -> Result<Node, Fault>
    // A tree is the meaning of an accepted forest that has these events.
    ensures found { IfOk result (λ tree. IsMeaning tree steps.old.events (source bytes.now (R.text references.now))) }
    // There is a message only if there is no such forest.
    ensures refused { IfErr result (λ fault. FailsRightly fault steps.old.events (source bytes.now (R.text references.now))) }
    // If the offsets never go back, nodes nest and siblings are in order, except for the starts in
    // the first paragraphs of task items.
    ensures ordered { IfOk result (λ tree. NeverGoesBack steps.old.events → IsOrdered (only (view tree))) }
    // Without events there is always a tree, whatever the allocator does.
    ensures empty { steps.old.events ≡ [] → IsOk result }
    // The list is unchanged.
    ensures list { steps.new.events ≡ steps.old.events }
    // Each event takes at most four steps, and each node in a buffer one.
    ensures bound { IfOk result (λ tree. (forest : Forest) → events_of forest ≡ steps.old.events
        → steps.new.count ≤ steps.old.count + 4 * length steps.old.events
        + buffered_nodes (source bytes.now (R.text references.now)) forest) }
    // Without a tree, each event inside a span with a buffer's name takes at most one more.
    ensures bound_without { IfErr result (λ fault.
        steps.new.count ≤ steps.old.count + 4 * length steps.old.events + buffered_events steps.old.events) }
{
    let document = Document::new(bytes, Values::AsInDocument);
    compile_document(alloc, steps, &document, references)
}

/// Does what [`compile_counted`] does for a `Document`, which says how values are read and which
/// bytes are hidden. The steps are the same.
///
/// A hidden byte is in a span, but is not part of its value or of the identifier of a label.
/// Examples are the marker of a block quote in a label over two lines, and the backslash before a
/// pipe in a table. This function does not check which bytes are hidden.
///
/// For the events of `Hi` it adds at most 16 steps, whatever is hidden.
pub fn compile_document<R: References>(
    alloc: Global,
    steps: &mut Steps<'_>,
    document: &Document<'_>,
    references: &R,
) -> Result<Node, Fault>
    // A tree is the meaning of an accepted forest that has these events.
    ensures found { IfOk result (λ tree. IsMeaning tree steps.old.events (source_of document.now (R.text references.now))) }
    // There is a message only if there is no such forest.
    ensures refused { IfErr result (λ fault. FailsRightly fault steps.old.events (source_of document.now (R.text references.now))) }
    // If the offsets never go back, nodes nest and siblings are in order, except for the starts in
    // the first paragraphs of task items.
    ensures ordered { IfOk result (λ tree. NeverGoesBack steps.old.events → IsOrdered (only (view tree))) }
    // Without events there is always a tree, whatever the allocator does.
    ensures empty { steps.old.events ≡ [] → IsOk result }
    // The list is unchanged.
    ensures list { steps.new.events ≡ steps.old.events }
    // Each event takes at most four steps, and each node in a buffer one.
    ensures bound { IfOk result (λ tree. (forest : Forest) → events_of forest ≡ steps.old.events
        → steps.new.count ≤ steps.old.count + 4 * length steps.old.events
        + buffered_nodes (source_of document.now (R.text references.now)) forest) }
    // Without a tree, each event inside a span with a buffer's name takes at most one more.
    ensures bound_without { IfErr result (λ fault.
        steps.new.count ≤ steps.old.count + 4 * length steps.old.events + buffered_events steps.old.events) }
{
    compile_list(alloc, steps, document, references)
}

/// Does what [`compile_document`] does. Specified by the compilation on values, `compiled`.
fn compile_list<R: References>(
    alloc: Global,
    steps: &mut Steps<'_>,
    document: &Document<'_>,
    references: &R,
) -> Result<Node, Fault>
    ensures gives { Completes view result (compiled (source_of document.now (R.text references.now)) steps.old.events) }
    ensures fits { IfOk result (λ tree. (extent_of steps.old.events).end.offset < 2 ^ 64) }
    ensures empty { steps.old.events ≡ [] → IsOk result }
    ensures list { steps.new.events ≡ steps.old.events }
    ensures bound { steps.new.count ≤ steps.old.count + 4 * length steps.old.events
        + run_visits (source_of document.now (R.text references.now)) steps.old.events opening }
{
    let Taken { context, outcome } = take_all(alloc, steps, document, references);
    let length = match outcome {
        Ok(length) => length,
        Err(fault) => {
            // The nodes are freed like those of a whole list.
            let _nodes = context.into_nodes();
            return Err(fault);
        }
    };
    let violated = context.unfinished();
    let children = context.into_nodes();
    if let Some(error_kind) = violated {
        return Err(Stop::Refused(error_kind).at(last_point(steps, length)));
    }
    Ok(Node::Root(Root {
        children,
        position: Some(root_position(steps, length)),
    }))
}

/// The context after the last event that was taken, and how many events there are, or why one of them
/// was refused.
#[derive(Drop)]
struct Taken<'a> {
    context: Context<'a>,
    outcome: Result<usize, Fault>,
}

/// Takes all events in order. Not inlined: the code of its callers would crowd the loop. It always
/// returns the context, so the loop has nothing to drop.
#[inline(never)]
fn take_all<'a, R: References>(
    alloc: Global,
    steps: &mut Steps<'_>,
    document: &Document<'a>,
    references: &R,
) -> Taken<'a>
    ensures gives { Completes (λ _. state_of result.context) result.outcome
        (run (source_of document.now (R.text references.now)) steps.old.events opening) }
    ensures empty { steps.old.events ≡ [] → IsOk result.outcome }
    ensures length { IfOk result.outcome (λ count. count ≡ length steps.old.events) }
    ensures list { steps.new.events ≡ steps.old.events }
    ensures bound { steps.new.count ≤ steps.old.count + 2 * length steps.old.events
        + run_visits (source_of document.now (R.text references.now)) steps.old.events opening }
{
    let mut context = Context::new(alloc);
    let mut index = 0;
    while let Some(event) = steps.read(index) {
        if let Err(stop) = context.step(alloc, steps, document, references, &event) {
            return Taken {
                context,
                outcome: Err(stop.at(event.point)),
            };
        }
        index += 1;
    }
    Taken {
        context,
        outcome: Ok(index),
    }
}

/// Returns the point of the last event, if there is one.
fn last_point(steps: &mut Steps<'_>, length: usize) -> Point
    requires length { length ≡ event_count steps.old.events }
    requires some { 0 < length }
    ensures point { result ≡ point_of (last_event steps.old.events) }
    ensures list { steps.new.events ≡ steps.old.events }
    ensures count { steps.new.count ≤ steps.old.count + 1 }
{
    match steps.read(length - 1) {
        Some(last) => last.point,
        None => unreachable!(),
    }
}

/// Returns the position from the first event to the last, or the first place of a document if there
/// is no event.
fn root_position(steps: &mut Steps<'_>, length: usize) -> Position
    requires { length ≡ event_count steps.old.events }
    ensures position { result ≡ extent_of steps.old.events }
    ensures fits { result.end.offset < 2 ^ 64 }
    ensures list { steps.new.events ≡ steps.old.events }
    ensures count { steps.new.count ≤ steps.old.count + 2 * length }
{
    match steps.read(0) {
        Some(first) => position_of(first.point, last_point(steps, length)),
        None => Position::new(1, 1, 0, 1, 1, 0),
    }
}
