//! How `compile` uses memory.

use crate::expect::{holds, says};
use crate::ordered;
use crate::outline::{compiled, spelled, spelled_to};
use markdown_nodes::event::{Event, Name};
use markdown_nodes::mdast::Node;
use markdown_nodes::message::Fault;
use markdown_tree::to_mdast::{References, compile};
use std::alloc::{AllocError, Global};
use std::process::Abort;
use std::test::Fail;

/// A decoder that never has memory.
struct Exhausted;

impl References for Exhausted {
    ghost use Rattle.std.specs.Prelude.{None};

    ghost text = { λ _ _ _. None };

    fn decode(
        &self,
        _alloc: Global,
        _value: &str,
        _marker: u8,
    ) -> Result<Option<String>, AllocError> {
        Err(AllocError)
    }
}

#[test]
fn a_decoder_without_memory(rt: HostRuntime) -> Result<(), Fail> {
    let outline = [
        (0, Name::CharacterReference),
        (1, Name::CharacterReferenceMarker),
        (1, Name::CharacterReferenceValue),
    ];
    let events = spelled(rt.alloc(), &outline)?;
    let answer = compile(rt.alloc(), events.as_slice(), b"", &Exhausted);
    holds(&rt, matches!(&answer, Err(Fault::Memory(_))));
    Ok(())
}

/// `scripts/refuse-memory-in-rows` shows that this allocates none.
#[test]
fn no_events_ask_for_no_memory(rt: HostRuntime) {
    let answer = compiled(rt.alloc(), b"", &[]);
    holds(
        &rt,
        matches!(&answer, Ok(Node::Root(root)) if root.children.is_empty()),
    );
}

/// Returns the events of nested block quotes, each up to this byte, with three paragraphs before
/// the quote in it and one after.
fn wide_and_deep(alloc: Global, depth: usize, end: usize) -> Result<Vec<Event>, AllocError> {
    let mut outline = Vec::new(alloc);
    for level in 0..depth {
        for _ in 0..3 {
            outline.push((level, Name::Paragraph))?;
            outline.push((level.saturating_add(1), Name::Data))?;
        }
        outline.push((level, Name::BlockQuote))?;
    }
    for level in (0..depth).rev() {
        outline.push((level, Name::Paragraph))?;
        outline.push((level.saturating_add(1), Name::Emphasis))?;
        outline.push((level.saturating_add(2), Name::Data))?;
    }
    spelled_to(alloc, outline.as_slice(), end)
}

/// Expects a tree to be printed in the same way by Debug and as a text.
fn is_printed_alike(rt: &impl Abort, alloc: Global, tree: &Node) -> Result<(), AllocError> {
    let line = tree.to_debug_string(alloc)?;
    let shown = format!(in alloc; "{tree:?}")?;
    holds(rt, shown == line);
    Ok(())
}

/// `scripts/release-memory` shows that all memory is freed, whichever request is refused.
#[test]
fn a_wide_and_deep_tree(rt: HostRuntime) -> Result<(), Fail> {
    let events = wide_and_deep(rt.alloc(), 20, 1)?;
    let tree = compiled(rt.alloc(), b"a", events.as_slice())?;
    let copy = tree.clone(rt.alloc())?;
    holds(&rt, copy == tree);
    let text = "a".repeat(rt.alloc(), 80)?;
    says(&rt, copy.to_string(rt.alloc()), text.as_str())?;
    is_printed_alike(&rt, rt.alloc(), &copy)?;
    Ok(())
}

/// Returns the innermost block quote of a tree of `wide_and_deep`.
fn innermost(tree: &mut Node) -> Option<&mut Node> {
    let mut node = tree;
    for _ in 0..20 {
        node = node.children_mut()?.get_mut(3)?;
    }
    Some(node)
}

/// `scripts/refuse-memory-in-rows` shows that no refusal changes an answer.
#[test]
fn a_wide_and_deep_tree_is_ordered(rt: HostRuntime) -> Result<(), Fail> {
    let alloc = rt.alloc();
    let events = wide_and_deep(alloc, 20, 0)?;
    let mut tree = compiled(alloc, b"", events.as_slice())?;
    holds(&rt, ordered(&tree));
    if let Some(node) = innermost(&mut tree) {
        node.position_set(None);
    }
    holds(&rt, !ordered(&tree));
    Ok(())
}
