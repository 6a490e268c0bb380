//! The outline of a document.

ghost use Rattle.std.specs.Prelude.{IfOk, IfSome, List, false, length, string_bytes, ◌≡◌};
ghost use Rattle.character_references.specs.Html.{html};
ghost use Rattle.event_writer.specs.Finished.{IsFinished};
ghost use Rattle.markdown_events.specs.declared.event.Event.{Event};
ghost use Rattle.markdown.specs.Blocks.{AreBlocks};
ghost use Rattle.markdown.specs.Documents.{IsReadAsOutline};
ghost use Rattle.markdown.specs.Hidden.{flags_at, hidden};
ghost use Rattle.markdown_grammar.specs.Document.{source, source_hiding};
ghost use Rattle.markdown_options.specs.Spans.{AreOn};
ghost use Rattle.markdown_outline.specs.Outlines.{HasOutline};

use crate::events::recorded;
use crate::expected::Expected;
use crate::outline_sink::OutlineSink;
use crate::tree::{memory_error, to_mdast};
use markdown_flow::document::{Blocks, read};
use markdown_options::ParseOptions;
use mdast_util::outline::outline;
use std::alloc::{AllocError, Global};

/// Returns the headings of a document, one on each line, as `outline` of `mdast_util` writes those of
/// its tree. Only headings become nodes.
///
/// The only error is that memory ran out, as in [`to_events`](crate::to_events).
///
/// The document `# Use\n\n## Events` produces `Use (1:1)` and then `  Events (3:1)`, each with a
/// line feed.
pub fn to_outline(alloc: Global, value: &str, options: &ParseOptions) -> Result<String, AllocError>
    // The text is the outline of the meaning of finished events, with whole values and without
    // hidden bytes. No event is of a construct that is off.
    ensures { IfOk result (λ text. (events : List Event) × IsFinished (source value.now html) events
        × AreOn options.now.constructs events
        × HasOutline (string_bytes text) events (source_hiding (hidden value.now events) value.now html)) }
{
    let bytes = value.as_bytes();
    let blocks = read(alloc, bytes, options)?;
    let expected = Expected::new(alloc, bytes, options, &blocks)?;
    if let Some(text) = outline_hiding(alloc, value, options, blocks, &expected)? {
        return Ok(text);
    }
    outline_again(alloc, value, options)
}

/// Returns the outline of a document of which labels hide bytes. It is read twice: to collect these, and
/// to build the headings.
fn outline_again(alloc: Global, value: &str, options: &ParseOptions) -> Result<String, AllocError>
    ensures { IfOk result (λ text. IsReadAsOutline options.now.constructs value.now (string_bytes text)) }
{
    let expected = Expected::of_document(alloc, value, options)?;
    let blocks = read(alloc, value.as_bytes(), options)?;
    if let Some(text) = outline_hiding(alloc, value, options, blocks, &expected)? {
        return Ok(text);
    }
    outline(alloc, &to_mdast(alloc, value, options)?)
}

/// Returns the outline of a document with these blocks, unless its events hide other bytes than those
/// that they are expected to hide, or a heading is lost.
fn outline_hiding(
    alloc: Global,
    value: &str,
    options: &ParseOptions,
    blocks: Blocks,
    expected: &Expected,
) -> Result<Option<String>, AllocError>
    requires blocks { AreBlocks value.now options.now.constructs blocks }
    requires expected { expected.now.flags.items ≡ flags_at (length value.now) expected.now.offsets.items }
    ensures { IfOk result (λ found. IfSome found (λ text. IsReadAsOutline options.now.constructs value.now (string_bytes text))) }
{
    let sink = OutlineSink::new(alloc, value, expected)?;
    let sink = recorded(alloc, value.as_bytes(), options, blocks, sink)?;
    if sink.hides_as_expected() && !sink.loses() {
        let text = built_outline(alloc, sink)?;
        return Ok(Some(text));
    }
    Ok(None)
}

/// Returns the outline of the headings that a sink has built, if its events hide what they were expected
/// to hide, and no heading was lost.
fn built_outline(alloc: Global, sink: OutlineSink<'_>) -> Result<String, AllocError>
    requires finished { IsFinished (source sink.document html) sink.events }
    requires hidden { sink.hidden ≡ hidden sink.document sink.events }
    requires keeps { sink.loses ≡ false }
    ensures { IfOk result (λ text. HasOutline (string_bytes text) sink.entry.events (source_hiding (hidden sink.entry.document sink.entry.events) sink.entry.document html)) }
{
    match sink.finish() {
        Ok(tree) => outline(alloc, &tree),
        Err(fault) => Err(memory_error(fault)),
    }
}
