//! The text of a document.

ghost use Rattle.std.specs.Prelude.{IfOk, IfSome, List, false, length, string_bytes, ◌≡◌};
ghost use Rattle.character_references.specs.Html.{html};
ghost use Rattle.event_writer.specs.Finished.{IsFinished};
ghost use Rattle.markdown_events.specs.declared.event.Event.{Event};
ghost use Rattle.markdown.specs.Blocks.{AreBlocks};
ghost use Rattle.markdown.specs.Documents.{IsReadAsText};
ghost use Rattle.markdown.specs.Hidden.{flags_at, hidden};
ghost use Rattle.markdown_grammar.specs.Document.{source, source_hiding};
ghost use Rattle.markdown_options.specs.Spans.{AreOn};
ghost use Rattle.markdown_words.specs.Texts.{HasText};

use crate::events::recorded;
use crate::expected::Expected;
use crate::text_sink::TextSink;
use crate::tree::to_mdast;
use markdown_flow::document::{Blocks, read};
use markdown_options::ParseOptions;
use mdast_util::plain_text::plain_text;
use std::alloc::{AllocError, Global};

/// Returns the text of a document without its markup, as `plain_text` of `mdast_util` returns that
/// of its tree. No tree is built.
///
/// The only error is that memory ran out.
///
/// The document `# Hi *Earth*!\n\nNext` has the text `Hi Earth!\nNext\n`.
pub fn to_text(alloc: Global, value: &str, options: &ParseOptions) -> Result<String, AllocError>
    // The text is that of the meaning of finished events, with whole values and without hidden
    // bytes. No event is of a construct that is off.
    ensures { IfOk result (λ text. (events : List Event) × IsFinished (source value.now html) events
        × AreOn options.now.constructs events
        × HasText (string_bytes text) events (source_hiding (hidden value.now events) value.now html)) }
{
    let bytes = value.as_bytes();
    let blocks = read(alloc, bytes, options)?;
    let expected = Expected::new(alloc, bytes, options, &blocks)?;
    if let Some(text) = text_hiding(alloc, value, options, blocks, &expected)? {
        return Ok(text);
    }
    text_again(alloc, value, options)
}

/// Returns the text of a document of which labels hide bytes. It is read twice: to collect these, and to
/// say the words.
fn text_again(alloc: Global, value: &str, options: &ParseOptions) -> Result<String, AllocError>
    ensures { IfOk result (λ text. IsReadAsText options.now.constructs value.now (string_bytes text)) }
{
    let expected = Expected::of_document(alloc, value, options)?;
    let blocks = read(alloc, value.as_bytes(), options)?;
    if let Some(text) = text_hiding(alloc, value, options, blocks, &expected)? {
        return Ok(text);
    }
    plain_text(alloc, &to_mdast(alloc, value, options)?)
}

/// Returns the text of a document with these blocks, unless its events hide other bytes than those that
/// they are expected to hide, or one of them is strange.
fn text_hiding(
    alloc: Global,
    value: &str,
    options: &ParseOptions,
    blocks: Blocks,
    expected: &Expected,
) -> Result<Option<String>, AllocError>
    requires blocks { AreBlocks value.now options.now.constructs blocks }
    requires expected { expected.now.flags.items ≡ flags_at (length value.now) expected.now.offsets.items }
    ensures { IfOk result (λ found. IfSome found (λ text. IsReadAsText options.now.constructs value.now (string_bytes text))) }
{
    let sink = TextSink::new(alloc, value, expected)?;
    let sink = recorded(alloc, value.as_bytes(), options, blocks, sink)?;
    if sink.hides_as_expected() && !sink.is_strange() {
        let text = said_text(sink)?;
        return Ok(Some(text));
    }
    Ok(None)
}

/// Returns the words that a sink has said, if its events hide what they were expected to hide and none of
/// them was strange.
fn said_text(sink: TextSink<'_>) -> Result<String, AllocError>
    requires finished { IsFinished (source sink.document html) sink.events }
    requires hidden { sink.hidden ≡ hidden sink.document sink.events }
    requires known { sink.strange ≡ false }
    ensures { IfOk result (λ text. HasText (string_bytes text) sink.entry.events (source_hiding (hidden sink.entry.document sink.entry.events) sink.entry.document html)) }
{
    sink.finish()
}
