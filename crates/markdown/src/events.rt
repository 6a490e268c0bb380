//! The events of a document.

ghost use Rattle.std.specs.Prelude.{IfOk, [], false, length, ◌≡◌};
ghost use Rattle.std.specs.Str.{IsUtf8};
ghost use Rattle.character_references.specs.Html.{html};
ghost use Rattle.event_writer.specs.Finished.{IsFinished};
ghost use Rattle.event_writer.specs.Stages.{flow};
ghost use Rattle.markdown_grammar.specs.Document.{source};
ghost use Rattle.markdown_options.specs.Spans.{AreOn};
ghost use Rattle.markdown_text.specs.Standings.{IsAt};
ghost use Rattle.markdown.specs.Blocks.{AreBlocks};

use character_references::html::HtmlReferences;
use event_writer::recorder::Recorder;
use event_writer::sink::Sink;
use markdown_events::event::Event;
use markdown_flow::document::{Blocks, read};
use markdown_options::ParseOptions;
use markdown_text::document::{Reading, write};
use std::alloc::{AllocError, Global};

/// Returns the events of a document: where each span begins and where it ends (the names are those
/// of micromark). The only error is that memory ran out. A document of 2^61 bytes or more is
/// refused as one for which memory ran out: its columns might not fit 64 bits.
///
/// The list is that of a forest that the grammar accepts. Its tokens, the spans that contain no
/// span, tile the document from the first byte to the last. In each event `line` and `column` count
/// from 1, and `index` counts bytes from 0; a tab goes to the next column that is one more than a
/// multiple of four. A construct that is off in the options has no span.
///
/// The document `Hi` has four: a paragraph begins at 1:1, and data in it, and both end at 1:3.
pub fn to_events(
    alloc: Global,
    value: &str,
    options: &ParseOptions,
) -> Result<Vec<Event>, AllocError>
    // The grammar accepts the events, their tokens tile the document, and each is at a true point.
    ensures finished { IfOk result (λ events. IsFinished (source value.now html) events.items) }
    // A construct that is off has no span.
    ensures on { IfOk result (λ events. AreOn options.now.constructs events.items) }
{
    let document = value.as_bytes();
    let blocks = read(alloc, document, options)?;
    recorded(alloc, document, options, blocks, Vec::new(alloc))
}

/// Returns a sink that has taken the events of a document, from its blocks and a sink that has taken
/// none. The memory of the blocks is given back meanwhile.
pub(crate) fn recorded<S: Sink>(
    alloc: Global,
    document: &[u8],
    options: &ParseOptions,
    blocks: Blocks,
    sink: S,
) -> Result<S, AllocError>
    requires text { IsUtf8 document.now }
    requires blocks { AreBlocks document.now options.now.constructs blocks }
    requires none { S.taken sink ≡ [] }
    ensures finished { IfOk result (λ taken. IsFinished (source document.now html) (S.taken taken)) }
    ensures on { IfOk result (λ taken. AreOn options.now.constructs (S.taken taken)) }
    ensures document { IfOk result (λ taken. S.document taken ≡ S.document sink) }
{
    let writer = written(alloc, document, options, blocks, sink)?;
    Ok(writer.finish())
}

/// Returns a recorder that has written a document to its end, from its blocks and a sink that has
/// taken no event.
fn written<'d, S: Sink>(
    alloc: Global,
    document: &'d [u8],
    options: &ParseOptions,
    blocks: Blocks,
    sink: S,
) -> Result<Recorder<'d, HtmlReferences, S>, AllocError>
    requires text { IsUtf8 document.now }
    requires blocks { AreBlocks document.now options.now.constructs blocks }
    requires none { S.taken sink ≡ [] }
    ensures given { IfOk result (λ writer. writer.given.bytes ≡ document.now) }
    ensures sink { IfOk result (λ writer. writer.given.sink ≡ S.document sink) }
    ensures end { IfOk result (λ writer. writer.cursor.index ≡ length document.now) }
    ensures root { IfOk result (λ writer. IsAt writer (flow false) []) }
    ensures on { IfOk result (λ writer. AreOn options.now.constructs writer.events) }
{
    let Blocks {
        pieces,
        identifiers,
    } = blocks;
    let reading = Reading {
        alloc,
        document,
        options: *options,
        identifiers: &identifiers,
        references: &HtmlReferences,
    };
    let writer = Recorder::new(alloc, document, &HtmlReferences, sink)?;
    write(&reading, pieces, writer)
}
