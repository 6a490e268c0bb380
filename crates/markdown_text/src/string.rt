//! String content (micromark): escapes and character references, as in a label, a destination or a title.

ghost use Rattle.std.specs.Prelude.{Bool, IfOk, List, OnOk, false, length, slice_index, ◌≡◌, ◌≤◌, ◌<◌, ◌≢◌, true};
ghost use Rattle.event_writer.specs.Stages.{Enclosing, inlines};
ghost use Rattle.markdown_options.specs.declared.Constructs.{Constructs};
ghost use Rattle.markdown_pieces.specs.Tilings.{Tiles, end_from};
ghost use Rattle.markdown_text.specs.Constructs.{is_found_on};
ghost use Rattle.markdown_text.specs.Contents.{IsContent, IsPart, IsRange, joined, spot};
ghost use Rattle.markdown_text.specs.Outputs.{AtInlines, BeginsText, GoesOn, KeepsInlines, Stands, as_text, bytes_of, references_of, constructs_of};
ghost use Rattle.markdown_text.specs.Spans.{IsWithin};
ghost use Rattle.markdown_text.specs.Standings.{IsAt};
ghost use Rattle.markdown_text.specs.Texts.{bare, text_of};
ghost use Rattle.markdown_text.specs.Tokens.{IsFound, IsOfString};

use crate::output::{ContentKind, Output};
use crate::plain::plain_length;
use crate::source::Source;
use crate::token::{Found, TokenKind};
use crate::{character_escape, character_reference};
use character_references::references::References;
use commonmark_syntax::bytes::after;
use event_writer::recorder::Recorder;
use event_writer::sink::Sink;
use markdown_events::event::Name;
use markdown_pieces::piece::Piece;
use std::alloc::AllocError;

/// Writes the spans of a string. `pieces` are those of the block structure.
#[inline(always)]
pub fn inlines<'c, 'd, R: References, S: Sink>(
    source: &'c Source<'c, R>,
    writer: Box<Recorder<'d, R, S>>,
    pieces: &'c [Piece],
) -> Result<Box<Recorder<'d, R, S>>, AllocError>
    requires document { writer.value.given.bytes ≡ source.now.reading.now.document.now }
    requires content { IsContent pieces.now }
    requires tiles { Tiles writer.value.given.bytes (spot writer.value.cursor) pieces.now (end_from (spot writer.value.cursor) pieces.now) }
    requires bytes { source.now.bytes.now ≡ joined writer.value.given.bytes writer.value.cursor.index pieces.now }
    requires references { writer.value.given.references ≡ source.now.reading.now.references.now }
    requires begins { BeginsText false writer.value }
    requires within { IsWithin source.now.reading.now.options.constructs writer.value }
    ensures given { IfOk result (λ written. written.value.given ≡ writer.entry.value.given) }
    ensures end { IfOk result (λ written. spot written.value.cursor ≡ end_from (spot writer.entry.value.cursor) pieces.now) }
    ensures at { (h : Bool) → (outer : List Enclosing) → IsAt writer.entry.value (inlines h) outer → IfOk result (λ written. IsAt written.value (inlines h) outer) }
    ensures within { IfOk result (λ written. IsWithin source.now.reading.now.options.constructs written.value) }
{
    let mut output = Output::new(source, writer, pieces, ContentKind::String)?;
    write(&mut output, source.bytes.len())?;
    output.finish()
}

/// Writes a string up to an offset.
pub fn write<R: References, S: Sink>(
    output: &mut Output<'_, '_, R, S>,
    end: usize,
) -> Result<(), AllocError>
    requires stands { Stands output.old }
    requires none_waits { output.old.data ≡ output.old.at }
    requires range { IsRange (bytes_of output.old) output.old.at end }
    requires inlines { AtInlines output.old }
    ensures given { output.new.writer.value.given ≡ output.old.writer.value.given }
    ensures goes_on { OnOk result (GoesOn output.old output.new) }
    ensures data_end { OnOk result (output.new.data ≡ end) }
    ensures at { KeepsInlines result output.old output.new }
{
    let source = output.source();
    let mut rest = output.rest_to(end);
    'tokens: while !rest.is_empty() {
        let found = scan(source, rest)?;
        rest = after(rest, found.size);
        write_found(output, found, end - rest.len())?;
    }
    Ok(())
}

/// Returns what a string that is not empty begins with. The only error is that memory ran out.
fn scan<R: References>(source: &Source<'_, R>, text: &[u8]) -> Result<Found, AllocError>
    requires { 0 < length text.now }
    ensures most { IfOk result (λ found. found.size ≤ length text.now) }
    ensures kind { IfOk result (λ found. IsOfString found.kind) }
    ensures found { IfOk result (λ found. IsFound (text_of text.now (R.text source.now.reading.now.references.now) false) found.kind 0 found.size) }
    ensures on { IfOk result (λ found. is_found_on source.now.reading.now.options.constructs found.kind ≡ true) }
{
    let constructs = &source.reading.options.constructs;
    if text[0] == b'\n' {
        return Ok(Found::token(TokenKind::LineEnding, 1));
    }
    match text {
        [b'\\', ..] if constructs.character_escape => Ok(escape_or_data(text)),
        [b'&', ..] if constructs.character_reference => {
            let found = character_reference::scan(
                source.reading.alloc,
                text,
                source.reading.references,
            )?;
            Ok(found.unwrap_or(Found::data(1)))
        }
        _ => Ok(Found::data(data_length(text))),
    }
}

/// Returns how many bytes of data a text begins with, at most up to a byte that may begin a construct
/// of a text. The first byte is data.
fn data_length(text: &[u8]) -> usize
    requires some { 0 < length text.now }
    requires first { slice_index text.now 0 ≢ 10 }
    ensures least { 0 < result }
    ensures most { result ≤ length text.now }
    ensures part { IsPart text.now 0 result }
{
    1 + plain_length(text, false)
}

/// Returns the character escape that a text begins with, or the backslash as data.
fn escape_or_data(text: &[u8]) -> Found
    requires some { 0 < length text.now }
    requires first { slice_index text.now 0 ≡ 92 }
    ensures most { result.size ≤ length text.now }
    ensures kind { IsOfString result.kind }
    ensures found { IsFound (bare text.now) result.kind 0 result.size }
    ensures on { (c : Constructs) → c.character_escape ≡ true → is_found_on c result.kind ≡ true }
{
    match character_escape::scan(text) {
        Some(size) => Found::token(TokenKind::CharacterEscape, size),
        None => Found::data(1),
    }
}

/// Writes what was found in a string, up to an offset.
fn write_found<R: References, S: Sink>(
    output: &mut Output<'_, '_, R, S>,
    found: Found,
    end: usize,
) -> Result<(), AllocError>
    requires stands { Stands output.old }
    requires found { IsFound (as_text output.old (R.text (references_of output.old)) false) found.kind output.old.data end }
    requires kind { IsOfString found.kind }
    requires inlines { AtInlines output.old }
    requires on { is_found_on (constructs_of output.old) found.kind ≡ true }
    ensures given { output.new.writer.value.given ≡ output.old.writer.value.given }
    ensures goes_on { OnOk result (GoesOn output.old output.new) }
    ensures data_end { OnOk result (output.new.data ≡ end) }
    ensures at { KeepsInlines result output.old output.new }
{
    match found.kind {
        Some(TokenKind::LineEnding) => output.line_ending(),
        Some(TokenKind::CharacterEscape) => character_escape::write(output),
        Some(TokenKind::CharacterReference(kind)) => character_reference::write(output, kind, end),
        None => {
            output.data(end);
            Ok(())
        }
        Some(_) => unreachable!(),
    }
}
