//! What an item says where it ends.

ghost use Rattle.std.specs.Prelude.{◌≡◌, ◌&&◌, IfOk, IfSome, [], true, unwrap_or};
ghost use Rattle.character_references.specs.Html.{html};
ghost use Rattle.markdown_events.specs.Texts.{raw, spaces, trim};
ghost use Rattle.markdown_events.specs.declared.event.Point.{Point};
ghost use Rattle.markdown_grammar.specs.Document.{source_of, text_read, value_between};
ghost use Rattle.markdown_grammar.specs.Fenced.{is_line_begun};
ghost use Rattle.markdown_grammar.specs.Hidden.{hides};
ghost use Rattle.markdown_grammar.specs.declared.values.Values.TheVariants.{Whole};
ghost use Rattle.markdown_grammar.specs.LineEndings.{ending_between, is_before_line};
ghost use Rattle.std.specs.List.{list_all};
ghost use Rattle.std.specs.Prelude.{take};
ghost use Rattle.markdown_words.specs.Saying.{
  add,
  add_code,
  break_in,
  closed,
  closed_address,
  closed_code,
  closed_in,
  closed_reference,
  cut,
  ending_if,
  fenced_in,
  has_blank,
  inline_in,
  line_after,
  plain_read,
  suits,
};

use crate::setting::{Setting, Voice};
use crate::speech::Speech;
use character_references::html::HtmlReferences;
use character_references::references::References;
use markdown_events::event::Point;
use markdown_events::role::{Content, ItemKind, Part};
use markdown_grammar::error_kind::Stop;
use markdown_parts::line_ending::line_ending_of;
use markdown_parts::slice::{Document, text_of};
use markdown_parts::value::{Value, value_as_it_stands, value_of};
use std::alloc::{AllocError, Global};

/// Ends an item that is said in a setting. Returns whether it is known what it says.
pub fn close(
    alloc: Global,
    speech: &mut Speech,
    document: &Document<'_>,
    setting: Setting,
    what: ItemKind,
    start: &Point,
    end: &Point,
) -> Result<bool, AllocError>
    ensures said { document.now.values ≡ Whole → IfOk result (λ known. known ≡ true → speech.new ≡ closed (source_of document.now html) setting what start.now end.now speech.old) }
    ensures suits { IfOk result (λ known. known ≡ true → suits (source_of document.now html) setting.voice what start.now end.now ≡ true) }
{
    match setting.voice {
        Voice::Flow | Voice::Item => {
            close_in(alloc, speech, document, false, setting, what, start, end)
        }
        Voice::Text | Voice::First => {
            close_in(alloc, speech, document, true, setting, what, start, end)
        }
        Voice::Marked => close_cut(alloc, speech, document, what, start, end),
        Voice::Autolink => close_address(alloc, speech, document, what, start, end),
        Voice::Named => close_reference(alloc, speech, document, b'&', what, start, end),
        Voice::Numeric => close_reference(alloc, speech, document, b'#', what, start, end),
        Voice::Hexadecimal => close_reference(alloc, speech, document, b'x', what, start, end),
        Voice::Raw => close_code(alloc, speech, document, what, start, end),
        _ => Ok(true),
    }
}

/// Ends an item among blocks or inlines.
fn close_in(
    alloc: Global,
    speech: &mut Speech,
    document: &Document<'_>,
    endings: bool,
    setting: Setting,
    what: ItemKind,
    start: &Point,
    end: &Point,
) -> Result<bool, AllocError>
    ensures { document.now.values ≡ Whole → IfOk result (λ known. known ≡ true → speech.new ≡ closed_in (source_of document.now html) endings setting.in_label setting.in_table what start.now end.now speech.old) }
{
    let ItemKind::Content(content) = what else {
        return Ok(true);
    };
    match content {
        Content::Data
        | Content::AutolinkLiteralEmail
        | Content::AutolinkLiteralWww
        | Content::AutolinkLiteralWhole => say_value(alloc, speech, document, start, end),
        Content::LineEnding => say_ending_if(alloc, speech, document, endings, start, end),
        Content::HardBreak => say_break(speech, setting.in_label),
        Content::CodeText | Content::MathText => {
            speech.end_inline(alloc, setting.in_table && !document.hides())
        }
        Content::CodeIndented => speech.end_block(false, true),
        Content::CodeFenced | Content::MathFlow => end_fenced(speech, document, end),
        _ => Ok(true),
    }
}

/// Says the value between two points.
#[inline(always)]
pub fn say_value(
    alloc: Global,
    speech: &mut Speech,
    document: &Document<'_>,
    start: &Point,
    end: &Point,
) -> Result<bool, AllocError>
    ensures { IfOk result (λ known. known ≡ true → speech.new ≡ add (value_between document.now start.now end.now) speech.old) }
{
    match value_as_it_stands(document, *start, *end) {
        Some(value) => {
            speech.say(value)?;
            Ok(true)
        }
        None => say_made(alloc, speech, document, start, end),
    }
}

/// Says a value that differs from the document, if it is valid.
#[inline(never)]
fn say_made(
    alloc: Global,
    speech: &mut Speech,
    document: &Document<'_>,
    start: &Point,
    end: &Point,
) -> Result<bool, AllocError>
    ensures { IfOk result (λ known. known ≡ true → speech.new ≡ add (value_between document.now start.now end.now) speech.old) }
{
    match value_of(alloc, document, *start, *end) {
        Ok(value) => {
            speech.say(value.as_str())?;
            Ok(true)
        }
        Err(Stop::Refused(_)) => Ok(false),
        Err(Stop::Memory(error)) => Err(error),
    }
}

/// Returns the text of the line ending between two points, if it is a part of the document.
#[inline(always)]
fn ending_of<'d>(document: &Document<'d>, start: &Point, end: &Point) -> Option<&'d str>
    ensures { IfSome result (λ ending. ending.now ≡ ending_between document.now start.now end.now) }
{
    let value = value_as_it_stands(document, *start, *end)?;
    Some(line_ending_of(document, value, *end))
}

/// Says a line ending, if line endings are said.
fn say_ending_if(
    alloc: Global,
    speech: &mut Speech,
    document: &Document<'_>,
    endings: bool,
    start: &Point,
    end: &Point,
) -> Result<bool, AllocError>
    ensures { IfOk result (λ known. known ≡ true → speech.new ≡ ending_if endings (ending_between document.now start.now end.now) speech.old) }
{
    if !endings {
        return Ok(true);
    }
    say_ending(alloc, speech, document, start, end)
}

/// Says a line ending.
#[inline(always)]
pub fn say_ending(
    alloc: Global,
    speech: &mut Speech,
    document: &Document<'_>,
    start: &Point,
    end: &Point,
) -> Result<bool, AllocError>
    ensures { IfOk result (λ known. known ≡ true → speech.new ≡ add (ending_between document.now start.now end.now) speech.old) }
{
    match ending_of(document, start, end) {
        Some(ending) => {
            speech.say(ending)?;
            Ok(true)
        }
        None => say_made_ending(alloc, speech, document, start, end),
    }
}

/// Says a line ending in a document whose values differ from it, if it is valid.
#[inline(never)]
fn say_made_ending(
    alloc: Global,
    speech: &mut Speech,
    document: &Document<'_>,
    start: &Point,
    end: &Point,
) -> Result<bool, AllocError>
    ensures { IfOk result (λ known. known ≡ true → speech.new ≡ add (ending_between document.now start.now end.now) speech.old) }
{
    match value_of(alloc, document, *start, *end) {
        Ok(value) => {
            speech.say(line_ending_of(document, value.as_str(), *end))?;
            Ok(true)
        }
        Err(Stop::Refused(_)) => Ok(false),
        Err(Stop::Memory(error)) => Err(error),
    }
}

/// Says a hard break, outside of labels.
fn say_break(speech: &mut Speech, in_label: bool) -> Result<bool, AllocError>
    ensures { IfOk result (λ known. known ≡ true → speech.new ≡ break_in in_label speech.old) }
{
    if !in_label {
        speech.say("\n")?;
    }
    Ok(true)
}

/// Ends a block between fences.
fn end_fenced(speech: &mut Speech, document: &Document<'_>, end: &Point) -> Result<bool, AllocError>
    ensures { document.now.values ≡ Whole → IfOk result (λ known. known ≡ true → speech.new ≡ fenced_in (source_of document.now html) end.now speech.old) }
{
    let keeps_line = has_line_after(document, speech.last(), end.index);
    speech.end_block(true, !keeps_line)
}

/// Whether a block that ends at an offset has one more line after a text that ends at another: an
/// empty one that no line ending ends. The document has whole values.
fn has_line_after(document: &Document<'_>, last: usize, end: usize) -> bool
    ensures { document.now.values ≡ Whole → result ≡ line_after (source_of document.now html) last end }
{
    let after = document.bytes().get(last..).unwrap_or(&[]);
    is_line_begun(first_bytes(after, end.saturating_sub(last)))
}

/// Returns the first `count` bytes, or all if there are fewer.
fn first_bytes(bytes: &[u8], count: usize) -> &[u8]
    ensures { result.now ≡ take count bytes.now }
{
    bytes.get(..count).unwrap_or(bytes)
}

/// Whether bytes begin a line, and contain nothing but spaces, tabs, and markers of block quotes.
fn is_line_begun(bytes: &[u8]) -> bool
    ensures { result ≡ is_line_begun bytes.now }
{
    !bytes.is_empty() && all_before_line(bytes)
}

/// Whether all of these bytes may come before the content of a line.
fn all_before_line(bytes: &[u8]) -> bool
    ensures { result ≡ list_all is_before_line bytes.now }
{
    bytes.iter().all(|byte| is_before_line(*byte))
}

/// Whether a byte may come before the content of a line: a space, a tab, or the marker of a block
/// quote.
fn is_before_line(byte: u8) -> bool
    ensures { result ≡ is_before_line byte }
{
    matches!(byte, b' ' | b'\t' | b'>')
}

/// Says data or a line ending after a task mark, without the blank that it begins with.
fn close_cut(
    alloc: Global,
    speech: &mut Speech,
    document: &Document<'_>,
    what: ItemKind,
    start: &Point,
    end: &Point,
) -> Result<bool, AllocError>
    ensures said { IfOk result (λ known. known ≡ true → speech.new ≡ add (cut (plain_read (source_of document.now html) what start.now end.now)) speech.old) }
    ensures suits { IfOk result (λ known. known ≡ true → has_blank (plain_read (source_of document.now html) what start.now end.now) ≡ true) }
{
    match plain_of(document, what, start, end) {
        Some(text) => say_cut(speech, text),
        None => say_made_cut(alloc, speech, document, what, start, end),
    }
}

/// Does the same in a document whose values differ from it, if the value is valid.
#[inline(never)]
fn say_made_cut(
    alloc: Global,
    speech: &mut Speech,
    document: &Document<'_>,
    what: ItemKind,
    start: &Point,
    end: &Point,
) -> Result<bool, AllocError>
    ensures said { IfOk result (λ known. known ≡ true → speech.new ≡ add (cut (plain_read (source_of document.now html) what start.now end.now)) speech.old) }
    ensures suits { IfOk result (λ known. known ≡ true → has_blank (plain_read (source_of document.now html) what start.now end.now) ≡ true) }
{
    match value_of(alloc, document, *start, *end) {
        Ok(value) => say_cut(speech, plain_as(document, what, value.as_str(), end)),
        Err(Stop::Refused(_)) => Ok(false),
        Err(Stop::Memory(error)) => Err(error),
    }
}

/// Returns the text of data or of a line ending, from its value.
fn plain_as<'v>(document: &Document<'_>, what: ItemKind, value: &'v str, end: &Point) -> &'v str
    ensures { (start : Point) → value.now ≡ value_between document.now start end.now → result.now ≡ plain_read (source_of document.now html) what start end.now }
{
    match what {
        ItemKind::Content(Content::LineEnding) => line_ending_of(document, value, *end),
        _ => value,
    }
}

/// Returns the text of data or of a line ending, if it is a part of the document.
fn plain_of<'d>(
    document: &Document<'d>,
    what: ItemKind,
    start: &Point,
    end: &Point,
) -> Option<&'d str>
    ensures { IfSome result (λ text. text.now ≡ plain_read (source_of document.now html) what start.now end.now) }
{
    match what {
        ItemKind::Content(Content::LineEnding) => ending_of(document, start, end),
        _ => value_as_it_stands(document, *start, *end),
    }
}

/// Says a text without the blank that it begins with. Returns whether it begins with one.
fn say_cut(speech: &mut Speech, text: &str) -> Result<bool, AllocError>
    ensures said { IfOk result (λ known. known ≡ true → speech.new ≡ add (cut text.now) speech.old) }
    ensures blank { IfOk result (λ known. known ≡ true → has_blank text.now ≡ true) }
{
    if !matches!(text.as_bytes(), [b' ' | b'\t' | b'\n', ..]) {
        return Ok(false);
    }
    match text.get(1..) {
        Some(rest) => {
            speech.say(rest)?;
            Ok(true)
        }
        None => Ok(false),
    }
}

/// Says the address of an autolink.
fn close_address(
    alloc: Global,
    speech: &mut Speech,
    document: &Document<'_>,
    what: ItemKind,
    start: &Point,
    end: &Point,
) -> Result<bool, AllocError>
    ensures { IfOk result (λ known. known ≡ true → speech.new ≡ closed_address (source_of document.now html) what start.now end.now speech.old) }
{
    match what {
        ItemKind::Part(Part::AutolinkEmail | Part::AutolinkProtocol) => {
            say_value(alloc, speech, document, start, end)
        }
        _ => Ok(true),
    }
}

/// Says what the value of a character reference stands for after a marker.
fn close_reference(
    alloc: Global,
    speech: &mut Speech,
    document: &Document<'_>,
    marker: u8,
    what: ItemKind,
    start: &Point,
    end: &Point,
) -> Result<bool, AllocError>
    ensures { IfOk result (λ known. known ≡ true → speech.new ≡ closed_reference (source_of document.now html) marker what start.now end.now speech.old) }
{
    match what {
        ItemKind::Part(Part::CharacterReferenceValue) => {
            say_reference(alloc, speech, document, marker, start, end)
        }
        _ => Ok(true),
    }
}

/// Says what a value stands for after a marker, if it stands for a text.
fn say_reference(
    alloc: Global,
    speech: &mut Speech,
    document: &Document<'_>,
    marker: u8,
    start: &Point,
    end: &Point,
) -> Result<bool, AllocError>
    ensures { IfOk result (λ known. known ≡ true → speech.new ≡ add (unwrap_or (html (text_read (source_of document.now html) start.now end.now) marker) []) speech.old) }
{
    let Ok(value) = text_of(document, *start, *end) else {
        return Ok(false);
    };
    match HtmlReferences.decode(alloc, value, marker)? {
        Some(text) => {
            speech.say(text.as_str())?;
            Ok(true)
        }
        None => Ok(false),
    }
}

/// Says data or a line ending in code.
fn close_code(
    alloc: Global,
    speech: &mut Speech,
    document: &Document<'_>,
    what: ItemKind,
    start: &Point,
    end: &Point,
) -> Result<bool, AllocError>
    ensures { IfOk result (λ known. known ≡ true → speech.new ≡ closed_code (source_of document.now html) what start.now end.now speech.old) }
{
    match what {
        ItemKind::Content(Content::Data) => say_in_code(alloc, speech, document, start, end),
        ItemKind::Content(Content::LineEnding) => {
            say_ending_in_code(alloc, speech, document, start, end)
        }
        _ => Ok(true),
    }
}

/// Says data in code.
#[inline(always)]
pub fn say_in_code(
    alloc: Global,
    speech: &mut Speech,
    document: &Document<'_>,
    start: &Point,
    end: &Point,
) -> Result<bool, AllocError>
    ensures { IfOk result (λ known. known ≡ true → speech.new ≡ add_code (value_between document.now start.now end.now) end.now speech.old) }
{
    match value_as_it_stands(document, *start, *end) {
        Some(value) => {
            speech.say_in_code(value, end)?;
            Ok(true)
        }
        None => say_made_in_code(alloc, speech, document, start, end),
    }
}

/// Says data in code whose value differs from the document, if it is valid.
#[inline(never)]
fn say_made_in_code(
    alloc: Global,
    speech: &mut Speech,
    document: &Document<'_>,
    start: &Point,
    end: &Point,
) -> Result<bool, AllocError>
    ensures { IfOk result (λ known. known ≡ true → speech.new ≡ add_code (value_between document.now start.now end.now) end.now speech.old) }
{
    match value_of(alloc, document, *start, *end) {
        Ok(value) => {
            speech.say_in_code(value.as_str(), end)?;
            Ok(true)
        }
        Err(Stop::Refused(_)) => Ok(false),
        Err(Stop::Memory(error)) => Err(error),
    }
}

/// Says a line ending in code.
#[inline(always)]
pub fn say_ending_in_code(
    alloc: Global,
    speech: &mut Speech,
    document: &Document<'_>,
    start: &Point,
    end: &Point,
) -> Result<bool, AllocError>
    ensures { IfOk result (λ known. known ≡ true → speech.new ≡ add_code (ending_between document.now start.now end.now) end.now speech.old) }
{
    match ending_of(document, start, end) {
        Some(ending) => {
            speech.say_in_code(ending, end)?;
            Ok(true)
        }
        None => say_made_ending_in_code(alloc, speech, document, start, end),
    }
}

/// Says a line ending in code in a document whose values differ from it, if it is valid.
#[inline(never)]
fn say_made_ending_in_code(
    alloc: Global,
    speech: &mut Speech,
    document: &Document<'_>,
    start: &Point,
    end: &Point,
) -> Result<bool, AllocError>
    ensures { IfOk result (λ known. known ≡ true → speech.new ≡ add_code (ending_between document.now start.now end.now) end.now speech.old) }
{
    match value_of(alloc, document, *start, *end) {
        Ok(value) => {
            speech.say_in_code(line_ending_of(document, value.as_str(), *end), end)?;
            Ok(true)
        }
        Err(Stop::Refused(_)) => Ok(false),
        Err(Stop::Memory(error)) => Err(error),
    }
}
