//! Which values can be read.

ghost use Rattle.std.specs.Prelude.{◌≡◌, ◌≢◌, ◌&&◌, IfOk, List, Option, false, is_some, ℕ};
ghost use Rattle.markdown_acceptance.specs.Sites.{reads};
ghost use Rattle.markdown_parts.specs.PartsSoFar.{place_with};
ghost use Rattle.markdown_events.specs.Slices.{slice};
ghost use Rattle.markdown_events.specs.declared.role.ItemKind.TheVariants as item_kinds;
ghost use Rattle.markdown_events.specs.declared.role.Part.TheVariants as parts;
ghost use Rattle.markdown_grammar.specs.Attributes.{decoded};
ghost use Rattle.markdown_grammar.specs.Document as Documents;
ghost use Rattle.markdown_grammar.specs.Document.{is_depth, is_item_number, source};

use crate::content_model::ContentModel;
use crate::site::Site;
use character_references::references::References;
use markdown_events::event::Point;
use markdown_events::role::{Content, ItemKind, Part};
use markdown_parts::number::item_number;
use markdown_parts::slice::{Document, byte_at, length_between, text_of};
use std::alloc::{AllocError, Global};

impl Site {
    /// Whether the value of an item at this site, between two points, can be read, if one is read.
    ///
    /// That of data can be read if its bytes are UTF-8. Memory may run out only if a character
    /// reference is looked up.
    pub fn reads<R: References>(
        &self,
        alloc: Global,
        document: &Document<'_>,
        references: &R,
        what: ItemKind,
        start: Point,
        end: Point,
    ) -> Result<bool, AllocError>
        ensures { IfOk result (λ read. read ≡ reads (source document.now.bytes (R.text references.now)) self.now what start end) }
    {
        match what {
            ItemKind::Content(content) => Ok(self.reads_content(document, content, start, end)),
            ItemKind::Part(Part::CharacterReferenceValue) => is_known(
                alloc,
                document,
                references,
                self.marker,
                start,
                end,
            ),
            ItemKind::Part(part) => Ok(self.reads_part(document, part, start, end)),
        }
    }

    /// Whether the value of content can be read.
    fn reads_content(
        &self,
        document: &Document<'_>,
        content: Content,
        start: Point,
        end: Point,
    ) -> bool
        ensures { (text : List ℕ → ℕ → Option (List ℕ))
            → result ≡ reads (source document.now.bytes text) self.now (item_kinds.Content content) start end }
    {
        match content {
            Content::Data
            | Content::AutolinkLiteralEmail
            | Content::AutolinkLiteralWww
            | Content::AutolinkLiteralWhole => is_text(document, start, end),
            Content::LineEnding => {
                !(self.line_endings && !self.after_break) || is_text(document, start, end)
            }
            _ => true,
        }
    }

    /// Whether the value of a part can be read. That of a character reference is looked up, and not
    /// checked here.
    fn reads_part(&self, document: &Document<'_>, part: Part, start: Point, end: Point) -> bool
        requires { part ≢ parts.CharacterReferenceValue }
        ensures { (text : List ℕ → ℕ → Option (List ℕ))
            → result ≡ reads (source document.now.bytes text) self.now (item_kinds.Part part) start end }
    {
        match part {
            Part::AutolinkEmail
            | Part::AutolinkProtocol
            | Part::LabelText
            | Part::ReferenceString
            | Part::DefinitionLabelString
            | Part::FootnoteDefinitionLabelString => is_text(document, start, end),
            Part::ListItemValue => is_number(document, start, end),
            Part::HeadingSetextUnderlineSequence => byte_at(document, start).is_some(),
            Part::HeadingAtxSequence => self.reads_sequence(document, start, end),
            Part::CharacterReferenceValue => unreachable!(),
            _ => true,
        }
    }

    /// Whether the sequence of an ATX heading can be read: the first one sets the depth.
    fn reads_sequence(&self, document: &Document<'_>, start: Point, end: Point) -> bool
        ensures { (text : List ℕ → ℕ → Option (List ℕ))
            → result ≡ reads (source document.now.bytes text) self.now (item_kinds.Part parts.HeadingAtxSequence) start end }
    {
        match self.model {
            ContentModel::HeadingAtx => is_heading_depth(document, start, end),
            _ => true,
        }
    }
}

/// Whether the bytes between two points are a text.
fn is_text(document: &Document<'_>, start: Point, end: Point) -> bool
    ensures { result ≡ is_some (slice document.now.bytes start end) }
{
    text_of(document, start, end).is_ok()
}

/// Whether the bytes between two points are the number of an item.
fn is_number(document: &Document<'_>, start: Point, end: Point) -> bool
    ensures { result ≡ is_item_number (slice document.now.bytes start end) }
{
    match text_of(document, start, end) {
        Ok(text) => item_number(text).is_some(),
        Err(_) => false,
    }
}

/// Whether there are one to six bytes between two points, one for each step of a heading's depth.
fn is_heading_depth(document: &Document<'_>, start: Point, end: Point) -> bool
    ensures { result ≡ is_depth (Documents.length_between document.now.bytes start end) }
{
    match length_between(document, start, end) {
        Some(length) => 0 < length && length <= 6,
        None => false,
    }
}

/// Whether the decoder knows the text between two points, after a marker.
fn is_known<R: References>(
    alloc: Global,
    document: &Document<'_>,
    references: &R,
    marker: Option<u8>,
    start: Point,
    end: Point,
) -> Result<bool, AllocError>
    ensures { IfOk result (λ known. known ≡ (is_some (slice document.now.bytes start end)
        && is_some (decoded (source document.now.bytes (R.text references.now)) (place_with false false marker) start end))) }
{
    let Some(marker) = marker else {
        return Ok(false);
    };
    match text_of(document, start, end) {
        Ok(text) => Ok(references.decode(alloc, text, marker)?.is_some()),
        Err(_) => Ok(false),
    }
}
