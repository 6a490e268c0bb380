//! A document, its text between two points, and the position from one to the other.

ghost use Rattle.std.specs.Prelude.{◌≡◌, ◌&&◌, ◌+◌, ◌^◌, ◌<◌, ◌≤◌, ℕ, [], IfErr, List, false, Some, SomeIff, IfSome, drop, length, option_copied, take, true};
ghost use Rattle.std.specs.Result.{result_ok};
ghost use Rattle.markdown_events.specs.Slices.{between, edge, slice, text_between};
ghost use Rattle.markdown_grammar.specs.Document.{byte_at, length_between};
ghost use Rattle.markdown_grammar.specs.Hidden.{hides, visible};
ghost use Rattle.markdown_grammar.specs.Whole.{without_nul};
ghost use Rattle.markdown_grammar.specs.declared.values.Values.TheVariants.{Whole};
ghost use Rattle.markdown_parts.specs.WholeValues.{IsTextOf, has_nul, is_whole};
ghost use Rattle.markdown_grammar.specs.declared.error_kind.ErrorKind.TheVariants.{InvalidSlice};
ghost use Rattle.markdown_grammar.specs.declared.error_kind.Stop.TheVariants.{Refused};

use markdown_grammar::error_kind::{ErrorKind, Stop};
use markdown_grammar::values::Values;
use markdown_nodes::event::Point;
use markdown_nodes::search::first_equal;
use markdown_nodes::unist::Position;
use std::marker::Model;

/// Returns the offset in bytes at which a slice begins or ends. For a point in the virtual spaces
/// of a tab it is the byte after that tab.
fn edge_of(point: Point) -> Option<usize>
    ensures { SomeIff result (edge point < 2 ^ 64) (edge point) }
{
    if point.vs > 0 {
        point.index.checked_add(1)
    } else {
        Some(point.index)
    }
}

/// A document: its bytes, how its values are read, which bytes are hidden, and the bytes as a text
/// if all of them are UTF-8.
///
/// With that text, a span is a part of it, and only its ends are checked. In a document that is not
/// all UTF-8, each span is tested by itself.
#[derive(Drop)]
pub struct Document<'a> {
    bytes: &'a [u8],
    values: Values,
    /// A flag for each byte, or no flags.
    hidden: &'a [bool],
    /// The bytes, if they are UTF-8.
    text: Option<&'a str>,
    /// The same, if values are parts of it as it is: whole values have no NUL.
    values_text: Option<&'a str>,
}

impl<'a> Model for Document<'a> {
    ghost use Rattle.std.specs.Prelude.{◌≡◌, IfSome};
    ghost use Rattle.markdown_grammar.specs.Document.{Given};
    ghost use Rattle.markdown_parts.specs.WholeValues.{IsTextOf};

    ghost Value = { Given };

    ghost view = { λ d. record { bytes = d.bytes.now; values = d.values; hidden = d.hidden.now } };

    ghost invariant = { λ d. IfSome d.text (λ text. text.now ≡ d.bytes.now) × IfSome d.values_text (λ text. IsTextOf d.values d.bytes.now text.now) };
}

impl<'a> Document<'a> {
    /// Returns the document with these bytes, whose values are read in this way. No byte is hidden.
    pub fn new(bytes: &'a [u8], values: Values) -> Document<'a>
        ensures { result ≡ record { bytes = bytes.now; values = values; hidden = [] } }
    {
        Document {
            bytes,
            values,
            hidden: &[],
            text: str::from_utf8(bytes).ok(),
            values_text: text_as_it_stands(bytes, values),
        }
    }

    /// Returns the document with these bytes, with whole values. The bytes whose flag is set are
    /// hidden. The first flag is that of the first byte; a byte without a flag is not hidden.
    pub fn hiding(bytes: &'a [u8], hidden: &'a [bool]) -> Document<'a>
        ensures { result ≡ record { bytes = bytes.now; values = Whole; hidden = hidden.now } }
    {
        Document {
            bytes,
            values: Values::Whole,
            hidden,
            text: str::from_utf8(bytes).ok(),
            values_text: text_as_it_stands(bytes, Values::Whole),
        }
    }

    /// Returns the document of a text, with whole values. It does what [`hiding`](Document::hiding) does
    /// with the bytes of the text, which are not tested again.
    ///
    /// `Document::of_text("Hi", &[])` has the bytes `b"Hi"`.
    pub fn of_text(text: &'a str, hidden: &'a [bool]) -> Document<'a>
        ensures { result ≡ record { bytes = text.now; values = Whole; hidden = hidden.now } }
    {
        let bytes = text.as_bytes();
        Document {
            bytes,
            values: Values::Whole,
            hidden,
            text: Some(text),
            values_text: if has_nul(bytes) { None } else { Some(text) },
        }
    }

    /// Returns its bytes.
    ///
    /// Those of `Document::new(b"Hi", Values::Whole)` are `b"Hi"`.
    pub fn bytes(&self) -> &'a [u8]
        ensures { result.now ≡ self.now.bytes }
    {
        self.bytes
    }

    /// Returns how many bytes it has.
    fn len(&self) -> usize
        ensures { result ≡ length self.now.bytes }
    {
        self.bytes.len()
    }

    /// Returns the bytes from an offset on, or none if that is past the end.
    pub(crate) fn bytes_from(&self, offset: usize) -> &'a [u8]
        ensures { result.now ≡ drop offset self.now.bytes }
    {
        self.bytes.get(offset..).unwrap_or(&[])
    }

    /// Whether values are whole.
    pub(crate) fn is_whole(&self) -> bool
        ensures { result ≡ is_whole self.now.values }
    {
        matches!(self.values, Values::Whole)
    }

    /// Whether there are flags that say which bytes are hidden.
    pub fn hides(&self) -> bool
        ensures { result ≡ hides self.now.hidden }
    {
        !self.hidden.is_empty()
    }

    /// Whether none of this many bytes after a point is hidden.
    #[inline(always)]
    pub(crate) fn shows(&self, start: Point, count: usize) -> bool
        ensures { result ≡ true → (text : List ℕ) → length text ≤ count → visible (drop (edge start) self.now.hidden) text ≡ text }
    {
        self.hidden.is_empty() || none_is_set(self.hidden_from(start), count)
    }

    /// Returns the flags of hidden bytes from the index of a point on, or after the tab that the
    /// point is in.
    pub(crate) fn hidden_from(&self, point: Point) -> &'a [bool]
        ensures { result.now ≡ drop (edge point) self.now.hidden }
    {
        let flags = flags_after(self.hidden, point.index);
        if point.vs > 0 {
            flags_after(flags, 1)
        } else {
            flags
        }
    }

    /// Returns the bytes from one index to another as a part of the document's text. It is `None`
    /// if the document is not all UTF-8, its values are not parts of it, or an index is outside it
    /// or inside a character.
    pub(crate) fn part(&self, from: usize, to: usize) -> Option<&'a str>
        ensures part { IfSome result (λ part. Some part.now ≡ text_between self.now.bytes from to) }
        ensures size { IfSome result (λ part. length part.now + from ≡ to) }
        ensures no_nul { IfSome result (λ part. is_whole self.now.values ≡ true → without_nul part.now ≡ part.now) }
    {
        let part = self.values_text?.get(from..to)?;
        // For the proof: a text is UTF-8.
        let _ = part.as_bytes();
        Some(part)
    }

    /// Returns the bytes from one index to another as a text, if they are UTF-8. In a document that
    /// is UTF-8 itself, only the ends are checked.
    #[inline(never)]
    fn tested(&self, from: usize, to: usize) -> Option<&'a str>
        requires order { from ≤ to }
        requires within { to ≤ length self.now.bytes }
        ensures { option_copied result ≡ text_between self.now.bytes from to }
    {
        if let Some(part) = self.text_part(from, to) {
            return Some(part);
        }
        str::from_utf8(&self.bytes[from..to]).ok()
    }

    /// Returns the bytes from one index to another as a part of the document's text. It is `None` if
    /// the document is not all UTF-8, or an index is outside it or inside a character.
    fn text_part(&self, from: usize, to: usize) -> Option<&'a str>
        ensures { IfSome result (λ part. Some part.now ≡ text_between self.now.bytes from to) }
    {
        let part = self.text?.get(from..to)?;
        // For the proof: a text is UTF-8.
        let _ = part.as_bytes();
        Some(part)
    }
}

/// Returns the range of bytes of a span, if its ends are in order and in the document.
pub(crate) fn range_of(document: &Document<'_>, start: Point, end: Point) -> Option<(usize, usize)>
    ensures { SomeIff result ((edge start ≤ edge end) × (edge end ≤ length document.now.bytes)) (edge start, edge end) }
{
    let length = document.len();
    let from = edge_of(start)?;
    let to = edge_of(end)?;
    if from > to || to > length {
        return None;
    }
    Some((from, to))
}

/// Returns the text of a span. It is refused as `ErrorKind::InvalidSlice` if its ends are not in
/// order or are outside the document, or if the bytes between them are not UTF-8.
#[inline(always)]
pub fn text_of<'a>(document: &Document<'a>, start: Point, end: Point) -> Result<&'a str, Stop>
    ensures text { option_copied (result_ok result) ≡ slice document.now.bytes start end }
    ensures refused { IfErr result (λ stop. stop ≡ Refused InvalidSlice) }
{
    slice_of(document, start, end).ok_or(Stop::Refused(ErrorKind::InvalidSlice))
}

/// Returns the text of a span, if its ends are in order and in the document, and the bytes between
/// them are UTF-8.
#[inline(always)]
#[tactic(auto, unfolding(markdown_events::specs::Slices::slice))]
fn slice_of<'a>(document: &Document<'a>, start: Point, end: Point) -> Option<&'a str>
    ensures { option_copied result ≡ slice document.now.bytes start end }
{
    let (from, to) = range_of(document, start, end)?;
    if let Some(part) = document.part(from, to) {
        return Some(part);
    }
    document.tested(from, to)
}

/// Returns the text of a document, if values are parts of it as it is: all of it is UTF-8, and it
/// has no NUL if values are whole.
fn text_as_it_stands(bytes: &[u8], values: Values) -> Option<&str>
    ensures { IfSome result (λ text. IsTextOf values bytes.now text.now) }
{
    if replaces_nul(bytes, values) {
        None
    } else {
        str::from_utf8(bytes).ok()
    }
}

/// Whether values are whole and the document has a NUL.
fn replaces_nul(bytes: &[u8], values: Values) -> bool
    ensures { result ≡ false → is_whole values ≡ true → has_nul bytes.now ≡ false }
{
    matches!(values, Values::Whole) && has_nul(bytes)
}

/// Whether bytes contain a NUL. It is searched for in 16 bytes at a time.
fn has_nul(bytes: &[u8]) -> bool
    ensures { result ≡ false → has_nul bytes.now ≡ false }
{
    let mut at = 0;
    while bytes.len() - at >= 16 {
        if first_equal(&bytes[at..], 0) < 16 {
            return true;
        }
        at += 16;
    }
    bytes[at..].contains(&0)
}

/// Whether none of the first `count` flags is set.
pub(crate) fn none_is_set(flags: &[bool], count: usize) -> bool
    ensures { result ≡ true → (text : List ℕ) → length text ≤ count → visible flags.now text ≡ text }
{
    let mut rest = first_flags(flags, count);
    'flags: while let Some((is_set, later)) = rest.split_first() {
        if *is_set {
            return false;
        }
        rest = later;
    }
    true
}

/// Returns the first `count` flags, or all if there are fewer.
fn first_flags(flags: &[bool], count: usize) -> &[bool]
    ensures { result.now ≡ take count flags.now }
{
    flags.get(..count).unwrap_or(flags)
}

/// Returns the flags after the first `count`.
pub(crate) fn flags_after(flags: &[bool], count: usize) -> &[bool]
    ensures { result.now ≡ drop count flags.now }
{
    flags.get(count..).unwrap_or(&[])
}

/// Returns how many bytes a span has, if its ends are in order and in the document. The length of
/// the sequence of an ATX heading is its depth.
pub fn length_between(document: &Document<'_>, start: Point, end: Point) -> Option<usize>
    ensures { result ≡ length_between document.now.bytes start end }
{
    let (from, to) = range_of(document, start, end)?;
    Some(to - from)
}

/// Returns the byte at the offset of a point, whatever its virtual spaces, if it is in the
/// document. The first byte of frontmatter says which language follows, and the first of the
/// underline of a setext heading says the depth.
pub fn byte_at(document: &Document<'_>, point: Point) -> Option<u8>
    ensures { result ≡ byte_at document.now.bytes point }
{
    document.bytes.get(point.index).copied()
}

/// Returns the position from the start of a span to its end.
pub fn position_of(start: Point, end: Point) -> Position
    ensures { result ≡ between start end }
{
    Position {
        start: start.to_unist(),
        end: end.to_unist(),
    }
}
