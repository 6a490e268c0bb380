//! Values: what a span of the document contributes to a text or an address of the tree, and to the
//! identifier of a label.

ghost use Rattle.std.specs.Prelude.{◌≡◌, ◌||◌, ◌&&◌, IfOk, IfSome, is_some, true};
ghost use Rattle.markdown_events.specs.Slices.{slice};
ghost use Rattle.markdown_grammar.specs.Document.{value_between, visible_between};
ghost use Rattle.markdown_grammar.specs.declared.error_kind.ErrorKind.TheVariants.{InvalidSlice};
ghost use Rattle.markdown_parts.specs.PartsSoFar.{Makes};
ghost use Rattle.markdown_parts.specs.WholeValues.{is_split, slice_text, value_text};

use crate::slice::{Document, none_is_set, range_of, text_of};
use crate::visible::visible_text;
use crate::whole::whole_value;
use markdown_grammar::error_kind::Stop;
use markdown_nodes::event::Point;
use std::alloc::{AllocError, Global};

/// The value of a span.
#[derive(Drop)]
pub enum Value<'a> {
    /// A part of the document, unchanged.
    Part(&'a str),
    /// A new text, since it differs from the document.
    Made(String),
}

impl Value<'_> {
    /// Returns its text.
    pub fn as_str(&self) -> &str
        ensures { result.now ≡ value_text self.now }
    {
        match self {
            Value::Part(part) => part,
            Value::Made(text) => text.as_str(),
        }
    }
}

/// Whether the columns of a tab count between two points. The virtual spaces are checked first,
/// since every slice needs this check.
#[inline(always)]
fn is_split(document: &Document<'_>, start: Point, end: Point) -> bool
    ensures { result ≡ is_split document.now start end }
{
    (start.vs > 0 || end.vs > 0) && document.is_whole()
}

/// Returns the value of a span if it is an unchanged part of the document, which is nearly always
/// the case.
#[inline(always)]
pub fn value_as_it_stands<'a>(document: &Document<'a>, start: Point, end: Point) -> Option<&'a str>
    ensures read { IfSome result (λ value. is_some (slice document.now.bytes start end) ≡ true) }
    ensures value { IfSome result (λ value. value.now ≡ value_between document.now start end) }
{
    if is_split(document, start, end) {
        return None;
    }
    let (from, to) = range_of(document, start, end)?;
    if !document.shows(start, to - from) {
        return None;
    }
    document.part(from, to)
}

/// Returns the value of a span: a text or an address of the tree. It is refused as
/// `ErrorKind::InvalidSlice` if its ends are not in order or are outside the document, or if the
/// bytes between them are not UTF-8.
///
/// If a span begins within a tab, its whole value begins with the remaining columns of the tab, as
/// spaces. Hidden bytes are not part of it.
#[inline(never)]
pub fn value_of<'a>(
    alloc: Global,
    document: &Document<'a>,
    start: Point,
    end: Point,
) -> Result<Value<'a>, Stop>
    ensures { Makes result (is_some (slice document.now.bytes start end)) InvalidSlice
        (λ value. value_text value ≡ value_between document.now start end) }
{
    let visible = visible_of(alloc, document, start, end)?;
    if document.is_whole() {
        let whole = whole_value(alloc, visible.as_str(), start, end)?;
        Ok(Value::Made(whole))
    } else {
        Ok(visible)
    }
}

/// Returns the visible bytes of a span: the label of a definition, or the string of a reference. It
/// is refused in the same cases as its value.
///
/// In a block quote, `a⏎> b` is the label `a⏎ b` if the marker is hidden.
pub fn visible_of<'a>(
    alloc: Global,
    document: &Document<'a>,
    start: Point,
    end: Point,
) -> Result<Value<'a>, Stop>
    ensures { Makes result (is_some (slice document.now.bytes start end)) InvalidSlice
        (λ value. value_text value ≡ visible_between document.now start end) }
{
    let slice = Slice::between(document, start, end)?;
    Ok(slice.visible(alloc)?)
}

/// A span's text with the flags of its hidden bytes. It is read when its visible bytes are needed:
/// only few labels are, and in labels of images there may be many more, so reading each at its end
/// would cost more than linear work.
#[derive(Clone, Copy)]
pub struct Slice<'a> {
    text: &'a str,
    /// The flags from its first byte on.
    hidden: &'a [bool],
}

impl<'a> Slice<'a> {
    /// Returns the slice between two points. It is refused as `ErrorKind::InvalidSlice` if these are
    /// not in order or are outside the document, or if the bytes between them are not UTF-8.
    ///
    /// In `[a](b)`, from the second byte to the third, it is `a`.
    pub fn between(document: &Document<'a>, start: Point, end: Point) -> Result<Slice<'a>, Stop>
        ensures { Makes result (is_some (slice document.now.bytes start end)) InvalidSlice
            (λ made. slice_text made ≡ visible_between document.now start end) }
    {
        Ok(Slice {
            text: text_of(document, start, end)?,
            hidden: document.hidden_from(start),
        })
    }

    /// Returns its visible bytes. The only error is that memory ran out.
    ///
    /// In a block quote, `a⏎> b` is the label `a⏎ b` if the marker is hidden.
    pub fn visible(&self, alloc: Global) -> Result<Value<'a>, AllocError>
        ensures { IfOk result (λ value. value_text value ≡ slice_text self.now) }
    {
        if none_is_set(self.hidden, self.text.len()) {
            return Ok(Value::Part(self.text));
        }
        Ok(Value::Made(visible_text(alloc, self.text, self.hidden)?))
    }
}
