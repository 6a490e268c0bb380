//! Whether events hide the bytes that they are expected to hide, told while they are written.

ghost use Rattle.std.specs.Prelude.{◌≡◌, ◌<◌, ◌^◌, ◌+◌, ◌++◌, ◌∷◌, [], IfSome, List, SomeIff, ℕ, false, length, true};
ghost use Rattle.markdown.specs.Hidden.{cell_after, escapes, hidden_by, is_label, labels_after};
ghost use Rattle.markdown.specs.declared.hiding.Hiding.{Hiding};
ghost use Rattle.markdown.specs.Hiding.{Passes};
ghost use Rattle.markdown_events.specs.declared.event.Kind.TheVariants.{Enter, Exit};

use crate::hidden::{is_label, part};
use markdown_events::event::{Name, Point};

/// Whether the events so far hide the bytes of a document that they are expected to hide, and what that
/// depends on for the next ones.
#[derive(Drop)]
pub struct Hiding<'e> {
    /// How many labels are open.
    labels: usize,
    /// Where the cell begins that is open, or was open last.
    cell: usize,
    /// The offsets of the bytes that the next events are expected to hide.
    expected: &'e [usize],
    /// Whether another byte is hidden, or may be.
    differs: bool,
}

impl<'e> Hiding<'e> {
    /// Returns what is known before the first event, with the offsets of the bytes that are expected to be
    /// hidden.
    pub fn new(expected: &'e [usize]) -> Hiding<'e>
        ensures labels { result.labels ≡ 0 }
        ensures cell { result.cell ≡ 0 }
        ensures expected { result.expected.now ≡ expected.now }
        ensures differs { result.differs ≡ false }
    {
        Hiding {
            labels: 0,
            cell: 0,
            expected,
            differs: false,
        }
    }

    /// Whether the events have hidden all bytes that they were expected to hide, and no other.
    pub fn is_as_expected(&self) -> bool
        ensures same { result ≡ true → self.now.differs ≡ false }
        ensures all { result ≡ true → self.now.expected.now ≡ [] }
    {
        !self.differs && self.expected.is_empty()
    }

    /// Takes the enter of a span. Of most, nothing is to be known.
    #[inline(always)]
    pub fn enter(&mut self, name: Name, at: &Point)
        ensures { (bytes : List ℕ) → Passes bytes Enter name at.now.index self.old self.new }
    {
        if !is_plain(name) {
            self.pass_enter(name, at);
        }
    }

    /// Takes the exit of a span in a document. Of most, nothing is to be known.
    #[inline(always)]
    pub fn exit(&mut self, bytes: &[u8], name: Name, at: &Point)
        ensures { Passes bytes.now Exit name at.now.index self.old self.new }
    {
        if !is_plain(name) {
            self.pass_exit(bytes, name, at);
        }
    }

    /// Takes the enter of any span.
    fn pass_enter(&mut self, name: Name, at: &Point)
        ensures { (bytes : List ℕ) → Passes bytes Enter name at.now.index self.old self.new }
    {
        self.cell = cell_entered(self.cell, name, at.index);
        let Some(later) = expected_inside(self.labels, name, at.index, self.expected) else {
            self.differs = true;
            return;
        };
        let Some(labels) = labels_entered(self.labels, name) else {
            self.differs = true;
            return;
        };
        self.expected = later;
        self.labels = labels;
    }

    /// Takes the exit of any span in a document.
    fn pass_exit(&mut self, bytes: &[u8], name: Name, at: &Point)
        ensures { Passes bytes.now Exit name at.now.index self.old self.new }
    {
        self.labels = labels_left(self.labels, name);
        match expected_after(bytes, self.cell, name, at.index, self.expected) {
            Some(later) => self.expected = later,
            None => self.differs = true,
        }
    }

    /// Takes the enter and the exit of a token. Of most, nothing is to be known.
    #[inline(always)]
    pub fn token(&mut self, bytes: &[u8], name: Name, start: &Point, end: &Point)
        ensures { (inside : Hiding) × Passes bytes.now Enter name start.now.index self.old inside × Passes bytes.now Exit name end.now.index inside self.new }
    {
        if !is_plain(name) {
            self.pass_enter(name, start);
            self.pass_exit(bytes, name, end);
        }
    }
}

/// Whether a span says nothing of hidden bytes: it is no label, no cell and no marker of a block quote.
#[inline(always)]
fn is_plain(name: Name) -> bool
    ensures label { result ≡ true → is_label name ≡ false }
    ensures cell { result ≡ true → (cell index : ℕ) → cell_after cell Enter name index ≡ cell }
    ensures enter { result ≡ true → (bytes : List ℕ) → (labels cell index : ℕ) → hidden_by bytes labels cell Enter name index ≡ [] }
    ensures exit { result ≡ true → (bytes : List ℕ) → (labels cell index : ℕ) → hidden_by bytes labels cell Exit name index ≡ [] }
{
    match name {
        Name::BlockQuoteMarker => false,
        Name::GfmTableCell => false,
        _ => !is_label(name),
    }
}

/// Returns the offsets that are expected after the enter of a span at an index, with this many open
/// labels, if that of the byte that it hides comes first.
#[inline(always)]
fn expected_inside(labels: usize, name: Name, index: usize, expected: &[usize]) -> Option<&[usize]>
    ensures { IfSome result (λ later. (bytes : List ℕ) → (cell : ℕ) → expected.now ≡ hidden_by bytes labels cell Enter name index ++ later.now) }
{
    match name {
        Name::BlockQuoteMarker if labels > 0 => after_offset(expected, index),
        _ => Some(expected),
    }
}

/// Returns where the cell begins that is open after the enter of a span.
#[inline(always)]
fn cell_entered(cell: usize, name: Name, index: usize) -> usize
    ensures { result ≡ cell_after cell Enter name index }
{
    match name {
        Name::GfmTableCell => index,
        _ => cell,
    }
}

/// Returns how many labels are open after the enter of a span, or none if that is no `usize`.
#[inline(always)]
pub(crate) fn labels_entered(labels: usize, name: Name) -> Option<usize>
    ensures { SomeIff result (labels_after labels Enter name < 2 ^ 64) (labels_after labels Enter name) }
{
    if is_label(name) {
        labels.checked_add(1)
    } else {
        Some(labels)
    }
}

/// Returns the offsets that are expected after the exit of a span at an index, if those of the bytes that
/// it hides come first.
#[inline(always)]
fn expected_after<'e>(
    bytes: &[u8],
    cell: usize,
    name: Name,
    index: usize,
    expected: &'e [usize],
) -> Option<&'e [usize]>
    ensures { IfSome result (λ later. (labels : ℕ) → expected.now ≡ hidden_by bytes.now labels cell Exit name index ++ later.now) }
{
    match name {
        Name::GfmTableCell => after_escapes(part(bytes, cell, index), cell, expected),
        _ => Some(expected),
    }
}

/// Returns how many labels are open after the exit of a span.
#[inline(always)]
pub(crate) fn labels_left(labels: usize, name: Name) -> usize
    ensures { result ≡ labels_after labels Exit name }
{
    if is_label(name) {
        labels.saturating_sub(1)
    } else {
        labels
    }
}

/// Returns the offsets after those of the backslashes before pipes in a text that begins at an offset, if
/// these come first.
fn after_escapes<'e>(text: &[u8], start: usize, expected: &'e [usize]) -> Option<&'e [usize]>
    requires { start + length text.now < 2 ^ 64 }
    ensures { IfSome result (λ later. expected.now ≡ escapes start text.now ++ later.now) }
{
    let mut at = start;
    let mut left = expected;
    let mut rest = text;
    'bytes: while let Some((first, later)) = rest.split_first() {
        if *first == b'\\' && matches!(later, [b'|', ..]) {
            left = after_offset(left, at)?;
        }
        at += 1;
        rest = later;
    }
    Some(left)
}

/// Returns the offsets after the first one, if that is this one.
fn after_offset(offsets: &[usize], at: usize) -> Option<&[usize]>
    ensures { IfSome result (λ later. offsets.now ≡ at ∷ later.now) }
{
    match offsets.split_first() {
        Some((first, later)) if *first == at => Some(later),
        _ => None,
    }
}
