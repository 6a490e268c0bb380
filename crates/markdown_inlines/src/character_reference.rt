//! Character references (CommonMark, entity and numeric character references).
//!
//! In markdown-rs: `on_exit_character_reference_marker`,
//! `on_exit_character_reference_marker_numeric`, `on_exit_character_reference_marker_hexadecimal`
//! and `on_exit_character_reference_value`.

ghost use Rattle.std.specs.Prelude.{◌≡◌, None, Some, is_some, string_bytes};
ghost use Rattle.markdown_events.specs.declared.role.ItemKind.TheVariants as item_kinds;
ghost use Rattle.markdown_events.specs.declared.role.Part.TheVariants as parts;
ghost use Rattle.markdown_grammar.specs.Document.{source_of};
ghost use Rattle.markdown_grammar.specs.Grammar as models;
ghost use Rattle.markdown_grammar.specs.declared.error_kind.ErrorKind.TheVariants.{IncompleteReference};
ghost use Rattle.markdown_steps.specs.Summaries.{text_of as text_in};
ghost use Rattle.markdown_parts.specs.PartsSoFar.{GainsSign, IsFresh, Makes, misfit_in};
ghost use Rattle.markdown_inlines.specs.CharacterReferences.{ReadsValue, byte_of, character_reference, marked, part_of_marker, value_kept};

use character_references::references::References;
use markdown_grammar::error_kind::{ErrorKind, Stop};
use markdown_nodes::event::Point;
use markdown_nodes::role::{ItemKind, Part};
use markdown_parts::misfits::only;
use markdown_parts::slice::{Document, text_of};
use std::alloc::Global;

/// The marker before the value of a character reference, which says how the value is read.
#[derive(Clone, Copy)]
pub enum Marker {
    /// The `&` of `&amp;`.
    Named,
    /// The `#` of `&#38;`.
    Decimal,
    /// The `x` of `&#x26;`.
    Hexadecimal,
}

/// The markers of a character reference so far: the last one, and whether each has occurred before
/// it.
///
/// Only the last one says how the value is read. The others affect nothing here. They are kept
/// because the contracts say for each part whether it has occurred, and the last marker does not
/// tell that of the others. For `&#x26;` it is `x`, and `&` and `#` have occurred before it; a list
/// of events may have an `x` alone.
#[derive(Clone, Copy)]
pub struct Markers {
    pub last: Marker,
    pub named: bool,
    pub decimal: bool,
    pub hexadecimal: bool,
}

/// The parts of a character reference so far: its markers, and the text that its value stands for.
///
/// In `&amp;` these are the marker `&` and, with a decoder that knows HTML's references, the text
/// `&`.
#[derive(Drop)]
pub struct CharacterReferenceParts {
    pub markers: Option<Markers>,
    pub text: Option<String>,
}

impl CharacterReferenceParts {
    /// Returns a character reference at its enter, before the `&` of `&amp;`.
    pub fn new() -> CharacterReferenceParts
        ensures { IsFresh (character_reference result) models.character_reference }
    {
        CharacterReferenceParts {
            markers: None,
            text: None,
        }
    }

    /// Returns the rule that this item would violate here, if any. A character reference accepts
    /// markers, and after them one value. A value is `ErrorKind::IncompleteReference` before any
    /// marker, and `ErrorKind::Repeated` after another; any other item is `ErrorKind::Misplaced`.
    pub fn misfit(&self, what: ItemKind) -> Option<ErrorKind>
        ensures { result ≡ misfit_in (character_reference self.now) what }
    {
        let has_value = self.text.is_some();
        match what {
            ItemKind::Part(
                Part::CharacterReferenceMarker
                | Part::CharacterReferenceMarkerNumeric
                | Part::CharacterReferenceMarkerHexadecimal,
            ) => only(!has_value),
            ItemKind::Part(Part::CharacterReferenceValue) if has_value => Some(ErrorKind::Repeated),
            ItemKind::Part(Part::CharacterReferenceValue) if self.markers.is_some() => None,
            ItemKind::Part(Part::CharacterReferenceValue) => Some(ErrorKind::IncompleteReference),
            _ => Some(ErrorKind::Misplaced),
        }
    }

    /// Stores a marker, which is then the last: for `&#x26;` first `&`, then `#`, then `x`.
    pub fn take_marker(&mut self, marker: Marker)
        ensures { GainsSign (part_of_marker marker) (character_reference self.old) (character_reference self.new) }
    {
        self.markers = Some(match self.markers {
            Some(markers) => markers.followed_by(marker),
            None => Markers {
                last: marker,
                named: false,
                decimal: false,
                hexadecimal: false,
            },
        });
    }

    /// Stores the value between two points, such as `amp` in `&amp;`: the text that the decoder has
    /// for it after the last marker. If it is not a text of the document, it is refused as
    /// `ErrorKind::InvalidSlice`. If the decoder does not know it, it is refused as
    /// `ErrorKind::UnknownReference`.
    pub fn take_value<R: References>(
        &mut self,
        alloc: Global,
        document: &Document<'_>,
        references: &R,
        start: Point,
        end: Point,
    ) -> Result<(), Stop>
        requires { misfit_in (character_reference self.old) (item_kinds.Part parts.CharacterReferenceValue) ≡ None }
        ensures { ReadsValue (source_of document.now (R.text references.now)) start end self.old self.new result }
    {
        // `misfit` has already refused a value without a marker before it.
        let Some(markers) = self.markers else {
            return Err(Stop::Refused(ErrorKind::IncompleteReference));
        };
        let value = text_of(document, start, end)?;
        let Some(text) = references.decode(alloc, value, markers.last.byte())? else {
            return Err(Stop::Refused(ErrorKind::UnknownReference));
        };
        self.text = Some(text);
        Ok(())
    }

    /// Returns the text that a character reference stands for at its exit. One without a value is
    /// refused as `ErrorKind::IncompleteReference`.
    ///
    /// For `&amp;` it is `&`, with a decoder that knows HTML's references.
    pub fn text(self) -> Result<String, Stop>
        ensures { Makes result (is_some (value_kept self)) IncompleteReference (λ text. string_bytes text ≡ text_in (value_kept self)) }
    {
        self.text
            .ok_or(Stop::Refused(ErrorKind::IncompleteReference))
    }
}

impl Markers {
    /// Returns the markers with one more, which is the last.
    fn followed_by(self, marker: Marker) -> Markers
        ensures { result ≡ marked (Some self) marker }
    {
        Markers {
            last: marker,
            named: self.named || matches!(self.last, Marker::Named),
            decimal: self.decimal || matches!(self.last, Marker::Decimal),
            hexadecimal: self.hexadecimal || matches!(self.last, Marker::Hexadecimal),
        }
    }
}

impl Marker {
    /// Returns the character that it is, or that it ends with.
    fn byte(self) -> u8
        ensures { result ≡ byte_of self }
    {
        match self {
            Marker::Named => b'&',
            Marker::Decimal => b'#',
            Marker::Hexadecimal => b'x',
        }
    }
}
