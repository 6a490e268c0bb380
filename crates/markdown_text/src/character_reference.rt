//! Character references (CommonMark): a character by its name or its number.

ghost use Rattle.std.specs.Prelude.{◌≡◌, ◌≤◌, ◌<◌, ◌+◌, ◌-◌, drop, false, length, slice_range, true, IfOk, IfSome, MatchOption, OnOk, List, is_some};
ghost use Rattle.commonmark_syntax.specs.Inlines as page;
ghost use Rattle.commonmark_syntax.specs.Language.{IsNotAt, Leaves};
ghost use Rattle.markdown_options.specs.declared.Constructs.{Constructs};
ghost use Rattle.markdown_text.specs.AttentionEvents.{attention_of};
ghost use Rattle.markdown_text.specs.Constructs.{is_found_on};
ghost use Rattle.markdown_text.specs.Contents.{IsAsciiPart};
ghost use Rattle.markdown_text.specs.Outputs.{Stands, WritesTo, bytes_of, AtInlines, AtStage, KeepsInlines, as_text, references_of, constructs_of};
ghost use Rattle.markdown_text.specs.Texts.{text_of};
ghost use Rattle.markdown_text.specs.Tokens.{IsFound, IsOfString, marker, markers, IsReference};
ghost use Rattle.event_writer.specs.Stages.{Enclosing, character_reference, character_reference_value};
ghost use Rattle.markdown_text.specs.Standings.{IsAt};

use crate::output::{Next, Output};
use crate::token::{Found, TokenKind};
use character_references::references::References;
use commonmark_syntax::{decimal_reference, entity_reference, hexadecimal_reference};
use event_writer::sink::Sink;
use markdown_events::event::Name;
use std::alloc::{AllocError, Global};
use std::str;

/// How a character reference identifies its character.
#[derive(Clone, Copy)]
pub enum ReferenceKind {
    /// By a name: `&amp;`.
    Named,
    /// By a number: `&#38;`.
    Decimal,
    /// By a hexadecimal number: `&#x26;`.
    Hexadecimal,
}

impl ReferenceKind {
    /// Returns the byte by which a decoder knows this kind.
    fn marker(self) -> u8
        ensures { result ≡ marker self }
    {
        match self {
            ReferenceKind::Named => b'&',
            ReferenceKind::Decimal => b'#',
            ReferenceKind::Hexadecimal => b'x',
        }
    }

    /// Returns how many bytes come before the value.
    fn markers(self) -> usize
        ensures { result ≡ markers self }
    {
        match self {
            ReferenceKind::Named => 1,
            ReferenceKind::Decimal => 2,
            ReferenceKind::Hexadecimal => 3,
        }
    }
}

/// The parts of a possible character reference in a text, as known without a decoder.
#[derive(Clone, Copy)]
struct Form<'c> {
    /// The kind.
    kind: ReferenceKind,
    /// The value.
    value: &'c [u8],
    /// The total length.
    size: usize,
}

impl<'c> Form<'c> {
    /// Returns the form of a reference of this kind and length that a text begins with.
    fn new(text: &'c [u8], kind: ReferenceKind, size: usize) -> Form<'c>
        requires least { markers kind < size }
        requires most { size ≤ length text.now }
        ensures kind { result.kind ≡ kind }
        ensures size { result.size ≡ size }
        ensures value { result.value.now ≡ slice_range text.now (markers kind) (size - 1) }
    {
        Form {
            kind,
            value: &text[kind.markers()..size - 1],
            size,
        }
    }
}

/// Returns the form of the character reference that a text may begin with.
fn form_of(text: &[u8]) -> Option<Form<'_>>
    ensures exact { MatchOption result (IsNotAt page.character_reference text.now) (λ form. Leaves page.character_reference text.now (drop form.size text.now)) }
    ensures ascii { IfSome result (λ form. IsAsciiPart text.now 0 form.size) }
    ensures filled { IfSome result (λ form. markers form.kind + 1 < form.size) }
    ensures value { IfSome result (λ form. form.value.now ≡ slice_range text.now (markers form.kind) (form.size - 1)) }
{
    if let Some(size) = entity_reference::scan(text) {
        return Some(Form::new(text, ReferenceKind::Named, size));
    }
    if let Some(size) = decimal_reference::scan(text) {
        return Some(Form::new(text, ReferenceKind::Decimal, size));
    }
    let size = hexadecimal_reference::scan(text)?;
    Some(Form::new(text, ReferenceKind::Hexadecimal, size))
}

/// Returns the character reference that a text begins with, if the decoder knows it. The only error
/// is that memory ran out.
pub fn scan<R: References>(
    alloc: Global,
    text: &[u8],
    references: &R,
) -> Result<Option<Found>, AllocError>
    ensures kind { IfOk result (λ found. IfSome found (λ found. IsOfString found.kind)) }
    ensures found { IfOk result (λ found. IfSome found (λ found. IsFound (text_of text.now (R.text references.now) false) found.kind 0 found.size)) }
    ensures on { IfOk result (λ found. IfSome found (λ found. (c : Constructs) → c.character_reference ≡ true → is_found_on c found.kind ≡ true)) }
    ensures token { IfOk result (λ found. IfSome found (λ found. is_some found.kind ≡ true)) }
{
    let Some(form) = form_of(text) else {
        return Ok(None);
    };
    let Ok(value) = str::from_utf8(form.value) else {
        return Ok(None);
    };
    let is_known = references
        .decode(alloc, value, form.kind.marker())?
        .is_some();
    let found = Found::token(TokenKind::CharacterReference(form.kind), form.size);
    Ok(is_known.then_some(found))
}

/// Writes a character reference that ends at an offset.
pub fn write<R: References, S: Sink>(
    output: &mut Output<'_, '_, R, S>,
    kind: ReferenceKind,
    end: usize,
) -> Result<(), AllocError>
    requires stands { Stands output.old }
    requires reference { IsReference (as_text output.old (R.text (references_of output.old)) false) kind output.old.data end }
    requires inlines { AtInlines output.old }
    requires on { (constructs_of output.old).character_reference ≡ true }
    ensures given { output.new.writer.value.given ≡ output.old.writer.value.given }
    ensures writes { OnOk result (WritesTo output.old output.new end) }
    ensures at { KeepsInlines result output.old output.new }
    ensures attention { OnOk result (attention_of output.new ≡ attention_of output.old) }
{
    output.flush(Next::Span)?;
    output.enter(Name::CharacterReference)?;
    write_markers(output, kind)?;
    output.value_to(end - 1)?;
    output.token(Name::CharacterReferenceMarkerSemi, 1)?;
    output.exit()
}

/// Writes the markers before the value of a character reference.
fn write_markers<R: References, S: Sink>(
    output: &mut Output<'_, '_, R, S>,
    kind: ReferenceKind,
) -> Result<(), AllocError>
    requires stands { Stands output.old }
    requires ascii { IsAsciiPart (bytes_of output.old) output.old.at (output.old.at + markers kind) }
    requires at { AtStage output.old character_reference }
    ensures given { output.new.writer.value.given ≡ output.old.writer.value.given }
    ensures writes { OnOk result (WritesTo output.old output.new (output.old.at + markers kind)) }
    ensures whole { OnOk result (output.new.writer.value.cursor.vs ≡ 0) }
    ensures at { (outer : List Enclosing) → IsAt output.old.writer.value character_reference outer → OnOk result (IsAt output.new.writer.value (character_reference_value (marker kind)) outer) }
    ensures attention { OnOk result (attention_of output.new ≡ attention_of output.old) }
{
    output.token(Name::CharacterReferenceMarker, 1)?;
    match kind {
        ReferenceKind::Named => Ok(()),
        ReferenceKind::Decimal => output.token(Name::CharacterReferenceMarkerNumeric, 1),
        ReferenceKind::Hexadecimal => {
            output.token(Name::CharacterReferenceMarkerNumeric, 1)?;
            output.token(Name::CharacterReferenceMarkerHexadecimal, 1)
        }
    }
}
