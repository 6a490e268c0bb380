//! The text that Debug writes of the fields of a node: of its value, and of the fields after its
//! position.
//!
//! Each function writes one field, or the fields of one kind, each after a comma. `escapes` has the
//! characters beyond ASCII that are written as Unicode escapes. The only error is that of the
//! writer.

ghost use Rattle.std.specs.Fmt.{WritesOnOk, decimal};
ghost use Rattle.std.specs.Prelude.{◌++◌, codes, string_bytes};
ghost use Rattle.markdown_kinds.specs.Fields.{
  align_field,
  bool_text,
  code_fields_of,
  definition_fields_of,
  image_fields_of,
  image_reference_fields_of,
  item_fields,
  list_fields,
  literal_value,
  reference_of,
};
ghost use Rattle.markdown_kinds.specs.Quoted.{members};
ghost use Rattle.markdown_kinds.specs.TextFields.{option_text};

use crate::quoted::fields::{write_association, write_option, write_resource, write_text};
use crate::quoted::write_quoted;
use crate::{Code, Definition, Image, ImageReference, ReferenceKind};
use markdown_events::infer::AlignKind;
use std::collections::BTreeSet;
use std::fmt;

/// Writes the value of a literal, up to its position.
///
/// For the value `a` it is `"a", position: `.
pub fn write_value<W: fmt::Write>(
    value: &String,
    escapes: &BTreeSet<char>,
    f: &mut fmt::Formatter<W>,
) -> fmt::Result
    ensures { WritesOnOk W.write_str_gives f.old result (literal_value (members escapes.now) (string_bytes value.now)) f.new }
{
    write_quoted(value.as_str(), escapes, f)?;
    f.write_str(", position: ")
}

/// Writes the depth of a heading, as `, depth: 2`.
pub fn write_depth<W: fmt::Write>(depth: u8, f: &mut fmt::Formatter<W>) -> fmt::Result
    ensures { WritesOnOk W.write_str_gives f.old result (codes ", depth: " ++ decimal depth) f.new }
{
    write!(f, ", depth: {depth}")
}

/// Writes the fields of a block of code.
///
/// For `~~~a` they are `, lang: Some("a"), meta: None`.
pub fn write_code_fields<W: fmt::Write>(
    node: &Code,
    escapes: &BTreeSet<char>,
    f: &mut fmt::Formatter<W>,
) -> fmt::Result
    ensures { WritesOnOk W.write_str_gives f.old result (code_fields_of (members escapes.now) node.now) f.new }
{
    write_option(", lang: ", &node.lang, escapes, f)?;
    write_option(", meta: ", &node.meta, escapes, f)
}

/// Writes the fields of an image.
///
/// For `![a](b)` they are `, alt: "a", url: "b", title: None`.
pub fn write_image_fields<W: fmt::Write>(
    node: &Image,
    escapes: &BTreeSet<char>,
    f: &mut fmt::Formatter<W>,
) -> fmt::Result
    ensures { WritesOnOk W.write_str_gives f.old result (image_fields_of (members escapes.now) node.now) f.new }
{
    write_text(", alt: ", &node.alt, escapes, f)?;
    write_resource(&node.url, &node.title, escapes, f)
}

/// Writes the fields of a reference to an image.
///
/// For `![a]` they are `, alt: "a", reference_kind: Shortcut, identifier: "a", label: Some("a")`.
pub fn write_image_reference_fields<W: fmt::Write>(
    node: &ImageReference,
    escapes: &BTreeSet<char>,
    f: &mut fmt::Formatter<W>,
) -> fmt::Result
    ensures { WritesOnOk W.write_str_gives f.old result (image_reference_fields_of (members escapes.now) node.now) f.new }
{
    write_text(", alt: ", &node.alt, escapes, f)?;
    write_reference(
        node.reference_kind,
        &node.identifier,
        &node.label,
        escapes,
        f,
    )
}

/// Writes the fields of a definition.
///
/// For `[a]: b` they are `, url: "b", title: None, identifier: "a", label: Some("a")`.
pub fn write_definition_fields<W: fmt::Write>(
    node: &Definition,
    escapes: &BTreeSet<char>,
    f: &mut fmt::Formatter<W>,
) -> fmt::Result
    ensures { WritesOnOk W.write_str_gives f.old result (definition_fields_of (members escapes.now) node.now) f.new }
{
    write_resource(&node.url, &node.title, escapes, f)?;
    write_association(&node.identifier, &node.label, escapes, f)
}

/// Writes the fields of a reference (mdast).
///
/// For `[a]` they are `, reference_kind: Shortcut, identifier: "a", label: Some("a")`.
pub fn write_reference<W: fmt::Write>(
    kind: ReferenceKind,
    identifier: &String,
    label: &Option<String>,
    escapes: &BTreeSet<char>,
    f: &mut fmt::Formatter<W>,
) -> fmt::Result
    ensures { WritesOnOk W.write_str_gives f.old result (reference_of (members escapes.now) kind identifier.now label.now) f.new }
{
    write!(f, ", reference_kind: {kind:?}")?;
    write_association(identifier, label, escapes, f)
}

/// Writes the fields of a list.
///
/// For `3. a` they are `, ordered: true, start: Some(3), spread: false`.
pub fn write_list_fields<W: fmt::Write>(
    ordered: bool,
    start: Option<u32>,
    spread: bool,
    f: &mut fmt::Formatter<W>,
) -> fmt::Result
    ensures { WritesOnOk W.write_str_gives f.old result (list_fields ordered start spread) f.new }
{
    write_flag(", ordered: ", ordered, f)?;
    write_start(start, f)?;
    write_flag(", spread: ", spread, f)
}

/// Writes the number that a list starts with, or that there is none.
fn write_start<W: fmt::Write>(start: Option<u32>, f: &mut fmt::Formatter<W>) -> fmt::Result
    ensures { WritesOnOk W.write_str_gives f.old result (codes ", start: " ++ option_text decimal start) f.new }
{
    match start {
        Some(start) => write!(f, ", start: Some({start})"),
        None => f.write_str(", start: None"),
    }
}

/// Writes a boolean field. Its name is between a comma and a colon.
fn write_flag<W: fmt::Write>(name: &str, flag: bool, f: &mut fmt::Formatter<W>) -> fmt::Result
    ensures { WritesOnOk W.write_str_gives f.old result (name.now ++ bool_text flag) f.new }
{
    f.write_str(name)?;
    f.write_str(if flag { "true" } else { "false" })
}

/// Writes the fields of a list item.
///
/// For `* [x] a` they are `, spread: false, checked: Some(true)`.
pub fn write_item_fields<W: fmt::Write>(
    spread: bool,
    checked: Option<bool>,
    f: &mut fmt::Formatter<W>,
) -> fmt::Result
    ensures { WritesOnOk W.write_str_gives f.old result (item_fields spread checked) f.new }
{
    match checked {
        Some(checked) => write!(f, ", spread: {spread}, checked: Some({checked})"),
        None => write!(f, ", spread: {spread}, checked: None"),
    }
}

/// Writes the alignments of the columns of a table.
///
/// For one column to the left it is `, align: [Left]`.
pub fn write_align<W: fmt::Write>(align: &Vec<AlignKind>, f: &mut fmt::Formatter<W>) -> fmt::Result
    ensures { WritesOnOk W.write_str_gives f.old result (align_field align.now.items) f.new }
{
    write!(f, ", align: {align:?}")
}
