//! The fields of a node, in the terms of mdast: each has its name and its value, after a comma. Text
//! that is the same in each node of a kind is appended at once. The only error is that memory ran
//! out.
#![tactic(auto, unfolding(crate::specs::Fields::key, crate::specs::Fields::field, crate::specs::Fields::children, crate::specs::Strings::string))]

ghost use Rattle.std.specs.Fmt.{decimal};
ghost use Rattle.std.specs.Prelude.{◌≡◌, ◌++◌, [], OnOk, codes, if◌then◌else◌, option_map, string_bytes};
ghost use Rattle.markdown_kinds.specs.Fields.{bool_text};
ghost use Rattle.markdown_json.specs.Fields.{
  align_field,
  alignment,
  alignments,
  association_of,
  children,
  field,
  maybe,
  or_null,
  reference_of,
  reference_type,
  resource_of,
};

use crate::strings::{push, push_started, push_string};
use markdown_events::decimal::push_decimal;
use markdown_events::infer::AlignKind;
use markdown_kinds::ReferenceKind;
use std::alloc::AllocError;

/// Appends the start of the children of a parent: `,"children":[`.
pub fn push_children(out: &mut String) -> Result<(), AllocError>
    ensures { OnOk result (string_bytes out.new ≡ string_bytes out.old ++ children) }
{
    push(out, r#","children":["#)
}

/// Appends a start, which ends with a key, and a number.
///
/// The start `,"depth":` and the number 2 make `,"depth":2`.
pub fn push_number(out: &mut String, start: &str, number: usize) -> Result<(), AllocError>
    ensures { OnOk result (string_bytes out.new ≡ string_bytes out.old ++ (start.now ++ decimal number)) }
{
    push(out, start)?;
    push_decimal(out, number)
}

/// Appends a start, which ends with a key, and a boolean.
///
/// The start `,"spread":` and false make `,"spread":false`.
pub fn push_flag(out: &mut String, start: &str, flag: bool) -> Result<(), AllocError>
    ensures { OnOk result (string_bytes out.new ≡ string_bytes out.old ++ (start.now ++ bool_text flag)) }
{
    push(out, start)?;
    push(out, if flag { "true" } else { "false" })
}

/// Appends a start, which ends with a key, and a text or null.
///
/// The start `,"lang":` and no text make `,"lang":null`.
pub fn push_option(out: &mut String, start: &str, text: &Option<String>) -> Result<(), AllocError>
    ensures { OnOk result (string_bytes out.new ≡ string_bytes out.old ++ (start.now ++ maybe (option_map string_bytes text.now))) }
{
    push(out, start)?;
    match text {
        Some(text) => push_string(out, text.as_str()),
        None => push(out, "null"),
    }
}

/// Appends the fields of a resource (mdast).
///
/// For the URL `a` without a title they are `,"title":null,"url":"a"`.
#[tactic(auto, unfolding(crate::specs::Fields::resource, crate::specs::Fields::key, crate::specs::Fields::field, crate::specs::Strings::string))]
pub fn push_resource(
    out: &mut String,
    url: &String,
    title: &Option<String>,
) -> Result<(), AllocError>
    ensures { OnOk result (string_bytes out.new ≡ string_bytes out.old ++ resource_of url.now title.now) }
{
    push_option(out, r#","title":"#, title)?;
    push_started(out, r#","url":""#, url)
}

/// Appends the fields of an association (mdast).
///
/// For the identifier `a` and the label `A` they are `,"identifier":"a","label":"A"`.
#[tactic(auto, unfolding(crate::specs::Fields::association, crate::specs::Fields::key, crate::specs::Fields::field, crate::specs::Strings::string))]
pub fn push_association(
    out: &mut String,
    identifier: &String,
    label: &Option<String>,
) -> Result<(), AllocError>
    ensures { OnOk result (string_bytes out.new ≡ string_bytes out.old ++ association_of identifier.now label.now) }
{
    push_started(out, r#","identifier":""#, identifier)?;
    push_option(out, r#","label":"#, label)
}

/// Appends the fields of a reference (mdast): those of an association, and its form.
///
/// The last is `,"referenceType":"full"` for `[a][b]`.
#[tactic(auto, unfolding(crate::specs::Fields::reference))]
pub fn push_reference(
    out: &mut String,
    kind: ReferenceKind,
    identifier: &String,
    label: &Option<String>,
) -> Result<(), AllocError>
    ensures { OnOk result (string_bytes out.new ≡ string_bytes out.old ++ reference_of kind identifier.now label.now) }
{
    push_association(out, identifier, label)?;
    push_reference_type(out, kind)
}

/// Appends the field that says how a reference is written.
fn push_reference_type(out: &mut String, kind: ReferenceKind) -> Result<(), AllocError>
    ensures { OnOk result (string_bytes out.new ≡ string_bytes out.old ++ field (codes "referenceType") (reference_type kind)) }
{
    match kind {
        ReferenceKind::Shortcut => push(out, r#","referenceType":"shortcut""#),
        ReferenceKind::Collapsed => push(out, r#","referenceType":"collapsed""#),
        ReferenceKind::Full => push(out, r#","referenceType":"full""#),
    }
}

/// Appends the field with the start number of a list, which may be null.
///
/// For a list that starts with 3 it is `,"start":3`.
pub fn push_start(out: &mut String, start: Option<u32>) -> Result<(), AllocError>
    ensures { OnOk result (string_bytes out.new ≡ string_bytes out.old ++ field (codes "start") (or_null decimal start)) }
{
    match start {
        Some(start) => push_number(out, r#","start":"#, start as usize),
        None => push(out, r#","start":null"#),
    }
}

/// Appends the field that says whether a task is done, which is null if the item is not a task.
///
/// For a task that is done it is `,"checked":true`.
pub fn push_checked(out: &mut String, checked: Option<bool>) -> Result<(), AllocError>
    ensures { OnOk result (string_bytes out.new ≡ string_bytes out.old ++ field (codes "checked") (or_null bool_text checked)) }
{
    match checked {
        Some(checked) => push_flag(out, r#","checked":"#, checked),
        None => push(out, r#","checked":null"#),
    }
}

/// Appends the field that says how the columns of a table are aligned.
///
/// For one column to the left and one without alignment it is `,"align":["left",null]`.
pub fn push_align(out: &mut String, align: &[AlignKind]) -> Result<(), AllocError>
    ensures { OnOk result (string_bytes out.new ≡ string_bytes out.old ++ align_field align.now) }
{
    push(out, r#","align":["#)?;
    push_alignments(out, align)?;
    push(out, "]")
}

/// Appends the alignments of columns, with commas between them.
fn push_alignments(out: &mut String, align: &[AlignKind]) -> Result<(), AllocError>
    ensures { OnOk result (string_bytes out.new ≡ string_bytes out.old ++ alignments [] align.now) }
{
    let mut later = false;
    'columns: for kind in align {
        push_alignment(out, *kind, later)?;
        later = true;
    }
    Ok(())
}

/// Appends the alignment of a column, after a comma if it is not the first column.
fn push_alignment(out: &mut String, kind: AlignKind, later: bool) -> Result<(), AllocError>
    ensures { OnOk result (string_bytes out.new ≡ string_bytes out.old ++ ((if later then codes "," else []) ++ alignment kind)) }
{
    if later {
        push(out, ",")?;
    }
    push(out, alignment(kind))
}

/// Returns how a column is aligned, as JSON.
fn alignment(kind: AlignKind) -> &'static str
    ensures { result.now ≡ alignment kind }
{
    match kind {
        AlignKind::Left => "\"left\"",
        AlignKind::Right => "\"right\"",
        AlignKind::Center => "\"center\"",
        AlignKind::None => "null",
    }
}
