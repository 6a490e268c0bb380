//! Footnotes, their calls, and the back references.

ghost use Rattle.std.specs.Prelude.{◌≡◌, ◌++◌, IfOk, OnOk, codes, string_bytes};
ghost use Rattle.html_text.specs.Urls.{encoded};
ghost use Rattle.markdown_html.specs.Elements.{arrow, attribute, back_attributes, back_label, back_reference, back_references, call_attributes, call_id, call_links, call_text, label_id, linked_call_text, note_id, note_start, numeral, repeat_mark, repeat_text, section_heading, section_start};

use crate::attributes::{push_attribute, push_numeral};
use html_text::urls::encoded;
use std::alloc::{AllocError, Global};

/// Appends the start of the section of footnotes.
#[tactic(auto, unfolding(crate::specs::Elements::section_start))]
pub(crate) fn push_section_start(
    alloc: Global,
    out: &mut String,
    prefix: &str,
) -> Result<(), AllocError>
    ensures { OnOk result (string_bytes out.new ≡ string_bytes out.old ++ section_start prefix.now) }
{
    out.push_str("<section")?;
    push_attribute(out, "data-footnotes", "")?;
    push_attribute(out, "class", "footnotes")?;
    out.push_str(">")?;
    push_section_heading(alloc, out, prefix)
}

/// Appends the heading of the footnotes.
#[tactic(auto, unfolding(crate::specs::Elements::section_heading))]
fn push_section_heading(alloc: Global, out: &mut String, prefix: &str) -> Result<(), AllocError>
    ensures { OnOk result (string_bytes out.new ≡ string_bytes out.old ++ section_heading prefix.now) }
{
    out.push_str("<h2")?;
    push_attribute(out, "class", "sr-only")?;
    push_attribute(out, "id", label_id(alloc, prefix)?.as_str())?;
    out.push_str(">Footnotes")?;
    out.push_str("</h2>\n<ol>\n")
}

/// Appends the start of a footnote.
#[tactic(auto, unfolding(crate::specs::Elements::note_start))]
pub(crate) fn push_note_start(
    alloc: Global,
    out: &mut String,
    prefix: &str,
    identifier: &str,
) -> Result<(), AllocError>
    ensures { OnOk result (string_bytes out.new ≡ string_bytes out.old ++ note_start prefix.now identifier.now) }
{
    out.push_str("<li")?;
    push_attribute(out, "id", note_id(alloc, prefix, identifier)?.as_str())?;
    out.push_str(">\n")
}

/// Appends a call of the footnote with this number, which is its call number `count`.
#[tactic(auto, unfolding(crate::specs::Elements::call_text))]
pub(crate) fn push_call(
    alloc: Global,
    out: &mut String,
    prefix: &str,
    identifier: &str,
    number: usize,
    count: usize,
) -> Result<(), AllocError>
    ensures { OnOk result (string_bytes out.new ≡ string_bytes out.old ++ call_text prefix.now identifier.now number count) }
{
    out.push_str("<sup><a")?;
    push_call_attributes(alloc, out, prefix, identifier, count)?;
    out.push_str(">")?;
    push_numeral(out, number)?;
    out.push_str("</a></sup>")
}

/// Appends a call within a link: its number alone, which the back reference leads to.
#[tactic(auto, unfolding(crate::specs::Elements::linked_call_text))]
pub(crate) fn push_linked_call(
    alloc: Global,
    out: &mut String,
    prefix: &str,
    identifier: &str,
    number: usize,
    count: usize,
) -> Result<(), AllocError>
    ensures { OnOk result (string_bytes out.new ≡ string_bytes out.old ++ linked_call_text prefix.now identifier.now number count) }
{
    out.push_str("<sup")?;
    push_attribute(
        out,
        "id",
        call_id(alloc, prefix, identifier, count)?.as_str(),
    )?;
    out.push_str(">")?;
    push_numeral(out, number)?;
    out.push_str("</sup>")
}

/// Appends the attributes of a call.
#[tactic(auto, unfolding(crate::specs::Elements::call_attributes))]
fn push_call_attributes(
    alloc: Global,
    out: &mut String,
    prefix: &str,
    identifier: &str,
    count: usize,
) -> Result<(), AllocError>
    ensures { OnOk result (string_bytes out.new ≡ string_bytes out.old ++ call_attributes prefix.now identifier.now count) }
{
    push_call_links(alloc, out, prefix, identifier, count)?;
    push_attribute(out, "data-footnote-ref", "")?;
    let label = label_id(alloc, prefix)?;
    push_attribute(out, "aria-describedby", label.as_str())
}

/// Appends where a call leads, and its id.
#[tactic(auto, unfolding(crate::specs::Elements::call_links))]
fn push_call_links(
    alloc: Global,
    out: &mut String,
    prefix: &str,
    identifier: &str,
    count: usize,
) -> Result<(), AllocError>
    ensures { OnOk result (string_bytes out.new ≡ string_bytes out.old ++ call_links prefix.now identifier.now count) }
{
    let note = note_id(alloc, prefix, identifier)?;
    push_href(alloc, out, note.as_str())?;
    let call = call_id(alloc, prefix, identifier, count)?;
    push_attribute(out, "id", call.as_str())
}

/// Appends the back references to `count` calls of the footnote with this number.
pub(crate) fn push_back_references(
    alloc: Global,
    out: &mut String,
    prefix: &str,
    identifier: &str,
    number: usize,
    count: usize,
) -> Result<(), AllocError>
    ensures { OnOk result (string_bytes out.new ≡ string_bytes out.old ++ back_references prefix.now identifier.now number count) }
{
    for before in 0..count {
        out.push_str(" ")?;
        push_back_reference(alloc, out, prefix, identifier, number, before + 1)?;
    }
    Ok(())
}

/// Appends a back reference to a call.
#[tactic(auto, unfolding(crate::specs::Elements::back_reference))]
fn push_back_reference(
    alloc: Global,
    out: &mut String,
    prefix: &str,
    identifier: &str,
    number: usize,
    count: usize,
) -> Result<(), AllocError>
    ensures { OnOk result (string_bytes out.new ≡ string_bytes out.old ++ back_reference prefix.now identifier.now number count) }
{
    out.push_str("<a")?;
    push_back_attributes(alloc, out, prefix, identifier, number, count)?;
    out.push_str(">")?;
    push_arrow(out)?;
    push_repeat_mark(out, count)?;
    out.push_str("</a>")
}

/// Appends its attributes.
#[tactic(auto, unfolding(crate::specs::Elements::back_attributes))]
fn push_back_attributes(
    alloc: Global,
    out: &mut String,
    prefix: &str,
    identifier: &str,
    number: usize,
    count: usize,
) -> Result<(), AllocError>
    ensures { OnOk result (string_bytes out.new ≡ string_bytes out.old ++ back_attributes prefix.now identifier.now number count) }
{
    let call = call_id(alloc, prefix, identifier, count)?;
    push_href(alloc, out, call.as_str())?;
    push_attribute(out, "data-footnote-backref", "")?;
    let label = back_label(alloc, number, count)?;
    push_attribute(out, "aria-label", label.as_str())?;
    push_attribute(out, "class", "data-footnote-backref")
}

/// Appends an arrow that points back.
#[tactic(auto, unfolding(crate::specs::Elements::arrow))]
fn push_arrow(out: &mut String) -> Result<(), AllocError>
    ensures { OnOk result (string_bytes out.new ≡ string_bytes out.old ++ arrow) }
{
    out.push_str("\u{21a9}")
}

/// Appends the address of an id on the same page.
fn push_href(alloc: Global, out: &mut String, id: &str) -> Result<(), AllocError>
    ensures { OnOk result (string_bytes out.new ≡ string_bytes out.old ++ attribute (codes "href") (codes "#" ++ id.now)) }
{
    let mut url = String::from_str(alloc, "#")?;
    url.push_str(id)?;
    push_attribute(out, "href", url.as_str())
}

/// Returns the id of a footnote.
fn note_id(alloc: Global, prefix: &str, identifier: &str) -> Result<String, AllocError>
    ensures { IfOk result (λ text. string_bytes text ≡ note_id prefix.now identifier.now) }
{
    id(alloc, prefix, "fn-", identifier)
}

/// Returns the id of a call.
fn call_id(
    alloc: Global,
    prefix: &str,
    identifier: &str,
    count: usize,
) -> Result<String, AllocError>
    ensures { IfOk result (λ text. string_bytes text ≡ call_id prefix.now identifier.now count) }
{
    let mut id = id(alloc, prefix, "fnref-", identifier)?;
    push_repeat(&mut id, count)?;
    Ok(id)
}

/// Returns an id: a prefix, a text, and an identifier, which is encoded.
fn id(alloc: Global, prefix: &str, kind: &str, identifier: &str) -> Result<String, AllocError>
    ensures { IfOk result (λ text. string_bytes text ≡ prefix.now ++ kind.now ++ encoded identifier.now) }
{
    let mut id = String::from_str(alloc, prefix)?;
    id.push_str(kind)?;
    id.push_str(encoded(alloc, identifier)?.as_str())?;
    Ok(id)
}

/// Returns the id of the heading of the footnotes.
fn label_id(alloc: Global, prefix: &str) -> Result<String, AllocError>
    ensures { IfOk result (λ text. string_bytes text ≡ label_id prefix.now) }
{
    let mut label = String::from_str(alloc, prefix)?;
    label.push_str("footnote-label")?;
    Ok(label)
}

/// Returns the label of a back reference.
#[tactic(auto, unfolding(crate::specs::Elements::back_label))]
fn back_label(alloc: Global, number: usize, count: usize) -> Result<String, AllocError>
    ensures { IfOk result (λ text. string_bytes text ≡ back_label number count) }
{
    let mut text = String::from_str(alloc, "Back to reference ")?;
    push_numeral(&mut text, number)?;
    push_repeat(&mut text, count)?;
    Ok(text)
}

/// Appends the number of the call, if it is not the first.
#[tactic(auto, unfolding(crate::specs::Elements::repeat_text))]
fn push_repeat(out: &mut String, count: usize) -> Result<(), AllocError>
    ensures { OnOk result (string_bytes out.new ≡ string_bytes out.old ++ repeat_text count) }
{
    if count == 1 {
        return Ok(());
    }
    out.push_str("-")?;
    push_numeral(out, count)
}

/// Does the same, for people.
#[tactic(auto, unfolding(crate::specs::Elements::repeat_mark))]
fn push_repeat_mark(out: &mut String, count: usize) -> Result<(), AllocError>
    ensures { OnOk result (string_bytes out.new ≡ string_bytes out.old ++ repeat_mark count) }
{
    if count == 1 {
        return Ok(());
    }
    out.push_str("<sup>")?;
    push_numeral(out, count)?;
    out.push_str("</sup>")
}
