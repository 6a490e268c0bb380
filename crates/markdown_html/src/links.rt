//! Links and images.

ghost use Rattle.std.specs.Prelude.{◌≡◌, ◌++◌, IfOk, OnOk, codes, option_map, string_bytes};
ghost use Rattle.markdown_html.specs.Elements.{image_tag, image_url, link_start, link_url, passes, reference_end};

use crate::attributes::{push_attribute, push_title};
use crate::source::Raw;
use html_text::urls::{encoded, is_safe_link, is_safe_source};
use markdown_nodes::mdast::ReferenceKind;
use std::alloc::{AllocError, Global};

/// Appends the start of a link.
#[tactic(auto, unfolding(crate::specs::Elements::link_start))]
pub(crate) fn push_link_start(
    alloc: Global,
    out: &mut String,
    raw: Raw,
    url: &str,
    title: Option<&str>,
) -> Result<(), AllocError>
    ensures { OnOk result (string_bytes out.new ≡ string_bytes out.old ++ link_start raw url.now (option_map (λ text. text.now) title.entry)) }
{
    out.push_str("<a")?;
    push_attribute(out, "href", link_url(alloc, raw, url)?.as_str())?;
    push_title(out, title)?;
    out.push_str(">")
}

/// Returns the address of a link, encoded, or nothing if it is not allowed.
#[tactic(auto, unfolding(crate::specs::Elements::link_url))]
fn link_url(alloc: Global, raw: Raw, url: &str) -> Result<String, AllocError>
    ensures { IfOk result (λ text. string_bytes text ≡ link_url raw url.now) }
{
    let url = encoded(alloc, url)?;
    if passes(raw) || is_safe_link(alloc, url.as_str())? {
        Ok(url)
    } else {
        Ok(String::new(alloc))
    }
}

/// Appends an image.
#[tactic(auto, unfolding(crate::specs::Elements::image_tag))]
pub(crate) fn push_image(
    alloc: Global,
    out: &mut String,
    raw: Raw,
    alt: &str,
    url: &str,
    title: Option<&str>,
) -> Result<(), AllocError>
    ensures { OnOk result (string_bytes out.new ≡ string_bytes out.old ++ image_tag raw alt.now url.now (option_map (λ text. text.now) title.entry)) }
{
    out.push_str("<img")?;
    push_attribute(out, "src", image_url(alloc, raw, url)?.as_str())?;
    push_attribute(out, "alt", alt)?;
    push_title(out, title)?;
    out.push_str(" />")
}

/// Returns the address of an image, encoded, or nothing if it is not allowed.
#[tactic(auto, unfolding(crate::specs::Elements::image_url))]
fn image_url(alloc: Global, raw: Raw, url: &str) -> Result<String, AllocError>
    ensures { IfOk result (λ text. string_bytes text ≡ image_url raw url.now) }
{
    let url = encoded(alloc, url)?;
    if passes(raw) || is_safe_source(alloc, url.as_str())? {
        Ok(url)
    } else {
        Ok(String::new(alloc))
    }
}

/// Whether addresses may have any scheme.
fn passes(raw: Raw) -> bool
    ensures { result ≡ passes raw }
{
    matches!(raw, Raw::Filter | Raw::Pass)
}

/// Returns the end of a reference that nothing defines, as it is written in a document.
#[tactic(auto, unfolding(crate::specs::Elements::reference_end))]
pub(crate) fn reference_end(
    alloc: Global,
    kind: ReferenceKind,
    identifier: &str,
    label: Option<&str>,
) -> Result<String, AllocError>
    ensures { IfOk result (λ text. string_bytes text ≡ reference_end kind identifier.now (option_map (λ text. text.now) label.entry)) }
{
    match kind {
        ReferenceKind::Shortcut => String::from_str(alloc, "]"),
        ReferenceKind::Collapsed => String::from_str(alloc, "][]"),
        ReferenceKind::Full => full_end(alloc, label.unwrap_or(identifier)),
    }
}

/// Returns the end of a reference with a label of its own.
fn full_end(alloc: Global, label: &str) -> Result<String, AllocError>
    ensures { IfOk result (λ text. string_bytes text ≡ codes "][" ++ label.now ++ codes "]") }
{
    let mut text = String::from_str(alloc, "][")?;
    text.push_str(label)?;
    text.push_str("]")?;
    Ok(text)
}
