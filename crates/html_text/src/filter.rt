//! GFM's filter of tags.

ghost use Rattle.std.specs.Prelude.{◌≡◌, ◌++◌, OnOk, string_bytes};
ghost use Rattle.html_text.specs.Filter.{after_slash, begins_with_name, begins_with_one, ends_name, filtered, is_filtered, raw_text_elements};

use crate::urls::lower;
use std::alloc::AllocError;

/// Appends HTML, with the `<` of some tags written as text: those of `title`, `textarea`, `style`,
/// `xmp`, `iframe`, `noembed`, `noframes`, `script` and `plaintext`, in any case of their letters
/// (GFM, Disallowed Raw HTML).
///
/// The only error is that memory ran out. `<b><XMP a>` is appended as `<b>&lt;XMP a>`.
pub fn push_filtered(out: &mut String, html: &str) -> Result<(), AllocError>
    ensures { OnOk result (string_bytes out.new ≡ string_bytes out.old ++ filtered html.now) }
{
    let bytes = html.as_bytes();
    let mut start = 0;
    // Unchanged bytes are appended together.
    for at in 0..bytes.len() {
        if bytes[at] == b'<' && is_filtered(&bytes[at + 1..]) {
            out.push_str(&html[start..at])?;
            out.push_str("&lt;")?;
            start = at + 1;
        }
    }
    out.push_str(&html[start..])
}

/// Whether a `<` with this text after it begins a tag of one of the elements.
#[tactic(auto, unfolding(crate::specs::Filter::begins_with_one, crate::specs::Filter::is_filtered))]
fn is_filtered(text: &[u8]) -> bool
    ensures { result ≡ is_filtered text.now }
{
    let text = after_slash(text);
    begins_with_name(b"title", text)
        || begins_with_name(b"textarea", text)
        || begins_with_name(b"script", text)
        || begins_with_name(b"plaintext", text)
        || begins_with_raw_text(text)
}

/// Whether a text begins with the name of an element whose content is raw text to a browser.
#[tactic(auto, unfolding(crate::specs::Filter::begins_with_one))]
fn begins_with_raw_text(text: &[u8]) -> bool
    ensures { result ≡ begins_with_one raw_text_elements text.now }
{
    begins_with_name(b"style", text)
        || begins_with_name(b"xmp", text)
        || begins_with_name(b"iframe", text)
        || begins_with_name(b"noembed", text)
        || begins_with_name(b"noframes", text)
}

/// Returns the text after the `/` of an end tag.
fn after_slash(text: &[u8]) -> &[u8]
    ensures { result.now ≡ after_slash text.now }
{
    match text.split_first() {
        Some((first, rest)) if *first == b'/' => rest,
        _ => text,
    }
}

/// Whether a text begins with a name, in any case, and the name ends there.
fn begins_with_name(name: &[u8], text: &[u8]) -> bool
    ensures { result ≡ begins_with_name name.now text.now }
{
    let mut letters = name;
    let mut rest = text;
    while let Some((letter, later)) = letters.split_first() {
        let Some((first, after)) = rest.split_first() else {
            return false;
        };
        if lower(*first) != *letter {
            return false;
        }
        letters = later;
        rest = after;
    }
    match rest.first() {
        Some(byte) => ends_name(*byte),
        None => true,
    }
}

/// Whether a byte ends the name of a tag.
fn ends_name(byte: u8) -> bool
    ensures { result ≡ ends_name byte }
{
    matches!(byte, b' ' | b'\t' | b'\n' | b'\x0c' | b'\r' | b'/' | b'>')
}
