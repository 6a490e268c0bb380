//! Addresses in a page.

ghost use Rattle.std.specs.Prelude.{◌≡◌, ◌∷◌, ◌++◌, ◌<◌, [], IfOk, IsTrue, OnOk, option_map, string_bytes};
ghost use Rattle.html_text.specs.Urls.{
  encoded,
  has_none_or,
  image_schemes,
  is_letter,
  is_safe_link,
  is_safe_source,
  is_scheme_byte,
  is_taken_out,
  is_url_byte,
  link_schemes,
  lower,
  percent,
  scheme,
  scheme_from,
  upper_digit,
};

use std::alloc::{AllocError, Global};

/// Whether an address may be used in a link: it has no scheme, or `http`, `https`, `mailto`, `irc`,
/// `ircs` or `xmpp` (those of hast-util-sanitize).
///
/// The scheme is the one that a browser reads (URL Standard): in any case of its letters, after
/// controls and spaces, and with tabs and line endings in it. The only error is that memory ran
/// out.
///
/// `/a` and `HTTPS://a` may be used, and `java\nscript:a` may not.
#[tactic(auto, unfolding(crate::specs::Urls::is_safe_link))]
pub fn is_safe_link(alloc: Global, url: &str) -> Result<bool, AllocError>
    ensures { IfOk result (λ safe. safe ≡ is_safe_link url.now) }
{
    Ok(match scheme(alloc, url.as_bytes())? {
        None => true,
        Some(scheme) => is_link_scheme(&scheme),
    })
}

/// Whether an address may be used in an image: it has no scheme, or `http` or `https`.
///
/// Everything else is as in [`is_safe_link`]. `data:image/png,a` may not be used.
#[tactic(auto, unfolding(crate::specs::Urls::is_safe_source))]
pub fn is_safe_source(alloc: Global, url: &str) -> Result<bool, AllocError>
    ensures { IfOk result (λ safe. safe ≡ is_safe_source url.now) }
{
    Ok(match scheme(alloc, url.as_bytes())? {
        None => true,
        Some(scheme) => is_image_scheme(&scheme),
    })
}

/// Whether it is a scheme of links.
fn is_link_scheme(scheme: &[u8]) -> bool
    ensures { result ≡ has_none_or link_schemes (Some scheme.now) }
{
    scheme == b"http".as_slice()
        || scheme == b"https".as_slice()
        || scheme == b"mailto".as_slice()
        || scheme == b"irc".as_slice()
        || scheme == b"ircs".as_slice()
        || scheme == b"xmpp".as_slice()
}

/// Whether it is a scheme of images.
fn is_image_scheme(scheme: &[u8]) -> bool
    ensures { result ≡ has_none_or image_schemes (Some scheme.now) }
{
    scheme == b"http".as_slice() || scheme == b"https".as_slice()
}

/// Returns the scheme of an address in lower case, or none if it is relative.
fn scheme(alloc: Global, url: &[u8]) -> Result<Option<Vec<u8>>, AllocError>
    ensures { IfOk result (λ found. option_map (λ bytes. bytes.items) found ≡ scheme url.now) }
{
    let mut rest = url;
    while let Some((first, after)) = rest.split_first() {
        let byte = *first;
        rest = after;
        if byte > b' ' {
            if is_letter(byte) {
                return scheme_from(alloc, lower(byte), rest);
            }
            return Ok(None);
        }
    }
    Ok(None)
}

/// Returns the scheme that begins with this letter and continues with this text.
fn scheme_from(alloc: Global, letter: u8, url: &[u8]) -> Result<Option<Vec<u8>>, AllocError>
    ensures { IfOk result (λ found. option_map (λ bytes. bytes.items) found ≡ scheme_from (letter ∷ []) url.now) }
{
    let mut read = Vec::new(alloc);
    read.push(letter)?;
    let mut rest = url;
    while let Some((first, after)) = rest.split_first() {
        let byte = *first;
        rest = after;
        if !is_taken_out(byte) {
            if is_scheme_byte(byte) {
                read.push(lower(byte))?;
            } else if byte == b':' {
                return Ok(Some(read));
            } else {
                return Ok(None);
            }
        }
    }
    Ok(None)
}

/// Whether it is an ASCII letter.
fn is_letter(byte: u8) -> bool
    ensures { result ≡ is_letter byte }
{
    (b'A' <= byte && byte <= b'Z') || (b'a' <= byte && byte <= b'z')
}

/// Whether it may occur in a scheme after its first byte.
fn is_scheme_byte(byte: u8) -> bool
    ensures { result ≡ is_scheme_byte byte }
{
    is_letter(byte)
        || (b'0' <= byte && byte <= b'9')
        || byte == b'+'
        || byte == b'-'
        || byte == b'.'
}

/// Whether browsers remove it from an address.
fn is_taken_out(byte: u8) -> bool
    ensures { result ≡ is_taken_out byte }
{
    byte == b'\t' || byte == b'\n' || byte == b'\r'
}

/// Returns a letter in lower case.
pub(crate) fn lower(byte: u8) -> u8
    ensures { result ≡ lower byte }
{
    if b'A' <= byte && byte <= b'Z' {
        byte + 32
    } else {
        byte
    }
}

/// Returns an address as it is written in a page: bytes that an address may not contain are
/// percent-encoded, as in CommonMark's examples.
///
/// The only error is that memory ran out. `a b%20ü` becomes `a%20b%20%C3%BC`.
pub fn encoded(alloc: Global, url: &str) -> Result<String, AllocError>
    ensures { IfOk result (λ text. string_bytes text ≡ encoded url.now) }
{
    let bytes = url.as_bytes();
    let mut out = String::new(alloc);
    for at in 0..bytes.len() {
        push_percent(&mut out, bytes[at])?;
    }
    Ok(out)
}

/// Appends the percent encoding of a byte in an address.
#[tactic(auto, unfolding(crate::specs::Urls::percent))]
fn push_percent(out: &mut String, byte: u8) -> Result<(), AllocError>
    ensures { OnOk result (string_bytes out.new ≡ string_bytes out.old ++ percent byte) }
{
    if is_url_byte(byte) {
        return out.push(byte as char);
    }
    out.push_str("%")?;
    out.push(upper_digit(byte / 16))?;
    out.push(upper_digit(byte % 16))
}

/// Whether a byte is unchanged in an address.
fn is_url_byte(byte: u8) -> bool
    ensures is { result ≡ is_url_byte byte }
    ensures ascii { IsTrue result → byte < 128 }
{
    byte == b'!'
        || (b'#' <= byte && byte <= b';')
        || byte == b'='
        || (b'?' <= byte && byte <= b'Z')
        || byte == b'_'
        || (b'a' <= byte && byte <= b'z')
        || byte == b'~'
}

/// Returns a hexadecimal digit, in upper case.
fn upper_digit(value: u8) -> char
    requires { value < 16 }
    ensures { result ≡ upper_digit value }
{
    if value <= 9 {
        (b'0' + value) as char
    } else {
        (55 + value) as char
    }
}
