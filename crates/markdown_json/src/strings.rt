//! Texts as JSON strings.

ghost use Rattle.std.specs.Char.{digit_char};
ghost use Rattle.std.specs.Prelude.{◌≡◌, ◌++◌, ◌∷◌, ◌<◌, ◌≤◌, ℕ, [], OnOk, IsFalse, IsTrue, codes, length, slice_index, string_bytes};
ghost use Rattle.markdown_json.specs.Strings.{escape, escaped, string};

use markdown_events::search::{first_below, first_equal};
use std::alloc::AllocError;

/// Appends a text unchanged, like `push_str`, with a contract in bytes. The only error is that
/// memory ran out.
///
/// After `{`, the text `}` makes `{}`.
pub fn push(out: &mut String, text: &str) -> Result<(), AllocError>
    ensures { OnOk result (string_bytes out.new ≡ string_bytes out.old ++ text.now) }
{
    out.push_str(text)
}

/// Appends a text between quotes. The only error is that memory ran out.
///
/// A line feed is written as a backslash and an `n`, so the text stays on one line.
#[tactic(auto, unfolding(crate::specs::Strings::string))]
pub fn push_string(out: &mut String, text: &str) -> Result<(), AllocError>
    ensures { OnOk result (string_bytes out.new ≡ string_bytes out.old ++ string text.now) }
{
    push(out, "\"")?;
    push_escaped(out, text)?;
    push(out, "\"")
}

/// Appends a start, which ends with a quote, and a text with the quote after it. The only error is
/// that memory ran out.
///
/// The start `{"a":"` and the text `b` make `{"a":"b"`.
#[inline(always)]
pub fn push_started(out: &mut String, start: &str, text: &String) -> Result<(), AllocError>
    ensures { OnOk result (string_bytes out.new ≡ string_bytes out.old ++ (start.now ++ (escaped (string_bytes text.now) ++ codes "\""))) }
{
    push(out, start)?;
    push_escaped(out, text.as_str())?;
    push(out, "\"")
}

/// Appends a text as it is written between quotes. Most texts need no escape.
fn push_escaped(out: &mut String, text: &str) -> Result<(), AllocError>
    ensures { OnOk result (string_bytes out.new ≡ string_bytes out.old ++ escaped text.now) }
{
    if plain_size(text.as_bytes()) == text.len() {
        return push(out, text);
    }
    push_fragments(out, text)
}

/// Does what `push_escaped` does. Bytes that need no escape are written as one fragment.
#[inline(never)]
fn push_fragments(out: &mut String, text: &str) -> Result<(), AllocError>
    ensures { OnOk result (string_bytes out.new ≡ string_bytes out.old ++ escaped text.now) }
{
    let mut rest = text;
    'fragments: loop {
        let (plain, after) = rest.split_at(plain_size(rest.as_bytes()));
        out.push_str(plain)?;
        let Some(byte) = after.as_bytes().first() else {
            return Ok(());
        };
        push_escape(out, *byte)?;
        rest = &after[1..];
    }
}

/// Returns how many bytes of a text come before the first one that has an escape. The last 16 bytes
/// are searched together, whichever of them were searched before.
fn plain_size(text: &[u8]) -> usize
    ensures within { result ≤ length text.now }
    ensures plain { (k : ℕ) → k < result → escape (slice_index text.now k) ≡ slice_index text.now k ∷ [] }
    ensures ascii { result < length text.now → slice_index text.now result < 128 }
{
    if text.len() < 16 {
        return plain_size_of_few(text);
    }
    let last = text.len() - 16;
    let mut at = 0;
    while at < last {
        let before = plain_size_of_16(&text[at..]);
        if before < 16 {
            return at + before;
        }
        at += 16;
    }
    last + plain_size_of_16(&text[last..])
}

/// Returns how many of the first 16 bytes of a text come before the first one that has an escape.
#[inline(always)]
fn plain_size_of_16(text: &[u8]) -> usize
    requires { 16 ≤ length text.now }
    ensures most { result ≤ 16 }
    ensures plain { (k : ℕ) → k < result → escape (slice_index text.now k) ≡ slice_index text.now k ∷ [] }
    ensures ascii { result < 16 → slice_index text.now result < 128 }
{
    let control = first_below(text, b' ');
    let quote = first_equal(text, b'"');
    let backslash = first_equal(text, b'\\');
    control.min(quote).min(backslash)
}

/// Does what `plain_size` does, byte by byte.
fn plain_size_of_few(text: &[u8]) -> usize
    ensures within { result ≤ length text.now }
    ensures plain { (k : ℕ) → k < result → escape (slice_index text.now k) ≡ slice_index text.now k ∷ [] }
    ensures ascii { result < length text.now → slice_index text.now result < 128 }
{
    let mut at = 0;
    while at < text.len() && !is_escaped(text[at]) {
        at += 1;
    }
    at
}

/// Whether a byte has an escape: a quote, a backslash or a control character. Small letters come
/// after these three, and most bytes are small letters.
#[tactic(auto, unfolding(crate::specs::Strings::escape))]
fn is_escaped(byte: u8) -> bool
    ensures ascii { IsTrue result → byte < 128 }
    ensures plain { IsFalse result → escape byte ≡ byte ∷ [] }
{
    byte <= b'\\' && (byte < b' ' || byte == b'"' || byte == b'\\')
}

/// Appends the escape of a byte.
#[tactic(auto, unfolding(crate::specs::Strings::escape))]
fn push_escape(out: &mut String, byte: u8) -> Result<(), AllocError>
    requires { byte < 128 }
    ensures { OnOk result (string_bytes out.new ≡ string_bytes out.old ++ escape byte) }
{
    match byte {
        b'"' => push(out, "\\\""),
        b'\\' => push(out, "\\\\"),
        b'\x08' => push(out, "\\b"),
        b'\t' => push(out, "\\t"),
        b'\n' => push(out, "\\n"),
        b'\x0c' => push(out, "\\f"),
        b'\r' => push(out, "\\r"),
        0..32 => {
            push(out, "\\u00")?;
            out.push(hex_digit(byte / 16))?;
            out.push(hex_digit(byte % 16))
        }
        _ => out.push(byte as char),
    }
}

/// Returns a hexadecimal digit, in lower case.
fn hex_digit(value: u8) -> char
    requires { value < 16 }
    ensures { result ≡ digit_char value }
{
    if value < 10 {
        (b'0' + value) as char
    } else {
        (b'a' - 10 + value) as char
    }
}
