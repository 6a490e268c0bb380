//! Texts in a page.

ghost use Rattle.std.specs.Prelude.{◌≡◌, ◌++◌, ◌∷◌, ◌<◌, [], OnOk, IsFalse, IsTrue, string_bytes};
ghost use Rattle.html_text.specs.Escapes.{escape, escaped};

use std::alloc::AllocError;

/// Appends a text to a page. `&`, `<`, `>` and `"` are escaped, so the text may be between tags and
/// between the quotes of an attribute.
///
/// The only error is that memory ran out. `a < "b"` is appended as `a &lt; &quot;b&quot;`.
pub fn push_escaped(out: &mut String, text: &str) -> Result<(), AllocError>
    ensures { OnOk result (string_bytes out.new ≡ string_bytes out.old ++ escaped text.now) }
{
    let bytes = text.as_bytes();
    let mut start = 0;
    // Bytes that need no escape are appended together.
    for at in 0..bytes.len() {
        if is_escaped(bytes[at]) {
            out.push_str(&text[start..at])?;
            push_escape(out, bytes[at])?;
            start = at + 1;
        }
    }
    out.push_str(&text[start..])
}

/// Whether a byte has an escape.
#[tactic(auto, unfolding(crate::specs::Escapes::escape))]
fn is_escaped(byte: u8) -> bool
    ensures ascii { IsTrue result → byte < 128 }
    ensures plain { IsFalse result → escape byte ≡ byte ∷ [] }
{
    byte == b'&' || byte == b'<' || byte == b'>' || byte == b'"'
}

/// Appends the escape of a byte.
#[tactic(auto, unfolding(crate::specs::Escapes::escape))]
fn push_escape(out: &mut String, byte: u8) -> Result<(), AllocError>
    requires { byte < 128 }
    ensures { OnOk result (string_bytes out.new ≡ string_bytes out.old ++ escape byte) }
{
    match byte {
        b'&' => out.push_str("&amp;"),
        b'<' => out.push_str("&lt;"),
        b'>' => out.push_str("&gt;"),
        b'"' => out.push_str("&quot;"),
        _ => out.push(byte as char),
    }
}
