//! Texts without their hidden bytes.

ghost use Rattle.std.specs.Prelude.{◌≡◌, ◌&&◌, IfOk, false, get_or, nat_lt, string_bytes};
ghost use Rattle.markdown_grammar.specs.Hidden.{visible};

use crate::slice::flags_after;
use std::alloc::{AllocError, Global};

/// Returns a text without its hidden bytes. A flag for each byte says which are hidden; only ASCII
/// can be hidden. The only error is that memory ran out.
///
/// With flags whose second is set, `a>b` is `ab`.
pub fn visible_text(alloc: Global, text: &str, hidden: &[bool]) -> Result<String, AllocError>
    ensures { IfOk result (λ made. string_bytes made ≡ visible hidden.now text.now) }
{
    let mut made = String::new(alloc);
    let mut flags = hidden;
    for character in text.chars() {
        if !is_hidden(flags, character) {
            made.push(character)?;
        }
        flags = flags_after(flags, character.len_utf8());
    }
    Ok(made)
}

/// Whether a character with the first of these flags is hidden.
fn is_hidden(flags: &[bool], character: char) -> bool
    ensures { result ≡ (get_or flags.now 0 false && nat_lt character 128) }
{
    matches!(flags, [true, ..]) && character.is_ascii()
}
