//! Ends of HTML blocks (CommonMark).

ghost use Rattle.std.specs.Prelude.{◌≡◌, false, true};
ghost use Rattle.commonmark_syntax.specs.Html.{IsIn, raw_end};
ghost use Rattle.commonmark_syntax.specs.Language.{IsAt, IsNotAt};
ghost use Rattle.commonmark_syntax.specs.Reading.{Reading};
ghost use Rattle.commonmark_syntax.specs.Syntax.{word};

use crate::bytes::after;
use crate::html_start::past_raw_name;
use crate::reading::{past_byte, past_first, past_word};

/// Whether a text contains the closing tag of an element that may contain blank lines.
pub fn has_raw(text: &[u8]) -> bool
    ensures yes { result ≡ true → IsIn raw_end text.now }
    ensures no { result ≡ false → IsIn raw_end text.now → ⊥ }
{
    let mut rest = text;
    'bytes: while !rest.is_empty() {
        if is_raw(rest) {
            return true;
        }
        rest = after(rest, 1);
    }
    false
}

/// Whether a text begins with such a tag.
fn is_raw(text: &[u8]) -> bool
    ensures yes { result ≡ true → IsAt raw_end text.now }
    ensures no { result ≡ false → IsNotAt raw_end text.now }
{
    past_raw(text).is_some()
}

/// Returns the text after such a tag.
fn past_raw(text: &[u8]) -> Option<&[u8]>
    ensures { Reading raw_end text.now (λ rest. rest.now) result }
{
    past_byte(past_raw_name(past_word(text, b"</")?)?, b'>')
}

/// Whether a text contains a word.
pub fn has(text: &[u8], expected: &[u8]) -> bool
    ensures yes { result ≡ true → IsIn (word expected.now) text.now }
    ensures no { result ≡ false → IsIn (word expected.now) text.now → ⊥ }
{
    past_first(text, expected).is_some()
}
