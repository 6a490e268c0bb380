//! Spaces and tabs (micromark).

ghost use Rattle.std.specs.Prelude.{◌≡◌, ◌≤◌, length, true};
ghost use Rattle.std.specs.Str.{IsAscii};
ghost use Rattle.markdown_flow.specs.Lines.{after_spaces};

use commonmark_syntax::bytes::{after, count_while, is_space_or_tab};

/// Returns the text after the spaces and tabs that it begins with.
///
/// After ` a ` it is `a `.
pub fn after_spaces(text: &[u8]) -> &[u8]
    ensures value { result.now ≡ after_spaces text.now }
    ensures length { length result.now ≤ length text.now }
{
    for (size, byte) in text.iter().enumerate() {
        if !is_space_or_tab(*byte) {
            return after(text, size);
        }
    }
    &[]
}

/// Whether a text contains only spaces and tabs.
///
/// It is true for the empty text.
pub fn is_blank(text: &[u8]) -> bool
    ensures { result ≡ true → IsAscii text.now }
{
    count_while(text, is_space_or_tab) == text.len()
}
