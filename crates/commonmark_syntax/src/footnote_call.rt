//! Footnote calls (GFM).

ghost use Rattle.std.specs.Prelude.{◌≡◌, true, false};
ghost use Rattle.commonmark_syntax.specs.Inlines.{footnote_call};
ghost use Rattle.commonmark_syntax.specs.Language.{Matches};
ghost use Rattle.commonmark_syntax.specs.Reading.{Reading};

use crate::footnote_label::past_text;
use crate::reading::{past_byte, past_word};

/// Whether a text is a footnote call (GFM): `[^`, the text of a label, and `]`.
///
/// It is true for `[^a]`.
pub fn is_call(text: &[u8]) -> bool
    ensures yes { result ≡ true → Matches footnote_call text.now }
    ensures no { result ≡ false → Matches footnote_call text.now → ⊥ }
{
    match past(text) {
        Some(rest) => rest.is_empty(),
        None => false,
    }
}

/// Returns the text after a footnote call.
fn past(text: &[u8]) -> Option<&[u8]>
    ensures { Reading footnote_call text.now (λ rest. rest.now) result }
{
    past_byte(past_text(past_word(text, b"[^")?)?, b']')
}
