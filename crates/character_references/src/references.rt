//! What character references stand for.

ghost use Rattle.std.specs.Prelude.{◌≡◌, List, ℕ, Option, option_map, string_bytes, IfOk};

use std::alloc::{AllocError, Global};

/// What the values of character references stand for (CommonMark, entity and numeric character
/// references): a decoder, which the caller provides. That the caller provides it is our choice.
///
/// It is specified by `text`: a text, or none, for each value and marker. Each implementation is
/// proved to return that unless memory runs out.
///
/// For a decoder that knows `&lt;` alone, `text` is `<` for the value `lt` after `&`, and nothing
/// for all others.
pub trait References {
    /// The text that a value and a marker stand for, if they stand for one.
    ghost text: { Self → List ℕ → ℕ → Option (List ℕ) };

    /// Returns the text of a value after the marker `&`, `#` or `x`, or `None` if there is none.
    ///
    /// For HTML's references `decode(alloc, "amp", b'&')` returns `&`. The only error is that
    /// memory ran out.
    fn decode(&self, alloc: Global, value: &str, marker: u8) -> Result<Option<String>, AllocError>
        ensures { IfOk result (λ found. option_map string_bytes found ≡ text self.now value.now marker) };
}
