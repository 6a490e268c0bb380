//! Markers of block quotes (CommonMark).

ghost use Rattle.std.specs.Prelude.{◌≡◌, ◌<◌, drop, false, length, slice_index, true};
ghost use Rattle.commonmark_syntax.specs.Blocks.{block_quote_marker};
ghost use Rattle.commonmark_syntax.specs.Language.{IsNotAt, Leaves};

/// Whether the text of a line begins with the marker of a block quote (CommonMark).
///
/// It is true for `> a`.
pub fn is_at(text: &[u8]) -> bool
    ensures yes { result ≡ true → Leaves block_quote_marker text.now (drop 1 text.now) }
    ensures no { result ≡ false → IsNotAt block_quote_marker text.now }
    ensures some { result ≡ true → 0 < length text.now }
    ensures ascii { result ≡ true → slice_index text.now 0 < 128 }
{
    match text {
        [b'>', ..] => true,
        _ => false,
    }
}
