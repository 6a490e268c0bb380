//! The start of the label of a call of a footnote (GFM).

ghost use Rattle.std.specs.Prelude.{◌≡◌, IfSome, true};
ghost use Rattle.markdown_text.specs.Contents.{IsAsciiPart};

use markdown_options::Constructs;

/// Returns the length of the start of the label of a call that a text begins with.
pub fn scan(text: &[u8], constructs: &Constructs) -> Option<usize>
    ensures size { IfSome result (λ size. size ≡ 2) }
    ensures ascii { IfSome result (λ size. IsAsciiPart text.now 0 size) }
    ensures on { IfSome result (λ _. constructs.now.gfm_label_start_footnote ≡ true) }
{
    match text {
        [b'[', b'^', ..] if constructs.gfm_label_start_footnote => Some(2),
        _ => None,
    }
}
