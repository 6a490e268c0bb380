//! The start of the label of an image (CommonMark).

ghost use Rattle.std.specs.Prelude.{◌≡◌, IfSome, true};
ghost use Rattle.markdown_text.specs.Contents.{IsAsciiPart};

use markdown_options::Constructs;

/// Returns the length of the start of the label of an image that a text begins with. If calls of
/// footnotes are on, no image begins before a caret (micromark).
pub fn scan(text: &[u8], constructs: &Constructs) -> Option<usize>
    ensures size { IfSome result (λ size. size ≡ 2) }
    ensures ascii { IfSome result (λ size. IsAsciiPart text.now 0 size) }
    ensures on { IfSome result (λ _. constructs.now.label_start_image ≡ true) }
{
    match text {
        [b'!', b'[', b'^', ..] if constructs.gfm_label_start_footnote => None,
        [b'!', b'[', ..] if constructs.label_start_image => Some(2),
        _ => None,
    }
}
