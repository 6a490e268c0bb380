//! The start of the label of a link (CommonMark).

ghost use Rattle.std.specs.Prelude.{◌≡◌, IfSome, true};
ghost use Rattle.markdown_text.specs.Contents.{IsAsciiPart};

use markdown_options::Constructs;

/// Returns the length of the start of the label of a link that a text begins with.
pub fn scan(text: &[u8], constructs: &Constructs) -> Option<usize>
    ensures size { IfSome result (λ size. size ≡ 1) }
    ensures ascii { IfSome result (λ size. IsAsciiPart text.now 0 size) }
    ensures on { IfSome result (λ _. constructs.now.label_start_link ≡ true) }
{
    match text {
        [b'[', ..] if constructs.label_start_link => Some(1),
        _ => None,
    }
}
