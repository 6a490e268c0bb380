//! The numbers of ordered lists.

ghost use Rattle.std.specs.Prelude.{◌≡◌, Some, IfSome, is_some};
ghost use Rattle.markdown_grammar.specs.Document.{is_item_number, number};

/// Returns the number written in a list item, which must fit 32 bits, like `start` of a List.
///
/// `item_number("007")` is 7. There is none if the text is empty, if it has a character that is not
/// a digit, such as a sign, or if the number is greater than 4294967295.
pub fn item_number(text: &str) -> Option<u32>
    ensures value { IfSome result (λ n. n ≡ number text.now) }
    ensures variant { is_some result ≡ is_item_number (Some text.now) }
{
    // `parse` would accept a plus sign.
    if text.starts_with('+') {
        return None;
    }
    text.parse::<u32>().ok()
}
