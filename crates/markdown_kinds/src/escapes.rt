//! The characters beyond ASCII in the fields of a node that std's Debug writes as Unicode escapes.
//! The only error is that memory ran out.

use std::alloc::AllocError;
use std::collections::BTreeSet;

/// Adds those in a text and in two optional texts.
///
/// For a URL, a title and none they are those in the URL and in the title.
pub fn add_texts(
    text: &str,
    first: &Option<String>,
    second: &Option<String>,
    escapes: &mut BTreeSet<char>,
) -> Result<(), AllocError> {
    add_text(text, escapes)?;
    add_text(or_empty(first), escapes)?;
    add_text(or_empty(second), escapes)
}

/// Returns the text, or an empty one if there is none.
fn or_empty(text: &Option<String>) -> &str {
    text.as_deref().unwrap_or("")
}

/// Adds those in a text.
///
/// The text `é` has none, since it is written as it is; a text of U+FEFF has one.
pub fn add_text(text: &str, escapes: &mut BTreeSet<char>) -> Result<(), AllocError> {
    if text.is_ascii() {
        return Ok(());
    }
    for c in text.chars() {
        if !c.is_ascii() && c.escape_debug().len() > 1 {
            escapes.insert(c)?;
        }
    }
    Ok(())
}
