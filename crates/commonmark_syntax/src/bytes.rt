//! Bytes of a text: which are alike, and how many come in a row.

ghost use Rattle.std.specs.Prelude.{◌≡◌, ◌≢◌, ◌≤◌, ◌<◌, ◌-◌, ◌==◌, ◌||◌, ◌&&◌, ◌+◌, ℕ, true, false, nat_le, drop, length, slice_index, Some, take};
ghost use Rattle.commonmark_syntax.specs.Blocks.{has, has_more, without_last};
ghost use Rattle.commonmark_syntax.specs.Cuts.{IsCut, IsInLine, IsRunOf, IsOfAscii, IsOfLine, is_white_space};
ghost use Rattle.commonmark_syntax.specs.Reading.{read};
ghost use Rattle.commonmark_syntax.specs.Syntax.{blanks, is_blank};

use crate::search::find_byte;

/// Returns how many bytes at the start of a text satisfy `is_such`.
///
/// In `aab` two are the letter `a`.
pub fn count_while<F: Fn(u8) -> bool + Drop>(text: &[u8], is_such: F) -> usize
    requires { F.IsAlwaysCallable is_such }
    ensures most { result ≤ length text.now }
    ensures counted { (k : ℕ) → k < result → F.post is_such (slice_index text.now k) true }
    ensures next { result < length text.now → F.post is_such (slice_index text.now result) false }
    ensures cut { IsOfAscii (F.post is_such) true → IsCut text.now result }
    ensures cut_before { IsOfAscii (F.post is_such) false → IsCut text.now result }
    ensures in_line { IsOfLine (F.post is_such) true → IsInLine text.now result }
{
    for (size, byte) in text.iter().enumerate() {
        if !is_such(*byte) {
            return size;
        }
    }
    text.len()
}

/// Returns how many bytes at the end of a text satisfy `is_such`.
///
/// In `abb` two are the letter `b`.
pub fn count_back<F: Fn(u8) -> bool + Drop>(text: &[u8], is_such: F) -> usize
    requires { F.IsAlwaysCallable is_such }
    ensures most { result ≤ length text.now }
    ensures counted { (k : ℕ) → length text.now - result ≤ k → k < length text.now → F.post is_such (slice_index text.now k) true }
    ensures next { result < length text.now → F.post is_such (slice_index text.now (length text.now - result - 1)) false }
    ensures cut { IsOfAscii (F.post is_such) true → IsCut text.now (length text.now - result) }
    ensures cut_after { IsOfAscii (F.post is_such) false → IsCut text.now (length text.now - result) }
{
    for size in 0..text.len() {
        if !is_such(text[text.len() - size - 1]) {
            return size;
        }
    }
    text.len()
}

/// Returns the length of the run of a byte that a text begins with.
///
/// For the grave accent it is 2 in two grave accents and an `a`.
pub fn run_length(text: &[u8], of: u8) -> usize
    ensures most { result ≤ length text.now }
    ensures run { IsRunOf text.now of result }
    ensures next { result < length text.now → slice_index text.now result ≢ of }
    ensures cut { of < 128 → IsCut text.now result }
    ensures in_line { of ≢ 10 → IsInLine text.now result }
{
    count_while(text, |byte| byte == of)
}

/// Returns the length of the white space that a text begins with: spaces and tabs, with at most one
/// line ending among them (CommonMark).
///
/// It is 2 in a line feed, a space and an `a`.
pub fn white_space_length(text: &[u8]) -> usize
    ensures exact { read blanks text.now ≡ Some (drop result text.now) }
    ensures most { result ≤ length text.now }
    ensures white { (k : ℕ) → k < result → is_white_space (slice_index text.now k) ≡ true }
    ensures feeds { (j : ℕ) → (k : ℕ) → j < k → k < result → slice_index text.now j ≡ 10 → slice_index text.now k ≢ 10 }
    ensures cut { IsCut text.now result }
{
    let size = count_while(text, is_space_or_tab);
    if text.get(size) != Some(&b'\n') {
        return size;
    }
    let feed = size + 1;
    feed + count_while(after(text, feed), is_space_or_tab)
}

/// Returns the rest of a text after `size` bytes. It is empty if the text has fewer.
///
/// After 1 byte of `ab` it is `b`.
pub fn after(text: &[u8], size: usize) -> &[u8]
    ensures length { length result.now ≡ length text.now - size }
    ensures rest { result.now ≡ drop size text.now }
    ensures byte { (k : ℕ) → slice_index result.now k ≡ slice_index text.now (size + k) }
{
    text.get(size..).unwrap_or(&[])
}

/// Whether a byte is a space or a tab.
///
/// It is true for a tab, and false for a line feed.
pub fn is_space_or_tab(byte: u8) -> bool
    ensures { result ≡ ((byte == 32) || (byte == 9)) }
{
    byte == b' ' || byte == b'\t'
}

/// Whether a byte is a space, a tab or a line ending.
///
/// It is true for a line feed.
pub fn is_space_or_line_ending(byte: u8) -> bool
    ensures { result ≡ is_white_space byte }
{
    is_space_or_tab(byte) || byte == b'\n'
}

/// Whether a byte is an ASCII control character. The null character is not one, since it is read as
/// U+FFFD (CommonMark).
///
/// It is true for a tab.
pub fn is_control(byte: u8) -> bool
    ensures { result ≡ ((nat_le 1 byte && nat_le byte 31) || (byte == 127)) }
{
    matches!(byte, 0x01..=0x1F | 0x7F)
}

/// Whether a byte continues a UTF-8 character.
///
/// It is true for the second byte of `é`.
pub fn is_continuation(byte: u8) -> bool
    ensures { result ≡ (nat_le 128 byte && nat_le byte 191) }
{
    matches!(byte, 0x80..=0xBF)
}

/// Returns how many bytes come before the spaces and tabs that a text ends with.
///
/// In ` a ` it is 2.
pub fn trimmed_size(text: &[u8]) -> usize
    ensures within { result ≤ length text.now }
    ensures cut { IsCut text.now result }
    ensures blank { (k : ℕ) → result ≤ k → k < length text.now → is_blank (slice_index text.now k) ≡ true }
    ensures exact { take result text.now ≡ without_last is_blank text.now }
{
    text.len() - count_back(text, is_space_or_tab)
}

/// Whether a text contains anything other than spaces and tabs.
///
/// It is false for a tab.
pub fn has_more(text: &[u8]) -> bool
    ensures { result ≡ has_more text.now }
{
    text.iter().any(|byte| !is_space_or_tab(*byte))
}

/// Whether a byte is in a text.
///
/// The letter `b` is in `ab`.
pub fn has_byte(text: &[u8], of: u8) -> bool
    ensures { result ≡ has of text.now }
{
    find_byte(text, of) < text.len()
}
