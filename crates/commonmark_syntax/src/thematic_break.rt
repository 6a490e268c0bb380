//! Thematic breaks (CommonMark).

ghost use Rattle.std.specs.Prelude.{◌≡◌, ◌≤◌, ◌<◌, ◌-◌, ◌↔◌, ◌==◌, ℕ, MatchOption, drop, false, filter, length, nat_le, slice_index, true};
ghost use Rattle.commonmark_syntax.specs.Blocks.{has_one_sign, is_break_sign, thematic_break};
ghost use Rattle.commonmark_syntax.specs.Language.{Matches};
ghost use Rattle.commonmark_syntax.specs.Syntax.{is_blank};

use crate::bytes::is_space_or_tab;

/// The smallest number of signs in a thematic break (CommonMark).
const SIGNS_LEAST: usize = 3;

/// Returns the size of the longest end of a line that contains only spaces, tabs and one of the
/// signs of thematic breaks.
///
/// In `- a **` it is 3.
pub fn tail_size(line: &[u8]) -> usize
    ensures within { result ≤ length line.now }
    ensures exact { (n : ℕ) → n ≤ length line.now → has_one_sign (drop (length line.now - n) line.now) ≡ nat_le n result }
    ensures ascii { (k : ℕ) → length line.now - result ≤ k → k < length line.now → slice_index line.now k < 128 }
{
    let mut sign = None;
    for size in 0..line.len() {
        let byte = line[line.len() - size - 1];
        if is_space_or_tab(byte) {
            continue;
        }
        if !is_like(byte, sign) {
            return size;
        }
        sign = Some(byte);
    }
    line.len()
}

/// Whether a byte is the sign that was found already, or any sign if none was found.
fn is_like(byte: u8, sign: Option<u8>) -> bool
    ensures { MatchOption sign (result ≡ is_break_sign byte) (λ c. result ≡ (byte == c)) }
{
    match sign {
        Some(sign) => byte == sign,
        None => is_sign(byte),
    }
}

/// Whether the text of a line is a thematic break, given whether it contains only spaces, tabs and
/// one of the signs. If so, it is one if it has enough of them (CommonMark).
///
/// It is true for `* **`, and false for `**`.
pub fn is_at(text: &[u8], has_one: bool) -> bool
    ensures one { result ≡ true → has_one ≡ true }
    ensures exact { has_one ≡ has_one_sign text.now → (0 < length text.now → is_blank (slice_index text.now 0) ≡ false) → (result ≡ true) ↔ Matches thematic_break text.now }
{
    has_one && has_enough(text)
}

/// Whether a text has enough signs for a thematic break.
fn has_enough(text: &[u8]) -> bool
    ensures { result ≡ nat_le 3 (length (filter is_break_sign text.now)) }
{
    let mut count = 0;
    let mut rest = text;
    'bytes: while let [first, tail @ ..] = rest {
        if is_sign(*first) {
            count += 1;
        }
        if count >= SIGNS_LEAST {
            return true;
        }
        rest = tail;
    }
    false
}

/// Whether a byte is a sign of thematic breaks.
fn is_sign(byte: u8) -> bool
    ensures { result ≡ is_break_sign byte }
{
    matches!(byte, b'*' | b'-' | b'_')
}
