//! Searches in the lines of a table, 16 bytes at a time.

ghost use Rattle.std.specs.Int.{bit_at};
ghost use Rattle.std.specs.Prelude.{◌≡◌, ◌+◌, ◌==◌, ◌∷◌, ℕ, ◌<◌, ◌≤◌, cond, false, length, slice_index, true};
ghost use Rattle.character_references.specs.Search.{may_follow};

use byte_masks::{first_of, places};

/// Returns where the first line feed is that a line for a name may follow, or the length of the
/// lines if there is none.
pub(crate) fn find_line(lines: &[u8], name: &[u8]) -> usize
    ensures most { result ≤ length lines.now }
    ensures before { (k : ℕ) → k < result → may_follow name.now lines.now k ≡ false }
    ensures at { result < length lines.now → may_follow name.now lines.now result ≡ true }
{
    let mut at = 0;
    while lines.len() - at > 16 + name.len() {
        let before = find_line_in_16(&lines[at..], name);
        if before < 16 {
            return at + before;
        }
        at += 16;
    }
    at + find_line_in_few(&lines[at..], name)
}

/// Does what `find_line` does, byte by byte.
fn find_line_in_few(lines: &[u8], name: &[u8]) -> usize
    ensures most { result ≤ length lines.now }
    ensures before { (k : ℕ) → k < result → may_follow name.now lines.now k ≡ false }
    ensures at { result < length lines.now → may_follow name.now lines.now result ≡ true }
{
    let mut at = 0;
    while lines.len() - at > 1 + name.len() {
        if may_follow(lines, name, at) {
            return at;
        }
        at += 1;
    }
    lines.len()
}

/// Returns whether a line for a name may follow a place: there is a line feed, and in the line after
/// it the byte before `=` is the last of the name.
fn may_follow(lines: &[u8], name: &[u8], at: usize) -> bool
    requires { at + 1 + length name.now < length lines.now }
    ensures { result ≡ may_follow name.now lines.now at }
{
    lines[at] == b'\n'
        && lines[at + name.len()] == last_byte(name)
        && lines[at + 1 + name.len()] == b'='
}

/// Does what `find_line` does, in the first 16 bytes of the lines. Returns 16 if there is none.
#[inline(always)]
fn find_line_in_16(lines: &[u8], name: &[u8]) -> usize
    requires { 16 + length name.now < length lines.now }
    ensures most { result ≤ 16 }
    ensures before { (k : ℕ) → k < result → may_follow name.now lines.now k ≡ false }
    ensures at { result < 16 → may_follow name.now lines.now result ≡ true }
{
    first_of(lines_in_16(lines, name))
}

/// Returns a number with a bit for each of the first 16 bytes of the lines, which is set where a
/// line for a name may follow.
#[inline(always)]
fn lines_in_16(lines: &[u8], name: &[u8]) -> u64
    requires { 16 + length name.now < length lines.now }
    ensures { (k : ℕ) → k < 16 → bit_at result k ≡ cond (may_follow name.now lines.now k) 1 0 }
{
    let line_feeds = places(lines, b'\n');
    let ends = places(&lines[name.len()..], last_byte(name));
    let equals = places(&lines[1 + name.len()..], b'=');
    line_feeds & ends & equals
}

/// Returns the last byte of a name, or a line feed if it has none.
#[inline(always)]
fn last_byte(name: &[u8]) -> u8
    ensures { result ≡ slice_index (10 ∷ name.now) (length name.now) }
{
    match name {
        [.., last] => *last,
        [] => b'\n',
    }
}
