//! The kind of the character before or after a run of delimiters (CommonMark).

ghost use Rattle.std.specs.Prelude.{◌≡◌, ◌++◌, ◌+◌, ◌≤◌, [], ℕ, List, Some};
ghost use Rattle.std.specs.Char.{IsScalar, encode_utf8};
ghost use Rattle.std.specs.Str.{continuation_len};
ghost use Rattle.markdown_attention.specs.Flanking.{ascii_kind, category_kind, kind_of};
ghost use Rattle.markdown_attention.specs.declared.character_kind.CharacterKind.TheVariants.{Whitespace};

use commonmark_syntax::bytes::{after, is_continuation};
use std::str;
use ucd_category::{GeneralCategory, GeneralCategoryGroup};

/// What a character is to the run of delimiters beside it.
#[derive(Clone, Copy, PartialEq, Eq, Debug)]
pub enum CharacterKind {
    /// Unicode whitespace, or no character at all: the start or the end of the text.
    Whitespace,
    /// Unicode punctuation: the categories P and S.
    Punctuation,
    /// Any other.
    Other,
}

/// Returns the kind of the character that bytes end with. If they end with no character, it is
/// `Other`.
///
/// For `a b` it is [`CharacterKind::Other`].
pub fn kind_before(bytes: &[u8]) -> CharacterKind
    ensures none { bytes.now ≡ [] → result ≡ Whitespace }
    ensures character { (front : List ℕ) → (c : ℕ) → IsScalar c → bytes.now ≡ front ++ encode_utf8 c → result ≡ kind_of c }
{
    kind_after(last_character(bytes))
}

/// Returns the kind of the character that bytes begin with. If they begin with no character, it is
/// `Other`.
///
/// For `- a` it is [`CharacterKind::Punctuation`].
pub fn kind_after(bytes: &[u8]) -> CharacterKind
    ensures none { bytes.now ≡ [] → result ≡ Whitespace }
    ensures character { (c : ℕ) → (rest : List ℕ) → IsScalar c → bytes.now ≡ encode_utf8 c ++ rest → result ≡ kind_of c }
{
    match bytes.first() {
        None => CharacterKind::Whitespace,
        Some(first) if first.is_ascii() => ascii_kind(*first),
        Some(_) => character_kind(first_character(bytes)),
    }
}

/// Returns the kind of an ASCII character. U+0000 is read as U+FFFD, which is a symbol
/// (CommonMark).
fn ascii_kind(byte: u8) -> CharacterKind
    ensures { result ≡ ascii_kind byte }
{
    match byte {
        0 => CharacterKind::Punctuation,
        b'\t' | b'\n' | 0x0C | b'\r' | b' ' => CharacterKind::Whitespace,
        _ if byte.is_ascii_punctuation() => CharacterKind::Punctuation,
        _ => CharacterKind::Other,
    }
}

/// Returns the kind of a character beyond ASCII. Bytes that are not a character have the kind
/// `Other`.
fn character_kind(character: Option<char>) -> CharacterKind
    ensures { (c : ℕ) → character ≡ Some c → 128 ≤ c → result ≡ kind_of c }
{
    match character {
        Some(character) => category_kind(GeneralCategory::for_char(character)),
        None => CharacterKind::Other,
    }
}

/// Returns the kind of the characters of a category.
fn category_kind(category: GeneralCategory) -> CharacterKind
    ensures { result ≡ category_kind category }
{
    if category == GeneralCategory::SpaceSeparator {
        CharacterKind::Whitespace
    } else if GeneralCategoryGroup::Punctuation.contains(category)
        || GeneralCategoryGroup::Symbol.contains(category)
    {
        CharacterKind::Punctuation
    } else {
        CharacterKind::Other
    }
}

/// Returns the character that bytes begin with.
fn first_character(bytes: &[u8]) -> Option<char>
    ensures { (c : ℕ) → (rest : List ℕ) → IsScalar c → bytes.now ≡ encode_utf8 c ++ rest → result ≡ Some c }
{
    let size = character_size(*bytes.first()?);
    match str::from_utf8(bytes.get(..size)?) {
        Ok(text) => text.chars().next(),
        Err(_) => None,
    }
}

/// Returns how many bytes a character has that begins with this one.
fn character_size(first: u8) -> usize
    ensures { result ≡ 1 + continuation_len first }
{
    match first {
        0..=0x7F => 1,
        0x80..=0xDF => 2,
        0xE0..=0xEF => 3,
        _ => 4,
    }
}

/// The greatest number of bytes in a UTF-8 character.
const BYTES_MOST: usize = 4;

/// Returns the bytes of the character that bytes end with, or no bytes if they end with no
/// character.
fn last_character(bytes: &[u8]) -> &[u8]
    ensures none { bytes.now ≡ [] → result.now ≡ [] }
    ensures character { (front : List ℕ) → (c : ℕ) → IsScalar c → bytes.now ≡ front ++ encode_utf8 c → result.now ≡ encode_utf8 c }
{
    for later in 0..bytes.len().min(BYTES_MOST) {
        let start = bytes.len() - later - 1;
        if !is_continuation(bytes[start]) {
            return after(bytes, start);
        }
    }
    &[]
}
