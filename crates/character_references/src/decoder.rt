//! Decoders of character references: that of the programs, and one that knows nothing.

ghost use Rattle.std.specs.Prelude.{◌≡◌, ◌^◌, ◌≤◌, None, Some, IfOk, string_bytes};
ghost use Rattle.std.specs.Char.{encode_utf8};
ghost use Rattle.character_references.specs.Decoder.{
  decoded,
  character_of,
  named_character,
  numbered_character,
  number_of,
  valid_character,
};

use crate::references::References;
use std::alloc::{AllocError, Global};

/// The decoder of the programs. It knows the names `amp`, `lt`, `gt` and `quot`, and numbers of up
/// to seven decimal or six hexadecimal digits, as in CommonMark.
///
/// `Decoder.decode(alloc, "amp", b'&')` returns `&`.
#[derive(Clone, Copy, PartialEq, Eq, Debug)]
pub struct Decoder;

impl References for Decoder {
    ghost text = { λ _ value marker. decoded value marker };

    #[tactic(auto, unfolding(crate::specs::Decoder::decoded))]
    fn decode(&self, alloc: Global, value: &str, marker: u8) -> Result<Option<String>, AllocError> {
        match character(value, marker) {
            Some(character) => {
                let text = text(alloc, character)?;
                Ok(Some(text))
            }
            None => Ok(None),
        }
    }
}

/// The decoder that knows nothing. With it, a list of events that has a character reference with a
/// value is refused by `reference-unknown`.
///
/// `NoReferences.decode(alloc, "amp", b'&')` returns `None`.
#[derive(Clone, Copy, PartialEq, Eq, Debug)]
pub struct NoReferences;

impl References for NoReferences {
    ghost text = { λ _ _ _. None };

    fn decode(
        &self,
        _alloc: Global,
        _value: &str,
        _marker: u8,
    ) -> Result<Option<String>, AllocError> {
        Ok(None)
    }
}

/// Returns a text of one character.
fn text(alloc: Global, character: char) -> Result<String, AllocError>
    ensures { IfOk result (λ text. string_bytes text ≡ encode_utf8 character) }
{
    let mut text = String::new(alloc);
    text.push(character)?;
    Ok(text)
}

/// Returns the character of a value: of a name after `&`, of decimal digits after `#`, of
/// hexadecimal ones after `x`.
#[tactic(auto, unfolding(crate::specs::Decoder::character_of))]
fn character(value: &str, marker: u8) -> Option<char>
    ensures { result ≡ character_of value.now marker }
{
    match marker {
        b'&' => named(value),
        b'#' => numbered(value, 10, 7),
        b'x' => numbered(value, 16, 6),
        _ => None,
    }
}

/// Returns the character of a name.
#[tactic(auto, unfolding(crate::specs::Decoder::named_character))]
fn named(name: &str) -> Option<char>
    ensures { result ≡ named_character name.now }
{
    match name {
        "amp" => Some('&'),
        "lt" => Some('<'),
        "gt" => Some('>'),
        "quot" => Some('"'),
        _ => None,
    }
}

/// Returns the character of the number written by 1 to `most` digits.
#[tactic(auto, unfolding(crate::specs::Decoder::numbered_character))]
fn numbered(digits: &str, radix: u32, most: usize) -> Option<char>
    requires from { 2 ≤ radix }
    requires to { radix ≤ 36 }
    requires fits { radix ^ most ≤ 2 ^ 32 }
    ensures { result ≡ numbered_character radix most digits.now }
{
    let number = number(digits, radix, most)?;
    Some(valid(number))
}

/// Returns the number written by 1 to `most` digits, with no sign before them.
fn number(digits: &str, radix: u32, most: usize) -> Option<u32>
    requires from { 2 ≤ radix }
    requires to { radix ≤ 36 }
    requires fits { radix ^ most ≤ 2 ^ 32 }
    ensures { result ≡ number_of radix most digits.now }
{
    if digits.len() > most || digits.starts_with('+') {
        return None;
    }
    u32::from_str_radix(digits, radix).ok()
}

/// Returns the character of a number, or U+FFFD for 0 and for a number that no character has.
#[tactic(auto, unfolding(crate::specs::Decoder::valid_character))]
fn valid(number: u32) -> char
    ensures { result ≡ valid_character number }
{
    match char::from_u32(number) {
        Some(character) if character != '\0' => character,
        _ => char::REPLACEMENT_CHARACTER,
    }
}
