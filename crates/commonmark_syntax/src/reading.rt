//! Reading steps that the constructs share. Each returns the text after what it reads.

ghost use Rattle.std.specs.Prelude.{◌≡◌};
ghost use Rattle.commonmark_syntax.specs.Blocks.{blank_or_end, blank_to_end, begins_more, none_to_end, run};
ghost use Rattle.commonmark_syntax.specs.Language.{all, at_most, many, one, optional, through, ◌then◌};
ghost use Rattle.commonmark_syntax.specs.Reading.{Reading, find, read};
ghost use Rattle.commonmark_syntax.specs.Syntax.{blanks, byte, character, new_line, some_blanks, word};

use crate::bytes::{after, has_byte, has_more, is_space_or_tab, run_length};
use crate::class::{Blank, Class, PlainClass};
use crate::search::plain_length;

/// Returns the text after a byte.
pub fn past_byte(text: &[u8], expected: u8) -> Option<&[u8]>
    ensures { Reading (byte expected) text.now (λ rest. rest.now) result }
{
    match text {
        [first, rest @ ..] if *first == expected => Some(rest),
        _ => None,
    }
}

/// Returns the text after a byte of a class.
pub fn past_one<C: Class>(text: &[u8]) -> Option<&[u8]>
    ensures { Reading (one C.class) text.now (λ rest. rest.now) result }
{
    match text {
        [first, rest @ ..] if C::has(*first) => Some(rest),
        _ => None,
    }
}

/// Returns the text after the bytes of a class that come first. There may be none.
#[tactic(auto, using(crate::proofs::Counts::many_counted))]
pub fn past_all<C: Class>(text: &[u8]) -> &[u8]
    ensures { read (many (one C.class)) text.now ≡ Some result.now }
{
    for (size, byte) in text.iter().enumerate() {
        if !C::has(*byte) {
            return after(text, size);
        }
    }
    after(text, text.len())
}

/// Returns the text after all the bytes of a class that come first. There may be none.
#[tactic(auto, using(crate::proofs::Loops::many_is_all))]
pub fn past_every<C: Class>(text: &[u8]) -> &[u8]
    ensures { read (all C.class) text.now ≡ Some result.now }
{
    past_all::<C>(text)
}

/// Returns the text after the bytes of a class that come first, but at most `most` of them.
#[tactic(auto, using(crate::proofs::Counts::one_fewer, crate::proofs::Counts::none_more))]
pub fn past_at_most<C: Class>(text: &[u8], most: usize) -> &[u8]
    ensures { read (at_most most (one C.class)) text.now ≡ Some result.now }
{
    let mut rest = text;
    let mut left = most;
    'bytes: while left > 0 {
        match past_one::<C>(rest) {
            Some(tail) => rest = tail,
            None => break,
        }
        left -= 1;
    }
    rest
}

/// Returns the text after a word.
pub fn past_word<'a>(text: &'a [u8], expected: &[u8]) -> Option<&'a [u8]>
    ensures { Reading (word expected.now) text.now (λ rest. rest.now) result }
{
    text.strip_prefix(expected)
}

/// Returns the text after the first occurrence of a word.
#[tactic(auto, using(crate::proofs::Words::found_here, crate::proofs::Words::found_later))]
pub fn past_first<'a>(text: &'a [u8], expected: &[u8]) -> Option<&'a [u8]>
    ensures { Reading (through expected.now) text.now (λ rest. rest.now) result }
{
    let mut rest = text;
    'bytes: loop {
        if let Some(found) = past_word(rest, expected) {
            return Some(found);
        }
        let (_, tail) = rest.split_first()?;
        rest = tail;
    }
}

/// Returns the text after spaces, tabs, and up to one line ending. There may be none (CommonMark).
pub fn past_blanks(text: &[u8]) -> &[u8]
    ensures { read blanks text.now ≡ Some result.now }
{
    past_optional_line(past_all::<Blank>(text))
}

/// Returns the text after spaces, tabs, and up to one line ending (CommonMark).
pub fn past_some_blanks(text: &[u8]) -> Option<&[u8]>
    ensures { Reading some_blanks text.now (λ rest. rest.now) result }
{
    match past_one::<Blank>(text) {
        Some(rest) => Some(past_optional_line(past_all::<Blank>(rest))),
        None => past_new_line(text),
    }
}

/// Returns the text after a line ending, with the spaces and tabs after it, if there is one.
fn past_optional_line(text: &[u8]) -> &[u8]
    ensures { read (optional new_line) text.now ≡ Some result.now }
{
    match past_new_line(text) {
        Some(rest) => rest,
        None => text,
    }
}

/// Returns the text after a line ending, with the spaces and tabs after it.
fn past_new_line(text: &[u8]) -> Option<&[u8]>
    ensures { Reading new_line text.now (λ rest. rest.now) result }
{
    let rest = past_byte(text, b'\n')?;
    Some(past_all::<Blank>(rest))
}

/// Returns the text after the characters that come first. There may be none. A backslash escapes a
/// byte of one class, and the bytes of another class stand for themselves.
#[tactic(auto, using(crate::proofs::Loops::many_done))]
pub fn past_characters<T: Class, C: PlainClass>(text: &[u8]) -> &[u8]
    ensures { read (many (character T.class C.class)) text.now ≡ Some result.now }
{
    let mut rest = text;
    'characters: while let Some(tail) = past_character::<T, C>(rest) {
        rest = after(tail, plain_length::<C>(tail));
    }
    rest
}

/// Returns the text after such a character.
fn past_character<T: Class, C: Class>(text: &[u8]) -> Option<&[u8]>
    ensures { Reading (character T.class C.class) text.now (λ rest. rest.now) result }
{
    if let Some(rest) = past_escape::<T>(text) {
        return Some(rest);
    }
    past_one::<C>(text)
}

/// Returns the text after a backslash and a byte of a class.
fn past_escape<T: Class>(text: &[u8]) -> Option<&[u8]>
    ensures { Reading (byte 92 then one T.class) text.now (λ rest. rest.now) result }
{
    past_one::<T>(past_byte(text, b'\\')?)
}

/// Returns the text after a run of a byte, if it has at least `least` bytes.
#[tactic(auto, using(crate::proofs::Runs::run_counted, crate::proofs::Runs::run_short))]
pub fn past_run(text: &[u8], of: u8, least: usize) -> Option<&[u8]>
    ensures { Reading (run least of) text.now (λ rest. rest.now) result }
{
    let size = run_length(text, of);
    if size < least {
        return None;
    }
    Some(after(text, size))
}

/// Returns the text, if it contains only spaces and tabs.
pub fn past_blank_to_end(text: &[u8]) -> Option<&[u8]>
    ensures { Reading blank_to_end text.now (λ rest. rest.now) result }
{
    if has_more(text) { None } else { Some(text) }
}

/// Returns the text, if it is empty, or begins with a space or a tab.
pub fn past_blank_or_end(text: &[u8]) -> Option<&[u8]>
    ensures { Reading blank_or_end text.now (λ rest. rest.now) result }
{
    if begins_more(text) { None } else { Some(text) }
}

/// Returns the text, if it does not contain a byte.
pub fn past_none_to_end(text: &[u8], of: u8) -> Option<&[u8]>
    ensures { Reading (none_to_end of) text.now (λ rest. rest.now) result }
{
    if has_byte(text, of) { None } else { Some(text) }
}

/// Whether a text begins with a byte other than a space or a tab.
fn begins_more(text: &[u8]) -> bool
    ensures { result ≡ begins_more text.now }
{
    match text {
        [first, ..] => !is_space_or_tab(*first),
        [] => false,
    }
}
