//! Attributes of HTML open tags (CommonMark).

ghost use Rattle.commonmark_syntax.specs.Reading.{Reading};
ghost use Rattle.commonmark_syntax.specs.Syntax as page;

use crate::class::{BeginsAttributeName, OfAttributeName, Unquoted};
use crate::reading::{past_all, past_blanks, past_byte, past_first, past_one, past_some_blanks};

/// Returns the text after an attribute, with the white space before it. If no value comes after the
/// name, the attribute is only the name.
pub(crate) fn past(text: &[u8]) -> Option<&[u8]>
    ensures { Reading page.attribute text.now (λ rest. rest.now) result }
{
    let rest = past_name(past_some_blanks(text)?)?;
    match past_value_specification(rest) {
        Some(tail) => Some(tail),
        None => Some(rest),
    }
}

/// Returns the text after the name of an attribute.
fn past_name(text: &[u8]) -> Option<&[u8]>
    ensures { Reading page.attribute_name text.now (λ rest. rest.now) result }
{
    let rest = past_one::<BeginsAttributeName>(text)?;
    Some(past_all::<OfAttributeName>(rest))
}

/// Returns the text after a value, with the equals sign before it and the white space around that.
fn past_value_specification(text: &[u8]) -> Option<&[u8]>
    ensures { Reading page.value_specification text.now (λ rest. rest.now) result }
{
    let rest = past_byte(past_blanks(text), b'=')?;
    past_value(past_blanks(rest))
}

/// Returns the text after a value, with its quotes if it has them.
fn past_value(text: &[u8]) -> Option<&[u8]>
    ensures { Reading page.attribute_value text.now (λ rest. rest.now) result }
{
    if let Some(rest) = past_unquoted(text) {
        return Some(rest);
    }
    if let Some(rest) = past_quoted(text, b'\'') {
        return Some(rest);
    }
    past_quoted(text, b'"')
}

/// Returns the text after a value without quotes.
fn past_unquoted(text: &[u8]) -> Option<&[u8]>
    ensures { Reading page.unquoted text.now (λ rest. rest.now) result }
{
    let rest = past_one::<Unquoted>(text)?;
    Some(past_all::<Unquoted>(rest))
}

/// Returns the text after a value in quotes.
fn past_quoted(text: &[u8], quote: u8) -> Option<&[u8]>
    ensures { Reading (page.quoted quote) text.now (λ rest. rest.now) result }
{
    past_first(past_byte(text, quote)?, &[quote])
}
