//! Delimiter rows of tables (GFM).

ghost use Rattle.std.specs.Prelude.{◌≡◌, ◌==◌, ◌||◌, ◌<◌, ℕ, false, length, slice_index, true};
ghost use Rattle.std.specs.Str.{IsAscii};
ghost use Rattle.commonmark_syntax.specs.Blocks as blocks;
ghost use Rattle.commonmark_syntax.specs.Language.{Matches, many, one, optional, some, ◌then◌};
ghost use Rattle.commonmark_syntax.specs.Reading.{Reading, read};
ghost use Rattle.commonmark_syntax.specs.Syntax.{byte, is_blank};

use crate::class::{Blank, Hyphen};
use crate::reading::{past_all, past_byte, past_one};

/// Whether the text of a line is the delimiter row of a table: cells of hyphens, with optional
/// colons before and after them, between bars (GFM). Hyphens alone are not a row, since they are an
/// underline.
///
/// It is true for `| - | :-: |`.
pub fn is_row(text: &[u8]) -> bool
    ensures yes { result ≡ true → Matches blocks.delimiter_row text.now }
    ensures no { result ≡ false → Matches blocks.delimiter_row text.now → ⊥ }
    ensures ascii { result ≡ true → IsAscii text.now }
{
    are_cells(text) && has_bar_or_colon(text)
}

/// Whether a text has a bar or a colon.
fn has_bar_or_colon(text: &[u8]) -> bool
    ensures { result ≡ blocks.has_bar_or_colon text.now }
{
    text.iter().any(|byte| matches!(*byte, b':' | b'|'))
}

/// Whether a text consists of cells of a delimiter row.
fn are_cells(text: &[u8]) -> bool
    ensures yes { result ≡ true → Matches blocks.delimiter_cells text.now }
    ensures no { result ≡ false → Matches blocks.delimiter_cells text.now → ⊥ }
{
    match past_cells(text) {
        Some(rest) => rest.is_empty(),
        None => false,
    }
}

/// Returns the text after the cells of a delimiter row, and the bar after them.
fn past_cells(text: &[u8]) -> Option<&[u8]>
    ensures { Reading blocks.delimiter_cells text.now (λ rest. rest.now) result }
{
    let rest = past_cell(past_optional(text, b'|'))?;
    Some(past_last_bar(past_later_cells(rest)))
}

/// Returns the text after a cell of a delimiter row.
fn past_cell(text: &[u8]) -> Option<&[u8]>
    ensures { Reading blocks.delimiter_cell text.now (λ rest. rest.now) result }
{
    let rest = past_delimiter(past_all::<Blank>(text))?;
    Some(past_all::<Blank>(rest))
}

/// Returns the text after hyphens, with the colons before and after them.
fn past_delimiter(text: &[u8]) -> Option<&[u8]>
    ensures { Reading blocks.delimiter text.now (λ rest. rest.now) result }
{
    let rest = past_hyphens(past_optional(text, b':'))?;
    Some(past_optional(rest, b':'))
}

/// Returns the text after hyphens.
fn past_hyphens(text: &[u8]) -> Option<&[u8]>
    ensures { Reading (some (byte 45)) text.now (λ rest. rest.now) result }
{
    let rest = past_one::<Hyphen>(text)?;
    Some(past_all::<Hyphen>(rest))
}

/// Returns the text after all cells that have a bar before them.
#[tactic(auto, using(crate::proofs::Loops::many_done))]
fn past_later_cells(text: &[u8]) -> &[u8]
    ensures { read (many blocks.next_delimiter_cell) text.now ≡ Some result.now }
{
    let mut rest = text;
    'cells: while let Some(tail) = past_next_cell(rest) {
        rest = tail;
    }
    rest
}

/// Returns the text after a bar and a cell.
fn past_next_cell(text: &[u8]) -> Option<&[u8]>
    ensures { Reading blocks.next_delimiter_cell text.now (λ rest. rest.now) result }
{
    past_cell(past_byte(text, b'|')?)
}

/// Returns the text after the bar after the last cell, and the white space after that, if there is
/// one.
fn past_last_bar(text: &[u8]) -> &[u8]
    ensures { read blocks.last_bar text.now ≡ Some result.now }
{
    match past_bar(text) {
        Some(rest) => rest,
        None => text,
    }
}

/// Returns the text after a bar, and white space.
fn past_bar(text: &[u8]) -> Option<&[u8]>
    ensures { Reading (byte 124 then many (one is_blank)) text.now (λ rest. rest.now) result }
{
    let rest = past_byte(text, b'|')?;
    Some(past_all::<Blank>(rest))
}

/// Returns the text after a byte, if it comes first.
fn past_optional(text: &[u8], expected: u8) -> &[u8]
    ensures { read (optional (byte expected)) text.now ≡ Some result.now }
{
    match past_byte(text, expected) {
        Some(rest) => rest,
        None => text,
    }
}
