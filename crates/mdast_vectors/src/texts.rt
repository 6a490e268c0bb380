//! The results of the calls on texts.

use crate::expect::{same, says};
use byte_masks::{first_of, places};
use markdown_nodes::decimal::{push_decimal, put_decimal, put_text};
use markdown_nodes::search::{find_control, first_below, first_equal};
use markdown_nodes::text::{line_endings_to_spaces, normalize_identifier, raw_text, trim_eol};
use std::alloc::{AllocError, Global};

/// A value, and the expected text.
type Case = (&'static str, &'static str);

/// A value, whether the line endings at its start and at its end are removed, and the expected
/// text.
static TRIMMED: [(&str, bool, bool, &str); 3] = [
    ("\na\n", true, true, "a"),
    ("\r\n", true, true, ""),
    ("\na\n", false, true, "\na"),
];

#[test]
fn one_line_ending_goes(rt: HostRuntime) {
    for (value, at_start, at_end, want) in &TRIMMED {
        same(&rt, trim_eol(value, *at_start, *at_end), *want);
    }
}

/// Values of inline code, whether they are in a table, and the expected text.
static RAW: [(&str, bool, &str); 8] = [
    (" a ", false, "a"),
    ("   ", false, "   "),
    (" a", false, " a"),
    ("  ", false, "  "),
    ("  a ", false, " a"),
    ("a\\|b", true, "a|b"),
    ("a\\\\|b", true, "a\\|b"),
    (" \\| ", true, "|"),
];

#[test]
fn padding_goes_once_and_pipes_of_tables_lose_their_escape(
    rt: HostRuntime,
) -> Result<(), AllocError> {
    for (value, in_table, want) in &RAW {
        says(&rt, raw_text(rt.alloc(), value, *in_table), want)?;
    }
    Ok(())
}

static ENDED: [Case; 3] = [("a\r\n\rb", "a  b"), ("\r\n", " "), ("", "")];

#[test]
fn line_endings_become_spaces(rt: HostRuntime) -> Result<(), AllocError> {
    for (value, want) in &ENDED {
        says(&rt, line_endings_to_spaces(rt.alloc(), value), want)?;
    }
    Ok(())
}

static INLINE: [Case; 4] = [
    ("\na\n", "a"),
    ("a\nb", "a b"),
    ("\n\n", "  "),
    ("\r\n", " "),
];

/// Returns the text of inline code.
fn inline_code(alloc: Global, value: &str) -> Result<String, AllocError> {
    let spaced = line_endings_to_spaces(alloc, value)?;
    raw_text(alloc, spaced.as_str(), false)
}

// Inline code: its line endings become spaces before its padding is removed.
#[test]
fn inline_code_is_one_line(rt: HostRuntime) -> Result<(), AllocError> {
    for (value, want) in &INLINE {
        says(&rt, inline_code(rt.alloc(), value), want)?;
    }
    Ok(())
}

static IDENTIFIED: [Case; 4] = [("\na\t\tB\r", "a b"), (" \n", ""), ("ẞ", "ss"), ("ß", "ss")];

#[test]
fn identifiers_are_normal(rt: HostRuntime) -> Result<(), AllocError> {
    for (value, want) in &IDENTIFIED {
        says(&rt, normalize_identifier(rt.alloc(), value), want)?;
    }
    Ok(())
}

static NUMBERED: [(usize, &str); 5] = [
    (0, "a0"),
    (9, "a9"),
    (10, "a10"),
    (4096, "a4096"),
    (usize::MAX, "a18446744073709551615"),
];

/// Returns the letter `a` and the digits of a number.
fn numbered(alloc: Global, number: usize) -> Result<String, AllocError> {
    let mut text = String::from_str(alloc, "a")?;
    push_decimal(&mut text, number)?;
    Ok(text)
}

#[test]
fn numbers_have_their_digits(rt: HostRuntime) -> Result<(), AllocError> {
    for (number, want) in &NUMBERED {
        says(&rt, numbered(rt.alloc(), *number), want)?;
    }
    Ok(())
}

#[test]
fn a_text_is_written_from_its_end(rt: HostRuntime) {
    let mut buffer = [0; 22];
    let end = put_text(&mut buffer, 22, ")");
    let end = put_decimal(&mut buffer, end, 10);
    same(&rt, put_text(&mut buffer, end, "("), 18);
    same(&rt, &buffer[18..], b"(10)".as_slice());
}

static CONTROLLED: [(&str, usize); 5] = [
    ("", 0),
    ("a b", 3),
    ("a\nb", 1),
    ("0123456789abcdef\tg", 16),
    ("0123456789abcdefghij", 20),
];

#[test]
fn the_first_control_character_is_found(rt: HostRuntime) {
    for (text, want) in &CONTROLLED {
        same(&rt, find_control(text.as_bytes()), *want);
    }
}

#[test]
fn sixteen_bytes_are_searched_at_once(rt: HostRuntime) {
    let text = b"01\t3456789abc\"ef";
    same(&rt, first_below(text, b' '), 2);
    same(&rt, first_equal(text, b'"'), 13);
    same(&rt, first_equal(text, b'x'), 16);
}

#[test]
fn sixteen_bytes_have_a_mask(rt: HostRuntime) {
    same(&rt, places(b"a-b-............", b'-'), 10);
    same(&rt, places(b"...............-", b'-'), 1 << 15);
    same(&rt, places(b"a-b-............", b'x'), 0);
    same(&rt, first_of(10), 1);
    same(&rt, first_of(1 << 15), 15);
    same(&rt, first_of(0), 16);
}
