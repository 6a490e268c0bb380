//! What the decoders of character references know. Their texts are those of CommonMark and HTML.

use crate::expect::same;
use character_references::decoder::{Decoder, NoReferences};
use character_references::html::HtmlReferences;
use character_references::named::NamedReferences;
use character_references::references::References;
use std::alloc::AllocError;
use std::process::Abort;

/// A value with its marker, and its text if it has one.
type Known = (&'static str, u8, Option<&'static str>);

/// What the decoder of the programs knows.
static KNOWN: [Known; 28] = [
    ("amp", b'&', Some("&")),
    ("lt", b'&', Some("<")),
    ("gt", b'&', Some(">")),
    ("quot", b'&', Some("\"")),
    ("65", b'#', Some("A")),
    ("0000065", b'#', Some("A")),
    ("41", b'x', Some("A")),
    ("20ac", b'x', Some("\u{20AC}")),
    ("20AC", b'x', Some("\u{20AC}")),
    ("10FFFF", b'x', Some("\u{10FFFF}")),
    ("0", b'#', Some("\u{FFFD}")),
    ("9999999", b'#', Some("\u{FFFD}")),
    ("D800", b'x', Some("\u{FFFD}")),
    ("DFFF", b'x', Some("\u{FFFD}")),
    ("110000", b'x', Some("\u{FFFD}")),
    ("12345678", b'#', None),
    ("1234567", b'x', None),
    ("copy", b'&', None),
    ("AMP", b'&', None),
    ("", b'&', None),
    ("", b'#', None),
    ("", b'x', None),
    ("4g", b'x', None),
    ("4a", b'#', None),
    ("-1", b'#', None),
    ("+1", b'#', None),
    ("65", b';', None),
    ("amp", b'#', None),
];

/// A table of names. One name occurs twice, one has no text, one line has no `=`, and one text
/// contains one.
const TABLE: &str =
    "copy=\u{A9}\nnot a line\ncopy=c\nempty=\nequals==\nNotEqualTilde=\u{2242}\u{338}";

/// What the decoder with that table knows.
static NAMED: [Known; 13] = [
    ("copy", b'&', Some("\u{A9}")),
    ("empty", b'&', Some("")),
    ("equals", b'&', Some("=")),
    ("NotEqualTilde", b'&', Some("\u{2242}\u{338}")),
    ("NewLine", b'&', Some("\n")),
    ("amp", b'&', Some("&")),
    ("65", b'#', Some("A")),
    ("41", b'x', Some("A")),
    ("not a line", b'&', None),
    ("cop", b'&', None),
    ("Copy", b'&', None),
    ("copy", b'#', None),
    ("", b'&', None),
];

/// Stops the test if a decoder differs from a table.
fn expect<R: References, A: Abort + AllocGlobal>(
    rt: &A,
    decoder: &R,
    table: &[Known],
) -> Result<(), AllocError> {
    for (value, marker, text) in table {
        let found = decoder.decode(rt.alloc(), value, *marker)?;
        same(rt, found.as_deref(), *text);
    }
    Ok(())
}

#[test]
fn decodes_names_and_numbers(rt: HostRuntime) -> Result<(), AllocError> {
    expect(&rt, &Decoder, &KNOWN)
}

#[test]
fn decodes_the_names_of_a_table(rt: HostRuntime) -> Result<(), AllocError> {
    expect(&rt, &NamedReferences { table: TABLE }, &NAMED)
}

/// What the decoder of HTML's names knows. The texts are those of the HTML Standard's table.
static HTML: [Known; 12] = [
    ("copy", b'&', Some("\u{A9}")),
    ("amp", b'&', Some("&")),
    ("AMP", b'&', Some("&")),
    ("NewLine", b'&', Some("\n")),
    ("fjlig", b'&', Some("fj")),
    ("NotEqualTilde", b'&', Some("\u{2242}\u{338}")),
    ("ClockwiseContourIntegral", b'&', Some("\u{2232}")),
    ("zwnj", b'&', Some("\u{200C}")),
    ("65", b'#', Some("A")),
    ("Copy", b'&', None),
    ("\u{E9}", b'&', None),
    ("", b'&', None),
];

#[test]
fn decodes_the_names_of_html(rt: HostRuntime) -> Result<(), AllocError> {
    expect(&rt, &HtmlReferences, &HTML)
}

/// What each other decoder knows.
static NOTHING: [Known; 3] = [("amp", b'&', None), ("65", b'#', None), ("41", b'x', None)];

/// A decoder that knows nothing returns nothing, even for what each other one knows.
#[test]
fn decodes_nothing_at_all(rt: HostRuntime) -> Result<(), AllocError> {
    expect(&rt, &NoReferences, &NOTHING)
}
