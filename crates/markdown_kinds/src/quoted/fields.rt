//! The fields of a struct that are texts, as Debug writes them.
//!
//! `escapes` has the characters beyond ASCII that are written as Unicode escapes. The only error is
//! that of the writer.

ghost use Rattle.std.specs.Fmt.{WritesOnOk};
ghost use Rattle.std.specs.Prelude.{◌++◌, option_map, string_bytes};
ghost use Rattle.markdown_kinds.specs.Quoted.{members, quoted};
ghost use Rattle.markdown_kinds.specs.TextFields.{association_of, maybe, resource_of};

use crate::quoted::write_quoted;
use std::collections::BTreeSet;
use std::fmt;

/// Writes a field that is a text. Its name is between a comma and a colon.
///
/// For the name `, alt: ` and the text `a` it writes `, alt: "a"`.
pub fn write_text<W: fmt::Write>(
    name: &str,
    text: &String,
    escapes: &BTreeSet<char>,
    f: &mut fmt::Formatter<W>,
) -> fmt::Result
    ensures { WritesOnOk W.write_str_gives f.old result (name.now ++ quoted (members escapes.now) (string_bytes text.now)) f.new }
{
    f.write_str(name)?;
    write_quoted(text.as_str(), escapes, f)
}

/// Writes a field that is an optional text. Its name is between a comma and a colon.
///
/// For the name `, lang: ` and the text `a` it writes `, lang: Some("a")`.
pub fn write_option<W: fmt::Write>(
    name: &str,
    text: &Option<String>,
    escapes: &BTreeSet<char>,
    f: &mut fmt::Formatter<W>,
) -> fmt::Result
    ensures { WritesOnOk W.write_str_gives f.old result (name.now ++ maybe (members escapes.now) (option_map string_bytes text.now)) f.new }
{
    f.write_str(name)?;
    match text {
        Some(text) => {
            f.write_str("Some(")?;
            write_quoted(text.as_str(), escapes, f)?;
            f.write_str(")")
        }
        None => f.write_str("None"),
    }
}

/// Writes the fields of a resource (mdast): a URL and a title.
///
/// For the URL `a` without a title it writes `, url: "a", title: None`.
pub fn write_resource<W: fmt::Write>(
    url: &String,
    title: &Option<String>,
    escapes: &BTreeSet<char>,
    f: &mut fmt::Formatter<W>,
) -> fmt::Result
    ensures { WritesOnOk W.write_str_gives f.old result (resource_of (members escapes.now) url.now title.now) f.new }
{
    write_text(", url: ", url, escapes, f)?;
    write_option(", title: ", title, escapes, f)
}

/// Writes the fields of an association (mdast): an identifier and a label.
///
/// For the identifier `a` without a label it writes `, identifier: "a", label: None`.
pub fn write_association<W: fmt::Write>(
    identifier: &String,
    label: &Option<String>,
    escapes: &BTreeSet<char>,
    f: &mut fmt::Formatter<W>,
) -> fmt::Result
    ensures { WritesOnOk W.write_str_gives f.old result (association_of (members escapes.now) identifier.now label.now) f.new }
{
    write_text(", identifier: ", identifier, escapes, f)?;
    write_option(", label: ", label, escapes, f)
}
