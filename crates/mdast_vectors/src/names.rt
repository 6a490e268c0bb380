//! Rows of names and of points.

use crate::expect::{holds, prints, same};
use markdown_nodes::event::{Name, Point};
use markdown_nodes::unist;
use std::alloc::{AllocError, Global};
use std::process::Abort;

/// Names, and how they are spelled.
static WRITTEN: [(Name, &str); 4] = [
    (Name::Data, "Data"),
    (Name::BlockQuote, "BlockQuote"),
    (Name::LineEnding, "LineEnding"),
    (
        Name::GfmTaskListItemValueChecked,
        "GfmTaskListItemValueChecked",
    ),
];

/// Expects a name to be spelled like this, also by Debug, and to be found by its spelling.
fn is_written(rt: &impl Abort, alloc: Global, name: Name, text: &str) -> Result<(), AllocError> {
    same(rt, name.text(), text);
    holds(rt, Name::find(text) == Some(name));
    holds(rt, Name::find_bytes(text.as_bytes()) == Some(name));
    holds(rt, name.is(name));
    prints(rt, alloc, &name, text)
}

#[test]
fn names_are_written_as_they_are_called(rt: HostRuntime) -> Result<(), AllocError> {
    for (name, text) in &WRITTEN {
        is_written(&rt, rt.alloc(), *name, text)?;
    }
    Ok(())
}

#[test]
fn other_words_are_no_names(rt: HostRuntime) {
    for text in ["Nope", "data", "Data ", ""] {
        holds(&rt, Name::find(text).is_none());
    }
    holds(&rt, Name::find_bytes(b"D\xFFta").is_none());
    holds(&rt, !Name::HtmlFlow.is(Name::HtmlText));
}

/// Names, and whether each is that of a span that may contain no span, a delimiter row, or a
/// delimiter cell value.
static ROLES: [(Name, bool, bool, bool); 6] = [
    (Name::LineEnding, true, false, false),
    (Name::BlankLineEnding, true, false, false),
    (Name::SpaceOrTab, true, false, false),
    (Name::GfmTableDelimiterRow, false, true, false),
    (Name::GfmTableDelimiterCellValue, false, false, true),
    (Name::Paragraph, false, false, false),
];

#[test]
fn roles_say_what_well_formedness_asks(rt: HostRuntime) {
    for (name, nothing, row, value) in &ROLES {
        let role = name.role();
        same(&rt, role.is_sealed(), *nothing);
        same(&rt, role.is_delimiter_row(), *row);
        same(&rt, role.is_delimiter_cell_value(), *value);
    }
}

#[test]
fn points_lose_their_virtual_spaces(rt: HostRuntime) -> Result<(), AllocError> {
    let point = Point {
        line: 1,
        column: 3,
        index: 2,
        vs: 1,
    };
    let place = point.to_unist();
    holds(&rt, place == unist::Point::new(1, 3, 2));
    prints(&rt, rt.alloc(), &place, "1:3 (2)")?;
    let position = unist::Position::new(1, 1, 0, 1, 3, 2);
    prints(&rt, rt.alloc(), &position, "1:1-1:3 (0-2)")
}
