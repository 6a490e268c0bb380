//! Where the span that begins at an event ends.

use crate::expect::same;
use crate::outline::{enter, exit, spelled};
use markdown_nodes::around::Around;
use markdown_nodes::event::{Event, Name, span_begins};
use std::alloc::{AllocError, Global};
use std::process::Abort;

/// Expects these spans to begin at these indexes.
fn found(
    rt: &impl Abort,
    alloc: Global,
    events: &[Event],
    cases: &[(usize, Option<usize>)],
) -> Result<(), AllocError> {
    for (index, want) in cases {
        same(
            rt,
            (*index, span_begins(alloc, events, *index)?),
            (*index, *want),
        );
    }
    Ok(())
}

/// Outlines, and where the span that begins at an index ends: at its own exit, or nowhere if it
/// contains a span that it may not contain.
static SPANS: [(&[(usize, Name)], &[(usize, Option<usize>)]); 3] = [
    (
        &[(0, Name::Paragraph), (1, Name::Data)],
        &[(0, Some(3)), (1, Some(2)), (2, None), (4, None)],
    ),
    (
        &[(0, Name::BlockQuote), (1, Name::BlockQuote)],
        &[(0, Some(3)), (1, Some(2))],
    ),
    (
        &[(0, Name::LineEnding), (1, Name::Data)],
        &[(0, None), (1, Some(2))],
    ),
];

#[test]
fn a_span_ends_at_its_own_exit(rt: HostRuntime) -> Result<(), AllocError> {
    for (outline, cases) in &SPANS {
        let events = spelled(rt.alloc(), outline)?;
        found(&rt, rt.alloc(), events.as_slice(), cases)?;
    }
    Ok(())
}

#[test]
fn crossed_exits_end_no_span(rt: HostRuntime) -> Result<(), AllocError> {
    let events = [
        enter(Name::Paragraph),
        enter(Name::Data),
        exit(Name::Paragraph),
        exit(Name::Data),
    ];
    found(&rt, rt.alloc(), &events, &[(0, None), (1, None)])
}

#[test]
fn delimiter_rows_and_cell_values_do_not_nest(rt: HostRuntime) {
    let row = Name::GfmTableDelimiterRow.role();
    let value = Name::GfmTableDelimiterCellValue.role();
    let in_row = Around::in_the_open().inside(row);
    let in_value = in_row.inside(value);
    let cases = [
        (Around::in_the_open(), row, true),
        (Around::in_the_open(), value, true),
        (in_row, row, false),
        (in_row, value, true),
        (in_value, row, false),
        (in_value, value, false),
        (in_value, Name::Data.role(), true),
        (in_row.inside(Name::SpaceOrTab.role()), value, false),
    ];
    for (around, role, want) in cases {
        same(&rt, around.allows(role), want);
    }
}
