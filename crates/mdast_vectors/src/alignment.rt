//! How the columns of a table are aligned.

use crate::expect::holds;
use crate::outline::spelled;
use markdown_nodes::event::{Event, Name, span_begins};
use markdown_nodes::infer::gfm_table_align;
use markdown_nodes::mdast::AlignKind;
use std::alloc::{AllocError, Global};
use std::process::Abort;

const TABLE: (usize, Name) = (0, Name::GfmTable);

const ROW: (usize, Name) = (1, Name::GfmTableDelimiterRow);

const VALUE: (usize, Name) = (2, Name::GfmTableDelimiterCellValue);

const COLON: (usize, Name) = (3, Name::GfmTableDelimiterMarker);

const LINE: (usize, Name) = (3, Name::GfmTableDelimiterFiller);

/// Outlines that begin with a table, and how its columns are aligned: by the colons of each cell of
/// its own first row, and not at all if it has none.
pub static TABLES: [(&[(usize, Name)], &[AlignKind]); 3] = [
    (
        &[
            TABLE, ROW, VALUE, LINE, VALUE, COLON, LINE, VALUE, LINE, COLON, VALUE, COLON, LINE,
            COLON, VALUE, COLON, VALUE,
        ],
        &[
            AlignKind::None,
            AlignKind::Left,
            AlignKind::Right,
            AlignKind::Center,
            AlignKind::Center,
            AlignKind::None,
        ],
    ),
    (&[TABLE, TABLE, ROW, VALUE], &[]),
    (
        &[TABLE, ROW, VALUE, COLON, ROW, VALUE, LINE, VALUE, LINE],
        &[AlignKind::Center],
    ),
];

/// Returns how the columns of the table that begins at this index are aligned, if one begins there.
pub fn table_align(
    alloc: Global,
    events: &[Event],
    index: usize,
) -> Result<Option<Vec<AlignKind>>, AllocError> {
    let Some(_) = span_begins(alloc, events, index)? else {
        return Ok(None);
    };
    match events.get(index) {
        Some(
            Event {
                name: Name::GfmTable,
                ..
            },
        ) => { Ok(Some(gfm_table_align(alloc, events, index)?)) }
        _ => Ok(None),
    }
}

/// Expects the table of an outline to be aligned like this.
fn is_aligned(
    rt: &impl Abort,
    alloc: Global,
    outline: &[(usize, Name)],
    want: &[AlignKind],
) -> Result<(), AllocError> {
    let events = spelled(alloc, outline)?;
    let kinds = table_align(alloc, events.as_slice(), 0)?;
    holds(rt, kinds.as_deref() == Some(want));
    Ok(())
}

#[test]
fn colons_in_its_first_row_align_a_table(rt: HostRuntime) -> Result<(), AllocError> {
    for (outline, want) in &TABLES {
        is_aligned(&rt, rt.alloc(), outline, want)?;
    }
    Ok(())
}
