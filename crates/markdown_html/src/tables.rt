//! The cells of tables.

ghost use Rattle.std.specs.Prelude.{◌≡◌, ◌++◌, OnOk, string_bytes};
ghost use Rattle.markdown_html.specs.Elements.{align_attribute, cell_end, cell_start, empty_cell, empty_cells};
ghost use Rattle.markdown_html.specs.Html.{cell_cost, missing_cells};
ghost use Rattle.markdown_html.specs.Pages.{page_of};
ghost use Rattle.markdown_html.specs.Places.{seen};

use crate::page::Page;
use markdown_nodes::mdast::AlignKind;
use std::alloc::AllocError;

/// Appends the start of a cell in the first of these columns, if there is one.
#[tactic(auto, unfolding(crate::specs::Elements::cell_start))]
pub(crate) fn push_cell_start(
    out: &mut String,
    name: &str,
    columns: Option<&[AlignKind]>,
) -> Result<(), AllocError>
    ensures { OnOk result (string_bytes out.new ≡ string_bytes out.old ++ cell_start name.now (seen columns.entry)) }
{
    let align = match columns {
        None => "",
        Some([]) => return Ok(()),
        Some([first, ..]) => align_attribute(*first),
    };
    out.push_str("<")?;
    out.push_str(name)?;
    out.push_str(align)?;
    out.push_str(">")
}

/// Appends the end of such a cell.
#[tactic(auto, unfolding(crate::specs::Elements::cell_end))]
pub(crate) fn push_cell_end(
    out: &mut String,
    name: &str,
    columns: Option<&[AlignKind]>,
) -> Result<(), AllocError>
    ensures { OnOk result (string_bytes out.new ≡ string_bytes out.old ++ cell_end name.now (seen columns.entry)) }
{
    if let Some([]) = columns {
        return Ok(());
    }
    out.push_str("</")?;
    out.push_str(name)?;
    out.push_str(">\n")
}

/// Returns the attribute for the alignment of a cell.
#[tactic(auto, unfolding(crate::specs::Elements::align_attribute))]
fn align_attribute(align: AlignKind) -> &'static str
    ensures { result.now ≡ align_attribute align }
{
    match align {
        AlignKind::Left => " align=\"left\"",
        AlignKind::Right => " align=\"right\"",
        AlignKind::Center => " align=\"center\"",
        AlignKind::None => "",
    }
}

/// How many bytes an empty cell counts for. Its alignment is not counted.
const CELL_COST: usize = 10;

/// Appends an empty cell in each of these columns, if the page may copy so much.
pub(crate) fn push_missing_cells(
    page: &mut Page<'_>,
    name: &str,
    columns: &[AlignKind],
) -> Result<(), AllocError>
    ensures { OnOk result (page_of page.new ≡ missing_cells name.now columns.now (page_of page.old)) }
{
    if columns.len() > page.budget / CELL_COST {
        return Ok(());
    }
    page.budget -= columns.len() * CELL_COST;
    push_empty_cells(&mut page.text, name, columns)
}

/// Appends an empty cell in each of these columns.
fn push_empty_cells(out: &mut String, name: &str, columns: &[AlignKind]) -> Result<(), AllocError>
    ensures { OnOk result (string_bytes out.new ≡ string_bytes out.old ++ empty_cells name.now columns.now) }
{
    for align in columns {
        push_empty_cell(out, name, *align)?;
    }
    Ok(())
}

/// Appends an empty cell.
#[tactic(auto, unfolding(crate::specs::Elements::empty_cell))]
fn push_empty_cell(out: &mut String, name: &str, align: AlignKind) -> Result<(), AllocError>
    ensures { OnOk result (string_bytes out.new ≡ string_bytes out.old ++ empty_cell name.now align) }
{
    out.push_str("<")?;
    out.push_str(name)?;
    out.push_str(align_attribute(align))?;
    out.push_str(">")?;
    out.push_str("</")?;
    out.push_str(name)?;
    out.push_str(">\n")
}
