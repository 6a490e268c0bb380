//! The pieces of documents (micromark's spans).

use crate::constructs::DOCUMENT;
use crate::reading::{blocks, holds, shows};
use markdown_options::Constructs;
use std::alloc::AllocError;

#[test]
fn headings_and_thematic_breaks(rt: HostRuntime) -> Result<(), AllocError> {
    let alloc = rt.alloc();
    shows(
        &rt,
        alloc,
        "# a",
        "(HeadingAtx OpeningSequence:1 SpaceOrTab:2 (HeadingAtxText Text:3 ) ) ",
    )?;
    shows(
        &rt,
        alloc,
        "## a b ##",
        "(HeadingAtx OpeningSequence:2 SpaceOrTab:3 (HeadingAtxText Text:6 ) SpaceOrTab:7 HeadingAtxSequence:9 ) ",
    )?;
    shows(
        &rt,
        alloc,
        "a\n==",
        "(HeadingSetext (HeadingSetextText Text:1 ) LineEnding:2 (HeadingSetextUnderline HeadingSetextUnderlineSequence:4 ) ) ",
    )?;
    shows(
        &rt,
        alloc,
        "* **",
        "(ThematicBreak ThematicBreakSequence:1 SpaceOrTab:2 ThematicBreakSequence:4 ) ",
    )
}

#[test]
fn block_quotes(rt: HostRuntime) -> Result<(), AllocError> {
    let alloc = rt.alloc();
    shows(
        &rt,
        alloc,
        "> a\n>\n>b",
        "(BlockQuote BlockQuotePrefix:2 (Paragraph Text:3 ) LineEnding:4 BlockQuotePrefix:5 BlankLineEnding:6 BlockQuotePrefix:7 (Paragraph Text:8 ) ) ",
    )?;
    shows(
        &rt,
        alloc,
        ">\t\ta",
        "(BlockQuote BlockQuotePrefix:1+1 (CodeIndented SpaceOrTab:2+2 CodeFlowChunk:4 ) ) ",
    )
}

#[test]
fn blank_lines_in_containers(rt: HostRuntime) -> Result<(), AllocError> {
    let alloc = rt.alloc();
    shows(
        &rt,
        alloc,
        "- > a\n\n  b",
        "(ListUnordered (ListItem (ListItemPrefix ListItemMarker:1 SpaceOrTab:2 ) (BlockQuote BlockQuotePrefix:4 (Paragraph Text:5 ) ) LineEnding:6 BlankLineEnding:7 SpaceOrTab:9 (Paragraph Text:10 ) ) ) ",
    )?;
    shows(
        &rt,
        alloc,
        "> - a\n>\n>   b",
        "(BlockQuote BlockQuotePrefix:2 (ListUnordered (ListItem (ListItemPrefix ListItemMarker:3 SpaceOrTab:4 ) (Paragraph Text:5 ) LineEnding:6 BlockQuotePrefix:7 BlankLineEnding:8 BlockQuotePrefix:10 SpaceOrTab:12 (Paragraph Text:13 ) ) ) ) ",
    )?;
    shows(
        &rt,
        alloc,
        "[^a]: - b\n\n      c",
        "(GfmFootnoteDefinition (GfmFootnoteDefinitionPrefix (GfmFootnoteDefinitionLabel GfmFootnoteDefinitionLabelMarker:1 GfmFootnoteDefinitionMarker:2 (GfmFootnoteDefinitionLabelString Text:3 ) GfmFootnoteDefinitionLabelMarker:4 ) DefinitionMarker:5 SpaceOrTab:6 ) (ListUnordered (ListItem (ListItemPrefix ListItemMarker:7 SpaceOrTab:8 ) (Paragraph Text:9 ) LineEnding:10 BlankLineEnding:11 SpaceOrTab:15 SpaceOrTab:17 (Paragraph Text:18 ) ) ) ) ",
    )
}

#[test]
fn lists(rt: HostRuntime) -> Result<(), AllocError> {
    let alloc = rt.alloc();
    shows(
        &rt,
        alloc,
        "1. a\n2. b\n\nc",
        "(ListOrdered (ListItem (ListItemPrefix ListItemValue:1 ListItemMarker:2 SpaceOrTab:3 ) (Paragraph Text:4 ) ) LineEnding:5 (ListItem (ListItemPrefix ListItemValue:6 ListItemMarker:7 SpaceOrTab:8 ) (Paragraph Text:9 ) LineEnding:10 ) ) BlankLineEnding:11 (Paragraph Text:12 ) ",
    )
}

#[test]
fn tables(rt: HostRuntime) -> Result<(), AllocError> {
    let alloc = rt.alloc();
    shows(
        &rt,
        alloc,
        "|a\n|:-",
        "(GfmTable (GfmTableHead (GfmTableRow (GfmTableCell GfmTableCellDivider:1 (GfmTableCellText Text:2 ) ) ) LineEnding:3 (GfmTableDelimiterRow (GfmTableDelimiterCell GfmTableCellDivider:4 (GfmTableDelimiterCellValue GfmTableDelimiterMarker:5 GfmTableDelimiterFiller:6 ) ) ) ) ) ",
    )
}

#[test]
fn code_and_html(rt: HostRuntime) -> Result<(), AllocError> {
    let alloc = rt.alloc();
    shows(
        &rt,
        alloc,
        "``` a b\nc\n```",
        "(CodeFenced (CodeFencedFence CodeFencedFenceSequence:3 SpaceOrTab:4 (CodeFencedFenceInfo Text:5 ) SpaceOrTab:6 (CodeFencedFenceMeta Text:7 ) ) LineEnding:8 CodeFlowChunk:9 LineEnding:10 (CodeFencedFence CodeFencedFenceSequence:13 ) ) ",
    )?;
    shows(
        &rt,
        alloc,
        "<!-- a -->\nb",
        "(HtmlFlow HtmlFlowData:10 ) LineEnding:11 (Paragraph Text:12 ) ",
    )
}

#[test]
fn pieces_tile_the_document(rt: HostRuntime) -> Result<(), AllocError> {
    let blocks = blocks(rt.alloc(), DOCUMENT, Constructs::everything())?;
    let mut end = 0;
    for piece in blocks.pieces.as_slice() {
        holds(&rt, piece.end >= end, "a piece goes back");
        end = piece.end;
    }
    holds(&rt, end == DOCUMENT.len(), "the last piece ends early");
    Ok(())
}
