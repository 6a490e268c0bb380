//! Each construct can be switched off.

use crate::reading::{has, holds};
use markdown_events::event::Name;
use markdown_options::Constructs;
use std::alloc::{AllocError, Global};
use std::process::Abort;

/// A document with each block construct.
pub const DOCUMENT: &str =
    "---\nx\n---\n# a\n\na\n===\n\n> a\n\n* a\n\n1. b\n\n***\n\n    a\n\n```\na\n```\n\n$$\na\n$$\n\n<div>\n\n[a]: b\n\n[^a]: b\n\n| a |\n| - |\n";

/// Stops the test if the document has no span of a name with all constructs, or has one with these.
fn switches(
    rt: &impl Abort,
    alloc: Global,
    constructs: Constructs,
    name: Name,
) -> Result<(), AllocError> {
    holds(
        rt,
        has(alloc, DOCUMENT, Constructs::everything(), name)?,
        name.text(),
    );
    holds(rt, !has(alloc, DOCUMENT, constructs, name)?, name.text());
    Ok(())
}

#[test]
fn containers(rt: HostRuntime) -> Result<(), AllocError> {
    let alloc = rt.alloc();
    let without = Constructs {
        block_quote: false,
        list_item: false,
        gfm_footnote_definition: false,
        ..Constructs::everything()
    };
    switches(&rt, alloc, without, Name::BlockQuote)?;
    switches(&rt, alloc, without, Name::ListItem)?;
    switches(&rt, alloc, without, Name::GfmFootnoteDefinition)
}

#[test]
fn headings_and_breaks(rt: HostRuntime) -> Result<(), AllocError> {
    let alloc = rt.alloc();
    let without = Constructs {
        heading_atx: false,
        heading_setext: false,
        thematic_break: false,
        ..Constructs::everything()
    };
    switches(&rt, alloc, without, Name::HeadingAtx)?;
    switches(&rt, alloc, without, Name::HeadingSetext)?;
    switches(&rt, alloc, without, Name::ThematicBreak)
}

#[test]
fn raw_blocks(rt: HostRuntime) -> Result<(), AllocError> {
    let alloc = rt.alloc();
    let without = Constructs {
        code_indented: false,
        code_fenced: false,
        math_flow: false,
        html_flow: false,
        frontmatter: false,
        ..Constructs::everything()
    };
    switches(&rt, alloc, without, Name::CodeIndented)?;
    switches(&rt, alloc, without, Name::CodeFenced)?;
    switches(&rt, alloc, without, Name::MathFlow)?;
    switches(&rt, alloc, without, Name::HtmlFlow)?;
    switches(&rt, alloc, without, Name::Frontmatter)
}

#[test]
fn definitions_and_tables(rt: HostRuntime) -> Result<(), AllocError> {
    let alloc = rt.alloc();
    let without = Constructs {
        definition: false,
        gfm_table: false,
        ..Constructs::everything()
    };
    switches(&rt, alloc, without, Name::Definition)?;
    switches(&rt, alloc, without, Name::GfmTable)
}

#[test]
fn without_indented_code_blocks_may_be_indented(rt: HostRuntime) -> Result<(), AllocError> {
    let alloc = rt.alloc();
    let without = Constructs {
        code_indented: false,
        ..Constructs::everything()
    };
    let document = "      # a\n      > b\n      * c\n      ***\n";
    for name in [
        Name::HeadingAtx,
        Name::BlockQuote,
        Name::ListItem,
        Name::ThematicBreak,
    ] {
        holds(&rt, has(alloc, document, without, name)?, name.text());
        holds(
            &rt,
            !has(alloc, document, Constructs::everything(), name)?,
            name.text(),
        );
    }
    Ok(())
}
