//! Definitions, and the identifiers that a document defines.

use crate::reading::{blocks, has, holds, shows};
use markdown_events::event::Name;
use markdown_options::Constructs;
use std::alloc::{AllocError, Global};

#[test]
fn pieces(rt: HostRuntime) -> Result<(), AllocError> {
    let alloc = rt.alloc();
    shows(
        &rt,
        alloc,
        "[a]: b \"c\"",
        "(Definition (DefinitionLabel DefinitionLabelMarker:1 (DefinitionLabelString Text:2 ) DefinitionLabelMarker:3 ) DefinitionMarker:4 SpaceOrTab:5 (DefinitionDestination (DefinitionDestinationRaw (DefinitionDestinationString Text:6 ) ) ) SpaceOrTab:7 (DefinitionTitle DefinitionTitleMarker:8 (DefinitionTitleString Text:9 ) DefinitionTitleMarker:10 ) ) ",
    )?;
    shows(
        &rt,
        alloc,
        "> [a\n> b]:\n> <>",
        "(BlockQuote BlockQuotePrefix:2 (Definition (DefinitionLabel DefinitionLabelMarker:3 (DefinitionLabelString Text:4 LineEnding:5 BlockQuotePrefix:7 Text:8 ) DefinitionLabelMarker:9 ) DefinitionMarker:10 LineEnding:11 BlockQuotePrefix:13 (DefinitionDestination (DefinitionDestinationLiteral DefinitionDestinationLiteralMarker:14 DefinitionDestinationLiteralMarker:15 ) ) ) ) ",
    )
}

#[test]
fn a_title_that_is_none_is_text(rt: HostRuntime) -> Result<(), AllocError> {
    let alloc = rt.alloc();
    // CommonMark: if something comes after a title on its line, it is not a title, and the
    // definition ends before it.
    shows(
        &rt,
        alloc,
        "[a]: b\n\"c\" d",
        "(Definition (DefinitionLabel DefinitionLabelMarker:1 (DefinitionLabelString Text:2 ) DefinitionLabelMarker:3 ) DefinitionMarker:4 SpaceOrTab:5 (DefinitionDestination (DefinitionDestinationRaw (DefinitionDestinationString Text:6 ) ) ) ) LineEnding:7 (Paragraph Text:12 ) ",
    )
}

#[test]
fn an_underline_after_definitions_is_text(rt: HostRuntime) -> Result<(), AllocError> {
    let alloc = rt.alloc();
    holds(
        &rt,
        has(
            alloc,
            "[a]: b\n===",
            Constructs::everything(),
            Name::Paragraph,
        )?,
        "text",
    );
    holds(
        &rt,
        !has(
            alloc,
            "[a]: b\n===",
            Constructs::everything(),
            Name::HeadingSetext,
        )?,
        "heading",
    );
    holds(
        &rt,
        has(
            alloc,
            "[a]: b\nc\n===",
            Constructs::everything(),
            Name::HeadingSetext,
        )?,
        "heading",
    );
    Ok(())
}

#[test]
fn identifiers(rt: HostRuntime) -> Result<(), AllocError> {
    let alloc = rt.alloc();
    let blocks = blocks(alloc, "> [a\n> b]: c\n\n[^d]: e", Constructs::everything())?;
    let found = &blocks.identifiers;
    holds(&rt, found.defines(alloc, b"A\nB")?, "a b");
    holds(&rt, !found.defines(alloc, b"d")?, "d");
    holds(&rt, found.defines_footnote(alloc, b"D")?, "d");
    holds(&rt, !found.defines_footnote(alloc, b"a b")?, "a b");
    Ok(())
}

/// Returns a label of this many characters between these texts.
fn labelled(
    alloc: Global,
    before: &str,
    characters: usize,
    after: &str,
) -> Result<String, AllocError> {
    let mut text = String::new(alloc);
    text.push_str(before)?;
    for _ in 0..characters {
        text.push_str("é")?;
    }
    text.push_str(after)?;
    Ok(text)
}

#[test]
fn a_label_has_at_most_999_characters(rt: HostRuntime) -> Result<(), AllocError> {
    let alloc = rt.alloc();
    let longest = labelled(alloc, "[", 999, "]: b")?;
    holds(
        &rt,
        has(
            alloc,
            longest.as_str(),
            Constructs::everything(),
            Name::Definition,
        )?,
        "999",
    );
    let longer = labelled(alloc, "[", 1000, "]: b")?;
    holds(
        &rt,
        !has(
            alloc,
            longer.as_str(),
            Constructs::everything(),
            Name::Definition,
        )?,
        "1000",
    );
    let name = Name::GfmFootnoteDefinition;
    let longest = labelled(alloc, "[^", 999, "]: b")?;
    holds(
        &rt,
        has(alloc, longest.as_str(), Constructs::everything(), name)?,
        "999",
    );
    let longer = labelled(alloc, "[^", 1000, "]: b")?;
    holds(
        &rt,
        !has(alloc, longer.as_str(), Constructs::everything(), name)?,
        "1000",
    );
    Ok(())
}

#[test]
fn raw_elements_begin_no_other_tag(rt: HostRuntime) -> Result<(), AllocError> {
    let alloc = rt.alloc();
    // CommonMark, HTML blocks: condition 7 excludes opening tags of `pre`, `script`, `style` and
    // `textarea`.
    holds(
        &rt,
        !has(alloc, "<pre/>", Constructs::everything(), Name::HtmlFlow)?,
        "<pre/>",
    );
    holds(
        &rt,
        has(alloc, "<pre>", Constructs::everything(), Name::HtmlFlow)?,
        "<pre>",
    );
    holds(
        &rt,
        has(alloc, "</pre>", Constructs::everything(), Name::HtmlFlow)?,
        "</pre>",
    );
    Ok(())
}
