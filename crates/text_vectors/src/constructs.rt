//! Each construct of a text can be switched off.

use crate::reading::{has, holds};
use markdown::Constructs;
use markdown_events::event::Name;
use std::alloc::{AllocError, Global};
use std::process::Abort;

/// A document with each construct of a text.
const DOCUMENT: &str =
    "*a* <a:b> <bc:d> \\* &amp; `a` www.a.b [^a] ~~a~~ a\\\nb  \n<i> ![a](b) [a](b) $a$\n\n* [x] a\n\n[^a]: b\n";

/// Stops the test if the document has no span of a name with all constructs, or has one with these.
fn switches(
    rt: &impl Abort,
    alloc: Global,
    constructs: Constructs,
    name: Name,
) -> Result<(), AllocError> {
    holds(
        rt,
        has(alloc, DOCUMENT, Constructs::everything(), name)?,
        name.text(),
    );
    holds(rt, !has(alloc, DOCUMENT, constructs, name)?, name.text());
    Ok(())
}

#[test]
fn constructs_of_common_mark(rt: HostRuntime) -> Result<(), AllocError> {
    let without = Constructs {
        attention: false,
        autolink: false,
        character_escape: false,
        character_reference: false,
        code_text: false,
        hard_break_escape: false,
        hard_break_trailing: false,
        html_text: false,
        ..Constructs::everything()
    };
    for name in [
        Name::Emphasis,
        Name::Autolink,
        Name::CharacterEscape,
        Name::CharacterReference,
        Name::CodeText,
        Name::HardBreakEscape,
        Name::HardBreakTrailing,
        Name::HtmlText,
    ] {
        switches(&rt, rt.alloc(), without, name)?;
    }
    Ok(())
}

#[test]
fn constructs_of_gfm_and_math(rt: HostRuntime) -> Result<(), AllocError> {
    let without = Constructs {
        gfm_autolink_literal: false,
        gfm_label_start_footnote: false,
        gfm_strikethrough: false,
        gfm_task_list_item: false,
        math_text: false,
        ..Constructs::everything()
    };
    for name in [
        Name::GfmAutolinkLiteralWww,
        Name::GfmFootnoteCall,
        Name::GfmStrikethrough,
        Name::GfmTaskListItemCheck,
        Name::MathText,
    ] {
        switches(&rt, rt.alloc(), without, name)?;
    }
    Ok(())
}

#[test]
fn starts_and_ends_of_labels(rt: HostRuntime) -> Result<(), AllocError> {
    let alloc = rt.alloc();
    let no_images = Constructs {
        label_start_image: false,
        ..Constructs::everything()
    };
    switches(&rt, alloc, no_images, Name::Image)?;
    let no_links = Constructs {
        label_start_link: false,
        ..Constructs::everything()
    };
    switches(&rt, alloc, no_links, Name::Link)?;
    let no_ends = Constructs {
        label_end: false,
        ..Constructs::everything()
    };
    switches(&rt, alloc, no_ends, Name::Link)?;
    switches(&rt, alloc, no_ends, Name::Image)?;
    switches(&rt, alloc, no_ends, Name::GfmFootnoteCall)
}
