//! Links, images, calls of footnotes, and the marks of tasks (micromark's spans).

use crate::reading::{has_undefined, holds, shows};
use markdown_events::event::Name;
use std::alloc::AllocError;

#[test]
fn resources(rt: HostRuntime) -> Result<(), AllocError> {
    let alloc = rt.alloc();
    shows(
        &rt,
        alloc,
        "[a](b)",
        "(Paragraph (Link (Label (LabelLink LabelMarker:1 ) (LabelText Data:2 ) (LabelEnd LabelMarker:3 ) ) (Resource ResourceMarker:4 (ResourceDestination (ResourceDestinationRaw (ResourceDestinationString Data:5 ) ) ) ResourceMarker:6 ) ) ) ",
    )?;
    shows(
        &rt,
        alloc,
        "![a](<b>)",
        "(Paragraph (Image (Label (LabelImage LabelImageMarker:1 LabelMarker:2 ) (LabelText Data:3 ) (LabelEnd LabelMarker:4 ) ) (Resource ResourceMarker:5 (ResourceDestination (ResourceDestinationLiteral ResourceDestinationLiteralMarker:6 (ResourceDestinationString Data:7 ) ResourceDestinationLiteralMarker:8 ) ) ResourceMarker:9 ) ) ) ",
    )?;
    shows(
        &rt,
        alloc,
        "[a](b 'c')",
        "(Paragraph (Link (Label (LabelLink LabelMarker:1 ) (LabelText Data:2 ) (LabelEnd LabelMarker:3 ) ) (Resource ResourceMarker:4 (ResourceDestination (ResourceDestinationRaw (ResourceDestinationString Data:5 ) ) ) SpaceOrTab:6 (ResourceTitle ResourceTitleMarker:7 (ResourceTitleString Data:8 ) ResourceTitleMarker:9 ) ResourceMarker:10 ) ) ) ",
    )?;
    shows(&rt, alloc, "[a](b", "(Paragraph Data:5 ) ")
}

#[test]
fn references_need_a_definition(rt: HostRuntime) -> Result<(), AllocError> {
    let alloc = rt.alloc();
    shows(&rt, alloc, "[a][b]", "(Paragraph Data:6 ) ")?;
    shows(
        &rt,
        alloc,
        "[a][b]\n\n[B]: c",
        "(Paragraph (Link (Label (LabelLink LabelMarker:1 ) (LabelText Data:2 ) (LabelEnd LabelMarker:3 ) ) (Reference ReferenceMarker:4 (ReferenceString Data:5 ) ReferenceMarker:6 ) ) ) LineEnding:7 BlankLineEnding:8 (Definition (DefinitionLabel DefinitionLabelMarker:9 (DefinitionLabelString Data:10 ) DefinitionLabelMarker:11 ) DefinitionMarker:12 SpaceOrTab:13 (DefinitionDestination (DefinitionDestinationRaw (DefinitionDestinationString Data:14 ) ) ) ) ",
    )?;
    shows(
        &rt,
        alloc,
        "[a]\n\n[a]: c",
        "(Paragraph (Link (Label (LabelLink LabelMarker:1 ) (LabelText Data:2 ) (LabelEnd LabelMarker:3 ) ) ) ) LineEnding:4 BlankLineEnding:5 (Definition (DefinitionLabel DefinitionLabelMarker:6 (DefinitionLabelString Data:7 ) DefinitionLabelMarker:8 ) DefinitionMarker:9 SpaceOrTab:10 (DefinitionDestination (DefinitionDestinationRaw (DefinitionDestinationString Data:11 ) ) ) ) ",
    )
}

#[test]
fn calls_need_a_definition(rt: HostRuntime) -> Result<(), AllocError> {
    let alloc = rt.alloc();
    shows(&rt, alloc, "[^a]", "(Paragraph Data:4 ) ")?;
    shows(
        &rt,
        alloc,
        "[^a]\n\n[^a]: b",
        "(Paragraph (GfmFootnoteCall (Label (GfmFootnoteCallLabel LabelMarker:1 GfmFootnoteCallMarker:2 ) (LabelText Data:3 ) (LabelEnd LabelMarker:4 ) ) ) ) LineEnding:5 BlankLineEnding:6 (GfmFootnoteDefinition (GfmFootnoteDefinitionPrefix (GfmFootnoteDefinitionLabel GfmFootnoteDefinitionLabelMarker:7 GfmFootnoteDefinitionMarker:8 (GfmFootnoteDefinitionLabelString Data:9 ) GfmFootnoteDefinitionLabelMarker:10 ) DefinitionMarker:11 SpaceOrTab:12 ) (Paragraph Data:13 ) ) ",
    )
}

/// Documents without definitions, a name, and whether a span has it if references need no
/// definition.
static UNDEFINED: [(&str, Name, bool); 10] = [
    ("[a][b]", Name::Link, true),
    ("[a][]", Name::Link, true),
    ("![a][b]", Name::Image, true),
    ("![a][]", Name::Image, true),
    ("[^a]", Name::GfmFootnoteCall, true),
    ("[a]", Name::Link, false),
    ("[ ][]", Name::Link, false),
    ("[a [b] c][]", Name::Link, false),
    ("[^ a]", Name::GfmFootnoteCall, false),
    ("[^]", Name::GfmFootnoteCall, false),
];

#[test]
fn references_that_nothing_defines(rt: HostRuntime) -> Result<(), AllocError> {
    for (document, name, want) in &UNDEFINED {
        let found = has_undefined(rt.alloc(), document, *name)?;
        holds(&rt, found == *want, document);
    }
    Ok(())
}

#[test]
fn no_link_stands_in_a_link(rt: HostRuntime) -> Result<(), AllocError> {
    let alloc = rt.alloc();
    shows(
        &rt,
        alloc,
        "[[a](b)](c)",
        "(Paragraph Data:1 (Link (Label (LabelLink LabelMarker:2 ) (LabelText Data:3 ) (LabelEnd LabelMarker:4 ) ) (Resource ResourceMarker:5 (ResourceDestination (ResourceDestinationRaw (ResourceDestinationString Data:6 ) ) ) ResourceMarker:7 ) ) Data:11 ) ",
    )
}

#[test]
fn marks_of_tasks(rt: HostRuntime) -> Result<(), AllocError> {
    let alloc = rt.alloc();
    shows(
        &rt,
        alloc,
        "* [x] a",
        "(ListUnordered (ListItem (ListItemPrefix ListItemMarker:1 SpaceOrTab:2 ) (Paragraph (GfmTaskListItemCheck GfmTaskListItemMarker:3 GfmTaskListItemValueChecked:4 GfmTaskListItemMarker:5 ) Data:7 ) ) ) ",
    )?;
    shows(
        &rt,
        alloc,
        "* [ ]",
        "(ListUnordered (ListItem (ListItemPrefix ListItemMarker:1 SpaceOrTab:2 ) (Paragraph Data:5 ) ) ) ",
    )?;
    shows(&rt, alloc, "[ ] a", "(Paragraph Data:5 ) ")
}

#[test]
fn marks_of_tasks_over_two_lines(rt: HostRuntime) -> Result<(), AllocError> {
    let alloc = rt.alloc();
    shows(
        &rt,
        alloc,
        "* [\r\n  ] a",
        "(ListUnordered (ListItem (ListItemPrefix ListItemMarker:1 SpaceOrTab:2 ) (Paragraph (GfmTaskListItemCheck GfmTaskListItemMarker:3 GfmTaskListItemValueUnchecked:5 SpaceOrTab:7 GfmTaskListItemMarker:8 ) Data:10 ) ) ) ",
    )?;
    shows(
        &rt,
        alloc,
        "* [\n] a",
        "(ListUnordered (ListItem (ListItemPrefix ListItemMarker:1 SpaceOrTab:2 ) (Paragraph (GfmTaskListItemCheck GfmTaskListItemMarker:3 GfmTaskListItemValueUnchecked:4 GfmTaskListItemMarker:5 ) Data:7 ) ) ) ",
    )?;
    shows(
        &rt,
        alloc,
        "* [\n\t] a",
        "(ListUnordered (ListItem (ListItemPrefix ListItemMarker:1 SpaceOrTab:2 ) (Paragraph (GfmTaskListItemCheck GfmTaskListItemMarker:3 GfmTaskListItemValueUnchecked:4 SpaceOrTab:4 SpaceOrTab:5 GfmTaskListItemMarker:6 ) Data:8 ) ) ) ",
    )?;
    shows(
        &rt,
        alloc,
        "> * [\n >   ] a",
        "(BlockQuote (BlockQuotePrefix BlockQuoteMarker:1 SpaceOrTab:2 ) (ListUnordered (ListItem (ListItemPrefix ListItemMarker:3 SpaceOrTab:4 ) (Paragraph (GfmTaskListItemCheck GfmTaskListItemMarker:5 GfmTaskListItemValueUnchecked:6 SpaceOrTab:7 (BlockQuotePrefix BlockQuoteMarker:8 SpaceOrTab:9 ) SpaceOrTab:11 GfmTaskListItemMarker:12 ) Data:14 ) ) ) ) ",
    )
}

/// The blank that a tree leaves out ends where the text begins.
#[test]
fn texts_after_marks_of_tasks(rt: HostRuntime) -> Result<(), AllocError> {
    let alloc = rt.alloc();
    shows(
        &rt,
        alloc,
        "* [x]\ta",
        "(ListUnordered (ListItem (ListItemPrefix ListItemMarker:1 SpaceOrTab:2 ) (Paragraph (GfmTaskListItemCheck GfmTaskListItemMarker:3 GfmTaskListItemValueChecked:4 GfmTaskListItemMarker:5 ) SpaceOrTab:5 Data:7 ) ) ) ",
    )?;
    shows(
        &rt,
        alloc,
        "* [ ] \n  a",
        "(ListUnordered (ListItem (ListItemPrefix ListItemMarker:1 SpaceOrTab:2 ) (Paragraph (GfmTaskListItemCheck GfmTaskListItemMarker:3 GfmTaskListItemValueUnchecked:4 GfmTaskListItemMarker:5 ) SpaceOrTab:6 BlankLineEnding:7 SpaceOrTab:8 Data:9 Data:10 ) ) ) ",
    )?;
    shows(
        &rt,
        alloc,
        "* [ ]\n\ta",
        "(ListUnordered (ListItem (ListItemPrefix ListItemMarker:1 SpaceOrTab:2 ) (Paragraph (GfmTaskListItemCheck GfmTaskListItemMarker:3 GfmTaskListItemValueUnchecked:4 GfmTaskListItemMarker:5 ) BlankLineEnding:6 SpaceOrTab:6 SpaceOrTab:6 Data:7 Data:8 ) ) ) ",
    )?;
    shows(
        &rt,
        alloc,
        "* [ ]\na",
        "(ListUnordered (ListItem (ListItemPrefix ListItemMarker:1 SpaceOrTab:2 ) (Paragraph (GfmTaskListItemCheck GfmTaskListItemMarker:3 GfmTaskListItemValueUnchecked:4 GfmTaskListItemMarker:5 ) LineEnding:6 Data:7 ) ) ) ",
    )?;
    shows(
        &rt,
        alloc,
        "> * [ ]\n> a",
        "(BlockQuote (BlockQuotePrefix BlockQuoteMarker:1 SpaceOrTab:2 ) (ListUnordered (ListItem (ListItemPrefix ListItemMarker:3 SpaceOrTab:4 ) (Paragraph (GfmTaskListItemCheck GfmTaskListItemMarker:5 GfmTaskListItemValueUnchecked:6 GfmTaskListItemMarker:7 ) BlankLineEnding:8 (BlockQuotePrefix BlockQuoteMarker:9 ) Data:10 Data:11 ) ) ) ) ",
    )
}

#[test]
fn strings_have_escapes_and_references_alone(rt: HostRuntime) -> Result<(), AllocError> {
    let alloc = rt.alloc();
    shows(
        &rt,
        alloc,
        "```*a*\\*",
        "(CodeFenced (CodeFencedFence CodeFencedFenceSequence:3 (CodeFencedFenceInfo Data:6 (CharacterEscape CharacterEscapeMarker:7 CharacterEscapeValue:8 ) ) ) ) ",
    )?;
    shows(
        &rt,
        alloc,
        "~~~&lt;",
        "(CodeFenced (CodeFencedFence CodeFencedFenceSequence:3 (CodeFencedFenceInfo (CharacterReference CharacterReferenceMarker:4 CharacterReferenceValue:6 CharacterReferenceMarkerSemi:7 ) ) ) ) ",
    )
}
