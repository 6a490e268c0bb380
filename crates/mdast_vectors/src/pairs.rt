//! A span of each name in a span of each name.

use crate::expect::same;
use crate::outline::{compiled, event_at};
use markdown_nodes::event::{Kind, Name};
use markdown_nodes::message::Fault;
use std::alloc::Global;
use std::process::Abort;
use std::test::Fail;

/// How each name is spelled.
const NAMES: &str = "
    Data CharacterEscapeValue CodeFlowChunk CodeTextData FrontmatterChunk HtmlFlowData
    HtmlTextData MathFlowChunk MathTextData AutolinkEmail AutolinkProtocol CharacterReference
    CharacterReferenceMarker CharacterReferenceMarkerNumeric CharacterReferenceMarkerHexadecimal
    CharacterReferenceValue CodeFencedFenceInfo CodeFencedFenceMeta DefinitionDestinationString
    DefinitionLabelString DefinitionTitleString GfmFootnoteDefinitionLabelString LabelText
    MathFlowFenceMeta ReferenceString ResourceDestinationString ResourceTitleString Autolink
    BlockQuote CodeFenced CodeIndented CodeText Definition Emphasis Frontmatter
    GfmAutolinkLiteralEmail GfmAutolinkLiteralMailto GfmAutolinkLiteralProtocol
    GfmAutolinkLiteralWww GfmAutolinkLiteralXmpp GfmFootnoteCall GfmFootnoteDefinition
    GfmStrikethrough GfmTable GfmTableRow GfmTableCell HeadingAtx HeadingSetext HtmlFlow
    HtmlText Image Link ListItem ListOrdered ListUnordered MathFlow MathText Paragraph Strong
    ThematicBreak HardBreakEscape HardBreakTrailing LineEnding CodeFencedFence MathFlowFence
    GfmTaskListItemValueChecked GfmTaskListItemValueUnchecked HeadingAtxSequence
    HeadingSetextText HeadingSetextUnderlineSequence ListItemValue Reference Resource
    BlankLineEnding SpaceOrTab ListItemPrefix BlockQuotePrefix GfmTableDelimiterRow
    GfmTableDelimiterCellValue GfmTableDelimiterMarker AttentionSequence AutolinkMarker
    BlockQuoteMarker ByteOrderMark CharacterEscape CharacterEscapeMarker
    CharacterReferenceMarkerSemi CodeFencedFenceSequence CodeTextSequence Content
    DefinitionDestination DefinitionDestinationLiteral DefinitionDestinationLiteralMarker
    DefinitionDestinationRaw DefinitionLabel DefinitionLabelMarker DefinitionMarker
    DefinitionTitle DefinitionTitleMarker EmphasisSequence EmphasisText FrontmatterFence
    FrontmatterSequence GfmFootnoteCallLabel GfmFootnoteCallMarker GfmFootnoteDefinitionLabel
    GfmFootnoteDefinitionLabelMarker GfmFootnoteDefinitionMarker GfmFootnoteDefinitionPrefix
    GfmStrikethroughSequence GfmStrikethroughText GfmTableBody GfmTableCellDivider
    GfmTableCellText GfmTableDelimiterCell GfmTableDelimiterFiller GfmTableHead
    GfmTaskListItemCheck GfmTaskListItemMarker HeadingAtxText HeadingSetextUnderline Label
    LabelEnd LabelImage LabelImageMarker LabelLink LabelMarker ListItemMarker
    MathFlowFenceSequence MathTextSequence ReferenceMarker ResourceDestination
    ResourceDestinationLiteral ResourceDestinationLiteralMarker ResourceDestinationRaw
    ResourceMarker ResourceTitle ResourceTitleMarker StrongSequence StrongText
    ThematicBreakSequence
";

/// A word is not a name.
#[derive(Debug, Drop)]
struct Unknown;

/// Returns all names.
fn names(alloc: Global) -> Result<Vec<Name>, Fail> {
    let mut names = Vec::new(alloc);
    for text in NAMES.split_whitespace() {
        names.push(Name::find(text).ok_or(Unknown)?)?;
    }
    Ok(names)
}

/// Expects a tree or a message for a span of the inner name in one of the outer name.
fn is_answered(rt: &impl Abort, alloc: Global, outer: Name, inner: Name) {
    let events = [
        event_at(Kind::Enter, outer, 0),
        event_at(Kind::Enter, inner, 0),
        event_at(Kind::Exit, inner, 1),
        event_at(Kind::Exit, outer, 2),
    ];
    let answer = compiled(alloc, b"ab", &events);
    let is_fault = matches!(&answer, Err(Fault::Memory(_)));
    assert!(rt; !is_fault, "{inner:?} in {outer:?}");
}

#[test]
fn each_name_in_each_name_gives_a_tree_or_a_message(rt: HostRuntime) -> Result<(), Fail> {
    let names = names(rt.alloc())?;
    same(&rt, names.len(), 141);
    for outer in &names {
        for inner in &names {
            is_answered(&rt, rt.alloc(), *outer, *inner);
        }
    }
    Ok(())
}
