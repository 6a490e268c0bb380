//! Events: the flat list of enters and exits that a tokenizer produces for a document (micromark).

ghost use Rattle.std.specs.Prelude.{◌≡◌, ◌↔◌, IsTrue, Some, map};
ghost use Rattle.markdown_events.specs.Spelling.{spelling, first_spelled, name_of_length, name_of};
ghost use Rattle.markdown_events.specs.Slices.{to_unist};
ghost use Rattle.markdown_events.specs.Names.{is_same_name};
ghost use Rattle.markdown_events.specs.declared.event.Name.{Name};

use crate::unist;
use std::fmt;

mod spans;

pub use spans::span_begins;

/// Whether an event is the enter or the exit of a span (micromark).
///
/// In an event line `Kind::Enter` is written `+`, and `Kind::Exit` is written `-`.
#[derive(Clone, Copy, PartialEq, Eq, Debug)]
pub enum Kind {
    /// A span begins here.
    Enter,
    /// A span ends here.
    Exit,
}

/// The name of a span: what the tokenizer found there (micromark, by the names of the crate
/// `markdown`).
///
/// [`Name::role`] says what a name is to the tree, and [`Name::text`] how it is spelled. The tables
/// of `docs/EVENTS.md` have an example of each.
///
/// In the document `*a*` the whole is a `Name::Emphasis`, each star a `Name::EmphasisSequence`, and
/// the `a` a `Name::EmphasisText` with a `Name::Data` in it.
#[derive(Clone, Copy, PartialEq, Eq)]
pub enum Name {
    // Data: a part of a text.
    Data,
    CharacterEscapeValue,
    CodeFlowChunk,
    CodeTextData,
    FrontmatterChunk,
    HtmlFlowData,
    HtmlTextData,
    MathFlowChunk,
    MathTextData,
    // The value of an autolink.
    AutolinkEmail,
    AutolinkProtocol,
    // A character reference and its parts.
    CharacterReference,
    CharacterReferenceMarker,
    CharacterReferenceMarkerNumeric,
    CharacterReferenceMarkerHexadecimal,
    CharacterReferenceValue,
    // Parts whose nodes become a text or a label.
    CodeFencedFenceInfo,
    CodeFencedFenceMeta,
    DefinitionDestinationString,
    DefinitionLabelString,
    DefinitionTitleString,
    GfmFootnoteDefinitionLabelString,
    LabelText,
    MathFlowFenceMeta,
    ReferenceString,
    ResourceDestinationString,
    ResourceTitleString,
    // Spans that become a node.
    Autolink,
    BlockQuote,
    CodeFenced,
    CodeIndented,
    CodeText,
    Definition,
    Emphasis,
    Frontmatter,
    GfmAutolinkLiteralEmail,
    GfmAutolinkLiteralMailto,
    GfmAutolinkLiteralProtocol,
    GfmAutolinkLiteralWww,
    GfmAutolinkLiteralXmpp,
    GfmFootnoteCall,
    GfmFootnoteDefinition,
    GfmStrikethrough,
    GfmTable,
    GfmTableRow,
    GfmTableCell,
    HeadingAtx,
    HeadingSetext,
    HtmlFlow,
    HtmlText,
    Image,
    Link,
    ListItem,
    ListOrdered,
    ListUnordered,
    MathFlow,
    MathText,
    Paragraph,
    Strong,
    ThematicBreak,
    // Breaks, and the line ending.
    HardBreakEscape,
    HardBreakTrailing,
    LineEnding,
    // Other parts.
    CodeFencedFence,
    MathFlowFence,
    GfmTaskListItemValueChecked,
    GfmTaskListItemValueUnchecked,
    HeadingAtxSequence,
    HeadingSetextText,
    HeadingSetextUnderlineSequence,
    ListItemValue,
    Reference,
    Resource,
    // Transparent names that well-formedness, spread and alignment look at.
    BlankLineEnding,
    SpaceOrTab,
    ListItemPrefix,
    BlockQuotePrefix,
    GfmTableDelimiterRow,
    GfmTableDelimiterCellValue,
    GfmTableDelimiterMarker,
    // Transparent names that no rule mentions: `TransparentKind::Other`.
    AttentionSequence,
    AutolinkMarker,
    BlockQuoteMarker,
    ByteOrderMark,
    CharacterEscape,
    CharacterEscapeMarker,
    CharacterReferenceMarkerSemi,
    CodeFencedFenceSequence,
    CodeTextSequence,
    Content,
    DefinitionDestination,
    DefinitionDestinationLiteral,
    DefinitionDestinationLiteralMarker,
    DefinitionDestinationRaw,
    DefinitionLabel,
    DefinitionLabelMarker,
    DefinitionMarker,
    DefinitionTitle,
    DefinitionTitleMarker,
    EmphasisSequence,
    EmphasisText,
    FrontmatterFence,
    FrontmatterSequence,
    GfmFootnoteCallLabel,
    GfmFootnoteCallMarker,
    GfmFootnoteDefinitionLabel,
    GfmFootnoteDefinitionLabelMarker,
    GfmFootnoteDefinitionMarker,
    GfmFootnoteDefinitionPrefix,
    GfmStrikethroughSequence,
    GfmStrikethroughText,
    GfmTableBody,
    GfmTableCellDivider,
    GfmTableCellText,
    GfmTableDelimiterCell,
    GfmTableDelimiterFiller,
    GfmTableHead,
    GfmTaskListItemCheck,
    GfmTaskListItemMarker,
    HeadingAtxText,
    HeadingSetextUnderline,
    Label,
    LabelEnd,
    LabelImage,
    LabelImageMarker,
    LabelLink,
    LabelMarker,
    ListItemMarker,
    MathFlowFenceSequence,
    MathTextSequence,
    ReferenceMarker,
    ResourceDestination,
    ResourceDestinationLiteral,
    ResourceDestinationLiteralMarker,
    ResourceDestinationRaw,
    ResourceMarker,
    ResourceTitle,
    ResourceTitleMarker,
    StrongSequence,
    StrongText,
    ThematicBreakSequence,
}

/// The names by the length of their spelling, which is the index. The more frequent names of a
/// length come first.
static NAMES_BY_LENGTH: [&[Name]; 36] = [
    &[],
    &[],
    &[],
    &[],
    &[Name::Data, Name::Link],
    &[Name::Label, Name::Image],
    &[Name::Strong],
    &[Name::Content],
    &[
        Name::LabelEnd,
        Name::ListItem,
        Name::Resource,
        Name::CodeText,
        Name::Emphasis,
        Name::GfmTable,
        Name::Autolink,
        Name::HtmlFlow,
        Name::HtmlText,
        Name::MathFlow,
        Name::MathText,
    ],
    &[
        Name::Paragraph,
        Name::LabelText,
        Name::LabelLink,
        Name::Reference,
    ],
    &[
        Name::SpaceOrTab,
        Name::LineEnding,
        Name::HeadingAtx,
        Name::LabelImage,
        Name::StrongText,
        Name::BlockQuote,
        Name::CodeFenced,
        Name::Definition,
    ],
    &[
        Name::LabelMarker,
        Name::GfmTableRow,
        Name::ListOrdered,
        Name::Frontmatter,
    ],
    &[
        Name::GfmTableCell,
        Name::CodeTextData,
        Name::EmphasisText,
        Name::GfmTableBody,
        Name::GfmTableHead,
        Name::HtmlFlowData,
        Name::HtmlTextData,
        Name::MathTextData,
        Name::CodeIndented,
    ],
    &[
        Name::CodeFlowChunk,
        Name::ResourceTitle,
        Name::ListItemValue,
        Name::ListUnordered,
        Name::MathFlowChunk,
        Name::AutolinkEmail,
        Name::HeadingSetext,
        Name::ThematicBreak,
        Name::MathFlowFence,
        Name::ByteOrderMark,
    ],
    &[
        Name::ResourceMarker,
        Name::ListItemPrefix,
        Name::ListItemMarker,
        Name::StrongSequence,
        Name::HeadingAtxText,
        Name::AutolinkMarker,
    ],
    &[
        Name::BlankLineEnding,
        Name::ReferenceMarker,
        Name::ReferenceString,
        Name::HardBreakEscape,
        Name::CodeFencedFence,
        Name::CharacterEscape,
        Name::DefinitionLabel,
        Name::GfmFootnoteCall,
        Name::DefinitionTitle,
    ],
    &[
        Name::GfmTableCellText,
        Name::CodeTextSequence,
        Name::EmphasisSequence,
        Name::LabelImageMarker,
        Name::BlockQuotePrefix,
        Name::BlockQuoteMarker,
        Name::DefinitionMarker,
        Name::FrontmatterChunk,
        Name::AutolinkProtocol,
        Name::GfmStrikethrough,
        Name::FrontmatterFence,
        Name::MathTextSequence,
    ],
    &[
        Name::MathFlowFenceMeta,
        Name::HardBreakTrailing,
        Name::HeadingSetextText,
        Name::AttentionSequence,
    ],
    &[Name::HeadingAtxSequence, Name::CharacterReference],
    &[
        Name::GfmTableCellDivider,
        Name::ResourceTitleMarker,
        Name::ResourceTitleString,
        Name::ResourceDestination,
        Name::CodeFencedFenceInfo,
        Name::CodeFencedFenceMeta,
        Name::FrontmatterSequence,
    ],
    &[
        Name::CharacterEscapeValue,
        Name::GfmTableDelimiterRow,
        Name::GfmFootnoteCallLabel,
        Name::GfmStrikethroughText,
        Name::GfmTaskListItemCheck,
    ],
    &[
        Name::GfmTableDelimiterCell,
        Name::CharacterEscapeMarker,
        Name::DefinitionLabelMarker,
        Name::DefinitionLabelString,
        Name::DefinitionDestination,
        Name::DefinitionTitleString,
        Name::GfmAutolinkLiteralWww,
        Name::GfmFootnoteDefinition,
        Name::DefinitionTitleMarker,
        Name::GfmFootnoteCallMarker,
        Name::GfmTaskListItemMarker,
        Name::MathFlowFenceSequence,
        Name::ThematicBreakSequence,
    ],
    &[
        Name::ResourceDestinationRaw,
        Name::GfmAutolinkLiteralXmpp,
        Name::HeadingSetextUnderline,
    ],
    &[
        Name::GfmTableDelimiterMarker,
        Name::GfmTableDelimiterFiller,
        Name::CodeFencedFenceSequence,
        Name::CharacterReferenceValue,
        Name::GfmAutolinkLiteralEmail,
    ],
    &[
        Name::DefinitionDestinationRaw,
        Name::CharacterReferenceMarker,
        Name::GfmAutolinkLiteralMailto,
        Name::GfmStrikethroughSequence,
    ],
    &[Name::ResourceDestinationString],
    &[
        Name::GfmTableDelimiterCellValue,
        Name::GfmAutolinkLiteralProtocol,
        Name::GfmFootnoteDefinitionLabel,
        Name::ResourceDestinationLiteral,
    ],
    &[
        Name::DefinitionDestinationString,
        Name::GfmTaskListItemValueChecked,
        Name::GfmFootnoteDefinitionMarker,
        Name::GfmFootnoteDefinitionPrefix,
    ],
    &[
        Name::CharacterReferenceMarkerSemi,
        Name::DefinitionDestinationLiteral,
    ],
    &[Name::GfmTaskListItemValueUnchecked],
    &[Name::HeadingSetextUnderlineSequence],
    &[Name::CharacterReferenceMarkerNumeric],
    &[
        Name::GfmFootnoteDefinitionLabelString,
        Name::GfmFootnoteDefinitionLabelMarker,
        Name::ResourceDestinationLiteralMarker,
    ],
    &[],
    &[Name::DefinitionDestinationLiteralMarker],
    &[Name::CharacterReferenceMarkerHexadecimal],
];

/// `{:?}` writes the name as in an event line.
impl fmt::Debug for Name {
    ghost debug_output = { λ name. Some (spelling name) };

    fn fmt<W: fmt::Write>(&self, f: &mut fmt::Formatter<W>) -> fmt::Result {
        f.write_str(self.text())
    }
}

impl Name {
    /// Returns the name as it is written in an event line.
    ///
    /// `Name::BlockQuote.text()` is `BlockQuote`.
    pub fn text(self) -> &'static str
        ensures { result.now ≡ spelling self }
    {
        match self {
            Name::Data => "Data",
            Name::CharacterEscapeValue => "CharacterEscapeValue",
            Name::CodeFlowChunk => "CodeFlowChunk",
            Name::CodeTextData => "CodeTextData",
            Name::FrontmatterChunk => "FrontmatterChunk",
            Name::HtmlFlowData => "HtmlFlowData",
            Name::HtmlTextData => "HtmlTextData",
            Name::MathFlowChunk => "MathFlowChunk",
            Name::MathTextData => "MathTextData",
            Name::AutolinkEmail => "AutolinkEmail",
            Name::AutolinkProtocol => "AutolinkProtocol",
            Name::CharacterReference => "CharacterReference",
            Name::CharacterReferenceMarker => "CharacterReferenceMarker",
            Name::CharacterReferenceMarkerNumeric => "CharacterReferenceMarkerNumeric",
            Name::CharacterReferenceMarkerHexadecimal => "CharacterReferenceMarkerHexadecimal",
            Name::CharacterReferenceValue => "CharacterReferenceValue",
            Name::CodeFencedFenceInfo => "CodeFencedFenceInfo",
            Name::CodeFencedFenceMeta => "CodeFencedFenceMeta",
            Name::DefinitionDestinationString => "DefinitionDestinationString",
            Name::DefinitionLabelString => "DefinitionLabelString",
            Name::DefinitionTitleString => "DefinitionTitleString",
            Name::GfmFootnoteDefinitionLabelString => "GfmFootnoteDefinitionLabelString",
            Name::LabelText => "LabelText",
            Name::MathFlowFenceMeta => "MathFlowFenceMeta",
            Name::ReferenceString => "ReferenceString",
            Name::ResourceDestinationString => "ResourceDestinationString",
            Name::ResourceTitleString => "ResourceTitleString",
            Name::Autolink => "Autolink",
            Name::BlockQuote => "BlockQuote",
            Name::CodeFenced => "CodeFenced",
            Name::CodeIndented => "CodeIndented",
            Name::CodeText => "CodeText",
            Name::Definition => "Definition",
            Name::Emphasis => "Emphasis",
            Name::Frontmatter => "Frontmatter",
            Name::GfmAutolinkLiteralEmail => "GfmAutolinkLiteralEmail",
            Name::GfmAutolinkLiteralMailto => "GfmAutolinkLiteralMailto",
            Name::GfmAutolinkLiteralProtocol => "GfmAutolinkLiteralProtocol",
            Name::GfmAutolinkLiteralWww => "GfmAutolinkLiteralWww",
            Name::GfmAutolinkLiteralXmpp => "GfmAutolinkLiteralXmpp",
            Name::GfmFootnoteCall => "GfmFootnoteCall",
            Name::GfmFootnoteDefinition => "GfmFootnoteDefinition",
            Name::GfmStrikethrough => "GfmStrikethrough",
            Name::GfmTable => "GfmTable",
            Name::GfmTableRow => "GfmTableRow",
            Name::GfmTableCell => "GfmTableCell",
            Name::HeadingAtx => "HeadingAtx",
            Name::HeadingSetext => "HeadingSetext",
            Name::HtmlFlow => "HtmlFlow",
            Name::HtmlText => "HtmlText",
            Name::Image => "Image",
            Name::Link => "Link",
            Name::ListItem => "ListItem",
            Name::ListOrdered => "ListOrdered",
            Name::ListUnordered => "ListUnordered",
            Name::MathFlow => "MathFlow",
            Name::MathText => "MathText",
            Name::Paragraph => "Paragraph",
            Name::Strong => "Strong",
            Name::ThematicBreak => "ThematicBreak",
            Name::HardBreakEscape => "HardBreakEscape",
            Name::HardBreakTrailing => "HardBreakTrailing",
            Name::LineEnding => "LineEnding",
            Name::CodeFencedFence => "CodeFencedFence",
            Name::MathFlowFence => "MathFlowFence",
            Name::GfmTaskListItemValueChecked => "GfmTaskListItemValueChecked",
            Name::GfmTaskListItemValueUnchecked => "GfmTaskListItemValueUnchecked",
            Name::HeadingAtxSequence => "HeadingAtxSequence",
            Name::HeadingSetextText => "HeadingSetextText",
            Name::HeadingSetextUnderlineSequence => "HeadingSetextUnderlineSequence",
            Name::ListItemValue => "ListItemValue",
            Name::Reference => "Reference",
            Name::Resource => "Resource",
            Name::BlankLineEnding => "BlankLineEnding",
            Name::SpaceOrTab => "SpaceOrTab",
            Name::ListItemPrefix => "ListItemPrefix",
            Name::BlockQuotePrefix => "BlockQuotePrefix",
            Name::GfmTableDelimiterRow => "GfmTableDelimiterRow",
            Name::GfmTableDelimiterCellValue => "GfmTableDelimiterCellValue",
            Name::GfmTableDelimiterMarker => "GfmTableDelimiterMarker",
            Name::AttentionSequence => "AttentionSequence",
            Name::AutolinkMarker => "AutolinkMarker",
            Name::BlockQuoteMarker => "BlockQuoteMarker",
            Name::ByteOrderMark => "ByteOrderMark",
            Name::CharacterEscape => "CharacterEscape",
            Name::CharacterEscapeMarker => "CharacterEscapeMarker",
            Name::CharacterReferenceMarkerSemi => "CharacterReferenceMarkerSemi",
            Name::CodeFencedFenceSequence => "CodeFencedFenceSequence",
            Name::CodeTextSequence => "CodeTextSequence",
            Name::Content => "Content",
            Name::DefinitionDestination => "DefinitionDestination",
            Name::DefinitionDestinationLiteral => "DefinitionDestinationLiteral",
            Name::DefinitionDestinationLiteralMarker => "DefinitionDestinationLiteralMarker",
            Name::DefinitionDestinationRaw => "DefinitionDestinationRaw",
            Name::DefinitionLabel => "DefinitionLabel",
            Name::DefinitionLabelMarker => "DefinitionLabelMarker",
            Name::DefinitionMarker => "DefinitionMarker",
            Name::DefinitionTitle => "DefinitionTitle",
            Name::DefinitionTitleMarker => "DefinitionTitleMarker",
            Name::EmphasisSequence => "EmphasisSequence",
            Name::EmphasisText => "EmphasisText",
            Name::FrontmatterFence => "FrontmatterFence",
            Name::FrontmatterSequence => "FrontmatterSequence",
            Name::GfmFootnoteCallLabel => "GfmFootnoteCallLabel",
            Name::GfmFootnoteCallMarker => "GfmFootnoteCallMarker",
            Name::GfmFootnoteDefinitionLabel => "GfmFootnoteDefinitionLabel",
            Name::GfmFootnoteDefinitionLabelMarker => "GfmFootnoteDefinitionLabelMarker",
            Name::GfmFootnoteDefinitionMarker => "GfmFootnoteDefinitionMarker",
            Name::GfmFootnoteDefinitionPrefix => "GfmFootnoteDefinitionPrefix",
            Name::GfmStrikethroughSequence => "GfmStrikethroughSequence",
            Name::GfmStrikethroughText => "GfmStrikethroughText",
            Name::GfmTableBody => "GfmTableBody",
            Name::GfmTableCellDivider => "GfmTableCellDivider",
            Name::GfmTableCellText => "GfmTableCellText",
            Name::GfmTableDelimiterCell => "GfmTableDelimiterCell",
            Name::GfmTableDelimiterFiller => "GfmTableDelimiterFiller",
            Name::GfmTableHead => "GfmTableHead",
            Name::GfmTaskListItemCheck => "GfmTaskListItemCheck",
            Name::GfmTaskListItemMarker => "GfmTaskListItemMarker",
            Name::HeadingAtxText => "HeadingAtxText",
            Name::HeadingSetextUnderline => "HeadingSetextUnderline",
            Name::Label => "Label",
            Name::LabelEnd => "LabelEnd",
            Name::LabelImage => "LabelImage",
            Name::LabelImageMarker => "LabelImageMarker",
            Name::LabelLink => "LabelLink",
            Name::LabelMarker => "LabelMarker",
            Name::ListItemMarker => "ListItemMarker",
            Name::MathFlowFenceSequence => "MathFlowFenceSequence",
            Name::MathTextSequence => "MathTextSequence",
            Name::ReferenceMarker => "ReferenceMarker",
            Name::ResourceDestination => "ResourceDestination",
            Name::ResourceDestinationLiteral => "ResourceDestinationLiteral",
            Name::ResourceDestinationLiteralMarker => "ResourceDestinationLiteralMarker",
            Name::ResourceDestinationRaw => "ResourceDestinationRaw",
            Name::ResourceMarker => "ResourceMarker",
            Name::ResourceTitle => "ResourceTitle",
            Name::ResourceTitleMarker => "ResourceTitleMarker",
            Name::StrongSequence => "StrongSequence",
            Name::StrongText => "StrongText",
            Name::ThematicBreakSequence => "ThematicBreakSequence",
        }
    }

    /// Whether two names are the same, like `==`, with a contract of its own for the crates of this
    /// repository.
    ///
    /// `Name::Data.is(Name::Data)` is true, and `Name::HtmlFlow.is(Name::HtmlText)` is false.
    pub fn is(self, other: Name) -> bool
        ensures value { result ≡ is_same_name self other }
        ensures same { IsTrue result ↔ (self ≡ other) }
    {
        self == other
    }

    /// Returns the name with this spelling, or none. Case matters: `data` is not a name.
    ///
    /// `Name::find("Data")` is `Some(Name::Data)`, and `Name::find("Nope")` is `None`.
    pub fn find(text: &str) -> Option<Name>
        ensures value { result ≡ name_of text.now }
        ensures exact { (name : Name) → (result ≡ Some name) ↔ (spelling name ≡ text.now) }
    {
        Name::find_bytes(text.as_bytes())
    }

    /// Does what [`find`](Name::find) does for bytes, which need not be UTF-8.
    ///
    /// `Name::find_bytes(b"Data")` is `Some(Name::Data)`.
    pub fn find_bytes(text: &[u8]) -> Option<Name>
        ensures value { result ≡ name_of text.now }
        ensures exact { (name : Name) → (result ≡ Some name) ↔ (spelling name ≡ text.now) }
    {
        find_in_rows(&NAMES_BY_LENGTH, text)
    }
}

/// Returns the name with this spelling in the row of its length.
fn find_in_rows(rows: &[&[Name]], text: &[u8]) -> Option<Name>
    ensures { result ≡ name_of_length (map (λ row. row.now) rows.now) text.now }
{
    match rows.get(text.len()) {
        Some(row) => find_in_row(row, text),
        None => None,
    }
}

/// Returns the first name of a row with this spelling.
fn find_in_row(names: &[Name], text: &[u8]) -> Option<Name>
    ensures { result ≡ first_spelled names.now text.now }
{
    for name in names {
        if name.text().as_bytes() == text {
            return Some(*name);
        }
    }
    None
}

/// A place in a document, as in the tokenizer of the crate `markdown`.
///
/// In the document `Hi` the point after the `H` is `Point { line: 1, column: 2, index: 1, vs: 0 }`.
#[derive(Clone, Copy, PartialEq, Eq, Debug)]
pub struct Point {
    /// The line, counted from 1. It is not compared with the document.
    pub line: usize,
    /// The column, counted from 1, in the unit that the tokenizer counts.
    pub column: usize,
    /// The offset: how many bytes of the document come before the point, counted from 0.
    pub index: usize,
    /// Virtual spaces: for a point within a tab, how many of the tab's columns come before the
    /// point; otherwise 0.
    pub vs: usize,
}

impl Point {
    /// Returns the point in the form of unist: the index is the offset, and virtual spaces are
    /// dropped.
    ///
    /// `Point { line: 1, column: 3, index: 2, vs: 1 }.to_unist()` is `unist::Point::new(1, 3, 2)`.
    pub fn to_unist(&self) -> unist::Point
        ensures { result ≡ to_unist self.now }
    {
        unist::Point::new(self.line, self.column, self.index)
    }
}

/// The enter or the exit of a span (micromark).
///
/// The event line `+Data 1:1:0` is `Event { kind: Kind::Enter, name: Name::Data, point }`, where
/// `point` is the start of the document.
#[derive(Clone, Copy, PartialEq, Eq, Debug)]
pub struct Event {
    /// Whether it is an enter or an exit.
    pub kind: Kind,
    /// The name of the span.
    pub name: Name,
    /// Where the span begins or ends.
    pub point: Point,
}
