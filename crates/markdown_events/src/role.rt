//! What each name is to the tree. The other crates use only the roles of names, their spelling, and
//! whether two are the same. One name is written elsewhere: `row_align` in `infer` begins with
//! `Name::GfmTableDelimiterRow`, which says that nothing comes before in the row.

ghost use Rattle.std.specs.Prelude.{◌≡◌};
ghost use Rattle.markdown_events.specs.Names.{role_of};
ghost use Rattle.markdown_events.specs.Forest.{is_delimiter_row, is_delimiter_cell_value};
ghost use Rattle.markdown_events.specs.Spread.{is_blank_line, is_space_or_tab, is_item_prefix, is_quote_prefix, is_delimiter_marker};
ghost use Rattle.markdown_events.specs.Around.{is_sealed};
ghost use Rattle.markdown_events.specs.Walks.{is_list_item, is_block_quote};

use crate::event::Name;

/// A transparent name: its span has no node, and the spans in it count as if they were in the span
/// around it. Some kinds say whether a list is loose and how a table is aligned (ours).
///
/// `Name::EmphasisText.role()` is `Role::Transparent(TransparentKind::Other)`: the spans in it
/// count as if they were directly in the emphasis.
#[derive(Clone, Copy, PartialEq, Eq, Debug)]
pub enum TransparentKind {
    /// The line ending of a blank line (CommonMark, blank lines).
    BlankLineEnding,
    /// White space in a line.
    SpaceOrTab,
    /// The bullet or the number of a list item, with the white space around it.
    ListItemPrefix,
    /// The `>` of a block quote, with the white space around it.
    BlockQuotePrefix,
    /// The delimiter row of a table, under its head (GFM).
    DelimiterRow,
    /// The value of a cell in a delimiter row, which says how a column is aligned (GFM).
    DelimiterCellValue,
    /// A colon in a delimiter cell value (GFM).
    DelimiterMarker,
    /// Any other, which no rule mentions. Its span still counts as a child. If it is the first or
    /// the last child of a delimiter cell value, then a colon is not. If it comes directly before a
    /// blank line ending, or last in an item or in the block quote at the end of one, then a prefix
    /// does not.
    Other,
}

/// What content an item is: an item that containers of content accept any number of times (ours).
/// Names that mean the same to the tree share one variant.
///
/// `Name::HardBreakEscape` and `Name::HardBreakTrailing` are both `Content::HardBreak`.
#[derive(Clone, Copy, PartialEq, Eq, Debug)]
pub enum Content {
    /// Text as written.
    Data,
    /// A character reference, by name or by number: `&amp;`.
    CharacterReference,
    /// An autolink in angle brackets: `<https://a.b>`.
    Autolink,
    BlockQuote,
    CodeFenced,
    CodeIndented,
    /// Inline code.
    CodeText,
    /// A link reference definition: `[a]: b`.
    Definition,
    Emphasis,
    /// Frontmatter, YAML or TOML.
    Frontmatter,
    /// A literal autolink of an email address, to which `mailto:` is added (GFM).
    AutolinkLiteralEmail,
    /// A literal autolink that begins with `www.`, to which `http://` is added (GFM).
    AutolinkLiteralWww,
    /// A literal autolink with its scheme (GFM).
    AutolinkLiteralWhole,
    /// A reference to a footnote: `[^a]` (GFM).
    FootnoteCall,
    /// The definition of a footnote: `[^a]: b` (GFM).
    FootnoteDefinition,
    Strikethrough,
    Table,
    TableRow,
    TableCell,
    /// An ATX heading: `# a`.
    HeadingAtx,
    /// A setext heading, with an underline of equals signs or hyphens.
    HeadingSetext,
    /// HTML, block or inline.
    Html,
    Image,
    Link,
    ListItem,
    ListOrdered,
    ListUnordered,
    /// A block of math.
    MathFlow,
    /// Inline math.
    MathText,
    Paragraph,
    Strong,
    ThematicBreak,
    /// A hard line break, with a backslash or with spaces.
    HardBreak,
    LineEnding,
}

/// What part an item is: an item that only some containers accept, and that becomes a field of the
/// container's node (ours).
///
/// Only a link, an image and a footnote call accept `Part::LabelText`.
#[derive(Clone, Copy, PartialEq, Eq, Debug)]
pub enum Part {
    /// The email address of an autolink: `a@b.c` in `<a@b.c>`.
    AutolinkEmail,
    /// The URL of an autolink: `https://a.b` in `<https://a.b>`.
    AutolinkProtocol,
    /// The `&` that begins a character reference.
    CharacterReferenceMarker,
    /// The `#` of a character reference by number, which is decimal if there is no `x`.
    CharacterReferenceMarkerNumeric,
    /// The `x` or `X` after the `#`: the number is hexadecimal.
    CharacterReferenceMarkerHexadecimal,
    /// The name or the digits: `amp` in `&amp;`.
    CharacterReferenceValue,
    /// The first word after a code fence, which is the language.
    CodeFencedFenceInfo,
    /// The rest of the line of the fence after that word.
    CodeFencedFenceMeta,
    /// `b` in `[a]: b "c"`.
    DefinitionDestinationString,
    /// `a` in `[a]: b "c"`.
    DefinitionLabelString,
    /// `c` in `[a]: b "c"`.
    DefinitionTitleString,
    /// `a` in `[^a]: b`.
    FootnoteDefinitionLabelString,
    /// What is in the first brackets of a link, an image or a footnote call: `a` in `[a][b]`.
    LabelText,
    /// The rest of the line after a math fence.
    MathFlowFenceMeta,
    /// `b` in `[a][b]`.
    ReferenceString,
    /// `b` in `[a](b "c")`.
    ResourceDestinationString,
    /// `c` in `[a](b "c")`.
    ResourceTitleString,
    /// A code fence, opening or closing, with what is on its line.
    CodeFencedFence,
    /// A math fence, opening or closing, with what is on its line.
    MathFlowFence,
    /// The `x` in `[x]`: the task is done (GFM).
    TaskMarkChecked,
    /// The space in `[ ]`: the task is not done (GFM).
    TaskMarkUnchecked,
    /// The number signs before the text of an ATX heading, or after it.
    HeadingAtxSequence,
    /// The text of a setext heading, without the underline.
    HeadingSetextText,
    /// The equals signs or hyphens under a setext heading.
    HeadingSetextUnderlineSequence,
    /// The digits of a numbered item: `3` in `3. a`.
    ListItemValue,
    /// `[b]` in `[a][b]`.
    Reference,
    /// `(b "c")` in `[a](b "c")`.
    Resource,
}

/// What an item is: content, or a part (ours). An item is a span whose name is significant: it
/// matters to the tree.
///
/// `ItemKind::Content(Content::Paragraph)` becomes a node, and `ItemKind::Part(Part::LabelText)` is
/// the label of its container.
#[derive(Clone, Copy, PartialEq, Eq, Debug)]
pub enum ItemKind {
    /// It becomes a node.
    Content(Content),
    /// It says something about its container.
    Part(Part),
}

/// What a name is to the tree (ours).
///
/// `Name::Content.role()` is `Role::Transparent(TransparentKind::Other)`, and that of
/// `Name::Paragraph` is `Role::Significant(ItemKind::Content(Content::Paragraph))`.
#[derive(Clone, Copy, PartialEq, Eq, Debug)]
pub enum Role {
    /// It has no node and no field: the spans in it count as those of the span around it.
    Transparent(TransparentKind),
    /// It matters to the tree, as content or as a part.
    Significant(ItemKind),
}

impl Name {
    /// Returns what the name is to the tree.
    ///
    /// `Name::HtmlText.role()` is `Role::Significant(ItemKind::Content(Content::Html))`, as is that
    /// of `Name::HtmlFlow`.
    #[inline(always)]
    pub fn role(self) -> Role
        ensures { result ≡ role_of self }
    {
        match self {
            Name::Data
            | Name::CharacterEscapeValue
            | Name::CodeFlowChunk
            | Name::CodeTextData
            | Name::FrontmatterChunk
            | Name::HtmlFlowData
            | Name::HtmlTextData
            | Name::MathFlowChunk
            | Name::MathTextData => Role::Significant(ItemKind::Content(Content::Data)),
            Name::CharacterReference => Role::Significant(ItemKind::Content(
                Content::CharacterReference,
            )),
            Name::Autolink => Role::Significant(ItemKind::Content(Content::Autolink)),
            Name::BlockQuote => Role::Significant(ItemKind::Content(Content::BlockQuote)),
            Name::CodeFenced => Role::Significant(ItemKind::Content(Content::CodeFenced)),
            Name::CodeIndented => Role::Significant(ItemKind::Content(Content::CodeIndented)),
            Name::CodeText => Role::Significant(ItemKind::Content(Content::CodeText)),
            Name::Definition => Role::Significant(ItemKind::Content(Content::Definition)),
            Name::Emphasis => Role::Significant(ItemKind::Content(Content::Emphasis)),
            Name::Frontmatter => Role::Significant(ItemKind::Content(Content::Frontmatter)),
            Name::GfmAutolinkLiteralEmail => Role::Significant(ItemKind::Content(
                Content::AutolinkLiteralEmail,
            )),
            Name::GfmAutolinkLiteralWww => Role::Significant(ItemKind::Content(
                Content::AutolinkLiteralWww,
            )),
            Name::GfmAutolinkLiteralMailto
            | Name::GfmAutolinkLiteralProtocol
            | Name::GfmAutolinkLiteralXmpp => Role::Significant(ItemKind::Content(
                Content::AutolinkLiteralWhole,
            )),
            Name::GfmFootnoteCall => Role::Significant(ItemKind::Content(Content::FootnoteCall)),
            Name::GfmFootnoteDefinition => Role::Significant(ItemKind::Content(
                Content::FootnoteDefinition,
            )),
            Name::GfmStrikethrough => Role::Significant(ItemKind::Content(Content::Strikethrough)),
            Name::GfmTable => Role::Significant(ItemKind::Content(Content::Table)),
            Name::GfmTableRow => Role::Significant(ItemKind::Content(Content::TableRow)),
            Name::GfmTableCell => Role::Significant(ItemKind::Content(Content::TableCell)),
            Name::HeadingAtx => Role::Significant(ItemKind::Content(Content::HeadingAtx)),
            Name::HeadingSetext => Role::Significant(ItemKind::Content(Content::HeadingSetext)),
            Name::HtmlFlow | Name::HtmlText => Role::Significant(ItemKind::Content(Content::Html)),
            Name::Image => Role::Significant(ItemKind::Content(Content::Image)),
            Name::Link => Role::Significant(ItemKind::Content(Content::Link)),
            Name::ListItem => Role::Significant(ItemKind::Content(Content::ListItem)),
            Name::ListOrdered => Role::Significant(ItemKind::Content(Content::ListOrdered)),
            Name::ListUnordered => Role::Significant(ItemKind::Content(Content::ListUnordered)),
            Name::MathFlow => Role::Significant(ItemKind::Content(Content::MathFlow)),
            Name::MathText => Role::Significant(ItemKind::Content(Content::MathText)),
            Name::Paragraph => Role::Significant(ItemKind::Content(Content::Paragraph)),
            Name::Strong => Role::Significant(ItemKind::Content(Content::Strong)),
            Name::ThematicBreak => Role::Significant(ItemKind::Content(Content::ThematicBreak)),
            Name::HardBreakEscape | Name::HardBreakTrailing => Role::Significant(ItemKind::Content(
                Content::HardBreak,
            )),
            Name::LineEnding => Role::Significant(ItemKind::Content(Content::LineEnding)),
            Name::AutolinkEmail => Role::Significant(ItemKind::Part(Part::AutolinkEmail)),
            Name::AutolinkProtocol => Role::Significant(ItemKind::Part(Part::AutolinkProtocol)),
            Name::CharacterReferenceMarker => Role::Significant(ItemKind::Part(
                Part::CharacterReferenceMarker,
            )),
            Name::CharacterReferenceMarkerNumeric => Role::Significant(ItemKind::Part(
                Part::CharacterReferenceMarkerNumeric,
            )),
            Name::CharacterReferenceMarkerHexadecimal => Role::Significant(ItemKind::Part(
                Part::CharacterReferenceMarkerHexadecimal,
            )),
            Name::CharacterReferenceValue => Role::Significant(ItemKind::Part(
                Part::CharacterReferenceValue,
            )),
            Name::CodeFencedFenceInfo => Role::Significant(ItemKind::Part(
                Part::CodeFencedFenceInfo,
            )),
            Name::CodeFencedFenceMeta => Role::Significant(ItemKind::Part(
                Part::CodeFencedFenceMeta,
            )),
            Name::DefinitionDestinationString => Role::Significant(ItemKind::Part(
                Part::DefinitionDestinationString,
            )),
            Name::DefinitionLabelString => Role::Significant(ItemKind::Part(
                Part::DefinitionLabelString,
            )),
            Name::DefinitionTitleString => Role::Significant(ItemKind::Part(
                Part::DefinitionTitleString,
            )),
            Name::GfmFootnoteDefinitionLabelString => Role::Significant(ItemKind::Part(
                Part::FootnoteDefinitionLabelString,
            )),
            Name::LabelText => Role::Significant(ItemKind::Part(Part::LabelText)),
            Name::MathFlowFenceMeta => Role::Significant(ItemKind::Part(Part::MathFlowFenceMeta)),
            Name::ReferenceString => Role::Significant(ItemKind::Part(Part::ReferenceString)),
            Name::ResourceDestinationString => Role::Significant(ItemKind::Part(
                Part::ResourceDestinationString,
            )),
            Name::ResourceTitleString => Role::Significant(ItemKind::Part(
                Part::ResourceTitleString,
            )),
            Name::CodeFencedFence => Role::Significant(ItemKind::Part(Part::CodeFencedFence)),
            Name::MathFlowFence => Role::Significant(ItemKind::Part(Part::MathFlowFence)),
            Name::GfmTaskListItemValueChecked => Role::Significant(ItemKind::Part(
                Part::TaskMarkChecked,
            )),
            Name::GfmTaskListItemValueUnchecked => Role::Significant(ItemKind::Part(
                Part::TaskMarkUnchecked,
            )),
            Name::HeadingAtxSequence => Role::Significant(ItemKind::Part(Part::HeadingAtxSequence)),
            Name::HeadingSetextText => Role::Significant(ItemKind::Part(Part::HeadingSetextText)),
            Name::HeadingSetextUnderlineSequence => Role::Significant(ItemKind::Part(
                Part::HeadingSetextUnderlineSequence,
            )),
            Name::ListItemValue => Role::Significant(ItemKind::Part(Part::ListItemValue)),
            Name::Reference => Role::Significant(ItemKind::Part(Part::Reference)),
            Name::Resource => Role::Significant(ItemKind::Part(Part::Resource)),
            Name::BlankLineEnding => Role::Transparent(TransparentKind::BlankLineEnding),
            Name::SpaceOrTab => Role::Transparent(TransparentKind::SpaceOrTab),
            Name::ListItemPrefix => Role::Transparent(TransparentKind::ListItemPrefix),
            Name::BlockQuotePrefix => Role::Transparent(TransparentKind::BlockQuotePrefix),
            Name::GfmTableDelimiterRow => Role::Transparent(TransparentKind::DelimiterRow),
            Name::GfmTableDelimiterCellValue => Role::Transparent(
                TransparentKind::DelimiterCellValue,
            ),
            Name::GfmTableDelimiterMarker => Role::Transparent(TransparentKind::DelimiterMarker),
            // Four arms with one body: the prover can tell at most sixteen names of an arm apart.
            Name::AttentionSequence
            | Name::AutolinkMarker
            | Name::BlockQuoteMarker
            | Name::ByteOrderMark
            | Name::CharacterEscape
            | Name::CharacterEscapeMarker
            | Name::CharacterReferenceMarkerSemi
            | Name::CodeFencedFenceSequence
            | Name::CodeTextSequence
            | Name::Content
            | Name::DefinitionDestination
            | Name::DefinitionDestinationLiteral
            | Name::DefinitionDestinationLiteralMarker
            | Name::DefinitionDestinationRaw
            | Name::DefinitionLabel
            | Name::DefinitionLabelMarker => Role::Transparent(TransparentKind::Other),
            Name::DefinitionMarker
            | Name::DefinitionTitle
            | Name::DefinitionTitleMarker
            | Name::EmphasisSequence
            | Name::EmphasisText
            | Name::FrontmatterFence
            | Name::FrontmatterSequence
            | Name::GfmFootnoteCallLabel
            | Name::GfmFootnoteCallMarker
            | Name::GfmFootnoteDefinitionLabel
            | Name::GfmFootnoteDefinitionLabelMarker
            | Name::GfmFootnoteDefinitionMarker
            | Name::GfmFootnoteDefinitionPrefix
            | Name::GfmStrikethroughSequence
            | Name::GfmStrikethroughText
            | Name::GfmTableBody => Role::Transparent(TransparentKind::Other),
            Name::GfmTableCellDivider
            | Name::GfmTableCellText
            | Name::GfmTableDelimiterCell
            | Name::GfmTableDelimiterFiller
            | Name::GfmTableHead
            | Name::GfmTaskListItemCheck
            | Name::GfmTaskListItemMarker
            | Name::HeadingAtxText
            | Name::HeadingSetextUnderline
            | Name::Label
            | Name::LabelEnd
            | Name::LabelImage
            | Name::LabelImageMarker
            | Name::LabelLink
            | Name::LabelMarker
            | Name::ListItemMarker => Role::Transparent(TransparentKind::Other),
            Name::MathFlowFenceSequence
            | Name::MathTextSequence
            | Name::ReferenceMarker
            | Name::ResourceDestination
            | Name::ResourceDestinationLiteral
            | Name::ResourceDestinationLiteralMarker
            | Name::ResourceDestinationRaw
            | Name::ResourceMarker
            | Name::ResourceTitle
            | Name::ResourceTitleMarker
            | Name::StrongSequence
            | Name::StrongText
            | Name::ThematicBreakSequence => Role::Transparent(TransparentKind::Other),
        }
    }
}

impl Role {
    /// Whether a span of this role may contain no span: a line ending, the ending of a blank line, or
    /// white space in a line (ours; micromark has no spans in them).
    ///
    /// `Name::LineEnding.role().is_sealed()` is true.
    pub fn is_sealed(self) -> bool
        ensures { result ≡ is_sealed self }
    {
        matches!(
            self,
            Role::Significant(ItemKind::Content(Content::LineEnding))
                | Role::Transparent(TransparentKind::BlankLineEnding | TransparentKind::SpaceOrTab)
        )
    }

    /// Whether it is the ending of a blank line.
    pub(crate) fn is_blank_line(self) -> bool
        ensures { result ≡ is_blank_line self }
    {
        matches!(self, Role::Transparent(TransparentKind::BlankLineEnding))
    }

    /// Whether it is white space in a line.
    pub(crate) fn is_space_or_tab(self) -> bool
        ensures { result ≡ is_space_or_tab self }
    {
        matches!(self, Role::Transparent(TransparentKind::SpaceOrTab))
    }

    /// Whether it is the prefix of a list item, before its content.
    pub(crate) fn is_item_prefix(self) -> bool
        ensures { result ≡ is_item_prefix self }
    {
        matches!(self, Role::Transparent(TransparentKind::ListItemPrefix))
    }

    /// Whether it is the prefix of a block quote, before its content.
    pub(crate) fn is_quote_prefix(self) -> bool
        ensures { result ≡ is_quote_prefix self }
    {
        matches!(self, Role::Transparent(TransparentKind::BlockQuotePrefix))
    }

    /// Whether it is the delimiter row of a table (GFM).
    ///
    /// `Name::GfmTableDelimiterRow.role().is_delimiter_row()` is true.
    pub fn is_delimiter_row(self) -> bool
        ensures { result ≡ is_delimiter_row self }
    {
        matches!(self, Role::Transparent(TransparentKind::DelimiterRow))
    }

    /// Whether it is the value of a cell in a delimiter row (GFM).
    ///
    /// `Name::GfmTableDelimiterCellValue.role().is_delimiter_cell_value()` is true.
    pub fn is_delimiter_cell_value(self) -> bool
        ensures { result ≡ is_delimiter_cell_value self }
    {
        matches!(self, Role::Transparent(TransparentKind::DelimiterCellValue))
    }

    /// Whether it is a colon that says how a column is aligned.
    pub(crate) fn is_delimiter_marker(self) -> bool
        ensures { result ≡ is_delimiter_marker self }
    {
        matches!(self, Role::Transparent(TransparentKind::DelimiterMarker))
    }

    /// Whether it is an item of a list.
    pub(crate) fn is_list_item(self) -> bool
        ensures { result ≡ is_list_item self }
    {
        matches!(
            self,
            Role::Significant(ItemKind::Content(Content::ListItem))
        )
    }

    /// Whether it is a block quote.
    pub(crate) fn is_block_quote(self) -> bool
        ensures { result ≡ is_block_quote self }
    {
        matches!(
            self,
            Role::Significant(ItemKind::Content(Content::BlockQuote))
        )
    }
}
