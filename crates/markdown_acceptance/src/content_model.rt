//! The content models of the grammar: what a container accepts.

ghost use Rattle.std.specs.Prelude.{◌≡◌};
ghost use Rattle.markdown_acceptance.specs.ContentModels.{grammar_model};
ghost use Rattle.markdown_events.specs.declared.role.Content.TheVariants as contents;
ghost use Rattle.markdown_events.specs.declared.role.ItemKind.TheVariants as item_kinds;
ghost use Rattle.markdown_events.specs.declared.role.Part.TheVariants as parts;
ghost use Rattle.markdown_grammar.specs.Grammar.{content_model, model_after, model_of, part_model};

use markdown_events::role::{Content, ItemKind, Part};

mod rules;

/// What a container accepts: the rules for the items in it (ours; `docs/GRAMMAR.md` has them).
///
/// A paragraph in a block quote is `ContentModel::AnyContent`: it accepts any content, and no part.
#[derive(Clone, Copy, PartialEq, Eq, Debug)]
pub enum ContentModel {
    /// Any content, and no part.
    AnyContent,
    /// `<https://a.b>`: its address.
    Autolink,
    /// A link or an image: its label, and its resource or its reference.
    Media,
    /// `[^a]`: its label.
    FootnoteCall,
    /// `(b "c")` after a label: a destination and a title.
    Resource,
    /// `[b]` after a label: an identifier.
    Reference,
    /// `[a]: b "c"`: an identifier, a destination and a title.
    Definition,
    /// `&amp;`: a marker, and then the value.
    CharacterReference,
    /// The first fence of a block of code: the info and the meta.
    CodeFence,
    /// The first fence of a block of math: the meta.
    MathFence,
    /// Nothing.
    Leaf,
    /// An ordered list, in which one item must have a number.
    ListOrdered,
    /// An item of an unordered list, without a check mark so far.
    ListItem,
    /// An item of an ordered list, without a check mark so far.
    NumberedItem,
    /// An item of an unordered list, after a check mark.
    MarkedItem,
    /// An item of an ordered list, after a check mark.
    MarkedNumberedItem,
    /// A paragraph of an item without a check mark so far: it accepts one.
    TaskParagraph,
    /// A paragraph of an item after a check mark.
    MarkedParagraph,
    /// `[^a]: b`: an identifier, and content.
    FootnoteDefinition,
    /// An ATX heading before its first sequence.
    HeadingAtx,
    /// An ATX heading after its first sequence.
    HeadingText,
    /// A setext heading: its text and its underline.
    HeadingSetext,
    /// Fenced code before its first fence.
    CodeFenced,
    /// Fenced math before its first fence.
    MathFlow,
    /// Fenced code after its first fence.
    CodeBuffer,
    /// Fenced math after its first fence.
    MathBuffer,
}

impl ContentModel {
    /// Returns the content model of an item in a container of this content model.
    ///
    /// `ContentModel::AnyContent.inside(item)` is `ContentModel::Media` for a link.
    pub fn inside(self, what: ItemKind) -> ContentModel
        ensures { grammar_model result ≡ model_of (grammar_model self) what }
    {
        match what {
            ItemKind::Content(content) => self.inside_content(content),
            ItemKind::Part(part) => self.inside_part(part),
        }
    }

    /// Returns the content model of content in it.
    fn inside_content(self, content: Content) -> ContentModel
        ensures { grammar_model result ≡ content_model (grammar_model self) content }
    {
        match content {
            Content::CharacterReference => ContentModel::CharacterReference,
            Content::Autolink => ContentModel::Autolink,
            Content::Link | Content::Image => ContentModel::Media,
            Content::FootnoteCall => ContentModel::FootnoteCall,
            Content::Definition => ContentModel::Definition,
            Content::ListOrdered => ContentModel::ListOrdered,
            Content::ListItem => self.item(),
            Content::Paragraph => self.paragraph(),
            Content::FootnoteDefinition => ContentModel::FootnoteDefinition,
            Content::HeadingAtx => ContentModel::HeadingAtx,
            Content::HeadingSetext => ContentModel::HeadingSetext,
            Content::CodeFenced => ContentModel::CodeFenced,
            Content::MathFlow => ContentModel::MathFlow,
            Content::BlockQuote
            | Content::CodeIndented
            | Content::CodeText
            | Content::Emphasis
            | Content::Frontmatter
            | Content::Strikethrough
            | Content::Table
            | Content::TableRow
            | Content::TableCell
            | Content::Html
            | Content::ListUnordered
            | Content::MathText
            | Content::Strong => ContentModel::AnyContent,
            _ => ContentModel::Leaf,
        }
    }

    /// Returns the content model of a list item in it.
    fn item(self) -> ContentModel
        ensures { grammar_model result ≡ content_model (grammar_model self) contents.ListItem }
    {
        match self {
            ContentModel::ListOrdered => ContentModel::NumberedItem,
            _ => ContentModel::ListItem,
        }
    }

    /// Returns the content model of a paragraph in it.
    fn paragraph(self) -> ContentModel
        ensures { grammar_model result ≡ content_model (grammar_model self) contents.Paragraph }
    {
        match self {
            ContentModel::ListItem | ContentModel::NumberedItem => ContentModel::TaskParagraph,
            ContentModel::MarkedItem | ContentModel::MarkedNumberedItem => {
                ContentModel::MarkedParagraph
            }
            _ => ContentModel::AnyContent,
        }
    }

    /// Returns the content model of a part in it.
    fn inside_part(self, part: Part) -> ContentModel
        ensures { grammar_model result ≡ part_model (grammar_model self) part }
    {
        match part {
            Part::CodeFencedFence => self.code_fence(),
            Part::MathFlowFence => self.math_fence(),
            Part::Resource => ContentModel::Resource,
            Part::Reference => ContentModel::Reference,
            Part::CodeFencedFenceInfo
            | Part::CodeFencedFenceMeta
            | Part::DefinitionDestinationString
            | Part::DefinitionLabelString
            | Part::DefinitionTitleString
            | Part::FootnoteDefinitionLabelString
            | Part::LabelText
            | Part::MathFlowFenceMeta
            | Part::ReferenceString
            | Part::ResourceDestinationString
            | Part::ResourceTitleString
            | Part::HeadingSetextText => ContentModel::AnyContent,
            _ => ContentModel::Leaf,
        }
    }

    /// Returns the content model of a fence of code in it.
    fn code_fence(self) -> ContentModel
        ensures { grammar_model result ≡ part_model (grammar_model self) parts.CodeFencedFence }
    {
        match self {
            ContentModel::CodeFenced => ContentModel::CodeFence,
            _ => ContentModel::Leaf,
        }
    }

    /// Returns the content model of a fence of math in it.
    fn math_fence(self) -> ContentModel
        ensures { grammar_model result ≡ part_model (grammar_model self) parts.MathFlowFence }
    {
        match self {
            ContentModel::MathFlow => ContentModel::MathFence,
            _ => ContentModel::Leaf,
        }
    }

    /// Returns the content model for what follows an item in the container. `is_marked` says
    /// whether the item contributed a check mark.
    ///
    /// `ContentModel::CodeFenced.after(item, false)` is `ContentModel::CodeBuffer` for a fence.
    pub fn after(self, what: ItemKind, is_marked: bool) -> ContentModel
        ensures { grammar_model result ≡ model_after (grammar_model self) what is_marked }
    {
        match what {
            ItemKind::Part(Part::CodeFencedFence) => self.after_code_fence(is_marked),
            ItemKind::Part(Part::MathFlowFence) => self.after_math_fence(is_marked),
            ItemKind::Part(Part::HeadingAtxSequence) => self.after_sequence(is_marked),
            ItemKind::Content(Content::Paragraph) => self.after_paragraph(is_marked),
            _ => self,
        }
    }

    /// Returns the content model after a fence of code.
    fn after_code_fence(self, is_marked: bool) -> ContentModel
        ensures { grammar_model result ≡ model_after (grammar_model self) (item_kinds.Part parts.CodeFencedFence) is_marked }
    {
        match self {
            ContentModel::CodeFenced => ContentModel::CodeBuffer,
            _ => self,
        }
    }

    /// Returns the content model after a fence of math.
    fn after_math_fence(self, is_marked: bool) -> ContentModel
        ensures { grammar_model result ≡ model_after (grammar_model self) (item_kinds.Part parts.MathFlowFence) is_marked }
    {
        match self {
            ContentModel::MathFlow => ContentModel::MathBuffer,
            _ => self,
        }
    }

    /// Returns the content model after the sequence of an ATX heading.
    fn after_sequence(self, is_marked: bool) -> ContentModel
        ensures { grammar_model result ≡ model_after (grammar_model self) (item_kinds.Part parts.HeadingAtxSequence) is_marked }
    {
        match self {
            ContentModel::HeadingAtx => ContentModel::HeadingText,
            _ => self,
        }
    }

    /// Returns the content model after a paragraph.
    fn after_paragraph(self, is_marked: bool) -> ContentModel
        ensures { grammar_model result ≡ model_after (grammar_model self) (item_kinds.Content contents.Paragraph) is_marked }
    {
        match self {
            ContentModel::ListItem if is_marked => ContentModel::MarkedItem,
            ContentModel::NumberedItem if is_marked => ContentModel::MarkedNumberedItem,
            _ => self,
        }
    }
}
