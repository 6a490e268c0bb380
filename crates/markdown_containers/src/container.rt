//! What an open span is to the items in it, with one arm for each construct.

ghost use Rattle.std.specs.Prelude.{◌≡◌, ◌≢◌, ◌≤◌, ◌+◌, None, Option, false, string_bytes, true};
ghost use Rattle.markdown_containers.specs.Containers.{
  IsFresh,
  IsNoLeaf,
  KeepsAnywhere,
  KeepsNodes,
  KeepsPart,
  KeepsWords,
  current_model_of,
  initial_model_of,
  is_label_string,
  is_model_of,
  is_part_model,
  is_text_part,
  misfit_of,
  summary_of_nodes,
};
ghost use Rattle.markdown_containers.specs.declared.container.Container.TheVariants as containers;
ghost use Rattle.markdown_events.specs.declared.event.Point.{Point};
ghost use Rattle.markdown_events.specs.declared.role.Content.TheVariants as contents;
ghost use Rattle.markdown_events.specs.declared.role.ItemKind.TheVariants as item_kinds;
ghost use Rattle.markdown_events.specs.declared.role.Part.TheVariants as parts;
ghost use Rattle.markdown_grammar.specs.Buffers.{node_count};
ghost use Rattle.markdown_grammar.specs.Document.{source_of};
ghost use Rattle.markdown_grammar.specs.Grammar as models;
ghost use Rattle.markdown_grammar.specs.Grammar.{ContentModel};
ghost use Rattle.markdown_nodes.specs.View.{views};
ghost use Rattle.markdown_steps.specs.Compiler.{nothing_yet};
ghost use Rattle.markdown_steps.specs.Visits.{visits_at_end};

use character_references::references::References;
use markdown_blocks::code::{CodeFenceParts, CodeFencedParts};
use markdown_blocks::heading::{AtxParts, SetextParts};
use markdown_blocks::list::{
    ListItemParts, NumberedItemParts, OrderedListParts, TaskParagraphParts,
    misfit_in_marked_paragraph,
};
use markdown_blocks::math::{MathFenceParts, MathFlowParts};
use markdown_grammar::error_kind::{ErrorKind, Stop};
use markdown_inlines::autolink::AutolinkParts;
use markdown_inlines::character_reference::{CharacterReferenceParts, Marker};
use markdown_inlines::definition::DefinitionParts;
use markdown_inlines::footnote_call::FootnoteCallParts;
use markdown_inlines::footnote_definition::FootnoteDefinitionParts;
use markdown_inlines::media::{MediaParts, ReferenceParts, ResourceParts};
use markdown_nodes::event::Point;
use markdown_nodes::mdast::Node;
use markdown_nodes::role::{Content, ItemKind, Part};
use markdown_nodes::steps::Steps;
use markdown_parts::buffer::values_of;
use markdown_parts::joining::drained;
use markdown_parts::slice::Document;
use std::alloc::Global;

/// What an open significant span is to the items in it, with its parts so far. Each content model
/// of the grammar, except that of the leaves, is one of these.
#[derive(Drop)]
pub enum Container<'a> {
    /// It accepts any content, and no part.
    AnyContent,
    Autolink(AutolinkParts<'a>),
    /// A link or an image.
    Media(MediaParts<'a>),
    FootnoteCall(FootnoteCallParts<'a>),
    /// The resource of a link or an image.
    Resource(ResourceParts),
    /// The reference of a link or an image.
    Reference(ReferenceParts),
    Definition(DefinitionParts),
    CharacterReference(CharacterReferenceParts),
    /// The first fence of a block of code.
    CodeFence(CodeFenceParts),
    /// The first fence of a block of math.
    MathFence(MathFenceParts),
    ListOrdered(OrderedListParts),
    /// An item of an unordered list.
    ListItem(ListItemParts),
    /// An item of an ordered list.
    NumberedItem(NumberedItemParts),
    /// A paragraph of an item that has no mark yet.
    TaskParagraph(TaskParagraphParts),
    /// A paragraph of an item that has a mark.
    MarkedParagraph,
    FootnoteDefinition(FootnoteDefinitionParts),
    HeadingAtx(AtxParts),
    HeadingSetext(SetextParts),
    CodeFenced(CodeFencedParts),
    MathFlow(MathFlowParts),
}

impl<'a> Container<'a> {
    /// Returns the rule that this item would violate here, if any.
    #[inline(always)]
    pub fn misfit(&self, what: ItemKind) -> Option<ErrorKind>
        ensures { result ≡ misfit_of self.now what }
    {
        match (self, what) {
            (Container::AnyContent, ItemKind::Content(_)) => None,
            _ => self.misfit_of_any(what),
        }
    }

    /// Does the same, and is not inlined: most items are content where any content is accepted.
    #[inline(never)]
    fn misfit_of_any(&self, what: ItemKind) -> Option<ErrorKind>
        ensures { result ≡ misfit_of self.now what }
    {
        match self {
            Container::AnyContent | Container::ListOrdered(_) | Container::ListItem(_) => {
                match what {
                    ItemKind::Content(_) => None,
                    ItemKind::Part(_) => Some(ErrorKind::Misplaced),
                }
            }
            Container::Autolink(parts) => parts.misfit(what),
            Container::Media(parts) => parts.misfit(what),
            Container::FootnoteCall(parts) => parts.misfit(what),
            Container::Resource(parts) => parts.misfit(what),
            Container::Reference(parts) => parts.misfit(what),
            Container::Definition(parts) => parts.misfit(what),
            Container::CharacterReference(parts) => parts.misfit(what),
            Container::CodeFence(parts) => parts.misfit(what),
            Container::MathFence(parts) => parts.misfit(what),
            Container::NumberedItem(parts) => parts.misfit(what),
            Container::TaskParagraph(parts) => parts.misfit(what),
            Container::MarkedParagraph => misfit_in_marked_paragraph(what),
            Container::FootnoteDefinition(parts) => parts.misfit(what),
            Container::HeadingAtx(parts) => parts.misfit(what),
            Container::HeadingSetext(parts) => parts.misfit(what),
            Container::CodeFenced(parts) => parts.misfit(what),
            Container::MathFlow(parts) => parts.misfit(what),
        }
    }
}

impl<'a> Container<'a> {
    /// Whether this container takes a span as a leaf, which contains no items. A fence after the
    /// first is one.
    #[inline(always)]
    pub fn takes_as_leaf(&self, what: ItemKind) -> bool
        ensures leaf { result ≡ true → models.model_of (current_model_of self.now) what ≡ models.leaf }
        ensures container { result ≡ false → models.model_of (current_model_of self.now) what ≢ models.leaf }
    {
        match what {
            ItemKind::Content(content) => is_leaf(content),
            ItemKind::Part(part) => self.takes_part_as_leaf(part),
        }
    }

    /// Whether this container takes a part as a leaf.
    fn takes_part_as_leaf(&self, part: Part) -> bool
        ensures leaf { result ≡ true → models.part_model (current_model_of self.now) part ≡ models.leaf }
        ensures container { result ≡ false → models.part_model (current_model_of self.now) part ≢ models.leaf }
    {
        match part {
            Part::CodeFencedFence => !self.awaits_code_fence(),
            Part::MathFlowFence => !self.awaits_math_fence(),
            other => is_leaf_part(other),
        }
    }

    /// Whether this is fenced code without a fence so far, which means that the next fence is the
    /// first.
    fn awaits_code_fence(&self) -> bool
        ensures leaf { result ≡ false → models.part_model (current_model_of self.now) parts.CodeFencedFence ≡ models.leaf }
        ensures container { result ≡ true → models.part_model (current_model_of self.now) parts.CodeFencedFence ≢ models.leaf }
    {
        match self {
            Container::CodeFenced(parts) => parts.fence.is_none(),
            _ => false,
        }
    }

    /// Whether this is a block of math without a fence so far, which means that the next fence is
    /// the first.
    fn awaits_math_fence(&self) -> bool
        ensures leaf { result ≡ false → models.part_model (current_model_of self.now) parts.MathFlowFence ≡ models.leaf }
        ensures container { result ≡ true → models.part_model (current_model_of self.now) parts.MathFlowFence ≢ models.leaf }
    {
        match self {
            Container::MathFlow(parts) => parts.fence.is_none(),
            _ => false,
        }
    }

    /// Returns what a span that is not a leaf is to the items in it, at its enter in this
    /// container.
    pub fn opened(&self, what: ItemKind) -> Container<'a>
        requires { models.model_of (current_model_of self.now) what ≢ models.leaf }
        ensures { IsFresh result (models.model_of (current_model_of self.now) what) }
    {
        match what {
            ItemKind::Content(content) => self.opened_by_content(content),
            ItemKind::Part(part) => self.opened_by_part(part),
        }
    }

    /// Whether a span in this container accepts any content and keeps no parts. It may also say no of
    /// one that does.
    pub fn opens_any_content(&self, what: ItemKind) -> bool
        ensures { result ≡ true → IsFresh containers.AnyContent (models.model_of (current_model_of self.now) what) }
    {
        match what {
            ItemKind::Content(Content::Paragraph) => !self.is_item(),
            ItemKind::Content(content) => accepts_any_content(content),
            ItemKind::Part(part) => is_text(part),
        }
    }

    /// Whether a span is an item of an unordered list in this container.
    pub fn opens_list_item(&self, what: ItemKind) -> bool
        ensures yes { result ≡ true → models.model_of (current_model_of self.now) what ≡ models.list_item }
        ensures no { result ≡ false → models.model_of (current_model_of self.now) what ≢ models.list_item }
    {
        match (self, what) {
            (Container::ListOrdered(_), _) => false,
            (_, ItemKind::Content(Content::ListItem)) => true,
            _ => false,
        }
    }

    /// Whether a span is a paragraph of an item that has no mark yet in this container.
    pub fn opens_task_paragraph(&self, what: ItemKind) -> bool
        ensures yes { result ≡ true → models.model_of (current_model_of self.now) what ≡ models.task_paragraph }
        ensures no { result ≡ false → models.model_of (current_model_of self.now) what ≢ models.task_paragraph }
    {
        match (self, what) {
            (
                Container::ListItem(ListItemParts { mark: None })
                | Container::NumberedItem(NumberedItemParts { mark: None, .. }),
                ItemKind::Content(Content::Paragraph),
            ) => true,
            _ => false,
        }
    }

    /// Whether it is an item of a list.
    fn is_item(&self) -> bool
        ensures { result ≡ false → models.content_model (current_model_of self.now) contents.Paragraph ≡ models.any_content }
    {
        matches!(self, Container::ListItem(_) | Container::NumberedItem(_))
    }

    /// Returns what a span of content that is not a leaf is to the items in it.
    fn opened_by_content(&self, content: Content) -> Container<'a>
        requires { models.content_model (current_model_of self.now) content ≢ models.leaf }
        ensures { IsFresh result (models.content_model (current_model_of self.now) content) }
    {
        match content {
            Content::CharacterReference => {
                Container::CharacterReference(CharacterReferenceParts::new())
            }
            Content::Autolink => Container::Autolink(AutolinkParts::new()),
            Content::Link | Content::Image => Container::Media(MediaParts::new()),
            Content::FootnoteCall => Container::FootnoteCall(FootnoteCallParts::new()),
            Content::Definition => Container::Definition(DefinitionParts::new()),
            Content::ListOrdered => Container::ListOrdered(OrderedListParts::new()),
            Content::ListItem => self.opened_item(),
            Content::Paragraph => self.opened_paragraph(),
            Content::FootnoteDefinition => {
                Container::FootnoteDefinition(FootnoteDefinitionParts::new())
            }
            Content::HeadingAtx => Container::HeadingAtx(AtxParts::new()),
            Content::HeadingSetext => Container::HeadingSetext(SetextParts::new()),
            Content::CodeFenced => Container::CodeFenced(CodeFencedParts::new()),
            Content::MathFlow => Container::MathFlow(MathFlowParts::new()),
            other if !is_leaf(other) => Container::AnyContent,
            _ => unreachable!(),
        }
    }

    /// Returns an item, which has a number in an ordered list.
    fn opened_item(&self) -> Container<'a>
        ensures { IsFresh result (models.content_model (current_model_of self.now) contents.ListItem) }
    {
        match self {
            Container::ListOrdered(_) => Container::NumberedItem(NumberedItemParts::new()),
            _ => Container::ListItem(ListItemParts::new()),
        }
    }

    /// Returns a paragraph, which may have a mark in an item without one.
    fn opened_paragraph(&self) -> Container<'a>
        ensures { IsFresh result (models.content_model (current_model_of self.now) contents.Paragraph) }
    {
        match self {
            Container::ListItem(ListItemParts { mark: None })
            | Container::NumberedItem(NumberedItemParts { mark: None, .. }) => {
                Container::TaskParagraph(TaskParagraphParts::new())
            }
            Container::ListItem(_) | Container::NumberedItem(_) => Container::MarkedParagraph,
            _ => Container::AnyContent,
        }
    }

    /// Returns what a part that is not a leaf is to the items in it.
    fn opened_by_part(&self, part: Part) -> Container<'a>
        requires { models.part_model (current_model_of self.now) part ≢ models.leaf }
        ensures { IsFresh result (models.part_model (current_model_of self.now) part) }
    {
        match part {
            Part::CodeFencedFence => Container::CodeFence(CodeFenceParts::new()),
            Part::MathFlowFence => Container::MathFence(MathFenceParts::new()),
            Part::Resource => Container::Resource(ResourceParts::new()),
            Part::Reference => Container::Reference(ReferenceParts::new()),
            other if !is_leaf_part(other) => Container::AnyContent,
            _ => unreachable!(),
        }
    }
}

impl<'a> Container<'a> {
    /// Takes a part that contains nothing: a marker, a mark, a value or a sequence.
    pub fn take_leaf_part<R: References>(
        &mut self,
        alloc: Global,
        document: &Document<'a>,
        references: &R,
        part: Part,
        start: Point,
        end: Point,
    ) -> Result<(), Stop>
        requires leaf { models.part_model (current_model_of self.old) part ≡ models.leaf }
        requires fits { misfit_of self.old (item_kinds.Part part) ≡ None }
        ensures { KeepsPart (source_of document.now (R.text references.now)) part start end nothing_yet self.old self.new result }
    {
        match (self, part) {
            (Container::Autolink(parts), Part::AutolinkEmail) => {
                parts.take_email(alloc, document, start, end)
            }
            (Container::Autolink(parts), Part::AutolinkProtocol) => {
                parts.take_protocol(alloc, document, start, end)
            }
            (Container::CharacterReference(parts), Part::CharacterReferenceValue) => {
                parts.take_value(alloc, document, references, start, end)
            }
            (Container::HeadingAtx(parts), Part::HeadingAtxSequence) => {
                parts.take_sequence(document, start, end)
            }
            (Container::HeadingSetext(parts), Part::HeadingSetextUnderlineSequence) => {
                parts.take_underline(document, start, end)
            }
            (Container::NumberedItem(parts), Part::ListItemValue) => {
                parts.take_value(document, start, end)
            }
            (Container::CharacterReference(parts), Part::CharacterReferenceMarker) => {
                parts.take_marker(Marker::Named);
                Ok(())
            }
            (Container::CharacterReference(parts), Part::CharacterReferenceMarkerNumeric) => {
                parts.take_marker(Marker::Decimal);
                Ok(())
            }
            (Container::CharacterReference(parts), Part::CharacterReferenceMarkerHexadecimal) => {
                parts.take_marker(Marker::Hexadecimal);
                Ok(())
            }
            (Container::TaskParagraph(parts), Part::TaskMarkChecked) => {
                parts.take_mark(true);
                Ok(())
            }
            (Container::TaskParagraph(parts), Part::TaskMarkUnchecked) => {
                parts.take_mark(false);
                Ok(())
            }
            (Container::CodeFenced(_), Part::CodeFencedFence)
            | (Container::MathFlow(_), Part::MathFlowFence) => Ok(()),
            _ => unreachable!(),
        }
    }

    /// Takes a part that contained content: a label, a destination, a title, or the text after a
    /// fence.
    pub fn take_text(
        &mut self,
        alloc: Global,
        steps: &mut Steps<'_>,
        document: &Document<'a>,
        part: Part,
        nodes: &mut Vec<Node>,
        start: Point,
        end: Point,
    ) -> Result<(), Stop>
        requires such { is_part_model part models.any_content ≡ true }
        requires heading { part ≢ parts.HeadingSetextText }
        requires fits { misfit_of self.old (item_kinds.Part part) ≡ None }
        ensures taken { KeepsNodes document.now part start end (views nodes.old.items) self.old self.new result }
        ensures list { steps.new.events ≡ steps.old.events }
        ensures bound { steps.new.count ≤ steps.old.count + visits_at_end (item_kinds.Part part) (summary_of_nodes (views nodes.old.items)) }
    {
        match part {
            Part::LabelText => {
                let nodes = drained(alloc, nodes)?;
                self.take_label(document, nodes, start, end)
            }
            Part::ReferenceString
            | Part::DefinitionLabelString
            | Part::FootnoteDefinitionLabelString => {
                self.take_identified(alloc, steps, document, part, nodes, start, end)
            }
            _ => {
                let text = values_of(alloc, steps, nodes)?;
                self.take_value(part, text);
                Ok(())
            }
        }
    }

    /// Takes the label of a link, an image or a footnote call.
    fn take_label(
        &mut self,
        document: &Document<'a>,
        nodes: Vec<Node>,
        start: Point,
        end: Point,
    ) -> Result<(), Stop>
        requires { misfit_of self.old (item_kinds.Part parts.LabelText) ≡ None }
        ensures { KeepsNodes document.now parts.LabelText start end (views nodes.items) self.old self.new result }
    {
        match self {
            Container::Media(parts) => parts.take_label(document, nodes, start, end),
            Container::FootnoteCall(parts) => parts.take_label(document, nodes, start, end),
            _ => unreachable!(),
        }
    }

    /// Takes the label of a reference, a definition or a footnote definition.
    fn take_identified(
        &mut self,
        alloc: Global,
        steps: &mut Steps<'_>,
        document: &Document<'_>,
        part: Part,
        nodes: &mut Vec<Node>,
        start: Point,
        end: Point,
    ) -> Result<(), Stop>
        requires such { is_label_string part ≡ true }
        requires fits { misfit_of self.old (item_kinds.Part part) ≡ None }
        ensures taken { KeepsNodes document.now part start end (views nodes.old.items) self.old self.new result }
        ensures list { steps.new.events ≡ steps.old.events }
        ensures bound { steps.new.count ≤ steps.old.count + node_count (views nodes.old.items) }
    {
        match (self, part) {
            (Container::Reference(parts), Part::ReferenceString) => {
                parts.take_string(alloc, steps, document, nodes, start, end)
            }
            (Container::Definition(parts), Part::DefinitionLabelString) => {
                parts.take_label(alloc, steps, document, nodes, start, end)
            }
            (Container::FootnoteDefinition(parts), Part::FootnoteDefinitionLabelString) => {
                parts.take_label(alloc, steps, document, nodes, start, end)
            }
            _ => unreachable!(),
        }
    }

    /// Takes the text of a part from which nothing else is read.
    fn take_value(&mut self, part: Part, text: String)
        requires such { is_text_part part ≡ true }
        requires fits { misfit_of self.old (item_kinds.Part part) ≡ None }
        ensures { KeepsWords part (string_bytes text) self.old self.new }
    {
        match (self, part) {
            (Container::Definition(parts), Part::DefinitionDestinationString) => {
                parts.take_destination(text);
            }
            (Container::Definition(parts), Part::DefinitionTitleString) => parts.take_title(text),
            (Container::Resource(parts), Part::ResourceDestinationString) => {
                parts.take_destination(text);
            }
            (Container::Resource(parts), Part::ResourceTitleString) => parts.take_title(text),
            (Container::CodeFence(parts), Part::CodeFencedFenceInfo) => parts.take_info(text),
            (Container::CodeFence(parts), Part::CodeFencedFenceMeta) => parts.take_meta(text),
            (Container::MathFence(parts), Part::MathFlowFenceMeta) => parts.take_meta(text),
            _ => unreachable!(),
        }
    }
}

impl<'a> Container<'a> {
    /// Takes the text of a heading above its underline.
    pub fn take_heading_text(&mut self)
        requires { misfit_of self.old (item_kinds.Part parts.HeadingSetextText) ≡ None }
        ensures { KeepsAnywhere (item_kinds.Part parts.HeadingSetextText) containers.AnyContent self.old self.new }
    {
        match self {
            Container::HeadingSetext(parts) => parts.take_text(),
            _ => unreachable!(),
        }
    }

    /// Takes a part with parts of its own: the resource or the reference of a link or an image, or the
    /// first fence of a block.
    pub fn take_part(&mut self, part: Part, inner: Container<'_>)
        requires model { initial_model_of inner ≡ models.part_model (current_model_of self.old) part }
        requires inner { inner ≢ containers.AnyContent }
        requires such { is_part_model part (initial_model_of inner) ≡ true }
        requires fits { misfit_of self.old (item_kinds.Part part) ≡ None }
        ensures { KeepsAnywhere (item_kinds.Part part) inner.entry self.old self.new }
    {
        match (self, inner, part) {
            (Container::Media(parts), Container::Resource(resource), Part::Resource) => {
                parts.take_resource(resource);
            }
            (Container::Media(parts), Container::Reference(reference), Part::Reference) => {
                parts.take_reference(reference);
            }
            (Container::CodeFenced(parts), Container::CodeFence(fence), Part::CodeFencedFence) => {
                parts.take_fence(fence);
            }
            (Container::MathFlow(parts), Container::MathFence(fence), Part::MathFlowFence) => {
                parts.take_fence(fence);
            }
            _ => unreachable!(),
        }
    }
}

impl<'a> Container<'a> {
    /// Takes what content contributes besides its node: the mark in a paragraph, and the number of
    /// an item.
    pub fn take_content(&mut self, content: Content, inner: &Container<'_>)
        requires initial_model { initial_model_of inner.now ≡ models.content_model (current_model_of self.old) content }
        requires such { is_model_of content (initial_model_of inner.now) ≡ true }
        ensures { KeepsAnywhere (item_kinds.Content content) inner.now self.old self.new }
    {
        match content {
            Content::Paragraph => self.take_paragraph(inner),
            Content::ListItem => self.take_item(inner),
            _ => {}
        }
    }

    /// Takes the mark of a paragraph, which becomes that of its item.
    fn take_paragraph(&mut self, inner: &Container<'_>)
        requires initial_model { initial_model_of inner.now ≡ models.content_model (current_model_of self.old) contents.Paragraph }
        requires such { is_model_of contents.Paragraph (initial_model_of inner.now) ≡ true }
        ensures { KeepsAnywhere (item_kinds.Content contents.Paragraph) inner.now self.old self.new }
    {
        match inner {
            Container::TaskParagraph(paragraph) => match self {
                Container::ListItem(item) => item.take_paragraph(paragraph),
                Container::NumberedItem(item) => item.take_paragraph(paragraph),
                _ => unreachable!(),
            },
            Container::AnyContent | Container::MarkedParagraph => {}
            _ => unreachable!(),
        }
    }

    /// Takes the number of an item, which becomes that of its list if it is the first.
    fn take_item(&mut self, inner: &Container<'_>)
        requires initial_model { initial_model_of inner.now ≡ models.content_model (current_model_of self.old) contents.ListItem }
        requires such { is_model_of contents.ListItem (initial_model_of inner.now) ≡ true }
        ensures { KeepsAnywhere (item_kinds.Content contents.ListItem) inner.now self.old self.new }
    {
        match inner {
            Container::NumberedItem(item) => match self {
                Container::ListOrdered(list) => list.take_item(item),
                _ => unreachable!(),
            },
            Container::ListItem(_) => {}
            _ => unreachable!(),
        }
    }
}

/// Whether content accepts any content, wherever it is.
fn accepts_any_content(content: Content) -> bool
    ensures { result ≡ true → (h : ContentModel) → models.content_model h content ≡ models.any_content }
{
    matches!(
        content,
        Content::BlockQuote
            | Content::CodeIndented
            | Content::CodeText
            | Content::Emphasis
            | Content::Frontmatter
            | Content::Strikethrough
            | Content::Table
            | Content::TableRow
            | Content::TableCell
            | Content::Html
            | Content::ListUnordered
            | Content::MathText
            | Content::Strong
    )
}

/// Whether a part is the text of the nodes in it.
fn is_text(part: Part) -> bool
    ensures { result ≡ true → (h : ContentModel) → models.part_model h part ≡ models.any_content }
{
    matches!(
        part,
        Part::CodeFencedFenceInfo
            | Part::CodeFencedFenceMeta
            | Part::DefinitionDestinationString
            | Part::DefinitionLabelString
            | Part::DefinitionTitleString
            | Part::FootnoteDefinitionLabelString
            | Part::LabelText
            | Part::MathFlowFenceMeta
            | Part::ReferenceString
            | Part::ResourceDestinationString
            | Part::ResourceTitleString
    )
}

/// Whether content is a leaf, which does not depend on the container.
fn is_leaf(content: Content) -> bool
    ensures leaf { result ≡ true → (h : ContentModel) → models.content_model h content ≡ models.leaf }
    ensures container { result ≡ false → (h : ContentModel) → models.content_model h content ≢ models.leaf }
{
    matches!(
        content,
        Content::Data
            | Content::AutolinkLiteralEmail
            | Content::AutolinkLiteralWww
            | Content::AutolinkLiteralWhole
            | Content::ThematicBreak
            | Content::HardBreak
            | Content::LineEnding
    )
}

/// Whether a part is a leaf. For a fence the container decides.
fn is_leaf_part(part: Part) -> bool
    ensures leaf { result ≡ true → (h : ContentModel) → models.part_model h part ≡ models.leaf }
    ensures container { result ≡ false → part ≢ parts.CodeFencedFence → part ≢ parts.MathFlowFence → IsNoLeaf part }
{
    matches!(
        part,
        Part::AutolinkEmail
            | Part::AutolinkProtocol
            | Part::CharacterReferenceMarker
            | Part::CharacterReferenceMarkerNumeric
            | Part::CharacterReferenceMarkerHexadecimal
            | Part::CharacterReferenceValue
            | Part::TaskMarkChecked
            | Part::TaskMarkUnchecked
            | Part::HeadingAtxSequence
            | Part::HeadingSetextUnderlineSequence
            | Part::ListItemValue
    )
}
