//! Which items satisfy the rules of each content model.

ghost use Rattle.std.specs.Prelude.{◌≡◌, false};
ghost use Rattle.std.specs.List.{list_any};
ghost use Rattle.markdown_acceptance.specs.ContentModels.{grammar_model};
ghost use Rattle.markdown_acceptance.specs.PartSets.{contains};
ghost use Rattle.markdown_acceptance.specs.Rules.{has_required, requires_nothing, takes};
ghost use Rattle.markdown_grammar.specs.Grammar as grammar;
ghost use Rattle.markdown_grammar.specs.Items as Kinds;

use crate::content_model::ContentModel;
use crate::part_set::PartSet;
use markdown_events::role::{Content, ItemKind, Part};

impl ContentModel {
    /// Whether a container that began with this content model accepts an item after these parts.
    ///
    /// A link accepts a label, and after it no other.
    pub fn takes(self, stood: &PartSet, what: ItemKind) -> bool
        ensures { result ≡ takes (grammar_model self) (contains stood.now) what }
    {
        match self {
            ContentModel::Autolink => autolink_takes(stood, what),
            ContentModel::Media => media_takes(stood, what),
            ContentModel::FootnoteCall => footnote_call_takes(stood, what),
            ContentModel::Resource => resource_takes(stood, what),
            ContentModel::Reference => reference_takes(stood, what),
            ContentModel::Definition => definition_takes(stood, what),
            ContentModel::CharacterReference => character_reference_takes(stood, what),
            ContentModel::CodeFence => code_fence_takes(stood, what),
            ContentModel::MathFence => math_fence_takes(stood, what),
            ContentModel::Leaf => false,
            ContentModel::NumberedItem => numbered_item_takes(stood, what),
            ContentModel::TaskParagraph => task_paragraph_takes(stood, what),
            ContentModel::FootnoteDefinition => footnote_definition_takes(stood, what),
            ContentModel::HeadingAtx => heading_atx_takes(what),
            ContentModel::HeadingSetext => heading_setext_takes(stood, what),
            ContentModel::CodeFenced => code_fenced_takes(stood, what),
            ContentModel::MathFlow => math_flow_takes(stood, what),
            ContentModel::AnyContent
            | ContentModel::ListOrdered
            | ContentModel::ListItem
            | ContentModel::MarkedItem
            | ContentModel::MarkedNumberedItem
            | ContentModel::HeadingText
            | ContentModel::CodeBuffer
            | ContentModel::MathBuffer => is_content(what),
            ContentModel::MarkedParagraph => is_content(what),
        }
    }

    /// Whether a container that began with this content model has what it requires: a part, or in
    /// an ordered list a number.
    ///
    /// An ATX heading has it once its first sequence has occurred.
    pub fn has_required(self, stood: &PartSet, is_numbered: bool) -> bool
        ensures { result ≡ has_required (grammar_model self) (contains stood.now) is_numbered }
    {
        match self {
            ContentModel::CharacterReference => stood.contains(Part::CharacterReferenceValue),
            ContentModel::HeadingAtx => stood.contains(Part::HeadingAtxSequence),
            ContentModel::HeadingSetext => stood.contains(Part::HeadingSetextUnderlineSequence),
            ContentModel::CodeFenced => stood.contains(Part::CodeFencedFence),
            ContentModel::MathFlow => stood.contains(Part::MathFlowFence),
            ContentModel::ListOrdered => is_numbered,
            _ => true,
        }
    }

    /// Whether a container of this content model requires nothing.
    ///
    /// For a paragraph it is true, for an ATX heading false.
    pub fn requires_nothing(self) -> bool
        ensures { result ≡ requires_nothing (grammar_model self) }
    {
        !matches!(
            self,
            ContentModel::CharacterReference
                | ContentModel::HeadingAtx
                | ContentModel::HeadingSetext
                | ContentModel::CodeFenced
                | ContentModel::MathFlow
                | ContentModel::ListOrdered
        )
    }
}

/// Whether an item is content.
fn is_content(what: ItemKind) -> bool
    ensures { result ≡ Kinds.is_content what }
{
    matches!(what, ItemKind::Content(_))
}

/// Whether an autolink accepts an item.
fn autolink_takes(stood: &PartSet, what: ItemKind) -> bool
    ensures { result ≡ takes grammar.autolink (contains stood.now) what }
{
    match what {
        ItemKind::Content(Content::LineEnding) => true,
        ItemKind::Part(Part::AutolinkEmail | Part::AutolinkProtocol) => {
            !stood.contains(Part::AutolinkEmail) && !stood.contains(Part::AutolinkProtocol)
        }
        _ => false,
    }
}

/// Whether a link or an image accepts an item.
fn media_takes(stood: &PartSet, what: ItemKind) -> bool
    ensures { result ≡ takes grammar.media (contains stood.now) what }
{
    match what {
        ItemKind::Content(Content::LineEnding) => true,
        ItemKind::Part(Part::LabelText) => {
            !stood.contains(Part::LabelText)
                && !stood.contains(Part::Resource)
                && !stood.contains(Part::Reference)
        }
        ItemKind::Part(Part::Resource | Part::Reference) => {
            !stood.contains(Part::Resource) && !stood.contains(Part::Reference)
        }
        _ => false,
    }
}

/// Whether the call of a footnote accepts an item.
fn footnote_call_takes(stood: &PartSet, what: ItemKind) -> bool
    ensures { result ≡ takes grammar.footnote_call (contains stood.now) what }
{
    match what {
        ItemKind::Content(Content::LineEnding) => true,
        ItemKind::Part(Part::LabelText) => !stood.contains(Part::LabelText),
        _ => false,
    }
}

/// Whether a resource accepts an item.
fn resource_takes(stood: &PartSet, what: ItemKind) -> bool
    ensures { result ≡ takes grammar.resource (contains stood.now) what }
{
    match what {
        ItemKind::Content(Content::LineEnding) => true,
        ItemKind::Part(Part::ResourceDestinationString) => {
            !stood.contains(Part::ResourceDestinationString)
        }
        ItemKind::Part(Part::ResourceTitleString) => !stood.contains(Part::ResourceTitleString),
        _ => false,
    }
}

/// Whether the reference of a link or an image accepts an item.
fn reference_takes(stood: &PartSet, what: ItemKind) -> bool
    ensures { result ≡ takes grammar.reference (contains stood.now) what }
{
    match what {
        ItemKind::Content(Content::LineEnding) => true,
        ItemKind::Part(Part::ReferenceString) => !stood.contains(Part::ReferenceString),
        _ => false,
    }
}

/// Whether a definition accepts an item.
fn definition_takes(stood: &PartSet, what: ItemKind) -> bool
    ensures { result ≡ takes grammar.definition (contains stood.now) what }
{
    match what {
        ItemKind::Content(Content::LineEnding) => true,
        ItemKind::Part(Part::DefinitionLabelString) => !stood.contains(Part::DefinitionLabelString),
        ItemKind::Part(Part::DefinitionDestinationString) => {
            !stood.contains(Part::DefinitionDestinationString)
        }
        ItemKind::Part(Part::DefinitionTitleString) => !stood.contains(Part::DefinitionTitleString),
        _ => false,
    }
}

/// Whether a character reference accepts an item.
fn character_reference_takes(stood: &PartSet, what: ItemKind) -> bool
    ensures { result ≡ takes grammar.character_reference (contains stood.now) what }
{
    match what {
        ItemKind::Part(
            Part::CharacterReferenceMarker
            | Part::CharacterReferenceMarkerNumeric
            | Part::CharacterReferenceMarkerHexadecimal,
        ) => !stood.contains(Part::CharacterReferenceValue),
        ItemKind::Part(Part::CharacterReferenceValue) => {
            !stood.contains(Part::CharacterReferenceValue) && has_marker(stood)
        }
        _ => false,
    }
}

/// Whether a marker of a character reference has occurred.
fn has_marker(stood: &PartSet) -> bool
    ensures { result ≡ list_any (contains stood.now) grammar.markers }
{
    stood.contains(Part::CharacterReferenceMarker)
        || stood.contains(Part::CharacterReferenceMarkerNumeric)
        || stood.contains(Part::CharacterReferenceMarkerHexadecimal)
}

/// Whether the first fence of a block of code accepts an item.
fn code_fence_takes(stood: &PartSet, what: ItemKind) -> bool
    ensures { result ≡ takes grammar.code_fence (contains stood.now) what }
{
    match what {
        ItemKind::Part(Part::CodeFencedFenceInfo) => !stood.contains(Part::CodeFencedFenceInfo),
        ItemKind::Part(Part::CodeFencedFenceMeta) => !stood.contains(Part::CodeFencedFenceMeta),
        _ => false,
    }
}

/// Whether the first fence of a block of math accepts an item.
fn math_fence_takes(stood: &PartSet, what: ItemKind) -> bool
    ensures { result ≡ takes grammar.math_fence (contains stood.now) what }
{
    match what {
        ItemKind::Part(Part::MathFlowFenceMeta) => !stood.contains(Part::MathFlowFenceMeta),
        _ => false,
    }
}

/// Whether an item of an ordered list accepts an item.
fn numbered_item_takes(stood: &PartSet, what: ItemKind) -> bool
    ensures { result ≡ takes grammar.numbered_item (contains stood.now) what }
{
    match what {
        ItemKind::Content(_) => true,
        ItemKind::Part(Part::ListItemValue) => !stood.contains(Part::ListItemValue),
        _ => false,
    }
}

/// Whether a paragraph that may have a check mark accepts an item.
fn task_paragraph_takes(stood: &PartSet, what: ItemKind) -> bool
    ensures { result ≡ takes grammar.task_paragraph (contains stood.now) what }
{
    match what {
        ItemKind::Content(_) => true,
        ItemKind::Part(Part::TaskMarkChecked | Part::TaskMarkUnchecked) => {
            !stood.contains(Part::TaskMarkChecked) && !stood.contains(Part::TaskMarkUnchecked)
        }
        _ => false,
    }
}

/// Whether the definition of a footnote accepts an item.
fn footnote_definition_takes(stood: &PartSet, what: ItemKind) -> bool
    ensures { result ≡ takes grammar.footnote_definition (contains stood.now) what }
{
    match what {
        ItemKind::Content(_) => true,
        ItemKind::Part(Part::FootnoteDefinitionLabelString) => {
            !stood.contains(Part::FootnoteDefinitionLabelString)
        }
        _ => false,
    }
}

/// Whether an ATX heading accepts an item, whatever is in it so far.
fn heading_atx_takes(what: ItemKind) -> bool
    ensures { result ≡ takes grammar.heading_atx (λ _. false) what }
{
    match what {
        ItemKind::Content(_) | ItemKind::Part(Part::HeadingAtxSequence) => true,
        _ => false,
    }
}

/// Whether a setext heading accepts an item.
fn heading_setext_takes(stood: &PartSet, what: ItemKind) -> bool
    ensures { result ≡ takes grammar.heading_setext (contains stood.now) what }
{
    match what {
        ItemKind::Content(Content::LineEnding) => true,
        ItemKind::Content(_) => !stood.contains(Part::HeadingSetextText),
        ItemKind::Part(Part::HeadingSetextUnderlineSequence) => {
            !stood.contains(Part::HeadingSetextUnderlineSequence)
        }
        ItemKind::Part(Part::HeadingSetextText) => !stood.contains(Part::HeadingSetextText),
        _ => false,
    }
}

/// Whether fenced code accepts an item.
fn code_fenced_takes(stood: &PartSet, what: ItemKind) -> bool
    ensures { result ≡ takes grammar.code_fenced (contains stood.now) what }
{
    match what {
        ItemKind::Content(Content::LineEnding) | ItemKind::Part(Part::CodeFencedFence) => true,
        ItemKind::Content(_) => stood.contains(Part::CodeFencedFence),
        _ => false,
    }
}

/// Whether fenced math accepts an item.
fn math_flow_takes(stood: &PartSet, what: ItemKind) -> bool
    ensures { result ≡ takes grammar.math_flow (contains stood.now) what }
{
    match what {
        ItemKind::Content(Content::LineEnding) | ItemKind::Part(Part::MathFlowFence) => true,
        ItemKind::Content(_) => stood.contains(Part::MathFlowFence),
        _ => false,
    }
}
