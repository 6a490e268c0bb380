//! How the words of what is in a span are said.

ghost use Rattle.std.specs.Prelude.{◌≡◌};
ghost use Rattle.markdown_words.specs.Settings.{after, after_text, fits, in_content, inside, is_address, is_fence, is_odd, is_of_reference, is_of_text, is_task_mark, setting_after, setting_inside, setting_of_root};

use markdown_events::role::{Content, ItemKind, Part};

/// How the items in a span are said (ours).
#[derive(Clone, Copy, PartialEq, Eq)]
pub enum Voice {
    /// Nothing in it is said.
    Silent,
    /// Blocks: line endings are not said.
    Flow,
    /// Inlines: line endings are said.
    Text,
    /// Inlines right after a hard break, whose line ending is not said.
    Broken,
    /// A list item, before its first node.
    Item,
    /// The first paragraph of a list item, before its first node: a task mark may come.
    First,
    /// The same after its task mark: the first text loses a blank.
    Marked,
    /// A link or an image before its label.
    Media,
    /// An autolink before its address.
    Autolink,
    /// A character reference before its markers.
    Reference,
    /// A character reference after `&`.
    Named,
    /// A character reference after `&#`.
    Numeric,
    /// A character reference after `&#x`.
    Hexadecimal,
    /// A block between fences, before its first fence.
    Fenced,
    /// Code or math: data and line endings are its value.
    Raw,
    /// An item in which there is none.
    Leaf,
}

/// How the items in a span are said, and what is around it.
#[derive(Clone, Copy)]
pub struct Setting {
    /// How they are said.
    pub voice: Voice,
    /// Whether it is in the label of an image.
    pub in_label: bool,
    /// Whether it is in a table.
    pub in_table: bool,
}

impl Setting {
    /// Returns the setting of the items of the root.
    pub fn of_root() -> Setting
        ensures { result ≡ setting_of_root }
    {
        Setting {
            voice: Voice::Flow,
            in_label: false,
            in_table: false,
        }
    }

    /// Returns the setting in an item.
    #[inline(always)]
    pub fn inside(self, what: ItemKind) -> Setting
        ensures { result ≡ setting_inside self what }
    {
        Setting {
            voice: inside(self.voice, self.in_label, what),
            in_label: matches!(what, ItemKind::Content(Content::Image)) | self.in_label,
            in_table: matches!(what, ItemKind::Content(Content::Table)) | self.in_table,
        }
    }

    /// Returns the setting after an item.
    #[inline(always)]
    pub fn after(self, what: ItemKind) -> Setting
        ensures { result ≡ setting_after self what }
    {
        Setting {
            voice: after(self.voice, what),
            in_label: self.in_label,
            in_table: self.in_table,
        }
    }
}

/// Whether what is said of an item is known.
#[inline(always)]
pub fn fits(voice: Voice, in_label: bool, what: ItemKind) -> bool
    ensures { result ≡ fits voice in_label what }
{
    match voice {
        Voice::Silent | Voice::Media => true,
        Voice::Text => !is_odd(in_label, what),
        Voice::Flow | Voice::Item => !(is_odd(in_label, what) | is_break_or_heading_text(what)),
        Voice::First => is_task_mark(what) | !is_odd(in_label, what),
        Voice::Broken => matches!(what, ItemKind::Content(Content::LineEnding)),
        Voice::Marked => matches!(what, ItemKind::Content(Content::Data | Content::LineEnding)),
        Voice::Autolink => is_address(what),
        Voice::Reference | Voice::Named | Voice::Numeric | Voice::Hexadecimal => is_of_reference(
            what,
        ),
        Voice::Fenced => is_fence(what),
        Voice::Raw => is_fence(what)
            || matches!(what, ItemKind::Content(Content::Data | Content::LineEnding)),
        Voice::Leaf => false,
    }
}

/// Whether it is not known what an item says among blocks or inlines.
fn is_odd(in_label: bool, what: ItemKind) -> bool
    ensures { result ≡ is_odd in_label what }
{
    match what {
        ItemKind::Content(content) => matches!(content, Content::Frontmatter) & in_label,
        ItemKind::Part(part) => matches!(
            part,
            Part::TaskMarkChecked
                | Part::TaskMarkUnchecked
                | Part::CodeFencedFence
                | Part::MathFlowFence
        ),
    }
}

/// Whether an item is a hard break or the text of a setext heading.
fn is_break_or_heading_text(what: ItemKind) -> bool
    ensures { result ≡ is_of_text what }
{
    matches!(
        what,
        ItemKind::Content(Content::HardBreak) | ItemKind::Part(Part::HeadingSetextText)
    )
}

/// Whether an item is the mark of a task.
fn is_task_mark(what: ItemKind) -> bool
    ensures { result ≡ is_task_mark what }
{
    matches!(
        what,
        ItemKind::Part(Part::TaskMarkChecked | Part::TaskMarkUnchecked)
    )
}

/// Whether an item is a fence.
fn is_fence(what: ItemKind) -> bool
    ensures { result ≡ is_fence what }
{
    matches!(
        what,
        ItemKind::Part(Part::CodeFencedFence | Part::MathFlowFence)
    )
}

/// Whether an item is the address of an autolink.
fn is_address(what: ItemKind) -> bool
    ensures { result ≡ is_address what }
{
    matches!(
        what,
        ItemKind::Part(Part::AutolinkEmail | Part::AutolinkProtocol)
    )
}

/// Whether an item is a part of a character reference.
fn is_of_reference(what: ItemKind) -> bool
    ensures { result ≡ is_of_reference what }
{
    matches!(
        what,
        ItemKind::Part(
            Part::CharacterReferenceMarker
                | Part::CharacterReferenceMarkerNumeric
                | Part::CharacterReferenceMarkerHexadecimal
                | Part::CharacterReferenceValue
        )
    )
}

/// Returns the voice in an item.
#[inline(always)]
fn inside(voice: Voice, in_label: bool, what: ItemKind) -> Voice
    ensures { result ≡ inside voice in_label what }
{
    match voice {
        Voice::Silent => Voice::Silent,
        Voice::Media => match what {
            ItemKind::Part(Part::LabelText) => Voice::Text,
            _ => Voice::Silent,
        },
        Voice::Raw | Voice::Fenced => match what {
            ItemKind::Part(_) => Voice::Silent,
            _ => Voice::Leaf,
        },
        Voice::Item => match what {
            ItemKind::Content(Content::Paragraph) => Voice::First,
            _ => inside_content(in_label, what),
        },
        Voice::Flow | Voice::Text | Voice::First => inside_content(in_label, what),
        _ => Voice::Leaf,
    }
}

/// Returns the voice in an item among blocks or inlines.
fn inside_content(in_label: bool, what: ItemKind) -> Voice
    ensures { result ≡ in_content in_label what }
{
    match what {
        ItemKind::Part(Part::HeadingSetextText) => Voice::Text,
        ItemKind::Part(_) => Voice::Silent,
        ItemKind::Content(content) => match content {
            Content::Emphasis
            | Content::Strong
            | Content::Strikethrough
            | Content::Paragraph
            | Content::HeadingAtx
            | Content::HeadingSetext => Voice::Text,
            Content::BlockQuote
            | Content::ListOrdered
            | Content::ListUnordered
            | Content::FootnoteDefinition
            | Content::Table
            | Content::TableRow
            | Content::TableCell => Voice::Flow,
            Content::ListItem => Voice::Item,
            Content::Link | Content::Image => Voice::Media,
            Content::Autolink => Voice::Autolink,
            Content::CharacterReference => Voice::Reference,
            Content::CodeFenced | Content::MathFlow => Voice::Fenced,
            Content::CodeIndented | Content::CodeText | Content::MathText => Voice::Raw,
            Content::Html => if in_label { Voice::Raw } else { Voice::Silent },
            Content::ThematicBreak
            | Content::FootnoteCall
            | Content::Definition
            | Content::Frontmatter => Voice::Silent,
            _ => Voice::Leaf,
        },
    }
}

/// Returns the voice after an item.
#[inline(always)]
fn after(voice: Voice, what: ItemKind) -> Voice
    ensures { result ≡ after voice what }
{
    match voice {
        Voice::Text | Voice::First => after_text(what),
        Voice::Broken | Voice::Marked => Voice::Text,
        Voice::Item => match what {
            ItemKind::Content(Content::LineEnding) | ItemKind::Part(_) => Voice::Item,
            _ => Voice::Flow,
        },
        Voice::Media => match what {
            ItemKind::Part(Part::LabelText) => Voice::Silent,
            _ => Voice::Media,
        },
        Voice::Autolink => Voice::Leaf,
        Voice::Reference | Voice::Named | Voice::Numeric | Voice::Hexadecimal => match what {
            ItemKind::Part(Part::CharacterReferenceMarker) => Voice::Named,
            ItemKind::Part(Part::CharacterReferenceMarkerNumeric) => Voice::Numeric,
            ItemKind::Part(Part::CharacterReferenceMarkerHexadecimal) => Voice::Hexadecimal,
            _ => Voice::Leaf,
        },
        Voice::Fenced => Voice::Raw,
        _ => voice,
    }
}

/// Returns the voice after an item among inlines.
fn after_text(what: ItemKind) -> Voice
    ensures { result ≡ after_text what }
{
    match what {
        ItemKind::Content(Content::HardBreak) => Voice::Broken,
        ItemKind::Part(Part::HeadingSetextText) => Voice::Flow,
        ItemKind::Part(Part::TaskMarkChecked | Part::TaskMarkUnchecked) => Voice::Marked,
        _ => Voice::Text,
    }
}
