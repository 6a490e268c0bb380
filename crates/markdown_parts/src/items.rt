//! What an item is, and whether line endings are text in it and after it.

ghost use Rattle.std.specs.Prelude.{◌≡◌};
ghost use Rattle.markdown_events.specs.declared.role.ItemKind.TheVariants as item_kinds;
ghost use Rattle.markdown_grammar.specs.Attributes.{line_ending_is_text, line_ending_is_text_after};
ghost use Rattle.markdown_grammar.specs.Items as Kinds;

use markdown_nodes::role::{Content, ItemKind, Part};

/// Whether an item is a line ending.
///
/// In a paragraph of two lines, the item between their texts is one.
#[inline]
pub fn is_line_ending(what: ItemKind) -> bool
    ensures { result ≡ Kinds.is_line_ending what }
{
    matches!(what, ItemKind::Content(Content::LineEnding))
}

/// Whether an item is a table (GFM).
///
/// No table may be inside a table.
#[inline]
pub fn is_table(what: ItemKind) -> bool
    ensures { result ≡ Kinds.is_table what }
{
    matches!(what, ItemKind::Content(Content::Table))
}

/// Whether an item is frontmatter.
///
/// Its first byte says which language follows, so it must be in the document.
#[inline]
pub fn is_frontmatter(what: ItemKind) -> bool
    ensures { result ≡ Kinds.is_frontmatter what }
{
    matches!(what, ItemKind::Content(Content::Frontmatter))
}

/// Whether a line ending is text in a span. It is not where only blocks, cells or parts may occur,
/// or in a block of code or math before its first fence.
///
/// In a paragraph it is, and in a block quote it is not.
pub fn has_line_endings(what: ItemKind) -> bool
    ensures { result ≡ line_ending_is_text what }
{
    match what {
        ItemKind::Content(content) => match content {
            Content::Table
            | Content::BlockQuote
            | Content::TableRow
            | Content::TableCell
            | Content::ListOrdered
            | Content::ListUnordered
            | Content::ListItem
            | Content::FootnoteDefinition
            | Content::CodeFenced
            | Content::MathFlow
            | Content::Autolink
            | Content::Link
            | Content::Image
            | Content::FootnoteCall
            | Content::Definition => false,
            _ => true,
        },
        ItemKind::Part(part) => match part {
            Part::Resource | Part::Reference => false,
            _ => true,
        },
    }
}

/// Whether a line ending is text after a part. After a fence it is, after the text of a heading it
/// is not, and otherwise nothing changes.
///
/// In a block of fenced code, the line ending after the first fence is text.
pub fn has_line_endings_after(part: Part, before: bool) -> bool
    ensures { result ≡ line_ending_is_text_after (item_kinds.Part part) before }
{
    match part {
        Part::CodeFencedFence | Part::MathFlowFence => true,
        Part::HeadingSetextText => false,
        _ => before,
    }
}
