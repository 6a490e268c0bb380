//! Plain containers: block quotes, paragraphs (CommonMark, "Block quotes" and "Paragraphs"),
//! emphasis and strong emphasis ("Emphasis and strong emphasis"), strikethrough, table rows and
//! table cells (GFM).
//!
//! In markdown-rs: `on_enter_block_quote`, `on_enter_paragraph`, `on_enter_emphasis`,
//! `on_enter_strong`, `on_enter_gfm_strikethrough`, `on_enter_gfm_table_row`,
//! `on_enter_gfm_table_cell`.

ghost use Rattle.std.specs.Prelude.{◌≡◌, true};
ghost use Rattle.markdown_blocks.specs.Parents.{is_parent, parent_label};
ghost use Rattle.markdown_parts.specs.PartsSoFar.{placed};
ghost use Rattle.markdown_nodes.specs.View.{view, views};

use markdown_nodes::mdast::{
    Blockquote, Delete, Emphasis, Node, Paragraph, Strong, TableCell, TableRow,
};
use markdown_nodes::role::Content;
use markdown_nodes::unist::Position;

/// Whether the node of a span has children and no other fields.
pub fn is_parent(content: Content) -> bool
    ensures { result ≡ is_parent content }
{
    matches!(
        content,
        Content::BlockQuote
            | Content::Emphasis
            | Content::Strong
            | Content::Strikethrough
            | Content::Paragraph
            | Content::TableRow
            | Content::TableCell
    )
}

/// Returns the children of a node in a list without room for more.
pub(crate) fn settled(children: Vec<Node>) -> Vec<Node>
    ensures { result.items ≡ children.items }
{
    let mut children = children;
    children.shrink_to_fit();
    children
}

/// Returns the node of a span whose node has children and no other fields.
#[inline(always)]
pub fn parent(content: Content, children: Vec<Node>, position: Position) -> Node
    requires { is_parent content ≡ true }
    ensures { view result ≡ placed (parent_label content) (views children.items) position }
{
    let children = settled(children);
    let position = Some(position);
    match content {
        Content::BlockQuote => Node::Blockquote(Blockquote { children, position }),
        Content::Emphasis => Node::Emphasis(Emphasis { children, position }),
        Content::Strong => Node::Strong(Strong { children, position }),
        Content::Strikethrough => Node::Delete(Delete { children, position }),
        Content::Paragraph => Node::Paragraph(Paragraph { children, position }),
        Content::TableRow => Node::TableRow(TableRow { children, position }),
        Content::TableCell => Node::TableCell(TableCell { children, position }),
        _ => unreachable!(),
    }
}
