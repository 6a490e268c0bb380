//! The text that `{:?}` writes of a node: that of a derived Debug, written without recursion.

ghost use Rattle.std.specs.Fmt.{WritesOnOk};
ghost use Rattle.std.specs.Prelude.{◌≡◌, ◌⊎◌, ◌++◌, ℕ, Bool, [], Some, IsNone, codes, if◌then◌else◌};
ghost use Rattle.markdown_events.specs.Places.{position_text};
ghost use Rattle.markdown_nodes.specs.Access.{label_of, nodes_in, position_of};
ghost use Rattle.markdown_nodes.specs.Shown.{closing, content_end, fields, opening, position_alone, shown};
ghost use Rattle.markdown_nodes.specs.Tree.{«break», thematic_break};
ghost use Rattle.markdown_nodes.specs.View.{view};
ghost use Rattle.markdown_kinds.specs.Quoted.{members};
ghost use Rattle.markdown_kinds.specs.TextFields.{option_text};

use crate::mdast::Node;
use crate::mdast::escapes::escapes_of;
use markdown_kinds::debug::{
    write_align, write_code_fields, write_definition_fields, write_depth, write_image_fields,
    write_image_reference_fields, write_item_fields, write_list_fields, write_reference,
    write_value,
};
use markdown_kinds::quoted::fields::{write_association, write_option, write_resource};
use std::alloc::Global;
use std::collections::BTreeSet;
use std::fmt;

/// A node, and the characters beyond ASCII that are written as Unicode escapes in its text.
#[derive(Drop)]
pub struct Escaped<'a> {
    pub node: &'a Node,
    pub escapes: &'a BTreeSet<char>,
    pub alloc: Global,
}

impl fmt::Debug for Escaped<'_> {
    ghost debug_output = { λ whole. Some (shown (members whole.escapes.now) (view whole.node.now)) };

    fn fmt<W: fmt::Write>(&self, f: &mut fmt::Formatter<W>) -> fmt::Result {
        write_tree(self.node, self.escapes, f, self.alloc)
    }
}

/// A parent, and the nodes in it that are not yet written.
#[derive(Drop)]
struct Frame<'a> {
    parent: &'a Node,
    rest: &'a [Node],
}

/// Writes what `{:?}` writes of a node. It fails if memory runs out.
pub fn write_line<W: fmt::Write>(node: &Node, f: &mut fmt::Formatter<W>) -> fmt::Result
    ensures { (escapes : ℕ → Bool) × WritesOnOk W.write_str_gives f.old result (shown escapes (view node.now)) f.new }
{
    let Some(alloc) = allocator(node) else {
        return write_break(node, f);
    };
    let Ok(escapes) = escapes_of(node, alloc) else {
        return Err(fmt::Error);
    };
    write_tree(node, &escapes, f, alloc)
}

/// Returns the allocator of a list or a text of a node. A break and a thematic break have neither.
fn allocator(node: &Node) -> Option<Global>
    ensures bare { IsNone result → nodes_in node.now ≡ [] }
    ensures kind { IsNone result → (label_of node.now ≡ «break») ⊎ (label_of node.now ≡ thematic_break) }
{
    match node {
        Node::Root(node) => Some(*node.children.allocator()),
        Node::Blockquote(node) => Some(*node.children.allocator()),
        Node::FootnoteDefinition(node) => Some(*node.children.allocator()),
        Node::List(node) => Some(*node.children.allocator()),
        Node::Toml(node) => Some(*node.value.allocator()),
        Node::Yaml(node) => Some(*node.value.allocator()),
        Node::Break(_) => None,
        Node::InlineCode(node) => Some(*node.value.allocator()),
        Node::InlineMath(node) => Some(*node.value.allocator()),
        Node::Delete(node) => Some(*node.children.allocator()),
        Node::Emphasis(node) => Some(*node.children.allocator()),
        Node::FootnoteReference(node) => Some(*node.identifier.allocator()),
        Node::Html(node) => Some(*node.value.allocator()),
        Node::Image(node) => Some(*node.alt.allocator()),
        Node::ImageReference(node) => Some(*node.alt.allocator()),
        Node::Link(node) => Some(*node.children.allocator()),
        Node::LinkReference(node) => Some(*node.children.allocator()),
        Node::Strong(node) => Some(*node.children.allocator()),
        Node::Text(node) => Some(*node.value.allocator()),
        Node::Code(node) => Some(*node.value.allocator()),
        Node::Math(node) => Some(*node.value.allocator()),
        Node::Heading(node) => Some(*node.children.allocator()),
        Node::Table(node) => Some(*node.children.allocator()),
        Node::ThematicBreak(_) => None,
        Node::TableRow(node) => Some(*node.children.allocator()),
        Node::TableCell(node) => Some(*node.children.allocator()),
        Node::ListItem(node) => Some(*node.children.allocator()),
        Node::Definition(node) => Some(*node.url.allocator()),
        Node::Paragraph(node) => Some(*node.children.allocator()),
    }
}

/// Writes a break or a thematic break, whose only field is the position.
fn write_break<W: fmt::Write>(node: &Node, f: &mut fmt::Formatter<W>) -> fmt::Result
    ensures { WritesOnOk W.write_str_gives f.old result (position_alone (label_of node.now) (position_of node.now)) f.new }
{
    begin(node, false, f)?;
    write_position(node, f)?;
    f.write_str(" }")
}

/// Writes a node with everything in it. It fails if there is no memory for the stack.
pub fn write_tree<W: fmt::Write>(
    node: &Node,
    escapes: &BTreeSet<char>,
    f: &mut fmt::Formatter<W>,
    alloc: Global,
) -> fmt::Result
    ensures { WritesOnOk W.write_str_gives f.old result (shown (members escapes.now) (view node.now)) f.new }
{
    let mut frames: Vec<Frame> = Vec::new(alloc);
    begin(node, false, f)?;
    let mut parent = node;
    let mut level = node.child_nodes();
    let mut later = false;
    'walk: loop {
        if let Some((first, rest)) = level.split_first() {
            begin(first, later, f)?;
            let Ok(()) = frames.push(Frame { parent, rest }) else {
                return Err(fmt::Error);
            };
            parent = first;
            level = first.child_nodes();
            later = false;
        } else {
            close(parent, escapes, f)?;
            let Some(frame) = frames.pop() else {
                return Ok(());
            };
            parent = frame.parent;
            level = frame.rest;
            later = true;
        }
    }
}

/// Writes the text before the children of a node, after a comma if it is not the first node.
fn begin<W: fmt::Write>(node: &Node, later: bool, f: &mut fmt::Formatter<W>) -> fmt::Result
    ensures { WritesOnOk W.write_str_gives f.old result ((if later then codes ", " else []) ++ opening (label_of node.now)) f.new }
{
    if later {
        f.write_str(", ")?;
    }
    f.write_str(opening(node))
}

/// Writes the text after the children of a node.
fn close<W: fmt::Write>(
    node: &Node,
    escapes: &BTreeSet<char>,
    f: &mut fmt::Formatter<W>,
) -> fmt::Result
    ensures { WritesOnOk W.write_str_gives f.old result (closing (members escapes.now) (label_of node.now) (position_of node.now)) f.new }
{
    write_content_end(node, escapes, f)?;
    write_position(node, f)?;
    write_fields(node, escapes, f)?;
    f.write_str(" }")
}

/// Returns the text before the children, the value or the position of a node.
fn opening(node: &Node) -> &'static str
    ensures { result.now ≡ opening (label_of node.now) }
{
    match node {
        Node::Root(_) => "Root { children: [",
        Node::Blockquote(_) => "Blockquote { children: [",
        Node::FootnoteDefinition(_) => "FootnoteDefinition { children: [",
        Node::List(_) => "List { children: [",
        Node::Toml(_) => "Toml { value: ",
        Node::Yaml(_) => "Yaml { value: ",
        Node::Break(_) => "Break { position: ",
        Node::InlineCode(_) => "InlineCode { value: ",
        Node::InlineMath(_) => "InlineMath { value: ",
        Node::Delete(_) => "Delete { children: [",
        Node::Emphasis(_) => "Emphasis { children: [",
        Node::FootnoteReference(_) => "FootnoteReference { position: ",
        Node::Html(_) => "Html { value: ",
        Node::Image(_) => "Image { position: ",
        Node::ImageReference(_) => "ImageReference { position: ",
        Node::Link(_) => "Link { children: [",
        Node::LinkReference(_) => "LinkReference { children: [",
        Node::Strong(_) => "Strong { children: [",
        Node::Text(_) => "Text { value: ",
        Node::Code(_) => "Code { value: ",
        Node::Math(_) => "Math { value: ",
        Node::Heading(_) => "Heading { children: [",
        Node::Table(_) => "Table { children: [",
        Node::ThematicBreak(_) => "ThematicBreak { position: ",
        Node::TableRow(_) => "TableRow { children: [",
        Node::TableCell(_) => "TableCell { children: [",
        Node::ListItem(_) => "ListItem { children: [",
        Node::Definition(_) => "Definition { position: ",
        Node::Paragraph(_) => "Paragraph { children: [",
    }
}

/// Writes the value of a literal, or the end of the children of a parent.
fn write_content_end<W: fmt::Write>(
    node: &Node,
    escapes: &BTreeSet<char>,
    f: &mut fmt::Formatter<W>,
) -> fmt::Result
    ensures { WritesOnOk W.write_str_gives f.old result (content_end (members escapes.now) (label_of node.now)) f.new }
{
    match node {
        Node::Text(node) => write_value(&node.value, escapes, f),
        Node::Html(node) => write_value(&node.value, escapes, f),
        Node::InlineCode(node) => write_value(&node.value, escapes, f),
        Node::InlineMath(node) => write_value(&node.value, escapes, f),
        Node::Yaml(node) => write_value(&node.value, escapes, f),
        Node::Toml(node) => write_value(&node.value, escapes, f),
        Node::Code(node) => write_value(&node.value, escapes, f),
        Node::Math(node) => write_value(&node.value, escapes, f),
        Node::Break(_) => Ok(()),
        Node::ThematicBreak(_) => Ok(()),
        Node::FootnoteReference(_) => Ok(()),
        Node::Image(_) => Ok(()),
        Node::ImageReference(_) => Ok(()),
        Node::Definition(_) => Ok(()),
        _ => f.write_str("], position: "),
    }
}

/// Writes the position of a node, or that there is none.
fn write_position<W: fmt::Write>(node: &Node, f: &mut fmt::Formatter<W>) -> fmt::Result
    ensures { WritesOnOk W.write_str_gives f.old result (option_text position_text (position_of node.now)) f.new }
{
    match node.position() {
        Some(position) => write!(f, "Some({position:?})"),
        None => f.write_str("None"),
    }
}

/// Writes the fields of a node after its position.
fn write_fields<W: fmt::Write>(
    node: &Node,
    escapes: &BTreeSet<char>,
    f: &mut fmt::Formatter<W>,
) -> fmt::Result
    ensures { WritesOnOk W.write_str_gives f.old result (fields (members escapes.now) (label_of node.now)) f.new }
{
    match node {
        Node::Heading(node) => write_depth(node.depth, f),
        Node::List(node) => write_list_fields(node.ordered, node.start, node.spread, f),
        Node::ListItem(node) => write_item_fields(node.spread, node.checked, f),
        Node::Table(node) => write_align(&node.align, f),
        Node::Code(node) => write_code_fields(node, escapes, f),
        Node::Math(node) => write_option(", meta: ", &node.meta, escapes, f),
        Node::Link(node) => write_resource(&node.url, &node.title, escapes, f),
        Node::Image(node) => write_image_fields(node, escapes, f),
        Node::LinkReference(node) => {
            write_reference(
                node.reference_kind,
                &node.identifier,
                &node.label,
                escapes,
                f,
            )
        }
        Node::ImageReference(node) => write_image_reference_fields(node, escapes, f),
        Node::FootnoteReference(node) => {
            write_association(&node.identifier, &node.label, escapes, f)
        }
        Node::FootnoteDefinition(node) => {
            write_association(&node.identifier, &node.label, escapes, f)
        }
        Node::Definition(node) => write_definition_fields(node, escapes, f),
        _ => Ok(()),
    }
}
