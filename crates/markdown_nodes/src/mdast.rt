//! The nodes of the syntax tree, as in mdast.
//!
//! A `Node` is one of 29 kinds. Fifteen are parents, which have children; eight are literals, which
//! have a value; six are neither. Each has a position in the document, or none if it was generated.
//! The kinds are those of `markdown_kinds`; here the children of a parent are nodes.

ghost use Rattle.std.specs.Prelude.{◌≡◌, [], IfOk, IsFalse, IsTrue, option_map, string_bytes};
ghost use Rattle.markdown_nodes.specs.Access.{children_of, nodes_in, position_of, with_position};
ghost use Rattle.markdown_nodes.specs.Freeing.{Exchanged, WithoutLast};
ghost use Rattle.markdown_nodes.specs.Tree.{only, plain_text};
ghost use Rattle.markdown_nodes.specs.View.{view};

mod comparing;
mod copying;
mod debug;
mod escapes;
mod reading;

use crate::unist::Position;
pub use escapes::escapes_of;
pub use markdown_events::infer::AlignKind;
pub use markdown_kinds::quoted::quote;
pub use markdown_kinds::{
    Break, Code, Definition, FootnoteReference, Html, Image, ImageReference, InlineCode,
    InlineMath, Math, ReferenceKind, Text, ThematicBreak, Toml, Yaml,
};
use std::alloc::{AllocError, Global};
use std::{fmt, mem};

/// A node of the tree (mdast). Debug prints it as its struct.
///
/// The text `a` without a position is `Node::Text(Text { value, position: None })` and is printed as
/// `Text { value: "a", position: None }`.
#[cycle(node)]
pub enum Node {
    /// A whole document.
    Root(Root),
    /// A block quote.
    Blockquote(Blockquote),
    /// The definition of a footnote (GFM).
    FootnoteDefinition(FootnoteDefinition),
    /// A list, ordered or unordered.
    List(List),
    /// TOML frontmatter.
    Toml(Toml),
    /// YAML frontmatter.
    Yaml(Yaml),
    /// A hard line break.
    Break(Break),
    /// Inline code.
    InlineCode(InlineCode),
    /// Inline math.
    InlineMath(InlineMath),
    /// Strikethrough (GFM).
    Delete(Delete),
    /// Emphasis.
    Emphasis(Emphasis),
    /// A reference to a footnote (GFM).
    FootnoteReference(FootnoteReference),
    /// HTML, block or inline.
    Html(Html),
    /// An image with an inline URL.
    Image(Image),
    /// An image that refers to a definition.
    ImageReference(ImageReference),
    /// A link with an inline URL, or an autolink.
    Link(Link),
    /// A link that refers to a definition.
    LinkReference(LinkReference),
    /// Strong emphasis.
    Strong(Strong),
    /// Text.
    Text(Text),
    /// A code block, fenced or indented.
    Code(Code),
    /// A block of math.
    Math(Math),
    /// A heading.
    Heading(Heading),
    /// A table (GFM).
    Table(Table),
    /// A thematic break.
    ThematicBreak(ThematicBreak),
    /// A row of a table (GFM).
    TableRow(TableRow),
    /// A cell of a table row (GFM).
    TableCell(TableCell),
    /// An item of a list.
    ListItem(ListItem),
    /// A definition that links and images refer to.
    Definition(Definition),
    /// A paragraph.
    Paragraph(Paragraph),
}

impl Node {
    ghost use Rattle.std.specs.Borrow.{sem};
    ghost use Rattle.std.specs.Prelude.{ℕ, Bool, Some};
    ghost use Rattle.markdown_nodes.specs.Shown.{shown};
    ghost use Rattle.markdown_nodes.specs.Lends.{LendsChildren, LendsPosition, LendsSlot};

    /// Returns the children of a parent, in order, or `None` for a node that is not a parent.
    ///
    /// For a paragraph without children it is `Some` of an empty list; for a text it is `None`.
    pub fn children(&self) -> Option<&Vec<Node>>
        ensures { option_map (λ c. c.now) result ≡ children_of self.now }
    {
        match self {
            Node::Root(node) => Some(&node.children),
            Node::Blockquote(node) => Some(&node.children),
            Node::FootnoteDefinition(node) => Some(&node.children),
            Node::List(node) => Some(&node.children),
            Node::Toml(_) => None,
            Node::Yaml(_) => None,
            Node::Break(_) => None,
            Node::InlineCode(_) => None,
            Node::InlineMath(_) => None,
            Node::Delete(node) => Some(&node.children),
            Node::Emphasis(node) => Some(&node.children),
            Node::FootnoteReference(_) => None,
            Node::Html(_) => None,
            Node::Image(_) => None,
            Node::ImageReference(_) => None,
            Node::Link(node) => Some(&node.children),
            Node::LinkReference(node) => Some(&node.children),
            Node::Strong(node) => Some(&node.children),
            Node::Text(_) => None,
            Node::Code(_) => None,
            Node::Math(_) => None,
            Node::Heading(node) => Some(&node.children),
            Node::Table(node) => Some(&node.children),
            Node::ThematicBreak(_) => None,
            Node::TableRow(node) => Some(&node.children),
            Node::TableCell(node) => Some(&node.children),
            Node::ListItem(node) => Some(&node.children),
            Node::Definition(_) => None,
            Node::Paragraph(node) => Some(&node.children),
        }
    }

    /// Returns the children of a node, in order, or an empty slice for a node that is not a parent.
    ///
    /// For a list of two items the slice has the two items. For a text it is empty, as for a
    /// paragraph without children.
    pub fn child_nodes(&self) -> &[Node]
        ensures { result.now ≡ nodes_in self.now }
    {
        match self.children() {
            Some(children) => children.as_slice(),
            None => &[],
        }
    }

    /// Returns the children of a parent for changing, or `None` for a node that is not a parent.
    ///
    /// What is written through the reference becomes the node's children, and nothing else changes.
    /// `children.push(node)?` adds a last child.
    pub fn children_mut(&mut self) -> Option<&mut Vec<Node>>
        ensures* writes_back { sem 𝓛 (LendsChildren self.entry result) }
        ensures value { option_map (λ c. c.now) result ≡ children_of self.old }
    {
        match self {
            Node::Root(node) => Some(&mut node.children),
            Node::Blockquote(node) => Some(&mut node.children),
            Node::FootnoteDefinition(node) => Some(&mut node.children),
            Node::List(node) => Some(&mut node.children),
            Node::Toml(_) => None,
            Node::Yaml(_) => None,
            Node::Break(_) => None,
            Node::InlineCode(_) => None,
            Node::InlineMath(_) => None,
            Node::Delete(node) => Some(&mut node.children),
            Node::Emphasis(node) => Some(&mut node.children),
            Node::FootnoteReference(_) => None,
            Node::Html(_) => None,
            Node::Image(_) => None,
            Node::ImageReference(_) => None,
            Node::Link(node) => Some(&mut node.children),
            Node::LinkReference(node) => Some(&mut node.children),
            Node::Strong(node) => Some(&mut node.children),
            Node::Text(_) => None,
            Node::Code(_) => None,
            Node::Math(_) => None,
            Node::Heading(node) => Some(&mut node.children),
            Node::Table(node) => Some(&mut node.children),
            Node::ThematicBreak(_) => None,
            Node::TableRow(node) => Some(&mut node.children),
            Node::TableCell(node) => Some(&mut node.children),
            Node::ListItem(node) => Some(&mut node.children),
            Node::Definition(_) => None,
            Node::Paragraph(node) => Some(&mut node.children),
        }
    }

    /// Returns the position of the node in the document, or `None` for a generated node.
    ///
    /// The root of the document `a` has a position that is printed as `1:1-1:2 (0-1)`.
    pub fn position(&self) -> Option<&Position>
        ensures { option_map (λ p. p.now) result ≡ position_of self.now }
    {
        self.optional_position().as_ref()
    }

    /// Returns the position field of the node.
    fn optional_position(&self) -> &Option<Position>
        ensures { result.now ≡ position_of self.now }
    {
        match self {
            Node::Root(node) => &node.position,
            Node::Blockquote(node) => &node.position,
            Node::FootnoteDefinition(node) => &node.position,
            Node::List(node) => &node.position,
            Node::Toml(node) => &node.position,
            Node::Yaml(node) => &node.position,
            Node::Break(node) => &node.position,
            Node::InlineCode(node) => &node.position,
            Node::InlineMath(node) => &node.position,
            Node::Delete(node) => &node.position,
            Node::Emphasis(node) => &node.position,
            Node::FootnoteReference(node) => &node.position,
            Node::Html(node) => &node.position,
            Node::Image(node) => &node.position,
            Node::ImageReference(node) => &node.position,
            Node::Link(node) => &node.position,
            Node::LinkReference(node) => &node.position,
            Node::Strong(node) => &node.position,
            Node::Text(node) => &node.position,
            Node::Code(node) => &node.position,
            Node::Math(node) => &node.position,
            Node::Heading(node) => &node.position,
            Node::Table(node) => &node.position,
            Node::ThematicBreak(node) => &node.position,
            Node::TableRow(node) => &node.position,
            Node::TableCell(node) => &node.position,
            Node::ListItem(node) => &node.position,
            Node::Definition(node) => &node.position,
            Node::Paragraph(node) => &node.position,
        }
    }

    /// Returns the position of the node for changing, or `None` for a generated node.
    ///
    /// What is written through the reference becomes the node's position, and nothing else changes.
    /// Use [`position_set`](Node::position_set) for a node without a position. If
    /// `node.position_mut()` is `Some(position)`, then `position.end = end` makes the node end at
    /// the point `end`.
    pub fn position_mut(&mut self) -> Option<&mut Position>
        ensures* writes_back { sem 𝓛 (LendsPosition self.entry result) }
        ensures value { option_map (λ p. p.now) result ≡ position_of self.old }
    {
        self.position_slot().as_mut()
    }

    /// Sets the position of the node, and changes nothing else.
    ///
    /// After `node.position_set(None)` the node has no position.
    pub fn position_set(&mut self, position: Option<Position>)
        ensures { self.new ≡ with_position self.old position }
    {
        *self.position_slot() = position;
    }

    /// Returns the position field of the node for changing. What is written to it becomes the
    /// position.
    fn position_slot(&mut self) -> &mut Option<Position>
        ensures* writes_back { sem 𝓛 (LendsSlot self.entry result) }
        ensures value { result.now ≡ position_of self.old }
        ensures kept { with_position self.old result.now ≡ self.old }
    {
        match self {
            Node::Root(node) => &mut node.position,
            Node::Blockquote(node) => &mut node.position,
            Node::FootnoteDefinition(node) => &mut node.position,
            Node::List(node) => &mut node.position,
            Node::Toml(node) => &mut node.position,
            Node::Yaml(node) => &mut node.position,
            Node::Break(node) => &mut node.position,
            Node::InlineCode(node) => &mut node.position,
            Node::InlineMath(node) => &mut node.position,
            Node::Delete(node) => &mut node.position,
            Node::Emphasis(node) => &mut node.position,
            Node::FootnoteReference(node) => &mut node.position,
            Node::Html(node) => &mut node.position,
            Node::Image(node) => &mut node.position,
            Node::ImageReference(node) => &mut node.position,
            Node::Link(node) => &mut node.position,
            Node::LinkReference(node) => &mut node.position,
            Node::Strong(node) => &mut node.position,
            Node::Text(node) => &mut node.position,
            Node::Code(node) => &mut node.position,
            Node::Math(node) => &mut node.position,
            Node::Heading(node) => &mut node.position,
            Node::Table(node) => &mut node.position,
            Node::ThematicBreak(node) => &mut node.position,
            Node::TableRow(node) => &mut node.position,
            Node::TableCell(node) => &mut node.position,
            Node::ListItem(node) => &mut node.position,
            Node::Definition(node) => &mut node.position,
            Node::Paragraph(node) => &mut node.position,
        }
    }

    /// Returns the plain text of the node: the values of all literals in it, itself included, in
    /// tree order (as `to_string` of the crate `markdown`).
    ///
    /// An image is not a literal, so its alternative text is left out. A paragraph with the text
    /// `a` and an emphasis of the text `b` returns `ab`. The only error is that memory ran out.
    pub fn to_string(&self, alloc: Global) -> Result<String, AllocError>
        ensures { IfOk result (λ text. string_bytes text ≡ plain_text (only (view self.now))) }
    {
        let mut text = String::new(alloc);
        reading::add_text(self, &mut text, alloc)?;
        Ok(text)
    }

    /// Returns the text that `{:?}` writes, as a string.
    ///
    /// It is that of a derived Debug, with each position as `Some(1:1-1:3 (0-2))`. The only error
    /// is that memory ran out.
    ///
    /// A text `a` without a position returns `Text { value: "a", position: None }`.
    pub fn to_debug_string(&self, alloc: Global) -> Result<String, AllocError>
        ensures { IfOk result (λ text. (escapes : ℕ → Bool) × (string_bytes text ≡ shown escapes (view self.now))) }
    {
        let escapes = escapes::escapes_of(self, alloc)?;
        let escaped = debug::Escaped {
            node: self,
            escapes: &escapes,
            alloc,
        };
        format!(in alloc; "{escaped:?}")
    }

    /// Returns a copy of the node and of everything in it.
    ///
    /// The copy equals the node: `node.clone(alloc)? == node`. The only error is that memory ran
    /// out.
    pub fn clone(&self, alloc: Global) -> Result<Node, AllocError>
        ensures { IfOk result (λ copy. view copy ≡ view self.now) }
    {
        copying::copy(self, alloc)
    }

    /// Swaps the children with the nodes of a level, if the node is a parent. Returns whether it
    /// did.
    fn swap_children(&mut self, level: &mut Vec<Node>) -> bool
        ensures some { IsTrue result → Exchanged self.old level.old.items self.new level.new.items }
        ensures none { IsFalse result → (nodes_in self.old ≡ []) × (self.new ≡ self.old) × (level.new ≡ level.old) }
    {
        let Some(children) = self.children_mut() else {
            return false;
        };
        if children.is_empty() {
            return false;
        }
        mem::swap(children, level);
        true
    }

    /// Frees the last children, as long as they are not parents.
    fn drop_last_leaves(&mut self)
        ensures { WithoutLast (nodes_in self.old) (nodes_in self.new) }
    {
        if let Some(children) = self.children_mut() {
            drop_leaves(children);
        }
    }

    /// Frees a node without children. A text, the most frequent kind, is freed here; the other
    /// kinds are freed in a function that is not inlined.
    fn drop_childless(self)
        requires { nodes_in self ≡ [] }
    {
        match self {
            Node::Text(_) => {}
            other => other.drop_any_childless(),
        }
    }

    /// Frees a node of any kind without children.
    #[inline(never)]
    fn drop_any_childless(self)
        requires { nodes_in self ≡ [] }
    {
        match self {
            Node::Root(Root { children, .. }) => children.destroy_empty(),
            Node::Blockquote(Blockquote { children, .. }) => children.destroy_empty(),
            Node::FootnoteDefinition(FootnoteDefinition { children, .. }) =>
                children.destroy_empty(),
            Node::List(List { children, .. }) => children.destroy_empty(),
            Node::Toml(_) => {}
            Node::Yaml(_) => {}
            Node::Break(_) => {}
            Node::InlineCode(_) => {}
            Node::InlineMath(_) => {}
            Node::Delete(Delete { children, .. }) => children.destroy_empty(),
            Node::Emphasis(Emphasis { children, .. }) => children.destroy_empty(),
            Node::FootnoteReference(_) => {}
            Node::Html(_) => {}
            Node::Image(_) => {}
            Node::ImageReference(_) => {}
            Node::Link(Link { children, .. }) => children.destroy_empty(),
            Node::LinkReference(LinkReference { children, .. }) => children.destroy_empty(),
            Node::Strong(Strong { children, .. }) => children.destroy_empty(),
            Node::Text(_) => {}
            Node::Code(_) => {}
            Node::Math(_) => {}
            Node::Heading(Heading { children, .. }) => children.destroy_empty(),
            Node::Table(Table { children, .. }) => children.destroy_empty(),
            Node::ThematicBreak(_) => {}
            Node::TableRow(TableRow { children, .. }) => children.destroy_empty(),
            Node::TableCell(TableCell { children, .. }) => children.destroy_empty(),
            Node::ListItem(ListItem { children, .. }) => children.destroy_empty(),
            Node::Definition(_) => {}
            Node::Paragraph(Paragraph { children, .. }) => children.destroy_empty(),
        }
    }
}

/// Frees the last nodes of a list, as long as they are not parents.
fn drop_leaves(nodes: &mut Vec<Node>)
    ensures { WithoutLast nodes.old.items nodes.new.items }
{
    while let Some(last) = nodes.last() {
        if last.children().is_some() {
            return;
        }
        let Some(leaf) = nodes.pop() else {
            return;
        };
        leaf.drop_childless();
    }
}

/// Frees a tree of any depth in a loop, without allocating memory. On the way down a node and its
/// children change places: its siblings become its children, and it waits in the place of its first
/// child. Leaves at the end of a list are freed in place.
impl Drop for Node {
    fn drop(self) {
        let mut node = self;
        let Some(children) = node.children() else {
            node.drop_childless();
            return;
        };
        let mut level = Vec::new(*children.allocator());
        loop {
            node.drop_last_leaves();
            if node.swap_children(&mut level) {
                mem::swap(&mut level[0], &mut node);
            } else {
                node.drop_childless();
                drop_leaves(&mut level);
                let Some(next) = level.pop() else {
                    level.destroy_empty();
                    return;
                };
                node = next;
                if level.is_empty() {
                    node.swap_children(&mut level);
                }
            }
        }
    }
}

/// `{:?}` writes the form of a derived Debug on one line, whatever else the formatter requires. It
/// does not recurse, and fails if there is no memory for its stack.
impl fmt::Debug for Node {
    ghost use Rattle.std.specs.Fmt.{WritesOnOk};
    ghost use Rattle.std.specs.Prelude.{ℕ, Bool};
    ghost use Rattle.markdown_nodes.specs.Shown.{shown};

    fn fmt<W: fmt::Write>(&self, f: &mut fmt::Formatter<W>) -> fmt::Result
        ensures text { (escapes : ℕ → Bool) × WritesOnOk W.write_str_gives f.old result (shown escapes (view self.now)) f.new }
    {
        debug::write_line(self, f)
    }
}

/// A whole document: [`markdown_kinds::Root`], whose children are nodes.
pub type Root = markdown_kinds::Root<Node>;

/// A block quote: [`markdown_kinds::Blockquote`], whose children are nodes.
pub type Blockquote = markdown_kinds::Blockquote<Node>;

/// The definition of a footnote: [`markdown_kinds::FootnoteDefinition`], whose children are nodes.
pub type FootnoteDefinition = markdown_kinds::FootnoteDefinition<Node>;

/// A list, ordered or unordered: [`markdown_kinds::List`], whose children are nodes.
pub type List = markdown_kinds::List<Node>;

/// Strikethrough: [`markdown_kinds::Delete`], whose children are nodes.
pub type Delete = markdown_kinds::Delete<Node>;

/// Emphasis: [`markdown_kinds::Emphasis`], whose children are nodes.
pub type Emphasis = markdown_kinds::Emphasis<Node>;

/// A link with an inline URL, or an autolink: [`markdown_kinds::Link`], whose children are nodes.
pub type Link = markdown_kinds::Link<Node>;

/// A link that refers to a definition: [`markdown_kinds::LinkReference`], whose children are nodes.
pub type LinkReference = markdown_kinds::LinkReference<Node>;

/// Strong emphasis: [`markdown_kinds::Strong`], whose children are nodes.
pub type Strong = markdown_kinds::Strong<Node>;

/// A heading: [`markdown_kinds::Heading`], whose children are nodes.
pub type Heading = markdown_kinds::Heading<Node>;

/// A table: [`markdown_kinds::Table`], whose children are nodes.
pub type Table = markdown_kinds::Table<Node>;

/// A row of a table: [`markdown_kinds::TableRow`], whose children are nodes.
pub type TableRow = markdown_kinds::TableRow<Node>;

/// A cell of a table row: [`markdown_kinds::TableCell`], whose children are nodes.
pub type TableCell = markdown_kinds::TableCell<Node>;

/// An item of a list: [`markdown_kinds::ListItem`], whose children are nodes.
pub type ListItem = markdown_kinds::ListItem<Node>;

/// A paragraph: [`markdown_kinds::Paragraph`], whose children are nodes.
pub type Paragraph = markdown_kinds::Paragraph<Node>;
