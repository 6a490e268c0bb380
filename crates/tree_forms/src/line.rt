//! A line of the outline of a tree.

use markdown_nodes::mdast::{AlignKind, List, ListItem, Node, ReferenceKind};
use markdown_nodes::unist::Point;
use std::alloc::{AllocError, Global};
use std::fmt::Display;

/// A line with room for a number of characters. The rest is cut off.
#[derive(Drop)]
pub struct Line {
    /// The text in the line.
    text: String,
    /// How many more characters fit.
    room: usize,
    /// Whether something was cut off.
    is_cut: bool,
}

impl Line {
    /// Returns an empty line with room for this number of characters, or for any number.
    pub fn new(alloc: Global, width: Option<usize>) -> Line {
        Line {
            text: String::new(alloc),
            room: width.unwrap_or(usize::MAX),
            is_cut: false,
        }
    }

    /// Whether there is no room left.
    pub fn is_full(&self) -> bool {
        self.room == 0
    }

    /// Appends a text.
    pub fn push(&mut self, text: &str) -> Result<(), AllocError> {
        for c in text.chars() {
            if self.room == 0 {
                self.is_cut = true;
                return Ok(());
            }
            self.text.push(c)?;
            self.room -= 1;
        }
        Ok(())
    }

    /// Appends a number of blanks.
    pub fn push_blanks(&mut self, count: usize) -> Result<(), AllocError> {
        for _ in 0..count {
            self.push(" ")?;
        }
        Ok(())
    }

    /// Appends a value as it is displayed.
    pub fn push_shown(&mut self, value: &impl Display) -> Result<(), AllocError> {
        let text = value.to_string(*self.text.allocator())?;
        self.push(text.as_str())
    }

    /// Returns the text of the line. If something was cut off, it ends with an ellipsis.
    pub fn finish(self) -> Result<String, AllocError> {
        let Line {
            mut text,
            is_cut,
            ..
        } = self;
        if is_cut && text.pop().is_some() {
            text.push('…')?;
        }
        Ok(text)
    }

    /// Appends a field with a number or a boolean.
    fn push_field(&mut self, name: &str, value: &impl Display) -> Result<(), AllocError> {
        self.push(" ")?;
        self.push(name)?;
        self.push(": ")?;
        self.push_shown(value)
    }

    /// Appends a field with a text.
    fn push_text(&mut self, name: &str, value: &str) -> Result<(), AllocError> {
        self.push(" ")?;
        self.push(name)?;
        self.push(":")?;
        self.push_value(value)
    }

    /// Appends a field with a text, if there is one.
    fn push_option(&mut self, name: &str, value: &Option<String>) -> Result<(), AllocError> {
        match value {
            Some(value) => self.push_text(name, value.as_str()),
            None => Ok(()),
        }
    }

    /// Appends a text between quotes.
    fn push_value(&mut self, value: &str) -> Result<(), AllocError> {
        self.push(" \"")?;
        for c in value.chars() {
            if self.is_full() {
                break;
            }
            self.push_escaped(c)?;
        }
        self.push("\"")
    }

    /// Appends a character between quotes.
    fn push_escaped(&mut self, c: char) -> Result<(), AllocError> {
        match c {
            '"' => self.push("\\\""),
            '\\' => self.push("\\\\"),
            '\n' => self.push("\\n"),
            '\r' => self.push("\\r"),
            '\t' => self.push("\\t"),
            c if c.is_control() => self.push_shown(&c.escape_unicode()),
            c => self.push_shown(&c),
        }
    }

    /// Appends a node: its kind, how many children it has, its position and its fields.
    pub fn push_node(&mut self, node: &Node) -> Result<(), AllocError> {
        self.push(kind(node))?;
        if let Some(children) = node.children() {
            self.push("[")?;
            self.push_shown(&children.len())?;
            self.push("]")?;
        }
        if let Some(position) = node.position() {
            self.push(" (")?;
            self.push_point(&position.start)?;
            self.push("-")?;
            self.push_point(&position.end)?;
            self.push(", ")?;
            self.push_shown(&position.start.offset)?;
            self.push("-")?;
            self.push_shown(&position.end.offset)?;
            self.push(")")?;
        }
        self.push_fields(node)
    }

    /// Appends the line and the column of a point.
    fn push_point(&mut self, point: &Point) -> Result<(), AllocError> {
        self.push_shown(&point.line)?;
        self.push(":")?;
        self.push_shown(&point.column)
    }

    /// Appends the fields that a node has, its value last.
    fn push_fields(&mut self, node: &Node) -> Result<(), AllocError> {
        match node {
            Node::Heading(node) => self.push_field("depth", &node.depth),
            Node::List(node) => self.push_list(node),
            Node::ListItem(node) => self.push_list_item(node),
            Node::Table(node) => self.push_align(&node.align),
            Node::Code(node) => {
                self.push_option("lang", &node.lang)?;
                self.push_option("meta", &node.meta)?;
                self.push_value(node.value.as_str())
            }
            Node::Math(node) => {
                self.push_option("meta", &node.meta)?;
                self.push_value(node.value.as_str())
            }
            Node::Link(node) => self.push_resource(&node.url, &node.title),
            Node::Image(node) => {
                self.push_text("alt", node.alt.as_str())?;
                self.push_resource(&node.url, &node.title)
            }
            Node::LinkReference(node) => {
                self.push_reference(node.reference_kind, &node.identifier, &node.label)
            }
            Node::ImageReference(node) => {
                self.push_text("alt", node.alt.as_str())?;
                self.push_reference(node.reference_kind, &node.identifier, &node.label)
            }
            Node::Definition(node) => {
                self.push_association(&node.identifier, &node.label)?;
                self.push_resource(&node.url, &node.title)
            }
            Node::FootnoteReference(node) => self.push_association(&node.identifier, &node.label),
            Node::FootnoteDefinition(node) => self.push_association(&node.identifier, &node.label),
            _ => self.push_literal(node),
        }
    }

    /// Appends the fields of a list.
    fn push_list(&mut self, list: &List) -> Result<(), AllocError> {
        self.push_field("ordered", &list.ordered)?;
        if let Some(start) = &list.start {
            self.push_field("start", start)?;
        }
        self.push_field("spread", &list.spread)
    }

    /// Appends the fields of an item of a list.
    fn push_list_item(&mut self, item: &ListItem) -> Result<(), AllocError> {
        self.push_field("spread", &item.spread)?;
        match &item.checked {
            Some(checked) => self.push_field("checked", checked),
            None => Ok(()),
        }
    }

    /// Appends how the columns of a table are aligned.
    fn push_align(&mut self, align: &[AlignKind]) -> Result<(), AllocError> {
        self.push(" align:")?;
        for kind in align {
            self.push(match kind {
                AlignKind::Left => " left",
                AlignKind::Right => " right",
                AlignKind::Center => " center",
                AlignKind::None => " none",
            })?;
        }
        Ok(())
    }

    /// Appends an address and a title.
    fn push_resource(&mut self, url: &str, title: &Option<String>) -> Result<(), AllocError> {
        self.push_text("url", url)?;
        self.push_option("title", title)
    }

    /// Appends the fields of a reference.
    fn push_reference(
        &mut self,
        kind: ReferenceKind,
        identifier: &str,
        label: &Option<String>,
    ) -> Result<(), AllocError> {
        self.push(match kind {
            ReferenceKind::Shortcut => " shortcut",
            ReferenceKind::Collapsed => " collapsed",
            ReferenceKind::Full => " full",
        })?;
        self.push_association(identifier, label)
    }

    /// Appends an identifier and a label.
    fn push_association(
        &mut self,
        identifier: &str,
        label: &Option<String>,
    ) -> Result<(), AllocError> {
        self.push_text("identifier", identifier)?;
        self.push_option("label", label)
    }

    /// Appends the value of a literal.
    fn push_literal(&mut self, node: &Node) -> Result<(), AllocError> {
        match node {
            Node::Text(node) => self.push_value(node.value.as_str()),
            Node::InlineCode(node) => self.push_value(node.value.as_str()),
            Node::InlineMath(node) => self.push_value(node.value.as_str()),
            Node::Html(node) => self.push_value(node.value.as_str()),
            Node::Yaml(node) => self.push_value(node.value.as_str()),
            Node::Toml(node) => self.push_value(node.value.as_str()),
            _ => Ok(()),
        }
    }
}

/// Returns the name of the kind of a node, as in mdast.
fn kind(node: &Node) -> &'static str {
    match node {
        Node::Root(_) => "root",
        Node::Blockquote(_) => "blockquote",
        Node::FootnoteDefinition(_) => "footnoteDefinition",
        Node::List(_) => "list",
        Node::Toml(_) => "toml",
        Node::Yaml(_) => "yaml",
        Node::Break(_) => "break",
        Node::InlineCode(_) => "inlineCode",
        Node::InlineMath(_) => "inlineMath",
        Node::Delete(_) => "delete",
        Node::Emphasis(_) => "emphasis",
        Node::FootnoteReference(_) => "footnoteReference",
        Node::Html(_) => "html",
        Node::Image(_) => "image",
        Node::ImageReference(_) => "imageReference",
        Node::Link(_) => "link",
        Node::LinkReference(_) => "linkReference",
        Node::Strong(_) => "strong",
        Node::Text(_) => "text",
        Node::Code(_) => "code",
        Node::Math(_) => "math",
        Node::Heading(_) => "heading",
        Node::Table(_) => "table",
        Node::ThematicBreak(_) => "thematicBreak",
        Node::TableRow(_) => "tableRow",
        Node::TableCell(_) => "tableCell",
        Node::ListItem(_) => "listItem",
        Node::Definition(_) => "definition",
        Node::Paragraph(_) => "paragraph",
    }
}
