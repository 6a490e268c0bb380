//! The pages of random trees of all kinds of nodes, each read back tag by tag.

use crate::tags::read;
use markdown_html::{HtmlOptions, RawHtml, to_html};
use markdown_nodes::mdast::{
    AlignKind, Blockquote, Break, Code, Definition, Delete, Emphasis, FootnoteDefinition,
    FootnoteReference, Heading, Html, Image, ImageReference, InlineCode, InlineMath, Link,
    LinkReference, List, ListItem, Math, Node, Paragraph, ReferenceKind, Root, Strong, Table,
    TableCell, TableRow, Text, ThematicBreak, Toml, Yaml,
};
use std::alloc::{AllocError, Global};

/// Texts that an attacker may write.
static TEXTS: [&str; 16] = [
    "",
    "a",
    "<script>alert(1)</script>",
    "\" onclick=\"alert(1)",
    "' onclick='alert(1)",
    "javascript:alert(1)",
    "JAVA\tSCRIPT:alert(1)",
    "\u{1}javascript:alert(1)",
    "data:text/html,<b>",
    "https://a.b/?c=<d>&e=\"f\"",
    "&lt;b&gt;&#60;b&#62;",
    "</p></li></ol></section>",
    "<!-- a --> <![CDATA[b]]> <?c?>",
    "a b",
    "\0",
    "ü\u{202e}",
];

/// Pseudo-random numbers, from a linear congruence.
#[derive(Drop)]
struct Dice {
    state: u64,
}

impl Dice {
    /// Returns a number below another.
    fn below(&mut self, sides: u8) -> u8 {
        self.state = self
            .state
            .wrapping_mul(6_364_136_223_846_793_005)
            .wrapping_add(1_442_695_040_888_963_407);
        let number = (self.state >> 33)
            .checked_rem(u64::from(sides))
            .unwrap_or(0);
        u8::try_from(number).unwrap_or(0)
    }

    /// Returns the result of a coin flip.
    fn flips(&mut self) -> bool {
        self.below(2) == 0
    }

    /// Returns one of the texts.
    fn text(&mut self, alloc: Global) -> Result<String, AllocError> {
        let text = TEXTS
            .get(usize::from(self.below(16)))
            .copied()
            .unwrap_or("");
        String::from_str(alloc, text)
    }

    /// Returns one of the texts, or none.
    fn option(&mut self, alloc: Global) -> Result<Option<String>, AllocError> {
        if self.flips() {
            return Ok(None);
        }
        Ok(Some(self.text(alloc)?))
    }

    /// Returns the alignments of some columns.
    fn align(&mut self, alloc: Global) -> Result<Vec<AlignKind>, AllocError> {
        let mut align = Vec::new(alloc);
        for _ in 0..self.below(3) {
            align.push(match self.below(4) {
                0 => AlignKind::Left,
                1 => AlignKind::Right,
                2 => AlignKind::Center,
                _ => AlignKind::None,
            })?;
        }
        Ok(align)
    }

    /// Returns a kind of reference.
    fn reference(&mut self) -> ReferenceKind {
        match self.below(3) {
            0 => ReferenceKind::Shortcut,
            1 => ReferenceKind::Collapsed,
            _ => ReferenceKind::Full,
        }
    }

    /// Returns a node of any kind, which has these children if it is a parent.
    fn node(&mut self, alloc: Global, children: Vec<Node>) -> Result<Node, AllocError> {
        let position = None;
        Ok(match self.below(29) {
            0 => Node::Root(Root { children, position }),
            1 => Node::Blockquote(Blockquote { children, position }),
            2 => Node::Delete(Delete { children, position }),
            3 => Node::Emphasis(Emphasis { children, position }),
            4 => Node::Strong(Strong { children, position }),
            5 => Node::TableRow(TableRow { children, position }),
            6 => Node::TableCell(TableCell { children, position }),
            7 => Node::Paragraph(Paragraph { children, position }),
            8 => Node::Break(Break { position }),
            9 => Node::ThematicBreak(ThematicBreak { position }),
            10 => Node::Heading(Heading {
                children,
                position,
                depth: self.below(9),
            }),
            11 => Node::Table(Table {
                children,
                position,
                align: self.align(alloc)?,
            }),
            12 => Node::List(List {
                children,
                position,
                ordered: self.flips(),
                start: Some(u32::from(self.below(9))),
                spread: self.flips(),
            }),
            13 => Node::ListItem(ListItem {
                children,
                position,
                spread: self.flips(),
                checked: Some(self.flips()),
            }),
            _ => self.texts(alloc, children)?,
        })
    }

    /// Returns a node with texts.
    fn texts(&mut self, alloc: Global, children: Vec<Node>) -> Result<Node, AllocError> {
        let position = None;
        let value = self.text(alloc)?;
        Ok(match self.below(9) {
            0 => Node::Toml(Toml { value, position }),
            1 => Node::Yaml(Yaml { value, position }),
            2 => Node::InlineCode(InlineCode { value, position }),
            3 => Node::InlineMath(InlineMath { value, position }),
            4 => Node::Html(Html { value, position }),
            5 => Node::Text(Text { value, position }),
            6 => Node::Code(Code {
                value,
                position,
                lang: self.option(alloc)?,
                meta: self.option(alloc)?,
            }),
            7 => Node::Math(Math {
                value,
                position,
                meta: self.option(alloc)?,
            }),
            _ => self.resources(alloc, children, value)?,
        })
    }

    /// Returns a node with an address or an identifier.
    fn resources(
        &mut self,
        alloc: Global,
        children: Vec<Node>,
        text: String,
    ) -> Result<Node, AllocError> {
        let position = None;
        let label = self.option(alloc)?;
        Ok(match self.below(7) {
            0 => Node::Link(Link {
                children,
                position,
                url: text,
                title: label,
            }),
            1 => Node::Image(Image {
                position,
                alt: self.text(alloc)?,
                url: text,
                title: label,
            }),
            2 => Node::LinkReference(LinkReference {
                children,
                position,
                reference_kind: self.reference(),
                identifier: text,
                label,
            }),
            3 => Node::ImageReference(ImageReference {
                position,
                alt: self.text(alloc)?,
                reference_kind: self.reference(),
                identifier: text,
                label,
            }),
            4 => Node::FootnoteReference(FootnoteReference {
                position,
                identifier: text,
                label,
            }),
            5 => Node::FootnoteDefinition(FootnoteDefinition {
                children,
                position,
                identifier: text,
                label,
            }),
            _ => Node::Definition(Definition {
                position,
                url: self.text(alloc)?,
                title: self.option(alloc)?,
                identifier: text,
                label,
            }),
        })
    }

    /// Takes up to three of the nodes, and puts a node in their place.
    fn grow(&mut self, alloc: Global, nodes: &mut Vec<Node>) -> Result<(), AllocError> {
        let mut children = Vec::new(alloc);
        for _ in 0..self.below(4) {
            if let Some(node) = nodes.pop() {
                children.push(node)?;
            }
        }
        nodes.push(self.node(alloc, children)?)?;
        Ok(())
    }
}

#[test]
fn trees_of_all_kinds(rt: HostRuntime) -> Result<(), AllocError> {
    let alloc = rt.alloc();
    let mut dice = Dice { state: 1 };
    for _ in 0..2000 {
        let mut nodes = Vec::new(alloc);
        for _ in 0..40 {
            dice.grow(alloc, &mut nodes)?;
        }
        let tree = Node::Root(Root {
            children: nodes,
            position: None,
        });
        let options = HtmlOptions {
            raw_html: RawHtml::Escape,
            id_prefix: "user-content-",
        };
        let page = to_html(alloc, &tree, &options)?;
        if let Err(fault) = read(alloc, page.as_str()) {
            assert!(rt; false, "{fault}: {page}");
        }
    }
    Ok(())
}
