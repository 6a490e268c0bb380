//! The 29 kinds of nodes of mdast, the forms of references, how the fields of nodes are written and
//! copied, and texts between quotes (`quoted`).
//!
//! Fifteen kinds are parents, with children of any type `N`. `markdown_nodes` sets it to its
//! `Node`, and re-exports all kinds. Eight are literals, which have a value, and six are neither.
//! Each has a position in the document, or none.
#![tactic(auto)]

pub mod copying;
pub mod debug;
pub mod escapes;
pub mod quoted;

use markdown_events::infer::AlignKind;
use markdown_events::unist::Position;
use std::fmt;

/// The form in which a reference is written (mdast, `referenceType`).
#[derive(Clone, Copy, PartialEq, Eq)]
pub enum ReferenceKind {
    /// Shortcut: `[a]`.
    Shortcut,
    /// Collapsed: `[a][]`.
    Collapsed,
    /// Full: `[a][b]`.
    Full,
}

impl fmt::Debug for ReferenceKind {
    ghost use Rattle.std.specs.Prelude.{Some};
    ghost use Rattle.markdown_kinds.specs.ReferenceKinds.{reference_kind_name};

    ghost debug_output = { λ kind. Some (reference_kind_name kind) };

    fn fmt<W: fmt::Write>(&self, f: &mut fmt::Formatter<W>) -> fmt::Result {
        match self {
            ReferenceKind::Shortcut => write!(f, "Shortcut"),
            ReferenceKind::Collapsed => write!(f, "Collapsed"),
            ReferenceKind::Full => write!(f, "Full"),
        }
    }
}

/// TOML frontmatter: metadata at the start of a document (mdast, the extension for frontmatter).
///
/// The lines `+++`, `a = 1` and `+++` are frontmatter with the value `a = 1`.
#[derive(Clone, PartialEq, Eq, Debug, Drop)]
pub struct Toml {
    /// The value.
    pub value: String,
    /// The position in the document, or none for a generated node.
    pub position: Option<Position>,
}

/// YAML frontmatter: metadata at the start of a document (mdast, the extension for frontmatter).
///
/// The lines `---`, `a: b` and `---` are frontmatter with the value `a: b`.
#[derive(Clone, PartialEq, Eq, Debug, Drop)]
pub struct Yaml {
    /// The value.
    pub value: String,
    /// The position in the document, or none for a generated node.
    pub position: Option<Position>,
}

/// A hard line break (CommonMark, hard line breaks).
///
/// A backslash at the end of a line makes one, and so do two spaces there.
#[derive(Clone, PartialEq, Eq, Debug, Drop)]
pub struct Break {
    /// The position in the document, or none for a generated node.
    pub position: Option<Position>,
}

/// Inline code (CommonMark, code spans).
///
/// `` `a` `` is inline code with the value `a`.
#[derive(Clone, PartialEq, Eq, Debug, Drop)]
pub struct InlineCode {
    /// The value.
    pub value: String,
    /// The position in the document, or none for a generated node.
    pub position: Option<Position>,
}

/// Inline math (mdast, the extension for math).
///
/// `$a$` is inline math with the value `a`.
#[derive(Clone, PartialEq, Eq, Debug, Drop)]
pub struct InlineMath {
    /// The value.
    pub value: String,
    /// The position in the document, or none for a generated node.
    pub position: Option<Position>,
}

/// A reference to a footnote (GFM, footnotes).
///
/// `[^a]` refers to the definition of the footnote `a`.
#[derive(Clone, PartialEq, Eq, Debug, Drop)]
pub struct FootnoteReference {
    /// The position in the document, or none for a generated node.
    pub position: Option<Position>,
    /// The normalized identifier, by which references and definitions match (see
    /// [`normalize_identifier`](markdown_events::text::normalize_identifier)).
    pub identifier: String,
    /// The label as written, if it is known.
    pub label: Option<String>,
}

/// HTML as written, block or inline (CommonMark, HTML blocks and raw HTML).
///
/// `<a>` is one with the value `<a>`; HTML is not parsed.
#[derive(Clone, PartialEq, Eq, Debug, Drop)]
pub struct Html {
    /// The value.
    pub value: String,
    /// The position in the document, or none for a generated node.
    pub position: Option<Position>,
}

/// An image with an inline URL (CommonMark, images).
///
/// `![a](b "c")` is an image of the URL `b`, with the alternative text `a` and the title `c`.
#[derive(Clone, PartialEq, Eq, Debug, Drop)]
pub struct Image {
    /// The position in the document, or none for a generated node.
    pub position: Option<Position>,
    /// The alternative text, used where the image cannot be shown.
    pub alt: String,
    /// The URL.
    pub url: String,
    /// The title, if there is one.
    pub title: Option<String>,
}

/// An image that refers to a definition (CommonMark, images).
///
/// `![a][b]` refers to the definition `b`.
#[derive(Clone, PartialEq, Eq, Debug, Drop)]
pub struct ImageReference {
    /// The position in the document, or none for a generated node.
    pub position: Option<Position>,
    /// The alternative text, used where the image cannot be shown.
    pub alt: String,
    /// The form of the reference.
    pub reference_kind: ReferenceKind,
    /// The normalized identifier, by which references and definitions match (see
    /// [`normalize_identifier`](markdown_events::text::normalize_identifier)).
    pub identifier: String,
    /// The label as written, if it is known.
    pub label: Option<String>,
}

/// Text (CommonMark, textual content).
///
/// The line `a` has the text `a`.
#[derive(Clone, PartialEq, Eq, Debug, Drop)]
pub struct Text {
    /// The value.
    pub value: String,
    /// The position in the document, or none for a generated node.
    pub position: Option<Position>,
}

/// A code block, fenced or indented (CommonMark, fenced code blocks and indented code blocks).
///
/// A fence followed by `rust ignore` has the language `rust` and the meta `ignore`.
#[derive(Clone, PartialEq, Eq, Debug, Drop)]
pub struct Code {
    /// The value.
    pub value: String,
    /// The position in the document, or none for a generated node.
    pub position: Option<Position>,
    /// The language: the first word after the opening fence, if there is one.
    pub lang: Option<String>,
    /// The rest of that line after the language, if there is any.
    pub meta: Option<String>,
}

/// A block of math (mdast, the extension for math).
///
/// The lines `$$`, `a` and `$$` are a block of math with the value `a`.
#[derive(Clone, PartialEq, Eq, Debug, Drop)]
pub struct Math {
    /// The value.
    pub value: String,
    /// The position in the document, or none for a generated node.
    pub position: Option<Position>,
    /// The rest of the line after the opening fence, if there is any.
    pub meta: Option<String>,
}

/// A thematic break (CommonMark, thematic breaks).
///
/// `***` alone on a line is one.
#[derive(Clone, PartialEq, Eq, Debug, Drop)]
pub struct ThematicBreak {
    /// The position in the document, or none for a generated node.
    pub position: Option<Position>,
}

/// A definition that links and images refer to (CommonMark, link reference definitions).
///
/// `[a]: b "c"` gives the label `a` the URL `b` and the title `c`.
#[derive(Clone, PartialEq, Eq, Debug, Drop)]
pub struct Definition {
    /// The position in the document, or none for a generated node.
    pub position: Option<Position>,
    /// The URL.
    pub url: String,
    /// The title, if there is one.
    pub title: Option<String>,
    /// The normalized identifier, by which references and definitions match (see
    /// [`normalize_identifier`](markdown_events::text::normalize_identifier)).
    pub identifier: String,
    /// The label as written, if it is known.
    pub label: Option<String>,
}

/// A whole document (mdast).
///
/// The document `a` is a root with one paragraph in it.
#[derive(PartialEq, Eq, Debug, Drop)]
pub struct Root<N> {
    /// The child nodes, in order.
    pub children: Vec<N>,
    /// The position in the document, or none for a generated node.
    pub position: Option<Position>,
}

/// A block quote (CommonMark, block quotes).
///
/// `> a` is a block quote with one paragraph in it.
#[derive(PartialEq, Eq, Debug, Drop)]
pub struct Blockquote<N> {
    /// The child nodes, in order.
    pub children: Vec<N>,
    /// The position in the document, or none for a generated node.
    pub position: Option<Position>,
}

/// The definition of a footnote: what the footnote says (GFM, footnotes).
///
/// `[^a]: b` defines the footnote `a`.
#[derive(PartialEq, Eq, Debug, Drop)]
pub struct FootnoteDefinition<N> {
    /// The child nodes, in order.
    pub children: Vec<N>,
    /// The position in the document, or none for a generated node.
    pub position: Option<Position>,
    /// The normalized identifier, by which references and definitions match (see
    /// [`normalize_identifier`](markdown_events::text::normalize_identifier)).
    pub identifier: String,
    /// The label as written, if it is known.
    pub label: Option<String>,
}

/// A list, ordered or unordered (CommonMark, lists).
///
/// `* a` is an unordered list of one item; `3. a` is an ordered list that starts at 3.
#[derive(PartialEq, Eq, Debug, Drop)]
pub struct List<N> {
    /// The child nodes, in order.
    pub children: Vec<N>,
    /// The position in the document, or none for a generated node.
    pub position: Option<Position>,
    /// Whether the list is ordered: its items are numbered.
    pub ordered: bool,
    /// The number that an ordered list starts with: that of the first item that has one. `None` for
    /// an unordered list.
    pub start: Option<u32>,
    /// Whether a blank line is directly in the list: between items, or after the last one (mdast;
    /// markdown-rs decides which ones count). A blank line directly after an item without content
    /// at its end does not count, and neither do blank lines in the items.
    pub spread: bool,
}

/// Strikethrough (GFM, strikethrough).
///
/// `~~a~~` is a deletion with the text `a` in it.
#[derive(PartialEq, Eq, Debug, Drop)]
pub struct Delete<N> {
    /// The child nodes, in order.
    pub children: Vec<N>,
    /// The position in the document, or none for a generated node.
    pub position: Option<Position>,
}

/// Emphasis (CommonMark, emphasis).
///
/// `*a*` is an emphasis with the text `a` in it.
#[derive(PartialEq, Eq, Debug, Drop)]
pub struct Emphasis<N> {
    /// The child nodes, in order.
    pub children: Vec<N>,
    /// The position in the document, or none for a generated node.
    pub position: Option<Position>,
}

/// A link with an inline URL, or an autolink (CommonMark, links and autolinks; GFM, autolinks).
///
/// `[a](b "c")` is a link to the URL `b` with the title `c`.
#[derive(PartialEq, Eq, Debug, Drop)]
pub struct Link<N> {
    /// The child nodes, in order.
    pub children: Vec<N>,
    /// The position in the document, or none for a generated node.
    pub position: Option<Position>,
    /// The URL.
    pub url: String,
    /// The title, if there is one.
    pub title: Option<String>,
}

/// A link that refers to a definition (CommonMark, reference links).
///
/// `[a][b]` refers to the definition `b`.
#[derive(PartialEq, Eq, Debug, Drop)]
pub struct LinkReference<N> {
    /// The child nodes, in order.
    pub children: Vec<N>,
    /// The position in the document, or none for a generated node.
    pub position: Option<Position>,
    /// The form of the reference.
    pub reference_kind: ReferenceKind,
    /// The normalized identifier, by which references and definitions match (see
    /// [`normalize_identifier`](markdown_events::text::normalize_identifier)).
    pub identifier: String,
    /// The label as written, if it is known.
    pub label: Option<String>,
}

/// Strong emphasis (CommonMark, strong emphasis).
///
/// `**a**` is a strong emphasis with the text `a` in it.
#[derive(PartialEq, Eq, Debug, Drop)]
pub struct Strong<N> {
    /// The child nodes, in order.
    pub children: Vec<N>,
    /// The position in the document, or none for a generated node.
    pub position: Option<Position>,
}

/// A heading (CommonMark, ATX headings and setext headings).
///
/// `## a` is a heading of depth 2.
#[derive(PartialEq, Eq, Debug, Drop)]
pub struct Heading<N> {
    /// The child nodes, in order.
    pub children: Vec<N>,
    /// The position in the document, or none for a generated node.
    pub position: Option<Position>,
    /// The depth, from 1, the highest rank, to 6.
    pub depth: u8,
}

/// A table (GFM, tables). Its children are rows, and the first is its head.
///
/// The lines `| a |` and `| - |` are a table of one row and one column.
#[derive(PartialEq, Eq, Debug, Drop)]
pub struct Table<N> {
    /// The child nodes, in order.
    pub children: Vec<N>,
    /// The position in the document, or none for a generated node.
    pub position: Option<Position>,
    /// The alignment of each column, starting with the first.
    pub align: Vec<AlignKind>,
}

/// A row of a table; the first row of a table is its head (GFM, tables).
///
/// `| a | b |` is a row of two cells.
#[derive(PartialEq, Eq, Debug, Drop)]
pub struct TableRow<N> {
    /// The child nodes, in order.
    pub children: Vec<N>,
    /// The position in the document, or none for a generated node.
    pub position: Option<Position>,
}

/// A cell of a table row (GFM, tables).
///
/// `| a |` is a row of one cell with the text `a` in it.
#[derive(PartialEq, Eq, Debug, Drop)]
pub struct TableCell<N> {
    /// The child nodes, in order.
    pub children: Vec<N>,
    /// The position in the document, or none for a generated node.
    pub position: Option<Position>,
}

/// An item of a list (CommonMark, list items; GFM, task list items).
///
/// `* [x] a` is an item whose task is done.
#[derive(PartialEq, Eq, Debug, Drop)]
pub struct ListItem<N> {
    /// The child nodes, in order.
    pub children: Vec<N>,
    /// The position in the document, or none for a generated node.
    pub position: Option<Position>,
    /// Whether a blank line is directly in the item: between its children, or after the last one
    /// (mdast; markdown-rs decides which ones count). A blank line directly after the item's
    /// prefix, or with one span of white space between them, does not count.
    pub spread: bool,
    /// Whether the task is done, or none for an item that is not a task.
    pub checked: Option<bool>,
}

/// A paragraph (CommonMark, paragraphs).
///
/// The line `a` is a paragraph with the text `a` in it.
#[derive(PartialEq, Eq, Debug, Drop)]
pub struct Paragraph<N> {
    /// The child nodes, in order.
    pub children: Vec<N>,
    /// The position in the document, or none for a generated node.
    pub position: Option<Position>,
}
