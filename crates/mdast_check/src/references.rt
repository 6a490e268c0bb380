//! The references of a tree that no definition answers.

ghost use Rattle.std.specs.Prelude.{◌≡◌, ℕ, List, IfOk, OnOk, map, option_map};
ghost use Rattle.markdown_nodes.specs.Access.{label_of};
ghost use Rattle.markdown_nodes.specs.View.{view};
ghost use Rattle.markdown_nodes.specs.Walk.{walk};
ghost use Rattle.mdast_check.specs.Known.{has, with_one};
ghost use Rattle.mdast_check.specs.References.{definition_identifier_of, footnote_identifier_of, open_in, refers_to, told};
ghost use Rattle.mdast_check.specs.Asking.{IsKnown, answered, open_node};

use markdown_nodes::mdast::Node;
use markdown_nodes::unist::Position;
use markdown_nodes::walk::Walk;
use std::alloc::{AllocError, Global};
use std::collections::BTreeSet;

/// What a reference refers to.
#[derive(Clone, Copy, PartialEq, Eq, Debug)]
pub enum OpenKind {
    /// A link, `[a]`, whose URL is in a definition.
    Link,
    /// An image, `![a]`, whose URL is in a definition.
    Image,
    /// A footnote, `[^a]`.
    Footnote,
}

/// A reference that no definition answers.
#[derive(Debug, PartialEq, Eq, Drop)]
pub struct Open {
    /// What it refers to.
    pub kind: OpenKind,
    /// The identifier that no definition has.
    pub identifier: String,
    /// Where the reference is, and `None` if its node has no position. Lines and columns count from
    /// 1; an offset counts bytes from 0.
    pub position: Option<Position>,
}

/// Returns the references of a tree that no definition in it answers, in the order of the tree.
///
/// A link or an image by reference needs a Definition with its identifier, and a reference to a
/// footnote needs a FootnoteDefinition. The definition may be anywhere in the tree, also after the
/// reference. Each open reference is listed: two references to one missing identifier make two
/// entries. Identifiers are compared byte by byte, since those of mdast are already normalized.
///
/// That a reference needs a definition with a matching label is CommonMark's rule, and for
/// footnotes GitHub's. The tree of a tokenizer that follows it has no open references; a tree that
/// was edited, or put together from parts, may have some. The only error is that memory ran out.
///
/// A root of a LinkReference `a`, a FootnoteReference `c` and then a Definition `a` has one: a
/// Footnote, with the identifier `c` and the position of that node.
pub fn open_references(alloc: Global, tree: &Node) -> Result<Vec<Open>, AllocError>
    ensures { IfOk result (λ found. map told found.items ≡ open_in (view tree.now)) }
{
    let known = known_in(alloc, tree)?;
    let mut found = Vec::new(alloc);
    let mut walk = Walk::new(alloc, tree);
    'nodes: while let Some(node) = walk.next()? {
        if let Some(open) = open_at(alloc, node, &known)? {
            found.push(open)?;
        }
    }
    Ok(found)
}

/// Identifiers of definitions and of footnotes, such as those that a tree defines.
#[derive(Drop)]
pub(crate) struct Known<'a> {
    /// Those of Definitions, which links and images refer to.
    pub definitions: BTreeSet<&'a str>,
    /// Those of FootnoteDefinitions.
    pub footnotes: BTreeSet<&'a str>,
}

/// Returns the identifiers that a tree defines, in one pass over it.
pub(crate) fn known_in<'a>(alloc: Global, tree: &'a Node) -> Result<Known<'a>, AllocError>
    ensures { IfOk result (λ known. IsKnown known (walk (view tree.now))) }
{
    let mut definitions = BTreeSet::new(alloc);
    let mut footnotes = BTreeSet::new(alloc);
    let mut walk = Walk::new(alloc, tree);
    'nodes: while let Some(node) = walk.next()? {
        put(&mut definitions, definition_identifier(node))?;
        put(&mut footnotes, footnote_identifier(node))?;
    }
    Ok(Known {
        definitions,
        footnotes,
    })
}

/// Adds a text, if there is one, to a set.
pub(crate) fn put<'a>(set: &mut BTreeSet<&'a str>, text: Option<&'a str>) -> Result<(), AllocError>
    ensures { OnOk result ((other : List ℕ) → has set.new other ≡ with_one text.entry other (has set.old other)) }
{
    if let Some(text) = text {
        set.insert(text)?;
    }
    Ok(())
}

/// Returns the identifier that a definition defines, and `None` for any other node.
pub(crate) fn definition_identifier(node: &Node) -> Option<&str>
    ensures { option_map (λ text. text.now) result ≡ definition_identifier_of (label_of node.now) }
{
    match node {
        Node::Definition(node) => Some(node.identifier.as_str()),
        _ => None,
    }
}

/// Returns the identifier that a footnote definition defines, and `None` for any other node.
pub(crate) fn footnote_identifier(node: &Node) -> Option<&str>
    ensures { option_map (λ text. text.now) result ≡ footnote_identifier_of (label_of node.now) }
{
    match node {
        Node::FootnoteDefinition(node) => Some(node.identifier.as_str()),
        _ => None,
    }
}

/// Returns the open reference of a node, if it is a reference that is not known.
fn open_at<'a>(alloc: Global, node: &'a Node, known: &Known<'a>) -> Result<Option<Open>, AllocError>
    ensures { IfOk result (λ found. option_map told found ≡ open_node (answered known.now) (view node.now)) }
{
    let Some((kind, identifier)) = refers(node) else {
        return Ok(None);
    };
    if is_known(known, kind, identifier) {
        return Ok(None);
    }
    let identifier = String::from_str(alloc, identifier)?;
    let position = node.position().copied();
    Ok(Some(Open {
        kind,
        identifier,
        position,
    }))
}

/// Returns the kind and the identifier of a reference, and `None` for any other node.
fn refers(node: &Node) -> Option<(OpenKind, &str)>
    ensures { option_map (λ to. (to.0, to.1.now)) result ≡ refers_to (label_of node.now) }
{
    match node {
        Node::LinkReference(node) => Some((OpenKind::Link, node.identifier.as_str())),
        Node::ImageReference(node) => Some((OpenKind::Image, node.identifier.as_str())),
        Node::FootnoteReference(node) => Some((OpenKind::Footnote, node.identifier.as_str())),
        _ => None,
    }
}

/// Whether the identifier of a reference of this kind is known.
pub(crate) fn is_known<'a>(known: &Known<'a>, kind: OpenKind, identifier: &'a str) -> bool
    ensures { result ≡ answered known.now kind identifier.now }
{
    match kind {
        OpenKind::Link | OpenKind::Image => known.definitions.contains(&identifier),
        OpenKind::Footnote => known.footnotes.contains(&identifier),
    }
}
