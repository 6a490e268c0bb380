//! The input of a page.

ghost use Rattle.std.specs.Prelude.{◌≡◌, ℕ, List, IfOk, OnOk, option_map};
ghost use Rattle.markdown_nodes.specs.Access.{label_of};
ghost use Rattle.markdown_nodes.specs.View.{view};
ghost use Rattle.mdast_check.specs.References.{definition_identifier_of, footnote_identifier_of};
ghost use Rattle.mdast_util.specs.Definitions.{definition_in};
ghost use Rattle.markdown_html.specs.Given.{source_of};
ghost use Rattle.markdown_html.specs.Html.{footnote_in, reference_cost, settled};
ghost use Rattle.markdown_html.specs.Gathered.{found, with_first};
ghost use Rattle.markdown_html.specs.Pages.{page_of};
ghost use Rattle.markdown_html.specs.Places.{place_of};
ghost use Rattle.markdown_html.specs.Texts.{budget_of};

use crate::definitions::{definition_cost, reference_identifier};
use crate::page::Page;
use crate::place::Place;
use crate::texts::{budget, label_texts};
use markdown_nodes::mdast::Node;
use markdown_nodes::walk::Walk;
use std::alloc::{AllocError, Global};
use std::collections::BTreeMap;
use std::marker::Model;

/// What happens to HTML in a document.
#[derive(Clone, Copy, PartialEq, Eq)]
pub(crate) enum Raw {
    /// It is left out.
    Omit,
    /// It is shown as text.
    Escape,
    /// It passes except for some tags, and so does each address.
    Filter,
    /// It passes, and so does each address.
    Pass,
}

/// The input of a page: a tree, what happens to raw HTML in it, and how each id begins.
#[derive(Drop)]
pub(crate) struct Source<'a> {
    pub alloc: Global,
    pub raw: Raw,
    pub id_prefix: &'a str,
    pub tree: &'a Node,
    /// The definitions by identifier. The first one of an identifier counts.
    definitions: BTreeMap<&'a str, &'a Node>,
    /// The footnotes by identifier. The first one of an identifier counts.
    footnotes: BTreeMap<&'a str, &'a Node>,
    /// How many bytes the page may copy.
    budget: usize,
}

impl<'a> Model for Source<'a> {
    ghost use Rattle.markdown_html.specs.Gathered.{Gathers};
    ghost use Rattle.markdown_html.specs.Given.{Given};
    ghost use Rattle.markdown_nodes.specs.contracts.mdast.Node as node;
    ghost use Rattle.std.specs.Coded.{codes};

    ghost Value = { Given };

    ghost coded = { Prim.hlevel (codes, node.the_row.coded) };

    ghost view = { λ it. record { raw = it.raw; id_prefix = it.id_prefix.now; root = it.tree.now } };

    ghost invariant = { λ it. Gathers it.definitions it.footnotes it.budget it.tree.now };
}

impl<'a> Source<'a> {
    /// Returns the input of a page, in one pass over the tree.
    pub fn new(
        alloc: Global,
        raw: Raw,
        id_prefix: &'a str,
        tree: &'a Node,
    ) -> Result<Source<'a>, AllocError>
        ensures { IfOk result (λ it. it ≡ record { raw = raw; id_prefix = id_prefix.now; root = tree.now }) }
    {
        let mut definitions = BTreeMap::new(alloc);
        let mut footnotes = BTreeMap::new(alloc);
        let mut texts = 0_usize;
        let mut walk = Walk::new(alloc, tree);
        'nodes: while let Some(node) = walk.next()? {
            put_first(&mut definitions, definition_identifier(node), node)?;
            put_first(&mut footnotes, footnote_identifier(node), node)?;
            texts = texts.saturating_add(label_texts(node));
        }
        Ok(Source {
            alloc,
            raw,
            id_prefix,
            tree,
            definitions,
            footnotes,
            budget: budget(texts),
        })
    }

    /// Returns the first definition with an identifier.
    pub fn definition(&self, identifier: &'a str) -> Option<&'a Node>
        ensures { option_map (λ node. view node.now) result ≡ definition_in (view self.now.root) identifier.now }
    {
        self.definitions.get(&identifier).copied()
    }

    /// Returns how many bytes the page may copy.
    pub fn budget(&self) -> usize
        ensures { result ≡ budget_of (view self.now.root) }
    {
        self.budget
    }

    /// Returns the place of a node on a page so far: a reference is bare there if the page may not
    /// copy its definition.
    pub fn settled(&self, at: Place<'a>, node: &'a Node, page: &Page<'a>) -> Place<'a>
        ensures { place_of result ≡ settled (source_of self.now) (place_of at.entry) (label_of node.now) (page_of page.now) }
    {
        Place {
            is_bare: self.reference_cost(reference_identifier(node)) > page.budget,
            ..at
        }
    }

    /// Returns how many bytes a reference copies from its definition.
    fn reference_cost(&self, identifier: Option<&'a str>) -> usize
        ensures { result ≡ reference_cost (source_of self.now) (option_map (λ text. text.now) identifier.entry) }
    {
        let Some(identifier) = identifier else {
            return 0;
        };
        match self.definition(identifier) {
            None => 0,
            Some(found) => definition_cost(found),
        }
    }

    /// Returns the first footnote with an identifier.
    pub fn footnote(&self, identifier: &'a str) -> Option<&'a Node>
        ensures { option_map (λ node. view node.now) result ≡ footnote_in (view self.now.root) identifier.now }
    {
        self.footnotes.get(&identifier).copied()
    }
}

/// Adds a node to a map, unless the map already has one. Without an identifier nothing is added.
fn put_first<'a>(
    map: &mut BTreeMap<&'a str, &'a Node>,
    identifier: Option<&'a str>,
    node: &'a Node,
) -> Result<(), AllocError>
    ensures { OnOk result ((other : List ℕ) → found map.new other ≡ with_first identifier.entry (view node.now) other (found map.old other)) }
{
    if let Some(identifier) = identifier {
        if !map.contains_key(&identifier) {
            map.insert(identifier, node)?;
        }
    }
    Ok(())
}

/// Returns the identifier of a definition.
fn definition_identifier(node: &Node) -> Option<&str>
    ensures { option_map (λ text. text.now) result ≡ definition_identifier_of (label_of node.now) }
{
    match node {
        Node::Definition(node) => Some(node.identifier.as_str()),
        _ => None,
    }
}

/// Returns the identifier of a footnote.
fn footnote_identifier(node: &Node) -> Option<&str>
    ensures { option_map (λ text. text.now) result ≡ footnote_identifier_of (label_of node.now) }
{
    match node {
        Node::FootnoteDefinition(node) => Some(node.identifier.as_str()),
        _ => None,
    }
}
