//! What the rules need to know about a node besides the node itself.

ghost use Rattle.std.specs.Prelude.{◌≡◌, List, IfOk, OnOk, [], ◌∷◌, option_map};
ghost use Rattle.markdown_nodes.specs.Access.{label_of};
ghost use Rattle.markdown_nodes.specs.Tree.{Tree};
ghost use Rattle.markdown_nodes.specs.View.{view};
ghost use Rattle.mdast_check.specs.Surroundings.{AreUses, StandAround};
ghost use Rattle.markdown_nodes.specs.Walk.{walk};
ghost use Rattle.mdast_check.specs.Warnings.{call_identifier_of, link_identifier_of};

use crate::outline::depth;
use crate::references::{Known, definition_identifier, footnote_identifier, known_in, put};
use markdown_nodes::mdast::Node;
use markdown_nodes::walk::Walk;
use std::alloc::{AllocError, Global};
use std::collections::BTreeSet;

/// The tree around a node and the nodes before it, as the rules need them.
#[derive(Drop)]
pub(crate) struct Surroundings<'a> {
    /// The depth of the last heading before the node.
    pub depth: Option<u8>,
    /// The identifiers that the tree defines.
    pub defined: Known<'a>,
    /// The identifiers that the tree refers to.
    pub used: Known<'a>,
    /// The identifiers that nodes before this one define.
    pub before: Known<'a>,
}

impl<'a> Surroundings<'a> {
    /// Returns the surroundings of the first node of a tree, the tree itself.
    pub fn new(alloc: Global, tree: &'a Node) -> Result<Surroundings<'a>, AllocError>
        ensures { IfOk result (λ around. StandAround around (view tree.now) []) }
    {
        let defined = known_in(alloc, tree)?;
        let used = uses_in(alloc, tree)?;
        let before = Known {
            definitions: BTreeSet::new(alloc),
            footnotes: BTreeSet::new(alloc),
        };
        Ok(Surroundings {
            depth: None,
            defined,
            used,
            before,
        })
    }

    /// Passes a node: from now on it counts as before.
    pub fn pass(&mut self, node: &'a Node) -> Result<(), AllocError>
        ensures { OnOk result ((tree : Tree) (before : List Tree) → StandAround self.old tree before → StandAround self.new tree (view node.now ∷ before)) }
    {
        put(&mut self.before.definitions, definition_identifier(node))?;
        put(&mut self.before.footnotes, footnote_identifier(node))?;
        self.depth = depth(node).or(self.depth);
        Ok(())
    }
}

/// Returns the identifiers that a tree refers to, in one pass over it.
fn uses_in<'a>(alloc: Global, tree: &'a Node) -> Result<Known<'a>, AllocError>
    ensures { IfOk result (λ known. AreUses known (walk (view tree.now))) }
{
    let mut definitions = BTreeSet::new(alloc);
    let mut footnotes = BTreeSet::new(alloc);
    let mut walk = Walk::new(alloc, tree);
    'nodes: while let Some(node) = walk.next()? {
        put(&mut definitions, link_identifier(node))?;
        put(&mut footnotes, call_identifier(node))?;
    }
    Ok(Known {
        definitions,
        footnotes,
    })
}

/// Returns the identifier that a link or an image refers to, and `None` for any other node.
fn link_identifier(node: &Node) -> Option<&str>
    ensures { option_map (λ text. text.now) result ≡ link_identifier_of (label_of node.now) }
{
    match node {
        Node::LinkReference(node) => Some(node.identifier.as_str()),
        Node::ImageReference(node) => Some(node.identifier.as_str()),
        _ => None,
    }
}

/// Returns the identifier of the footnote that a node calls, and `None` for any other node.
fn call_identifier(node: &Node) -> Option<&str>
    ensures { option_map (λ text. text.now) result ≡ call_identifier_of (label_of node.now) }
{
    match node {
        Node::FootnoteReference(node) => Some(node.identifier.as_str()),
        _ => None,
    }
}
