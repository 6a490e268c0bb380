//! The nodes of a tree, one after the other.

ghost use Rattle.std.specs.Prelude.{◌≡◌, IfOk, OnErr};
ghost use Rattle.markdown_nodes.specs.View.{view};
ghost use Rattle.markdown_nodes.specs.WalkLevels.{coming};
ghost use Rattle.markdown_nodes.specs.Walk.{Yields, walk};

use crate::mdast::Node;
use std::alloc::{AllocError, Global};
use std::slice;

/// A walk over a tree: the node itself, then all nodes in it, each before its children (preorder,
/// like unist-util-visit).
///
/// Contracts use the nodes that are still to come (`coming`). The rest of each level is kept on the
/// heap, so a deep tree does not use more stack.
///
/// The walk over a paragraph with the text `Hi` returns the paragraph, then the text, then `None`.
#[derive(Drop)]
pub struct Walk<'a> {
    /// The rest of the current level.
    level: &'a [Node],
    /// The rest of the levels around it, the outermost first.
    outer: Vec<&'a [Node]>,
}

impl<'a> Walk<'a> {
    /// Returns a walk that begins at a node. It allocates no memory.
    ///
    /// The first node that it returns is `tree`.
    pub fn new(alloc: Global, tree: &'a Node) -> Walk<'a>
        ensures { coming result ≡ walk (view tree.now) }
    {
        Walk {
            level: slice::from_ref(tree),
            outer: Vec::new(alloc),
        }
    }

    /// Returns the next node, or `None` after the last.
    ///
    /// The only error is that memory ran out. In that case the same node is still to come.
    ///
    /// After the last node each call returns `None`.
    pub fn next(&mut self) -> Result<Option<&'a Node>, AllocError>
        ensures next { IfOk result (Yields (coming self.old) (coming self.new)) }
        ensures unchanged { OnErr result (coming self.new ≡ coming self.old) }
    {
        'levels: loop {
            if let Some((first, rest)) = self.level.split_first() {
                self.outer.push(rest)?;
                self.level = first.child_nodes();
                return Ok(Some(first));
            }
            match self.outer.pop() {
                Some(level) => self.level = level,
                None => return Ok(None),
            }
        }
    }
}
