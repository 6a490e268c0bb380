//! Whether the nodes of a tree nest and are in order.

ghost use Rattle.std.specs.Prelude.{◌≡◌, ◌↔◌, IsTrue};
ghost use Rattle.markdown_nodes.specs.Access.{label_of, nodes_in};
ghost use Rattle.markdown_nodes.specs.Tree.{only};
ghost use Rattle.markdown_nodes.specs.View.{view, views};
ghost use Rattle.markdown_grammar.specs.Levels.{Admits, AsAsked, bounds_after, bounds_in, bounds_of, standing_of};
ghost use Rattle.markdown_grammar.specs.Ordered;
ghost use Rattle.markdown_grammar.specs.Ordered.{IsOrdered, elsewhere, first_in_task};

use markdown_nodes::mdast::Node;
use markdown_nodes::unist::Position;
use std::alloc::Global;

/// Whether the nodes of a tree nest and are in order. A program that looks for the node at a byte,
/// or cuts the document where nodes end, may rely on it.
///
/// It is true exactly when every node has a position and the following holds by the offsets, which
/// count bytes from 0. Each child starts and ends within its parent, does not end before it starts,
/// and ends at or before the start of every later child. The root's own start and end are not
/// compared. In an item with a mark, the mark and the blank after it were cut off the front of the
/// first paragraph. There, that paragraph and the first node in it may start after their own ends,
/// and the nodes in it may start before it. The rule is ours. `compile` of the crate
/// `markdown_tree` returns such trees if the offsets of the events never go back.
///
/// It looks at each node once, and always returns an answer. It keeps a list of the levels that
/// still have nodes, and if there is no memory for that list, it recurses into the nodes in a node.
///
/// A root from 0 to 2 with a text from 0 to 1 and then one from 1 to 2 is ordered; with the two the
/// other way round it is not.
pub fn ordered(tree: &Node) -> bool
    ensures { IsTrue result ↔ IsOrdered (only (view tree.now)) }
{
    let Some(here) = tree.position() else {
        return false;
    };
    match tree.children() {
        Some(children) => {
            let level = level_in(Standing::Elsewhere, tree, here);
            in_order(level, *children.allocator())
        }
        None => true,
    }
}

/// Where a node is, as needed to know where the mark of a task item lets it start.
#[derive(Clone, Copy)]
enum Standing {
    /// First in an item with a mark.
    FirstInTask,
    /// First in the paragraph that is first there.
    FirstInParagraph,
    /// Anywhere else.
    Elsewhere,
}

impl Standing {
    /// Whether a node that is here is a paragraph that the mark was cut off.
    fn is_first_paragraph(self, node: &Node) -> bool
        ensures { result ≡ Ordered.is_first_paragraph (standing_of self) (label_of node.now) }
    {
        match self {
            Standing::FirstInTask => is_paragraph(node),
            _ => false,
        }
    }

    /// Whether a node that is here may start after its own end.
    fn may_start_late(self, node: &Node) -> bool
        ensures { result ≡ Ordered.may_start_late (standing_of self) (label_of node.now) }
    {
        match self {
            Standing::FirstInParagraph => true,
            _ => self.is_first_paragraph(node),
        }
    }

    /// Returns where the first child of a node is, for a node that is here.
    fn first_child(self, node: &Node) -> Standing
        ensures { standing_of result ≡ Ordered.first_child (standing_of self) (label_of node.now) }
    {
        if self.is_first_paragraph(node) {
            Standing::FirstInParagraph
        } else if is_task(node) {
            Standing::FirstInTask
        } else {
            Standing::Elsewhere
        }
    }
}

/// Whether a node is a paragraph.
fn is_paragraph(node: &Node) -> bool
    ensures { result ≡ Ordered.is_first_paragraph first_in_task (label_of node.now) }
{
    match node {
        Node::Paragraph(_) => true,
        _ => false,
    }
}

/// Whether a node is an item with a mark.
fn is_task(node: &Node) -> bool
    ensures { IsTrue result ↔ (Ordered.first_child elsewhere (label_of node.now) ≡ first_in_task) }
{
    match node {
        Node::ListItem(item) => item.checked.is_some(),
        _ => false,
    }
}

/// The bounds for the nodes that are left in a parent, by offsets.
#[derive(Clone, Copy)]
struct Limits {
    /// Where the first of them is.
    standing: Standing,
    /// Whether they may start before their parent, because a mark was cut off it.
    starts_are_free: bool,
    /// Where their parent starts.
    low: usize,
    /// Where their parent ends.
    high: usize,
    /// The greatest end of the nodes before them.
    reached: usize,
}

impl Limits {
    /// Whether the first of the nodes, at this position, is within the limits.
    fn admit(self, node: &Node, here: &Position) -> bool
        ensures { IsTrue result ↔ Admits (bounds_of self) (label_of node.now) here.now }
    {
        let start = here.start.offset;
        let end = here.end.offset;
        if !self.starts_are_free && start < self.low {
            return false;
        }
        if !self.standing.may_start_late(node) && end < start {
            return false;
        }
        end <= self.high && self.reached <= start
    }

    /// Returns the limits for the nodes after the first, which is at this position.
    fn after(self, here: &Position) -> Limits
        ensures { bounds_of result ≡ bounds_after (bounds_of self) here.now }
    {
        Limits {
            standing: Standing::Elsewhere,
            starts_are_free: self.starts_are_free,
            low: self.low,
            high: self.high,
            reached: self.reached.max(here.end.offset),
        }
    }
}

/// Returns the limits for the nodes in a node with this standing and this position.
fn limits_in(standing: Standing, node: &Node, here: &Position) -> Limits
    ensures { bounds_of result ≡ bounds_in (standing_of standing) (label_of node.now) here.now }
{
    Limits {
        standing: standing.first_child(node),
        starts_are_free: standing.is_first_paragraph(node),
        low: here.start.offset,
        high: here.end.offset,
        reached: 0,
    }
}

/// Nodes that are left in a parent, and their limits.
#[derive(Clone, Copy)]
struct Level<'a> {
    limits: Limits,
    nodes: &'a [Node],
}

/// Returns the nodes in a node with this standing and this position, with their limits.
fn level_in<'a>(standing: Standing, node: &'a Node, here: &Position) -> Level<'a>
    ensures limits { bounds_of result.limits ≡ bounds_in (standing_of standing) (label_of node.now) here.now }
    ensures nodes { result.nodes.now ≡ nodes_in node.now }
{
    Level {
        limits: limits_in(standing, node, here),
        nodes: node.child_nodes(),
    }
}

/// Whether the nodes of a level are within their limits. Uses a stack of the levels that still have
/// nodes, and recurses into the nodes in a node if there is no memory for the stack.
fn in_order(whole: Level, alloc: Global) -> bool
    ensures { IsTrue result ↔ AsAsked (bounds_of whole.entry.limits) (views whole.entry.nodes.now) }
{
    let mut levels: Vec<Level> = Vec::new(alloc);
    let mut level = whole;
    'walk: loop {
        let Some((first, rest)) = level.nodes.split_first() else {
            let Some(outer) = levels.pop() else {
                return true;
            };
            level = outer;
            continue 'walk;
        };
        let Some(here) = first.position() else {
            return false;
        };
        if !level.limits.admit(first, here) {
            return false;
        }
        let inner = level_in(level.limits.standing, first, here);
        let next = level.limits.after(here);
        if rest.is_empty() {
            level = inner;
            continue 'walk;
        }
        match levels.push(Level {
            limits: next,
            nodes: rest,
        }) {
            Ok(()) => level = inner,
            Err(_) => {
                if !in_order(inner, alloc) {
                    return false;
                }
                level = Level {
                    limits: next,
                    nodes: rest,
                };
            }
        }
    }
}
