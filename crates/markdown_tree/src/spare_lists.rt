//! Lists of nodes that are kept for their room.

ghost use Rattle.std.specs.Prelude.{◌≡◌, []};

use markdown_nodes::mdast::Node;
use std::alloc::Global;
use std::marker::Model;

/// The most lists that are kept.
const LISTS: usize = 16;

/// The most nodes that a list that is kept has room for.
const NODES: usize = 64;

/// Lists that are kept for their room (ours): what one span needed for its nodes, the next one can
/// use. No contract depends on them.
#[derive(Drop)]
pub struct SpareLists {
    lists: Vec<Vec<Node>>,
}

impl Model for SpareLists {
    ghost Value = { Unit {0} };

    ghost view = { λ _. tt };
}

impl SpareLists {
    /// Returns no lists. It allocates no memory.
    pub fn new(alloc: Global) -> SpareLists {
        SpareLists {
            lists: Vec::new(alloc),
        }
    }

    /// Returns a list without nodes. It has room for some if a list was kept.
    #[inline(always)]
    pub fn take(&mut self, alloc: Global) -> Vec<Node>
        ensures { result.items ≡ [] }
    {
        match self.lists.pop() {
            Some(list) => emptied(list),
            None => Vec::new(alloc),
        }
    }

    /// Keeps a list for its room. What is left in it is dropped when it is taken. The list is dropped
    /// now if it is long, if there are enough, or if memory has run out.
    #[inline(always)]
    pub fn keep(&mut self, list: Vec<Node>) {
        let is_short = list.capacity() > 0 && list.capacity() <= NODES;
        if is_short && self.lists.len() < LISTS {
            let _kept = self.lists.push(list);
        }
    }
}

/// Returns a list without its nodes.
#[inline(always)]
fn emptied(list: Vec<Node>) -> Vec<Node>
    ensures { result.items ≡ [] }
{
    let mut list = list;
    list.clear();
    list
}
