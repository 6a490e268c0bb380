//! Lists of nodes.

use crate::expect::same;
use markdown_nodes::mdast::{Node, ThematicBreak};
use markdown_parts::joining::drained;
use std::alloc::AllocError;

#[test]
fn nodes_move_to_a_list_of_their_length(rt: HostRuntime) -> Result<(), AllocError> {
    let mut nodes = Vec::with_capacity(rt.alloc(), 4)?;
    nodes.push(Node::ThematicBreak(ThematicBreak { position: None }))?;
    let list = drained(rt.alloc(), &mut nodes)?;
    same(&rt, (list.len(), list.capacity()), (1, 1));
    same(&rt, (nodes.len(), nodes.capacity()), (0, 4));
    Ok(())
}

#[test]
fn nodes_that_fill_their_list_stay_in_it(rt: HostRuntime) -> Result<(), AllocError> {
    let mut nodes = Vec::with_capacity(rt.alloc(), 1)?;
    nodes.push(Node::ThematicBreak(ThematicBreak { position: None }))?;
    let list = drained(rt.alloc(), &mut nodes)?;
    same(&rt, (list.len(), list.capacity()), (1, 1));
    same(&rt, (nodes.len(), nodes.capacity()), (0, 0));
    Ok(())
}
