//! Which nodes of a tree have text in them.

ghost use Rattle.std.specs.Prelude.{◌≡◌, ◌++◌, Bool, List, IfOk, length, map, reverse};
ghost use Rattle.std.specs.List.{list_any};
ghost use Rattle.markdown_nodes.specs.Access.{label_of};
ghost use Rattle.markdown_nodes.specs.Tree.{label_text_of};
ghost use Rattle.markdown_nodes.specs.View.{view};
ghost use Rattle.markdown_nodes.specs.Walk.{walk};
ghost use Rattle.mdast_check.specs.Warnings.{have_text};

use markdown_nodes::mdast::Node;
use markdown_nodes::walk::Walk;
use std::alloc::{AllocError, Global};

/// Returns for each node of a tree whether there is text in its children, the last node first. The
/// answer for the first node is therefore at the end of the list.
///
/// The nodes are visited from the last to the first. A node has text if a child has, or if its own
/// text is not empty. The answers for its children are at the end of the answers for nodes whose
/// parent has not been visited yet.
pub(crate) fn texts_in(alloc: Global, tree: &Node) -> Result<Vec<bool>, AllocError>
    ensures { IfOk result (λ texts. reverse texts.items ≡ map (λ node. have_text node.children) (walk (view tree.now))) }
{
    let mut nodes = nodes_in_order(alloc, tree)?;
    let mut texts = Vec::new(alloc);
    let mut orphans = Vec::new(alloc);
    'nodes: while let Some(node) = nodes.pop() {
        let in_children = any_of_last(&mut orphans, node.child_nodes().len());
        texts.push(in_children)?;
        orphans.push(in_children | !own_text(node).is_empty())?;
    }
    Ok(texts)
}

/// Returns the nodes of a tree in order.
fn nodes_in_order(alloc: Global, tree: &Node) -> Result<Vec<&Node>, AllocError>
    ensures { IfOk result (λ nodes. map (λ node. view node.now) nodes.items ≡ walk (view tree.now)) }
{
    let mut nodes = Vec::new(alloc);
    let mut walk = Walk::new(alloc, tree);
    'nodes: while let Some(node) = walk.next()? {
        nodes.push(node)?;
    }
    Ok(nodes)
}

/// Removes this number of answers from the end, and returns whether one of them is true.
fn any_of_last(answers: &mut Vec<bool>, count: usize) -> bool
    ensures { (rest last : List Bool) → length last ≡ count → answers.old.items ≡ rest ++ last → (result ≡ list_any (λ answer. answer) last) × (answers.new.items ≡ rest) }
{
    let rest = answers.len().saturating_sub(count);
    let any = any_of(&answers[rest..]);
    answers.truncate(rest);
    any
}

/// Whether one of the answers is true.
fn any_of(answers: &[bool]) -> bool
    ensures { result ≡ list_any (λ answer. answer) answers.now }
{
    answers.iter().any(|answer| *answer)
}

/// Returns the value of a literal, the alternative text of an image, or an empty text for any other
/// kind.
fn own_text(node: &Node) -> &str
    ensures { result.now ≡ label_text_of (label_of node.now) }
{
    match node {
        Node::Toml(node) => node.value.as_str(),
        Node::Yaml(node) => node.value.as_str(),
        Node::InlineCode(node) => node.value.as_str(),
        Node::InlineMath(node) => node.value.as_str(),
        Node::Html(node) => node.value.as_str(),
        Node::Text(node) => node.value.as_str(),
        Node::Code(node) => node.value.as_str(),
        Node::Math(node) => node.value.as_str(),
        Node::Image(node) => node.alt.as_str(),
        Node::ImageReference(node) => node.alt.as_str(),
        _ => "",
    }
}
