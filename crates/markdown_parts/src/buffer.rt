//! The text of a buffer, a span whose nodes are collected for a text, such as a title, a label or a
//! block of code.

ghost use Rattle.std.specs.Prelude.{◌≡◌, ◌≤◌, ◌+◌, ◌++◌, OnOk, IfOk, IfSome, IsNone, IsSome, string_bytes};
ghost use Rattle.markdown_nodes.specs.Access;
ghost use Rattle.markdown_nodes.specs.Tree.{plain_label, plain_text};
ghost use Rattle.markdown_nodes.specs.View.{views};
ghost use Rattle.markdown_grammar.specs.Buffers.{node_count};
ghost use Rattle.markdown_parts.specs.Readings.{own_text, reading};

use markdown_nodes::mdast::Node;
use markdown_nodes::steps::Steps;
use std::alloc::{AllocError, Global};
use std::mem;

/// Which text to read.
#[derive(Clone, Copy)]
enum Form {
    /// The values of the literals.
    Values,
    /// These, and the alternative texts of images.
    Label,
}

/// Returns the text of nodes: the values of the literals among them and in them, in the order of
/// the tree. Titles, destinations and blocks of code are read this way. It takes one step for each
/// node. The only error is that memory ran out.
///
/// The nodes are used up: if there is one text alone, as in most buffers, its characters are moved,
/// and not copied.
///
/// For an emphasis with the text `a` in it, and the text `b` after it, it is `ab`.
pub fn values_of(
    alloc: Global,
    steps: &mut Steps<'_>,
    nodes: &mut Vec<Node>,
) -> Result<String, AllocError>
    ensures text { IfOk result (λ text. string_bytes text ≡ plain_text (views nodes.old.items)) }
    ensures list { steps.new.events ≡ steps.old.events }
    // Each node takes one step, and if memory runs out it takes no more than that.
    ensures count { OnOk result (steps.new.count ≡ steps.old.count + node_count (views nodes.old.items)) }
    ensures bound { steps.new.count ≤ steps.old.count + node_count (views nodes.old.items) }
{
    if let Some(text) = text_alone(alloc, nodes) {
        steps.tick();
        return Ok(text);
    }
    text_of(alloc, steps, Form::Values, nodes)
}

/// Moves the characters out of a text that is the only node. Other nodes are unchanged.
#[tactic(auto, using(crate::proofs::Readings::alone_reads, crate::proofs::Readings::alone_counts))]
fn text_alone(alloc: Global, nodes: &mut Vec<Node>) -> Option<String>
    ensures text { IfSome result (λ text. string_bytes text ≡ plain_text (views nodes.old.items)) }
    ensures count { IsSome result → node_count (views nodes.old.items) ≡ 1 }
    ensures kept { IsNone result → nodes.new.items ≡ nodes.old.items }
{
    if nodes.len() != 1 {
        return None;
    }
    let first = nodes.first_mut()?;
    match first {
        Node::Text(node) => Some(mem::replace(&mut node.value, String::new(alloc))),
        _ => None,
    }
}

/// Does the same, with the alternative texts of images: the labels of links and images are read
/// this way.
///
/// For the text `a`, and after it an image with the alternative text `b`, it is `ab`.
pub fn label_of(alloc: Global, steps: &mut Steps<'_>, nodes: &[Node]) -> Result<String, AllocError>
    ensures text { IfOk result (λ text. string_bytes text ≡ plain_label (views nodes.now)) }
    ensures list { steps.new.events ≡ steps.old.events }
    // Each node takes one step, and if memory runs out it takes no more than that.
    ensures count { OnOk result (steps.new.count ≡ steps.old.count + node_count (views nodes.now)) }
    ensures bound { steps.new.count ≤ steps.old.count + node_count (views nodes.now) }
{
    text_of(alloc, steps, Form::Label, nodes)
}

/// Returns the text of nodes.
fn text_of(
    alloc: Global,
    steps: &mut Steps<'_>,
    form: Form,
    nodes: &[Node],
) -> Result<String, AllocError>
    ensures text { IfOk result (λ text. string_bytes text ≡ reading form (views nodes.now)) }
    ensures list { steps.new.events ≡ steps.old.events }
    ensures count { OnOk result (steps.new.count ≡ steps.old.count + node_count (views nodes.now)) }
    ensures bound { steps.new.count ≤ steps.old.count + node_count (views nodes.now) }
{
    let mut text = String::new(alloc);
    add_text(alloc, steps, form, nodes, &mut text)?;
    Ok(text)
}

/// Appends the text of nodes to a text. After an error an unknown part of it has been appended.
fn add_text(
    alloc: Global,
    steps: &mut Steps<'_>,
    form: Form,
    nodes: &[Node],
    text: &mut String,
) -> Result<(), AllocError>
    ensures text { OnOk result (string_bytes text.new ≡ string_bytes text.old ++ reading form (views nodes.now)) }
    ensures list { steps.new.events ≡ steps.old.events }
    ensures count { OnOk result (steps.new.count ≡ steps.old.count + node_count (views nodes.now)) }
    ensures bound { steps.new.count ≤ steps.old.count + node_count (views nodes.now) }
{
    let mut levels: Vec<&[Node]> = Vec::new(alloc);
    let mut level = nodes;
    'walk: loop {
        if let Some((first, rest)) = level.split_first() {
            steps.tick();
            text.push_str(own_text(form, first))?;
            if let Some(children) = first.children() {
                levels.push(rest)?;
                level = children.as_slice();
            } else {
                level = rest;
            }
        } else {
            let Some(rest) = levels.pop() else {
                return Ok(());
            };
            level = rest;
        }
    }
}

/// Returns the text of one node, without that of the nodes in it: the value of a literal, in a
/// label the alternative text of an image, and otherwise the empty text.
fn own_text(form: Form, node: &Node) -> &str
    ensures { result.now ≡ own_text form (Access.label_of node.now) }
{
    match (form, node) {
        (_, Node::Toml(node)) => node.value.as_str(),
        (_, Node::Yaml(node)) => node.value.as_str(),
        (_, Node::InlineCode(node)) => node.value.as_str(),
        (_, Node::InlineMath(node)) => node.value.as_str(),
        (_, Node::Html(node)) => node.value.as_str(),
        (_, Node::Text(node)) => node.value.as_str(),
        (_, Node::Code(node)) => node.value.as_str(),
        (_, Node::Math(node)) => node.value.as_str(),
        (Form::Label, Node::Image(node)) => node.alt.as_str(),
        (Form::Label, Node::ImageReference(node)) => node.alt.as_str(),
        _ => "",
    }
}
