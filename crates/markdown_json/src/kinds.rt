//! The fields of each kind of node, in the terms of mdast.
#![tactic(auto, unfolding(crate::specs::Fields::kind, crate::specs::Fields::key, crate::specs::Fields::field, crate::specs::Fields::children, crate::specs::Strings::string))]

ghost use Rattle.std.specs.Prelude.{◌≡◌, ◌++◌, [], None, OnOk, codes, false, string_bytes, true};
ghost use Rattle.markdown_json.specs.Counting.{counted_as};
ghost use Rattle.markdown_nodes.specs.Access.{label_of, position_of};
ghost use Rattle.markdown_nodes.specs.Labels.{
  code_label,
  definition_label,
  footnote_definition_label,
  footnote_reference_label,
  image_label,
  image_reference_label,
  link_label,
  link_reference_label,
  list_item_label,
  list_label,
  math_label,
};
ghost use Rattle.markdown_nodes.specs.Tree.{heading, list, list_item, table};
ghost use Rattle.markdown_json.specs.Json.{children_end, closing, opening};

use crate::fields::{
    push_align, push_association, push_checked, push_children, push_flag, push_number, push_option,
    push_reference, push_resource, push_start,
};
use crate::points::Points;
use crate::positions::LastPosition;
use crate::strings::{push, push_started};
use markdown_nodes::mdast::{
    Code, Definition, FootnoteDefinition, FootnoteReference, Heading, Image, ImageReference, Link,
    LinkReference, List, ListItem, Math, Node, Table,
};
use std::alloc::AllocError;

/// Appends the kind and the fields of a node, up to its children.
pub fn push_opening(out: &mut String, node: &Node) -> Result<(), AllocError>
    ensures { OnOk result (string_bytes out.new ≡ string_bytes out.old ++ opening (label_of node.now)) }
{
    match node {
        Node::Root(_) => push(out, r#"{"type":"root","children":["#),
        Node::Blockquote(_) => push(out, r#"{"type":"blockquote","children":["#),
        Node::FootnoteDefinition(node) => push_footnote_definition(out, node),
        Node::List(node) => push_list(out, node),
        Node::Toml(node) => push_started(out, r#"{"type":"toml","value":""#, &node.value),
        Node::Yaml(node) => push_started(out, r#"{"type":"yaml","value":""#, &node.value),
        Node::Break(_) => push(out, r#"{"type":"break""#),
        Node::InlineCode(node) => push_started(
            out,
            r#"{"type":"inlineCode","value":""#,
            &node.value,
        ),
        Node::InlineMath(node) => push_started(
            out,
            r#"{"type":"inlineMath","value":""#,
            &node.value,
        ),
        Node::Delete(_) => push(out, r#"{"type":"delete","children":["#),
        Node::Emphasis(_) => push(out, r#"{"type":"emphasis","children":["#),
        Node::FootnoteReference(node) => push_footnote_reference(out, node),
        Node::Html(node) => push_started(out, r#"{"type":"html","value":""#, &node.value),
        Node::Image(node) => push_image(out, node),
        Node::ImageReference(node) => push_image_reference(out, node),
        Node::Link(node) => push_link(out, node),
        Node::LinkReference(node) => push_link_reference(out, node),
        Node::Strong(_) => push(out, r#"{"type":"strong","children":["#),
        Node::Text(node) => push_started(out, r#"{"type":"text","value":""#, &node.value),
        Node::Code(node) => push_code(out, node),
        Node::Math(node) => push_math(out, node),
        Node::Heading(node) => push_heading(out, node),
        Node::Table(node) => push_table(out, node),
        Node::ThematicBreak(_) => push(out, r#"{"type":"thematicBreak""#),
        Node::TableRow(_) => push(out, r#"{"type":"tableRow","children":["#),
        Node::TableCell(_) => push(out, r#"{"type":"tableCell","children":["#),
        Node::ListItem(node) => push_list_item(out, node),
        Node::Definition(node) => push_definition(out, node),
        Node::Paragraph(_) => push(out, r#"{"type":"paragraph","children":["#),
    }
}

/// Appends the text after the children of a node.
pub fn push_closing(
    out: &mut String,
    points: &Points,
    last: &mut LastPosition,
    node: &Node,
) -> Result<(), AllocError>
    ensures { OnOk result (string_bytes out.new
        ≡ string_bytes out.old ++ closing (counted_as points.now) (label_of node.now) (position_of node.now)) }
{
    match node.position() {
        Some(position) => {
            push_position_keys(out, node)?;
            let start = points.counted(position.start);
            let end = points.counted(position.end);
            last.push(out, start, end)
        }
        None => push_end_without_position(out, node),
    }
}

/// Appends the text after the children of a node, up to where its position starts.
#[inline(always)]
fn push_position_keys(out: &mut String, node: &Node) -> Result<(), AllocError>
    ensures { OnOk result (string_bytes out.new
        ≡ string_bytes out.old ++ (children_end (label_of node.now) ++ codes ",\"position\":{\"start\":")) }
{
    if has_children(node) {
        push(out, r#"],"position":{"start":"#)
    } else {
        push(out, r#","position":{"start":"#)
    }
}

/// Appends the text after the children of a node without a position.
fn push_end_without_position(out: &mut String, node: &Node) -> Result<(), AllocError>
    ensures { OnOk result (string_bytes out.new ≡ string_bytes out.old ++ (children_end (label_of node.now) ++ codes "}")) }
{
    if has_children(node) {
        push(out, "]}")
    } else {
        push(out, "}")
    }
}

/// Whether a node may have children.
fn has_children(node: &Node) -> bool
    ensures yes { result ≡ true → children_end (label_of node.now) ≡ codes "]" }
    ensures no { result ≡ false → children_end (label_of node.now) ≡ [] }
{
    match node {
        Node::Toml(_) => false,
        Node::Yaml(_) => false,
        Node::Break(_) => false,
        Node::InlineCode(_) => false,
        Node::InlineMath(_) => false,
        Node::FootnoteReference(_) => false,
        Node::Html(_) => false,
        Node::Image(_) => false,
        Node::ImageReference(_) => false,
        Node::Text(_) => false,
        Node::Code(_) => false,
        Node::Math(_) => false,
        Node::ThematicBreak(_) => false,
        Node::Definition(_) => false,
        _ => true,
    }
}

/// Appends a heading, up to its children.
fn push_heading(out: &mut String, node: &Heading) -> Result<(), AllocError>
    ensures { OnOk result (string_bytes out.new ≡ string_bytes out.old ++ opening (heading node.now.depth)) }
{
    push_number(out, r#"{"type":"heading","depth":"#, node.depth as usize)?;
    push_children(out)
}

/// Appends a list, up to its children.
fn push_list(out: &mut String, node: &List) -> Result<(), AllocError>
    ensures { OnOk result (string_bytes out.new ≡ string_bytes out.old ++ opening (list_label node.now)) }
{
    match (node.ordered, node.start) {
        (false, None) => push_unordered_list(out, node.spread),
        _ => push_ordered_list(out, node),
    }
}

/// Appends a list that is not ordered, up to its children. It has one of two texts.
fn push_unordered_list(out: &mut String, spread: bool) -> Result<(), AllocError>
    ensures { OnOk result (string_bytes out.new ≡ string_bytes out.old ++ opening (list false None spread)) }
{
    if spread {
        push(
            out,
            r#"{"type":"list","ordered":false,"start":null,"spread":true,"children":["#,
        )
    } else {
        push(
            out,
            r#"{"type":"list","ordered":false,"start":null,"spread":false,"children":["#,
        )
    }
}

/// Appends any list, up to its children.
fn push_ordered_list(out: &mut String, node: &List) -> Result<(), AllocError>
    ensures { OnOk result (string_bytes out.new ≡ string_bytes out.old ++ opening (list_label node.now)) }
{
    push_flag(out, r#"{"type":"list","ordered":"#, node.ordered)?;
    push_start(out, node.start)?;
    push_flag(out, r#","spread":"#, node.spread)?;
    push_children(out)
}

/// Appends a list item, up to its children.
fn push_list_item(out: &mut String, node: &ListItem) -> Result<(), AllocError>
    ensures { OnOk result (string_bytes out.new ≡ string_bytes out.old ++ opening (list_item_label node.now)) }
{
    match node.checked {
        None => push_plain_item(out, node.spread),
        Some(_) => push_task_item(out, node),
    }
}

/// Appends a list item that is no task, up to its children. It has one of two texts.
fn push_plain_item(out: &mut String, spread: bool) -> Result<(), AllocError>
    ensures { OnOk result (string_bytes out.new ≡ string_bytes out.old ++ opening (list_item spread None)) }
{
    if spread {
        push(
            out,
            r#"{"type":"listItem","spread":true,"checked":null,"children":["#,
        )
    } else {
        push(
            out,
            r#"{"type":"listItem","spread":false,"checked":null,"children":["#,
        )
    }
}

/// Appends any list item, up to its children.
fn push_task_item(out: &mut String, node: &ListItem) -> Result<(), AllocError>
    ensures { OnOk result (string_bytes out.new ≡ string_bytes out.old ++ opening (list_item_label node.now)) }
{
    push_flag(out, r#"{"type":"listItem","spread":"#, node.spread)?;
    push_checked(out, node.checked)?;
    push_children(out)
}

/// Appends a table, up to its children.
fn push_table(out: &mut String, node: &Table) -> Result<(), AllocError>
    ensures { OnOk result (string_bytes out.new ≡ string_bytes out.old ++ opening (table node.now.align.items)) }
{
    push(out, r#"{"type":"table""#)?;
    push_align(out, &node.align)?;
    push_children(out)
}

/// Appends a code block.
fn push_code(out: &mut String, node: &Code) -> Result<(), AllocError>
    ensures { OnOk result (string_bytes out.new ≡ string_bytes out.old ++ opening (code_label node.now)) }
{
    push_option(out, r#"{"type":"code","lang":"#, &node.lang)?;
    push_option(out, r#","meta":"#, &node.meta)?;
    push_started(out, r#","value":""#, &node.value)
}

/// Appends a block of math.
fn push_math(out: &mut String, node: &Math) -> Result<(), AllocError>
    ensures { OnOk result (string_bytes out.new ≡ string_bytes out.old ++ opening (math_label node.now)) }
{
    push_option(out, r#"{"type":"math","meta":"#, &node.meta)?;
    push_started(out, r#","value":""#, &node.value)
}

/// Appends a link, up to its children.
fn push_link(out: &mut String, node: &Link) -> Result<(), AllocError>
    ensures { OnOk result (string_bytes out.new ≡ string_bytes out.old ++ opening (link_label node.now)) }
{
    push(out, r#"{"type":"link""#)?;
    push_resource(out, &node.url, &node.title)?;
    push_children(out)
}

/// Appends an image.
fn push_image(out: &mut String, node: &Image) -> Result<(), AllocError>
    ensures { OnOk result (string_bytes out.new ≡ string_bytes out.old ++ opening (image_label node.now)) }
{
    push(out, r#"{"type":"image""#)?;
    push_resource(out, &node.url, &node.title)?;
    push_started(out, r#","alt":""#, &node.alt)
}

/// Appends a link by reference, up to its children.
fn push_link_reference(out: &mut String, node: &LinkReference) -> Result<(), AllocError>
    ensures { OnOk result (string_bytes out.new ≡ string_bytes out.old ++ opening (link_reference_label node.now)) }
{
    push(out, r#"{"type":"linkReference""#)?;
    push_reference(out, node.reference_kind, &node.identifier, &node.label)?;
    push_children(out)
}

/// Appends an image by reference.
fn push_image_reference(out: &mut String, node: &ImageReference) -> Result<(), AllocError>
    ensures { OnOk result (string_bytes out.new ≡ string_bytes out.old ++ opening (image_reference_label node.now)) }
{
    push(out, r#"{"type":"imageReference""#)?;
    push_reference(out, node.reference_kind, &node.identifier, &node.label)?;
    push_started(out, r#","alt":""#, &node.alt)
}

/// Appends a reference to a footnote.
fn push_footnote_reference(out: &mut String, node: &FootnoteReference) -> Result<(), AllocError>
    ensures { OnOk result (string_bytes out.new ≡ string_bytes out.old ++ opening (footnote_reference_label node.now)) }
{
    push(out, r#"{"type":"footnoteReference""#)?;
    push_association(out, &node.identifier, &node.label)
}

/// Appends the definition of a footnote, up to its children.
fn push_footnote_definition(out: &mut String, node: &FootnoteDefinition) -> Result<(), AllocError>
    ensures { OnOk result (string_bytes out.new ≡ string_bytes out.old ++ opening (footnote_definition_label node.now)) }
{
    push(out, r#"{"type":"footnoteDefinition""#)?;
    push_association(out, &node.identifier, &node.label)?;
    push_children(out)
}

/// Appends a definition.
fn push_definition(out: &mut String, node: &Definition) -> Result<(), AllocError>
    ensures { OnOk result (string_bytes out.new ≡ string_bytes out.old ++ opening (definition_label node.now)) }
{
    push(out, r#"{"type":"definition""#)?;
    push_association(out, &node.identifier, &node.label)?;
    push_resource(out, &node.url, &node.title)
}
