//! The comparison of nodes: two are equal if they are of one kind with equal fields, positions
//! included.

ghost use Rattle.std.specs.Prelude.{◌≡◌, ◌↔◌, IsTrue};
ghost use Rattle.std.specs.Cmp.{on_equiv, partial_equiv_from_equiv};
ghost use Rattle.markdown_nodes.specs.Access.{label_of, position_of};
ghost use Rattle.markdown_nodes.specs.Equality.{same_tree};
ghost use Rattle.markdown_nodes.specs.Labels.{
  code_label,
  definition_label,
  footnote_definition_label,
  footnote_reference_label,
  image_label,
  image_reference_label,
  link_label,
  link_reference_label,
  list_item_label,
  list_label,
  math_label,
};
ghost use Rattle.markdown_nodes.specs.View.{view, views};
ghost use Rattle.markdown_nodes.specs.EqualityLaws.{tree_equivalence};

use crate::mdast::{
    AlignKind, Code, Definition, FootnoteDefinition, FootnoteReference, Image, ImageReference,
    Link, LinkReference, List, ListItem, Math, Node,
};
use std::alloc::Global;

/// Two nodes are equal if they are of one kind and all their fields are equal, positions included.
impl PartialEq for Node {
    ghost eq = { λ a b. same_tree (view a) (view b) };

    ghost laws = { partial_equiv_from_equiv (on_equiv view tree_equivalence) };

    fn eq(&self, other: &Node) -> bool
        ensures answer { result ≡ same_tree (view self.now) (view other.now) }
        ensures equal { IsTrue result ↔ (view self.now ≡ view other.now) }
    {
        same_trees(self, other)
    }
}

impl Eq for Node {
    ghost laws = { on_equiv view tree_equivalence };
}

/// Whether two columns are aligned in the same way.
fn same_align_kind(a: AlignKind, b: AlignKind) -> bool
    ensures { IsTrue result ↔ (a ≡ b) }
{
    a == b
}

/// Whether the columns of two tables are aligned in the same way.
fn same_align(xs: &[AlignKind], ys: &[AlignKind]) -> bool
    ensures { IsTrue result ↔ (xs.now ≡ ys.now) }
{
    if xs.len() != ys.len() {
        return false;
    }
    for i in 0..xs.len() {
        if !same_align_kind(xs[i], ys[i]) {
            return false;
        }
    }
    true
}

/// Whether two definitions of footnotes have the same fields, except children and position.
fn same_footnote_definition(x: &FootnoteDefinition, y: &FootnoteDefinition) -> bool
    ensures { IsTrue result ↔ (footnote_definition_label x.now ≡ footnote_definition_label y.now) }
{
    x.identifier == y.identifier && x.label == y.label
}

/// Whether two lists have the same fields, except children and position.
fn same_list(x: &List, y: &List) -> bool
    ensures { IsTrue result ↔ (list_label x.now ≡ list_label y.now) }
{
    x.ordered == y.ordered && x.start == y.start && x.spread == y.spread
}

/// Whether two references to footnotes have the same fields, except position.
fn same_footnote_reference(x: &FootnoteReference, y: &FootnoteReference) -> bool
    ensures { IsTrue result ↔ (footnote_reference_label x.now ≡ footnote_reference_label y.now) }
{
    x.identifier == y.identifier && x.label == y.label
}

/// Whether two images have the same fields, except position.
fn same_image(x: &Image, y: &Image) -> bool
    ensures { IsTrue result ↔ (image_label x.now ≡ image_label y.now) }
{
    x.alt == y.alt && x.url == y.url && x.title == y.title
}

/// Whether two references to images have the same fields, except position.
fn same_image_reference(x: &ImageReference, y: &ImageReference) -> bool
    ensures { IsTrue result ↔ (image_reference_label x.now ≡ image_reference_label y.now) }
{
    x.alt == y.alt
        && x.reference_kind == y.reference_kind
        && x.identifier == y.identifier
        && x.label == y.label
}

/// Whether two links have the same fields, except children and position.
fn same_link(x: &Link, y: &Link) -> bool
    ensures { IsTrue result ↔ (link_label x.now ≡ link_label y.now) }
{
    x.url == y.url && x.title == y.title
}

/// Whether two references to links have the same fields, except children and position.
fn same_link_reference(x: &LinkReference, y: &LinkReference) -> bool
    ensures { IsTrue result ↔ (link_reference_label x.now ≡ link_reference_label y.now) }
{
    x.reference_kind == y.reference_kind && x.identifier == y.identifier && x.label == y.label
}

/// Whether two blocks of code have the same fields, except position.
fn same_code(x: &Code, y: &Code) -> bool
    ensures { IsTrue result ↔ (code_label x.now ≡ code_label y.now) }
{
    x.value == y.value && x.lang == y.lang && x.meta == y.meta
}

/// Whether two blocks of math have the same fields, except position.
fn same_math(x: &Math, y: &Math) -> bool
    ensures { IsTrue result ↔ (math_label x.now ≡ math_label y.now) }
{
    x.value == y.value && x.meta == y.meta
}

/// Whether two items have the same fields, except children and position.
fn same_list_item(x: &ListItem, y: &ListItem) -> bool
    ensures { IsTrue result ↔ (list_item_label x.now ≡ list_item_label y.now) }
{
    x.spread == y.spread && x.checked == y.checked
}

/// Whether two definitions have the same fields, except position.
fn same_definition(x: &Definition, y: &Definition) -> bool
    ensures { IsTrue result ↔ (definition_label x.now ≡ definition_label y.now) }
{
    x.url == y.url && x.title == y.title && x.identifier == y.identifier && x.label == y.label
}

/// Whether two nodes are of one kind and have the same fields, except children and position.
fn same_label(a: &Node, b: &Node) -> bool
    ensures { IsTrue result ↔ (label_of a.now ≡ label_of b.now) }
{
    match (a, b) {
        (Node::Root(_), Node::Root(_)) => true,
        (Node::Blockquote(_), Node::Blockquote(_)) => true,
        (Node::FootnoteDefinition(x), Node::FootnoteDefinition(y)) => same_footnote_definition(
            x, y,
        ),
        (Node::List(x), Node::List(y)) => same_list(x, y),
        (Node::Toml(x), Node::Toml(y)) => x.value == y.value,
        (Node::Yaml(x), Node::Yaml(y)) => x.value == y.value,
        (Node::Break(_), Node::Break(_)) => true,
        (Node::InlineCode(x), Node::InlineCode(y)) => x.value == y.value,
        (Node::InlineMath(x), Node::InlineMath(y)) => x.value == y.value,
        (Node::Delete(_), Node::Delete(_)) => true,
        (Node::Emphasis(_), Node::Emphasis(_)) => true,
        (Node::FootnoteReference(x), Node::FootnoteReference(y)) => same_footnote_reference(x, y),
        (Node::Html(x), Node::Html(y)) => x.value == y.value,
        (Node::Image(x), Node::Image(y)) => same_image(x, y),
        (Node::ImageReference(x), Node::ImageReference(y)) => same_image_reference(x, y),
        (Node::Link(x), Node::Link(y)) => same_link(x, y),
        (Node::LinkReference(x), Node::LinkReference(y)) => same_link_reference(x, y),
        (Node::Strong(_), Node::Strong(_)) => true,
        (Node::Text(x), Node::Text(y)) => x.value == y.value,
        (Node::Code(x), Node::Code(y)) => same_code(x, y),
        (Node::Math(x), Node::Math(y)) => same_math(x, y),
        (Node::Heading(x), Node::Heading(y)) => x.depth == y.depth,
        (Node::Table(x), Node::Table(y)) => same_align(&x.align, &y.align),
        (Node::ThematicBreak(_), Node::ThematicBreak(_)) => true,
        (Node::TableRow(_), Node::TableRow(_)) => true,
        (Node::TableCell(_), Node::TableCell(_)) => true,
        (Node::ListItem(x), Node::ListItem(y)) => same_list_item(x, y),
        (Node::Definition(x), Node::Definition(y)) => same_definition(x, y),
        (Node::Paragraph(_), Node::Paragraph(_)) => true,
        _ => false,
    }
}

/// Whether two nodes have the same position, or both none.
fn same_position(a: &Node, b: &Node) -> bool
    ensures { IsTrue result ↔ (position_of a.now ≡ position_of b.now) }
{
    match a.position() {
        Some(x) => match b.position() {
            Some(y) => *x == *y,
            None => false,
        },
        None => b.position().is_none(),
    }
}

/// Whether two nodes are the same, except for their children.
fn same_but_children(a: &Node, b: &Node) -> bool
    ensures { IsTrue result ↔ ((label_of a.now ≡ label_of b.now) × (position_of a.now ≡ position_of b.now)) }
{
    same_label(a, b) && same_position(a, b)
}

/// Whether two lists of nodes are the same.
#[cycle(same_node)]
fn same_nodes(xs: &[Node], ys: &[Node]) -> bool
    ensures { IsTrue result ↔ (views xs.now ≡ views ys.now) }
{
    if xs.len() != ys.len() {
        return false;
    }
    for i in 0..xs.len() {
        if !same_node(&xs[i], &ys[i]) {
            return false;
        }
    }
    true
}

/// Whether two nodes are the same. Each level of the tree needs two small stack frames.
#[cycle(same_node)]
fn same_node(a: &Node, b: &Node) -> bool
    ensures { IsTrue result ↔ (view a.now ≡ view b.now) }
{
    if !same_but_children(a, b) {
        return false;
    }
    same_nodes(a.child_nodes(), b.child_nodes())
}

/// Two levels that are not yet compared.
#[derive(Drop)]
struct Pair<'a> {
    xs: &'a [Node],
    ys: &'a [Node],
}

/// Whether two nodes are the same.
fn same_trees(a: &Node, b: &Node) -> bool
    ensures { IsTrue result ↔ (view a.now ≡ view b.now) }
{
    if !same_but_children(a, b) {
        return false;
    }
    match a.children() {
        Some(children) => same_levels(children.as_slice(), b.child_nodes(), *children.allocator()),
        None => b.child_nodes().is_empty(),
    }
}

/// Whether two lists of nodes are the same. Uses a stack of levels, and recursion if there is no
/// memory for it.
fn same_levels(xs: &[Node], ys: &[Node], alloc: Global) -> bool
    ensures { IsTrue result ↔ (views xs.now ≡ views ys.now) }
{
    let mut pairs: Vec<Pair> = Vec::new(alloc);
    let mut left = xs;
    let mut right = ys;
    'walk: loop {
        if let Some((x, rest_x)) = left.split_first() {
            let Some((y, rest_y)) = right.split_first() else {
                return false;
            };
            if !same_but_children(x, y) {
                return false;
            }
            match pairs.push(Pair {
                xs: rest_x,
                ys: rest_y,
            }) {
                Ok(()) => {
                    left = x.child_nodes();
                    right = y.child_nodes();
                }
                Err(_) => {
                    if !same_nodes(x.child_nodes(), y.child_nodes()) {
                        return false;
                    }
                    left = rest_x;
                    right = rest_y;
                }
            }
        } else {
            if !right.is_empty() {
                return false;
            }
            let Some(pair) = pairs.pop() else {
                return true;
            };
            left = pair.xs;
            right = pair.ys;
        }
    }
}
