//! The outline of a document: its headings with their places.

ghost use Rattle.std.specs.Prelude.{◌≡◌, ◌++◌, IfOk, OnOk, string_bytes};
ghost use Rattle.markdown_nodes.specs.View.{view};
ghost use Rattle.mdast_util.specs.Outline.{in_one_line, indent, line_of, outline_of, place_text, start_text};

use markdown_nodes::mdast::Node;
use markdown_nodes::unist::{Point, Position};
use markdown_nodes::walk::Walk;
use mdast_check::outline::depth;
use std::alloc::{AllocError, Global};

/// Returns the headings of a tree as a table of contents. Each is on its own line, in the order of
/// the tree, including those in other nodes, such as a block quote.
///
/// A line has two blanks for each level below the first, then the plain text of the heading (see
/// [`Node::to_string`], but with a blank for each line feed), and then a blank and the place of its
/// start in parentheses: line and column, which count from 1. A heading without a position has no
/// place. A depth of 0, which only a tree made by hand has, counts as 1. The only error is that
/// memory ran out. The form of the lines is ours.
///
/// The tree of `# Use\n\n## Events` produces `Use (1:1)` and then `  Events (3:1)`, each with a
/// line feed.
pub fn outline(alloc: Global, tree: &Node) -> Result<String, AllocError>
    ensures { IfOk result (λ text. string_bytes text ≡ outline_of (view tree.now)) }
{
    let mut text = String::new(alloc);
    let mut walk = Walk::new(alloc, tree);
    'nodes: while let Some(node) = walk.next()? {
        add_line(alloc, node, &mut text)?;
    }
    Ok(text)
}

/// Appends the line of a heading, or nothing for any other node.
fn add_line(alloc: Global, node: &Node, text: &mut String) -> Result<(), AllocError>
    ensures { OnOk result (string_bytes text.new ≡ string_bytes text.old ++ line_of (view node.now)) }
{
    let Some(depth) = depth(node) else {
        return Ok(());
    };
    add_indent(text, depth)?;
    add_in_one_line(text, node.to_string(alloc)?.as_str())?;
    text.push_str(place(alloc, node.position().copied())?.as_str())?;
    text.push_str("\n")
}

/// Appends two blanks for each level below the first.
fn add_indent(text: &mut String, depth: u8) -> Result<(), AllocError>
    ensures { OnOk result (string_bytes text.new ≡ string_bytes text.old ++ indent depth) }
{
    'levels: for _ in 0..depth.saturating_sub(1) {
        text.push_str("  ")?;
    }
    Ok(())
}

/// Appends a value, with a blank for each line feed in it.
fn add_in_one_line(text: &mut String, value: &str) -> Result<(), AllocError>
    ensures { OnOk result (string_bytes text.new ≡ string_bytes text.old ++ in_one_line value.now) }
{
    let mut rest = value;
    'lines: while let Some((line, after)) = rest.split_once('\n') {
        text.push_str(line)?;
        text.push_str(" ")?;
        rest = after;
    }
    text.push_str(rest)
}

/// Returns a blank and the line and column where a position starts, if there is one.
fn place(alloc: Global, position: Option<Position>) -> Result<String, AllocError>
    ensures { IfOk result (λ text. string_bytes text ≡ place_text position) }
{
    match position {
        Some(position) => start_text(alloc, position.start),
        None => Ok(String::new(alloc)),
    }
}

/// Returns a blank and the line and column of a point in parentheses: ` (3:1)`.
fn start_text(alloc: Global, point: Point) -> Result<String, AllocError>
    ensures { IfOk result (λ text. string_bytes text ≡ start_text point) }
{
    let mut text = String::from_str(alloc, " (")?;
    text.push_str(point.line.to_string(alloc)?.as_str())?;
    text.push_str(":")?;
    text.push_str(point.column.to_string(alloc)?.as_str())?;
    text.push_str(")")?;
    Ok(text)
}
