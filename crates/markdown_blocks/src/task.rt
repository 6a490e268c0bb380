//! What a check mark removes from the text after it.

ghost use Rattle.std.specs.Prelude.{◌≡◌, ◌<◌, IfNone, MatchOption, drop, option_map, string_bytes};
ghost use Rattle.std.specs.Vec.{vec_len};
ghost use Rattle.markdown_nodes.specs.Tree.{Trees};
ghost use Rattle.markdown_nodes.specs.View.{views};
ghost use Rattle.markdown_blocks.specs.TaskWalks.{first_cut, paragraph_before, text_cut};
ghost use Rattle.markdown_grammar.specs.Tasks.{after_blank, from_point, next_column, on_next_line, task};

use markdown_nodes::mdast::{Node, Paragraph, Text};
use markdown_nodes::unist::{Point, Position};
use markdown_parts::texts::remove_byte;

/// Removes the blank after a check mark from the nodes of its item. If the first node is a
/// paragraph that begins with a text, that text loses one tab, space or line ending (GFM, task list
/// items). The paragraph then starts where the text does, and an empty text is removed.
///
/// The paragraph of `[x] a` begins with the text ` a`, which becomes `a`.
pub fn trim(nodes: &mut Vec<Node>)
    ensures { views nodes.new.items ≡ task (views nodes.old.items) }
{
    if let Some(first) = nodes.first_mut() {
        if let Node::Paragraph(paragraph) = first {
            trim_paragraph(paragraph);
        }
    }
}

/// Removes the blank after a check mark from a paragraph.
fn trim_paragraph(paragraph: &mut Paragraph)
    ensures { (rest : Trees) → paragraph_before paragraph.new rest ≡ task (paragraph_before paragraph.old rest) }
{
    if let Some(start) = trim_first(&mut paragraph.children) {
        paragraph.position = starting_at(paragraph.position, start);
    }
}

/// Removes the blank from the first of these nodes, if it is a text, and returns where they start
/// then.
fn trim_first(nodes: &mut Vec<Node>) -> Option<Point>
    ensures cut { option_map (λ start. (views nodes.new.items, start)) result ≡ first_cut (views nodes.old.items) }
    ensures kept { IfNone result (views nodes.new.items ≡ views nodes.old.items) }
{
    let first = nodes.first_mut()?;
    let Node::Text(text) = first else {
        return None;
    };
    let start = trim_text(text)?;
    if text.value.is_empty() {
        remove_node(nodes);
    }
    Some(start)
}

/// Removes the first node.
fn remove_node(nodes: &mut Vec<Node>)
    requires { 0 < vec_len nodes.old }
    ensures { nodes.new.items ≡ drop 1 nodes.old.items }
{
    nodes.remove(0);
}

/// Removes the blank from a text with a position, and returns where it starts then.
fn trim_text(text: &mut Text) -> Option<Point>
    ensures cut { option_map (λ start. (string_bytes text.new.value, start)) result
        ≡ text_cut (string_bytes text.old.value) text.old.position }
    ensures place { MatchOption result (text.new ≡ text.old) (λ start. text.new.position ≡ from_point start text.old.position) }
{
    let position = text.position?;
    if text.value.is_empty() {
        return None;
    }
    let start = trim_front(&mut text.value, position.start);
    text.position = starting_at(text.position, start);
    Some(start)
}

/// Removes one tab, space or line ending from the beginning of a text that starts at this point, a
/// CRLF as one, and returns where the rest starts.
fn trim_front(value: &mut String, start: Point) -> Point
    ensures { (string_bytes value.new, result) ≡ after_blank (string_bytes value.old) start }
{
    match value.as_bytes() {
        [b'\t' | b' ', ..] => {
            remove_byte(value);
            next_column(start)
        }
        [b'\r', b'\n', ..] => {
            remove_byte(value);
            remove_byte(value);
            on_next_line(2, start)
        }
        [b'\r' | b'\n', ..] => {
            remove_byte(value);
            on_next_line(1, start)
        }
        _ => start,
    }
}

/// Returns the point after one byte that ends no line.
fn next_column(point: Point) -> Point
    ensures { result ≡ next_column point }
{
    Point {
        line: point.line,
        column: point.column.saturating_add(1),
        offset: point.offset.saturating_add(1),
    }
}

/// Returns the point after a line ending of this many bytes.
fn on_next_line(width: usize, point: Point) -> Point
    ensures { result ≡ on_next_line width point }
{
    Point {
        line: point.line.saturating_add(1),
        column: 1,
        offset: point.offset.saturating_add(width),
    }
}

/// Returns a position with another start.
fn starting_at(position: Option<Position>, start: Point) -> Option<Position>
    ensures { result ≡ from_point start position }
{
    match position {
        Some(Position { start: _, end }) => Some(Position { start, end }),
        None => None,
    }
}
