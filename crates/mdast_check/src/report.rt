//! The headings and open references of a tree, as lines of text.

ghost use Rattle.std.specs.Prelude.{◌≡◌, ◌++◌, ◌↔◌, [], IfOk, IsFalse, OnOk, map, string_bytes};
ghost use Rattle.markdown_kinds.specs.Quoted.{members};
ghost use Rattle.markdown_nodes.specs.View.{view};
ghost use Rattle.mdast_check.specs.References.{open_in, told};
ghost use Rattle.mdast_check.specs.Report.{
  IsReport,
  heading_line,
  heading_lines,
  kind_text,
  open_line,
  open_lines,
  place_text,
};
ghost use Rattle.mdast_check.specs.Titles.{said};

use crate::outline::{Title, headings};
use crate::references::{Open, OpenKind, open_references};
use markdown_nodes::mdast::{Node, escapes_of, quote};
use markdown_nodes::unist::Position;
use std::alloc::{AllocError, Global};
use std::collections::BTreeSet;

/// The headings and open references of a tree, as text.
#[derive(Debug, PartialEq, Eq, Drop)]
pub struct Report {
    /// A line for each heading, and then one for each open reference.
    pub text: String,
    /// Whether a reference is open.
    pub is_open: bool,
}

/// Returns the headings and the open references of a tree, one on each line.
///
/// The lines are `heading DEPTH TEXT` and `open KIND IDENTIFIER POSITION`. The kinds are `link`,
/// `image` and `footnote`. The text and the identifier are between quotes, as `{:?}` writes them.
/// The position is written as `2:1-2:5 (4-8)`: lines and columns from 1, and bytes from 0. If a
/// reference has no position, its line ends after the identifier. The only error is that memory ran
/// out. The form of the lines is ours.
///
/// For a heading of depth 1 with the text `Hi` the text is `heading 1 "Hi"` and a line feed.
pub fn report_of(alloc: Global, tree: &Node) -> Result<Report, AllocError>
    ensures text { IfOk result (λ report. IsReport (view tree.now) (string_bytes report.text)) }
    ensures state { IfOk result (λ report. IsFalse report.is_open ↔ (open_in (view tree.now) ≡ [])) }
{
    let escapes = escapes_of(tree, alloc)?;
    let titles = headings(alloc, tree)?;
    let found = open_references(alloc, tree)?;
    let mut text = String::new(alloc);
    add_titles(&titles, &escapes, &mut text, alloc)?;
    add_open(&found, &escapes, &mut text, alloc)?;
    let is_open = !found.is_empty();
    Ok(Report { text, is_open })
}

/// Adds the lines of headings.
fn add_titles(
    titles: &[Title],
    escapes: &BTreeSet<char>,
    text: &mut String,
    alloc: Global,
) -> Result<(), AllocError>
    ensures { OnOk result (string_bytes text.new ≡ string_bytes text.old ++ heading_lines (members escapes.now) (map said titles.now)) }
{
    'titles: for title in titles {
        text.push_str(title_line(title, escapes, alloc)?.as_str())?;
    }
    Ok(())
}

/// Adds the lines of open references.
fn add_open(
    found: &[Open],
    escapes: &BTreeSet<char>,
    text: &mut String,
    alloc: Global,
) -> Result<(), AllocError>
    ensures { OnOk result (string_bytes text.new ≡ string_bytes text.old ++ open_lines (members escapes.now) (map told found.now)) }
{
    'open: for it in found {
        text.push_str(reference_line(it, escapes, alloc)?.as_str())?;
    }
    Ok(())
}

/// Returns the line of a heading.
fn title_line(title: &Title, escapes: &BTreeSet<char>, alloc: Global) -> Result<String, AllocError>
    ensures { IfOk result (λ line. string_bytes line ≡ heading_line (members escapes.now) (said title.now)) }
{
    let depth = title.depth;
    let mut line = format!(in alloc; "heading {depth} ")?;
    line.push_str(quote(&title.text, escapes, alloc)?.as_str())?;
    line.push_str("\n")?;
    Ok(line)
}

/// Returns the line of an open reference.
fn reference_line(it: &Open, escapes: &BTreeSet<char>, alloc: Global) -> Result<String, AllocError>
    ensures { IfOk result (λ line. string_bytes line ≡ open_line (members escapes.now) (told it.now)) }
{
    let kind = kind_word(it.kind);
    let identifier = quote(&it.identifier, escapes, alloc)?;
    let place = place(it.position, alloc)?;
    format!(in alloc; "open {kind} {identifier}{place}\n")
}

/// Returns a space and a position, if there is one.
fn place(position: Option<Position>, alloc: Global) -> Result<String, AllocError>
    ensures { IfOk result (λ text. string_bytes text ≡ place_text position) }
{
    match position {
        Some(position) => format!(in alloc; " {position:?}"),
        None => Ok(String::new(alloc)),
    }
}

/// Returns the word for a kind.
pub(crate) fn kind_word(kind: OpenKind) -> &'static str
    ensures { result.now ≡ kind_text kind }
{
    match kind {
        OpenKind::Link => "link",
        OpenKind::Image => "image",
        OpenKind::Footnote => "footnote",
    }
}
