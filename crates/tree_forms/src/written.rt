//! A tree in one of its forms, written to a writer.

ghost use Rattle.std.specs.Prelude.{◌≡◌, ◌≢◌, ◌++◌, ◌↔◌, ℕ, List, [], IfOk, IsFalse, IsOkAnd, IsTrue, OnOk, codes, false, flat_map, map, string_bytes, true};
ghost use Rattle.std.specs.Io.KnownBytes.{Appends};
ghost use Rattle.markdown_html.specs.Html.{default_html, unsafe_html};
ghost use Rattle.markdown_nodes.specs.View.{view};
ghost use Rattle.mdast_check.specs.Warnings.{warned, warnings_of};
ghost use Rattle.tree_forms.specs.Forms.{IsDebugLine, IsForm, warning_line, warning_lines};
ghost use Rattle.tree_forms.specs.declared.form.TreeForm.TheVariants.{Warnings};

use crate::error::WriteError;
use crate::form::{Asked, TreeForm};
use crate::lines::TreeLines;
use markdown_html::{HtmlOptions, UnsafeHtmlOptions, to_html, to_unsafe_html};
use markdown_json::JsonPieces;
use markdown_nodes::mdast::Node;
use mdast_check::warnings::{Warning, warnings};
use mdast_util::outline::outline;
use mdast_util::plain_text::plain_text;
use std::alloc::{AllocError, Global};
use std::io::Write;

/// Writes what is asked for of the tree of a document, and returns whether nothing is wrong with it:
/// only warnings say that something is.
///
/// `document` has the bytes that the tree was made from. JSON and drawn lines are written in pieces,
/// and any other form at once. The error is `Memory` if memory ran out, and `Output` if the output
/// cannot be written; some of the text is then written, or none.
///
/// For the JSON of a thematic break without a position it writes `{"type":"thematicBreak"}` and a
/// line feed, and returns `true`.
pub fn write_tree<O: Write>(
    alloc: Global,
    document: &str,
    tree: &Node,
    asked: &Asked<'_>,
    output: &mut O,
) -> Result<bool, WriteError>
    // What is written is the form of the tree.
    ensures text { OnOk result ((text : List ℕ) × IsForm text asked.now.form asked.now.name.now document.now (view tree.now) × Appends (O.contents output.old) (O.contents output.new) text) }
    // Something is wrong only if there are warnings.
    ensures clean { IfOk result (λ is_clean. IsFalse is_clean ↔ ((asked.now.form ≡ Warnings) × (warnings_of (view tree.now) ≢ []))) }
{
    match asked.form {
        TreeForm::Json => write_json(alloc, JsonPieces::new(alloc, tree), output)?,
        TreeForm::JsonUtf16 => {
            let pieces = JsonPieces::utf16(alloc, document.as_bytes(), tree)?;
            write_json(alloc, pieces, output)?;
        }
        TreeForm::Drawn => write_lines(alloc, TreeLines::new(alloc, tree, asked.width), output)?,
        TreeForm::Warnings => return write_warnings(alloc, asked.name, tree, output),
        TreeForm::Debug => write_text(debug_line(alloc, tree), output)?,
        TreeForm::Outline => write_text(outline(alloc, tree), output)?,
        TreeForm::PlainText => write_text(plain_text(alloc, tree), output)?,
        TreeForm::Html => write_text(page(alloc, tree), output)?,
        TreeForm::UnsafeHtml => write_text(unsafe_page(alloc, tree), output)?,
        TreeForm::FilteredHtml => write_text(filtered_page(alloc, tree), output)?,
    }
    Ok(true)
}

/// Writes JSON piece by piece, and a line feed.
fn write_json<O: Write>(
    alloc: Global,
    pieces: JsonPieces<'_>,
    output: &mut O,
) -> Result<(), WriteError>
    ensures { OnOk result (Appends (O.contents output.old) (O.contents output.new) (pieces.entry ++ codes "\n")) }
{
    let mut pieces = pieces;
    let mut piece = String::new(alloc);
    'pieces: while pieces.next_into(&mut piece)? {
        output.write_all(piece.as_bytes())?;
    }
    output.write_all(b"\n")?;
    Ok(())
}

/// Writes the drawn lines of a tree piece by piece.
fn write_lines<O: Write>(
    alloc: Global,
    lines: TreeLines<'_>,
    output: &mut O,
) -> Result<(), WriteError>
    ensures { OnOk result ((text : List ℕ) × Appends (O.contents output.old) (O.contents output.new) text) }
{
    let mut lines = lines;
    let mut piece = String::new(alloc);
    'pieces: while lines.next_into(&mut piece)? {
        output.write_all(piece.as_bytes())?;
    }
    Ok(())
}

/// Writes a text, unless memory ran out before there was one.
fn write_text<O: Write>(text: Result<String, AllocError>, output: &mut O) -> Result<(), WriteError>
    ensures { OnOk result (IsOkAnd text (λ text. Appends (O.contents output.old) (O.contents output.new) (string_bytes text))) }
{
    output.write_all(text?.as_bytes())?;
    Ok(())
}

/// Writes the warnings about a tree, and returns whether there are none.
fn write_warnings<O: Write>(
    alloc: Global,
    name: &str,
    tree: &Node,
    output: &mut O,
) -> Result<bool, WriteError>
    ensures text { OnOk result (Appends (O.contents output.old) (O.contents output.new) (warning_lines name.now (view tree.now))) }
    ensures clean { IfOk result (λ is_clean. IsTrue is_clean ↔ (warnings_of (view tree.now) ≡ [])) }
{
    let found = warnings(alloc, tree)?;
    write_text(lines_of(alloc, name, &found), output)?;
    Ok(found.is_empty())
}

/// Returns the lines of warnings.
fn lines_of(alloc: Global, name: &str, found: &[Warning]) -> Result<String, AllocError>
    ensures { IfOk result (λ text. string_bytes text ≡ flat_map (warning_line name.now) (map warned found.now)) }
{
    let mut text = String::new(alloc);
    for warning in found {
        text.push_str(format!(in alloc; "{name}:{warning}\n")?.as_str())?;
    }
    Ok(text)
}

/// Returns the line of a tree as Debug writes it.
fn debug_line(alloc: Global, tree: &Node) -> Result<String, AllocError>
    ensures { IfOk result (λ line. IsDebugLine (string_bytes line) (view tree.now)) }
{
    let mut line = tree.to_debug_string(alloc)?;
    line.push_str("\n")?;
    Ok(line)
}

/// Returns the HTML of a tree that is safe in a page.
fn page(alloc: Global, tree: &Node) -> Result<String, AllocError>
    ensures { IfOk result (λ text. string_bytes text ≡ default_html (view tree.now)) }
{
    to_html(alloc, tree, &HtmlOptions::default())
}

/// Returns the HTML of a tree with that of its document, and addresses of any scheme.
fn unsafe_page(alloc: Global, tree: &Node) -> Result<String, AllocError>
    ensures { IfOk result (λ text. string_bytes text ≡ unsafe_html false (codes "user-content-") (view tree.now)) }
{
    to_unsafe_html(alloc, tree, &UnsafeHtmlOptions::default())
}

/// Returns the same with the tags that GFM disallows as text.
fn filtered_page(alloc: Global, tree: &Node) -> Result<String, AllocError>
    ensures { IfOk result (λ text. string_bytes text ≡ unsafe_html true (codes "user-content-") (view tree.now)) }
{
    to_unsafe_html(alloc, tree, &filtering())
}

/// Returns the options of HTML with the tags that GFM disallows as text.
fn filtering<'a>() -> UnsafeHtmlOptions<'a>
    ensures filter { result.tag_filter ≡ true }
    ensures prefix { result.id_prefix.now ≡ codes "user-content-" }
{
    UnsafeHtmlOptions {
        tag_filter: true,
        ..UnsafeHtmlOptions::default()
    }
}
