//! A form of a document, read by our tokenizer.

ghost use Rattle.std.specs.Prelude.{◌≡◌, ℕ, List, IfErr, IfOk, IsOkAnd, OnOk, string_bytes};
ghost use Rattle.std.specs.Io.KnownBytes.{Appends};
ghost use Rattle.document_forms.specs.Documents.{IsTreeOf, AreEventsOf, IsPrinted, IsPrintedTree};
ghost use Rattle.document_forms.specs.Errors.{IsNotUtf8, IsOfWriting};

use crate::error::PrintError;
use crate::event_list::write_event_list;
use crate::outcome::Printed;
use markdown::{ParseOptions, to_events, to_mdast, to_outline, to_text};
use markdown_nodes::mdast::Node;
use std::alloc::{AllocError, Global};
use std::io::Write;
use tree_forms::{Asked, TreeForm, write_tree};

/// Writes what is asked for of the tree of a document, as it is read with these options.
///
/// The errors are `NotUtf8` if the document is not UTF-8, `Memory` if memory ran out, and `Output` if
/// the output cannot be written. After the last two some of the text is written, or none.
///
/// For the JSON of the document `Hi` it writes the line of a root with a paragraph with a text.
pub fn write_document<O: Write>(
    alloc: Global,
    document: &[u8],
    options: &ParseOptions,
    asked: &Asked<'_>,
    output: &mut O,
) -> Result<Printed, PrintError>
    // What is written is the form of a tree of the document.
    ensures text { IfOk result (λ printed. (text : List ℕ) × IsPrinted text printed.is_clean asked.now.form asked.now.name.now document.now options.now.constructs × Appends (O.contents output.old) (O.contents output.new) text) }
    // No error says that a document is not UTF-8 if it is.
    ensures error { IfErr result (IsNotUtf8 document.now) }
{
    let document = text_of(document)?;
    match asked.form {
        TreeForm::Outline => {
            write_text(to_outline(alloc, document, options), output)?;
            Ok(Printed::without_tree())
        }
        TreeForm::PlainText => {
            write_text(to_text(alloc, document, options), output)?;
            Ok(Printed::without_tree())
        }
        _ => write_built(alloc, document, options, asked, output),
    }
}

/// Writes the events of a document, one on each line, as it is read with these options.
///
/// The errors are those of [`write_document`].
///
/// For the document `Hi` it writes the four lines of a paragraph with one data span.
pub fn write_events<O: Write>(
    alloc: Global,
    document: &[u8],
    options: &ParseOptions,
    output: &mut O,
) -> Result<(), PrintError>
    // What is written are the events of the document.
    ensures text { OnOk result ((text : List ℕ) × AreEventsOf text document.now options.now.constructs × Appends (O.contents output.old) (O.contents output.new) text) }
    // No error says that a document is not UTF-8 if it is.
    ensures error { IfErr result (IsNotUtf8 document.now) }
{
    let events = to_events(alloc, text_of(document)?, options)?;
    write_event_list(alloc, &events, output)
}

/// Writes what is asked for of the tree of a text.
fn write_built<O: Write>(
    alloc: Global,
    document: &str,
    options: &ParseOptions,
    asked: &Asked<'_>,
    output: &mut O,
) -> Result<Printed, PrintError>
    ensures text { IfOk result (λ printed. (text : List ℕ) × IsPrintedTree text printed.is_clean asked.now.form asked.now.name.now document.now options.now.constructs × Appends (O.contents output.old) (O.contents output.new) text) }
    ensures error { IfErr result IsOfWriting }
{
    let tree = to_mdast(alloc, document, options)?;
    let is_clean = write_tree(alloc, document, &tree, asked, output)?;
    Ok(Printed {
        is_clean,
        tree: Some(tree),
    })
}

/// Returns the text of a document, or the error that it is not UTF-8.
pub(crate) fn text_of(document: &[u8]) -> Result<&str, PrintError>
    ensures text { IfOk result (λ text. text.now ≡ document.now) }
    ensures error { IfErr result (IsNotUtf8 document.now) }
{
    match str::from_utf8(document) {
        Ok(text) => Ok(text),
        Err(error) => Err(PrintError::NotUtf8(error.valid_up_to())),
    }
}

/// Writes a text, unless memory ran out before there was one.
pub(crate) fn write_text<O: Write>(
    text: Result<String, AllocError>,
    output: &mut O,
) -> Result<(), PrintError>
    ensures text { OnOk result (IsOkAnd text (λ text. Appends (O.contents output.old) (O.contents output.new) (string_bytes text))) }
    ensures error { IfErr result IsOfWriting }
{
    output.write_all(text?.as_bytes())?;
    Ok(())
}
