//! The tree of a document, as JSON or in another form.

ghost use Rattle.std.specs.Prelude.{◌≡◌, [], IfOk, codes, string_bytes, true};
ghost use Rattle.markdown_nodes.specs.View.{view};
ghost use Rattle.mdast_programs.specs.Parsed.{IsFormOf, IsParsed, form_of, written};

use crate::outcomes::constructs::constructs_of;
use crate::outcomes::{Outcome, bare, with_text};
use markdown::{Constructs, ParseOptions, to_mdast};
use markdown_html::{HtmlOptions, UnsafeHtmlOptions, to_html, to_unsafe_html};
use markdown_json::{to_json, to_json_utf16};
use markdown_nodes::mdast::Node;
use mdast_util::outline::outline;
use mdast_util::plain_text::plain_text;
use std::alloc::{AllocError, Global};

/// The status of a document that is not UTF-8.
const NOT_UTF8: u32 = 5;

/// The status of invalid options.
const OPTIONS: u32 = 6;

/// The form in which a tree is written.
#[derive(Clone, Copy, PartialEq, Eq, Debug)]
pub enum Form {
    /// JSON, with its points in bytes: [`to_json`].
    Json,
    /// JSON, with columns and offsets in UTF-16 units: [`to_json_utf16`].
    JsonUtf16,
    /// The headings, one on each line: [`outline`].
    Outline,
    /// The text without its markup: [`plain_text`].
    PlainText,
    /// HTML that is safe in a page: [`to_html`], without the HTML of the document.
    Html,
    /// HTML that includes the HTML of the document, and addresses of any scheme:
    /// [`to_unsafe_html`].
    UnsafeHtml,
    /// Unsafe HTML, with the tags that GFM disallows written as text.
    FilteredHtml,
}

/// Parses a document for a caller in another language, and returns a form of its tree.
///
/// `constructs` has a bit for each construct that is on: the lowest is that of the first field of
/// [`Constructs`], and each next one that of the next field. The other options are those of
/// [`ParseOptions::gfm`]. `form` is 0 for JSON, 1 for JSON with columns and offsets in UTF-16
/// units, 2 for the outline of headings, 3 for the plain text, 4 for HTML that is safe in a page, 5
/// for HTML with that of the document, and 6 for the same with the tags that GFM disallows as text.
/// The statuses are these:
///
/// - 0: the form of the tree is in `text`;
/// - 3: memory ran out;
/// - 5: the document is not UTF-8; the byte at `offset`, which counts bytes from 0, is the first
///   one that begins no character;
/// - 6: `constructs` has a bit that belongs to no construct, or `form` is none of the seven.
///   Nothing else was checked.
///
/// Fields that a status does not set are an empty text or 0. The form of the outcome is ours.
///
/// For `# Hi`, the constructs `1 << 18`, which are only headings with number signs, and the form 2
/// the status is 0, and `text` is `Hi (1:1)` and a line feed.
pub fn parsed(alloc: Global, document: &[u8], constructs: u32, form: u32) -> Outcome
    ensures { IsParsed result document.now constructs form }
{
    let Some(allowed) = constructs_of(constructs) else {
        return bare(OPTIONS);
    };
    let Some(wanted) = form_of(form) else {
        return bare(OPTIONS);
    };
    match str::from_utf8(document) {
        Ok(text) => with_text(text_of(alloc, text, allowed, wanted)),
        Err(error) => not_utf8(error.valid_up_to()),
    }
}

/// Returns the form with this number.
fn form_of(number: u32) -> Option<Form>
    ensures { result ≡ form_of number }
{
    match number {
        0 => Some(Form::Json),
        1 => Some(Form::JsonUtf16),
        2 => Some(Form::Outline),
        3 => Some(Form::PlainText),
        4 => Some(Form::Html),
        5 => Some(Form::UnsafeHtml),
        6 => Some(Form::FilteredHtml),
        _ => None,
    }
}

/// Returns the outcome for the offset of the first byte that begins no character.
fn not_utf8(offset: usize) -> Outcome
    ensures status { result.status ≡ 5 }
    ensures text { result.text.now ≡ [] }
    ensures rule { result.rule.now ≡ [] }
    ensures reason { result.reason.now ≡ [] }
    ensures line { result.line ≡ 0 }
    ensures column { result.column ≡ 0 }
    ensures offset { result.offset ≡ offset }
{
    let mut outcome = bare(NOT_UTF8);
    outcome.offset = offset;
    outcome
}

/// Returns a form of the tree of a document that is read with these constructs.
fn text_of(
    alloc: Global,
    document: &str,
    constructs: Constructs,
    form: Form,
) -> Result<String, AllocError>
    ensures { IfOk result (λ text. IsFormOf (string_bytes text) form document.now constructs) }
{
    let options = ParseOptions {
        constructs,
        ..ParseOptions::gfm()
    };
    let tree = to_mdast(alloc, document, &options)?;
    written(alloc, document.as_bytes(), &tree, form)
}

/// Returns a form of the tree of a document.
fn written(alloc: Global, document: &[u8], tree: &Node, form: Form) -> Result<String, AllocError>
    ensures { IfOk result (λ text. string_bytes text ≡ written form document.now (view tree.now)) }
{
    match form {
        Form::Json => to_json(alloc, tree),
        Form::JsonUtf16 => to_json_utf16(alloc, document, tree),
        Form::Outline => outline(alloc, tree),
        Form::PlainText => plain_text(alloc, tree),
        Form::Html => to_html(alloc, tree, &HtmlOptions::default()),
        Form::UnsafeHtml => to_unsafe_html(alloc, tree, &UnsafeHtmlOptions::default()),
        Form::FilteredHtml => to_unsafe_html(alloc, tree, &filtering()),
    }
}

/// Returns the options of HTML with the tags that GFM disallows as text.
fn filtering<'a>() -> UnsafeHtmlOptions<'a>
    ensures filter { result.tag_filter ≡ true }
    ensures prefix { result.id_prefix.now ≡ codes "user-content-" }
{
    UnsafeHtmlOptions {
        tag_filter: true,
        ..UnsafeHtmlOptions::default()
    }
}
