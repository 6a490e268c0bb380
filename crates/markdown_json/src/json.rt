//! A whole tree as JSON.

ghost use Rattle.std.specs.Prelude.{◌≡◌, IfOk, string_bytes};
ghost use Rattle.markdown_json.specs.Json.{json, json_utf16};
ghost use Rattle.markdown_nodes.specs.View.{view};

use crate::pieces::JsonPieces;
use markdown_nodes::mdast::Node;
use std::alloc::{AllocError, Global};

/// Returns a tree as JSON, on one line and without spaces, like JavaScript's `JSON.stringify`.
///
/// Each node is an object with the fields that mdast defines for its kind. `type` is first, and the
/// children of a parent and `position` are last; `position` is left out if a node has none. A
/// title, a label, a language, a meta, a start, a check mark or an alignment that is missing is
/// `null`. Lines and columns count from 1, and offsets count bytes from 0. In texts a quote, a
/// backslash and control characters are escaped, and all other characters are unchanged.
///
/// The only error is that memory ran out. [`JsonPieces`] needs no memory for the whole text.
///
/// A root that contains a thematic break, both without a position, returns
/// `{"type":"root","children":[{"type":"thematicBreak"}]}`.
pub fn to_json(alloc: Global, tree: &Node) -> Result<String, AllocError>
    ensures { IfOk result (λ text. string_bytes text ≡ json (view tree.now)) }
{
    JsonPieces::new(alloc, tree).into_text(alloc)
}

/// Returns a tree as JSON, like [`to_json`], with its columns and offsets in UTF-16 code units.
///
/// JavaScript counts the characters of its strings this way: a character counts one, and one beyond
/// U+FFFF two. `document` has the bytes that the tree was made from. The columns of the tree must
/// count bytes, as its offsets do. A column counts from 1 and an offset from 0. The columns that a
/// tab adds are kept, and a point after the end of the document has the offset of the end. The only
/// error is that memory ran out: beside the text it needs three bytes for each four of the document.
///
/// In the document `é!`, whose first character is two bytes long, a text that starts at `1:3 (2)`
/// has the start `{"line":1,"column":2,"offset":1}`.
pub fn to_json_utf16(alloc: Global, document: &[u8], tree: &Node) -> Result<String, AllocError>
    ensures { IfOk result (λ text. string_bytes text ≡ json_utf16 document.now (view tree.now)) }
{
    JsonPieces::utf16(alloc, document, tree)?.into_text(alloc)
}
