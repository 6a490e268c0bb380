//! Writes a tree as JSON piece by piece, without recursion.

ghost use Rattle.std.specs.Prelude.{◌≡◌, ◌++◌, ◌<◌, ◌≤◌, [], IfErr, IfOk, IsFalse, IsTrue, OnOk, length, string_bytes};
ghost use Rattle.markdown_json.specs.Counting.{counted_as};
ghost use Rattle.markdown_json.specs.Json.{json, json_counted, json_utf16, opening_after};
ghost use Rattle.markdown_nodes.specs.Access.{label_of};
ghost use Rattle.markdown_nodes.specs.View.{view};

use crate::kinds::{push_closing, push_opening};
use crate::points::Points;
use crate::positions::LastPosition;
use crate::strings::push;
use crate::utf16::Utf16Points;
use markdown_nodes::mdast::Node;
use std::alloc::{AllocError, Global};
use std::marker::Model;
use std::slice;

/// The least size of a piece in bytes, except for the last one.
const PIECE_SIZE: usize = 65536;

/// A node whose start is written, and the nodes after it in its parent.
#[derive(Drop)]
struct Frame<'a> {
    node: &'a Node,
    rest: &'a [Node],
}

/// What of the JSON of a tree is still to come.
///
/// It is given in pieces, so that no one has to hold the whole text. Contracts see the bytes of that
/// text.
#[derive(Drop)]
pub struct JsonPieces<'a> {
    points: Points<'a>,
    /// The last position that is written.
    last: LastPosition,
    /// The nodes to come on the level of the walk.
    level: &'a [Node],
    /// Whether a node of the level is written.
    later: bool,
    /// The nodes around the level, from the root on.
    frames: Vec<Frame<'a>>,
}

impl<'a> Model for JsonPieces<'a> {
    ghost use Rattle.std.specs.Prelude.{List, ℕ};
    ghost use Rattle.markdown_json.specs.Counting.{counted_as};
    ghost use Rattle.markdown_json.specs.Left.{left};

    ghost Value = { List ℕ };

    ghost view = { λ it. left (counted_as it.points) it.later it.level.now it.frames.items };
}

impl<'a> JsonPieces<'a> {
    /// Returns the JSON that [`to_json`](crate::to_json) returns, with nothing written yet. It
    /// allocates no memory.
    ///
    /// The only piece of a thematic break without a position is `{"type":"thematicBreak"}`.
    pub fn new(alloc: Global, tree: &'a Node) -> JsonPieces<'a>
        ensures { result ≡ json (view tree.now) }
    {
        JsonPieces::counted(alloc, Points::Bytes, tree)
    }

    /// Returns the JSON that [`to_json_utf16`](crate::to_json_utf16) returns, with nothing written
    /// yet.
    ///
    /// The only error is that memory ran out: it needs three bytes for each four of the document.
    pub fn utf16(
        alloc: Global,
        document: &'a [u8],
        tree: &'a Node,
    ) -> Result<JsonPieces<'a>, AllocError>
        ensures { IfOk result (λ pieces. pieces ≡ json_utf16 document.now (view tree.now)) }
    {
        let points = Utf16Points::new(alloc, document)?;
        Ok(JsonPieces::counted(alloc, Points::Utf16(points), tree))
    }

    /// Returns the JSON of a tree with its points counted in this way.
    fn counted(alloc: Global, points: Points<'a>, tree: &'a Node) -> JsonPieces<'a>
        ensures { result ≡ json_counted (counted_as points.entry) (view tree.now) }
    {
        JsonPieces {
            points,
            last: LastPosition::none(),
            level: slice::from_ref(tree),
            later: false,
            frames: Vec::new(alloc),
        }
    }

    /// Puts the next piece into `piece`, in place of what it has, and returns whether there was one.
    ///
    /// A piece has at least 65,536 bytes, except for the last one. The memory of `piece` is used
    /// again. The only error is that memory ran out: then `piece` is cut off, and nothing more comes.
    pub fn next_into(&mut self, piece: &mut String) -> Result<bool, AllocError>
        ensures text { OnOk result (self.old ≡ string_bytes piece.new ++ self.new) }
        ensures size { OnOk result (length (string_bytes piece.new) < 65536 → self.new ≡ []) }
        ensures end { IfOk result (λ more. IsFalse more → self.old ≡ []) }
        ensures more { IfOk result (λ more. IsTrue more → length self.new < length self.old) }
        ensures cut_off { IfErr result (λ _. self.new ≡ []) }
    {
        piece.clear();
        match self.fill(piece) {
            Ok(()) => Ok(!piece.is_empty()),
            Err(error) => {
                self.end();
                Err(error)
            }
        }
    }

    /// Returns the whole text that is still to come. The only error is that memory ran out.
    pub(crate) fn into_text(self, alloc: Global) -> Result<String, AllocError>
        ensures { IfOk result (λ text. string_bytes text ≡ self.entry) }
    {
        let mut pieces = self;
        let mut text = String::new(alloc);
        'steps: loop {
            if !pieces.step(&mut text)? {
                return Ok(text);
            }
        }
    }

    /// Appends text until there is a whole piece, or nothing more is to come.
    fn fill(&mut self, piece: &mut String) -> Result<(), AllocError>
        ensures text { OnOk result (string_bytes piece.new ++ self.new ≡ string_bytes piece.old ++ self.old) }
        ensures size { OnOk result (length (string_bytes piece.new) < 65536 → self.new ≡ []) }
    {
        'steps: while piece.len() < PIECE_SIZE {
            if !self.step(piece)? {
                return Ok(());
            }
        }
        Ok(())
    }

    /// Appends the start of the next node, and its end if no node is in it, or the end of the last
    /// node whose nodes are all written. It returns whether there was one.
    #[inline(always)]
    fn step(&mut self, out: &mut String) -> Result<bool, AllocError>
        ensures text { OnOk result (string_bytes out.new ++ self.new ≡ string_bytes out.old ++ self.old) }
        ensures end { IfOk result (λ more. IsFalse more → self.new ≡ []) }
        ensures more { IfOk result (λ more. IsTrue more → length self.new < length self.old) }
    {
        let frame = match self.level.split_first() {
            Some((node, rest)) => {
                begin(out, node, self.later)?;
                let children = node.child_nodes();
                if !children.is_empty() {
                    self.frames.push(Frame { node, rest })?;
                    self.level = children;
                    self.later = false;
                    return Ok(true);
                }
                Frame { node, rest }
            }
            None => {
                let Some(frame) = self.frames.pop() else {
                    return Ok(false);
                };
                frame
            }
        };
        push_closing(out, &self.points, &mut self.last, frame.node)?;
        self.level = frame.rest;
        self.later = true;
        Ok(true)
    }

    /// Leaves nothing to come.
    fn end(&mut self)
        ensures { self.new ≡ [] }
    {
        self.level = &[];
        self.frames.clear();
    }
}

/// Appends the text before the children of a node, after a comma if it is not the first node in its
/// parent.
fn begin(out: &mut String, node: &Node, later: bool) -> Result<(), AllocError>
    ensures { OnOk result (string_bytes out.new ≡ string_bytes out.old ++ opening_after later (label_of node.now)) }
{
    if later {
        push(out, ",")?;
    }
    push_opening(out, node)
}
