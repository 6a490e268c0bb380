//! Headings (CommonMark, "ATX headings" and "Setext headings").
//!
//! In markdown-rs: `on_enter_heading`, `on_exit_heading_atx_sequence`,
//! `on_exit_heading_setext_underline_sequence`, `on_exit_heading_setext_text`.

ghost use Rattle.std.specs.Prelude.{◌≡◌, IfSome, None, Some, is_some};
ghost use Rattle.markdown_blocks.specs.Headings.{atx, heading_label, setext};
ghost use Rattle.markdown_parts.specs.PartsSoFar.{GainsText, IsFresh, IsNode, Makes, Reads, misfit_in};
ghost use Rattle.markdown_events.specs.declared.role.ItemKind.TheVariants as item_kinds;
ghost use Rattle.markdown_events.specs.declared.role.Part.TheVariants as parts;
ghost use Rattle.markdown_grammar.specs.Document.{is_depth};
ghost use Rattle.markdown_grammar.specs.Grammar as models;
ghost use Rattle.markdown_grammar.specs.declared.error_kind.ErrorKind.TheVariants.{HeadingDepth};
ghost use Rattle.markdown_nodes.specs.Tree.{Trees};
ghost use Rattle.markdown_nodes.specs.View.{views};

use markdown_grammar::error_kind::{ErrorKind, Stop};
use markdown_nodes::event::Point;
use markdown_nodes::mdast::{Heading, Node};
use markdown_nodes::role::{Content, ItemKind, Part};
use markdown_nodes::unist::Position;
use markdown_parts::misfits::at_most_one;
use markdown_parts::slice::{Document, byte_at, length_between};

/// The parts of an ATX heading so far: the depth from its first sequence of number signs.
///
/// In `## a` it is 2.
#[derive(Clone, Copy)]
pub struct AtxParts {
    pub depth: Option<u8>,
}

impl AtxParts {
    /// Returns an ATX heading at its enter, at the `#` of `# a`.
    pub fn new() -> AtxParts
        ensures { IsFresh (atx result) models.heading_atx }
    {
        AtxParts { depth: None }
    }

    /// Returns the rule that this item would violate here, if any. An ATX heading accepts content
    /// and sequences of number signs. Any other part is `ErrorKind::Misplaced`.
    pub fn misfit(&self, what: ItemKind) -> Option<ErrorKind>
        ensures { result ≡ misfit_in (atx self.now) what }
    {
        match what {
            ItemKind::Content(_) | ItemKind::Part(Part::HeadingAtxSequence) => None,
            ItemKind::Part(_) => Some(ErrorKind::Misplaced),
        }
    }

    /// Stores a sequence of number signs. The length of the first one is the depth, and one after
    /// the text, as in `# a #`, has no effect. A first sequence outside the document is refused as
    /// `ErrorKind::InvalidSlice`, and one that is not 1 to 6 bytes long as
    /// `ErrorKind::HeadingDepth`.
    pub fn take_sequence(
        &mut self,
        document: &Document<'_>,
        start: Point,
        end: Point,
    ) -> Result<(), Stop>
        ensures { Reads document.now parts.HeadingAtxSequence start end (atx self.old) (atx self.new) result }
    {
        if self.depth.is_some() {
            return Ok(());
        }
        let Some(length) = length_between(document, start, end) else {
            return Err(Stop::Refused(ErrorKind::InvalidSlice));
        };
        let Some(depth) = depth_of(length) else {
            return Err(Stop::Refused(ErrorKind::HeadingDepth));
        };
        self.depth = Some(depth);
        Ok(())
    }

    /// Returns the node of an ATX heading. If there was no sequence, the heading is refused as
    /// `ErrorKind::HeadingDepth`.
    pub fn node(self, children: Vec<Node>, position: Position) -> Result<Node, Stop>
        ensures { Makes result (is_some self.depth) HeadingDepth (IsNode (heading_label self.depth) (views children.items) position) }
    {
        heading(children, position, self.depth)
    }
}

/// The parts of a setext heading so far: the depth from its underline, and whether its text has
/// occurred.
///
/// With the underline `===` the depth is 1, and with `---` it is 2.
#[derive(Clone, Copy)]
pub struct SetextParts {
    pub depth: Option<u8>,
    pub has_text: bool,
}

impl SetextParts {
    /// Returns a setext heading at its enter.
    pub fn new() -> SetextParts
        ensures { IsFresh (setext result) models.heading_setext }
    {
        SetextParts {
            depth: None,
            has_text: false,
        }
    }

    /// Returns the rule that this item would violate here, if any. A setext heading accepts one
    /// text, one underline, line endings, and other content before its text. A second text or
    /// underline is `ErrorKind::Repeated`, any other item `ErrorKind::Misplaced`.
    pub fn misfit(&self, what: ItemKind) -> Option<ErrorKind>
        ensures { result ≡ misfit_in (setext self.now) what }
    {
        match what {
            ItemKind::Part(Part::HeadingSetextUnderlineSequence) => {
                at_most_one(self.depth.is_some())
            }
            ItemKind::Part(Part::HeadingSetextText) => at_most_one(self.has_text),
            ItemKind::Content(Content::LineEnding) => None,
            ItemKind::Content(_) if !self.has_text => None,
            _ => Some(ErrorKind::Misplaced),
        }
    }

    /// Stores the underline: with hyphens the depth is 2, otherwise 1. One that begins outside the
    /// document is refused as `ErrorKind::InvalidSlice`.
    pub fn take_underline(
        &mut self,
        document: &Document<'_>,
        start: Point,
        end: Point,
    ) -> Result<(), Stop>
        requires { misfit_in (setext self.old) (item_kinds.Part parts.HeadingSetextUnderlineSequence) ≡ None }
        ensures { Reads document.now parts.HeadingSetextUnderlineSequence start end (setext self.old) (setext self.new) result }
    {
        let Some(byte) = byte_at(document, start) else {
            return Err(Stop::Refused(ErrorKind::InvalidSlice));
        };
        self.depth = Some(if byte == b'-' { 2 } else { 1 });
        Ok(())
    }

    /// Records the text. The nodes made in it are those of the heading.
    pub fn take_text(&mut self)
        requires { misfit_in (setext self.old) (item_kinds.Part parts.HeadingSetextText) ≡ None }
        ensures { (ts : Trees) → GainsText parts.HeadingSetextText ts (setext self.old) (setext self.new) }
    {
        self.has_text = true;
    }

    /// Returns the node of a setext heading. If there was no underline, the heading is refused as
    /// `ErrorKind::HeadingDepth`.
    pub fn node(self, children: Vec<Node>, position: Position) -> Result<Node, Stop>
        ensures { Makes result (is_some self.depth) HeadingDepth (IsNode (heading_label self.depth) (views children.items) position) }
    {
        heading(children, position, self.depth)
    }
}

/// Returns the depth for a sequence of this length: from 1 to 6 it is the length.
fn depth_of(length: usize) -> Option<u8>
    ensures value { IfSome result (λ depth. depth ≡ length) }
    ensures variant { is_some result ≡ is_depth (Some length) }
{
    match length {
        1..=6 => u8::try_from(length).ok(),
        _ => None,
    }
}

/// Returns the node of a heading, which must have a depth.
fn heading(children: Vec<Node>, position: Position, depth: Option<u8>) -> Result<Node, Stop>
    ensures { Makes result (is_some depth) HeadingDepth (IsNode (heading_label depth) (views children.items) position) }
{
    match depth {
        Some(depth) => Ok(Node::Heading(Heading {
            children,
            position: Some(position),
            depth,
        })),
        None => Err(Stop::Refused(ErrorKind::HeadingDepth)),
    }
}
