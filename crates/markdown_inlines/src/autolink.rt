//! Autolinks (CommonMark), and autolink literals (GFM, autolinks): the node Link of mdast.
//!
//! In markdown-rs: `on_enter_autolink`, `on_exit_autolink_email`, `on_exit_autolink_protocol`,
//! `on_enter_gfm_autolink_literal` and `on_exit_gfm_autolink_literal`.

ghost use Rattle.std.specs.Prelude.{◌≡◌, ◌++◌, IfOk, None, is_some, option_map, string_bytes, true};
ghost use Rattle.markdown_events.specs.Slices.{slice};
ghost use Rattle.markdown_events.specs.declared.role.ItemKind.TheVariants as item_kinds;
ghost use Rattle.markdown_events.specs.declared.role.Part.TheVariants as parts;
ghost use Rattle.markdown_nodes.specs.Tree as tree;
ghost use Rattle.markdown_nodes.specs.Tree.{nothing, only};
ghost use Rattle.markdown_nodes.specs.View.{view, views};
ghost use Rattle.markdown_grammar.specs.Grammar as models;
ghost use Rattle.markdown_grammar.specs.declared.error_kind.ErrorKind.TheVariants.{InvalidSlice};
ghost use Rattle.markdown_parts.specs.PartsSoFar.{IsFresh, IsNode, Makes, Reads, misfit_in, placed};
ghost use Rattle.markdown_inlines.specs.Autolinks.{IsLiteral, IsSchemeOf, autolink, autolink_nodes, is_literal};

use markdown_grammar::error_kind::{ErrorKind, Stop};
use markdown_nodes::event::Point;
use markdown_nodes::mdast::{Link, Node};
use markdown_nodes::role::{Content, ItemKind, Part};
use markdown_nodes::unist::Position;
use markdown_parts::joining::new_text;
use markdown_parts::misfits::at_most_one;
use markdown_parts::slice::{Document, position_of};
use markdown_parts::texts::address;
use markdown_parts::value::{Value, value_of};
use std::alloc::{AllocError, Global};

/// An address, and where it is: `a@b.c` in `<a@b.c>`.
#[derive(Drop)]
pub struct Address<'a> {
    pub start: Point,
    pub end: Point,
    pub value: Value<'a>,
}

/// The parts of an autolink so far. It has at most one address.
#[derive(Drop)]
pub enum AutolinkParts<'a> {
    /// No address so far.
    Empty,
    /// An email address, as in `<a@b.c>`.
    Email(Address<'a>),
    /// An address with its scheme, as in `<https://a.b>`.
    Protocol(Address<'a>),
}

impl<'a> AutolinkParts<'a> {
    /// Returns an autolink at its enter, at the `<` of `<a@b.c>`.
    pub fn new() -> AutolinkParts<'a>
        ensures { IsFresh (autolink result) models.autolink }
    {
        AutolinkParts::Empty
    }

    /// Returns the rule that this item would violate here, if any. An autolink accepts one address,
    /// and line endings. A second address is `ErrorKind::Repeated`, any other item
    /// `ErrorKind::Misplaced`.
    pub fn misfit(&self, what: ItemKind) -> Option<ErrorKind>
        ensures { result ≡ misfit_in (autolink self.now) what }
    {
        match what {
            ItemKind::Content(Content::LineEnding) => None,
            ItemKind::Part(Part::AutolinkEmail | Part::AutolinkProtocol) => {
                at_most_one(!matches!(self, AutolinkParts::Empty))
            }
            _ => Some(ErrorKind::Misplaced),
        }
    }

    /// Stores the email address between two points: `a@b.c` in `<a@b.c>`. If it is not a text of
    /// the document, it is refused as `ErrorKind::InvalidSlice`.
    pub fn take_email(
        &mut self,
        alloc: Global,
        document: &Document<'a>,
        start: Point,
        end: Point,
    ) -> Result<(), Stop>
        requires { misfit_in (autolink self.old) (item_kinds.Part parts.AutolinkEmail) ≡ None }
        ensures { Reads document.now parts.AutolinkEmail start end (autolink self.old) (autolink self.new) result }
    {
        let value = value_of(alloc, document, start, end)?;
        *self = AutolinkParts::Email(Address { start, end, value });
        Ok(())
    }

    /// Stores the address with its scheme between two points: `https://a.b` in `<https://a.b>`. If
    /// it is not a text of the document, it is refused as `ErrorKind::InvalidSlice`.
    pub fn take_protocol(
        &mut self,
        alloc: Global,
        document: &Document<'a>,
        start: Point,
        end: Point,
    ) -> Result<(), Stop>
        requires { misfit_in (autolink self.old) (item_kinds.Part parts.AutolinkProtocol) ≡ None }
        ensures { Reads document.now parts.AutolinkProtocol start end (autolink self.old) (autolink self.new) result }
    {
        let value = value_of(alloc, document, start, end)?;
        *self = AutolinkParts::Protocol(Address { start, end, value });
        Ok(())
    }

    /// Returns the node of an autolink between two points: a link to its address, or to an empty
    /// one if it has none.
    ///
    /// For `<a@b.c>` it is a link to `mailto:a@b.c`, with the text `a@b.c` in it.
    pub fn node(self, alloc: Global, start: Point, end: Point) -> Result<Node, AllocError>
        ensures { IfOk result (λ node. only (view node) ≡ autolink_nodes self.entry start end) }
    {
        let position = position_of(start, end);
        match self {
            AutolinkParts::Email(address) => {
                let place = position_of(address.start, address.end);
                linked(alloc, "mailto:", address.value.as_str(), position, place)
            }
            AutolinkParts::Protocol(address) => {
                let place = position_of(address.start, address.end);
                linked(alloc, "", address.value.as_str(), position, place)
            }
            AutolinkParts::Empty => {
                Ok(link_to(Vec::new(alloc), position, String::new(alloc), None))
            }
        }
    }
}

/// Returns the node of an autolink literal between two points: a link to it. If it is not a text of
/// the document, it is refused as `ErrorKind::InvalidSlice`.
///
/// For `www.a.b` it is a link to `http://www.a.b`, with the text `www.a.b` in it.
pub fn literal(
    alloc: Global,
    document: &Document<'_>,
    content: Content,
    start: Point,
    end: Point,
) -> Result<Node, Stop>
    requires { is_literal content ≡ true }
    ensures { Makes result (is_some (slice document.now.bytes start end)) InvalidSlice (IsLiteral document.now content start end) }
{
    let value = value_of(alloc, document, start, end)?;
    let position = position_of(start, end);
    Ok(linked(
        alloc,
        scheme_of(content),
        value.as_str(),
        position,
        position,
    )?)
}

/// Returns the scheme that an autolink literal leaves out (GFM, autolinks).
fn scheme_of(content: Content) -> &'static str
    requires { is_literal content ≡ true }
    ensures { IsSchemeOf content result.now }
{
    match content {
        Content::AutolinkLiteralEmail => "mailto:",
        Content::AutolinkLiteralWww => "http://",
        _ => "",
    }
}

/// Returns a link to an address, with that address for its text. A scheme that it leaves out is
/// added.
#[tactic(auto, unfolding(markdown_nodes::specs::View::view))]
fn linked(
    alloc: Global,
    scheme: &str,
    value: &str,
    position: Position,
    place: Position,
) -> Result<Node, AllocError>
    ensures { IfOk result (IsNode (tree.link (scheme.now ++ value.now) None) (only (placed (tree.text value.now) nothing place)) position) }
{
    let mut children = Vec::new(alloc);
    children.push(new_text(alloc, value, place)?)?;
    let url = address(alloc, scheme, value)?;
    Ok(link_to(children, position, url, None))
}

/// Returns a link to an address, either an autolink or a link with a label of its own.
pub fn link_to(children: Vec<Node>, position: Position, url: String, title: Option<String>) -> Node
    ensures { view result ≡ placed (tree.link (string_bytes url) (option_map string_bytes title)) (views children.items) position }
{
    Node::Link(Link {
        children,
        position: Some(position),
        url,
        title,
    })
}
