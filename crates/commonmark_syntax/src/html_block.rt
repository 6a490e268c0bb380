//! HTML blocks (CommonMark).

ghost use Rattle.std.specs.Prelude.{◌≡◌, MatchOption, false, true};
ghost use Rattle.commonmark_syntax.specs.Language.{IsNotAt};

use crate::{html_end, html_start};

/// What an HTML block begins with, in the order of CommonMark's seven conditions.
#[derive(Clone, Copy, PartialEq, Eq, Debug)]
pub enum Kind {
    /// The opening tag of an element that may contain blank lines. It ends with the closing tag of
    /// such an element.
    Raw,
    /// A comment.
    Comment,
    /// A processing instruction.
    Instruction,
    /// A declaration.
    Declaration,
    /// A CDATA section.
    Cdata,
    /// A tag of a block element. It ends at a blank line.
    Basic,
    /// Any other tag, alone in its line. It ends at a blank line.
    Complete,
}

impl Kind {
    ghost use Rattle.commonmark_syntax.specs.Html.{HasEnd, HoldsFirst, html_start};

    /// Returns the kind of the HTML block that the text of a line begins with, if it begins with
    /// one: the first of the seven conditions that holds (CommonMark).
    ///
    /// In `<!-- a` it is a comment.
    pub fn find(text: &[u8]) -> Option<Kind>
        ensures { MatchOption result ((kind : Kind) → IsNotAt (html_start kind) text.now) (λ kind. HoldsFirst kind text.now) }
    {
        if text.first() != Some(&b'<') {
            return None;
        }
        if html_start::is_raw(text) {
            Some(Kind::Raw)
        } else if html_start::is_comment(text) {
            Some(Kind::Comment)
        } else if html_start::is_instruction(text) {
            Some(Kind::Instruction)
        } else if html_start::is_declaration(text) {
            Some(Kind::Declaration)
        } else if html_start::is_cdata(text) {
            Some(Kind::Cdata)
        } else if html_start::is_basic(text) {
            Some(Kind::Basic)
        } else if html_start::is_complete(text) {
            Some(Kind::Complete)
        } else {
            None
        }
    }

    /// Whether a line contains its end. The last two kinds have none: they end at a blank line
    /// (CommonMark).
    ///
    /// For a comment it is true for `a --> b`.
    pub fn ends_in(self, text: &[u8]) -> bool
        ensures yes { result ≡ true → HasEnd self text.now }
        ensures no { result ≡ false → HasEnd self text.now → ⊥ }
    {
        match self {
            Kind::Raw => html_end::has_raw(text),
            Kind::Comment => html_end::has(text, b"-->"),
            Kind::Instruction => html_end::has(text, b"?>"),
            Kind::Declaration => html_end::has(text, b">"),
            Kind::Cdata => html_end::has(text, b"]]>"),
            Kind::Basic | Kind::Complete => false,
        }
    }

    /// Whether it ends at a blank line.
    pub fn ends_at_blank_line(self) -> bool {
        matches!(self, Kind::Basic | Kind::Complete)
    }
}
