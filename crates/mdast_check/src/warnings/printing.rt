//! How warnings are printed.

ghost use Rattle.std.specs.Fmt.{WritesOnOk};
ghost use Rattle.std.specs.Prelude.{◌≡◌, Some};
ghost use Rattle.mdast_check.specs.WarningLines.{named, on_line, reason_of, rule_of, start_text, warning_text};
ghost use Rattle.mdast_check.specs.Warnings.{finding_of, warned};

use crate::report::kind_word;
use crate::warnings::{Problem, Warning};
use markdown_nodes::unist::Position;
use std::fmt;

impl Problem {
    /// Returns the rule that is violated, an identifier for programs (ours): `heading-jump`,
    /// `reference-undefined`, `definition-unused`, `footnote-unused`, `definition-duplicate`,
    /// `link-empty` or `image-without-alt`.
    ///
    /// For `Problem::LinkWithoutText` it is `link-empty`, as for `Problem::LinkWithoutAddress`.
    pub fn rule(&self) -> &'static str
        ensures { result.now ≡ rule_of (finding_of self.now) }
    {
        match self {
            Problem::HeadingJump { .. } => "heading-jump",
            Problem::ReferenceUndefined { .. } => "reference-undefined",
            Problem::DefinitionUnused { .. } => "definition-unused",
            Problem::FootnoteUnused { .. } => "footnote-unused",
            Problem::DefinitionDuplicate { .. } => "definition-duplicate",
            Problem::LinkWithoutAddress | Problem::LinkWithoutText => "link-empty",
            Problem::ImageWithoutAlt => "image-without-alt",
        }
    }
}

impl fmt::Display for Problem {
    ghost output = { λ problem. Some (reason_of (finding_of problem)) };

    fn fmt<W: fmt::Write>(&self, f: &mut fmt::Formatter<W>) -> fmt::Result {
        match self {
            Problem::HeadingJump { before, depth } => {
                let (before, depth) = (*before, *depth);
                write!(f, "heading of depth {depth} after one of depth {before}")
            }
            Problem::ReferenceUndefined { kind, identifier } => {
                let (kind, name) = (kind_word(*kind), Named(identifier.as_str()));
                write!(f, "nothing defines the {kind} {name}")
            }
            Problem::DefinitionUnused { identifier } => {
                let name = Named(identifier.as_str());
                write!(f, "nothing refers to the definition {name}")
            }
            Problem::FootnoteUnused { identifier } => {
                let name = Named(identifier.as_str());
                write!(f, "nothing calls the footnote {name}")
            }
            Problem::DefinitionDuplicate { identifier } => {
                let name = Named(identifier.as_str());
                write!(f, "{name} is defined before")
            }
            Problem::LinkWithoutAddress => f.write_str("the link has no address"),
            Problem::LinkWithoutText => f.write_str("the link has no text"),
            Problem::ImageWithoutAlt => f.write_str("the image has no alternative text"),
        }
    }
}

impl fmt::Display for Warning {
    ghost output = { λ warning. Some (warning_text (warned warning)) };

    fn fmt<W: fmt::Write>(&self, f: &mut fmt::Formatter<W>) -> fmt::Result {
        write_start(&self.position, f)?;
        let (problem, rule) = (&self.problem, self.problem.rule());
        write!(f, "warning: {problem} ({rule})")
    }
}

/// Writes where a position starts, or nothing if there is none.
fn write_start<W: fmt::Write>(position: &Option<Position>, f: &mut fmt::Formatter<W>) -> fmt::Result
    ensures { WritesOnOk W.write_str_gives f.old result (start_text position.now) f.new }
{
    match position {
        Some(position) => {
            let (line, column) = (position.start.line, position.start.column);
            write!(f, "{line}:{column}: ")
        }
        None => Ok(()),
    }
}

/// An identifier that is printed between quotes.
#[derive(Drop)]
struct Named<'a>(&'a str);

impl fmt::Display for Named<'_> {
    ghost output = { λ name. Some (named name.0.now) };

    fn fmt<W: fmt::Write>(&self, f: &mut fmt::Formatter<W>) -> fmt::Result {
        write_named(self.0, f)
    }
}

/// Writes an identifier between quotes and on one line: a control character or the end of a line
/// becomes a blank.
fn write_named<W: fmt::Write>(identifier: &str, f: &mut fmt::Formatter<W>) -> fmt::Result
    ensures { WritesOnOk W.write_str_gives f.old result (named identifier.now) f.new }
{
    f.write_str("\"")?;
    for c in identifier.chars() {
        write_on_line(c, f)?;
    }
    f.write_str("\"")
}

/// Writes a character, or a blank for a control character or the end of a line.
fn write_on_line<W: fmt::Write>(c: char, f: &mut fmt::Formatter<W>) -> fmt::Result
    ensures { WritesOnOk W.write_str_gives f.old result (on_line c) f.new }
{
    if c.is_control() || c == '\u{2028}' || c == '\u{2029}' {
        return f.write_str(" ");
    }
    f.write_char(c)
}
