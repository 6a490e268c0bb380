//! Content: lines that are kept until it is known what they are (micromark). They are the lines of
//! a paragraph, which may turn out to be definitions, a heading or a table, and blank lines after
//! indented code.

ghost use Rattle.std.specs.Prelude.{Bool, List, [], OnOk, IfSome, length, true, ◌≡◌, ◌≤◌};
ghost use Rattle.event_writer.specs.Stages.{Enclosing, Stage, inlines, takes_line_endings};
ghost use Rattle.markdown_flow.specs.Outputs.{IsAt, Keeps, Opens, Stands, Writes, Reads, document_of, line_after, next_of, source_of, spot};
ghost use Rattle.markdown_flow.specs.Contents.{Kept, AreKept, after_lines, prefix_of};
ghost use Rattle.markdown_flow.specs.declared.line.Source.{Source};
ghost use Rattle.markdown_pieces.specs.Spans.{IsAlwaysOn};
ghost use Rattle.markdown_pieces.specs.declared.piece.PieceKind.TheVariants.{Enter};
ghost use Rattle.markdown_pieces.specs.Tilings.{MayBegin, Spot};
ghost use Rattle.markdown_pieces.specs.Walks.{at, stage_after_string};

use crate::input::Input;
use crate::line::Line;
use crate::output::Output;
use markdown_events::event::Name;
use markdown_pieces::piece::{Piece, PieceKind};
use std::alloc::{AllocError, Global};

/// A line that is kept.
#[derive(Clone, Copy)]
pub struct KeptLine<'d> {
    /// The line, with its cursor after its prefix.
    pub line: Line<'d>,
    /// How many containers there are, up to the last one with a marker in this line.
    pub depth: usize,
    /// How many pieces of prefixes come before its own.
    prefix_start: usize,
    /// How many pieces of prefixes there are, up to the last of its own.
    prefix_end: usize,
}

/// Lines that are kept, with the pieces of their prefixes.
#[derive(Drop)]
pub struct Content<'d> {
    /// The lines.
    lines: Vec<KeptLine<'d>>,
    /// The pieces of their prefixes, in order.
    prefixes: Vec<Piece>,
}

impl<'d> Content<'d> {
    /// Returns no lines.
    pub fn new(alloc: Global) -> Content<'d>
        ensures { result.lines.items ≡ [] }
    {
        Content {
            lines: Vec::new(alloc),
            prefixes: Vec::new(alloc),
        }
    }

    /// Returns the lines.
    pub fn lines(&self) -> &[KeptLine<'d>]
        ensures { result.now ≡ self.now.lines.items }
    {
        self.lines.as_slice()
    }

    /// Returns the pieces of the prefix of a line.
    pub fn prefix_of(&self, kept: &KeptLine<'d>) -> &[Piece]
        ensures { kept.now.prefix_start ≤ kept.now.prefix_end → kept.now.prefix_end ≤ length self.now.prefixes.items → result.now ≡ prefix_of self.now.prefixes.items kept.now }
    {
        self.prefixes
            .as_slice()
            .get(kept.prefix_start..kept.prefix_end)
            .unwrap_or(&[])
    }

    /// Forgets all lines.
    pub fn clear(&mut self)
        ensures { self.new.lines.items ≡ [] }
    {
        self.lines.clear();
        self.prefixes.clear();
    }

    /// Keeps the current line, with its prefix.
    pub fn keep(&mut self, input: &mut Input<'d>) -> Result<(), AllocError>
        ensures kept { (source : Source) → (from : Spot)
            → AreKept source self.old.prefixes.items from self.old.lines.items
            → Reads source (after_lines from self.old.lines.items) input.old
            → OnOk result (AreKept source self.new.prefixes.items from self.new.lines.items × (after_lines from self.new.lines.items ≡ next_of input.old.line)) }
        ensures line { input.new.line ≡ input.old.line }
        ensures taken { OnOk result (input.new.prefix.items ≡ []) }
    {
        let prefix_start = self.prefixes.len();
        input.take_prefix(&mut self.prefixes)?;
        self.lines.push(KeptLine {
            line: input.line,
            depth: input.depth,
            prefix_start,
            prefix_end: self.prefixes.len(),
        })?;
        Ok(())
    }

    /// Writes a span with the text of the current line, and of the lines after it.
    pub fn write_text(
        &self,
        name: Name,
        later: &[KeptLine<'d>],
        output: &mut Output<'d>,
    ) -> Result<(), AllocError>
        requires writes { Writes output.old }
        requires on { IsAlwaysOn (Enter name) }
        requires begins { MayBegin (document_of output.old) name (spot output.old.cursor) }
        requires later { AreKept (source_of output.old) self.now.prefixes.items (line_after output.old.cursor) later.now }
        ensures stands { OnOk result (Stands output.new) }
        ensures source { OnOk result (source_of output.new ≡ source_of output.old) }
        ensures spot { OnOk result (spot output.new.cursor ≡ after_lines (line_after output.old.cursor) later.now) }
        ensures opens { (a : Stage) → (outer : List Enclosing) → Opens output.old (at a outer) → OnOk result (IfSome (stage_after_string a name) (λ b. Opens output.new (at b outer))) }
    {
        output.enter(name)?;
        write_text_of_line(output)?;
        for kept in later {
            self.write_text_of(kept, output)?;
        }
        output.exit_before_held(name)?;
        Ok(())
    }

    /// Writes the text of a line, with what comes before it.
    fn write_text_of(&self, kept: &KeptLine<'d>, output: &mut Output<'d>) -> Result<(), AllocError>
        requires stands { Stands output.old }
        requires kept { Kept (source_of output.old) self.now.prefixes.items (spot output.old.cursor) kept.now }
        ensures stands { OnOk result (Stands output.new) }
        ensures source { OnOk result (source_of output.new ≡ source_of output.old) }
        ensures spot { OnOk result (spot output.new.cursor ≡ next_of kept.now.line) }
        ensures opens { (h : Bool) → Keeps result (inlines h) output.old output.new }
    {
        self.begin(kept, output)?;
        write_text_of_line(output)
    }

    /// Begins a line: writes what comes before it, and its prefix.
    pub fn begin(&self, kept: &KeptLine<'d>, output: &mut Output<'d>) -> Result<(), AllocError>
        requires stands { Stands output.old }
        requires kept { Kept (source_of output.old) self.now.prefixes.items (spot output.old.cursor) kept.now }
        ensures writes { OnOk result (Writes output.new) }
        ensures at { OnOk result (IsAt output.new.cursor kept.now.line) }
        ensures opens { (a : Stage) → takes_line_endings a ≡ true → Keeps result a output.old output.new }
    {
        output.begin_kept(self.prefix_of(kept), &kept.line)
    }
}

/// Writes the text of a line with the white space before it, and ends the line.
fn write_text_of_line(output: &mut Output<'_>) -> Result<(), AllocError>
    requires { Writes output.old }
    ensures stands { OnOk result (Stands output.new) }
    ensures source { OnOk result (source_of output.new ≡ source_of output.old) }
    ensures spot { OnOk result (spot output.new.cursor ≡ line_after output.old.cursor) }
    ensures opens { (h : Bool) → Keeps result (inlines h) output.old output.new }
{
    output.white_space()?;
    let size = output.rest().len();
    output.part(PieceKind::Text, size)?;
    output.end_line()
}
