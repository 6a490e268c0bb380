//! The current line, and what the open containers took of it.

ghost use Rattle.std.specs.Prelude.{[], OnOk, false, length, slice_index, true, ◌≡◌, ◌≤◌, ◌<◌, ◌++◌};

use crate::line::{Line, Source};
use crate::output::piece_to;
use markdown_events::event::Name;
use markdown_pieces::piece::{Piece, PieceKind};
use std::alloc::{AllocError, Global};

/// A line that is being read.
#[derive(Drop)]
pub struct Input<'d> {
    /// The line, with its cursor after its prefix.
    pub line: Line<'d>,
    /// How many containers there are, up to the last one with a marker in this line.
    pub depth: usize,
    /// The pieces of its prefix: what the open containers took of it.
    prefix: Vec<Piece>,
}

impl<'d> Input<'d> {
    ghost use Rattle.markdown_flow.specs.Lines.{HasColumns};
    ghost use Rattle.markdown_flow.specs.Moves.{HasMoved};
    ghost use Rattle.markdown_flow.specs.Outputs.{Reads, spot_in};
    ghost use Rattle.markdown_flow.specs.declared.line.Source.{Source};
    ghost use Rattle.markdown_pieces.specs.Tilings.{Goes, Spot};
    ghost use Rattle.markdown_pieces.specs.Walks.{IsBetween};

    /// Returns a line of which nothing has been read yet.
    pub fn new(alloc: Global, line: Line<'d>) -> Input<'d>
        ensures line { result.line ≡ line.entry }
        ensures prefix { result.prefix.items ≡ [] }
    {
        Input {
            line,
            depth: 0,
            prefix: Vec::new(alloc),
        }
    }

    /// Moves to the line that begins at an offset, of which nothing has been read yet. Returns
    /// whether there is one.
    #[inline(always)]
    pub fn go_to(&mut self, source: Source<'d>, start: usize) -> bool
        requires { start < length source.document.now → HasColumns source.document.now start 0 0 }
        ensures same { result ≡ true → self.new.line.source ≡ source.entry }
        ensures start { result ≡ true → self.new.line.start ≡ start }
        ensures spot { result ≡ true → spot_in self.new.line ≡ record { offset = start; virtual_spaces = 0 } }
        ensures none { result ≡ false → length source.entry.document.now ≤ start }
        ensures prefix { self.new.prefix ≡ self.old.prefix }
    {
        let Some(line) = Line::new(source, start) else {
            return false;
        };
        self.line = line;
        self.depth = 0;
        true
    }

    /// Moves the cursor over the white space there, a byte, and a column of white space, if there
    /// is one. They are the prefix of a block quote.
    pub fn block_quote_prefix(&mut self) -> Result<(), AllocError>
        requires some { 0 < length self.old.line.text.now }
        requires ascii { slice_index self.old.line.text.now 0 < 128 }
        ensures reads { (source : Source) → (from : Spot) → Reads source from self.old → OnOk result (Reads source from self.new) }
        ensures moved { OnOk result (HasMoved self.old.line self.new.line) }
    {
        let mut line = self.line;
        line.skip(1);
        line.skip_columns(1);
        self.push(PieceKind::BlockQuotePrefix, line)
    }

    /// Moves the cursor over up to `columns` columns of white space, which are added to the prefix.
    pub fn columns(&mut self, columns: usize) -> Result<(), AllocError>
        ensures reads { (source : Source) → (from : Spot) → Reads source from self.old → OnOk result (Reads source from self.new) }
        ensures moved { OnOk result (HasMoved self.old.line self.new.line) }
        ensures text { OnOk result (self.new.line.text ≡ self.old.line.text) }
    {
        let mut line = self.line;
        line.skip_columns(columns);
        if line.columns() == self.line.columns() {
            return Ok(());
        }
        self.push(PieceKind::Token(Name::SpaceOrTab), line)
    }

    /// Moves the cursor to another place of the line. What is between the two is added to the
    /// prefix.
    fn push(&mut self, kind: PieceKind, line: Line<'d>) -> Result<(), AllocError>
        requires source { line.source ≡ self.old.line.source }
        requires goes { Goes self.old.line.source.document.now kind (spot_in self.old.line) (spot_in line) }
        requires between { IsBetween kind }
        ensures reads { (source : Source) → (from : Spot) → Reads source from self.old → OnOk result (Reads source from self.new) }
        ensures line { OnOk result (self.new.line ≡ line.entry) }
    {
        let piece = piece_to(kind, &line);
        self.prefix.push(piece)?;
        self.line = line;
        Ok(())
    }

    /// Moves the prefix to the end of other pieces.
    pub fn take_prefix(&mut self, into: &mut Vec<Piece>) -> Result<(), AllocError>
        ensures taken { OnOk result (into.new.items ≡ into.old.items ++ self.old.prefix.items) }
        ensures left { OnOk result (self.new.prefix.items ≡ []) }
        ensures line { self.new.line ≡ self.old.line }
    {
        into.append(&mut self.prefix)
    }
}
