//! The pieces made so far, the held ones, and the current line.

ghost use Rattle.std.specs.Prelude.{List, [], OnOk, IfOk, IfSome, Some, true, drop, length, min, ◌≡◌, ◌≢◌, ◌≤◌, ◌<◌, ◌+◌, ◌-◌, slice_range};
ghost use Rattle.commonmark_syntax.specs.Cuts.{IsCut};
ghost use Rattle.event_writer.specs.Stages.{Enclosing, Stage, entered, exited, heading_atx, inlines, skips, takes_line_endings};
ghost use Rattle.markdown_events.specs.Names.{role_of};
ghost use Rattle.markdown_events.specs.declared.event.Name.TheVariants.{ListItem};
ghost use Rattle.markdown_flow.specs.Outputs.{IsAt, IsLater, IsPlaceIn, Keeps, Opens, Stands, Writes, Reads, constructs_of, document_of, line_after, next_of, rest_of, source_of, spot, spot_in, text_of};
ghost use Rattle.markdown_flow.specs.Moves.{HasMoved};
ghost use Rattle.markdown_flow.specs.Lines.{after_spaces};
ghost use Rattle.markdown_options.specs.Spans.{is_on};
ghost use Rattle.markdown_pieces.specs.Spans.{AreOn, IsAlwaysOn, IsOn};
ghost use Rattle.markdown_pieces.specs.Tilings.{EndsCharacter, Goes, HasValue, IsEnding, IsPlain, IsToken, MayBegin, Tiles, end_from, end_of, origin};
ghost use Rattle.markdown_pieces.specs.declared.piece.PieceKind.TheVariants.{Enter, Token};
ghost use Rattle.markdown_pieces.specs.Walks.{AreBetween, State, Walks, after_token, at, inside, stage_after, stage_after_string, start};

use crate::input::Input;
use crate::line::{Line, Source};
use crate::space_or_tab::after_spaces;
use markdown_events::event::Name;
use markdown_pieces::identifiers::Identifiers;
use markdown_pieces::piece::{Piece, PieceKind};
use std::alloc::{AllocError, Global};

/// A blank line that is held.
#[derive(Clone, Copy)]
struct HeldBlank {
    /// How many pieces are held before its ending.
    index: usize,
    /// It is blank only inside this many containers: the last one of these has a marker in it.
    depth: usize,
}

/// The end of the current line.
#[derive(Clone, Copy)]
struct Extent<'d> {
    /// The document, and which constructs are on.
    source: Source<'d>,
    /// The offset where the line ends, without its line ending.
    end: usize,
    /// The offset where the next line begins.
    next: usize,
}

/// A place in the current line.
#[derive(Clone, Copy)]
struct Cursor<'d> {
    /// The line.
    extent: Extent<'d>,
    /// The offset.
    offset: usize,
    /// How many columns of a tab come before it, if it is within the tab, and otherwise 0.
    virtual_spaces: u8,
}

impl<'d> Cursor<'d> {
    /// Returns the start of a document, before any line is written.
    fn start_of(source: Source<'d>) -> Cursor<'d>
        ensures source { result.extent.source ≡ source.entry }
        ensures spot { spot result ≡ origin }
    {
        Cursor {
            extent: Extent {
                source,
                end: 0,
                next: 0,
            },
            offset: 0,
            virtual_spaces: 0,
        }
    }

    /// Returns the cursor of a line.
    fn of(line: &Line<'d>) -> Cursor<'d>
        ensures { IsAt result line.now }
    {
        Cursor {
            extent: Extent {
                source: line.source(),
                end: line.end(),
                next: line.next(),
            },
            offset: line.offset(),
            virtual_spaces: line.virtual_spaces(),
        }
    }

    /// Returns the rest of the line, without its ending.
    fn rest(self) -> &'d [u8]
        requires { IsPlaceIn self }
        ensures length { length result.now ≡ self.entry.extent.end - self.entry.offset }
        ensures bytes { result.now ≡ slice_range self.entry.extent.source.document.now self.entry.offset self.entry.extent.end }
    {
        &self.extent.source.document[self.offset..self.extent.end]
    }

    /// Returns the place `size` bytes later, or the end of the line if there are not as many.
    fn after(self, size: usize) -> Cursor<'d>
        requires { self.offset ≤ self.extent.end }
        ensures extent { result.extent ≡ self.entry.extent }
        ensures offset { result.offset ≡ self.entry.offset + min size (self.entry.extent.end - self.entry.offset) }
        ensures whole { result.virtual_spaces ≡ 0 }
    {
        Cursor {
            extent: self.extent,
            offset: self.offset + size.min(self.extent.end - self.offset),
            virtual_spaces: 0,
        }
    }

    /// Returns the start of the next line.
    fn next_line(self) -> Cursor<'d>
        ensures source { result.extent.source ≡ self.entry.extent.source }
        ensures spot { spot result ≡ line_after self.entry }
    {
        Cursor {
            extent: Extent {
                source: self.extent.source,
                end: self.extent.next,
                next: self.extent.next,
            },
            offset: self.extent.next,
            virtual_spaces: 0,
        }
    }
}

/// The pieces so far, and the identifiers that were found.
///
/// A line is begun with `begin`, written to its end, and ended with `end_line`. Its tokens are
/// taken from the rest of it, so none of them leaves it.
///
/// A piece is *settled* once no span can begin or end before it any more. The ending of the last
/// line of text and the blank lines after it are *held* until then, since containers that end there
/// end between these.
#[derive(Drop)]
pub struct Output<'d> {
    /// The allocator.
    alloc: Global,
    /// What the document defines.
    identifiers: Identifiers,
    /// The settled pieces.
    pieces: Vec<Piece>,
    /// The held pieces, from the ending of the last text on.
    held: Vec<Piece>,
    /// How many of the held pieces are also settled.
    held_start: usize,
    /// The held blank lines. Their depth never increases from one to the next.
    blanks: Vec<HeldBlank>,
    /// Where the pieces end.
    cursor: Cursor<'d>,
}

/// Returns a piece that ends at the cursor of a line.
pub fn piece_to(kind: PieceKind, line: &Line<'_>) -> Piece
    ensures kind { result.kind ≡ kind }
    ensures end { result.end ≡ line.now.end - length line.now.rest.now }
    ensures virtual_spaces { result.virtual_spaces ≡ line.now.virtual_spaces }
{
    Piece {
        kind,
        virtual_spaces: line.virtual_spaces(),
        end: line.offset(),
    }
}

impl<'d> Output<'d> {
    /// Returns an output with no pieces of a document.
    pub fn new(alloc: Global, source: Source<'d>) -> Output<'d>
        ensures stands { Stands result }
        ensures source { source_of result ≡ source.entry }
        ensures spot { spot result.cursor ≡ origin }
        ensures opens { Opens result start }
    {
        Output {
            alloc,
            identifiers: Identifiers::new(alloc),
            pieces: Vec::new(alloc),
            held: Vec::new(alloc),
            held_start: 0,
            blanks: Vec::new(alloc),
            cursor: Cursor::start_of(source),
        }
    }

    /// Adds a definition by its label.
    pub fn define(&mut self, label: &[u8]) -> Result<(), AllocError>
        ensures stands { Stands self.old → Stands self.new }
        ensures writes { Writes self.old → Writes self.new }
        ensures cursor { self.new.cursor ≡ self.old.cursor }
        ensures opens { (s : State) → Opens self.old s → Opens self.new s }
    {
        self.identifiers.define(self.alloc, label)
    }

    /// Adds a footnote definition by its label.
    pub fn define_footnote(&mut self, label: &[u8]) -> Result<(), AllocError>
        ensures stands { Stands self.old → Stands self.new }
        ensures writes { Writes self.old → Writes self.new }
        ensures cursor { self.new.cursor ≡ self.old.cursor }
        ensures opens { (s : State) → Opens self.old s → Opens self.new s }
    {
        self.identifiers.define_footnote(self.alloc, label)
    }

    /// Settles the held pieces.
    pub fn settle(&mut self) -> Result<(), AllocError>
        requires { Stands self.old }
        ensures tiles { OnOk result (Tiles (document_of self.old) origin self.new.pieces.items (spot self.old.cursor)) }
        ensures on { OnOk result (AreOn (constructs_of self.old) self.new.pieces.items) }
        ensures none_held { OnOk result (self.new.held.items ≡ []) }
        ensures from_start { OnOk result (self.new.held_start ≡ 0) }
        ensures cursor { OnOk result (self.new.cursor ≡ self.old.cursor) }
        ensures opens { (a : Stage) → takes_line_endings a ≡ true → Keeps result a self.old self.new }
    {
        let length = self.held.len();
        self.settle_to(length)?;
        self.held.clear();
        self.held_start = 0;
        self.blanks.clear();
        Ok(())
    }

    /// Settles the first `number` held pieces.
    fn settle_to(&mut self, number: usize) -> Result<(), AllocError>
        requires { Stands self.old }
        ensures stands { OnOk result (Stands self.new) }
        ensures held { self.new.held ≡ self.old.held }
        ensures cursor { self.new.cursor ≡ self.old.cursor }
        ensures number { self.old.held_start ≤ number → number ≤ length self.old.held.items → OnOk result (self.new.held_start ≡ number) }
        ensures opens { (a : Stage) → takes_line_endings a ≡ true → Keeps result a self.old self.new }
    {
        if let Some(held) = self.held.as_slice().get(self.held_start..number) {
            self.pieces.extend_from_slice(held)?;
            self.held_start = number;
        }
        Ok(())
    }

    /// Settles the held pieces, and the prefix of the current line. The rest of the line is written
    /// next.
    pub fn begin(&mut self, input: &mut Input<'d>) -> Result<(), AllocError>
        requires stands { Stands self.old }
        requires reads { Reads (source_of self.old) (spot self.old.cursor) input.old }
        ensures writes { OnOk result (Writes self.new) }
        ensures at { OnOk result (IsAt self.new.cursor input.old.line) }
        ensures line { OnOk result (input.new.line ≡ input.old.line) }
        ensures taken { OnOk result (input.new.prefix.items ≡ []) }
        ensures opens { (a : Stage) → takes_line_endings a ≡ true → Keeps result a self.old self.new }
    {
        self.settle()?;
        self.cursor = Cursor::of(&input.line);
        input.take_prefix(&mut self.pieces)?;
        Ok(())
    }

    /// Settles the held pieces, and the prefix of a kept line. The rest of the line is written
    /// next.
    pub fn begin_kept(&mut self, prefix: &[Piece], line: &Line<'d>) -> Result<(), AllocError>
        requires stands { Stands self.old }
        requires source { line.now.source ≡ source_of self.old }
        requires prefix { Tiles (document_of self.old) (spot self.old.cursor) prefix.now (spot_in line.now) }
        requires between { AreBetween prefix.now }
        ensures writes { OnOk result (Writes self.new) }
        ensures at { OnOk result (IsAt self.new.cursor line.now) }
        ensures opens { (a : Stage) → takes_line_endings a ≡ true → Keeps result a self.old self.new }
    {
        self.settle()?;
        self.cursor = Cursor::of(line);
        self.pieces.extend_from_slice(prefix)?;
        Ok(())
    }

    /// Ends the current line, which is not blank: holds its ending, if it has one.
    pub fn end_line(&mut self) -> Result<(), AllocError>
        requires writes { Writes self.old }
        requires ended { self.old.cursor.offset ≡ self.old.cursor.extent.end }
        ensures stands { OnOk result (Stands self.new) }
        ensures source { OnOk result (source_of self.new ≡ source_of self.old) }
        ensures spot { OnOk result (spot self.new.cursor ≡ line_after self.old.cursor) }
        ensures opens { (a : Stage) → Keeps result a self.old self.new }
    {
        self.hold_ending(PieceKind::LineEnding)
    }

    /// Holds the ending of the line whose end the cursor is at, if it has one.
    fn hold_ending(&mut self, kind: PieceKind) -> Result<(), AllocError>
        requires stands { Stands self.old }
        requires place { IsPlaceIn self.old.cursor }
        requires ended { self.old.cursor.offset ≡ self.old.cursor.extent.end }
        requires kind { IsEnding kind }
        ensures stands { OnOk result (Stands self.new) }
        ensures source { OnOk result (source_of self.new ≡ source_of self.old) }
        ensures spot { OnOk result (spot self.new.cursor ≡ line_after self.old.cursor) }
        ensures opens { (a : Stage) → Keeps result a self.old self.new }
    {
        let next = self.cursor.next_line();
        if self.cursor.offset == next.offset {
            return Ok(());
        }
        self.held.push(Piece::new(kind, next.offset))?;
        self.cursor = next;
        Ok(())
    }

    /// Holds the blank line that is being read.
    pub fn hold_blank(&mut self, input: &mut Input<'d>) -> Result<(), AllocError>
        requires stands { Stands self.old }
        requires reads { Reads (source_of self.old) (spot self.old.cursor) input.old }
        ensures stands { OnOk result (Stands self.new) }
        ensures source { OnOk result (source_of self.new ≡ source_of self.old) }
        ensures spot { OnOk result (spot self.new.cursor ≡ next_of input.old.line) }
        ensures line { input.new.line ≡ input.old.line }
        ensures taken { OnOk result (input.new.prefix.items ≡ []) }
        ensures opens { (a : Stage) → Keeps result a self.old self.new }
    {
        input.take_prefix(&mut self.held)?;
        self.cursor = Cursor::of(&input.line);
        self.hold_blank_rest(input.depth)
    }

    /// Holds a kept blank line, with its prefix. It is blank only inside `depth` containers.
    pub fn hold_kept_blank(
        &mut self,
        prefix: &[Piece],
        line: &Line<'d>,
        depth: usize,
    ) -> Result<(), AllocError>
        requires stands { Stands self.old }
        requires source { line.now.source ≡ source_of self.old }
        requires prefix { Tiles (document_of self.old) (spot self.old.cursor) prefix.now (spot_in line.now) }
        requires between { AreBetween prefix.now }
        ensures stands { OnOk result (Stands self.new) }
        ensures source { OnOk result (source_of self.new ≡ source_of self.old) }
        ensures spot { OnOk result (spot self.new.cursor ≡ next_of line.now) }
        ensures opens { (a : Stage) → Keeps result a self.old self.new }
    {
        self.held.extend_from_slice(prefix)?;
        self.cursor = Cursor::of(line);
        self.hold_blank_rest(depth)
    }

    /// Holds the rest of a blank line. The line is blank only inside `depth` containers.
    fn hold_blank_rest(&mut self, depth: usize) -> Result<(), AllocError>
        requires stands { Stands self.old }
        requires place { IsPlaceIn self.old.cursor }
        ensures stands { OnOk result (Stands self.new) }
        ensures source { OnOk result (source_of self.new ≡ source_of self.old) }
        ensures spot { OnOk result (spot self.new.cursor ≡ line_after self.old.cursor) }
        ensures opens { (a : Stage) → Keeps result a self.old self.new }
    {
        self.hold_white_space()?;
        let index = self.held.len();
        self.blanks.push(HeldBlank { index, depth })?;
        self.hold_ending(PieceKind::BlankLineEnding)
    }

    /// Holds the rest of a line as white space, unless it is empty.
    fn hold_white_space(&mut self) -> Result<(), AllocError>
        requires stands { Stands self.old }
        requires place { IsPlaceIn self.old.cursor }
        ensures stands { OnOk result (Stands self.new) }
        ensures place { OnOk result (IsPlaceIn self.new.cursor) }
        ensures extent { OnOk result (self.new.cursor.extent ≡ self.old.cursor.extent) }
        ensures ended { OnOk result (self.new.cursor.offset ≡ self.new.cursor.extent.end) }
        ensures opens { (a : Stage) → Keeps result a self.old self.new }
    {
        let end = self.cursor.after(self.cursor.extent.end);
        if end.offset == self.cursor.offset {
            return Ok(());
        }
        let space = Piece::new(PieceKind::Token(Name::SpaceOrTab), end.offset);
        self.held.push(space)?;
        self.cursor = end;
        Ok(())
    }

    /// Ends a container inside `outside` others. It ends before the ending of the first held blank
    /// line that is also blank outside the container. If there is none, it ends before the last
    /// held line ending, which is then not that of a blank line (ours).
    pub fn exit_container(&mut self, name: Name, outside: usize) -> Result<(), AllocError>
        requires { Stands self.old }
        ensures stands { OnOk result (Stands self.new) }
        ensures cursor { self.new.cursor ≡ self.old.cursor }
        ensures opens { (a b : Stage) → (outer : List Enclosing) → takes_line_endings a ≡ true → Opens self.old (at a (inside name b outer)) → OnOk result (IfSome (exited a b (role_of name)) (λ c. Opens self.new (at c outer))) }
    {
        let blank = self
            .blanks
            .iter()
            .find(|blank| blank.index >= self.held_start && blank.depth <= outside)
            .map(|blank| blank.index);
        let index = match blank {
            Some(index) => index,
            None => self.before_last_ending(),
        };
        self.settle_to(index)?;
        if blank.is_none() {
            self.make_filled(index);
        }
        self.exit_before_held(name)
    }

    /// Returns how many pieces are held before the last line ending, if there is one.
    fn before_last_ending(&self) -> usize {
        match self.held.as_slice() {
            [before @ .., last]
                if matches!(
                    last.kind,
                    PieceKind::LineEnding | PieceKind::BlankLineEnding
                ) => { before.len() }
            held => held.len(),
        }
    }

    /// Ends an item that began blank, and was followed by a blank line. The line of its marker is
    /// the first of the lines that are held as blank, but is not blank outside the item.
    pub fn exit_blank_item(&mut self) -> Result<(), AllocError>
        requires { Stands self.old }
        ensures stands { OnOk result (Stands self.new) }
        ensures cursor { self.new.cursor ≡ self.old.cursor }
        ensures opens { (a b : Stage) → (outer : List Enclosing) → Opens self.old (at a (inside ListItem b outer)) → OnOk result (IfSome (exited a b (role_of ListItem)) (λ c. Opens self.new (at c outer))) }
    {
        if let Some(first) = self.blanks.first().copied() {
            self.make_filled(first.index);
        }
        self.exit_before_held(Name::ListItem)
    }

    /// Changes a held line ending to that of a line that is not blank.
    fn make_filled(&mut self, index: usize)
        requires { Stands self.old }
        ensures stands { Stands self.new }
        ensures cursor { self.new.cursor ≡ self.old.cursor }
        ensures opens { (s : State) → Opens self.old s → Opens self.new s }
    {
        if let Some(piece) = self.held.get_mut(index) {
            if let PieceKind::BlankLineEnding = piece.kind {
                piece.kind = PieceKind::LineEnding;
            }
        }
    }

    /// Adds a piece of the current line, which ends at a place.
    fn push(&mut self, piece: Piece, cursor: Cursor<'d>) -> Result<(), AllocError>
        requires writes { Writes self.old }
        requires extent { cursor.extent ≡ self.old.cursor.extent }
        requires end { end_of piece ≡ spot cursor }
        requires on { IsOn (constructs_of self.old) piece.kind }
        requires goes { Goes (document_of self.old) piece.kind (spot self.old.cursor) (spot cursor) }
        requires place { IsPlaceIn cursor }
        ensures writes { OnOk result (Writes self.new) }
        ensures cursor { OnOk result (self.new.cursor ≡ cursor.entry) }
        ensures opens { (a : Stage) → (outer : List Enclosing) → Opens self.old (at a outer) → OnOk result (IfSome (stage_after a piece.kind) (λ b. Opens self.new (at b outer))) }
    {
        self.pieces.push(piece)?;
        self.cursor.offset = cursor.offset;
        self.cursor.virtual_spaces = cursor.virtual_spaces;
        Ok(())
    }

    /// Begins a span after the settled pieces.
    pub fn enter(&mut self, name: Name) -> Result<(), AllocError>
        requires writes { Writes self.old }
        requires on { is_on (constructs_of self.old) name ≡ true }
        requires begins { MayBegin (document_of self.old) name (spot self.old.cursor) }
        ensures writes { OnOk result (Writes self.new) }
        ensures cursor { self.new.cursor ≡ self.old.cursor }
        ensures opens { (a : Stage) → (outer : List Enclosing) → Opens self.old (at a outer) → OnOk result (IfSome (entered a (role_of name)) (λ b. Opens self.new (at b (inside name a outer)))) }
    {
        let piece = self.at_end(PieceKind::Enter(name));
        self.pieces.push(piece)?;
        Ok(())
    }

    /// Ends a span in the current line.
    pub fn exit(&mut self, name: Name) -> Result<(), AllocError>
        requires { Writes self.old }
        ensures writes { OnOk result (Writes self.new) }
        ensures cursor { self.new.cursor ≡ self.old.cursor }
        ensures opens { (a b : Stage) → (outer : List Enclosing) → Opens self.old (at a (inside name b outer)) → OnOk result (IfSome (exited a b (role_of name)) (λ c. Opens self.new (at c outer))) }
    {
        self.exit_before_held(name)
    }

    /// Ends a span after the settled pieces, before the held ones.
    pub fn exit_before_held(&mut self, name: Name) -> Result<(), AllocError>
        requires { Stands self.old }
        ensures stands { OnOk result (Stands self.new) }
        ensures writes { Writes self.old → OnOk result (Writes self.new) }
        ensures cursor { self.new.cursor ≡ self.old.cursor }
        ensures opens { (a b : Stage) → (outer : List Enclosing) → Opens self.old (at a (inside name b outer)) → OnOk result (IfSome (exited a b (role_of name)) (λ c. Opens self.new (at c outer))) }
    {
        let piece = self.at_end(PieceKind::Exit(name));
        self.pieces.push(piece)?;
        Ok(())
    }

    /// Returns a piece that has no length, after the settled pieces.
    fn at_end(&self, kind: PieceKind) -> Piece
        ensures kind { result.kind ≡ kind }
        ensures end { end_of result ≡ end_from origin self.now.pieces.items }
    {
        match self.pieces.last() {
            Some(last) => Piece { kind, ..*last },
            None => Piece::new(kind, 0),
        }
    }

    /// Returns the rest of the current line, without its ending.
    pub fn rest(&self) -> &'d [u8]
        requires { Writes self.now }
        ensures length { length result.now ≡ self.now.cursor.extent.end - self.now.cursor.offset }
        ensures bytes { result.now ≡ slice_range (document_of self.now) self.now.cursor.offset self.now.cursor.extent.end }
    {
        self.cursor.rest()
    }

    /// Adds a piece of `size` bytes of the line, unless it would be empty.
    pub fn part(&mut self, kind: PieceKind, size: usize) -> Result<(), AllocError>
        requires writes { Writes self.old }
        requires kind { IsToken kind }
        requires on { IsAlwaysOn kind }
        requires cut { IsCut (rest_of self.old) size }
        ensures writes { OnOk result (Writes self.new) }
        ensures extent { OnOk result (self.new.cursor.extent ≡ self.old.cursor.extent) }
        ensures offset { OnOk result (self.new.cursor.offset ≡ self.old.cursor.offset + min size (self.old.cursor.extent.end - self.old.cursor.offset)) }
        ensures rest { OnOk result (rest_of self.new ≡ drop size (rest_of self.old)) }
        ensures same { (a : Stage) → stage_after a kind ≡ Some a → Keeps result a self.old self.new }
        ensures filled { (a : Stage) → (outer : List Enclosing) → 0 < size → self.old.cursor.offset < self.old.cursor.extent.end → Opens self.old (at a outer) → OnOk result (IfSome (stage_after a kind) (λ b. Opens self.new (at b outer))) }
    {
        let cursor = self.cursor.after(size);
        if cursor.offset == self.cursor.offset {
            return Ok(());
        }
        self.push(Piece::new(kind, cursor.offset), cursor)?;
        Ok(())
    }

    /// Adds a span of `size` bytes of the line that contains no span, unless it would be empty.
    pub fn token(&mut self, name: Name, size: usize) -> Result<(), AllocError>
        requires writes { Writes self.old }
        requires plain { IsPlain name }
        requires on { IsAlwaysOn (Token name) }
        requires cut { IsCut (rest_of self.old) size }
        ensures writes { OnOk result (Writes self.new) }
        ensures extent { OnOk result (self.new.cursor.extent ≡ self.old.cursor.extent) }
        ensures offset { OnOk result (self.new.cursor.offset ≡ self.old.cursor.offset + min size (self.old.cursor.extent.end - self.old.cursor.offset)) }
        ensures rest { OnOk result (rest_of self.new ≡ drop size (rest_of self.old)) }
        ensures same { (a : Stage) → after_token a name ≡ Some a → Keeps result a self.old self.new }
        ensures filled { (a : Stage) → (outer : List Enclosing) → 0 < size → self.old.cursor.offset < self.old.cursor.extent.end → Opens self.old (at a outer) → OnOk result (IfSome (after_token a name) (λ b. Opens self.new (at b outer))) }
    {
        self.part(PieceKind::Token(name), size)
    }

    /// Adds the sequence that opens a heading: `size` bytes of the line, which has as many.
    pub fn opening_sequence(&mut self, size: usize) -> Result<(), AllocError>
        requires writes { Writes self.old }
        requires least { 0 < size }
        requires most { size ≤ 6 }
        requires fits { size ≤ length (rest_of self.old) }
        requires cut { IsCut (rest_of self.old) size }
        requires whole { self.old.cursor.virtual_spaces ≡ 0 }
        ensures writes { OnOk result (Writes self.new) }
        ensures extent { OnOk result (self.new.cursor.extent ≡ self.old.cursor.extent) }
        ensures opens { (outer : List Enclosing) → Opens self.old (at heading_atx outer) → OnOk result (Opens self.new (at (inlines true) outer)) }
    {
        let cursor = self.cursor.after(size);
        self.push(
            Piece::new(PieceKind::OpeningSequence, cursor.offset),
            cursor,
        )
    }

    /// Adds a span of the rest of the line that contains no span, unless it would be empty.
    pub fn token_of_rest(&mut self, name: Name) -> Result<(), AllocError>
        requires writes { Writes self.old }
        requires plain { IsPlain name }
        requires on { IsAlwaysOn (Token name) }
        ensures writes { OnOk result (Writes self.new) }
        ensures extent { OnOk result (self.new.cursor.extent ≡ self.old.cursor.extent) }
        ensures ended { OnOk result (self.new.cursor.offset ≡ self.new.cursor.extent.end) }
        ensures same { (a : Stage) → after_token a name ≡ Some a → Keeps result a self.old self.new }
    {
        self.token(name, self.cursor.extent.end)
    }

    /// Adds a span of the white space that is next in the line, unless there is none.
    #[inline(always)]
    pub fn white_space(&mut self) -> Result<(), AllocError>
        requires writes { Writes self.old }
        ensures writes { OnOk result (Writes self.new) }
        ensures extent { OnOk result (self.new.cursor.extent ≡ self.old.cursor.extent) }
        ensures order { OnOk result (self.old.cursor.offset ≤ self.new.cursor.offset) }
        ensures text { OnOk result (self.new.cursor.extent.end - self.new.cursor.offset ≡ length (text_of self.old)) }
        ensures rest { OnOk result (rest_of self.new ≡ text_of self.old) }
        ensures whole { OnOk result (self.new.cursor.virtual_spaces ≡ 0) }
        ensures same { (a : Stage) → Keeps result a self.old self.new }
    {
        let rest = self.rest();
        self.token(Name::SpaceOrTab, rest.len() - after_spaces(rest).len())?;
        Ok(())
    }

    /// Adds a span with a part of a content in it, of `size` bytes of the line, unless it would be
    /// empty.
    pub fn string(&mut self, name: Name, size: usize) -> Result<(), AllocError>
        requires writes { Writes self.old }
        requires on { IsAlwaysOn (Enter name) }
        requires begins { MayBegin (document_of self.old) name (spot self.old.cursor) }
        requires cut { IsCut (rest_of self.old) size }
        ensures writes { OnOk result (Writes self.new) }
        ensures extent { OnOk result (self.new.cursor.extent ≡ self.old.cursor.extent) }
        ensures order { OnOk result (self.old.cursor.offset ≤ self.new.cursor.offset) }
        ensures most { OnOk result (self.new.cursor.offset ≤ self.old.cursor.offset + size) }
        ensures rest { OnOk result (rest_of self.new ≡ drop size (rest_of self.old)) }
        ensures same { (a : Stage) → stage_after_string a name ≡ Some a → Keeps result a self.old self.new }
        ensures less { (a : Stage) → (outer : List Enclosing) → Opens self.old (at a outer) → OnOk result (IfSome (stage_after_string a name) (λ b. skips a b ≡ true → Opens self.new (at b outer))) }
        ensures filled { (a : Stage) → (outer : List Enclosing) → 0 < size → self.old.cursor.offset < self.old.cursor.extent.end → Opens self.old (at a outer) → OnOk result (IfSome (stage_after_string a name) (λ b. Opens self.new (at b outer))) }
    {
        if size == 0 || self.rest().is_empty() {
            return Ok(());
        }
        self.enter(name)?;
        self.part(PieceKind::Text, size)?;
        self.exit(name)?;
        Ok(())
    }

    /// Adds a span up to the cursor of the current line that contains no span, unless it would be
    /// empty.
    pub fn token_to(&mut self, name: Name, line: &Line<'d>) -> Result<(), AllocError>
        requires writes { Writes self.old }
        requires same { IsLater self.old.cursor line.now }
        requires on { IsAlwaysOn (Token name) }
        requires cut { spot_in line.now ≢ spot self.old.cursor → EndsCharacter (document_of self.old) name (line.now.end - length line.now.rest.now) }
        requires value { HasValue (document_of self.old) name (spot self.old.cursor) (spot_in line.now) }
        ensures writes { OnOk result (Writes self.new) }
        ensures at { OnOk result (IsAt self.new.cursor line.now) }
        ensures same { (a : Stage) → after_token a name ≡ Some a → Keeps result a self.old self.new }
        ensures filled { (a : Stage) → (outer : List Enclosing) → self.old.cursor.offset < line.now.end - length line.now.rest.now → Opens self.old (at a outer) → OnOk result (IfSome (after_token a name) (λ b. Opens self.new (at b outer))) }
    {
        let cursor = Cursor::of(line);
        if cursor.offset == self.cursor.offset
            && cursor.virtual_spaces == self.cursor.virtual_spaces
        {
            return Ok(());
        }
        self.push(piece_to(PieceKind::Token(name), line), cursor)
    }

    /// Moves the cursor of the current line over up to `columns` columns of white space, which are
    /// settled.
    pub fn columns(&mut self, line: &mut Line<'d>, columns: usize) -> Result<(), AllocError>
        requires writes { Writes self.old }
        requires at { IsAt self.old.cursor line.old }
        ensures writes { OnOk result (Writes self.new) }
        ensures at { OnOk result (IsAt self.new.cursor line.new) }
        ensures moved { HasMoved line.old line.new }
        ensures same { (a : Stage) → Keeps result a self.old self.new }
        ensures text { line.new.text ≡ line.old.text }
        ensures indent { line.new.indent ≡ line.old.indent - columns }
    {
        if columns == 0 {
            return Ok(());
        }
        line.skip_columns(columns);
        self.token_to(Name::SpaceOrTab, line)
    }

    /// Returns all pieces, and the identifiers.
    pub fn finish(self) -> Result<(Vec<Piece>, Identifiers), AllocError>
        requires { Stands self }
        ensures tiles { IfOk result (λ found. Tiles (document_of self.entry) origin found.0.items (spot self.entry.cursor)) }
        ensures on { IfOk result (λ found. AreOn (constructs_of self.entry) found.0.items) }
        ensures opens { (a : Stage) → (outer : List Enclosing) → takes_line_endings a ≡ true → Opens self.entry (at a outer) → IfOk result (λ found. Walks start found.0.items (at a outer)) }
    {
        let mut output = self;
        output.settle()?;
        let Output {
            alloc: _,
            identifiers,
            pieces,
            held: _,
            held_start: _,
            blanks: _,
            cursor: _,
        } = output;
        Ok((pieces, identifiers))
    }
}
