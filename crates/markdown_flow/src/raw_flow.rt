//! Code and math between fences (micromark, raw flow).

ghost use Rattle.std.specs.Prelude.{Bool, List, MatchOption, OnOk, IfOk, IfSome, Some, drop, false, true, ◌≡◌, ◌<◌};
ghost use Rattle.commonmark_syntax.specs.Blocks.{closing_fence};
ghost use Rattle.commonmark_syntax.specs.Cuts.{IsCut};
ghost use Rattle.commonmark_syntax.specs.Language.{IsNotAt, Leaves};
ghost use Rattle.event_writer.specs.Stages.{Enclosing, Stage, skips};
ghost use Rattle.markdown_flow.specs.Outputs.{IsAt, Keeps, Opens, Stands, Writes, WritesOut, constructs_in, constructs_of, document_of, is_indented, spot, text_of};
ghost use Rattle.markdown_pieces.specs.Spans.{IsAlwaysOn};
ghost use Rattle.markdown_pieces.specs.declared.piece.PieceKind.TheVariants.{Enter, Token};
ghost use Rattle.markdown_pieces.specs.Tilings.{IsPlain, MayBegin};
ghost use Rattle.markdown_pieces.specs.Walks.{after_token, at, stage_after_string};

use crate::line::Line;
use crate::output::Output;
use crate::{code_fenced, math_flow};
use commonmark_syntax::bytes::trimmed_size;
use commonmark_syntax::closing_fence;
use markdown_events::event::Name;
use std::alloc::AllocError;

/// The content between fences.
#[derive(Clone, Copy)]
pub enum RawFlow {
    /// Code.
    Code,
    /// Math.
    Math,
}

/// An opening fence.
#[derive(Clone, Copy)]
pub struct Fence {
    /// The content after it.
    pub content: RawFlow,
    /// Its sign.
    pub sign: u8,
    /// How many signs it has.
    pub size: usize,
    /// How many columns it is indented: white space up to that is not part of the lines after it.
    pub indent: usize,
    ghost ascii: { sign < 128 },
}

/// What a line after an opening fence is.
#[derive(Clone, Copy, PartialEq, Eq)]
pub enum FencedLine {
    /// The closing fence.
    Closing,
    /// An empty line.
    Empty,
    /// A line that is not empty.
    Chunk,
}

impl Fence {
    ghost use Rattle.markdown_options.specs.Spans.{is_on};
    ghost use Rattle.markdown_flow.specs.Leaves.{after_fenced, in_flow, in_raw, raw_name};

    /// Returns the fence that a line opens, if it opens one.
    pub fn find(line: &Line<'_>) -> Option<Fence>
        ensures cut { IfSome result (λ fence. IsCut line.now.text.now fence.size) }
        ensures on { IfSome result (λ fence. is_on (constructs_in line.now) (raw_name fence.content) ≡ true) }
    {
        match line.text().first()? {
            b'`' | b'~' => code_fenced::begins(line),
            b'$' => math_flow::begins(line),
            _ => None,
        }
    }

    /// Writes the line of an opening fence.
    pub fn open(self, output: &mut Output<'_>) -> Result<(), AllocError>
        requires writes { Writes output.old }
        requires cut { IsCut (text_of output.old) self.size }
        requires on { is_on (constructs_of output.old) (raw_name self.content) ≡ true }
        ensures written { OnOk result (WritesOut output.old output.new) }
        ensures opens { (n : Bool) → (outer : List Enclosing) → Opens output.old (in_flow n outer) → OnOk result (Opens output.new (in_raw self.content n outer)) }
    {
        output.white_space()?;
        match self.content {
            RawFlow::Code => code_fenced::open(self.size, output),
            RawFlow::Math => math_flow::open(self.size, output),
        }
    }

    /// Writes a line after an opening fence, and returns what it is.
    pub fn write_line<'d>(
        self,
        line: &mut Line<'d>,
        output: &mut Output<'d>,
    ) -> Result<FencedLine, AllocError>
        requires writes { Writes output.old }
        requires at { IsAt output.old.cursor line.old }
        ensures written { OnOk result (WritesOut output.old output.new) }
        ensures opens { (n : Bool) → (outer : List Enclosing) → Opens output.old (in_raw self.content n outer) → IfOk result (λ found. Opens output.new (after_fenced found self.content n outer)) }
    {
        if let Some(size) = self.closing(line) {
            self.close(size, output)?;
            return Ok(FencedLine::Closing);
        }
        output.columns(line, self.indent)?;
        self.write_chunk(output)?;
        Ok(if line.rest().is_empty() {
            FencedLine::Empty
        } else {
            FencedLine::Chunk
        })
    }

    /// Writes the rest of a line between the fences.
    fn write_chunk(self, output: &mut Output<'_>) -> Result<(), AllocError>
        requires { Writes output.old }
        ensures written { OnOk result (WritesOut output.old output.new) }
        ensures opens { (n : Bool) → (outer : List Enclosing) → Opens output.old (in_raw self.content n outer) → OnOk result (Opens output.new (in_raw self.content n outer)) }
    {
        match self.content {
            RawFlow::Code => output.token_of_rest(Name::CodeFlowChunk),
            RawFlow::Math => output.token_of_rest(Name::MathFlowChunk),
        }
    }

    /// Returns the number of signs of the closing fence, if the line has it (CommonMark).
    fn closing(self, line: &Line<'_>) -> Option<usize>
        ensures cut { IfSome result (λ size. IsCut line.now.text.now size) }
        ensures exact { is_indented line.now ≡ false → MatchOption result (IsNotAt (closing_fence self.sign self.size) line.now.text.now) (λ size. Leaves (closing_fence self.sign self.size) line.now.text.now (drop size line.now.text.now)) }
    {
        if line.is_indented() {
            return None;
        }
        closing_fence::scan(line.text(), self.sign, self.size)
    }

    /// Writes the line of a closing fence of `size` signs.
    fn close(self, size: usize, output: &mut Output<'_>) -> Result<(), AllocError>
        requires writes { Writes output.old }
        requires cut { IsCut (text_of output.old) size }
        ensures written { OnOk result (WritesOut output.old output.new) }
        ensures opens { (n : Bool) → (outer : List Enclosing) → Opens output.old (in_raw self.content n outer) → OnOk result (Opens output.new (in_flow n outer)) }
    {
        match self.content {
            RawFlow::Code => code_fenced::close(size, output),
            RawFlow::Math => math_flow::close(size, output),
        }
    }

    /// Writes the end of the construct, before the held pieces.
    pub fn end(self, output: &mut Output<'_>) -> Result<(), AllocError>
        requires { Stands output.old }
        ensures stands { OnOk result (Stands output.new) }
        ensures cursor { output.new.cursor ≡ output.old.cursor }
        ensures opens { (n : Bool) → (outer : List Enclosing) → Opens output.old (in_raw self.content n outer) → OnOk result (Opens output.new (in_flow n outer)) }
    {
        match self.content {
            RawFlow::Code => output.exit_before_held(Name::CodeFenced),
            RawFlow::Math => output.exit_before_held(Name::MathFlow),
        }
    }
}

/// Writes the signs of a closing fence, which end the line.
pub fn write_closing(name: Name, size: usize, output: &mut Output<'_>) -> Result<(), AllocError>
    requires writes { Writes output.old }
    requires plain { IsPlain name }
    requires on { IsAlwaysOn (Token name) }
    requires cut { IsCut (text_of output.old) size }
    ensures written { OnOk result (WritesOut output.old output.new) }
    ensures opens { (a : Stage) → after_token a name ≡ Some a → Keeps result a output.old output.new }
{
    output.white_space()?;
    output.token(name, size)?;
    output.token_of_rest(Name::SpaceOrTab)
}

/// Writes the meta of a fence, which ends the line. White space after it is not part of it
/// (CommonMark).
pub fn write_meta(name: Name, output: &mut Output<'_>) -> Result<(), AllocError>
    requires writes { Writes output.old }
    requires on { IsAlwaysOn (Enter name) }
    requires begins { MayBegin (document_of output.old) name (spot output.old.cursor) }
    ensures written { OnOk result (WritesOut output.old output.new) }
    ensures opens { (a : Stage) → (outer : List Enclosing) → Opens output.old (at a outer) → OnOk result (IfSome (stage_after_string a name) (λ b. skips a b ≡ true → Opens output.new (at b outer))) }
{
    let size = trimmed_size(output.rest());
    output.string(name, size)?;
    output.token_of_rest(Name::SpaceOrTab)
}
