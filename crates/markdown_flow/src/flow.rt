//! Flow: the open leaf, and what a line does to it (micromark).

ghost use Rattle.std.specs.Prelude.{Bool, List, [], OnOk, IfOk, length, ◌≡◌, ◌<◌, true, false};
ghost use Rattle.std.specs.Str.{IsAscii};
ghost use Rattle.commonmark_syntax.specs.Cuts.{IsCut};
ghost use Rattle.event_writer.specs.Stages.{Enclosing};
ghost use Rattle.markdown_flow.specs.Outputs.{IsAt, Opens, Stands, Writes, WritesOut, Reads, constructs_in, line_after, next_of, source_of, spot};
ghost use Rattle.markdown_flow.specs.Flows.{LeadsOn, OpensIn, StandsWith, end_with};
ghost use Rattle.markdown_flow.specs.Leaves.{after_fenced, in_flow, in_leaf, in_raw};
ghost use Rattle.markdown_flow.specs.Starts.{IsStart};
ghost use Rattle.markdown_flow.specs.declared.leaf.Leaf.TheVariants as leaves;

use crate::content::Content;
use crate::html_flow::Html;
use crate::input::Input;
use crate::leaf::{Leaf, LeafStart};
use crate::line::Line;
use crate::output::Output;
use crate::raw_flow::{Fence, FencedLine};
use crate::{
    blank_line, code_indented, definition_pieces, gfm_table, heading_atx, heading_setext,
    paragraph, thematic_break,
};
use markdown_events::event::Name;
use std::alloc::{AllocError, Global};

/// The open leaf, with its kept lines.
#[derive(Drop)]
pub struct Flow<'d> {
    /// The allocator.
    alloc: Global,
    /// The leaf.
    leaf: Leaf,
    /// The lines of a paragraph, or the last blank lines after indented code.
    content: Content<'d>,
}

impl<'d> Flow<'d> {
    /// Returns no open leaf.
    pub fn new(alloc: Global) -> Flow<'d>
        ensures content { result.content.lines.items ≡ [] }
        ensures leaf { result.leaf ≡ leaves.None }
    {
        Flow {
            alloc,
            leaf: Leaf::None,
            content: Content::new(alloc),
        }
    }

    /// Whether a paragraph is open.
    pub fn is_paragraph(&self) -> bool
        ensures { result ≡ true → self.now.leaf ≡ leaves.Paragraph }
    {
        matches!(self.leaf, Leaf::Paragraph)
    }

    /// Whether a leaf is open in which no container can begin (micromark, concrete constructs).
    pub fn is_concrete(&self) -> bool {
        matches!(self.leaf, Leaf::RawFlow { .. } | Leaf::Html(_))
    }

    /// Ends the leaf before the held line ending.
    pub fn close(&mut self, output: &mut Output<'d>) -> Result<(), AllocError>
        requires { StandsWith self.old output.old }
        ensures stands { OnOk result (Stands output.new) }
        ensures none { OnOk result (self.new.content.lines.items ≡ []) }
        ensures source { OnOk result (source_of output.new ≡ source_of output.old) }
        ensures spot { OnOk result (spot output.new.cursor ≡ end_with self.old output.old) }
        ensures leaf { OnOk result (self.new.leaf ≡ leaves.None) }
        ensures opens { (n : Bool) → (outer : List Enclosing) → OpensIn self.old output.old n outer → OnOk result (Opens output.new (in_flow n outer)) }
    {
        self.end_leaf(output)?;
        self.content.clear();
        self.leaf = Leaf::None;
        Ok(())
    }

    /// Writes the end of the leaf, with its kept lines.
    fn end_leaf(&self, output: &mut Output<'d>) -> Result<(), AllocError>
        requires { StandsWith self.now output.old }
        ensures stands { OnOk result (Stands output.new) }
        ensures source { OnOk result (source_of output.new ≡ source_of output.old) }
        ensures spot { OnOk result (spot output.new.cursor ≡ end_with self.now output.old) }
        ensures opens { (n : Bool) → (outer : List Enclosing) → OpensIn self.now output.old n outer → OnOk result (Opens output.new (in_flow n outer)) }
    {
        match self.leaf {
            Leaf::None => Ok(()),
            Leaf::Paragraph => {
                let lines = self.content.lines();
                paragraph::write(self.alloc, &self.content, lines, output)
            }
            Leaf::CodeIndented => {
                output.exit_before_held(Name::CodeIndented)?;
                blank_line::hold_kept(&self.content, output)
            }
            // An empty line at the end counts as a line only if its ending is in the span.
            Leaf::RawFlow { fence, ends_empty } if ends_empty => {
                output.settle()?;
                fence.end(output)
            }
            Leaf::RawFlow { fence, .. } => fence.end(output),
            Leaf::Html(_) => output.exit_before_held(Name::HtmlFlow),
            Leaf::Table { has_body } => gfm_table::end(has_body, output),
        }
    }

    /// Ends the leaf at the end of the document, or before a container that is not in it. Code,
    /// math and some HTML take the held line ending (micromark).
    pub fn flush(&mut self, output: &mut Output<'d>) -> Result<(), AllocError>
        requires { StandsWith self.old output.old }
        ensures stands { OnOk result (Stands output.new) }
        ensures none { OnOk result (self.new.content.lines.items ≡ []) }
        ensures source { OnOk result (source_of output.new ≡ source_of output.old) }
        ensures spot { OnOk result (spot output.new.cursor ≡ end_with self.old output.old) }
        ensures leaf { OnOk result (self.new.leaf ≡ leaves.None) }
        ensures opens { (n : Bool) → (outer : List Enclosing) → OpensIn self.old output.old n outer → OnOk result (Opens output.new (in_flow n outer)) }
    {
        if self.takes_ending() {
            output.settle()?;
            return self.close(output);
        }
        self.close(output)
    }

    /// Whether the leaf takes the held line ending when it is flushed.
    fn takes_ending(&self) -> bool {
        match self.leaf {
            Leaf::RawFlow { .. } => true,
            Leaf::Html(html) => !html.ends_at_blank_line(),
            _ => false,
        }
    }

    /// Adds a line that is not in all its containers to a paragraph, if possible, and returns
    /// whether it did (CommonMark, lazy continuation lines).
    pub fn continue_lazily(
        &mut self,
        input: &mut Input<'d>,
        output: &Output<'d>,
    ) -> Result<bool, AllocError>
        requires stands { StandsWith self.old output.now }
        requires reads { Reads (source_of output.now) (end_with self.old output.now) input.old }
        ensures stands { OnOk result (StandsWith self.new output.now) }
        ensures yes { IfOk result (λ r. r ≡ true → (end_with self.new output.now ≡ next_of input.old.line) × (input.new.prefix.items ≡ [])) }
        ensures no { IfOk result (λ r. r ≡ false → (self.new ≡ self.old) × (input.new ≡ input.old)) }
        ensures line { input.new.line ≡ input.old.line }
        ensures leaf { self.new.leaf ≡ self.old.leaf }
    {
        let is_text = !input.line.is_blank() && LeafStart::find(&input.line, true).is_none();
        if !self.is_paragraph() || !is_text {
            return Ok(false);
        }
        self.content.keep(input)?;
        Ok(true)
    }

    /// Reads a line that is in all open containers.
    pub fn line(&mut self, input: &mut Input<'d>, output: &mut Output<'d>) -> Result<(), AllocError>
        requires stands { StandsWith self.old output.old }
        requires reads { Reads (source_of output.old) (end_with self.old output.old) input.old }
        ensures stands { OnOk result (StandsWith self.new output.new) }
        ensures source { OnOk result (source_of output.new ≡ source_of output.old) }
        ensures end { OnOk result (end_with self.new output.new ≡ next_of input.old.line) }
        ensures taken { OnOk result (input.new.prefix.items ≡ []) }
        ensures opens { LeadsOn result self.old self.new output.old output.new }
    {
        match self.leaf {
            Leaf::None => self.start(input, output),
            Leaf::Paragraph => self.paragraph_line(input, output),
            Leaf::CodeIndented => self.code_line(input, output),
            Leaf::RawFlow { fence, .. } => self.raw_line(fence, input, output),
            Leaf::Html(html) if html.ends_at_blank_line() && input.line.is_blank() => {
                self.restart(input, output)
            }
            Leaf::Html(html) => self.html_line(html, input, output),
            Leaf::Table { has_body } => self.table_line(has_body, input, output),
        }
    }

    /// Ends the current line, after which this leaf is open.
    fn go_on(&mut self, leaf: Leaf, output: &mut Output<'d>) -> Result<(), AllocError>
        requires writes { Writes output.old }
        requires ended { output.old.cursor.offset ≡ output.old.cursor.extent.end }
        requires none { self.old.content.lines.items ≡ [] }
        ensures stands { OnOk result (StandsWith self.new output.new) }
        ensures source { OnOk result (source_of output.new ≡ source_of output.old) }
        ensures end { OnOk result (end_with self.new output.new ≡ line_after output.old.cursor) }
        ensures opens { (n : Bool) → (outer : List Enclosing) → Opens output.old (in_leaf leaf n outer) → OnOk result (OpensIn self.new output.new n outer) }
    {
        self.leaf = leaf;
        output.end_line()
    }

    /// Ends the leaf, and reads the line again.
    fn restart(&mut self, input: &mut Input<'d>, output: &mut Output<'d>) -> Result<(), AllocError>
        requires stands { StandsWith self.old output.old }
        requires reads { Reads (source_of output.old) (end_with self.old output.old) input.old }
        ensures stands { OnOk result (StandsWith self.new output.new) }
        ensures source { OnOk result (source_of output.new ≡ source_of output.old) }
        ensures end { OnOk result (end_with self.new output.new ≡ next_of input.old.line) }
        ensures taken { OnOk result (input.new.prefix.items ≡ []) }
        ensures opens { LeadsOn result self.old self.new output.old output.new }
    {
        self.close(output)?;
        self.start(input, output)
    }

    /// Reads a line when no leaf is open.
    fn start(&mut self, input: &mut Input<'d>, output: &mut Output<'d>) -> Result<(), AllocError>
        requires stands { Stands output.old }
        requires leaf { self.old.leaf ≡ leaves.None }
        requires none { self.old.content.lines.items ≡ [] }
        requires reads { Reads (source_of output.old) (spot output.old.cursor) input.old }
        ensures stands { OnOk result (StandsWith self.new output.new) }
        ensures source { OnOk result (source_of output.new ≡ source_of output.old) }
        ensures end { OnOk result (end_with self.new output.new ≡ next_of input.old.line) }
        ensures taken { OnOk result (input.new.prefix.items ≡ []) }
        ensures opens { (n : Bool) → (outer : List Enclosing) → Opens output.old (in_flow n outer) → OnOk result (OpensIn self.new output.new n outer) }
    {
        if input.line.is_blank() {
            return output.hold_blank(input);
        }
        match LeafStart::find(&input.line, false) {
            Some(start) => self.open(start, input, output),
            None => {
                output.begin(input)?;
                self.leaf = Leaf::Paragraph;
                self.content.keep(input)?;
                Ok(())
            }
        }
    }

    /// Writes the first line of a leaf that is not a paragraph.
    fn open(
        &mut self,
        start: LeafStart,
        input: &mut Input<'d>,
        output: &mut Output<'d>,
    ) -> Result<(), AllocError>
        requires stands { Stands output.old }
        requires start { IsStart start input.old.line }
        requires none { self.old.content.lines.items ≡ [] }
        requires reads { Reads (source_of output.old) (spot output.old.cursor) input.old }
        ensures stands { OnOk result (StandsWith self.new output.new) }
        ensures source { OnOk result (source_of output.new ≡ source_of output.old) }
        ensures end { OnOk result (end_with self.new output.new ≡ next_of input.old.line) }
        ensures taken { OnOk result (input.new.prefix.items ≡ []) }
        ensures opens { (n : Bool) → (outer : List Enclosing) → Opens output.old (in_flow n outer) → OnOk result (OpensIn self.new output.new n outer) }
    {
        output.begin(input)?;
        let leaf = write_first(start, &mut input.line, output)?;
        self.go_on(leaf, output)
    }

    /// Reads a line after a line of a paragraph.
    fn paragraph_line(
        &mut self,
        input: &mut Input<'d>,
        output: &mut Output<'d>,
    ) -> Result<(), AllocError>
        requires stands { StandsWith self.old output.old }
        requires leaf { self.old.leaf ≡ leaves.Paragraph }
        requires reads { Reads (source_of output.old) (end_with self.old output.old) input.old }
        ensures stands { OnOk result (StandsWith self.new output.new) }
        ensures source { OnOk result (source_of output.new ≡ source_of output.old) }
        ensures end { OnOk result (end_with self.new output.new ≡ next_of input.old.line) }
        ensures taken { OnOk result (input.new.prefix.items ≡ []) }
        ensures opens { LeadsOn result self.old self.new output.old output.new }
    {
        if input.line.is_blank() {
            return self.restart(input, output);
        }
        if let Some(size) = heading_setext::underline(&input.line) {
            return self.underline(size, input, output);
        }
        if let Some(start) = LeafStart::find(&input.line, true) {
            self.close(output)?;
            return self.open(start, input, output);
        }
        if self.is_table_head(&input.line) {
            return self.table_head(input, output);
        }
        self.content.keep(input)?;
        Ok(())
    }

    /// Reads an underline of `size` signs. If all lines above it are definitions, it is text
    /// (CommonMark).
    fn underline(
        &mut self,
        size: usize,
        input: &mut Input<'d>,
        output: &mut Output<'d>,
    ) -> Result<(), AllocError>
        requires stands { StandsWith self.old output.old }
        requires leaf { self.old.leaf ≡ leaves.Paragraph }
        requires on { (constructs_in input.old.line).heading_setext ≡ true }
        requires filled { 0 < size }
        requires text { 0 < length input.old.line.text.now }
        requires cut { IsCut input.old.line.text.now size }
        requires reads { Reads (source_of output.old) (end_with self.old output.old) input.old }
        ensures stands { OnOk result (StandsWith self.new output.new) }
        ensures source { OnOk result (source_of output.new ≡ source_of output.old) }
        ensures end { OnOk result (end_with self.new output.new ≡ next_of input.old.line) }
        ensures taken { OnOk result (input.new.prefix.items ≡ []) }
        ensures opens { LeadsOn result self.old self.new output.old output.new }
    {
        let lines = self.content.lines();
        let rest = definition_pieces::write(self.alloc, &self.content, lines, output)?;
        let [first, later @ ..] = rest else {
            self.content.clear();
            output.begin(input)?;
            self.content.keep(input)?;
            return Ok(());
        };
        heading_setext::write(&self.content, first, later, size, input, output)?;
        self.content.clear();
        self.go_on(Leaf::None, output)
    }

    /// Whether a line makes the last line of the paragraph the head of a table.
    fn is_table_head(&self, line: &Line<'d>) -> bool
        ensures some { result ≡ true → 0 < length self.now.content.lines.items }
        ensures ascii { result ≡ true → IsAscii line.now.text.now }
        ensures on { result ≡ true → (constructs_in line.now).gfm_table ≡ true }
    {
        match self.content.lines().last() {
            Some(header) => gfm_table::begins(&header.line, line),
            None => false,
        }
    }

    /// Reads the delimiter row of a table.
    fn table_head(
        &mut self,
        input: &mut Input<'d>,
        output: &mut Output<'d>,
    ) -> Result<(), AllocError>
        requires stands { StandsWith self.old output.old }
        requires leaf { self.old.leaf ≡ leaves.Paragraph }
        requires some { 0 < length self.old.content.lines.items }
        requires ascii { IsAscii input.old.line.text.now }
        requires on { (constructs_in input.old.line).gfm_table ≡ true }
        requires reads { Reads (source_of output.old) (end_with self.old output.old) input.old }
        ensures stands { OnOk result (StandsWith self.new output.new) }
        ensures source { OnOk result (source_of output.new ≡ source_of output.old) }
        ensures end { OnOk result (end_with self.new output.new ≡ next_of input.old.line) }
        ensures taken { OnOk result (input.new.prefix.items ≡ []) }
        ensures opens { LeadsOn result self.old self.new output.old output.new }
    {
        let [before @ .., header] = self.content.lines() else {
            return Ok(());
        };
        paragraph::write(self.alloc, &self.content, before, output)?;
        gfm_table::open(&self.content, header, input, output)?;
        self.content.clear();
        self.go_on(Leaf::Table { has_body: false }, output)
    }

    /// Reads a line after a line of a table.
    fn table_line(
        &mut self,
        has_body: bool,
        input: &mut Input<'d>,
        output: &mut Output<'d>,
    ) -> Result<(), AllocError>
        requires stands { StandsWith self.old output.old }
        requires leaf { self.old.leaf ≡ leaves.Table has_body }
        requires reads { Reads (source_of output.old) (end_with self.old output.old) input.old }
        ensures stands { OnOk result (StandsWith self.new output.new) }
        ensures source { OnOk result (source_of output.new ≡ source_of output.old) }
        ensures end { OnOk result (end_with self.new output.new ≡ next_of input.old.line) }
        ensures taken { OnOk result (input.new.prefix.items ≡ []) }
        ensures opens { LeadsOn result self.old self.new output.old output.new }
    {
        if input.line.is_blank() || LeafStart::find(&input.line, false).is_some() {
            return self.restart(input, output);
        }
        output.begin(input)?;
        gfm_table::write_row(has_body, output)?;
        self.go_on(Leaf::Table { has_body: true }, output)
    }

    /// Reads a line after a line of indented code.
    fn code_line(
        &mut self,
        input: &mut Input<'d>,
        output: &mut Output<'d>,
    ) -> Result<(), AllocError>
        requires stands { StandsWith self.old output.old }
        requires leaf { self.old.leaf ≡ leaves.CodeIndented }
        requires reads { Reads (source_of output.old) (end_with self.old output.old) input.old }
        ensures stands { OnOk result (StandsWith self.new output.new) }
        ensures source { OnOk result (source_of output.new ≡ source_of output.old) }
        ensures end { OnOk result (end_with self.new output.new ≡ next_of input.old.line) }
        ensures taken { OnOk result (input.new.prefix.items ≡ []) }
        ensures opens { LeadsOn result self.old self.new output.old output.new }
    {
        if input.line.is_blank() {
            self.content.keep(input)?;
            return Ok(());
        }
        if !input.line.is_indented() {
            return self.restart(input, output);
        }
        code_indented::write_blank_lines(&self.content, output)?;
        self.content.clear();
        output.begin(input)?;
        code_indented::write_line(&mut input.line, output)?;
        self.go_on(Leaf::CodeIndented, output)
    }

    /// Reads a line of an HTML block.
    fn html_line(
        &mut self,
        html: Html,
        input: &mut Input<'d>,
        output: &mut Output<'d>,
    ) -> Result<(), AllocError>
        requires stands { StandsWith self.old output.old }
        requires leaf { self.old.leaf ≡ leaves.Html html }
        requires reads { Reads (source_of output.old) (end_with self.old output.old) input.old }
        ensures stands { OnOk result (StandsWith self.new output.new) }
        ensures source { OnOk result (source_of output.new ≡ source_of output.old) }
        ensures end { OnOk result (end_with self.new output.new ≡ next_of input.old.line) }
        ensures taken { OnOk result (input.new.prefix.items ≡ []) }
        ensures opens { LeadsOn result self.old self.new output.old output.new }
    {
        output.begin(input)?;
        if html.write_line(output)? {
            return self.go_on(Leaf::None, output);
        }
        self.go_on(Leaf::Html(html), output)
    }

    /// Reads a line after an opening fence.
    fn raw_line(
        &mut self,
        fence: Fence,
        input: &mut Input<'d>,
        output: &mut Output<'d>,
    ) -> Result<(), AllocError>
        requires stands { StandsWith self.old output.old }
        requires none { self.old.content.lines.items ≡ [] }
        requires leaf { (n : Bool) → (outer : List Enclosing) → in_leaf self.old.leaf n outer ≡ in_raw fence.content n outer }
        requires reads { Reads (source_of output.old) (end_with self.old output.old) input.old }
        ensures stands { OnOk result (StandsWith self.new output.new) }
        ensures source { OnOk result (source_of output.new ≡ source_of output.old) }
        ensures end { OnOk result (end_with self.new output.new ≡ next_of input.old.line) }
        ensures taken { OnOk result (input.new.prefix.items ≡ []) }
        ensures opens { LeadsOn result self.old self.new output.old output.new }
    {
        output.begin(input)?;
        let found = fence.write_line(&mut input.line, output)?;
        self.go_on(leaf_after(fence, found), output)
    }
}

/// Writes the first line of a leaf that is not a paragraph, and returns the leaf that is open after
/// it.
fn write_first<'d>(
    start: LeafStart,
    line: &mut Line<'d>,
    output: &mut Output<'d>,
) -> Result<Leaf, AllocError>
    requires writes { Writes output.old }
    requires at { IsAt output.old.cursor line.old }
    requires start { IsStart start line.old }
    ensures written { OnOk result (WritesOut output.old output.new) }
    ensures opens { (n : Bool) → (outer : List Enclosing) → Opens output.old (in_flow n outer) → IfOk result (λ leaf. Opens output.new (in_leaf leaf n outer)) }
{
    match start {
        LeafStart::CodeIndented => {
            code_indented::open(line, output)?;
            Ok(Leaf::CodeIndented)
        }
        LeafStart::RawFlow(fence) => {
            fence.open(output)?;
            let ends_empty = false;
            Ok(Leaf::RawFlow { fence, ends_empty })
        }
        LeafStart::Html(html) => {
            if html.open(output)? {
                return Ok(Leaf::None);
            }
            Ok(Leaf::Html(html))
        }
        LeafStart::HeadingAtx(size) => {
            heading_atx::write(size, output)?;
            Ok(Leaf::None)
        }
        LeafStart::ThematicBreak => {
            thematic_break::write(output)?;
            Ok(Leaf::None)
        }
    }
}

/// Returns the leaf that is open after a line that comes after a fence.
fn leaf_after(fence: Fence, found: FencedLine) -> Leaf
    ensures { (n : Bool) → (outer : List Enclosing) → in_leaf result n outer ≡ after_fenced found fence.content n outer }
{
    match found {
        FencedLine::Closing => Leaf::None,
        FencedLine::Empty => Leaf::RawFlow {
            fence,
            ends_empty: true,
        },
        FencedLine::Chunk => Leaf::RawFlow {
            fence,
            ends_empty: false,
        },
    }
}
