//! Link reference definitions, as pieces (micromark).

ghost use Rattle.std.specs.Prelude.{List, OnOk, IfOk, IfSome, Some, length, true, ◌≡◌, ◌≤◌, ◌<◌, ◌+◌, ◌-◌};
ghost use Rattle.commonmark_syntax.specs.Cuts.{IsCut};
ghost use Rattle.event_writer.specs.Stages.{Enclosing, Stage, definition, definition_destination, definition_title, endings, skips, takes_line_endings};
ghost use Rattle.markdown_events.specs.Names.{role_of};
ghost use Rattle.markdown_events.specs.declared.role.Role.TheVariants.{Transparent};
ghost use Rattle.markdown_events.specs.declared.role.TransparentKind.TheVariants.{Other};
ghost use Rattle.markdown_flow.specs.Outputs.{Keeps, KeepsFlow, Opens, Stands, constructs_of, document_of, rest_of, source_of, spot};
ghost use Rattle.markdown_flow.specs.Contents.{AreKept, after_lines};
ghost use Rattle.markdown_flow.specs.declared.line.Source.{Source};
ghost use Rattle.markdown_pieces.specs.Spans.{IsAlwaysOn};
ghost use Rattle.markdown_pieces.specs.declared.piece.Piece.{Piece};
ghost use Rattle.markdown_pieces.specs.declared.piece.PieceKind.TheVariants.{Enter};
ghost use Rattle.markdown_pieces.specs.Tilings.{IsToken, MayBegin, Spot};
ghost use Rattle.markdown_pieces.specs.Walks.{at, stage_after, stage_after_string};
ghost use Rattle.markdown_flow.specs.Definitions.{HasCuts, joined, left, IsBeforeLine, IsInText, HasBegun, end_before, end_in, GoesOn};

use crate::content::{Content, KeptLine};
use crate::definition::{self, Definition, Part};
use crate::output::Output;
use markdown_events::event::Name;
use markdown_pieces::piece::PieceKind;
use std::alloc::{AllocError, Global};

/// Returns the text of lines without their prefixes. Each line ends with a line feed, including the
/// last.
fn join(alloc: Global, lines: &[KeptLine<'_>]) -> Result<Vec<u8>, AllocError>
    ensures { IfOk result (λ text. text.items ≡ joined lines.now) }
{
    let mut text = Vec::new(alloc);
    for kept in lines {
        text.extend_from_slice(kept.line.text())?;
        text.push(b'\n')?;
    }
    Ok(text)
}

/// Writes the parts of definitions, across the ends of lines.
#[derive(Drop)]
struct PartWriter<'o, 'c, 'd> {
    /// The content of the lines.
    content: &'c Content<'d>,
    /// The text of the lines, with a line feed for each.
    text: &'o [u8],
    /// The remaining lines, from the one that is being written on.
    lines: &'c [KeptLine<'d>],
    /// The offset in the text up to which everything is written.
    at: usize,
}

/// Writes the definitions that lines of a content begin with, and returns the lines after them.
/// Each definition is added to what the document defines. The only error is that memory ran out.
///
/// For the lines `[a]: b` and `c` it returns `c`.
pub fn write<'c, 'd>(
    alloc: Global,
    content: &'c Content<'d>,
    lines: &'c [KeptLine<'d>],
    output: &mut Output<'d>,
) -> Result<&'c [KeptLine<'d>], AllocError>
    requires stands { Stands output.old }
    requires lines { AreKept (source_of output.old) content.now.prefixes.items (spot output.old.cursor) lines.now }
    ensures stands { OnOk result (Stands output.new) }
    ensures source { OnOk result (source_of output.new ≡ source_of output.old) }
    ensures rest { IfOk result (λ rest. AreKept (source_of output.new) content.now.prefixes.items (spot output.new.cursor) rest.now) }
    ensures end { IfOk result (λ rest. after_lines (spot output.new.cursor) rest.now ≡ after_lines (spot output.old.cursor) lines.now) }
    ensures opens { KeepsFlow result output.old output.new }
{
    if !may_begin(lines) {
        return Ok(lines);
    }
    let text = join(alloc, lines)?;
    let mut writer = PartWriter {
        content,
        text: text.as_slice(),
        lines,
        at: 0,
    };
    'definitions: while let Some(found) = definition::scan(writer.text, writer.at) {
        let label = &writer.text[found.label.string_start..found.label.string_end];
        output.define(label)?;
        writer.write(&found, output)?;
    }
    Ok(writer.lines)
}

/// Whether a definition may begin in the first of these lines.
fn may_begin(lines: &[KeptLine<'_>]) -> bool
    // The construct is on in the source of the kept lines.
    ensures { result ≡ true → (source : Source) → (prefixes : List Piece) → (from : Spot) → AreKept source prefixes from lines.now → source.constructs.now.definition ≡ true }
{
    match lines.first() {
        Some(kept) => {
            kept.line.constructs().definition && kept.line.text().first() == Some(&b'[')
        }
        None => false,
    }
}

impl<'d> PartWriter<'_, '_, 'd> {
    /// Writes a definition, with what comes before its first line.
    fn write(&mut self, found: &Definition, output: &mut Output<'d>) -> Result<(), AllocError>
        requires before { IsBeforeLine self.old output.old }
        requires on { (constructs_of output.old).definition ≡ true }
        requires fits { found.now.end < length self.old.text.now }
        requires starts { self.old.at ≤ found.now.end }
        requires title { IfSome found.now.title (λ title. title.end ≤ found.now.end) }
        requires label_cuts { HasCuts self.old.text.now found.now.label }
        requires marker_cut { IsCut self.old.text.now found.now.marker_end }
        requires destination_cuts { HasCuts self.old.text.now found.now.destination }
        requires title_cuts { IfSome found.now.title (λ title. HasCuts self.old.text.now title) }
        ensures before { OnOk result (IsBeforeLine self.new output.new) }
        ensures on { OnOk result (GoesOn self.old self.new output.old output.new) }
        ensures end { OnOk result (end_before self.new output.new ≡ end_before self.old output.old) }
        ensures less { OnOk result (self.old.at < self.new.at) }
        ensures opens { KeepsFlow result output.old output.new }
    {
        self.begin_line(output)?;
        output.enter(Name::Definition)?;
        self.write_indent(output)?;
        self.write_label(&found.label, output)?;
        self.part(
            PieceKind::Token(Name::DefinitionMarker),
            found.marker_end,
            output,
        )?;
        self.part(
            PieceKind::Token(Name::SpaceOrTab),
            found.destination.start,
            output,
        )?;
        self.write_destination(&found.destination, output)?;
        self.write_title(found.title, output)?;
        self.write_rest(PieceKind::Token(Name::SpaceOrTab), output)?;
        output.exit(Name::Definition)?;
        self.end_line(output)?;
        Ok(())
    }

    /// Begins the first of the remaining lines, of which there is one.
    fn begin_line(&mut self, output: &mut Output<'d>) -> Result<(), AllocError>
        requires before { IsBeforeLine self.old output.old }
        requires some { 0 < length self.old.lines.now }
        ensures line { OnOk result (HasBegun self.new output.new) }
        ensures on { OnOk result (GoesOn self.old self.new output.old output.new) }
        ensures at { self.new.at ≡ self.old.at }
        ensures end { OnOk result (end_in self.new output.new ≡ end_before self.old output.old) }
        ensures opens { (a : Stage) → takes_line_endings a ≡ true → Keeps result a output.old output.new }
    {
        match self.lines.first() {
            Some(kept) => self.content.begin(kept, output),
            None => Ok(()),
        }
    }

    /// Writes the white space before the text of the line.
    fn write_indent(&mut self, output: &mut Output<'d>) -> Result<(), AllocError>
        requires { HasBegun self.old output.old }
        ensures text { OnOk result (IsInText self.new output.new) }
        ensures on { OnOk result (GoesOn self.old self.new output.old output.new) }
        ensures at { self.new.at ≡ self.old.at }
        ensures end { OnOk result (end_in self.new output.new ≡ end_in self.old output.old) }
        ensures opens { (a : Stage) → Keeps result a output.old output.new }
    {
        output.white_space()
    }

    /// Ends the line, and moves to the next one.
    fn end_line(&mut self, output: &mut Output<'d>) -> Result<(), AllocError>
        requires text { IsInText self.old output.old }
        requires ended { left output.old.cursor ≡ 0 }
        ensures before { OnOk result (IsBeforeLine self.new output.new) }
        ensures on { OnOk result (GoesOn self.old self.new output.old output.new) }
        ensures at { OnOk result (self.new.at ≡ self.old.at + 1) }
        ensures end { OnOk result (end_before self.new output.new ≡ end_in self.old output.old) }
        ensures opens { (a : Stage) → Keeps result a output.old output.new }
    {
        output.end_line()?;
        self.at += 1;
        if let [_, rest @ ..] = self.lines {
            self.lines = rest;
        }
        Ok(())
    }

    /// Writes pieces of a kind up to an offset of the text, and what is at line endings on the way.
    fn part(
        &mut self,
        kind: PieceKind,
        to: usize,
        output: &mut Output<'d>,
    ) -> Result<(), AllocError>
        requires text { IsInText self.old output.old }
        requires kind { IsToken kind }
        requires on { IsAlwaysOn kind }
        requires fits { to < length self.old.text.now }
        requires cut { IsCut self.old.text.now to }
        ensures text { OnOk result (IsInText self.new output.new) }
        ensures on { OnOk result (GoesOn self.old self.new output.old output.new) }
        ensures order { OnOk result (self.old.at ≤ self.new.at) }
        ensures end { OnOk result (end_in self.new output.new ≡ end_in self.old output.old) }
        ensures opens { (a : Stage) → takes_line_endings a ≡ true → stage_after a kind ≡ Some a → Keeps result a output.old output.new }
    {
        for _ in self.at..to {
            if to.saturating_sub(self.at) <= output.rest().len() {
                break;
            }
            self.write_rest(kind, output)?;
            self.end_line(output)?;
            self.begin_line(output)?;
            self.write_indent(output)?;
        }
        self.write_in_line(kind, to.saturating_sub(self.at), output)
    }

    /// Writes a piece up to the end of the line.
    fn write_rest(&mut self, kind: PieceKind, output: &mut Output<'d>) -> Result<(), AllocError>
        requires text { IsInText self.old output.old }
        requires kind { IsToken kind }
        requires on { IsAlwaysOn kind }
        ensures text { OnOk result (IsInText self.new output.new) }
        ensures on { OnOk result (GoesOn self.old self.new output.old output.new) }
        ensures order { OnOk result (self.old.at ≤ self.new.at) }
        ensures lines { self.new.lines ≡ self.old.lines }
        ensures ended { OnOk result (left output.new.cursor ≡ 0) }
        ensures end { OnOk result (end_in self.new output.new ≡ end_in self.old output.old) }
        ensures opens { (a : Stage) → stage_after a kind ≡ Some a → Keeps result a output.old output.new }
    {
        let size = output.rest().len();
        self.write_in_line(kind, size, output)
    }

    /// Writes a piece of `size` bytes of the line.
    fn write_in_line(
        &mut self,
        kind: PieceKind,
        size: usize,
        output: &mut Output<'d>,
    ) -> Result<(), AllocError>
        requires text { IsInText self.old output.old }
        requires kind { IsToken kind }
        requires on { IsAlwaysOn kind }
        requires cut { IsCut (rest_of output.old) size }
        ensures text { OnOk result (IsInText self.new output.new) }
        ensures on { OnOk result (GoesOn self.old self.new output.old output.new) }
        ensures order { OnOk result (self.old.at ≤ self.new.at) }
        ensures lines { self.new.lines ≡ self.old.lines }
        ensures left { OnOk result (left output.new.cursor ≡ left output.old.cursor - size) }
        ensures end { OnOk result (end_in self.new output.new ≡ end_in self.old output.old) }
        ensures opens { (a : Stage) → stage_after a kind ≡ Some a → Keeps result a output.old output.new }
    {
        let size = size.min(output.rest().len());
        self.at += size;
        output.part(kind, size)?;
        Ok(())
    }

    /// Writes a span with the string of a part in it, unless the string is empty.
    fn write_string(
        &mut self,
        name: Name,
        part: &Part,
        output: &mut Output<'d>,
    ) -> Result<(), AllocError>
        requires text { IsInText self.old output.old }
        requires fits { part.now.end < length self.old.text.now }
        requires cuts { HasCuts self.old.text.now part.now }
        requires on { IsAlwaysOn (Enter name) }
        requires begins { MayBegin (document_of output.old) name (spot output.old.cursor) }
        ensures text { OnOk result (IsInText self.new output.new) }
        ensures on { OnOk result (GoesOn self.old self.new output.old output.new) }
        ensures order { OnOk result (self.old.at ≤ self.new.at) }
        ensures end { OnOk result (end_in self.new output.new ≡ end_in self.old output.old) }
        ensures opens { (a : Stage) → (outer : List Enclosing) → Opens output.old (at a outer) → OnOk result (IfSome (stage_after_string a name) (λ b. skips a b ≡ true → Opens output.new (at b outer))) }
    {
        if part.is_empty() {
            return Ok(());
        }
        output.enter(name)?;
        self.part(PieceKind::Text, part.string_end, output)?;
        output.exit(name)?;
        Ok(())
    }

    /// Writes a label.
    fn write_label(&mut self, label: &Part, output: &mut Output<'d>) -> Result<(), AllocError>
        requires text { IsInText self.old output.old }
        requires fits { label.now.end < length self.old.text.now }
        requires cuts { HasCuts self.old.text.now label.now }
        ensures text { OnOk result (IsInText self.new output.new) }
        ensures on { OnOk result (GoesOn self.old self.new output.old output.new) }
        ensures order { OnOk result (self.old.at ≤ self.new.at) }
        ensures end { OnOk result (end_in self.new output.new ≡ end_in self.old output.old) }
        ensures opens { (outer : List Enclosing) → Opens output.old (at definition outer) → OnOk result (Opens output.new (at definition_destination outer)) }
    {
        let marker = PieceKind::Token(Name::DefinitionLabelMarker);
        output.enter(Name::DefinitionLabel)?;
        self.part(marker, label.string_start, output)?;
        self.write_string(Name::DefinitionLabelString, label, output)?;
        self.part(marker, label.end, output)?;
        output.exit(Name::DefinitionLabel)
    }

    /// Writes a destination.
    fn write_destination(
        &mut self,
        destination: &Part,
        output: &mut Output<'d>,
    ) -> Result<(), AllocError>
        requires text { IsInText self.old output.old }
        requires fits { destination.now.end < length self.old.text.now }
        requires cuts { HasCuts self.old.text.now destination.now }
        ensures text { OnOk result (IsInText self.new output.new) }
        ensures on { OnOk result (GoesOn self.old self.new output.old output.new) }
        ensures order { OnOk result (self.old.at ≤ self.new.at) }
        ensures end { OnOk result (end_in self.new output.new ≡ end_in self.old output.old) }
        ensures opens { (outer : List Enclosing) → Opens output.old (at definition_destination outer) → OnOk result (Opens output.new (at definition_title outer)) }
    {
        output.enter(Name::DefinitionDestination)?;
        if destination.is_marked() {
            self.write_address(Name::DefinitionDestinationLiteral, destination, output)?;
            return output.exit(Name::DefinitionDestination);
        }
        self.write_address(Name::DefinitionDestinationRaw, destination, output)?;
        output.exit(Name::DefinitionDestination)
    }

    /// Writes the address of a destination in a span with this name, which is transparent.
    fn write_address(
        &mut self,
        name: Name,
        destination: &Part,
        output: &mut Output<'d>,
    ) -> Result<(), AllocError>
        requires text { IsInText self.old output.old }
        requires fits { destination.now.end < length self.old.text.now }
        requires cuts { HasCuts self.old.text.now destination.now }
        requires name { role_of name ≡ Transparent Other }
        requires on { IsAlwaysOn (Enter name) }
        requires begins { MayBegin (document_of output.old) name (spot output.old.cursor) }
        ensures text { OnOk result (IsInText self.new output.new) }
        ensures on { OnOk result (GoesOn self.old self.new output.old output.new) }
        ensures order { OnOk result (self.old.at ≤ self.new.at) }
        ensures end { OnOk result (end_in self.new output.new ≡ end_in self.old output.old) }
        ensures opens { (outer : List Enclosing) → Opens output.old (at definition_destination outer) → OnOk result (Opens output.new (at definition_title outer)) }
    {
        let marker = PieceKind::Token(Name::DefinitionDestinationLiteralMarker);
        output.enter(name)?;
        self.part(marker, destination.string_start, output)?;
        self.write_string(Name::DefinitionDestinationString, destination, output)?;
        self.part(marker, destination.end, output)?;
        output.exit(name)
    }

    /// Writes a title and the white space before it, if there is one.
    fn write_title(
        &mut self,
        title: Option<Part>,
        output: &mut Output<'d>,
    ) -> Result<(), AllocError>
        requires text { IsInText self.old output.old }
        requires fits { IfSome title (λ title. title.end < length self.old.text.now) }
        requires cuts { IfSome title (λ title. HasCuts self.old.text.now title) }
        ensures text { OnOk result (IsInText self.new output.new) }
        ensures on { OnOk result (GoesOn self.old self.new output.old output.new) }
        ensures order { OnOk result (self.old.at ≤ self.new.at) }
        ensures end { OnOk result (end_in self.new output.new ≡ end_in self.old output.old) }
        ensures opens { (outer : List Enclosing) → Opens output.old (at definition_title outer) → OnOk result (Opens output.new (at endings outer)) }
    {
        let Some(title) = title else {
            return Ok(());
        };
        let marker = PieceKind::Token(Name::DefinitionTitleMarker);
        self.part(PieceKind::Token(Name::SpaceOrTab), title.start, output)?;
        output.enter(Name::DefinitionTitle)?;
        self.part(marker, title.string_start, output)?;
        self.write_string(Name::DefinitionTitleString, &title, output)?;
        self.part(marker, title.end, output)?;
        output.exit(Name::DefinitionTitle)
    }
}
