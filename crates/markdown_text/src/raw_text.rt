//! Raw text (micromark): code between backticks (CommonMark), and math between dollars.

ghost use Rattle.std.specs.Prelude.{false, ◌≡◌, ◌≢◌, ◌≤◌, ◌<◌, ◌+◌, IfOk, IfSome, MatchOption, OnOk, ◌-◌, drop, length, slice_index, true};
ghost use Rattle.commonmark_syntax.specs.Strings.{AreLast, FirstStringEnds, HasNoString};
ghost use Rattle.event_writer.specs.Stages.{inlines};
ghost use Rattle.markdown_options.specs.Spans.{is_on};
ghost use Rattle.markdown_text.specs.AttentionEvents.{attention_of};
ghost use Rattle.markdown_text.specs.Contents.{IsAsciiPart};
ghost use Rattle.markdown_text.specs.Cursors.{byte_at};
ghost use Rattle.markdown_text.specs.Outputs.{AtInlines, AtStage, KeepsInlines, Leads, Stands, WritesTo, bytes_of, constructs_of};
ghost use Rattle.markdown_text.specs.RawTexts.{raw_text_name};
ghost use Rattle.markdown_text.specs.Tokens.{IsEnclosed};

use crate::cursor::Cursor;
use crate::output::{Next, Output};
use character_references::references::References;
use commonmark_syntax::code_span::{self, LastStrings};
use event_writer::sink::Sink;
use markdown_events::event::Name;
use std::alloc::{AllocError, Global};

/// What a raw text is.
#[derive(Clone, Copy)]
pub enum RawText {
    /// Code: `` `a` ``.
    Code,
    /// Math: `$a$`.
    Math,
}

impl RawText {
    ghost use Rattle.markdown_text.specs.RawTexts.{raw_data_name, raw_text_name, raw_sequence_name};

    /// Returns the name of its span.
    pub fn name(self) -> Name
        ensures { result ≡ raw_text_name self }
    {
        match self {
            RawText::Code => Name::CodeText,
            RawText::Math => Name::MathText,
        }
    }

    /// Returns the name of the span of the sequence at either end.
    pub fn sequence(self) -> Name
        ensures { result ≡ raw_sequence_name self }
    {
        match self {
            RawText::Code => Name::CodeTextSequence,
            RawText::Math => Name::MathTextSequence,
        }
    }

    /// Returns the name of the spans of the lines between them.
    pub fn data(self) -> Name
        ensures { result ≡ raw_data_name self }
    {
        match self {
            RawText::Code => Name::CodeTextData,
            RawText::Math => Name::MathTextData,
        }
    }
}

/// Returns the length of the raw text that begins with the sequence of this length at the cursor,
/// if one does.
///
/// `last` has what is known of the strings of its marker; it is computed once for a content. The
/// only error is that memory ran out.
pub fn scan(
    alloc: Global,
    cursor: Cursor<'_>,
    sequence: usize,
    last: &mut Option<LastStrings>,
) -> Result<Option<usize>, AllocError>
    requires least { 0 < sequence }
    requires opening { IsAsciiPart cursor.content.now cursor.at (cursor.at + sequence) }
    requires next { cursor.at + sequence < length cursor.content.now → slice_index cursor.content.now (cursor.at + sequence) ≢ byte_at cursor }
    requires last { IfSome last.old (AreLast (byte_at cursor) cursor.content.now) }
    ensures last { IfSome last.new (AreLast (byte_at cursor.entry) cursor.entry.content.now) }
    ensures exact { IfOk result (λ found. MatchOption found (HasNoString (byte_at cursor.entry) (drop (cursor.entry.at + sequence) cursor.entry.content.now) sequence) (λ size. (sequence ≤ size) × FirstStringEnds (byte_at cursor.entry) (drop (cursor.entry.at + sequence) cursor.entry.content.now) sequence (size - sequence))) }
    ensures least { IfOk result (λ found. IfSome found (λ size. 0 < size)) }
    ensures enclosed { IfOk result (λ found. IfSome found (λ size. IsEnclosed cursor.entry.content.now sequence cursor.entry.at (cursor.entry.at + size))) }
{
    code_span::scan(
        alloc,
        cursor.content,
        cursor.byte(),
        cursor.at,
        sequence,
        last,
    )
}

/// Writes a raw text that ends at an offset, between sequences of this length.
pub fn write<R: References, S: Sink>(
    output: &mut Output<'_, '_, R, S>,
    kind: RawText,
    sequence: usize,
    end: usize,
) -> Result<(), AllocError>
    requires stands { Stands output.old }
    requires filled { 0 < sequence }
    requires enclosed { IsEnclosed (bytes_of output.old) sequence output.old.data end }
    requires inlines { AtInlines output.old }
    requires on { is_on (constructs_of output.old) (raw_text_name kind) ≡ true }
    ensures given { output.new.writer.value.given ≡ output.old.writer.value.given }
    ensures writes { OnOk result (WritesTo output.old output.new end) }
    ensures at { KeepsInlines result output.old output.new }
    ensures attention { OnOk result (attention_of output.new ≡ attention_of output.old) }
{
    output.flush(Next::Span)?;
    output.enter(kind.name())?;
    write_enclosed(output, kind, sequence, end)?;
    output.exit()
}

/// Writes the two sequences of a raw text, and the lines between them.
fn write_enclosed<R: References, S: Sink>(
    output: &mut Output<'_, '_, R, S>,
    kind: RawText,
    sequence: usize,
    end: usize,
) -> Result<(), AllocError>
    requires stands { Stands output.old }
    requires none_waits { output.old.data ≡ output.old.at }
    requires filled { 0 < sequence }
    requires enclosed { IsEnclosed (bytes_of output.old) sequence output.old.at end }
    requires at { AtStage output.old (inlines false) }
    ensures given { output.new.writer.value.given ≡ output.old.writer.value.given }
    ensures writes { OnOk result (WritesTo output.old output.new end) }
    ensures at { Leads result (inlines false) (inlines false) output.old output.new }
    ensures attention { OnOk result (attention_of output.new ≡ attention_of output.old) }
{
    output.token(kind.sequence(), sequence)?;
    output.lines(kind.data(), end - sequence)?;
    output.token(kind.sequence(), sequence)
}
