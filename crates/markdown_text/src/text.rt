//! Text content (micromark): all inlines. The second pass writes their spans.

ghost use Rattle.std.specs.Prelude.{Bool, false, [], ◌∷◌, ◌++◌, ◌≡◌, ◌↔◌, ◌⊎◌, ◌≤◌, ◌<◌, ◌+◌, IfOk, IfSome, List, None, OnOk, Some, get_or, length, slice_get, true, ◌-◌};
ghost use Rattle.event_writer.specs.Stages.{Enclosing, inlines};
ghost use Rattle.markdown_options.specs.Spans.{is_on};
ghost use Rattle.markdown_pieces.specs.Tilings.{Tiles, end_from};
ghost use Rattle.markdown_text.specs.AttentionEvents.{WritesAttention, attention_of};
ghost use Rattle.markdown_text.specs.AttentionRuns.{HasNoClosing};
ghost use Rattle.markdown_text.specs.AttentionWaiting.{IsNoLabel};
ghost use Rattle.markdown_text.specs.AttentionSpans.{WritesSpans, place_at};
ghost use Rattle.markdown_text.specs.AttentionWalk.{AreApart, FitFrom, HasWalked, Holds, IsWalkOf, Walk, WalksOn};
ghost use Rattle.markdown_text.specs.Constructs.{AreDelimitersOn, AreTokensOn, is_delimiter_on, is_kind_on, is_label_on};
ghost use Rattle.markdown_text.specs.Contents.{IsAsciiPart, IsContent, IsPart, joined, spot};
ghost use Rattle.markdown_text.specs.Opens.{AtOpen, AtOpened, KeepsOpen, group_name, opened};
ghost use Rattle.markdown_text.specs.Outputs.{AtInlines, BeginsText, GoesOn, IsAtText, KeepsInlines, Stands, WritesTo, bytes_of, as_text, references_of, constructs_of};
ghost use Rattle.markdown_text.specs.Spans.{IsWithin};
ghost use Rattle.markdown_text.specs.Standings.{IsAt};
ghost use Rattle.markdown_text.specs.Tokens.{AreTokens, IsToken, label_start};
ghost use Rattle.markdown_events.specs.declared.event.Name.TheVariants.{GfmAutolinkLiteralProtocol, GfmAutolinkLiteralWww};
ghost use Rattle.markdown_attention.specs.Emphasis.{kind_size};
ghost use Rattle.markdown_attention.specs.Sequences.{IsSequence};
ghost use Rattle.markdown_attention.specs.declared.delimiter.Delimiter.TheVariants.{Data};
ghost use Rattle.markdown_events.specs.Forest.{enter, exit};
ghost use Rattle.markdown_text.specs.Texts.{text_of};
ghost use Rattle.markdown_attention.specs.declared.delimiter.AttentionKind.{AttentionKind};
ghost use Rattle.markdown_text.specs.declared.text.Open.{Open};
ghost use Rattle.markdown_text.specs.declared.text.Open.TheVariants.{Attention, Label};
ghost use Rattle.markdown_text.specs.declared.token.Labelled.{Labelled};
ghost use Rattle.markdown_text.specs.declared.token.TokenKind.TheVariants.{LabelEnd, LabelStart};

use crate::attention_names::{group_name, sequence_name, text_name};
use crate::output::{ContentKind, Next, Output};
use crate::plain::is_plain;
use crate::raw_text::{self, RawText};
use crate::source::Source;
use crate::spare_lists::SpareLists;
use crate::token::{Labelled, Target, Token, TokenKind};
use crate::tokenizer::tokenize;
use crate::{
    autolink, character_escape, character_reference, gfm_task_list_item_check, hard_break_escape,
    html_text, label_end, label_start,
};
use character_references::references::References;
use event_writer::recorder::Recorder;
use event_writer::sink::Sink;
use markdown_attention::delimiter::{AttentionKind, Delimiter};
use markdown_events::event::Name;
use markdown_pieces::piece::Piece;
use std::alloc::AllocError;

/// An open construct.
#[derive(Clone, Copy)]
pub enum Open {
    /// Emphasis, strong emphasis or strikethrough.
    Attention(AttentionKind),
    /// A label with a text.
    Label(Labelled),
}

/// Writes the spans of a text. `pieces` are those of the block structure. With `is_task` it may begin with the mark of a task.
#[inline(always)]
pub fn inlines<'c, 'd, R: References, S: Sink>(
    source: &'c Source<'c, R>,
    writer: Box<Recorder<'d, R, S>>,
    pieces: &'c [Piece],
    is_task: bool,
    lists: &mut SpareLists,
) -> Result<Box<Recorder<'d, R, S>>, AllocError>
    requires document { writer.value.given.bytes ≡ source.now.reading.now.document.now }
    requires references { writer.value.given.references ≡ source.now.reading.now.references.now }
    requires content { IsContent pieces.now }
    requires tiles { Tiles writer.value.given.bytes (spot writer.value.cursor) pieces.now (end_from (spot writer.value.cursor) pieces.now) }
    requires bytes { source.now.bytes.now ≡ joined writer.value.given.bytes writer.value.cursor.index pieces.now }
    requires begins { BeginsText is_task writer.value }
    requires task { is_task ≡ true → source.now.reading.now.options.constructs.gfm_task_list_item ≡ true }
    requires within { IsWithin source.now.reading.now.options.constructs writer.value }
    ensures given { IfOk result (λ written. written.value.given ≡ writer.entry.value.given) }
    ensures end { IfOk result (λ written. spot written.value.cursor ≡ end_from (spot writer.entry.value.cursor) pieces.now) }
    ensures at { (h : Bool) → (outer : List Enclosing) → IsAtText is_task writer.entry.value h outer → IfOk result (λ written. IsAt written.value (inlines h) outer) }
    ensures within { IfOk result (λ written. IsWithin source.now.reading.now.options.constructs written.value) }
    ensures spans { HasNoClosing source.now.bytes.now → IfOk result (λ written. WritesSpans source.now.reading.now.options (place_at writer.entry.value pieces.now source.now.bytes.now) (text_of source.now.bytes.now (R.text source.now.reading.now.references.now) is_task) writer.entry.value written.value) }
{
    let literals = source.reading.options.constructs.gfm_autolink_literal;
    if !is_plain(source.bytes, literals) {
        return write_constructs(source, writer, pieces, is_task, lists);
    }
    let size = source.bytes.len();
    let mut output = Output::new(source, writer, pieces, ContentKind::Text)?;
    output.data(size);
    output.finish()
}

/// Does what `inlines` does, construct by construct.
///
/// Not inlined: a text without constructs needs no lists of them.
#[inline(never)]
fn write_constructs<'c, 'd, R: References, S: Sink>(
    source: &'c Source<'c, R>,
    writer: Box<Recorder<'d, R, S>>,
    pieces: &'c [Piece],
    is_task: bool,
    lists: &mut SpareLists,
) -> Result<Box<Recorder<'d, R, S>>, AllocError>
    requires document { writer.value.given.bytes ≡ source.now.reading.now.document.now }
    requires references { writer.value.given.references ≡ source.now.reading.now.references.now }
    requires content { IsContent pieces.now }
    requires tiles { Tiles writer.value.given.bytes (spot writer.value.cursor) pieces.now (end_from (spot writer.value.cursor) pieces.now) }
    requires bytes { source.now.bytes.now ≡ joined writer.value.given.bytes writer.value.cursor.index pieces.now }
    requires begins { BeginsText is_task writer.value }
    requires task { is_task ≡ true → source.now.reading.now.options.constructs.gfm_task_list_item ≡ true }
    requires within { IsWithin source.now.reading.now.options.constructs writer.value }
    ensures given { IfOk result (λ written. written.value.given ≡ writer.entry.value.given) }
    ensures end { IfOk result (λ written. spot written.value.cursor ≡ end_from (spot writer.entry.value.cursor) pieces.now) }
    ensures at { (h : Bool) → (outer : List Enclosing) → IsAtText is_task writer.entry.value h outer → IfOk result (λ written. IsAt written.value (inlines h) outer) }
    ensures within { IfOk result (λ written. IsWithin source.now.reading.now.options.constructs written.value) }
    ensures spans { HasNoClosing source.now.bytes.now → IfOk result (λ written. WritesSpans source.now.reading.now.options (place_at writer.entry.value pieces.now source.now.bytes.now) (text_of source.now.bytes.now (R.text source.now.reading.now.references.now) is_task) writer.entry.value written.value) }
{
    let found = tokenize(source, is_task, lists)?;
    let mut output = Output::new(source, writer, pieces, ContentKind::Text)?;
    lists.open.clear();
    let tokens = write_task(&mut output, found.tokens.as_slice(), is_task)?;
    write_tokens(&mut output, tokens, &found.delimiters, &mut lists.open)?;
    output.data(source.bytes.len());
    'open: while let Some(last) = lists.open.pop() {
        close(&mut output, last)?;
    }
    found.keep_lists(lists);
    output.finish()
}

/// Writes the mark of a task, if the first token is one, and returns the remaining tokens.
#[inline(always)]
fn write_task<'t, R: References, S: Sink>(
    output: &mut Output<'_, '_, R, S>,
    tokens: &'t [Token],
    is_task: bool,
) -> Result<&'t [Token], AllocError>
    requires stands { Stands output.old }
    requires start { output.old.data ≡ 0 }
    requires none_waits { output.old.at ≡ 0 }
    requires tokens { AreTokens (as_text output.old (R.text (references_of output.old)) is_task) 0 tokens.now }
    requires begins { BeginsText is_task output.old.writer.value }
    requires on { AreTokensOn (constructs_of output.old) tokens.now }
    ensures given { output.new.writer.value.given ≡ output.old.writer.value.given }
    ensures goes_on { OnOk result (GoesOn output.old output.new) }
    ensures left { IfOk result (λ rest. AreTokens (as_text output.new (R.text (references_of output.new)) false) output.new.data rest.now) }
    ensures at { (h : Bool) → (outer : List Enclosing) → IsAtText is_task output.old.writer.value h outer → OnOk result (IsAt output.new.writer.value (inlines h) outer) }
    ensures on { IfOk result (λ rest. AreTokensOn (constructs_of output.old) rest.now) }
    ensures walks { (walk : Walk) → (constructs : List Open) → length walk.delimiters ≡ length walk.place.content → WalksOn walk output.old constructs tokens.now → IfOk result (λ rest. WalksOn walk output.new constructs rest.now) }
{
    if !is_task {
        return Ok(tokens);
    }
    let Some((token, later)) = tokens.split_first() else {
        return Ok(tokens);
    };
    let TokenKind::TaskListItemCheck(is_checked) = token.kind else {
        return Ok(tokens);
    };
    gfm_task_list_item_check::write(output, is_checked)?;
    Ok(later)
}

/// Writes the tokens of a text.
fn write_tokens<R: References, S: Sink>(
    output: &mut Output<'_, '_, R, S>,
    tokens: &[Token],
    delimiters: &[Delimiter],
    open: &mut Vec<Open>,
) -> Result<(), AllocError>
    requires stands { Stands output.old }
    requires tokens { AreTokens (as_text output.old (R.text (references_of output.old)) false) output.old.data tokens.now }
    requires at { AtOpen output.old open.old.items }
    requires on { AreTokensOn (constructs_of output.old) tokens.now }
    requires delimiters { AreDelimitersOn (constructs_of output.old) delimiters.now }
    ensures given { output.new.writer.value.given ≡ output.old.writer.value.given }
    ensures goes_on { OnOk result (GoesOn output.old output.new) }
    ensures rest { OnOk result (IsPart (bytes_of output.new) output.new.data (length (bytes_of output.new))) }
    ensures at { KeepsOpen result output.old output.new open.old.items open.new.items }
    ensures walks { (walk : Walk) → IsWalkOf walk delimiters.now → WalksOn walk output.old open.old.items tokens.now → OnOk result (WalksOn walk output.new open.new.items []) }
{
    let mut rest = tokens;
    'tokens: while let Some((token, later)) = rest.split_first() {
        rest = write_next(output, token, later, delimiters, open)?;
    }
    Ok(())
}

/// Writes the data before a token, and the token. Returns the remaining tokens of those after it:
/// an empty label is written to its end.
fn write_next<'t, R: References, S: Sink>(
    output: &mut Output<'_, '_, R, S>,
    token: &'t Token,
    later: &'t [Token],
    delimiters: &[Delimiter],
    open: &mut Vec<Open>,
) -> Result<&'t [Token], AllocError>
    requires stands { Stands output.old }
    requires before { IsPart (bytes_of output.old) output.old.data token.now.start }
    requires token { IsToken (as_text output.old (R.text (references_of output.old)) false) token.now.kind token.now.start token.now.end }
    requires later { AreTokens (as_text output.old (R.text (references_of output.old)) false) token.now.end later.now }
    requires at { AtOpen output.old open.old.items }
    requires delimiters { AreDelimitersOn (constructs_of output.old) delimiters.now }
    requires on { is_kind_on (constructs_of output.old) token.now.kind ≡ true }
    requires later_on { AreTokensOn (constructs_of output.old) later.now }
    ensures given { output.new.writer.value.given ≡ output.old.writer.value.given }
    ensures goes_on { OnOk result (GoesOn output.old output.new) }
    ensures left { IfOk result (λ rest. AreTokens (as_text output.new (R.text (references_of output.new)) false) output.new.data rest.now) }
    ensures shorter { IfOk result (λ rest. length rest.now ≤ length later.now) }
    ensures at { KeepsOpen result output.old output.new open.old.items open.new.items }
    ensures on { IfOk result (λ rest. AreTokensOn (constructs_of output.old) rest.now) }
    ensures walks { (walk : Walk) → IsWalkOf walk delimiters.now → WalksOn walk output.old open.old.items (token.now ∷ later.now) → IfOk result (λ rest. WalksOn walk output.new open.new.items rest.now) }
{
    output.data(token.start);
    if let Some((end, last)) = later.split_first()
        && let Some(label) = empty_label(token, end)
    {
        write_empty_label(output, &label, end.end)?;
        return Ok(last);
    }
    write_token(output, token, delimiters, open)?;
    Ok(later)
}

/// An empty label.
#[derive(Clone, Copy)]
struct EmptyLabel {
    /// What it belongs to.
    labelled: Labelled,
    /// What comes after it.
    target: Target,
}

/// Returns the label that a token begins and the next one ends, if nothing is between them.
fn empty_label(start: &Token, end: &Token) -> Option<EmptyLabel>
    ensures start { IfSome result (λ label. start.now.kind ≡ LabelStart (Some label.labelled)) }
    ensures end { IfSome result (λ label. end.now.kind ≡ LabelEnd label.labelled label.target) }
    ensures size { IfSome result (λ label. start.now.end ≡ start.now.start + label_start label.labelled) }
    ensures beside { IfSome result (λ _. end.now.start ≡ start.now.end) }
{
    let TokenKind::LabelStart(Some(labelled)) = start.kind else {
        return None;
    };
    let TokenKind::LabelEnd(ended, target) = end.kind else {
        return None;
    };
    let has_signs_alone = start.end - start.start == labelled.start_size();
    let is_empty = has_signs_alone && end.start == start.end && ended == labelled;
    is_empty.then_some(EmptyLabel { labelled, target })
}

/// Writes an empty label, and what comes after it up to an offset.
fn write_empty_label<R: References, S: Sink>(
    output: &mut Output<'_, '_, R, S>,
    label: &EmptyLabel,
    end: usize,
) -> Result<(), AllocError>
    requires stands { Stands output.old }
    requires start { IsAsciiPart (bytes_of output.old) output.old.data (output.old.data + label_start label.now.labelled) }
    requires token { IsToken (as_text output.old (R.text (references_of output.old)) false) (LabelEnd label.now.labelled label.now.target) (output.old.data + label_start label.now.labelled) end }
    requires inlines { AtInlines output.old }
    requires on { is_label_on (constructs_of output.old) label.now.labelled ≡ true }
    ensures given { output.new.writer.value.given ≡ output.old.writer.value.given }
    ensures goes_on { OnOk result (GoesOn output.old output.new) }
    ensures data_end { OnOk result (output.new.data ≡ end) }
    ensures at { KeepsInlines result output.old output.new }
{
    label_start::write(output, label.labelled)?;
    label_end::write(output, label.labelled, &label.target, end)
}

/// Writes a token.
fn write_token<R: References, S: Sink>(
    output: &mut Output<'_, '_, R, S>,
    token: &Token,
    delimiters: &[Delimiter],
    open: &mut Vec<Open>,
) -> Result<(), AllocError>
    requires stands { Stands output.old }
    requires start { output.old.data ≡ token.now.start }
    requires token { IsToken (as_text output.old (R.text (references_of output.old)) false) token.now.kind output.old.data token.now.end }
    requires at { AtOpen output.old open.old.items }
    requires delimiters { AreDelimitersOn (constructs_of output.old) delimiters.now }
    requires on { is_kind_on (constructs_of output.old) token.now.kind ≡ true }
    ensures given { output.new.writer.value.given ≡ output.old.writer.value.given }
    ensures goes_on { OnOk result (GoesOn output.old output.new) }
    ensures data_end { OnOk result (output.new.data ≡ token.now.end) }
    ensures at { KeepsOpen result output.old output.new open.old.items open.new.items }
    ensures walks { (walk : Walk) → IsWalkOf walk delimiters.now → Holds walk.delimiters token.now → IsNoLabel token.now.kind → HasWalked walk output.old open.old.items output.old.data → OnOk result (HasWalked walk output.new open.new.items token.now.end) }
{
    let end = token.end;
    match token.kind {
        TokenKind::LineEnding => output.line_ending(),
        TokenKind::HardBreakEscape => hard_break_escape::write(output),
        TokenKind::CharacterEscape => character_escape::write(output),
        TokenKind::CharacterReference(kind) => character_reference::write(output, kind, end),
        TokenKind::CodeText(size) => raw_text::write(output, RawText::Code, size, end),
        TokenKind::MathText(size) => raw_text::write(output, RawText::Math, size, end),
        TokenKind::Autolink(address) => autolink::write(output, address, end),
        TokenKind::HtmlText => html_text::write(output, end),
        TokenKind::AutolinkLiteral(name) => write_autolink_literal(output, name, end),
        TokenKind::Attention => write_run(output, token, delimiters, open),
        TokenKind::LabelStart(labelled) => write_label_start(output, labelled, end, open),
        TokenKind::LabelEnd(labelled, target) => {
            write_label_end(output, labelled, &target, end, open)
        }
        TokenKind::TaskListItemCheck(_) => unreachable!(),
    }
}

/// Writes an autolink literal up to an offset, if links may occur here.
fn write_autolink_literal<R: References, S: Sink>(
    output: &mut Output<'_, '_, R, S>,
    name: Name,
    end: usize,
) -> Result<(), AllocError>
    requires stands { Stands output.old }
    requires part { IsPart (bytes_of output.old) output.old.data end }
    requires filled { output.old.data < end }
    requires name { (name ≡ GfmAutolinkLiteralProtocol) ⊎ (name ≡ GfmAutolinkLiteralWww) }
    requires inlines { AtInlines output.old }
    requires on { (constructs_of output.old).gfm_autolink_literal ≡ true }
    ensures given { output.new.writer.value.given ≡ output.old.writer.value.given }
    ensures goes_on { OnOk result (GoesOn output.old output.new) }
    ensures data_end { OnOk result (output.new.data ≡ end) }
    ensures at { KeepsInlines result output.old output.new }
    ensures attention { OnOk result (attention_of output.new ≡ attention_of output.old) }
{
    if !output.may_link() {
        output.data(end);
        return Ok(());
    }
    output.flush(Next::Span)?;
    output.token_to(name, end)
}

/// Writes a run of delimiters.
fn write_run<R: References, S: Sink>(
    output: &mut Output<'_, '_, R, S>,
    token: &Token,
    delimiters: &[Delimiter],
    open: &mut Vec<Open>,
) -> Result<(), AllocError>
    requires stands { Stands output.old }
    requires ascii { IsAsciiPart (bytes_of output.old) output.old.data token.now.end }
    requires start { output.old.data ≡ token.now.start }
    requires at { AtOpen output.old open.old.items }
    requires delimiters { AreDelimitersOn (constructs_of output.old) delimiters.now }
    ensures given { output.new.writer.value.given ≡ output.old.writer.value.given }
    ensures goes_on { OnOk result (GoesOn output.old output.new) }
    ensures data_end { OnOk result (output.new.data ≡ token.now.end) }
    ensures at { KeepsOpen result output.old output.new open.old.items open.new.items }
    ensures walks { (walk : Walk) → IsWalkOf walk delimiters.now → FitFrom walk.delimiters token.now.start token.now.end → HasWalked walk output.old open.old.items output.old.data → OnOk result (HasWalked walk output.new open.new.items token.now.end) }
{
    let mut at = token.start;
    'markers: while at < token.end {
        let delimiter = delimiters.get(at).copied().unwrap_or(Delimiter::Data);
        let size = write_delimiter(output, delimiter, token.end - at, open)?;
        at += size;
        output.data(at);
    }
    Ok(())
}

/// Writes the sequence that begins at a marker, and returns its length, which is at most `most`. If
/// none begins there, it writes nothing and returns 1.
fn write_delimiter<R: References, S: Sink>(
    output: &mut Output<'_, '_, R, S>,
    delimiter: Delimiter,
    most: usize,
    open: &mut Vec<Open>,
) -> Result<usize, AllocError>
    requires stands { Stands output.old }
    requires some { 1 ≤ most }
    requires ascii { IsAsciiPart (bytes_of output.old) output.old.data (output.old.data + most) }
    requires at { AtOpen output.old open.old.items }
    requires on { is_delimiter_on (constructs_of output.old) delimiter ≡ true }
    ensures least { IfOk result (λ size. 1 ≤ size) }
    ensures most { IfOk result (λ size. size ≤ most) }
    ensures given { output.new.writer.value.given ≡ output.old.writer.value.given }
    ensures goes_on { OnOk result (GoesOn output.old output.new) }
    ensures rest { IfOk result (λ size. IsPart (bytes_of output.new) output.new.data (output.old.data + size)) }
    ensures at { KeepsOpen result output.old output.new open.old.items open.new.items }
    ensures walks { (walk : Walk) → AreApart walk.delimiters → length walk.delimiters ≡ length walk.place.content → delimiter ≡ get_or walk.delimiters output.old.data Data → ((kind : AttentionKind) → IsSequence delimiter kind → kind_size kind ≤ most) → HasWalked walk output.old open.old.items output.old.data → IfOk result (λ size. HasWalked walk output.new open.new.items (output.old.data + size)) }
{
    match delimiter {
        Delimiter::Opening(kind) if kind.size() <= most => open_attention(output, kind, open),
        Delimiter::Closing(kind) if kind.size() <= most && is_in_attention(open, kind) => {
            close_attention(output, kind, open)
        }
        _ => Ok(1),
    }
}

/// Whether attention of a kind is the innermost open construct.
fn is_in_attention(constructs: &[Open], kind: AttentionKind) -> bool
    ensures { (result ≡ true) ↔ (slice_get constructs.now (length constructs.now - 1) ≡ Some (Attention kind)) }
{
    match constructs.last().copied() {
        Some(Open::Attention(last)) => last == kind,
        _ => false,
    }
}

/// Writes a sequence that opens a span.
fn open_attention<R: References, S: Sink>(
    output: &mut Output<'_, '_, R, S>,
    kind: AttentionKind,
    open: &mut Vec<Open>,
) -> Result<usize, AllocError>
    requires stands { Stands output.old }
    requires ascii { IsAsciiPart (bytes_of output.old) output.old.data (output.old.data + kind_size kind) }
    requires at { AtOpen output.old open.old.items }
    requires on { is_on (constructs_of output.old) (group_name kind) ≡ true }
    ensures size { IfOk result (λ size. size ≡ kind_size kind) }
    ensures given { output.new.writer.value.given ≡ output.old.writer.value.given }
    ensures goes_on { OnOk result (GoesOn output.old output.new) }
    ensures data_end { OnOk result (output.new.data ≡ output.old.data + kind_size kind) }
    ensures at { KeepsOpen result output.old output.new open.old.items open.new.items }
    ensures attention { OnOk result (WritesAttention output.old output.new output.old.data (enter (group_name kind))) }
    ensures opened { OnOk result (open.new.items ≡ open.old.items ++ (Attention kind ∷ [])) }
{
    open.push(Open::Attention(kind))?;
    output.flush(Next::Span)?;
    output.enter(group_name(kind))?;
    output.token(sequence_name(kind), kind.size())?;
    output.enter(text_name(kind))?;
    Ok(kind.size())
}

/// Writes a sequence that closes the innermost span.
fn close_attention<R: References, S: Sink>(
    output: &mut Output<'_, '_, R, S>,
    kind: AttentionKind,
    open: &mut Vec<Open>,
) -> Result<usize, AllocError>
    requires stands { Stands output.old }
    requires ascii { IsAsciiPart (bytes_of output.old) output.old.data (output.old.data + kind_size kind) }
    requires at { AtOpen output.old open.old.items }
    requires last { (os : List Open) × (open.old.items ≡ os ++ Attention kind ∷ []) }
    ensures size { IfOk result (λ size. size ≡ kind_size kind) }
    ensures given { output.new.writer.value.given ≡ output.old.writer.value.given }
    ensures goes_on { OnOk result (GoesOn output.old output.new) }
    ensures data_end { OnOk result (output.new.data ≡ output.old.data + kind_size kind) }
    ensures at { KeepsOpen result output.old output.new open.old.items open.new.items }
    ensures attention { OnOk result (WritesAttention output.old output.new (output.old.data + kind_size kind) (exit (group_name kind))) }
    ensures closed { OnOk result (open.old.items ≡ open.new.items ++ (Attention kind ∷ [])) }
{
    open.pop();
    output.flush(Next::Span)?;
    output.exit()?;
    output.token(sequence_name(kind), kind.size())?;
    output.exit()?;
    Ok(kind.size())
}

/// Writes the start of a label, and the data after its marks up to an offset.
fn write_label_start<R: References, S: Sink>(
    output: &mut Output<'_, '_, R, S>,
    labelled: Option<Labelled>,
    end: usize,
    open: &mut Vec<Open>,
) -> Result<(), AllocError>
    requires stands { Stands output.old }
    requires token { IsToken (as_text output.old (R.text (references_of output.old)) false) (LabelStart labelled) output.old.data end }
    requires at { AtOpen output.old open.old.items }
    requires on { is_kind_on (constructs_of output.old) (LabelStart labelled) ≡ true }
    ensures given { output.new.writer.value.given ≡ output.old.writer.value.given }
    ensures goes_on { OnOk result (GoesOn output.old output.new) }
    ensures data_end { OnOk result (output.new.data ≡ end) }
    ensures at { KeepsOpen result output.old output.new open.old.items open.new.items }
    ensures none { labelled ≡ None → OnOk result (attention_of output.new ≡ attention_of output.old) × (open.new.items ≡ open.old.items) }
{
    let Some(labelled) = labelled else {
        output.data(end);
        return Ok(());
    };
    open.push(Open::Label(labelled))?;
    label_start::write(output, labelled)?;
    output.enter(Name::LabelText)?;
    output.data(end);
    enter_labelled(output, labelled);
    Ok(())
}

/// Records that a link begins, if the label belongs to one.
fn enter_labelled<R: References, S: Sink>(output: &mut Output<'_, '_, R, S>, labelled: Labelled)
    requires { Stands output.old }
    ensures writer { output.new.writer.value ≡ output.old.writer.value }
    ensures goes_on { GoesOn output.old output.new }
    ensures data_end { output.new.data ≡ output.old.data }
{
    if labelled == Labelled::Link {
        output.enter_link();
    }
}

/// Writes the end of a label, and what comes after it up to an offset.
fn write_label_end<R: References, S: Sink>(
    output: &mut Output<'_, '_, R, S>,
    labelled: Labelled,
    target: &Target,
    end: usize,
    open: &mut Vec<Open>,
) -> Result<(), AllocError>
    requires stands { Stands output.old }
    requires token { IsToken (as_text output.old (R.text (references_of output.old)) false) (LabelEnd labelled target.now) output.old.data end }
    requires at { AtOpen output.old open.old.items }
    ensures given { output.new.writer.value.given ≡ output.old.writer.value.given }
    ensures goes_on { OnOk result (GoesOn output.old output.new) }
    ensures data_end { OnOk result (output.new.data ≡ end) }
    ensures at { KeepsOpen result output.old output.new open.old.items open.new.items }
{
    output.flush(Next::Span)?;
    if !is_in_label(open, labelled) {
        return output.lines(Name::Data, end);
    }
    open.pop();
    end_label(output, labelled, target, end)?;
    exit_labelled(output, labelled);
    Ok(())
}

/// Writes the end of a label, which is the innermost open construct, and what comes after it up to
/// an offset.
fn end_label<R: References, S: Sink>(
    output: &mut Output<'_, '_, R, S>,
    labelled: Labelled,
    target: &Target,
    end: usize,
) -> Result<(), AllocError>
    requires stands { Stands output.old }
    requires none_waits { output.old.data ≡ output.old.at }
    requires token { IsToken (as_text output.old (R.text (references_of output.old)) false) (LabelEnd labelled target.now) output.old.at end }
    requires at { AtOpened output.old (Label labelled) }
    ensures given { output.new.writer.value.given ≡ output.old.writer.value.given }
    ensures writes { OnOk result (WritesTo output.old output.new end) }
    ensures at { (h : Bool) → (outer : List Enclosing) → IsAt output.old.writer.value (inlines false) (opened (Label labelled) h outer) → OnOk result (IsAt output.new.writer.value (inlines h) outer) }
{
    output.exit()?;
    label_end::write(output, labelled, target, end)
}

/// Records that a link ends, if the label belongs to one.
fn exit_labelled<R: References, S: Sink>(output: &mut Output<'_, '_, R, S>, labelled: Labelled)
    requires { Stands output.old }
    ensures writer { output.new.writer.value ≡ output.old.writer.value }
    ensures goes_on { GoesOn output.old output.new }
    ensures data_end { output.new.data ≡ output.old.data }
{
    if labelled == Labelled::Link {
        output.exit_link();
    }
}

/// Whether a label is the innermost open construct.
fn is_in_label(constructs: &[Open], labelled: Labelled) -> bool
    ensures { (result ≡ true) ↔ (slice_get constructs.now (length constructs.now - 1) ≡ Some (Label labelled)) }
{
    match constructs.last().copied() {
        Some(Open::Label(last)) => last == labelled,
        _ => false,
    }
}

/// Closes a construct that nothing in the text closes.
fn close<R: References, S: Sink>(
    output: &mut Output<'_, '_, R, S>,
    last: Open,
) -> Result<(), AllocError>
    requires stands { Stands output.old }
    requires at { AtOpened output.old last }
    ensures given { output.new.writer.value.given ≡ output.old.writer.value.given }
    ensures goes_on { OnOk result (GoesOn output.old output.new) }
    ensures data_end { OnOk result (output.new.data ≡ output.old.data) }
    ensures at { (h : Bool) → (outer : List Enclosing) → IsAt output.old.writer.value (inlines false) (opened last h outer) → OnOk result (IsAt output.new.writer.value (inlines h) outer) }
{
    output.flush(Next::Span)?;
    match last {
        Open::Attention(_) => close_text(output),
        Open::Label(_) => close_label(output),
    }
}

/// Closes the spans of attention.
fn close_text<R: References, S: Sink>(output: &mut Output<'_, '_, R, S>) -> Result<(), AllocError>
    requires stands { Stands output.old }
    requires none_waits { output.old.data ≡ output.old.at }
    requires at { (kind : AttentionKind) × AtOpened output.old (Attention kind) }
    ensures given { output.new.writer.value.given ≡ output.old.writer.value.given }
    ensures writes { OnOk result (WritesTo output.old output.new output.old.data) }
    ensures at { (kind : AttentionKind) → (h : Bool) → (outer : List Enclosing) → IsAt output.old.writer.value (inlines false) (opened (Attention kind) h outer) → OnOk result (IsAt output.new.writer.value (inlines h) outer) }
{
    output.exit()?;
    output.exit()
}

/// Closes the spans of a label.
fn close_label<R: References, S: Sink>(output: &mut Output<'_, '_, R, S>) -> Result<(), AllocError>
    requires stands { Stands output.old }
    requires none_waits { output.old.data ≡ output.old.at }
    requires at { (labelled : Labelled) × AtOpened output.old (Label labelled) }
    ensures given { output.new.writer.value.given ≡ output.old.writer.value.given }
    ensures writes { OnOk result (WritesTo output.old output.new output.old.data) }
    ensures at { (labelled : Labelled) → (h : Bool) → (outer : List Enclosing) → IsAt output.old.writer.value (inlines false) (opened (Label labelled) h outer) → OnOk result (IsAt output.new.writer.value (inlines h) outer) }
{
    output.exit()?;
    output.exit()?;
    output.exit()
}
