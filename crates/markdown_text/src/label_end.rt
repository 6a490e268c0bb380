//! The end of a label (micromark), and what comes after it: a resource or a reference.

ghost use Rattle.std.specs.Prelude.{◌≡◌, ◌≢◌, ◌≤◌, ◌<◌, ◌+◌, ◌-◌, IfOk, IfSome, OnOk, length, true, false};
ghost use Rattle.commonmark_syntax.specs.Inlines.{footnote_call};
ghost use Rattle.commonmark_syntax.specs.Language.{Matches};
ghost use Rattle.markdown_text.specs.Constructs.{is_form_on, is_label_on};
ghost use Rattle.markdown_text.specs.Contents.{IsPart, IsRange};
ghost use Rattle.markdown_text.specs.Cursors.{bracketed, byte_at};
ghost use Rattle.markdown_text.specs.declared.brackets.LabelForm.TheVariants.{Footnote};
ghost use Rattle.markdown_text.specs.Outputs.{Stands, WritesTo, bytes_of, AtStage, Leads};
ghost use Rattle.markdown_text.specs.Reached.{form_size};
ghost use Rattle.markdown_text.specs.Texts.{bare};
ghost use Rattle.markdown_text.specs.Tokens.{IsTarget, IsToken, label_start, IsAfterLabel};
ghost use Rattle.markdown_text.specs.declared.token.Labelled.{Labelled};
ghost use Rattle.markdown_text.specs.declared.token.Labelled.TheVariants.{FootnoteCall};
ghost use Rattle.markdown_text.specs.declared.token.TokenKind.TheVariants.{LabelEnd};
ghost use Rattle.event_writer.specs.Stages.{endings, media_target};
ghost use Rattle.markdown_text.specs.Opens.{AtLabelEnd, EndsLabel, LeavesLabel};

use crate::brackets::{Bracket, LabelForm};
use crate::cursor::Cursor;
use crate::output::Output;
use crate::source::Source;
use crate::token::{Labelled, Target};
use crate::{reference, resource};
use character_references::references::References;
use commonmark_syntax::bytes::after;
use commonmark_syntax::{footnote_call, label};
use event_writer::sink::Sink;
use markdown_events::event::Name;
use markdown_options::Constructs;
use std::alloc::AllocError;

/// What an opening bracket and the end of its label make.
#[derive(Clone, Copy)]
pub struct Match {
    /// What they make.
    pub labelled: Labelled,
    /// What comes after the label.
    pub target: Target,
    /// The length of the end of the label and of what comes after it.
    pub size: usize,
    ghost filled: { 0 < size },
}

/// Returns what a bracket makes with the end of its label at the cursor, if it makes something. The
/// only error is that memory ran out.
pub fn scan<R: References>(
    source: &Source<'_, R>,
    cursor: Cursor<'_>,
    bracket: &Bracket,
) -> Result<Option<Match>, AllocError>
    requires byte { byte_at cursor ≡ 93 }
    requires form { is_form_on source.now.reading.now.options.constructs bracket.now.form ≡ true }
    requires end { source.now.reading.now.options.constructs.label_end ≡ true }
    ensures labelled { IfOk result (λ found. IfSome found (λ found. label_start found.labelled ≤ form_size bracket.now.form)) }
    ensures found { IfOk result (λ found. IfSome found (λ found. IsToken (bare cursor.entry.content.now) (LabelEnd found.labelled found.target) cursor.entry.at (cursor.entry.at + found.size))) }
    ensures on { IfOk result (λ found. IfSome found (λ found. is_label_on source.now.reading.now.options.constructs found.labelled ≡ true)) }
    ensures call { IfOk result (λ found. IfSome found (λ found. found.labelled ≡ FootnoteCall → Matches footnote_call (bracketed cursor.entry bracket.now))) }
{
    let label = after(after(cursor.before(), bracket.start), bracket.form.prefix());
    if is_call(cursor, bracket) && source.calls_footnote(after(label, 1))? {
        return Ok(Some(Match {
            labelled: Labelled::FootnoteCall,
            target: Target::Shortcut,
            size: 1,
        }));
    }
    let Some(labelled) = labelled(bracket.form, &source.reading.options.constructs) else {
        return Ok(None);
    };
    let own = if bracket.has_bracket {
        None
    } else {
        Some(label)
    };
    with_target(source, labelled, own, after(cursor.content, cursor.at + 1))
}

/// Returns what a bracket of this form begins, if it is not a call of a footnote.
fn labelled(form: LabelForm, constructs: &Constructs) -> Option<Labelled>
    requires form { is_form_on constructs.now form ≡ true }
    requires end { constructs.now.label_end ≡ true }
    ensures other { IfSome result (λ labelled. labelled ≢ FootnoteCall) }
    ensures size { IfSome result (λ labelled. label_start labelled ≤ form_size form) }
    ensures on { IfSome result (λ labelled. is_label_on constructs.now labelled ≡ true) }
{
    match form {
        LabelForm::Image => Some(Labelled::Image),
        LabelForm::Link => Some(Labelled::Link),
        LabelForm::Footnote => constructs.label_start_link.then_some(Labelled::Link),
    }
}

/// Whether a bracket and the end of its label at the cursor are a footnote call (GFM). It does not
/// check whether a footnote has that label.
fn is_call(cursor: Cursor<'_>, bracket: &Bracket) -> bool
    ensures form { result ≡ true → bracket.now.form ≡ Footnote }
    ensures yes { result ≡ true → Matches footnote_call (bracketed cursor.entry bracket.now) }
    ensures no { result ≡ false → bracket.now.form ≡ Footnote → bracket.now.has_bracket ≡ false → Matches footnote_call (bracketed cursor.entry bracket.now) → ⊥ }
{
    bracket.form == LabelForm::Footnote
        && !bracket.has_bracket
        && footnote_call::is_call(after(cursor.through(), bracket.start))
}

/// Returns what a label makes with what comes after it. Its own text counts if it may be defined.
/// The only error is that memory ran out.
fn with_target<R: References>(
    source: &Source<'_, R>,
    labelled: Labelled,
    own: Option<&[u8]>,
    rest: &[u8],
) -> Result<Option<Match>, AllocError>
    requires { labelled ≢ FootnoteCall }
    ensures labelled { IfOk result (λ found. IfSome found (λ found. found.labelled ≡ labelled)) }
    ensures found { IfOk result (λ found. IfSome found (λ found. (found.labelled ≡ labelled) × IsTarget rest.now found.target 0 (found.size - 1) × IsRange rest.now 0 (found.size - 1))) }
{
    if let Some(resource) = resource::scan(rest) {
        return Ok(Some(Match {
            labelled,
            target: Target::Resource(resource),
            size: resource.size + 1,
        }));
    }
    if let Some(size) = label::scan(rest) {
        let is_reference = source.refers(&rest[1..size - 1])?;
        return Ok(is_reference.then_some(Match {
            labelled,
            target: Target::Full,
            size: size + 1,
        }));
    }
    let Some(own) = own else {
        return Ok(None);
    };
    let found = with_own_label(labelled, rest);
    let is_reference = match found.target {
        Target::Collapsed => source.refers(own)?,
        _ => source.defines(own)?,
    };
    Ok(is_reference.then_some(found))
}

/// Returns what a label makes with what comes after it, if it is a collapsed or a shortcut
/// reference.
fn with_own_label(labelled: Labelled, rest: &[u8]) -> Match
    ensures labelled { result.labelled ≡ labelled }
    ensures target { IsTarget rest.now result.target 0 (result.size - 1) }
    ensures range { IsRange rest.now 0 (result.size - 1) }
{
    match rest {
        [b'[', b']', ..] => Match {
            labelled,
            target: Target::Collapsed,
            size: 3,
        },
        _ => Match {
            labelled,
            target: Target::Shortcut,
            size: 1,
        },
    }
}

/// Writes the end of a label, and what comes after it up to an offset.
pub fn write<R: References, S: Sink>(
    output: &mut Output<'_, '_, R, S>,
    labelled: Labelled,
    target: &Target,
    end: usize,
) -> Result<(), AllocError>
    requires stands { Stands output.old }
    requires none_waits { output.old.data ≡ output.old.at }
    requires part { IsPart (bytes_of output.old) output.old.at (output.old.at + 1) }
    requires target { IsAfterLabel (bytes_of output.old) labelled target.now (output.old.at + 1) end }
    requires at { AtLabelEnd output.old labelled }
    ensures given { output.new.writer.value.given ≡ output.old.writer.value.given }
    ensures writes { OnOk result (WritesTo output.old output.new end) }
    ensures at { EndsLabel result labelled output.old output.new }
{
    write_mark(output)?;
    if !labelled.has_target() {
        return output.exit();
    }
    write_target(output, target, end)?;
    output.exit()
}

/// Writes the bracket that ends a label.
fn write_mark<R: References, S: Sink>(output: &mut Output<'_, '_, R, S>) -> Result<(), AllocError>
    requires stands { Stands output.old }
    requires none_waits { output.old.data ≡ output.old.at }
    requires part { IsPart (bytes_of output.old) output.old.at (output.old.at + 1) }
    requires at { (labelled : Labelled) × AtLabelEnd output.old labelled }
    ensures given { output.new.writer.value.given ≡ output.old.writer.value.given }
    ensures writes { OnOk result (WritesTo output.old output.new (output.old.at + 1)) }
    ensures at { (labelled : Labelled) → LeavesLabel result labelled output.old output.new }
{
    output.enter(Name::LabelEnd)?;
    output.token(Name::LabelMarker, 1)?;
    output.exit()?;
    output.exit()
}

/// Writes what comes after the label of a link or an image, up to an offset.
fn write_target<R: References, S: Sink>(
    output: &mut Output<'_, '_, R, S>,
    target: &Target,
    end: usize,
) -> Result<(), AllocError>
    requires stands { Stands output.old }
    requires none_waits { output.old.data ≡ output.old.at }
    requires target { IsTarget (bytes_of output.old) target.now output.old.at end }
    requires at { AtStage output.old media_target }
    ensures given { output.new.writer.value.given ≡ output.old.writer.value.given }
    ensures writes { OnOk result (WritesTo output.old output.new end) }
    ensures at { Leads result media_target endings output.old output.new }
{
    match target {
        Target::Shortcut => Ok(()),
        Target::Resource(resource) => resource::write(output, resource),
        Target::Collapsed => reference::write(output, end),
        Target::Full => reference::write(output, end),
    }
}
