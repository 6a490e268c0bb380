//! The resource of a link or an image (CommonMark): a destination and a title in parentheses.

ghost use Rattle.std.specs.Prelude.{◌≡◌, ◌≢◌, ◌≤◌, ◌<◌, ◌+◌, IfSome, MatchOption, OnOk, Some, drop, length, slice_index, true};
ghost use Rattle.commonmark_syntax.specs.Language.{IsNotAt};
ghost use Rattle.commonmark_syntax.specs.Reading.{read};
ghost use Rattle.commonmark_syntax.specs.Resources.{BeginsWithEither, BeginsWithNeither, HasTitle, IsNoResource, LeavesResource};
ghost use Rattle.commonmark_syntax.specs.Syntax as page;
ghost use Rattle.commonmark_syntax.specs.Syntax.{blanks};
ghost use Rattle.markdown_text.specs.Contents.{IsRange};
ghost use Rattle.markdown_text.specs.Outputs.{Stands, WritesTo, bytes_of, AtStage, Leads};
ghost use Rattle.markdown_text.specs.Tokens.{IsDestination, IsEnclosed, IsResource};
ghost use Rattle.event_writer.specs.Stages.{endings, media_target, resource, resource_title};

use crate::output::Output;
use crate::{destination as destination_span, title as title_span};
use character_references::references::References;
use commonmark_syntax::bytes::{after, white_space_length};
use commonmark_syntax::reading::past_byte;
use commonmark_syntax::{destination, title};
use event_writer::sink::Sink;
use markdown_events::event::Name;
use std::alloc::AllocError;

/// The length of each part of a resource.
#[derive(Clone, Copy)]
pub struct Resource {
    /// The white space after the opening parenthesis.
    before: usize,
    /// The destination, or 0 if there is none.
    destination: usize,
    /// The white space after the destination.
    between: usize,
    /// The title, or 0 if there is none.
    title: usize,
    /// The white space after the title, or 0 if there is no title.
    after: usize,
    /// The whole resource, with the parentheses.
    pub size: usize,
}

/// Returns the resource that a text begins with.
pub fn scan(text: &[u8]) -> Option<Resource>
    ensures exact { MatchOption result (IsNoResource text.now) (λ resource. LeavesResource text.now (drop resource.size text.now)) }
    ensures parts { IfSome result (λ resource. IsResource text.now resource 0 resource.size) }
{
    let inside = past_byte(text, b'(')?;
    let before = white_space_length(inside);
    let rest = after(inside, before);
    let destination = destination_length(rest)?;
    let rest = after(rest, destination);
    let between = white_space_length(rest);
    let rest = after(rest, between);
    let title = title_length(rest, destination, between)?;
    let rest = after(rest, title);
    let space = space_length(rest, title);
    let rest = past_byte(after(rest, space), b')')?;
    Some(Resource {
        before,
        destination,
        between,
        title,
        after: space,
        size: text.len() - rest.len(),
    })
}

/// Returns the length of the destination that a text begins with, or 0 if the resource ends.
fn destination_length(text: &[u8]) -> Option<usize>
    ensures exact { MatchOption result (BeginsWithNeither text.now) (BeginsWithEither text.now) }
    ensures part { IfSome result (λ size. IsDestination text.now 0 size) }
{
    match text.first()? {
        b')' => Some(0),
        _ => destination::scan(text),
    }
}

/// Returns the length of the title that a text begins with, after a destination and white space of
/// these lengths. It is 0 if no title may occur there, or if the text does not begin with the
/// marker of one.
fn title_length(text: &[u8], destination: usize, between: usize) -> Option<usize>
    ensures exact { 0 < destination → 0 < between → MatchOption result (IsNotAt page.title text.now × (slice_index text.now 0 ≢ 41)) (HasTitle text.now) }
    ensures closed { destination ≡ 0 → result ≡ Some 0 }
    ensures close { between ≡ 0 → result ≡ Some 0 }
    ensures range { IfSome result (λ size. IsRange text.now 0 size) }
    ensures enclosed { IfSome result (λ size. 0 < size → IsEnclosed text.now 1 0 size) }
{
    if destination == 0 || between == 0 {
        return Some(0);
    }
    match text.first()? {
        b'"' | b'\'' | b'(' => title::scan(text),
        _ => Some(0),
    }
}

/// Returns the length of the white space that a text begins with, after a title of this length.
/// Without a title it is 0: the white space after the destination has already been read.
fn space_length(text: &[u8], title: usize) -> usize
    ensures bare { title ≡ 0 → result ≡ 0 }
    ensures exact { 0 < title → read blanks text.now ≡ Some (drop result text.now) }
    ensures most { result ≤ length text.now }
{
    if title == 0 {
        0
    } else {
        white_space_length(text)
    }
}

/// Writes a resource.
pub fn write<R: References, S: Sink>(
    output: &mut Output<'_, '_, R, S>,
    resource: &Resource,
) -> Result<(), AllocError>
    requires stands { Stands output.old }
    requires none_waits { output.old.data ≡ output.old.at }
    requires resource { IsResource (bytes_of output.old) resource.now output.old.at (output.old.at + resource.now.size) }
    requires at { AtStage output.old media_target }
    ensures given { output.new.writer.value.given ≡ output.old.writer.value.given }
    ensures writes { OnOk result (WritesTo output.old output.new (output.old.at + resource.now.size)) }
    ensures at { Leads result media_target endings output.old output.new }
{
    output.enter(Name::Resource)?;
    output.token(Name::ResourceMarker, 1)?;
    output.space(resource.before)?;
    write_destination(output, resource.destination)?;
    output.space(resource.between)?;
    write_title(output, resource.title)?;
    output.space(resource.after)?;
    output.token(Name::ResourceMarker, 1)?;
    output.exit()
}

/// Writes a destination of this length, if there is one.
fn write_destination<R: References, S: Sink>(
    output: &mut Output<'_, '_, R, S>,
    size: usize,
) -> Result<(), AllocError>
    requires stands { Stands output.old }
    requires none_waits { output.old.data ≡ output.old.at }
    requires destination { IsDestination (bytes_of output.old) output.old.at (output.old.at + size) }
    requires at { AtStage output.old resource }
    ensures given { output.new.writer.value.given ≡ output.old.writer.value.given }
    ensures writes { OnOk result (WritesTo output.old output.new (output.old.at + size)) }
    ensures at { Leads result resource resource_title output.old output.new }
{
    if size == 0 {
        return Ok(());
    }
    destination_span::write(output, size)
}

/// Writes a title of this length, if there is one.
fn write_title<R: References, S: Sink>(
    output: &mut Output<'_, '_, R, S>,
    size: usize,
) -> Result<(), AllocError>
    requires stands { Stands output.old }
    requires none_waits { output.old.data ≡ output.old.at }
    requires enclosed { 0 < size → IsEnclosed (bytes_of output.old) 1 output.old.at (output.old.at + size) }
    requires at { AtStage output.old resource_title }
    ensures given { output.new.writer.value.given ≡ output.old.writer.value.given }
    ensures writes { OnOk result (WritesTo output.old output.new (output.old.at + size)) }
    ensures at { Leads result resource_title endings output.old output.new }
{
    if size == 0 {
        return Ok(());
    }
    title_span::write(output, size)
}
