//! HTML in text (CommonMark): tags, comments, instructions, declarations and CDATA sections.

ghost use Rattle.std.specs.Prelude.{◌≡◌, ◌<◌, IfSome, MatchOption, OnOk, drop, true};
ghost use Rattle.commonmark_syntax.specs.HtmlTags.{AreMissing};
ghost use Rattle.commonmark_syntax.specs.Language.{IsNotAt, Leaves};
ghost use Rattle.commonmark_syntax.specs.Syntax.{html_tag};
ghost use Rattle.markdown_text.specs.AttentionEvents.{attention_of};
ghost use Rattle.markdown_text.specs.Contents.{IsRange};
ghost use Rattle.markdown_text.specs.Cursors.{rest_of};
ghost use Rattle.markdown_text.specs.Outputs.{Stands, WritesTo, bytes_of, AtInlines, KeepsInlines, constructs_of};

use crate::cursor::Cursor;
use crate::output::{Next, Output};
use character_references::references::References;
use commonmark_syntax::html_tag::{self, MissingEnds};
use event_writer::sink::Sink;
use markdown_events::event::Name;
use std::alloc::AllocError;

/// Returns the length of the HTML tag that begins at the cursor.
pub fn scan(cursor: Cursor<'_>, missing: &mut MissingEnds) -> Option<usize>
    requires missing { AreMissing cursor.content.now missing.old }
    ensures missing { AreMissing cursor.entry.content.now missing.new }
    ensures exact { MatchOption result (IsNotAt html_tag (rest_of cursor.entry)) (λ size. Leaves html_tag (rest_of cursor.entry) (drop size (rest_of cursor.entry))) }
    ensures least { IfSome result (λ size. 0 < size) }
    ensures range { IfSome result (λ size. IsRange (rest_of cursor.entry) 0 size) }
{
    html_tag::scan(cursor.content, cursor.at, missing)
}

/// Writes HTML that ends at an offset.
pub fn write<R: References, S: Sink>(
    output: &mut Output<'_, '_, R, S>,
    end: usize,
) -> Result<(), AllocError>
    requires stands { Stands output.old }
    requires range { IsRange (bytes_of output.old) output.old.data end }
    requires inlines { AtInlines output.old }
    requires on { (constructs_of output.old).html_text ≡ true }
    ensures given { output.new.writer.value.given ≡ output.old.writer.value.given }
    ensures writes { OnOk result (WritesTo output.old output.new end) }
    ensures at { KeepsInlines result output.old output.new }
    ensures attention { OnOk result (attention_of output.new ≡ attention_of output.old) }
{
    output.flush(Next::Span)?;
    output.enter(Name::HtmlText)?;
    output.lines(Name::HtmlTextData, end)?;
    output.exit()
}
