//! Hard breaks by a backslash (CommonMark).

ghost use Rattle.std.specs.Prelude.{Some, slice_get, ◌≡◌, ◌≤◌, ◌<◌, ◌+◌, drop, length, IfSome, MatchOption, OnOk, true};
ghost use Rattle.commonmark_syntax.specs.Inlines.{backslash_break};
ghost use Rattle.commonmark_syntax.specs.Language.{IsNotAt, Leaves};
ghost use Rattle.markdown_text.specs.AttentionEvents.{attention_of};
ghost use Rattle.markdown_text.specs.Contents.{IsAsciiPart};
ghost use Rattle.markdown_text.specs.Outputs.{AtInlines, KeepsInlines, Stands, WritesTo, bytes_of, constructs_of};

use crate::output::{Next, Output};
use character_references::references::References;
use commonmark_syntax::backslash_break;
use event_writer::sink::Sink;
use markdown_events::event::Name;
use std::alloc::AllocError;

/// Returns the length of the hard break that a text begins with: a backslash and a line ending.
pub fn scan(text: &[u8]) -> Option<usize>
    ensures exact { MatchOption result (IsNotAt backslash_break text.now) (λ size. Leaves backslash_break text.now (drop size text.now)) }
    ensures size { IfSome result (λ size. size ≡ 2) }
    ensures backslash { IfSome result (λ size. IsAsciiPart text.now 0 1) }
    ensures feed { IfSome result (λ size. slice_get text.now 1 ≡ Some 10) }
{
    backslash_break::scan(text)
}

/// Writes a hard break, with its line ending.
pub fn write<R: References, S: Sink>(output: &mut Output<'_, '_, R, S>) -> Result<(), AllocError>
    requires stands { Stands output.old }
    requires backslash { IsAsciiPart (bytes_of output.old) output.old.data (output.old.data + 1) }
    requires feed { slice_get (bytes_of output.old) (output.old.data + 1) ≡ Some 10 }
    requires inlines { AtInlines output.old }
    requires on { (constructs_of output.old).hard_break_escape ≡ true }
    ensures given { output.new.writer.value.given ≡ output.old.writer.value.given }
    ensures writes { OnOk result (WritesTo output.old output.new (output.old.data + 2)) }
    ensures at { KeepsInlines result output.old output.new }
    ensures attention { OnOk result (attention_of output.new ≡ attention_of output.old) }
{
    output.flush(Next::Span)?;
    output.hard_break_to(Name::HardBreakEscape, output.offset_after(1))?;
    output.line_ending_as(Name::LineEnding)
}
