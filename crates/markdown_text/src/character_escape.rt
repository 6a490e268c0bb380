//! Character escapes (CommonMark).

ghost use Rattle.std.specs.Prelude.{◌≡◌, ◌+◌, IfSome, MatchOption, OnOk, ◌<◌, drop, length, true};
ghost use Rattle.commonmark_syntax.specs.Inlines.{backslash_escape};
ghost use Rattle.commonmark_syntax.specs.Language.{IsNotAt, Leaves};
ghost use Rattle.markdown_text.specs.AttentionEvents.{attention_of};
ghost use Rattle.markdown_text.specs.Contents.{IsAsciiPart};
ghost use Rattle.markdown_text.specs.Outputs.{Stands, WritesTo, bytes_of, AtInlines, KeepsInlines, constructs_of};

use crate::output::{Next, Output};
use character_references::references::References;
use commonmark_syntax::backslash_escape;
use event_writer::sink::Sink;
use markdown_events::event::Name;
use std::alloc::AllocError;

/// Returns the length of the character escape that a text begins with: a backslash and an ASCII
/// punctuation mark.
pub fn scan(text: &[u8]) -> Option<usize>
    ensures exact { MatchOption result (IsNotAt backslash_escape text.now) (λ size. Leaves backslash_escape text.now (drop size text.now)) }
    ensures size { IfSome result (λ size. size ≡ 2) }
    ensures ascii { IfSome result (λ size. IsAsciiPart text.now 0 size) }
{
    backslash_escape::scan(text)
}

/// Writes a character escape.
pub fn write<R: References, S: Sink>(output: &mut Output<'_, '_, R, S>) -> Result<(), AllocError>
    requires stands { Stands output.old }
    requires ascii { IsAsciiPart (bytes_of output.old) output.old.data (output.old.data + 2) }
    requires inlines { AtInlines output.old }
    requires on { (constructs_of output.old).character_escape ≡ true }
    ensures given { output.new.writer.value.given ≡ output.old.writer.value.given }
    ensures writes { OnOk result (WritesTo output.old output.new (output.old.data + 2)) }
    ensures at { KeepsInlines result output.old output.new }
    ensures attention { OnOk result (attention_of output.new ≡ attention_of output.old) }
{
    output.flush(Next::Span)?;
    output.enter(Name::CharacterEscape)?;
    output.token(Name::CharacterEscapeMarker, 1)?;
    output.token(Name::CharacterEscapeValue, 1)?;
    output.exit()
}
