//! The mark of a task (GFM), at the start of the first paragraph of an item.

ghost use Rattle.std.specs.Prelude.{◌≡◌, ◌+◌, Bool, IfSome, MatchOption, OnOk, Some, drop, true, ◌⊎◌, false};
ghost use Rattle.commonmark_syntax.specs.Inlines.{task_mark};
ghost use Rattle.commonmark_syntax.specs.Language.{IsNotAt, Leaves};
ghost use Rattle.markdown_options.specs.declared.Constructs.{Constructs};
ghost use Rattle.markdown_text.specs.AttentionEvents.{attention_of};
ghost use Rattle.markdown_text.specs.Constructs.{is_found_on};
ghost use Rattle.markdown_text.specs.Outputs.{Stands, WritesTo, bytes_of, AtStage, Leads, constructs_of};
ghost use Rattle.markdown_text.specs.Texts.{no_values, text_of};
ghost use Rattle.event_writer.specs.Stages.{inlines, task};
ghost use Rattle.markdown_events.specs.declared.event.Name.TheVariants.{GfmTaskListItemValueChecked, GfmTaskListItemValueUnchecked};
ghost use Rattle.markdown_text.specs.Contents.{IsRange};
ghost use Rattle.markdown_text.specs.Tokens.{IsEnclosed, IsFound};
ghost use Rattle.markdown_text.specs.declared.token.TokenKind.TheVariants.{TaskListItemCheck};

use crate::output::Output;
use crate::token::{Found, TokenKind};
use character_references::references::References;
use commonmark_syntax::task_mark;
use event_writer::sink::Sink;
use markdown_events::event::Name;
use std::alloc::AllocError;

/// Returns the mark of a task that a text begins with. White space comes after it, and then more of
/// the text.
pub fn scan(text: &[u8]) -> Option<Found>
    ensures exact { MatchOption result (IsNotAt task_mark text.now) (λ found. Leaves task_mark text.now (drop found.size text.now)) }
    ensures found { IfSome result (λ found. IsFound (text_of text.now no_values true) found.kind 0 found.size) }
    ensures on { IfSome result (λ found. (c : Constructs) → c.gfm_task_list_item ≡ true → is_found_on c found.kind ≡ true) }
    ensures kind { IfSome result (λ found. (is_checked : Bool) × (found.kind ≡ Some (TaskListItemCheck is_checked))) }
{
    let size = task_mark::scan(text)?;
    let is_checked = matches!(text.get(1), Some(b'x' | b'X'));
    Some(Found::token(TokenKind::TaskListItemCheck(is_checked), size))
}

/// Writes the mark of a task, which may be checked.
pub fn write<R: References, S: Sink>(
    output: &mut Output<'_, '_, R, S>,
    is_checked: bool,
) -> Result<(), AllocError>
    requires stands { Stands output.old }
    requires start { output.old.at ≡ 0 }
    requires none_waits { output.old.data ≡ 0 }
    requires enclosed { IsEnclosed (bytes_of output.old) 1 0 3 }
    requires at { AtStage output.old task }
    requires on { (constructs_of output.old).gfm_task_list_item ≡ true }
    ensures given { output.new.writer.value.given ≡ output.old.writer.value.given }
    ensures writes { OnOk result (WritesTo output.old output.new 3) }
    ensures at { Leads result task (inlines false) output.old output.new }
    ensures attention { OnOk result (attention_of output.new ≡ attention_of output.old) }
{
    output.enter(Name::GfmTaskListItemCheck)?;
    output.token(Name::GfmTaskListItemMarker, 1)?;
    write_value(output, value_name(is_checked))?;
    output.token(Name::GfmTaskListItemMarker, 1)?;
    output.exit()?;
    output.begin_task();
    Ok(())
}

/// Returns the name of the value of a mark, which may be checked.
fn value_name(is_checked: bool) -> Name
    ensures { (result ≡ GfmTaskListItemValueChecked) ⊎ (result ≡ GfmTaskListItemValueUnchecked) }
{
    if is_checked {
        Name::GfmTaskListItemValueChecked
    } else {
        Name::GfmTaskListItemValueUnchecked
    }
}

/// Writes the value of a mark: a byte, or a line ending.
fn write_value<R: References, S: Sink>(
    output: &mut Output<'_, '_, R, S>,
    value: Name,
) -> Result<(), AllocError>
    requires stands { Stands output.old }
    requires none_waits { output.old.data ≡ output.old.at }
    requires range { IsRange (bytes_of output.old) output.old.at (output.old.at + 1) }
    requires value { (value ≡ GfmTaskListItemValueChecked) ⊎ (value ≡ GfmTaskListItemValueUnchecked) }
    requires at { AtStage output.old task }
    ensures given { output.new.writer.value.given ≡ output.old.writer.value.given }
    ensures writes { OnOk result (WritesTo output.old output.new (output.old.at + 1)) }
    ensures at { Leads result task (inlines false) output.old output.new }
    ensures attention { OnOk result (attention_of output.new ≡ attention_of output.old) }
{
    if output.rest()[0] == b'\n' {
        return output.line_ending_as(value);
    }
    output.token(value, 1)
}
