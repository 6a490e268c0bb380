//! The calls of the writer, where the grammar accepts what they write: only memory can run out.

ghost use Rattle.std.specs.Prelude.{Bool, IfSome, List, OnOk, [], false, true, ◌≡◌, ◌+◌, ◌++◌, ◌∷◌};
ghost use Rattle.std.specs.Str.{IsCharBoundary};
ghost use Rattle.event_writer.specs.Calls.{CanReach, EndsLine, line_ending_length};
ghost use Rattle.event_writer.specs.Stages.{Enclosing, Stage, entered, exited, takes_inlines, written};
ghost use Rattle.markdown_events.specs.Forest as forest;
ghost use Rattle.markdown_events.specs.Names.{role_of};
ghost use Rattle.markdown_events.specs.declared.event.Name.{Name};
ghost use Rattle.markdown_options.specs.Spans.{is_on};
ghost use Rattle.markdown_options.specs.declared.Constructs.{Constructs};
ghost use Rattle.markdown_pieces.specs.Tilings.{point};
ghost use Rattle.markdown_pieces.specs.Walks.{inside};
ghost use Rattle.markdown_text.specs.AttentionEvents.{attention_events, is_attention};
ghost use Rattle.markdown_text.specs.Contents.{spot, whole};
ghost use Rattle.markdown_text.specs.Spans.{IsWithin};
ghost use Rattle.markdown_text.specs.Standings.{BreaksAt, IsAt, MayBreak, MayEndLine, MayEnter, MayExit, MayWrite, StandsIn, after_line};

use character_references::references::References;
use event_writer::recorder::Recorder;
use event_writer::sink::Sink;
use markdown_events::event::Name;
use std::alloc::AllocError;

/// Opens a span at the cursor. The only error is that memory ran out.
pub fn enter<R: References, S: Sink>(
    writer: &mut Recorder<'_, R, S>,
    name: Name,
) -> Result<(), AllocError>
    requires { MayEnter writer.old name }
    ensures given { writer.new.given ≡ writer.old.given }
    ensures cursor { writer.new.cursor ≡ writer.old.cursor }
    ensures at { (a : Stage) → (outer : List Enclosing) → IsAt writer.old a outer → OnOk result (IfSome (entered a (role_of name)) (λ b. IsAt writer.new b (inside name a outer))) }
    ensures within { (c : Constructs) → IsWithin c writer.old → is_on c name ≡ true → OnOk result (IsWithin c writer.new) }
    ensures others { is_attention name ≡ false → OnOk result (attention_events writer.new.events ≡ attention_events writer.old.events) }
    ensures attention { is_attention name ≡ true → OnOk result (attention_events writer.new.events ≡ attention_events writer.old.events ++ forest.enter name writer.old.cursor ∷ []) }
{
    writer.enter(name)?;
    Ok(())
}

/// Closes the innermost span at the cursor. The only error is that memory ran out.
pub fn exit<R: References, S: Sink>(writer: &mut Recorder<'_, R, S>) -> Result<(), AllocError>
    requires { MayExit writer.old }
    ensures given { writer.new.given ≡ writer.old.given }
    ensures cursor { writer.new.cursor ≡ writer.old.cursor }
    ensures at { (own a : Stage) → (name : Name) → (outer : List Enclosing) → IsAt writer.old own (inside name a outer) → OnOk result (IfSome (exited own a (role_of name)) (λ b. IsAt writer.new b outer)) }
    ensures within { (c : Constructs) → IsWithin c writer.old → OnOk result (IsWithin c writer.new) }
    ensures others { (own a : Stage) → (name : Name) → (outer : List Enclosing) → IsAt writer.old own (inside name a outer) → is_attention name ≡ false → OnOk result (attention_events writer.new.events ≡ attention_events writer.old.events) }
    ensures attention { (own a : Stage) → (name : Name) → (outer : List Enclosing) → IsAt writer.old own (inside name a outer) → is_attention name ≡ true → OnOk result (attention_events writer.new.events ≡ attention_events writer.old.events ++ forest.exit name writer.old.cursor ∷ []) }
{
    writer.exit()?;
    Ok(())
}

/// Writes a token up to an offset of the line, and a number of columns into the tab there. The only
/// error is that memory ran out.
pub fn token<R: References, S: Sink>(
    writer: &mut Recorder<'_, R, S>,
    name: Name,
    to: usize,
    virtual_spaces: usize,
) -> Result<(), AllocError>
    requires reach { CanReach writer.old.given.bytes (point (spot writer.old.cursor)) to virtual_spaces }
    requires cut { IsCharBoundary writer.old.given.bytes to }
    requires may { MayWrite (R.text writer.old.given.references) writer.old name (record { offset = to; virtual_spaces = virtual_spaces }) }
    ensures given { writer.new.given ≡ writer.old.given }
    ensures spot { OnOk result (spot writer.new.cursor ≡ record { offset = to; virtual_spaces = virtual_spaces }) }
    ensures at { (a : Stage) → (outer : List Enclosing) → IsAt writer.old a outer → OnOk result (IfSome (written a (role_of name)) (λ b. IsAt writer.new b outer)) }
    ensures within { (c : Constructs) → IsWithin c writer.old → is_on c name ≡ true → OnOk result (IsWithin c writer.new) }
    ensures attention { is_attention name ≡ false → OnOk result (attention_events writer.new.events ≡ attention_events writer.old.events) }
{
    writer.token(name, to, virtual_spaces)?;
    Ok(())
}

/// Writes a hard break up to an offset of the line. It then waits for its line ending. The only
/// error is that memory ran out.
pub fn hard_break<R: References, S: Sink>(
    writer: &mut Recorder<'_, R, S>,
    name: Name,
    to: usize,
) -> Result<(), AllocError>
    requires reach { CanReach writer.old.given.bytes (point (spot writer.old.cursor)) to 0 }
    requires cut { IsCharBoundary writer.old.given.bytes to }
    requires may { MayBreak writer.old name }
    ensures given { writer.new.given ≡ writer.old.given }
    ensures spot { OnOk result (spot writer.new.cursor ≡ whole to) }
    ensures at { (a : Stage) → (outer : List Enclosing) → takes_inlines a ≡ true → IsAt writer.old a outer → OnOk result (BreaksAt writer.new a outer) }
    ensures within { (c : Constructs) → IsWithin c writer.old → is_on c name ≡ true → OnOk result (IsWithin c writer.new) }
    ensures attention { is_attention name ≡ false → OnOk result (attention_events writer.new.events ≡ attention_events writer.old.events) }
{
    writer.token(name, to, 0)?;
    Ok(())
}

/// Writes the line ending at the cursor as a token of this name. The only error is that memory ran out.
pub fn line_ending<R: References, S: Sink>(
    writer: &mut Recorder<'_, R, S>,
    name: Name,
) -> Result<(), AllocError>
    requires ends { EndsLine writer.old.given.bytes writer.old.cursor.index }
    requires may { MayEndLine (R.text writer.old.given.references) writer.old name }
    ensures given { writer.new.given ≡ writer.old.given }
    ensures spot { OnOk result (spot writer.new.cursor ≡ whole (writer.old.cursor.index + line_ending_length writer.old.given.bytes writer.old.cursor.index)) }
    ensures at { (waits : Bool) → (a : Stage) → (outer : List Enclosing) → StandsIn waits writer.old a outer → OnOk result (IfSome (after_line waits a (role_of name)) (λ b. IsAt writer.new b outer)) }
    ensures within { (c : Constructs) → IsWithin c writer.old → is_on c name ≡ true → OnOk result (IsWithin c writer.new) }
    ensures attention { is_attention name ≡ false → OnOk result (attention_events writer.new.events ≡ attention_events writer.old.events) }
{
    writer.line_ending(name)?;
    Ok(())
}
