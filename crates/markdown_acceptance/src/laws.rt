//! What the tests of the open spans mean: if they pass, the steps of a compilation continue, and if
//! they fail, no accepted list of events continues in this way.

ghost use Rattle.std.specs.Prelude.{◌≡◌, ◌∷◌, ◌++◌, List, [], false, true};
ghost use Rattle.markdown_acceptance.specs.Calls.{
  AfterToken,
  Closed,
  Opened,
  exit_of,
  may_close,
  may_open,
  may_write,
};
ghost use Rattle.markdown_acceptance.specs.Shown.{AreAccepted, IsHopeless, Leads, Tracks};
ghost use Rattle.markdown_acceptance.specs.Stacks.{Stack};
ghost use Rattle.markdown_events.specs.Forest.{enter, exit};
ghost use Rattle.markdown_events.specs.declared.event.Event.{Event};
ghost use Rattle.markdown_events.specs.declared.event.Name.{Name};
ghost use Rattle.markdown_events.specs.declared.event.Point.{Point};
ghost use Rattle.markdown_grammar.specs.Document.{Source};

/// Where a span may begin, the steps take its enter, and the new open spans show their state.
///
/// At the root a paragraph may begin.
pub fn enters_lead()
    ensures { (s : Source) (name : Name) (point : Point) (old new : Stack) → may_open s.bytes old name point ≡ true
        → Opened name point old new → Leads s (enter name point ∷ []) old new }
{}

/// Where the innermost span may end, the steps take its exit, and the new open spans show their
/// state.
///
/// A paragraph with data in it may end.
pub fn exits_lead()
    ensures { (s : Source) (point : Point) (old new : Stack) → may_close s old point ≡ true
        → Closed old new → Leads s (exit_of old point) old new }
{}

/// Where a token may occur, the steps take its enter and its exit, and the new open spans show
/// their state.
///
/// In a paragraph data may occur.
pub fn tokens_lead()
    ensures { (s : Source) (name : Name) (start end : Point) (old new : Stack) → may_write s old name start end ≡ true
        → AfterToken name old new → Leads s (enter name start ∷ exit name end ∷ []) old new }
{}

/// Where a span may not begin, no accepted list continues with its enter.
///
/// At the root a label may not begin.
pub fn refused_enters_are_hopeless()
    ensures { (s : Source) (events : List Event) (name : Name) (point : Point) (spans : Stack) → Tracks s events spans
        → may_open s.bytes spans name point ≡ false → IsHopeless s (events ++ enter name point ∷ []) }
{}

/// Where the innermost span may not end, no accepted list continues with an exit.
///
/// An ATX heading without a sequence may not end.
pub fn refused_exits_are_hopeless()
    ensures { (s : Source) (events : List Event) (name : Name) (point : Point) (spans : Stack) → Tracks s events spans
        → may_close s spans point ≡ false → IsHopeless s (events ++ exit name point ∷ []) }
{}

/// Where a token may not occur, no accepted list continues with its enter and its exit.
///
/// An empty ATX heading may not occur.
pub fn refused_tokens_are_hopeless()
    ensures { (s : Source) (events : List Event) (name : Name) (start end : Point) (spans : Stack) → Tracks s events spans
        → may_write s spans name start end ≡ false → IsHopeless s (events ++ enter name start ∷ exit name end ∷ []) }
{}

/// Events that the steps have taken are those of an accepted forest, if after them no span is open
/// and no break waits for its line ending.
///
/// This holds after no event at all: the empty forest is accepted.
pub fn done_is_accepted()
    ensures { (s : Source) (events : List Event) (spans : Stack) → Tracks s events spans → spans.frames ≡ []
        → spans.site.after_break ≡ false → AreAccepted s events }
{}
