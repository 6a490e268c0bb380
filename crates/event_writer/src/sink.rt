//! What a recorder hands its events to, and the events.

ghost use Rattle.std.specs.Prelude.{◌≡◌, ◌∷◌, ◌++◌, [], List, None, Option, OnErr, OnOk, ℕ};
ghost use Rattle.markdown_events.specs.Forest.{enter, exit};
ghost use Rattle.markdown_events.specs.declared.event.Event.{Event};

use markdown_events::event::{Event, Kind, Name, Point};
use std::alloc::AllocError;

/// What takes the events of a document, one after the other (ours): a list, or a builder of a tree.
///
/// It is specified by `taken`, the events so far. A call that returns an error takes nothing. The
/// only error is that memory ran out.
pub trait Sink: Drop {
    /// The events that it has taken.
    ghost taken: { Self → List Event };

    /// The document that it reads, if it reads one. No event changes it.
    ghost document: { Self → Option (List ℕ) };

    /// Takes the enter of a span.
    fn enter(&mut self, name: Name, at: Point) -> Result<(), AllocError>
        ensures taken { OnOk result (taken self.new ≡ taken self.old ++ enter name at ∷ []) }
        ensures same { OnErr result (taken self.new ≡ taken self.old) }
        ensures document { document self.new ≡ document self.old };

    /// Takes the exit of a span.
    fn exit(&mut self, name: Name, at: Point) -> Result<(), AllocError>
        ensures taken { OnOk result (taken self.new ≡ taken self.old ++ exit name at ∷ []) }
        ensures same { OnErr result (taken self.new ≡ taken self.old) }
        ensures document { document self.new ≡ document self.old };

    /// Takes the enter and the exit of a token.
    fn token(&mut self, name: Name, start: Point, end: Point) -> Result<(), AllocError>
        ensures taken { OnOk result (taken self.new ≡ taken self.old ++ enter name start ∷ exit name end ∷ []) }
        ensures same { OnErr result (taken self.new ≡ taken self.old) }
        ensures document { document self.new ≡ document self.old };
}

impl Sink for Vec<Event> {
    ghost taken = { λ events. events.items };

    ghost document = { λ _. None };

    #[inline(always)]
    fn enter(&mut self, name: Name, at: Point) -> Result<(), AllocError> {
        self.push(enter_event(name, at))?;
        Ok(())
    }

    #[inline(always)]
    fn exit(&mut self, name: Name, at: Point) -> Result<(), AllocError> {
        self.push(exit_event(name, at))?;
        Ok(())
    }

    #[inline(always)]
    fn token(&mut self, name: Name, start: Point, end: Point) -> Result<(), AllocError> {
        self.reserve(2)?;
        self.push_reserved(enter_event(name, start));
        self.push_reserved(exit_event(name, end));
        Ok(())
    }
}

/// Returns the event that enters a span.
#[inline(always)]
pub fn enter_event(name: Name, point: Point) -> Event
    ensures { result ≡ enter name point }
{
    Event {
        kind: Kind::Enter,
        name,
        point,
    }
}

/// Returns the event that exits a span.
#[inline(always)]
pub fn exit_event(name: Name, point: Point) -> Event
    ensures { result ≡ exit name point }
{
    Event {
        kind: Kind::Exit,
        name,
        point,
    }
}
