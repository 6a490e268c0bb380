//! The events that a builder or a sink has taken.

ghost use Rattle.std.specs.Prelude.{◌≡◌, ◌<◌, ◌^◌, List, Some, [], ◌∷◌, ◌++◌};
ghost use Rattle.std.specs.Option.{option_or};
ghost use Rattle.std.specs.Borrow.{ftrue};
ghost use Rattle.markdown_events.specs.Forest.{enter, exit};
ghost use Rattle.markdown_events.specs.declared.event.Event.{Event};
ghost use Rattle.markdown_steps.specs.Compiler.{point_of};
ghost use Rattle.markdown_steps.specs.Extents.{extent_of, last_event};

use markdown_nodes::event::{Event, Kind, Name, Point};
use markdown_nodes::unist::Position;
use markdown_parts::slice::position_of;
use std::marker::Model;

/// The events so far, for proofs alone (ours). A clause reads them as `events`. A value takes no
/// memory, and its methods do nothing at run time.
///
/// ```text
/// let mut history = History::none();
/// for event in &events {
///     history = history.and(event);
/// }
/// ```
#[derive(Drop)]
pub struct History {
    pub ghost events: { List Event },
}

impl Model for History {
    ghost also_owns = { λ _. ftrue };
}

impl History {
    /// Returns the history without events.
    pub fn none() -> History
        ensures { result.events ≡ [] }
    {
        History {}
    }

    /// Returns the history with one more event.
    #[inline(always)]
    pub fn and(&self, _event: &Event) -> History
        ensures { result.events ≡ self.now.events ++ _event.now ∷ [] }
    {
        History {}
    }
}

/// The events that a builder has taken. At run time only the points of the first one and of the last
/// one are kept.
#[derive(Drop)]
pub struct Passed {
    /// The point of the first event.
    first: Option<Point>,
    /// The point of the last event.
    last: Option<Point>,
    /// All events.
    history: History,
}

impl Model for Passed {
    ghost use Rattle.markdown_events.specs.declared.event.Event.{Event};
    ghost use Rattle.markdown_tree.specs.Building.{ArePointsOf};
    ghost use Rattle.std.specs.Prelude.{List};

    ghost Value = { List Event };

    ghost view = { λ p. p.history.events };

    ghost invariant = { λ p. ArePointsOf p.history.events p.first p.last };
}

impl Passed {
    /// Returns the state before the first event.
    pub fn none() -> Passed
        ensures { result ≡ [] }
    {
        Passed {
            first: None,
            last: None,
            history: History::none(),
        }
    }

    /// Adds an event.
    #[inline(always)]
    pub fn add(&mut self, event: &Event)
        ensures { self.new ≡ self.old ++ event.now ∷ [] }
    {
        self.history = self.history.and(event);
        keep_first(&mut self.first, &event.point);
        self.last = Some(event.point);
    }

    /// Adds the enter of a span.
    #[inline(always)]
    pub fn add_enter(&mut self, name: Name, point: Point)
        ensures { self.new ≡ self.old ++ enter name point ∷ [] }
    {
        self.add(&Event {
            kind: Kind::Enter,
            name,
            point,
        });
    }

    /// Adds the exit of a span.
    #[inline(always)]
    pub fn add_exit(&mut self, name: Name, point: Point)
        ensures { self.new ≡ self.old ++ exit name point ∷ [] }
    {
        self.add(&Event {
            kind: Kind::Exit,
            name,
            point,
        });
    }

    /// Adds the two events of a token.
    #[inline(always)]
    pub fn add_token(&mut self, name: Name, start: Point, end: Point)
        ensures { self.new ≡ self.old ++ enter name start ∷ exit name end ∷ [] }
    {
        self.add_enter(name, start);
        self.add_exit(name, end);
    }

    /// Returns the point of the last event, or the start of a document if there is none.
    pub fn end(&self) -> Point
        ensures { result ≡ point_of (last_event self.now) }
    {
        self.last.unwrap_or(Point {
            line: 1,
            column: 1,
            index: 0,
            vs: 0,
        })
    }

    /// Returns the position from the first event to the last, or the first place of a document if
    /// there is no event.
    pub fn extent(&self) -> Position
        ensures position { result ≡ extent_of self.now }
        ensures fits { result.end.offset < 2 ^ 64 }
    {
        match (self.first, self.last) {
            (Some(first), Some(last)) => position_of(first, last),
            _ => Position::new(1, 1, 0, 1, 1, 0),
        }
    }
}

/// Keeps a point if there is none yet.
#[inline(always)]
fn keep_first(first: &mut Option<Point>, point: &Point)
    ensures { first.new ≡ option_or first.old (Some point.now) }
{
    if first.is_none() {
        *first = Some(*point);
    }
}
