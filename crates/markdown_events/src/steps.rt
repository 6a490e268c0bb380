//! A reader of a list of events that counts the steps of `compile`, for its contract.

ghost use Rattle.std.specs.Prelude.{◌≡◌, ◌+◌, ◌^◌, ◌<◌, slice_get, IfSome};
ghost use Rattle.markdown_events.specs.Steps.{steps_of};

use crate::event::Event;
use std::marker::Model;
use step_count::count::Count;

/// A list of events, and the number of steps taken over it (ours).
///
/// A step is one read of an event, or one descent from a node to a child. The number is a natural
/// number without a limit. Contracts see it as `count`, and the list as `events`; at run time it
/// takes no memory and no time.
///
/// In `Steps::new(&events)` no step is taken; `steps.read(0)` takes one, if there is an event.
#[derive(Drop)]
pub struct Steps<'a> {
    events: &'a [Event],
    /// The reads and descents so far.
    count: Count,
}

impl<'a> Model for Steps<'a> {
    ghost use Rattle.markdown_events.specs.Counted.{Counted};

    ghost Value = { Counted };

    ghost view = { λ s. record { events = s.events.now; count = s.count.number } };
}

impl<'a> Steps<'a> {
    /// Returns a reader of a list of events, with no step taken.
    ///
    /// `Steps::new(&[]).read(0)` is `None`.
    pub fn new(events: &'a [Event]) -> Steps<'a>
        ensures list { result.events ≡ events.now }
        ensures count { result.count ≡ 0 }
    {
        Steps {
            events,
            count: Count::zero(),
        }
    }

    /// Returns the event at an index, counted from 0, in one step. Past the end of the list it is
    /// `None`, and no step is taken.
    ///
    /// `Steps::new(&events).read(0)` is the first event.
    #[inline]
    pub fn read(&mut self, index: usize) -> Option<Event>
        ensures list { self.new.events ≡ self.old.events }
        ensures within { IfSome result (λ _. index + 1 < 2 ^ 64) }
        ensures event { result ≡ slice_get self.old.events index }
        ensures count { self.new.count ≡ self.old.count + steps_of result }
    {
        let event = self.events.get(index)?;
        self.tick();
        Some(*event)
    }

    /// Counts one descent from a node to a child.
    ///
    /// `steps.tick()` changes nothing at run time.
    #[inline(always)]
    pub fn tick(&mut self)
        ensures list { self.new.events ≡ self.old.events }
        ensures count { self.new.count ≡ self.old.count + 1 }
    {
        self.count.tick();
    }
}
