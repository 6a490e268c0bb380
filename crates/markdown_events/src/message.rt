//! Messages and errors: why no tree was made.

ghost use Rattle.std.specs.Prelude.{◌≡◌, Some, alloc_error};
ghost use Rattle.markdown_events.specs.Messages.{fault_text, message_text, start_of};
ghost use Rattle.markdown_events.specs.declared.message.Fault.TheVariants.{Memory};

use crate::unist::{Point, Position};
use std::alloc::{AllocError, AllocFailed};
use std::error::Error;
use std::fmt;

/// The place that a message is about (as in the crate `markdown`).
///
/// `Place::Point(Point::new(1, 3, 2))` is line 1, column 3, after two bytes of the document.
#[derive(Clone, Copy, PartialEq, Eq, Debug)]
pub enum Place {
    /// A point.
    Point(Point),
    /// A position: from one point to another.
    Position(Position),
}

impl Place {
    /// Returns the point, or the one where the position begins.
    ///
    /// `Place::Point(Point::new(1, 3, 2)).start()` is that point.
    pub fn start(&self) -> Point
        ensures { result ≡ start_of self.now }
    {
        match self {
            Place::Point(point) => *point,
            Place::Position(position) => position.start,
        }
    }
}

/// What is wrong with an input, and where (the fields are those of the crate `markdown`; the rules
/// are ours, and `docs/REFUSALS.md` lists them). Making one allocates no memory.
///
/// For a list of events that leaves a span open, `rule_id` is `events-unbalanced`, and `place` is
/// the point of the last event. `Display` writes a message as
/// `line:column (offset): reason (rule_id)`, and leaves out everything before the reason if there
/// is no place.
#[derive(Clone, Copy, PartialEq, Eq, Debug)]
pub struct Message {
    /// The place of the error. `compile` always sets a point, that of an event.
    pub place: Option<Place>,
    /// What is wrong: a sentence for people.
    pub reason: &'static str,
    /// The rule that is violated: an identifier for programs, such as `slice-invalid`.
    pub rule_id: &'static str,
    /// Where the message comes from: `markdown-rs`.
    pub source: &'static str,
}

impl fmt::Display for Message {
    ghost output = { λ message. Some (message_text message) };

    fn fmt<W: fmt::Write>(&self, f: &mut fmt::Formatter<W>) -> fmt::Result {
        let (reason, rule_id) = (self.reason, self.rule_id);
        match &self.place {
            Some(place) => write!(f, "{:?}: {reason} ({rule_id})", place.start()),
            None => write!(f, "{reason} ({rule_id})"),
        }
    }
}

impl Error for Message {}

/// The error of a call that makes a tree: the input is refused, or memory ran out (ours).
///
/// `Fault::Message(message)` says what is wrong with the input; `Fault::Memory(error)` says nothing
/// about the input. `Display` writes the message, or `out of memory`.
#[derive(Debug, Drop)]
pub enum Fault {
    /// The input is refused.
    Message(Message),
    /// Memory ran out.
    Memory(AllocError),
}

impl fmt::Display for Fault {
    ghost output = { λ fault. Some (fault_text fault) };

    fn fmt<W: fmt::Write>(&self, f: &mut fmt::Formatter<W>) -> fmt::Result {
        match self {
            Fault::Message(message) => write!(f, "{message}"),
            Fault::Memory(_) => f.write_str("out of memory"),
        }
    }
}

impl Error for Fault {}

impl From<AllocError> for Fault {
    ghost from_gives = { λ _ fault. fault ≡ Memory alloc_error };

    fn from(error: AllocError) -> Fault {
        Fault::Memory(error)
    }
}

impl<T: Drop> From<AllocFailed<T>> for Fault {
    ghost from_gives = { λ _ fault. fault ≡ Memory alloc_error };

    fn from(error: AllocFailed<T>) -> Fault {
        Fault::Memory(AllocError::from(error))
    }
}
