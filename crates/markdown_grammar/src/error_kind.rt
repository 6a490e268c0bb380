//! Why a list of events is refused.

ghost use Rattle.std.specs.Prelude.{◌≡◌, alloc_error};
ghost use Rattle.markdown_grammar.specs.Refusals.{IsFaultOf, reason_of, rule_of};
ghost use Rattle.markdown_grammar.specs.declared.error_kind.Stop.TheVariants.{Memory};

use markdown_nodes::event::Point;
use markdown_nodes::message::{Fault, Message, Place};
use std::alloc::{AllocError, AllocFailed};

/// Why a list of events is refused, one variant for each rule (ours; the events are those of the
/// crate `markdown`).
///
/// `ErrorKind::Unbalanced` is the rule `events-unbalanced`, for example of a list that leaves a
/// span open.
#[derive(Clone, Copy, PartialEq, Eq, Debug)]
pub enum ErrorKind {
    /// `events-unbalanced`: an exit that does not match the open span, or a span that is open at
    /// the end.
    Unbalanced,
    /// `name-misplaced`: the container does not accept the name.
    Misplaced,
    /// `part-repeated`: a part that may occur once occurs again.
    Repeated,
    /// `span-held`: a span inside one that may not contain it.
    Held,
    /// `slice-invalid`: a value that is read is not a text of the document, or a sequence or a byte
    /// that is read is not in it.
    InvalidSlice,
    /// `list-value-invalid`: a list value is not a number, or is too large.
    InvalidListValue,
    /// `list-value-missing`: no item of an ordered list has a value.
    MissingListValue,
    /// `reference-unknown`: the decoder has no text for a reference.
    UnknownReference,
    /// `reference-incomplete`: a reference without a value, or a value without a marker before it.
    IncompleteReference,
    /// `fence-missing`: fenced code or math without a fence.
    MissingFence,
    /// `heading-depth`: a heading without a sequence, or an ATX heading whose first is not one to six
    /// bytes long.
    HeadingDepth,
    /// `break-unfinished`: a break without its line ending.
    UnfinishedBreak,
}

impl ErrorKind {
    /// Returns the rule, for programs.
    fn rule_id(self) -> &'static str
        ensures { result.now ≡ rule_of self }
    {
        match self {
            ErrorKind::Unbalanced => "events-unbalanced",
            ErrorKind::Misplaced => "name-misplaced",
            ErrorKind::Repeated => "part-repeated",
            ErrorKind::Held => "span-held",
            ErrorKind::InvalidSlice => "slice-invalid",
            ErrorKind::InvalidListValue => "list-value-invalid",
            ErrorKind::MissingListValue => "list-value-missing",
            ErrorKind::UnknownReference => "reference-unknown",
            ErrorKind::IncompleteReference => "reference-incomplete",
            ErrorKind::MissingFence => "fence-missing",
            ErrorKind::HeadingDepth => "heading-depth",
            ErrorKind::UnfinishedBreak => "break-unfinished",
        }
    }

    /// Returns what is wrong, for people.
    fn reason(self) -> &'static str
        ensures { result.now ≡ reason_of self }
    {
        match self {
            ErrorKind::Unbalanced => "an exit does not match the open span, or a span is left open",
            ErrorKind::Misplaced => "this name cannot stand here",
            ErrorKind::Repeated => "this part may stand only once",
            ErrorKind::Held => "a span stands inside one that cannot hold it",
            ErrorKind::InvalidSlice => "the span is not a text of the document",
            ErrorKind::InvalidListValue => "a list value is not a number up to 4294967295",
            ErrorKind::MissingListValue => "an ordered list has no value",
            ErrorKind::UnknownReference => "the decoder does not know this reference",
            ErrorKind::IncompleteReference =>
                "a character reference has no marker before its value or no value",
            ErrorKind::MissingFence => "a raw block has no fence",
            ErrorKind::HeadingDepth => "a heading has no depth from 1 to 6",
            ErrorKind::UnfinishedBreak => "a hard break is not followed by its line ending",
        }
    }
}

/// Why an event was not taken (ours): it is refused, or memory ran out.
///
/// `Stop::Refused(ErrorKind::Held)` is the result of a span in a line ending.
#[derive(Debug, Drop)]
pub enum Stop {
    /// It is refused.
    Refused(ErrorKind),
    /// Memory ran out.
    Memory(AllocError),
}

impl Stop {
    /// Converts to a `Fault` at this point. If memory ran out, the fault has no point.
    ///
    /// `Stop::Refused(ErrorKind::Unbalanced).at(point)` is a message of the rule
    /// `events-unbalanced`, whose place is the line, the column and the offset of the point. It
    /// allocates no memory.
    #[inline(never)]
    pub fn at(self, point: Point) -> Fault
        ensures { IsFaultOf self point result }
    {
        match self {
            Stop::Refused(error_kind) => Fault::Message(Message {
                place: Some(Place::Point(point.to_unist())),
                reason: error_kind.reason(),
                rule_id: error_kind.rule_id(),
                source: "markdown-rs",
            }),
            Stop::Memory(error) => Fault::Memory(error),
        }
    }
}

impl From<AllocError> for Stop {
    ghost from_gives = { λ _ stop. stop ≡ Memory alloc_error };

    fn from(error: AllocError) -> Stop {
        Stop::Memory(error)
    }
}

impl<T: Drop> From<AllocFailed<T>> for Stop {
    ghost from_gives = { λ _ stop. stop ≡ Memory alloc_error };

    fn from(error: AllocFailed<T>) -> Stop {
        Stop::Memory(AllocError::from(error))
    }
}
