//! Laws of the definitions. Each is the contract of a function that takes and returns nothing.

ghost use Rattle.std.specs.Prelude.{◌≡◌};
ghost use Rattle.markdown_events.specs.Forest.{Forest, events_of};

/// At most one forest has a given list of events (ours).
///
/// The four events of the document `Hi` are those of a `Paragraph` with a `Data` in it, and of no
/// other forest.
pub fn one_forest()
    ensures { (first second : Forest) → events_of first ≡ events_of second → first ≡ second }
{}
