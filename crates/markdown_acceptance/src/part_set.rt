//! Sets of parts.

ghost use Rattle.std.specs.Prelude.{◌≡◌, ◌||◌, false};
ghost use Rattle.markdown_acceptance.specs.PartSets.{contains};
ghost use Rattle.markdown_events.specs.declared.role.Part.{Part};
ghost use Rattle.markdown_grammar.specs.Items.{same_part};

use markdown_events::role::Part;

/// A set of parts: those that have occurred in a container (ours).
///
/// In a link it is empty at first, and after the label it has `Part::LabelText`.
#[derive(Clone, Copy)]
pub struct PartSet {
    /// Whether it has each part, indexed by the number of the part.
    members: [bool; 27],
}

impl PartSet {
    /// Returns the empty set.
    ///
    /// `PartSet::new().contains(Part::LabelText)` is false.
    pub fn new() -> PartSet
        ensures { (part : Part) → contains result part ≡ false }
    {
        PartSet {
            members: [false; 27],
        }
    }

    /// Whether it has a part.
    ///
    /// After `parts.insert(Part::LabelText)`, `parts.contains(Part::LabelText)` is true.
    pub fn contains(&self, part: Part) -> bool
        ensures { result ≡ contains self.now part }
    {
        self.members[part as usize]
    }

    /// Adds a part.
    ///
    /// After `parts.insert(Part::LabelText)` the set has this part, and all that it had before.
    pub fn insert(&mut self, part: Part)
        ensures { (other : Part) → contains self.new other ≡ (contains self.old other || same_part other part) }
    {
        self.members[part as usize] = true;
    }
}
