//! Laws of outlines. Each is the contract of a function that takes and returns nothing.

ghost use Rattle.std.specs.Prelude.{List, ◌≡◌, true};
ghost use Rattle.markdown_events.specs.Forest.{Forest, events_of};
ghost use Rattle.markdown_events.specs.declared.event.Event.{Event};
ghost use Rattle.markdown_events.specs.declared.message.Message.{Message};
ghost use Rattle.markdown_grammar.specs.Accepted.{Accepted};
ghost use Rattle.markdown_grammar.specs.Correct.{FailsRightly, IsMeaning};
ghost use Rattle.markdown_grammar.specs.Document.{Source};
ghost use Rattle.markdown_grammar.specs.Meaning.{meaning};
ghost use Rattle.markdown_nodes.specs.View.{view};
ghost use Rattle.markdown_nodes.specs.declared.mdast.Node.{Node};
ghost use Rattle.markdown_events.specs.declared.message.Fault.TheVariants as faults;
ghost use Rattle.mdast_util.specs.Outline.{outline_of};
ghost use Rattle.markdown_outline.specs.Headings.{finds_all, headings};
ghost use Rattle.markdown_outline.specs.HeadingFilter.{filtered, loses_none, outside};

/// The headings of a forest have the outline of the forest, if each is in blocks alone.
///
/// Of a block quote with the heading `# Hi`, the heading alone has the line `Hi (1:3)` too.
pub fn headings_have_the_outline()
    ensures { (s : Source) (f : Forest) → finds_all f ≡ true → outline_of (meaning s (headings f)) ≡ outline_of (meaning s f) }
{}

/// The headings of an accepted forest are accepted, if each is in blocks alone.
///
/// A heading in a list item is accepted without the item.
pub fn headings_are_accepted()
    ensures { (s : Source) (f : Forest) → finds_all f ≡ true → Accepted s f → Accepted s (headings f) }
{}

/// A filter that goes over the events once passes on those of the headings, if each is in blocks
/// alone, and tells whether that is so.
///
/// Of the events of a block quote with the heading `# Hi` it passes on those of the heading.
pub fn headings_are_passed_on()
    ensures headings { (f : Forest) → finds_all f ≡ true → filtered outside (events_of f) ≡ events_of (headings f) }
    ensures found { (f : Forest) → loses_none outside (events_of f) ≡ finds_all f }
{}

/// A tree of the events that the filter passes on has the outline of all, if the filter loses no
/// heading.
///
/// The tree of the heading of a block quote has the line that the tree of the block quote has.
pub fn passed_on_headings_have_the_outline()
    ensures { (s : Source) (events : List Event) (tree : Node) (f : Forest) → events_of f ≡ events → loses_none outside events ≡ true
        → IsMeaning tree (filtered outside events) s → outline_of (view tree) ≡ outline_of (meaning s f) }
{}

/// No message refuses the events that the filter passes on of an accepted forest.
///
/// So `compile` returns a tree of them, unless memory runs out.
pub fn passed_on_headings_are_not_refused()
    ensures { (s : Source) (events : List Event) (message : Message) (f : Forest) → events_of f ≡ events → loses_none outside events ≡ true → Accepted s f
        → FailsRightly (faults.Message message) (filtered outside events) s → ⊥ }
{}
