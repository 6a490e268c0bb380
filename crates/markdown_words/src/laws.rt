//! Laws of words. Each is the contract of a function that takes and returns nothing.

ghost use Rattle.std.specs.Prelude.{◌≡◌, false};
ghost use Rattle.markdown_events.specs.Forest.{Forest, events_of};
ghost use Rattle.markdown_grammar.specs.Document.{Source};
ghost use Rattle.markdown_grammar.specs.Meaning.{meaning};
ghost use Rattle.mdast_util.specs.PlainText.{ended, text_in_lines};
ghost use Rattle.markdown_words.specs.Standings.{after_events, at_first};

/// What the events of a forest say, one after the other, is the text of its tree, if none of them is
/// strange.
///
/// The events of a paragraph with the data `Hi` say `Hi`, and a line feed is added.
pub fn events_say_the_text()
    ensures { (s : Source) (f : Forest) → (after_events s at_first (events_of f)).strange ≡ false
        → ended (after_events s at_first (events_of f)).said.text ≡ text_in_lines (meaning s f) }
{}
