//! Laws of finished lists of events.

ghost use Rattle.std.specs.Prelude.{List, ◌≡◌};
ghost use Rattle.event_writer.specs.Finished.{IsFinished};
ghost use Rattle.event_writer.specs.Tilings.{token_bytes};
ghost use Rattle.markdown_events.specs.declared.event.Event.{Event};
ghost use Rattle.markdown_grammar.specs.Correct.{FailsRightly};
ghost use Rattle.markdown_grammar.specs.Document.{Source};
ghost use Rattle.markdown_grammar.specs.Ordered.{NeverGoesBack};
ghost use Rattle.markdown_events.specs.declared.message.Fault.TheVariants as faults;
ghost use Rattle.markdown_events.specs.declared.message.Message.{Message};

/// The offsets of finished events never go back.
///
/// The tree that `compile` builds from them is therefore ordered. In the events of `Hi` they are 0,
/// 0, 2 and 2.
pub fn offsets_never_go_back()
    ensures { (s : Source) (es : List Event) → IsFinished s es → NeverGoesBack es }
{}

/// The bytes of the tokens, joined, are the document.
///
/// For `a *b*` they are those of the data `a `, of the star, of the data `b` and of the other star.
pub fn tokens_are_the_document()
    ensures { (s : Source) (es : List Event) → IsFinished s es → token_bytes s.bytes es ≡ s.bytes }
{}

/// No message of `compile` fits finished events.
///
/// So `compile` returns their tree, unless memory runs out: a Root with a Paragraph for those of
/// `Hi`.
pub fn no_message_comes()
    ensures { (s : Source) (es : List Event) (message : Message) → IsFinished s es → FailsRightly (faults.Message message) es s → ⊥ }
{}
