//! Laws of the trees of documents.

ghost use Rattle.std.specs.Prelude.{Bool, List, Option, false, slice_range, true, ℕ, ◌≡◌};
ghost use Rattle.markdown_events.specs.Forest.{Forest, empty, is_empty, span};
ghost use Rattle.markdown_events.specs.declared.event.Name.TheVariants as names;
ghost use Rattle.markdown_events.specs.declared.event.Point.{Point};
ghost use Rattle.markdown_grammar.specs.Attributes.{Place};
ghost use Rattle.markdown_grammar.specs.Decorated.{node_at, nodes_of};
ghost use Rattle.markdown_grammar.specs.Document.{source_hiding};
ghost use Rattle.markdown_grammar.specs.Items.{items};
ghost use Rattle.markdown_grammar.specs.Meaning.{meaning};
ghost use Rattle.markdown_grammar.specs.Nodes.{decorate};
ghost use Rattle.markdown_nodes.specs.Tree.{nothing, text};
ghost use Rattle.markdown.specs.Plain.{ArePlain, StandForThemselves, root_with_text};

/// The Text of a plain paragraph is the bytes of its span.
///
/// A paragraph is plain if it contains only data and line endings, one after the other. None of
/// them begins or ends in a tab. The bytes stand for themselves: none is hidden, none is NUL, and a
/// carriage return occurs only before a line feed. For a NUL a tree would have U+FFFD (CommonMark),
/// and for a carriage return before an empty line a line feed (ours).
///
/// For `a⏎b` in a paragraph the Text is `a⏎b`, from 1:1 to 2:2.
///
/// The law holds for every such forest, accepted or not.
pub fn plain_texts_are_their_bytes()
    // Where line endings are text, plain spans produce one Text.
    ensures nodes { (hidden : List Bool) (bytes : List ℕ) (decode : List ℕ → ℕ → Option (List ℕ)) (place : Place) (from to : Point) (inside : Forest)
        → ArePlain bytes from inside to → StandForThemselves hidden bytes from to → is_empty inside ≡ false → place.line_endings ≡ true
        → nodes_of (decorate (source_hiding hidden bytes decode) place (items inside)) ≡ node_at (text (slice_range bytes from.index to.index)) nothing from to }
    // So a paragraph of them produces a root with one paragraph with one text.
    ensures tree { (hidden : List Bool) (bytes : List ℕ) (decode : List ℕ → ℕ → Option (List ℕ)) (from to : Point) (inside : Forest)
        → ArePlain bytes from inside to → StandForThemselves hidden bytes from to → is_empty inside ≡ false
        → meaning (source_hiding hidden bytes decode) (span names.Paragraph from to inside empty) ≡ root_with_text (slice_range bytes from.index to.index) from to }
{}
