//! Laws of every tree and of every refusal, for all documents. Each is the contract of a function
//! that takes and returns nothing.
//!
//! A tree that `compile` returns is the meaning of an accepted forest that has these events. With a
//! message, something is wrong at an event, or left open at the last. So each law here also applies
//! to what `compile` returns.

ghost use Rattle.std.specs.Prelude.{List, ◌≡◌, true};
ghost use Rattle.markdown_events.specs.Forest.{Forest, events_of};
ghost use Rattle.markdown_events.specs.declared.event.Event.{Event};
ghost use Rattle.markdown_events.specs.declared.event.Point.{Point};
ghost use Rattle.markdown_events.specs.declared.role.ItemKind.{ItemKind};
ghost use Rattle.markdown_nodes.specs.Tree.{only};
ghost use Rattle.markdown_grammar.specs.Accepted.{Accepted, Occurrence, ends_with_break};
ghost use Rattle.markdown_grammar.specs.Decorated.{nodes_of};
ghost use Rattle.markdown_steps.specs.Consequences.{
  Everywhere,
  HasColumnsOf,
  HasDepthToSix,
  HasPosition,
  HasStartIfOrdered,
  IsLinkBefore,
  NoTextAfterText,
  is_autolink,
};
ghost use Rattle.markdown_grammar.specs.Grammar.{conforms};
ghost use Rattle.markdown_grammar.specs.Items.{Items, item, items, kinds};
ghost use Rattle.markdown_grammar.specs.Meaning.{meaning};
ghost use Rattle.markdown_grammar.specs.Nodes.{decorate};
ghost use Rattle.markdown_grammar.specs.Attributes.{Place, inherited_after};
ghost use Rattle.markdown_grammar.specs.Reasons.{IsWrong, IsWrongAtEnter, IsWrongAtExit};
ghost use Rattle.markdown_steps.specs.Consequences.{EnterSays, ExitSays, FollowsBreak, ends_with_break_exit};
ghost use Rattle.markdown_grammar.specs.Document.{Source};
ghost use Rattle.markdown_grammar.specs.Sites.{Ancestor, Site, events_so_far};
ghost use Rattle.markdown_grammar.specs.declared.error_kind.ErrorKind.{ErrorKind};
ghost use Rattle.markdown_grammar.specs.declared.error_kind.ErrorKind.TheVariants.{UnfinishedBreak};

pub use markdown_nodes::laws::{one_forest, seam};

/// No Text comes directly after a Text among siblings, at any depth.
///
/// A tokenizer cuts text where it must check a character: at an escape, at a character reference,
/// at a line ending. Parsers to mdast join the pieces, so that adjacent text is one Text, and a
/// search or a replacement of words finds each of them whole.
///
/// In the document `a\*b` a tokenizer finds the data `a`, `*` and `b`; the tree has one Text, which
/// is `a*b`.
///
/// The law holds for every forest, accepted or not.
pub fn no_text_after_text()
    ensures { (s : Source) (f : Forest) → NoTextAfterText (only (meaning s f)) }
{}

/// Every node has a position.
///
/// In mdast, as in every unist tree, a node from a document says where it is in it, and a node that
/// a program makes has no position. Every node here comes from the document.
///
/// The Text of the document `Hi` has a position that is printed as `1:1-1:3 (0-2)`.
///
/// The law holds for every forest, accepted or not.
pub fn every_node_has_a_position()
    ensures { (s : Source) (f : Forest) → Everywhere HasPosition (only (meaning s f)) }
{}

/// Every Heading has a depth from 1 to 6.
///
/// CommonMark has six levels of headings: one to six number signs open a heading, and an underline
/// of equals signs or hyphens makes one of level 1 or 2. In mdast the level is the `depth`. Only an
/// accepted forest is sure to have the signs or the underline.
///
/// `### a` makes a Heading of depth 3, and `a` above `---` one of depth 2.
pub fn heading_depths_are_one_to_six()
    ensures { (s : Source) (f : Forest) → Accepted s f → Everywhere HasDepthToSix (only (meaning s f)) }
{}

/// A List has a `start` exactly when it is ordered.
///
/// In CommonMark an ordered list starts with the number of its first item, and a bullet list has no
/// numbers. In mdast `start` is that number, and only ordered lists have it. Here it is that of the
/// first item that has one. Only in an accepted forest is an ordered list sure to have a number.
///
/// `3. a` makes a List with the `start` 3, and `* a` one without.
pub fn lists_have_a_start_when_ordered()
    ensures { (s : Source) (f : Forest) → Accepted s f → Everywhere HasStartIfOrdered (only (meaning s f)) }
{}

/// Every Table has the position of a table of the events, and has one alignment for each cell value
/// of the first delimiter row in that table.
///
/// In GFM the delimiter row, the second line of a table, has a cell of hyphens for each column, and
/// the colons beside the hyphens say how the column is aligned. In mdast `align` lists that, column
/// by column; in HTML the alignment is written in each cell of the column.
///
/// The delimiter row `| :-- | - |` makes `AlignKind::Left` and `AlignKind::None`.
///
/// In a forest that is not accepted, a cell value may be in another one, and has no entry there.
pub fn tables_have_an_alignment_for_each_column()
    ensures { (s : Source) (f : Forest) → Accepted s f → Everywhere (HasColumnsOf f) (only (meaning s f)) }
{}

/// An autolink makes a Link, from its start to its end, before the nodes of the items after it.
///
/// CommonMark has autolinks in angle brackets, and GFM has addresses without brackets in text,
/// which it calls autolinks too. mdast has no kind for either: both are Links, without a title.
///
/// `<https://a.b>` makes a Link to `https://a.b` with that address as its one Text.
///
/// The law holds for every item of a forest, accepted or not, wherever it is.
pub fn autolinks_give_links()
    ensures { (s : Source) (p : Place) (what : ItemKind) (start end : Point) (children : Forest) (inner rest : Items)
        → is_autolink what ≡ true
        → IsLinkBefore (nodes_of (decorate s p (item what start end children inner rest))) start end
        (nodes_of (decorate s (inherited_after what p) rest)) }
{}

/// If a significant span is refused where it begins, the reason of the refusal is true of it.
///
/// - `break-unfinished`: it is not a line ending, and a hard break is before it.
/// - `part-repeated`: it is one of the parts that may occur once, and one of them has already
///   occurred. Or it is a mark, in a paragraph of an item that has a mark.
/// - `name-misplaced`: the container does not accept it after the items before it, or it is a table
///   in a table.
/// - `reference-incomplete`: it is the value of a character reference, and no marker is before it.
/// - `slice-invalid`: it is a Frontmatter, and it begins at no byte of the document.
///
/// There is no other refusal at that point. The reasons are ours.
///
/// A second `LabelText` in a Link is refused by `part-repeated`.
pub fn refused_enters_are_as_said()
    ensures { (s : Source) (site : Site) (what : ItemKind) (start : Point) (why : ErrorKind)
        → conforms site.initial_model (kinds site.before) ≡ true
        → IsWrongAtEnter s site what start why → EnterSays s site what start why }
{}

/// If a significant span is refused where it ends, the reason of the refusal is true of it.
///
/// Its last item is a hard break (`break-unfinished`). It lacks a value (`reference-incomplete`,
/// `list-value-missing`), a fence (`fence-missing`) or the sequence that sets its depth
/// (`heading-depth`). Its slice, range or byte does not exist (`slice-invalid`), or is not a number
/// up to 4294967295 (`list-value-invalid`), not known to the decoder (`reference-unknown`), or not
/// a sequence of one to six bytes (`heading-depth`). There is no other refusal at that point. The
/// reasons are ours.
///
/// An ordered list in which no item has a value is refused by `list-value-missing`.
pub fn refused_exits_are_as_said()
    ensures { (s : Source) (x : Occurrence) (why : ErrorKind) → IsWrongAtExit s x why → ExitSays s x why }
{}

/// A list is refused by `break-unfinished` only if a hard break is the last thing before.
///
/// The refused event belongs to a significant span, it is not the enter of a line ending, and the
/// last event of a significant span before it is the exit of a hard break. At the end of a list the
/// last event of a significant span is such an exit. The reason is ours: in CommonMark a hard break
/// is a line ending after a backslash or spaces, and micromark has that line ending as an event of
/// its own after the break.
///
/// The document `a\` with a hard break at its end is refused, and so is `a\b` with data after it.
pub fn unfinished_breaks_are_as_said()
    ensures event { (s : Source) (f : Forest) (path : List Ancestor) (event : Event)
        → IsWrong s f path event UnfinishedBreak → FollowsBreak (events_so_far f path) event }
    ensures end { (f : Forest) → ends_with_break (items f) ≡ true → ends_with_break_exit (events_of f) ≡ true }
{}
