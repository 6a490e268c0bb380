//! The site of the next span: its container, with what acceptance depends on.

ghost use Rattle.std.specs.Prelude.{◌≡◌, None};
ghost use Rattle.markdown_acceptance.specs.ContentModels.{grammar_model};
ghost use Rattle.markdown_acceptance.specs.Sites.{
  IsAfter,
  IsEntered,
  IsFresh,
  gives_mark,
  gives_number,
  is_complete,
  may_enter,
  takes_empty,
};
ghost use Rattle.markdown_parts.specs.PartsSoFar.{place_with};
ghost use Rattle.markdown_grammar.specs.Attributes.{inherited_at_root};
ghost use Rattle.markdown_grammar.specs.Grammar.{any_content};
ghost use Rattle.markdown_grammar.specs.Items as Kinds;

use crate::content_model::ContentModel;
use crate::part_set::PartSet;
use markdown_events::event::Point;
use markdown_events::role::{Content, ItemKind, Part};
use markdown_parts::items::{
    has_line_endings, has_line_endings_after, is_frontmatter, is_line_ending, is_table,
};
use markdown_parts::slice::{Document, byte_at};

mod values;

/// The site of the next span: the content model of its container, the place, and what the items
/// before it contributed (ours).
///
/// In a paragraph, after a hard break, `after_break` is true, and only a line ending may come.
#[derive(Clone, Copy)]
pub struct Site {
    /// The content model of the container at its enter.
    pub initial_model: ContentModel,
    /// Its content model for what follows.
    pub model: ContentModel,
    /// Whether a line ending is text here.
    pub line_endings: bool,
    /// Whether a table is around, at any depth.
    pub in_table: bool,
    /// The byte of the last marker of a character reference.
    pub marker: Option<u8>,
    /// Whether the last item is a hard break, which its line ending must follow.
    pub after_break: bool,
    /// Which parts have occurred in the container.
    pub stood: PartSet,
    /// Whether an item contributed a check mark.
    pub is_marked: bool,
    /// Whether an item contributed a number.
    pub is_numbered: bool,
}

impl Site {
    /// Returns the site before the first event.
    ///
    /// Its container accepts any content, and line endings are not text there.
    pub fn at_root() -> Site
        ensures { IsFresh any_content inherited_at_root result }
    {
        Site::fresh(ContentModel::AnyContent, false, false)
    }

    /// Returns the site in a container of this content model, before any item.
    fn fresh(model: ContentModel, line_endings: bool, in_table: bool) -> Site
        ensures { IsFresh (grammar_model model) (place_with line_endings in_table None) result }
    {
        Site {
            initial_model: model,
            model,
            line_endings,
            in_table,
            marker: None,
            after_break: false,
            stood: PartSet::new(),
            is_marked: false,
            is_numbered: false,
        }
    }

    /// Whether an item may begin here. After a break only a line ending may. The container must
    /// accept the item after its items so far, a table may not be in a table, and the first byte of
    /// frontmatter must be in the document.
    ///
    /// At the root a paragraph may, and a label may not.
    pub fn may_enter(&self, document: &Document<'_>, what: ItemKind, start: Point) -> bool
        ensures { result ≡ may_enter document.now.bytes self.now what start }
    {
        if self.after_break && !is_line_ending(what) {
            return false;
        }
        if !self.initial_model.takes(&self.stood, what) {
            return false;
        }
        if self.in_table && is_table(what) {
            return false;
        }
        !is_frontmatter(what) || byte_at(document, start).is_some()
    }

    /// Whether the container may end: it has what it requires, and no break waits.
    ///
    /// An ATX heading without a sequence may not.
    pub fn is_complete(&self) -> bool
        ensures { result ≡ is_complete self.now }
    {
        !self.after_break
            && self
                .initial_model
                .has_required(&self.stood, self.is_numbered)
    }

    /// Whether an item that contains nothing may end here.
    ///
    /// Data may, and an ATX heading may not.
    pub fn takes_empty(&self, what: ItemKind) -> bool
        ensures { result ≡ takes_empty self.now what }
    {
        self.model.inside(what).requires_nothing()
    }

    /// Returns the site in an item that begins here.
    ///
    /// In a table, `in_table` is true for it.
    pub fn entered(&self, what: ItemKind) -> Site
        ensures { IsEntered what self.now result }
    {
        Site::fresh(
            self.model.inside(what),
            has_line_endings(what),
            self.in_table || is_table(what),
        )
    }

    /// Continues after an item, given whether a check mark and a number were contributed to it.
    ///
    /// After a hard break, `after_break` is true.
    pub fn take(&mut self, what: ItemKind, is_marked: bool, is_numbered: bool)
        ensures { IsAfter what is_marked is_numbered self.old self.new }
    {
        self.model = self.model.after(what, is_marked);
        self.after_break = is_hard_break(what);
        self.is_marked = self.is_marked || gives_mark(what, is_marked);
        self.is_numbered = self.is_numbered || gives_number(what, is_numbered);
        self.marker = marker_of(what).or(self.marker);
        if let ItemKind::Part(part) = what {
            self.line_endings = has_line_endings_after(part, self.line_endings);
            self.stood.insert(part);
        }
    }
}

/// Whether an item is a hard break.
fn is_hard_break(what: ItemKind) -> bool
    ensures { result ≡ Kinds.is_hard_break what }
{
    matches!(what, ItemKind::Content(Content::HardBreak))
}

/// Returns the byte that a marker of a character reference stands for.
fn marker_of(what: ItemKind) -> Option<u8>
    ensures { result ≡ Kinds.marker_of what }
{
    match what {
        ItemKind::Part(Part::CharacterReferenceMarker) => Some(b'&'),
        ItemKind::Part(Part::CharacterReferenceMarkerNumeric) => Some(b'#'),
        ItemKind::Part(Part::CharacterReferenceMarkerHexadecimal) => Some(b'x'),
        _ => None,
    }
}

/// Whether an item contributes a check mark to its container, given whether one was contributed to
/// it.
fn gives_mark(what: ItemKind, inner: bool) -> bool
    ensures { result ≡ gives_mark what inner }
{
    match what {
        ItemKind::Part(Part::TaskMarkChecked | Part::TaskMarkUnchecked) => true,
        ItemKind::Content(Content::Paragraph) => inner,
        _ => false,
    }
}

/// Whether an item contributes a number to its container, given whether one was contributed to it.
fn gives_number(what: ItemKind, inner: bool) -> bool
    ensures { result ≡ gives_number what inner }
{
    match what {
        ItemKind::Part(Part::ListItemValue) => true,
        ItemKind::Content(Content::ListItem) => inner,
        _ => false,
    }
}
