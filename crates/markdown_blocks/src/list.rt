//! Lists and their items (CommonMark, "Lists" and "List items"), with the marks of tasks (GFM,
//! "Task list items").
//!
//! In markdown-rs: `on_enter_list`, `on_enter_list_item`, `on_exit_list_item`,
//! `on_exit_list_item_value`, `on_exit_gfm_task_list_item_value`.

ghost use Rattle.std.specs.Prelude.{◌≡◌, ◌≤◌, ◌+◌, None, Some, false, is_some, true};
ghost use Rattle.markdown_blocks.specs.Lists.{GainsNumberedItem, GainsParagraph};
ghost use Rattle.markdown_blocks.specs.Lists.{list_item, marked_paragraph, numbered_item, ordered_list, part_of_mark, task_paragraph};
ghost use Rattle.markdown_parts.specs.PartsSoFar.{GainsSign, IsFresh, IsNode, Makes, Reads, misfit_in, placed};
ghost use Rattle.markdown_events.specs.declared.role.ItemKind.TheVariants as item_kinds;
ghost use Rattle.markdown_events.specs.declared.role.Part.TheVariants as parts;
ghost use Rattle.markdown_grammar.specs.Grammar as models;
ghost use Rattle.markdown_grammar.specs.Tasks.{task_if};
ghost use Rattle.markdown_grammar.specs.declared.error_kind.ErrorKind.TheVariants.{MissingListValue};
ghost use Rattle.markdown_nodes.specs.Tree as tree;
ghost use Rattle.markdown_nodes.specs.View.{view, views};

use crate::parent::settled;
use crate::task::trim;
use markdown_grammar::error_kind::{ErrorKind, Stop};
use markdown_nodes::event::Point;
use markdown_nodes::mdast::{List, ListItem, Node};
use markdown_nodes::role::{ItemKind, Part};
use markdown_nodes::steps::Steps;
use markdown_nodes::unist::Position;
use markdown_parts::misfits::at_most_one;
use markdown_parts::number::item_number;
use markdown_parts::slice::{Document, text_of};

/// The parts of an ordered list so far: the number of its first item that has one.
///
/// In a list that begins with `7. a` it is 7.
#[derive(Clone, Copy)]
pub struct OrderedListParts {
    pub start: Option<u32>,
}

/// The parts of an item of an unordered list so far: its check mark.
///
/// In `* [x] a` it is true.
#[derive(Clone, Copy)]
pub struct ListItemParts {
    pub mark: Option<bool>,
}

/// The parts of an item of an ordered list so far: its number and its check mark.
///
/// In `7. [ ] a` they are 7 and false.
#[derive(Clone, Copy)]
pub struct NumberedItemParts {
    pub value: Option<u32>,
    pub mark: Option<bool>,
}

/// The parts so far of a paragraph of an item that has no check mark yet: the mark in this
/// paragraph.
#[derive(Clone, Copy)]
pub struct TaskParagraphParts {
    pub mark: Option<bool>,
}

impl OrderedListParts {
    /// Returns an ordered list at its enter.
    pub fn new() -> OrderedListParts
        ensures { IsFresh (ordered_list result) models.list_ordered }
    {
        OrderedListParts { start: None }
    }

    /// Adds an item. Its number is the start number of the list, if the list has none yet.
    pub fn take_item(&mut self, item: &NumberedItemParts)
        ensures { GainsNumberedItem item.now (ordered_list self.old) (ordered_list self.new) }
    {
        self.start = self.start.or(item.value);
    }

    /// Returns the node of an ordered list. If no item has a number, the list is refused as
    /// `ErrorKind::MissingListValue`.
    pub fn node(self, children: Vec<Node>, position: Position, spread: bool) -> Result<Node, Stop>
        ensures { Makes result (is_some self.start) MissingListValue
            (IsNode (tree.list true self.start spread) (views children.items) position) }
    {
        if self.start.is_none() {
            return Err(Stop::Refused(ErrorKind::MissingListValue));
        }
        Ok(list(children, position, true, self.start, spread))
    }
}

impl ListItemParts {
    /// Returns an item of an unordered list at its enter.
    pub fn new() -> ListItemParts
        ensures { IsFresh (list_item result) models.list_item }
    {
        ListItemParts { mark: None }
    }

    /// Adds a paragraph. The mark in it is the mark of the item.
    pub fn take_paragraph(&mut self, paragraph: &TaskParagraphParts)
        requires { self.old.mark ≡ None }
        ensures { GainsParagraph paragraph.now (list_item self.old) (list_item self.new) }
    {
        self.mark = paragraph.mark;
    }
}

impl NumberedItemParts {
    /// Returns an item of an ordered list at its enter.
    pub fn new() -> NumberedItemParts
        ensures { IsFresh (numbered_item result) models.numbered_item }
    {
        NumberedItemParts {
            value: None,
            mark: None,
        }
    }

    /// Returns the rule that this item would violate here, if any. An item of an ordered list
    /// accepts one number, and content. A second number is `ErrorKind::Repeated`, any other part
    /// `ErrorKind::Misplaced`.
    pub fn misfit(&self, what: ItemKind) -> Option<ErrorKind>
        ensures { result ≡ misfit_in (numbered_item self.now) what }
    {
        match what {
            ItemKind::Content(_) => None,
            ItemKind::Part(Part::ListItemValue) => at_most_one(self.value.is_some()),
            ItemKind::Part(_) => Some(ErrorKind::Misplaced),
        }
    }

    /// Stores the number between two points: `7` in `7. a`. If it is not a text of the document, it
    /// is refused as `ErrorKind::InvalidSlice`. If it is not a number up to 4294967295, it is
    /// refused as `ErrorKind::InvalidListValue`.
    pub fn take_value(
        &mut self,
        document: &Document<'_>,
        start: Point,
        end: Point,
    ) -> Result<(), Stop>
        requires { misfit_in (numbered_item self.old) (item_kinds.Part parts.ListItemValue) ≡ None }
        ensures { Reads document.now parts.ListItemValue start end (numbered_item self.old) (numbered_item self.new) result }
    {
        let text = text_of(document, start, end)?;
        let Some(value) = item_number(text) else {
            return Err(Stop::Refused(ErrorKind::InvalidListValue));
        };
        self.value = Some(value);
        Ok(())
    }

    /// Adds a paragraph. The mark in it is the mark of the item.
    pub fn take_paragraph(&mut self, paragraph: &TaskParagraphParts)
        requires { self.old.mark ≡ None }
        ensures { GainsParagraph paragraph.now (numbered_item self.old) (numbered_item self.new) }
    {
        self.mark = paragraph.mark;
    }
}

impl TaskParagraphParts {
    /// Returns such a paragraph at its enter.
    pub fn new() -> TaskParagraphParts
        ensures { IsFresh (task_paragraph result) models.task_paragraph }
    {
        TaskParagraphParts { mark: None }
    }

    /// Returns the rule that this item would violate here, if any. A paragraph of such an item
    /// accepts one check mark, and content. A second mark is `ErrorKind::Repeated`, any other part
    /// `ErrorKind::Misplaced`.
    pub fn misfit(&self, what: ItemKind) -> Option<ErrorKind>
        ensures { result ≡ misfit_in (task_paragraph self.now) what }
    {
        match what {
            ItemKind::Content(_) => None,
            ItemKind::Part(Part::TaskMarkChecked | Part::TaskMarkUnchecked) => {
                at_most_one(self.mark.is_some())
            }
            ItemKind::Part(_) => Some(ErrorKind::Misplaced),
        }
    }

    /// Stores a check mark: `[x]` is checked, and `[ ]` is not.
    pub fn take_mark(&mut self, checked: bool)
        requires { misfit_in (task_paragraph self.old) (item_kinds.Part (part_of_mark checked)) ≡ None }
        ensures { GainsSign (part_of_mark checked) (task_paragraph self.old) (task_paragraph self.new) }
    {
        self.mark = Some(checked);
    }
}

/// Returns the rule that this item would violate in a paragraph of an item that has a check mark
/// from an earlier paragraph, if any. Such a paragraph accepts content. A mark is
/// `ErrorKind::Repeated`, any other part `ErrorKind::Misplaced`.
pub fn misfit_in_marked_paragraph(what: ItemKind) -> Option<ErrorKind>
    ensures { result ≡ misfit_in marked_paragraph what }
{
    match what {
        ItemKind::Content(_) => None,
        ItemKind::Part(Part::TaskMarkChecked | Part::TaskMarkUnchecked) => {
            Some(ErrorKind::Repeated)
        }
        ItemKind::Part(_) => Some(ErrorKind::Misplaced),
    }
}

/// Returns the node of an unordered list.
pub fn unordered_list(children: Vec<Node>, position: Position, spread: bool) -> Node
    ensures { view result ≡ placed (tree.list false None spread) (views children.items) position }
{
    list(children, position, false, None, spread)
}

/// Returns the node of a list. An ordered one has a start number.
fn list(
    children: Vec<Node>,
    position: Position,
    ordered: bool,
    start: Option<u32>,
    spread: bool,
) -> Node
    ensures { view result ≡ placed (tree.list ordered start spread) (views children.items) position }
{
    Node::List(List {
        children: settled(children),
        position: Some(position),
        ordered,
        start,
        spread,
    })
}

/// Returns the node of an item, of an ordered list or not. If it has a check mark, its first
/// paragraph loses the blank after the mark. This takes one step, from the paragraph to its first
/// child.
pub fn list_item(
    steps: &mut Steps<'_>,
    children: Vec<Node>,
    position: Position,
    spread: bool,
    mark: Option<bool>,
) -> Node
    ensures node { view result ≡ placed (tree.list_item spread mark) (task_if mark (views children.items)) position }
    ensures list { steps.new.events ≡ steps.old.events }
    ensures bound { steps.new.count ≤ steps.old.count + 1 }
{
    let mut children = children;
    if mark.is_some() {
        steps.tick();
        trim(&mut children);
    }
    unmarked_item(children, position, spread, mark)
}

/// Returns the node of an item with these children.
fn unmarked_item(
    children: Vec<Node>,
    position: Position,
    spread: bool,
    checked: Option<bool>,
) -> Node
    ensures { view result ≡ placed (tree.list_item spread checked) (views children.items) position }
{
    Node::ListItem(ListItem {
        children,
        position: Some(position),
        spread,
        checked,
    })
}
