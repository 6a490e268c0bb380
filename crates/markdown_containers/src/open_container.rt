//! An open span with the nodes made in it, and what it takes at the exit of each span in it.

ghost use Rattle.std.specs.Prelude.{[], ◌≡◌, ◌≢◌, ◌≤◌, ◌+◌, ◌∷◌, ◌++◌, ◌&&◌, ◌||◌, IfOk, None, Ok, OnOk, Option, Some, false, is_some, not, true};
ghost use Rattle.markdown_blocks.specs.Parents.{is_parent};
ghost use Rattle.markdown_containers.specs.Containers.{
  current_model_of,
  initial_model_of,
  is_model_of,
  is_part_model,
  misfit_of,
  summary_of_nodes,
};
ghost use Rattle.markdown_containers.specs.ContainerStates.{summary_of_container};
ghost use Rattle.markdown_containers.specs.Takings.{
  IsNodeOf,
  LeavesColumns,
  MakesOf,
  TakesAnyContent,
  TakesAnyLeaf,
  TakesContent,
  TakesKept,
  TakesLeaf,
  TakesNodes,
  TakesParent,
  TakesText,
  content_visits,
  value_text,
};
ghost use Rattle.markdown_blocks.specs.Columns.{columns_of};
ghost use Rattle.markdown_containers.specs.declared.container.Container.TheVariants as containers;
ghost use Rattle.markdown_containers.specs.declared.open_container.OpenContainer.{OpenContainer};
ghost use Rattle.markdown_events.specs.declared.role.Content.TheVariants as contents;
ghost use Rattle.markdown_events.specs.declared.role.ItemKind.TheVariants as item_kinds;
ghost use Rattle.markdown_events.specs.declared.role.Part.TheVariants as parts;
ghost use Rattle.markdown_grammar.specs.Document.{Source, source_of};
ghost use Rattle.markdown_grammar.specs.Grammar as models;
ghost use Rattle.markdown_grammar.specs.Hidden.{hides};
ghost use Rattle.markdown_grammar.specs.Items.{is_line_ending};
ghost use Rattle.markdown_inlines.specs.Autolinks.{is_literal};
ghost use Rattle.markdown_nodes.specs.Tree.{join};
ghost use Rattle.markdown_nodes.specs.View.{views};
ghost use Rattle.markdown_steps.specs.Columns.{Columns as TableColumns};
ghost use Rattle.markdown_steps.specs.Visits.{visits_at_end};
ghost use Rattle.markdown_parts.specs.Nest.{IsPut, innermost};

use crate::container::Container;
use character_references::references::References;
use markdown_blocks::code::{indented_code, inline_code};
use markdown_blocks::frontmatter::frontmatter;
use markdown_blocks::html::html;
use markdown_blocks::list::{ListItemParts, NumberedItemParts, list_item, unordered_list};
use markdown_blocks::math::inline_math;
use markdown_blocks::parent::parent;
use markdown_blocks::table::{Columns, table};
use markdown_blocks::thematic_break::thematic_break;
use markdown_grammar::error_kind::Stop;
use markdown_inlines::autolink::literal;
use markdown_inlines::text::{hard_break, put_line_ending, put_slice};
use markdown_nodes::event::Point;
use markdown_nodes::mdast::Node;
use markdown_nodes::role::{Content, ItemKind, Part};
use markdown_nodes::steps::Steps;
use markdown_nodes::unist::Position;
use markdown_parts::items::has_line_endings_after;
use markdown_parts::joining::{append, drained, put, put_text};
use markdown_parts::marks::Marks;
use markdown_parts::nest::Nest;
use markdown_parts::slice::{Document, byte_at, position_of};
use std::alloc::{AllocError, Global};

/// An open significant span that is not a leaf, or the root, with the nodes made in it so far.
#[derive(Drop)]
pub struct OpenContainer<'a> {
    pub container: Container<'a>,
    /// Whether a line ending is text in it now.
    pub line_endings: bool,
    pub nodes: Vec<Node>,
}

/// A span that ends, and the surroundings that its node depends on.
#[derive(Clone, Copy)]
pub struct Ending {
    pub start: Point,
    pub end: Point,
    /// Whether a table is around it.
    pub in_table: bool,
    /// What is known of the spans in it.
    pub marks: Marks,
}

impl<'a> OpenContainer<'a> {
    /// Takes a leaf that has ended. `pending` is the break that waits for its line ending, if there
    /// is one.
    #[inline(always)]
    pub fn take_leaf<R: References>(
        &mut self,
        pending: &mut Option<Position>,
        alloc: Global,
        document: &Document<'a>,
        references: &R,
        what: ItemKind,
        start: &Point,
        end: &Point,
    ) -> Result<(), Stop>
        requires leaf { models.model_of (current_model_of self.old.container) what ≡ models.leaf }
        requires fits { misfit_of self.old.container what ≡ None }
        requires waits { (not (is_some pending.old) || is_line_ending what) ≡ true }
        ensures { TakesLeaf (source_of document.now (R.text references.now)) what start.now end.now pending.old self.old pending.new self.new result }
    {
        match what {
            ItemKind::Content(content) => {
                self.take_leaf_content(pending, alloc, document, content, start, end)
            }
            ItemKind::Part(part) => self.take_leaf_part(
                alloc, document, references, part, start, end,
            ),
        }
    }

    /// Takes content that is a leaf, and becomes nodes.
    #[inline(always)]
    fn take_leaf_content(
        &mut self,
        pending: &mut Option<Position>,
        alloc: Global,
        document: &Document<'_>,
        content: Content,
        start: &Point,
        end: &Point,
    ) -> Result<(), Stop>
        requires leaf { models.content_model (current_model_of self.old.container) content ≡ models.leaf }
        requires waits { (not (is_some pending.old) || is_line_ending (item_kinds.Content content)) ≡ true }
        ensures { TakesAnyLeaf document.now (item_kinds.Content content) start.now end.now pending.old self.old pending.new self.new result }
    {
        match content {
            Content::Data => self.take_data(alloc, document, start, end),
            Content::AutolinkLiteralEmail
            | Content::AutolinkLiteralWww
            | Content::AutolinkLiteralWhole => self.take_literal(
                alloc, document, content, start, end,
            ),
            Content::ThematicBreak => self.take_thematic_break(start, end),
            Content::HardBreak => {
                *pending = Some(position_of(*start, *end));
                Ok(())
            }
            Content::LineEnding => self.take_line_ending(pending, alloc, document, start, end),
            _ => unreachable!(),
        }
    }

    /// Takes a part that is a leaf. The container keeps what it needs of it.
    #[inline(never)]
    fn take_leaf_part<R: References>(
        &mut self,
        alloc: Global,
        document: &Document<'a>,
        references: &R,
        part: Part,
        start: &Point,
        end: &Point,
    ) -> Result<(), Stop>
        requires leaf { models.part_model (current_model_of self.old.container) part ≡ models.leaf }
        requires fits { misfit_of self.old.container (item_kinds.Part part) ≡ None }
        ensures { TakesLeaf (source_of document.now (R.text references.now)) (item_kinds.Part part) start.now end.now None self.old None self.new result }
    {
        let taken = self
            .container
            .take_leaf_part(alloc, document, references, part, *start, *end);
        self.line_endings = has_line_endings_after(part, self.line_endings);
        taken
    }

    /// Takes a run of characters, which becomes a text.
    #[inline(never)]
    fn take_data(
        &mut self,
        alloc: Global,
        document: &Document<'_>,
        start: &Point,
        end: &Point,
    ) -> Result<(), Stop>
        ensures { TakesAnyLeaf document.now (item_kinds.Content contents.Data) start.now end.now None self.old None self.new result }
    {
        put_slice(alloc, &mut self.nodes, document, *start, *end)
    }

    /// Takes an autolink literal, which becomes a link.
    #[inline(never)]
    fn take_literal(
        &mut self,
        alloc: Global,
        document: &Document<'_>,
        content: Content,
        start: &Point,
        end: &Point,
    ) -> Result<(), Stop>
        requires { is_literal content ≡ true }
        ensures { TakesAnyLeaf document.now (item_kinds.Content content) start.now end.now None self.old None self.new result }
    {
        let node = literal(alloc, document, content, *start, *end)?;
        put(&mut self.nodes, node)?;
        Ok(())
    }

    /// Takes a thematic break.
    #[inline(never)]
    fn take_thematic_break(&mut self, start: &Point, end: &Point) -> Result<(), Stop>
        ensures { (s : Source) → TakesLeaf s (item_kinds.Content contents.ThematicBreak) start.now end.now None self.old None self.new result }
    {
        let position = position_of(*start, *end);
        put(&mut self.nodes, thematic_break(position))?;
        Ok(())
    }

    /// Takes a line ending. If a break waits for it, it ends the break, which is then a node: in
    /// mdast a break includes its line ending. Otherwise it is text, where line endings are text.
    #[inline(never)]
    fn take_line_ending(
        &mut self,
        pending: &mut Option<Position>,
        alloc: Global,
        document: &Document<'_>,
        start: &Point,
        end: &Point,
    ) -> Result<(), Stop>
        ensures { TakesAnyLeaf document.now (item_kinds.Content contents.LineEnding) start.now end.now
            pending.old self.old pending.new self.new result }
    {
        if let Some(position) = pending.take() {
            put(&mut self.nodes, hard_break(position, *end))?;
            return Ok(());
        }
        if self.line_endings {
            return put_line_ending(alloc, &mut self.nodes, document, *start, *end);
        }
        Ok(())
    }
}

impl<'a> OpenContainer<'a> {
    /// Takes a part that has ended, whose container accepts any content.
    pub fn take_any_part(
        &mut self,
        alloc: Global,
        steps: &mut Steps<'_>,
        document: &Document<'a>,
        part: Part,
        nodes: &mut Vec<Node>,
        ending: Ending,
    ) -> Result<(), Stop>
        requires such { is_part_model part models.any_content ≡ true }
        requires fits { misfit_of self.old.container (item_kinds.Part part) ≡ None }
        ensures left { TakesText document.now part (views nodes.old.items) ending self.old self.new result }
        ensures list { steps.new.events ≡ steps.old.events }
        ensures bound { steps.new.count ≤ steps.old.count + visits_at_end (item_kinds.Part part) (summary_of_nodes (views nodes.old.items)) }
    {
        match part {
            Part::HeadingSetextText => Ok(self.take_heading_text(nodes)?),
            _ => self.take_text(alloc, steps, document, part, nodes, ending),
        }
    }

    /// Takes the text of a heading above its underline, whose nodes are the heading's. After it
    /// line endings are not text.
    fn take_heading_text(&mut self, nodes: &mut Vec<Node>) -> Result<(), AllocError>
        requires { misfit_of self.old.container (item_kinds.Part parts.HeadingSetextText) ≡ None }
        ensures { OnOk result (TakesNodes (item_kinds.Part parts.HeadingSetextText) (views nodes.old.items) self.old self.new) }
    {
        self.container.take_heading_text();
        append(&mut self.nodes, nodes)?;
        self.line_endings = false;
        Ok(())
    }

    /// Takes a part that contained content: a label, a destination, a title, or the text after a
    /// fence.
    fn take_text(
        &mut self,
        alloc: Global,
        steps: &mut Steps<'_>,
        document: &Document<'a>,
        part: Part,
        nodes: &mut Vec<Node>,
        ending: Ending,
    ) -> Result<(), Stop>
        requires such { is_part_model part models.any_content ≡ true }
        requires heading { part ≢ parts.HeadingSetextText }
        requires fits { misfit_of self.old.container (item_kinds.Part part) ≡ None }
        ensures left { TakesText document.now part (views nodes.old.items) ending self.old self.new result }
        ensures list { steps.new.events ≡ steps.old.events }
        ensures bound { steps.new.count ≤ steps.old.count + visits_at_end (item_kinds.Part part) (summary_of_nodes (views nodes.old.items)) }
    {
        self.container.take_text(
            alloc,
            steps,
            document,
            part,
            nodes,
            ending.start,
            ending.end,
        )
    }

    /// Takes a part with parts of its own. After a first fence line endings are text.
    pub fn take_parts(&mut self, part: Part, own: OpenContainer<'_>)
        requires model { initial_model_of own.container ≡ models.part_model (current_model_of self.old.container) part }
        requires other { own.container ≢ containers.AnyContent }
        requires such { is_part_model part (initial_model_of own.container) ≡ true }
        requires fits { misfit_of self.old.container (item_kinds.Part part) ≡ None }
        ensures { TakesKept part own.entry.container self.old self.new }
    {
        let OpenContainer { container, .. } = own;
        self.container.take_part(part, container);
        self.line_endings = has_line_endings_after(part, self.line_endings);
    }
}

/// Returns the nodes of the innermost of open containers: those of the root, once all spans have
/// ended.
#[inline(always)]
pub fn innermost_nodes(containers: Nest<OpenContainer<'_>>) -> Vec<Node>
    ensures { result ≡ (innermost containers.entry).nodes }
{
    containers.into_innermost().into_nodes()
}

/// Removes the last of containers, and returns the nodes made in it.
#[inline(always)]
pub fn remove_last(containers: &mut Vec<OpenContainer<'_>>) -> Vec<Node>
    requires { containers.old.items ≢ [] }
    ensures { (own : OpenContainer) × (containers.old.items ≡ containers.new.items ++ own ∷ []) × (result ≡ own.nodes) }
{
    match containers.pop() {
        Some(last) => last.into_nodes(),
        None => unreachable!(),
    }
}

impl<'a> OpenContainer<'a> {
    /// Becomes the innermost of open containers. The error is that memory ran out.
    #[inline(always)]
    pub fn open_in(self, containers: &mut Nest<OpenContainer<'a>>) -> Result<(), AllocError>
        ensures { OnOk result (IsPut self.entry containers.old containers.new) }
    {
        containers.inner.push(self)?;
        Ok(())
    }
}

impl OpenContainer<'_> {
    /// Returns the nodes made in it, once the span has ended.
    #[inline(always)]
    pub fn into_nodes(self) -> Vec<Node>
        ensures { result ≡ self.entry.nodes }
    {
        let OpenContainer { nodes, .. } = self;
        nodes
    }

    /// Takes a parent that has ended, of which only the nodes are kept.
    pub fn take_parent(
        &mut self,
        content: Content,
        nodes: Vec<Node>,
        start: Point,
        end: Point,
    ) -> Result<(), AllocError>
        requires { is_parent content ≡ true }
        ensures { OnOk result (TakesParent content start end nodes self.old self.new) }
    {
        let node = parent(content, nodes, position_of(start, end));
        put(&mut self.nodes, node)?;
        Ok(())
    }
}

impl<'a> OpenContainer<'a> {
    /// Takes content that has ended and is not a parent, whose container accepts any content. It
    /// becomes a node.
    pub fn take_any_content(
        &mut self,
        alloc: Global,
        steps: &mut Steps<'_>,
        document: &Document<'_>,
        columns: &mut Columns,
        content: Content,
        nodes: &mut Vec<Node>,
        ending: Ending,
    ) -> Result<(), Stop>
        requires such { is_model_of content models.any_content ≡ true }
        requires no_parent { is_parent content ≡ false }
        ensures left { TakesAnyContent document.now content nodes.old ending (columns_of columns.old) self.old self.new result }
        ensures columns { OnOk result (LeavesColumns content ending.marks columns.old columns.new) }
        ensures list { steps.new.events ≡ steps.old.events }
        ensures bound { steps.new.count ≤ steps.old.count + visits_at_end (item_kinds.Content content) (summary_of_nodes (views nodes.old.items)) }
    {
        let node = any_content_node(alloc, steps, document, columns, content, nodes, ending)?;
        put(&mut self.nodes, node)?;
        Ok(())
    }

    /// Takes content with parts of its own that has ended: its node, and what else it contributes.
    pub fn take_content(
        &mut self,
        alloc: Global,
        steps: &mut Steps<'_>,
        document: &Document<'_>,
        content: Content,
        own: OpenContainer<'_>,
        ending: Ending,
    ) -> Result<(), Stop>
        requires initial_model { initial_model_of own.container ≡ models.content_model (current_model_of self.old.container) content }
        requires such { is_model_of content (initial_model_of own.container) ≡ true }
        requires other { own.container ≢ containers.AnyContent }
        ensures left { (columns : TableColumns) → TakesContent document.now content own.entry ending columns self.old self.new result }
        ensures list { steps.new.events ≡ steps.old.events }
        ensures bound { steps.new.count ≤ steps.old.count + content_visits content own.entry + 1 }
    {
        self.container.take_content(content, &own.container);
        match content {
            Content::CharacterReference => self.take_reference(alloc, own, ending),
            _ => {
                let node = own.node(alloc, steps, document, content, ending)?;
                put(&mut self.nodes, node)?;
                Ok(())
            }
        }
    }

    /// Takes the text that a character reference stands for, if it has a value.
    fn take_reference(
        &mut self,
        alloc: Global,
        own: OpenContainer<'_>,
        ending: Ending,
    ) -> Result<(), Stop>
        requires { is_model_of contents.CharacterReference (initial_model_of own.container) ≡ true }
        ensures container { self.new.container ≡ self.old.container }
        ensures line_endings { self.new.line_endings ≡ self.old.line_endings }
        ensures text { MakesOf own.entry result
            (λ _. views self.new.nodes.items ≡ join (views self.old.nodes.items) (value_text own.entry ending)) }
    {
        let OpenContainer { container, .. } = own;
        match container {
            Container::CharacterReference(parts) => {
                let text = parts.text()?;
                let position = position_of(ending.start, ending.end);
                put_text(alloc, &mut self.nodes, text.as_str(), position)?;
                Ok(())
            }
            _ => unreachable!(),
        }
    }
}

impl<'a> OpenContainer<'a> {
    /// Returns the node of a span of content with parts of its own, at its exit, if it has its
    /// required parts.
    fn node(
        self,
        alloc: Global,
        steps: &mut Steps<'_>,
        document: &Document<'_>,
        content: Content,
        ending: Ending,
    ) -> Result<Node, Stop>
        requires such { is_model_of content (initial_model_of self.container) ≡ true }
        requires reference { content ≢ contents.CharacterReference }
        requires other { self.container ≢ containers.AnyContent }
        ensures node { MakesOf self.entry result (λ node. (columns : TableColumns) → IsNodeOf document.now content ending columns (summary_of_container self.entry) node) }
        ensures list { steps.new.events ≡ steps.old.events }
        ensures bound { steps.new.count ≤ steps.old.count + content_visits content self.entry + 1 }
    {
        let OpenContainer {
            container,
            line_endings: _,
            mut nodes,
        } = self;
        let position = position_of(ending.start, ending.end);
        match container {
            Container::TaskParagraph(_) | Container::MarkedParagraph => {
                Ok(parent(Content::Paragraph, nodes, position))
            }
            Container::ListOrdered(parts) => parts.node(
                nodes,
                position,
                ending.marks.is_loose_list,
            ),
            Container::ListItem(ListItemParts { mark }) => {
                Ok(list_item(steps, nodes, position, ending.marks.is_loose_item, mark))
            }
            Container::NumberedItem(NumberedItemParts { mark, .. }) => {
                Ok(list_item(steps, nodes, position, ending.marks.is_loose_item, mark))
            }
            Container::FootnoteDefinition(parts) => Ok(parts.node(alloc, nodes, position)),
            Container::HeadingAtx(parts) => parts.node(nodes, position),
            Container::HeadingSetext(parts) => parts.node(nodes, position),
            Container::CodeFenced(parts) => parts.node(
                alloc, steps, document, &mut nodes, position,
            ),
            Container::MathFlow(parts) => parts.node(alloc, steps, document, &mut nodes, position),
            Container::Autolink(parts) => Ok(parts.node(alloc, ending.start, ending.end)?),
            Container::Media(parts) if content == Content::Image => {
                Ok(parts.image(alloc, steps, position)?)
            }
            Container::Media(parts) => Ok(parts.link(alloc, steps, position)?),
            Container::FootnoteCall(parts) => Ok(parts.node(alloc, steps, position)?),
            Container::Definition(parts) => Ok(parts.node(alloc, position)),
            Container::AnyContent
            | Container::CharacterReference(_)
            | Container::Resource(_)
            | Container::Reference(_)
            | Container::CodeFence(_)
            | Container::MathFence(_) => unreachable!(),
        }
    }
}

/// Whether the backslashes before pipes are removed from inline code and math. This is done in a
/// table, unless there are hidden bytes: then the backslashes are among them.
fn unescapes(document: &Document<'_>, ending: Ending) -> bool
    ensures { result ≡ (ending.in_table && not (hides document.now.hidden)) }
{
    ending.in_table && !document.hides()
}

/// Returns the node of content that may contain any content, and is not a parent.
#[tactic(auto, unfolding(markdown_nodes::specs::View::view))]
fn any_content_node(
    alloc: Global,
    steps: &mut Steps<'_>,
    document: &Document<'_>,
    columns: &mut Columns,
    content: Content,
    nodes: &mut Vec<Node>,
    ending: Ending,
) -> Result<Node, AllocError>
    requires such { is_model_of content models.any_content ≡ true }
    requires no_parent { is_parent content ≡ false }
    ensures node { IfOk result (IsNodeOf document.now content ending (columns_of columns.old) (summary_of_nodes (views nodes.old.items))) }
    ensures columns { OnOk result (LeavesColumns content ending.marks columns.old columns.new) }
    ensures list { steps.new.events ≡ steps.old.events }
    ensures bound { steps.new.count ≤ steps.old.count + visits_at_end (item_kinds.Content content) (summary_of_nodes (views nodes.old.items)) }
{
    let position = position_of(ending.start, ending.end);
    match content {
        Content::Table => Ok(table(drained(alloc, nodes)?, position, columns.take(alloc))),
        Content::ListUnordered => {
            let children = drained(alloc, nodes)?;
            Ok(unordered_list(children, position, ending.marks.is_loose_list))
        }
        Content::CodeIndented => indented_code(alloc, steps, nodes, position),
        Content::CodeText => inline_code(
            alloc,
            steps,
            nodes,
            position,
            unescapes(document, ending),
        ),
        Content::MathText => inline_math(
            alloc,
            steps,
            nodes,
            position,
            unescapes(document, ending),
        ),
        Content::Html => html(alloc, steps, nodes, position),
        Content::Frontmatter => {
            let is_toml = byte_at(document, ending.start) == Some(b'+');
            frontmatter(alloc, steps, nodes, position, is_toml)
        }
        _ => unreachable!(),
    }
}
