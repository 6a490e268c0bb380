//! The open spans of a list of events, and what each event does to them.

ghost use Rattle.std.specs.Prelude.{◌≡◌, ◌≢◌, ◌≤◌, ◌+◌, ◌&&◌, ◌||◌, ◌++◌, ◌∷◌, IfOk, None, Ok, OnOk, [], false, is_some, not, true};
ghost use Rattle.markdown_events.specs.Forest.{enter, exit};
ghost use Rattle.markdown_events.specs.Around.{may_begin};
ghost use Rattle.markdown_events.specs.Names.{is_same_name, role_of};
ghost use Rattle.markdown_events.specs.declared.role.ItemKind.TheVariants as item_kinds;
ghost use Rattle.markdown_events.specs.declared.role.Role.TheVariants as roles;
ghost use Rattle.markdown_steps.specs.Compiler;
ghost use Rattle.markdown_steps.specs.Compiler.{enter_as, enter_checks, enter_step, exit_step, last_checks, opening, run};
ghost use Rattle.markdown_blocks.specs.Parents.{is_parent};
ghost use Rattle.markdown_parts.specs.PartsSoFar.{first_failing};
ghost use Rattle.markdown_containers.specs.declared.container.Container.TheVariants as containers;
ghost use Rattle.markdown_containers.specs.Containers.{current_model_of, misfit_of};
ghost use Rattle.markdown_events.specs.declared.event.Point.{Point};
ghost use Rattle.markdown_grammar.specs.Grammar.{leaf, list_item, model_of, task_paragraph};
ghost use Rattle.markdown_parts.specs.Nest.{innermost};
ghost use Rattle.markdown_grammar.specs.Items as Kinds;
ghost use Rattle.markdown_grammar.specs.Document as Documents;
ghost use Rattle.markdown_grammar.specs.Document.{Source, given_of, source_of};
ghost use Rattle.markdown_tree.specs.States.{
  Begun,
  Closed,
  ContainerEnds,
  Ends,
  IsNoParent,
  LeafEnds,
  Opened,
  OpenedContainer,
  OpenedLeaf,
  Passed,
  PutIn,
  Reaches,
  ReachesTop,
  TakesToken,
  frame_of,
  item_left,
  left_to,
  left_visits,
  state_of,
  state_with,
  top_of,
};
ghost use Rattle.markdown_steps.specs.Visits.{exit_visits, step_visits};
ghost use Rattle.markdown_steps.specs.Well.{Well, is_transparent};

use crate::spare_lists::SpareLists;
use character_references::references::References;
use markdown_blocks::list::{ListItemParts, TaskParagraphParts};
use markdown_blocks::parent::is_parent;
use markdown_blocks::table::Columns;
use markdown_containers::container::Container;
use markdown_containers::open_container::{Ending, OpenContainer, innermost_nodes, remove_last};
use markdown_grammar::error_kind::{ErrorKind, Stop};
use markdown_nodes::around::Around;
use markdown_nodes::event::{Event, Kind, Name, Point};
use markdown_nodes::mdast::Node;
use markdown_nodes::role::{Content, ItemKind, Role, TransparentKind};
use markdown_nodes::steps::Steps;
use markdown_nodes::unist::Position;
use markdown_parts::items::{has_line_endings, is_frontmatter, is_line_ending, is_table};
use markdown_parts::joining::drained;
use markdown_parts::marks::Marks;
use markdown_parts::nest::Nest;
use markdown_parts::slice::{Document, byte_at};
use std::alloc::{AllocError, Global};

/// Why a token is not taken: a stop at its start or at its end. A `Fault` is made of it only where one
/// is kept, since that is far larger.
#[derive(Drop)]
pub enum TokenStop {
    AtStart(Stop),
    AtEnd(Stop),
}

/// The state that the next span in the innermost open one starts in: the context around it, and
/// what is known of the spans before it.
#[derive(Clone, Copy)]
pub struct Interior {
    pub around: Around,
    /// What is known of the spans so far in the innermost open one.
    pub marks: Marks,
}

/// An open span, with the state that was around it at its enter.
#[derive(Clone, Copy)]
pub struct Frame {
    /// Where it begins: the point of its enter.
    pub start: Point,
    /// The state that it started in, in the span around it.
    pub outside: Interior,
    pub name: Name,
    /// Whether a table was around it.
    pub in_table: bool,
}

/// The open spans, with the open containers.
#[derive(Drop)]
pub struct Context<'a> {
    pub frames: Vec<Frame>,
    /// The open containers, the root first.
    pub containers: Nest<OpenContainer<'a>>,
    pub interior: Interior,
    /// Whether the innermost significant span is a leaf, which has no container of its own.
    pub is_leaf: bool,
    /// Whether a table is around, at any depth.
    pub in_table: bool,
    pub columns: Columns,
    /// Lists for the nodes of the next containers.
    pub spare: SpareLists,
    /// A break that waits for its line ending.
    pub pending: Option<Position>,
}

/// Whether a span is frontmatter, and the document has no byte where it begins.
#[inline(always)]
fn lacks_first_byte(document: &Document<'_>, what: ItemKind, point: &Point) -> bool
    ensures { result ≡ (Kinds.is_frontmatter what && not (is_some (Documents.byte_at document.now.bytes point.now))) }
{
    is_frontmatter(what) && byte_at(document, *point).is_none()
}

impl<'a> Context<'a> {
    /// Returns the context before the first event.
    pub fn new(alloc: Global) -> Context<'a>
        ensures { state_of result ≡ opening }
    {
        Context {
            frames: Vec::new(alloc),
            containers: Nest {
                outermost: OpenContainer {
                    container: Container::AnyContent,
                    line_endings: false,
                    nodes: Vec::new(alloc),
                },
                inner: Vec::new(alloc),
            },
            interior: Interior {
                around: Around::in_the_open(),
                marks: Marks::new(),
            },
            is_leaf: false,
            in_table: false,
            columns: Columns::new(alloc),
            spare: SpareLists::new(alloc),
            pending: None,
        }
    }

    /// Whether a break waits for its line ending, and this item is not a line ending.
    #[inline(always)]
    fn interrupts_break(&self, what: ItemKind) -> bool
        ensures { result ≡ not (not (is_some self.now.pending) || Kinds.is_line_ending what) }
    {
        self.pending.is_some() && !is_line_ending(what)
    }

    /// Whether the spans in a significant span are inside a table, which may be the span itself.
    #[inline(always)]
    fn is_in_table(&self, what: ItemKind) -> bool
        ensures { result ≡ (self.now.in_table || Kinds.is_table what) }
    {
        self.in_table || is_table(what)
    }

    /// Whether a span is a table in a table.
    #[inline(always)]
    fn nests_table(&self, what: ItemKind) -> bool
        ensures { result ≡ (self.now.in_table && Kinds.is_table what) }
    {
        self.in_table && is_table(what)
    }

    /// Returns the rule of the innermost container that a significant span violates, if any.
    #[inline(always)]
    fn container_misfit(&self, what: ItemKind) -> Option<ErrorKind>
        ensures { result ≡ misfit_of (innermost self.now.containers).container what }
    {
        self.containers.innermost().container.misfit(what)
    }

    /// Returns the rule that a significant span violates by beginning here, or `None`.
    #[inline(always)]
    fn misfit(&self, document: &Document<'_>, what: ItemKind, point: &Point) -> Option<ErrorKind>
        ensures { (s : Source) → given_of s ≡ document.now
            → result ≡ first_failing (enter_checks s (state_of self.now).top what point.now) }
    {
        if self.is_leaf {
            return Some(ErrorKind::Misplaced);
        }
        if self.interrupts_break(what) {
            return Some(ErrorKind::UnfinishedBreak);
        }
        if let Some(error_kind) = self.container_misfit(what) {
            return Some(error_kind);
        }
        if self.nests_table(what) {
            return Some(ErrorKind::Misplaced);
        }
        if lacks_first_byte(document, what, point) {
            return Some(ErrorKind::InvalidSlice);
        }
        None
    }

    /// Opens a significant span, if the innermost container accepts it, and returns whether it is a
    /// leaf.
    #[inline(always)]
    fn open(
        &mut self,
        alloc: Global,
        document: &Document<'_>,
        what: ItemKind,
        point: &Point,
    ) -> Result<bool, Stop>
        ensures { (s : Source) → given_of s ≡ document.now → Opened s what point.now self.old self.new result }
    {
        if let Some(error_kind) = self.misfit(document, what, point) {
            return Err(Stop::Refused(error_kind));
        }
        if self.containers.innermost().container.takes_as_leaf(what) {
            return Ok(true);
        }
        self.open_container(alloc, what)?;
        Ok(false)
    }

    /// Opens a container in the innermost one, for a significant span that is not a leaf.
    ///
    /// Not inlined: a container is large, and its space would be cleared for each leaf.
    #[inline(never)]
    fn open_container(&mut self, alloc: Global, what: ItemKind) -> Result<(), AllocError>
        requires { model_of (current_model_of (innermost self.old.containers).container) what ≢ leaf }
        ensures { OnOk result ((s : Source) → (point : Point) → first_failing (enter_checks s (top_of self.old) what point) ≡ None
            → OpenedContainer s what point self.old self.new) }
    {
        let around = &self.containers.innermost().container;
        if around.opens_any_content(what) {
            let nodes = self.spare.take(alloc);
            return self.put(what, Container::AnyContent, nodes);
        }
        if around.opens_list_item(what) {
            return self.open_list_item(alloc, what);
        }
        if around.opens_task_paragraph(what) {
            return self.open_task_paragraph(alloc, what);
        }
        self.open_with_parts(alloc, what)
    }

    /// Opens an item of an unordered list. Also not inlined.
    #[inline(never)]
    fn open_list_item(&mut self, alloc: Global, what: ItemKind) -> Result<(), AllocError>
        requires { model_of (current_model_of (innermost self.old.containers).container) what ≡ list_item }
        ensures { OnOk result ((s : Source) → (point : Point) → first_failing (enter_checks s (top_of self.old) what point) ≡ None
            → OpenedContainer s what point self.old self.new) }
    {
        let container = Container::ListItem(ListItemParts::new());
        self.put(what, container, Vec::new(alloc))
    }

    /// Opens a paragraph of an item that has no mark yet. Also not inlined.
    #[inline(never)]
    fn open_task_paragraph(&mut self, alloc: Global, what: ItemKind) -> Result<(), AllocError>
        requires { model_of (current_model_of (innermost self.old.containers).container) what ≡ task_paragraph }
        ensures { OnOk result ((s : Source) → (point : Point) → first_failing (enter_checks s (top_of self.old) what point) ≡ None
            → OpenedContainer s what point self.old self.new) }
    {
        let container = Container::TaskParagraph(TaskParagraphParts::new());
        self.put(what, container, Vec::new(alloc))
    }

    /// Does the same for a container that may keep parts. Also not inlined.
    #[inline(never)]
    fn open_with_parts(&mut self, alloc: Global, what: ItemKind) -> Result<(), AllocError>
        requires { model_of (current_model_of (innermost self.old.containers).container) what ≢ leaf }
        ensures { OnOk result ((s : Source) → (point : Point) → first_failing (enter_checks s (top_of self.old) what point) ≡ None
            → OpenedContainer s what point self.old self.new) }
    {
        let container = self.containers.innermost().container.opened(what);
        self.put(what, container, Vec::new(alloc))
    }

    /// Opens a container in the innermost one, with no nodes in it.
    #[inline(always)]
    fn put(
        &mut self,
        what: ItemKind,
        container: Container<'a>,
        nodes: Vec<Node>,
    ) -> Result<(), AllocError>
        requires { nodes.items ≡ [] }
        ensures { OnOk result (PutIn what container.entry self.old self.new) }
    {
        let inner = OpenContainer {
            container,
            line_endings: has_line_endings(what),
            nodes,
        };
        inner.open_in(&mut self.containers)
    }

    /// Takes one event.
    #[inline(always)]
    pub fn step<R: References>(
        &mut self,
        alloc: Global,
        steps: &mut Steps<'_>,
        document: &Document<'a>,
        references: &R,
        event: &Event,
    ) -> Result<(), Stop>
        requires { Well (source_of document.now (R.text references.now)) (state_of self.old) }
        ensures gives { Reaches self.new event.now.point result
            (Compiler.step (source_of document.now (R.text references.now)) event.now (state_of self.old)) }
        ensures list { steps.new.events ≡ steps.old.events }
        ensures bound { steps.new.count ≤ steps.old.count + step_visits event.now (state_of self.old) + 1 }
    {
        match event.kind {
            Kind::Enter => self.enter(alloc, document, event.name, &event.point),
            Kind::Exit => self.exit(alloc, steps, document, references, event.name, &event.point),
        }
    }

    /// Returns the rule that is violated at the end of the list, or `None`: a span is open, or a
    /// break waits for its line ending.
    pub fn unfinished(&self) -> Option<ErrorKind>
        requires { self.now.frames.items ≡ [] → self.now.is_leaf ≡ false }
        ensures { result ≡ first_failing (last_checks (state_of self.now)) }
    {
        if !self.frames.is_empty() {
            return Some(ErrorKind::Unbalanced);
        }
        if self.pending.is_some() {
            return Some(ErrorKind::UnfinishedBreak);
        }
        None
    }

    /// Returns the nodes of the innermost container: those of the root, once all spans have ended.
    pub fn into_nodes(self) -> Vec<Node>
        ensures { result ≡ (innermost self.entry.containers).nodes }
    {
        let Context { containers, .. } = self;
        innermost_nodes(containers)
    }

    /// Opens a span.
    #[inline(always)]
    pub fn enter(
        &mut self,
        alloc: Global,
        document: &Document<'_>,
        name: Name,
        point: &Point,
    ) -> Result<(), Stop>
        ensures { (s : Source) → given_of s ≡ document.now
            → Reaches self.new point.now result (enter_step s name point.now (state_of self.old)) }
    {
        let role = name.role();
        if !self.interior.around.allows(role) {
            return Err(Stop::Refused(ErrorKind::Held));
        }
        match role {
            Role::Transparent(_) => Ok(self.enter_transparent(alloc, name, role, point)?),
            Role::Significant(what) => self.enter_significant(alloc, document, name, what, point),
        }
    }

    /// Opens a transparent span, which changes no container.
    #[inline(always)]
    fn enter_transparent(
        &mut self,
        alloc: Global,
        name: Name,
        role: Role,
        point: &Point,
    ) -> Result<(), AllocError>
        requires role { role ≡ role_of name }
        requires transparent { is_transparent role ≡ true }
        ensures { OnOk result (Compiler.push name point.now (state_of self.old) None (state_of self.old).top ≡ state_of self.new) }
    {
        let frame = self.go_inside(alloc, name, role, point, self.is_leaf, self.in_table);
        self.frames.push(frame)?;
        Ok(())
    }

    /// Opens a significant span, if the innermost container accepts it.
    #[inline(always)]
    fn enter_significant(
        &mut self,
        alloc: Global,
        document: &Document<'_>,
        name: Name,
        what: ItemKind,
        point: &Point,
    ) -> Result<(), Stop>
        requires { role_of name ≡ roles.Significant what }
        ensures { (s : Source) → given_of s ≡ document.now → Reaches self.new point.now result
            (enter_as s (roles.Significant what) name point.now (state_of self.old)) }
    {
        let is_leaf = self.open(alloc, document, what, point)?;
        let in_table = self.is_in_table(what);
        let role = Role::Significant(what);
        let frame = self.go_inside(alloc, name, role, point, is_leaf, in_table);
        self.frames.push(frame)?;
        Ok(())
    }

    /// Begins the state inside a span. Returns the frame of the span, with the state around it.
    #[inline(always)]
    fn go_inside(
        &mut self,
        alloc: Global,
        name: Name,
        role: Role,
        point: &Point,
        is_leaf: bool,
        in_table: bool,
    ) -> Frame
        ensures frame { result ≡ frame_of name point.now self.old }
        ensures begun { Begun role is_leaf in_table self.old self.new }
    {
        let frame = Frame {
            start: *point,
            outside: self.interior,
            name,
            in_table: self.in_table,
        };
        self.columns.enter(alloc, self.in_table, role);
        self.interior = Interior {
            around: self.interior.around.inside(role),
            marks: Marks::new(),
        };
        self.is_leaf = is_leaf;
        self.in_table = in_table;
        frame
    }

    /// Closes the innermost span, if the name is its name.
    #[inline(always)]
    pub fn exit<R: References>(
        &mut self,
        alloc: Global,
        steps: &mut Steps<'_>,
        document: &Document<'a>,
        references: &R,
        name: Name,
        point: &Point,
    ) -> Result<(), Stop>
        requires { Well (source_of document.now (R.text references.now)) (state_of self.old) }
        ensures gives { Reaches self.new point.now result
            (exit_step (source_of document.now (R.text references.now)) name point.now (state_of self.old)) }
        ensures list { steps.new.events ≡ steps.old.events }
        ensures bound { steps.new.count ≤ steps.old.count + exit_visits name (state_of self.old).frames (top_of self.old).inner + 1 }
    {
        let Some(frame) = self.frames.pop() else {
            return Err(Stop::Refused(ErrorKind::Unbalanced));
        };
        if !frame.name.is(name) {
            return Err(Stop::Refused(ErrorKind::Unbalanced));
        }
        self.end(alloc, steps, document, references, frame, point)
    }

    /// Ends the innermost span. Its frame is not on the stack.
    #[inline(always)]
    fn end<R: References>(
        &mut self,
        alloc: Global,
        steps: &mut Steps<'_>,
        document: &Document<'a>,
        references: &R,
        frame: Frame,
        point: &Point,
    ) -> Result<(), Stop>
        requires { Well (source_of document.now (R.text references.now)) (state_with frame self.old) }
        ensures gives { (name : Name) → is_same_name frame.name name ≡ true → Reaches self.new point.now result
            (exit_step (source_of document.now (R.text references.now)) name point.now (state_with frame self.old)) }
        ensures list { steps.new.events ≡ steps.old.events }
        ensures bound { steps.new.count ≤ steps.old.count + left_visits (role_of frame.name) frame self.old + 1 }
    {
        let role = frame.name.role();
        self.leave(alloc, steps, document, references, role, frame, point)?;
        let inner = self.interior.marks;
        self.interior = frame.outside;
        self.interior.marks.add(role, inner);
        Ok(())
    }

    /// Opens and closes a span that contains no span.
    #[inline(always)]
    pub fn token<R: References>(
        &mut self,
        alloc: Global,
        steps: &mut Steps<'_>,
        document: &Document<'a>,
        references: &R,
        name: Name,
        start: &Point,
        end: &Point,
    ) -> Result<(), TokenStop>
        requires { Well (source_of document.now (R.text references.now)) (state_of self.old) }
        ensures { TakesToken self.new start.now end.now result
            (run (source_of document.now (R.text references.now)) (enter name start.now ∷ exit name end.now ∷ []) (state_of self.old)) }
    {
        match name.role() {
            Role::Transparent(kind) => self.transparent_token(alloc, name, kind, start, end),
            Role::Significant(what) => self.significant_token(
                alloc, steps, document, references, name, what, start, end,
            ),
        }
    }

    /// Opens and closes a significant span that contains no span.
    #[inline(always)]
    fn significant_token<R: References>(
        &mut self,
        alloc: Global,
        steps: &mut Steps<'_>,
        document: &Document<'a>,
        references: &R,
        name: Name,
        what: ItemKind,
        start: &Point,
        end: &Point,
    ) -> Result<(), TokenStop>
        requires role { role_of name ≡ roles.Significant what }
        requires well { Well (source_of document.now (R.text references.now)) (state_of self.old) }
        ensures { TakesToken self.new start.now end.now result
            (run (source_of document.now (R.text references.now)) (enter name start.now ∷ exit name end.now ∷ []) (state_of self.old)) }
    {
        if !self.interior.around.allows(Role::Significant(what)) {
            return Err(TokenStop::AtStart(Stop::Refused(ErrorKind::Held)));
        }
        if let Some(error_kind) = self.misfit(document, what, start) {
            return Err(TokenStop::AtStart(Stop::Refused(error_kind)));
        }
        if self.containers.innermost().container.takes_as_leaf(what) {
            return self.leaf_token(alloc, document, references, name, what, start, end);
        }
        self.container_token(alloc, steps, document, references, name, what, start, end)
    }

    /// Opens and closes a container that contains no span, which the innermost container has accepted.
    ///
    /// Not inlined, as `open_container`: it is rare, and its frame is large.
    #[inline(never)]
    fn container_token<R: References>(
        &mut self,
        alloc: Global,
        steps: &mut Steps<'_>,
        document: &Document<'a>,
        references: &R,
        name: Name,
        what: ItemKind,
        start: &Point,
        end: &Point,
    ) -> Result<(), TokenStop>
        requires role { role_of name ≡ roles.Significant what }
        requires begins { may_begin self.old.interior.around (roles.Significant what) ≡ true }
        requires taken { first_failing (enter_checks (source_of document.now (R.text references.now)) (top_of self.old) what start.now) ≡ None }
        requires container { model_of (current_model_of (innermost self.old.containers).container) what ≢ leaf }
        requires well { Well (source_of document.now (R.text references.now)) (state_of self.old) }
        ensures { TakesToken self.new start.now end.now result
            (run (source_of document.now (R.text references.now)) (enter name start.now ∷ exit name end.now ∷ []) (state_of self.old)) }
    {
        if let Err(error) = self.open_container(alloc, what) {
            return Err(TokenStop::AtStart(Stop::Memory(error)));
        }
        let in_table = self.is_in_table(what);
        let role = Role::Significant(what);
        let frame = self.go_inside(alloc, name, role, start, false, in_table);
        match self.end(alloc, steps, document, references, frame, end) {
            Ok(()) => Ok(()),
            Err(stop) => Err(TokenStop::AtEnd(stop)),
        }
    }

    /// Closes a leaf that contains no span, which the innermost container has accepted.
    #[inline(always)]
    fn leaf_token<R: References>(
        &mut self,
        alloc: Global,
        document: &Document<'a>,
        references: &R,
        name: Name,
        what: ItemKind,
        start: &Point,
        end: &Point,
    ) -> Result<(), TokenStop>
        requires role { role_of name ≡ roles.Significant what }
        requires begins { may_begin self.old.interior.around (roles.Significant what) ≡ true }
        requires opened { OpenedLeaf (source_of document.now (R.text references.now)) what start.now self.old self.old }
        requires well { Well (source_of document.now (R.text references.now)) (state_of self.old) }
        ensures { TakesToken self.new start.now end.now result
            (run (source_of document.now (R.text references.now)) (enter name start.now ∷ exit name end.now ∷ []) (state_of self.old)) }
    {
        let taken = self.containers.innermost_mut().take_leaf(
            &mut self.pending,
            alloc,
            document,
            references,
            what,
            start,
            end,
        );
        if let Err(stop) = taken {
            return Err(TokenStop::AtEnd(stop));
        }
        self.interior.marks.add_childless();
        Ok(())
    }

    /// Opens and closes a transparent span that contains no span.
    #[inline(always)]
    fn transparent_token(
        &mut self,
        alloc: Global,
        name: Name,
        kind: TransparentKind,
        start: &Point,
        end: &Point,
    ) -> Result<(), TokenStop>
        requires { role_of name ≡ roles.Transparent kind }
        ensures { (s : Source) → TakesToken self.new start.now end.now result (run s (enter name start.now ∷ exit name end.now ∷ []) (state_of self.old)) }
    {
        if !self.interior.around.allows(Role::Transparent(kind)) {
            return Err(TokenStop::AtStart(Stop::Refused(ErrorKind::Held)));
        }
        match self.pass(alloc, kind) {
            Ok(()) => Ok(()),
            Err(error) => Err(TokenStop::AtEnd(Stop::Memory(error))),
        }
    }

    /// Adds a transparent span that contains no span to its siblings and to the columns.
    #[inline(always)]
    fn pass(&mut self, alloc: Global, kind: TransparentKind) -> Result<(), AllocError>
        ensures { OnOk result (Passed (roles.Transparent kind) self.old self.new) }
    {
        let role = Role::Transparent(kind);
        self.columns.enter(alloc, self.in_table, role);
        self.columns.exit(kind, Marks::new())?;
        self.interior.marks.add(role, Marks::new());
        Ok(())
    }

    /// Passes what the closing span produced to its owner: that of a transparent span to the
    /// columns, that of a leaf or a container to the container around it.
    #[inline(always)]
    fn leave<R: References>(
        &mut self,
        alloc: Global,
        steps: &mut Steps<'_>,
        document: &Document<'a>,
        references: &R,
        role: Role,
        frame: Frame,
        end: &Point,
    ) -> Result<(), Stop>
        requires { Ends role self.old }
        ensures gives { ReachesTop self.new end.now result
            (left_to (source_of document.now (R.text references.now)) role frame end.now self.old) }
        ensures closed { OnOk result (Closed role self.old self.new) }
        ensures list { steps.new.events ≡ steps.old.events }
        ensures bound { steps.new.count ≤ steps.old.count + left_visits role frame self.old + 1 }
    {
        match role {
            Role::Transparent(kind) => Ok(self.columns.exit(kind, self.interior.marks)?),
            Role::Significant(what) if self.is_leaf => {
                self.leave_leaf(alloc, document, references, what, frame, end)
            }
            Role::Significant(what) => self.leave_container(
                alloc, steps, document, what, frame, end,
            ),
        }
    }

    /// Closes a leaf, which the innermost container takes.
    #[inline(never)]
    fn leave_leaf<R: References>(
        &mut self,
        alloc: Global,
        document: &Document<'a>,
        references: &R,
        what: ItemKind,
        frame: Frame,
        end: &Point,
    ) -> Result<(), Stop>
        requires open { self.old.is_leaf ≡ true }
        requires ends { LeafEnds what self.old }
        ensures gives { ReachesTop self.new end.now result
            (item_left (source_of document.now (R.text references.now)) what frame end.now self.old) }
        ensures closed { OnOk result (Closed (roles.Significant what) self.old self.new) }
    {
        self.containers.innermost_mut().take_leaf(
            &mut self.pending,
            alloc,
            document,
            references,
            what,
            &frame.start,
            end,
        )?;
        self.is_leaf = false;
        Ok(())
    }

    /// Closes the innermost container, which the one around it takes.
    #[inline(always)]
    fn leave_container(
        &mut self,
        alloc: Global,
        steps: &mut Steps<'_>,
        document: &Document<'a>,
        what: ItemKind,
        frame: Frame,
        end: &Point,
    ) -> Result<(), Stop>
        requires open { self.old.is_leaf ≡ false }
        requires ends { ContainerEnds what self.old }
        ensures gives { (s : Source) → given_of s ≡ document.now → ReachesTop self.new end.now result
            (item_left s what frame end.now self.old) }
        ensures closed { OnOk result (Closed (roles.Significant what) self.old self.new) }
        ensures list { steps.new.events ≡ steps.old.events }
        ensures bound { steps.new.count ≤ steps.old.count + left_visits (roles.Significant what) frame self.old + 1 }
    {
        if self.pending.is_some() {
            return Err(Stop::Refused(ErrorKind::UnfinishedBreak));
        }
        match self.containers.innermost().container {
            Container::AnyContent => match what {
                ItemKind::Content(content) if is_parent(content) => {
                    Ok(self.leave_parent(alloc, content, frame, end)?)
                }
                _ => self.close_container(alloc, steps, document, what, frame, end),
            },
            _ => self.leave_parts(alloc, steps, document, what, frame, end),
        }
    }

    /// Closes a parent of which only the nodes are kept, as for most containers. No other part of
    /// its open container is moved.
    fn leave_parent(
        &mut self,
        alloc: Global,
        content: Content,
        frame: Frame,
        end: &Point,
    ) -> Result<(), AllocError>
        requires open { self.old.is_leaf ≡ false }
        requires ends { ContainerEnds (item_kinds.Content content) self.old }
        requires settled { is_some self.old.pending ≡ false }
        requires such { is_parent content ≡ true }
        requires container { (innermost self.old.containers).container ≡ containers.AnyContent }
        ensures gives { OnOk result ((s : Source) →
            item_left s (item_kinds.Content content) frame end.now self.old ≡ Ok (top_of self.new)) }
        ensures closed { OnOk result (Closed (roles.Significant (item_kinds.Content content)) self.old self.new) }
    {
        let mut nodes = remove_last(&mut self.containers.inner);
        let children = drained(alloc, &mut nodes)?;
        self.spare.keep(nodes);
        self.in_table = frame.in_table;
        self.containers
            .innermost_mut()
            .take_parent(content, children, frame.start, *end)
    }

    /// Closes any other container of which only the nodes are kept. No other part of it is moved.
    ///
    /// Not inlined: inlining it slows the loop over the events.
    #[inline(never)]
    fn close_container(
        &mut self,
        alloc: Global,
        steps: &mut Steps<'_>,
        document: &Document<'a>,
        what: ItemKind,
        frame: Frame,
        end: &Point,
    ) -> Result<(), Stop>
        requires open { self.old.is_leaf ≡ false }
        requires ends { ContainerEnds what self.old }
        requires settled { is_some self.old.pending ≡ false }
        requires no_parent { IsNoParent what }
        requires container { (innermost self.old.containers).container ≡ containers.AnyContent }
        ensures gives { (s : Source) → given_of s ≡ document.now → ReachesTop self.new end.now result
            (item_left s what frame end.now self.old) }
        ensures closed { OnOk result (Closed (roles.Significant what) self.old self.new) }
        ensures list { steps.new.events ≡ steps.old.events }
        ensures bound { steps.new.count ≤ steps.old.count + left_visits (roles.Significant what) frame self.old + 1 }
    {
        let ending = Ending {
            start: frame.start,
            end: *end,
            in_table: frame.in_table,
            marks: self.interior.marks,
        };
        let mut nodes = remove_last(&mut self.containers.inner);
        self.in_table = frame.in_table;
        let top = self.containers.innermost_mut();
        match what {
            ItemKind::Content(content) => {
                let columns = &mut self.columns;
                let taken = top.take_any_content(
                    alloc, steps, document, columns, content, &mut nodes, ending,
                );
                self.spare.keep(nodes);
                taken
            }
            ItemKind::Part(part) => {
                let taken = top.take_any_part(alloc, steps, document, part, &mut nodes, ending);
                self.spare.keep(nodes);
                taken
            }
        }
    }

    /// Closes a container with parts of its own. Also not inlined.
    #[inline(never)]
    fn leave_parts(
        &mut self,
        alloc: Global,
        steps: &mut Steps<'_>,
        document: &Document<'a>,
        what: ItemKind,
        frame: Frame,
        end: &Point,
    ) -> Result<(), Stop>
        requires open { self.old.is_leaf ≡ false }
        requires ends { ContainerEnds what self.old }
        requires settled { is_some self.old.pending ≡ false }
        requires container { (innermost self.old.containers).container ≢ containers.AnyContent }
        ensures gives { (s : Source) → given_of s ≡ document.now → ReachesTop self.new end.now result
            (item_left s what frame end.now self.old) }
        ensures closed { OnOk result (Closed (roles.Significant what) self.old self.new) }
        ensures list { steps.new.events ≡ steps.old.events }
        ensures bound { steps.new.count ≤ steps.old.count + left_visits (roles.Significant what) frame self.old + 1 }
    {
        let ending = Ending {
            start: frame.start,
            end: *end,
            in_table: frame.in_table,
            marks: self.interior.marks,
        };
        let Some(own) = self.containers.inner.pop() else {
            unreachable!()
        };
        self.in_table = frame.in_table;
        let top = self.containers.innermost_mut();
        match what {
            ItemKind::Content(content) => top.take_content(
                alloc, steps, document, content, own, ending,
            ),
            ItemKind::Part(part) => {
                top.take_parts(part, own);
                Ok(())
            }
        }
    }
}
