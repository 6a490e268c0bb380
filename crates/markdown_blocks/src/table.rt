//! Tables (GFM, "Tables"): how their columns are aligned, and their node.
//!
//! In markdown-rs: `on_enter_gfm_table`, `on_exit_gfm_table`. It reads the alignment again at a
//! table's enter (`gfm_table_align`); here it is kept as the events come.

ghost use Rattle.std.specs.Prelude.{◌≡◌, OnOk};
ghost use Rattle.markdown_blocks.specs.Columns.{columns_of};
ghost use Rattle.markdown_parts.specs.Marks.{marks_of};
ghost use Rattle.markdown_parts.specs.PartsSoFar.{placed};
ghost use Rattle.markdown_events.specs.declared.role.Role.TheVariants as roles;
ghost use Rattle.markdown_nodes.specs.Tree as tree;
ghost use Rattle.markdown_nodes.specs.View.{view, views};
ghost use Rattle.markdown_steps.specs.Columns.{columns_entered, columns_left, no_columns};

use markdown_nodes::mdast::{AlignKind, Node, Table};
use markdown_nodes::role::{Content, ItemKind, Role, TransparentKind};
use markdown_nodes::unist::Position;
use markdown_parts::marks::Marks;
use std::alloc::{AllocError, Global};
use std::mem;

/// Where the first delimiter row of the open table is.
#[derive(Clone, Copy)]
pub enum Rows {
    /// It has not begun.
    Before,
    /// It is open.
    Inside,
    /// It has ended.
    After,
}

/// How the columns of the open table are aligned: one entry for each cell of its first delimiter
/// row. Tables do not nest, so one of these is enough for all tables of a document.
#[derive(Drop)]
pub struct Columns {
    pub rows: Rows,
    pub kinds: Vec<AlignKind>,
}

impl Columns {
    /// Returns the columns at the enter of a table, and outside tables: none.
    pub fn new(alloc: Global) -> Columns
        ensures { columns_of result ≡ no_columns }
    {
        Columns {
            rows: Rows::Before,
            kinds: Vec::new(alloc),
        }
    }

    /// Handles the enter of a span of this role, in a table or not. At the enter of a table there
    /// are no entries, and at that of the table's first delimiter row the row is open.
    pub fn enter(&mut self, alloc: Global, in_table: bool, role: Role)
        ensures { columns_of self.new ≡ columns_entered in_table role (columns_of self.old) }
    {
        match role {
            Role::Transparent(TransparentKind::DelimiterRow) => {
                if in_table && matches!(self.rows, Rows::Before) {
                    self.rows = Rows::Inside;
                }
            }
            Role::Significant(ItemKind::Content(Content::Table)) => *self = Columns::new(alloc),
            _ => {}
        }
    }

    /// Handles the exit of a transparent span, with what is known of the spans in it: a cell of the
    /// open row adds an entry. The only error is that memory ran out.
    pub fn exit(&mut self, kind: TransparentKind, inner: Marks) -> Result<(), AllocError>
        ensures { OnOk result (columns_of self.new ≡ columns_left (roles.Transparent kind) (marks_of inner) (columns_of self.old)) }
    {
        if !matches!(self.rows, Rows::Inside) {
            return Ok(());
        }
        match kind {
            TransparentKind::DelimiterRow => self.rows = Rows::After,
            TransparentKind::DelimiterCellValue => self.kinds.push(inner.align_kind())?,
            _ => {}
        }
        Ok(())
    }

    /// Removes and returns the entries, at the exit of the table.
    pub fn take(&mut self, alloc: Global) -> Vec<AlignKind>
        ensures entries { result.items ≡ self.old.kinds.items }
        ensures columns { columns_of self.new ≡ no_columns }
    {
        self.rows = Rows::Before;
        mem::replace(&mut self.kinds, Vec::new(alloc))
    }
}

/// Returns the node of a table with this alignment of its columns.
pub fn table(children: Vec<Node>, position: Position, align: Vec<AlignKind>) -> Node
    ensures { view result ≡ placed (tree.table align.items) (views children.items) position }
{
    Node::Table(Table {
        children,
        position: Some(position),
        align,
    })
}
