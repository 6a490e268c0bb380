//! The outline of a tree for people.

ghost use Rattle.std.specs.Prelude.{◌<◌, ◌≤◌, IfOk, IsFalse, IsTrue, length};
ghost use Rattle.markdown_nodes.specs.WalkLevels.{coming};

use crate::line::Line;
use markdown_nodes::mdast::Node;
use markdown_nodes::walk::Walk;
use std::alloc::{AllocError, Global};

/// How many levels of a tree are drawn on the left of a line.
const DRAWN_LEVELS: usize = 32;

/// The least size of a piece in bytes, except for the last one.
const PIECE_SIZE: usize = 65536;

/// The outline of a tree that is still to come: one line for each node, as unist-util-inspect draws
/// it.
///
/// A line has the kind of the node, how many children it has, its position and its fields, the
/// value last. On its left are the outer 32 levels of the tree that the node is in; if there are
/// more, their number is in their place. If a width is given, longer lines are cut to that many
/// characters. The lines come in pieces, so that no one has to hold all of them.
///
/// For the document `# Hi` the first two lines are `root[1] (1:1-1:5, 0-4)` and
/// `└─0 heading[1] (1:1-1:5, 0-4) depth: 1`.
#[derive(Drop)]
pub struct TreeLines<'a> {
    alloc: Global,
    width: Option<usize>,
    /// The levels around the next node, the outermost first.
    levels: Vec<Level>,
    /// The nodes to come.
    walk: Walk<'a>,
}

impl<'a> TreeLines<'a> {
    /// Returns the lines of a tree, cut to this width if there is one.
    pub fn new(alloc: Global, tree: &'a Node, width: Option<usize>) -> TreeLines<'a> {
        TreeLines {
            alloc,
            width,
            levels: Vec::new(alloc),
            walk: Walk::new(alloc, tree),
        }
    }

    /// Puts the next lines into `piece`, in place of what it has, and returns whether there were
    /// any.
    ///
    /// A piece has at least 65,536 bytes, except for the last one. The only error is that memory
    /// ran out.
    pub fn next_into(&mut self, piece: &mut String) -> Result<bool, AllocError>
        ensures more { IfOk result (λ more. IsTrue more → length (coming self.new.walk) < length (coming self.old.walk)) }
    {
        piece.clear();
        if !self.push_line(piece)? {
            return Ok(false);
        }
        self.fill(piece)?;
        Ok(true)
    }

    /// Appends lines until there is a whole piece, or no more are to come.
    fn fill(&mut self, piece: &mut String) -> Result<(), AllocError>
        ensures { IfOk result (λ _. length (coming self.new.walk) ≤ length (coming self.old.walk)) }
    {
        'lines: while piece.len() < PIECE_SIZE {
            if !self.push_line(piece)? {
                return Ok(());
            }
        }
        Ok(())
    }

    /// Appends the line of the next node, and returns whether there was one.
    fn push_line(&mut self, piece: &mut String) -> Result<bool, AllocError>
        ensures fewer { IfOk result (λ more. IsTrue more → length (coming self.new.walk) < length (coming self.old.walk)) }
        ensures end { IfOk result (λ more. IsFalse more → length (coming self.new.walk) ≤ length (coming self.old.walk)) }
    {
        let Some(node) = self.walk.next()? else {
            return Ok(false);
        };
        let line = line(self.alloc, &mut self.levels, node, self.width)?;
        piece.push_str(line.as_str())?;
        piece.push_str("\n")?;
        self.levels.push(Level::of(node))?;
        leave(&mut self.levels);
        Ok(true)
    }
}

/// The children of a node: how many there are, and how many have a line.
#[derive(Clone, Copy)]
struct Level {
    count: usize,
    drawn: usize,
}

impl Level {
    /// Returns the children of a node, before the first has a line.
    fn of(node: &Node) -> Level {
        Level {
            count: node.child_nodes().len(),
            drawn: 0,
        }
    }

    /// Whether each child has a line.
    fn is_drawn(&self) -> bool {
        self.drawn >= self.count
    }

    /// Returns how many digits the index of the last child has.
    fn digits(&self) -> usize {
        digits(self.count.saturating_sub(1))
    }

    /// Appends the branch on the left of the next child, and counts it as drawn.
    fn push_branch(&mut self, line: &mut Line) -> Result<(), AllocError> {
        let index = self.drawn;
        self.drawn = index.saturating_add(1);
        line.push(if self.is_drawn() { "└─" } else { "├─" })?;
        line.push_shown(&index)?;
        line.push_blanks(self.digits().saturating_sub(digits(index)))?;
        line.push(" ")
    }

    /// Appends the trunk on the left of the nodes in that child.
    fn push_trunk(&self, line: &mut Line) -> Result<(), AllocError> {
        line.push(if self.is_drawn() { " " } else { "│" })?;
        line.push_blanks(self.digits().saturating_add(2))
    }
}

/// Returns how many decimal digits a number has.
fn digits(number: usize) -> usize {
    number.checked_ilog10().unwrap_or(0) as usize + 1
}

/// Returns the line of a node within these levels, the outermost first.
fn line(
    alloc: Global,
    levels: &mut [Level],
    node: &Node,
    width: Option<usize>,
) -> Result<String, AllocError> {
    let mut line = Line::new(alloc, width);
    if let Some((innermost, outer)) = levels.split_last_mut() {
        push_trunks(outer, &mut line)?;
        innermost.push_branch(&mut line)?;
    }
    line.push_node(node)?;
    line.finish()
}

/// Appends the trunks on the left of the nodes in levels: those of the outer levels, until the line
/// is full, and the number of the others.
fn push_trunks(levels: &[Level], line: &mut Line) -> Result<(), AllocError> {
    for level in levels.iter().take(DRAWN_LEVELS) {
        if line.is_full() {
            break;
        }
        level.push_trunk(line)?;
    }
    match levels.len().saturating_sub(DRAWN_LEVELS) {
        0 => Ok(()),
        1 => line.push("…[1 level] "),
        hidden => {
            line.push("…[")?;
            line.push_shown(&hidden)?;
            line.push(" levels] ")
        }
    }
}

/// Leaves the innermost levels whose children all have lines.
fn leave(levels: &mut Vec<Level>) {
    'levels: while let Some(level) = levels.last() {
        if !level.is_drawn() {
            break 'levels;
        }
        let _ = levels.pop();
    }
}
