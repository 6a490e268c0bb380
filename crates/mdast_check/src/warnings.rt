//! What is wrong in a tree, as a linter reports it.

ghost use Rattle.std.specs.Prelude.{◌≡◌, ◌++◌, IfOk, OnOk, map};
ghost use Rattle.markdown_nodes.specs.View.{view};
ghost use Rattle.mdast_check.specs.Surroundings.{asked_of, finding_in};
ghost use Rattle.mdast_check.specs.Warnings.{Warned, have_text, warned, warnings_at, warnings_of};

mod around;
mod printing;
mod rules;
mod text;

use crate::references::OpenKind;
use around::Surroundings;
use markdown_nodes::mdast::Node;
use markdown_nodes::unist::Position;
use markdown_nodes::walk::Walk;
use rules::problems;
use std::alloc::{AllocError, Global};
use text::texts_in;

/// What is wrong with a node. `Display` writes it as a sentence for people; [`rule`](Problem::rule)
/// returns the rule that is violated, an identifier for programs.
///
/// `Problem::HeadingJump { before: 1, depth: 3 }` is written as
/// `heading of depth 3 after one of depth 1`, and its rule is `heading-jump`.
#[derive(Debug, PartialEq, Eq, Drop)]
pub enum Problem {
    /// A heading that is more than one deeper than the heading before it, if there is one.
    HeadingJump {
        /// The depth of the heading before.
        before: u8,
        /// The depth of the heading.
        depth: u8,
    },
    /// A reference that no definition in the tree answers (see
    /// [`open_references`](crate::references::open_references)).
    ReferenceUndefined {
        /// What it refers to.
        kind: OpenKind,
        /// The identifier that no definition has.
        identifier: String,
    },
    /// A Definition that no link and no image in the tree refers to.
    DefinitionUnused {
        /// Its identifier.
        identifier: String,
    },
    /// A FootnoteDefinition that nothing in the tree calls.
    FootnoteUnused {
        /// Its identifier.
        identifier: String,
    },
    /// A Definition with the identifier of a Definition before it, or a FootnoteDefinition with that of a
    /// FootnoteDefinition before it. In markdown the first one counts.
    DefinitionDuplicate {
        /// The identifier of both.
        identifier: String,
    },
    /// A Link with an empty URL.
    LinkWithoutAddress,
    /// A Link with a URL that is not empty, or a LinkReference, that has no text in it: no literal
    /// with a value, and no image with an alternative text.
    LinkWithoutText,
    /// An Image or an ImageReference with an empty alternative text.
    ImageWithoutAlt,
}

/// Something wrong with a node of a tree. `Display` writes it as
/// `line:column: warning: reason (rule)`, where the reason is the sentence of the problem and the
/// place is where the node starts. If the node has no position, the text begins with `warning`.
///
/// For a heading of depth 3 that starts at the first column of line 3, after one of depth 1, the
/// text is `3:1: warning: heading of depth 3 after one of depth 1 (heading-jump)`.
#[derive(Debug, PartialEq, Eq, Drop)]
pub struct Warning {
    /// What is wrong.
    pub problem: Problem,
    /// Where the node is, and `None` if it has no position. Lines and columns count from 1; an
    /// offset counts bytes from 0.
    pub position: Option<Position>,
}

/// Returns what is wrong in a tree, in the order of its nodes, and for one node in the order of
/// [`Problem`].
///
/// The variants of `Problem` say when each warning occurs. That a reference needs a definition, and
/// that the first of two definitions counts, are rules of CommonMark and, for footnotes, of GitHub.
/// The others are conventions: linters of markdown have rules like these, and their names here are
/// ours. Identifiers are compared byte by byte, since those of mdast are already normalized.
///
/// The only error is that memory ran out. Time and memory are linear in the size of the tree,
/// except for the look-ups of identifiers.
///
/// A root of a Heading of depth 1 and then one of depth 3 has one warning: a `HeadingJump`, with
/// the position of the second.
pub fn warnings(alloc: Global, tree: &Node) -> Result<Vec<Warning>, AllocError>
    ensures { IfOk result (λ found. map warned found.items ≡ warnings_of (view tree.now)) }
{
    let mut around = Surroundings::new(alloc, tree)?;
    let mut texts = texts_in(alloc, tree)?;
    let mut found = Vec::new(alloc);
    let mut walk = Walk::new(alloc, tree);
    'nodes: while let Some(node) = walk.next()? {
        let has_text = texts.pop().unwrap_or(false);
        add_warnings(alloc, node, has_text, &around, &mut found)?;
        around.pass(node)?;
    }
    Ok(found)
}

/// Adds what is wrong with a node, given whether there is text in its children.
fn add_warnings<'a>(
    alloc: Global,
    node: &'a Node,
    has_text: bool,
    around: &Surroundings<'a>,
    found: &mut Vec<Warning>,
) -> Result<(), AllocError>
    requires { has_text ≡ have_text (view node.now).children }
    ensures { OnOk result (map warned found.new.items ≡ map warned found.old.items ++ warnings_at (asked_of around.now) (view node.now)) }
{
    let position = node.position().copied();
    let (first, second) = problems(alloc, node, has_text, around)?;
    add(found, position, first)?;
    add(found, position, second)
}

/// Adds a problem, if there is one, of a node at a position.
fn add(
    found: &mut Vec<Warning>,
    position: Option<Position>,
    problem: Option<Problem>,
) -> Result<(), AllocError>
    ensures { OnOk result (map warned found.new.items ≡ map warned found.old.items ++ map (λ finding. record { finding = finding; position = position }) (finding_in problem)) }
{
    if let Some(problem) = problem {
        found.push(Warning { problem, position })?;
    }
    Ok(())
}
