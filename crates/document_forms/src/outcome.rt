//! What is left to the caller after all of a form is written.

ghost use Rattle.std.specs.Prelude.{◌≡◌, true};

use markdown_nodes::mdast::Node;
use std::mem;

/// What is left to the caller after all of a form is written.
#[derive(Debug, Drop)]
pub struct Printed {
    /// Whether nothing is wrong with the document: only warnings say that something is.
    pub is_clean: bool,
    /// The tree, if one was built. It is freed with this value.
    pub(crate) tree: Option<Node>,
}

impl Printed {
    /// Returns what is left after a form is written for which no tree was built.
    pub(crate) fn without_tree() -> Printed
        ensures { result.is_clean ≡ true }
    {
        Printed {
            is_clean: true,
            tree: None,
        }
    }

    /// Returns whether nothing is wrong, and forgets the tree: it is not freed node by node.
    ///
    /// It is for the last step of a program, whose memory ends with it. After the JSON of a document
    /// it is `true`.
    pub fn forget(self) -> bool
        ensures { result ≡ self.is_clean }
    {
        let is_clean = self.is_clean;
        mem::forget(self);
        is_clean
    }
}
