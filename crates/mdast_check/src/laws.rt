//! Laws of the definitions. Each is the contract of a function that takes and returns nothing.

ghost use Rattle.std.specs.Prelude.{◌≡◌};
ghost use Rattle.std.specs.List.{filter_map};
ghost use Rattle.markdown_nodes.specs.Tree.{Tree};
ghost use Rattle.mdast_check.specs.References.{open_in};
ghost use Rattle.mdast_check.specs.Undefined.{undefined_in};
ghost use Rattle.mdast_check.specs.Warnings.{warnings_of};

/// The references that [`warnings`](crate::warnings::warnings) reports as undefined are those that
/// [`open_references`](crate::references::open_references) finds.
///
/// For a root of a LinkReference `a` both are that one, whether it has text or not.
pub fn undefined_are_open()
    ensures { (tree : Tree) → filter_map undefined_in (warnings_of tree) ≡ open_in tree }
{}
