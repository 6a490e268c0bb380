//! The fixed lines of `mdast_show`, which prints the tree of a document and its event lines.

/// The line for wrong arguments.
pub const USAGE: &str = "usage: mdast_show [--check] DOC\n";

/// The line for a document that cannot be read.
pub const UNREADABLE: &str = "mdast_show: cannot read the document\n";

/// The line for events that cannot be read.
pub const UNREADABLE_EVENTS: &str = "mdast_show: cannot read the events\n";

/// The line for memory that ran out. Printing it allocates no memory.
pub const OUT_OF_MEMORY: &str = "mdast_show: out of memory\n";
