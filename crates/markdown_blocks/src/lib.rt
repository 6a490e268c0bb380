//! Block constructs (CommonMark, "Leaf blocks" and "Container blocks"; GFM): what each accepts, the
//! parts that it keeps, and the node at its exit.
//!
//! Constructs that blocks share with inlines are here, too: plain containers (`parent`), code, math
//! and HTML.
#![tactic(auto)]

pub mod code;
pub mod frontmatter;
pub mod heading;
pub mod html;
pub mod list;
pub mod math;
pub mod parent;
pub mod table;
mod task;
pub mod thematic_break;
