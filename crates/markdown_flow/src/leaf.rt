//! Leaves: the blocks of a document that are not containers (CommonMark).

ghost use Rattle.std.specs.Prelude.{IfSome};

use crate::html_flow::Html;
use crate::line::Line;
use crate::raw_flow::Fence;
use crate::{code_indented, heading_atx, thematic_break};

/// The open leaf.
#[derive(Clone, Copy)]
pub enum Leaf {
    /// There is none.
    None,
    /// A paragraph. Its lines are kept, since they may turn out to be definitions, a heading or a table.
    Paragraph,
    /// Indented code. The last blank lines are kept, since they may not be in it.
    CodeIndented,
    /// Code or math between fences.
    RawFlow {
        /// The fence that opened it.
        fence: Fence,
        /// Whether its last line is empty.
        ends_empty: bool,
    },
    /// An HTML block.
    Html(Html),
    /// A table.
    Table {
        /// Whether it has a row after its head.
        has_body: bool,
    },
}

/// What a leaf begins with, unless it is a paragraph.
#[derive(Clone, Copy)]
pub enum LeafStart {
    /// The indentation of code.
    CodeIndented,
    /// A fence.
    RawFlow(Fence),
    /// A tag, or another beginning of an HTML block.
    Html(Html),
    /// Number signs, and how many there are.
    HeadingAtx(usize),
    /// A thematic break, which is complete.
    ThematicBreak,
}

impl LeafStart {
    ghost use Rattle.markdown_flow.specs.Starts.{IsStart};

    /// Returns the leaf that begins at the cursor of a line that is not blank, unless it is a
    /// paragraph.
    ///
    /// Indented code and some HTML cannot interrupt a paragraph (CommonMark).
    pub fn find(line: &Line<'_>, interrupts: bool) -> Option<LeafStart>
        ensures { IfSome result (λ start. IsStart start line.now) }
    {
        if code_indented::begins(line) {
            return (!interrupts).then_some(LeafStart::CodeIndented);
        }
        match line.text().first()? {
            b'`' | b'~' | b'$' => Fence::find(line).map(LeafStart::RawFlow),
            b'<' => Html::find(line, interrupts).map(LeafStart::Html),
            b'#' => heading_atx::begins(line).map(LeafStart::HeadingAtx),
            _ => thematic_break::begins(line).then_some(LeafStart::ThematicBreak),
        }
    }
}
