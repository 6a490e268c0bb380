//! HTML blocks (CommonMark).

ghost use Rattle.std.specs.Prelude.{Bool, List, OnOk, IfNone, IfOk, IfSome, false, length, slice_index, true, ℕ, ◌≡◌, ◌≢◌, ◌<◌, ◌⊎◌};
ghost use Rattle.commonmark_syntax.specs.Language.{IsNotAt};
ghost use Rattle.commonmark_syntax.specs.declared.html_block.Kind.{Kind};
ghost use Rattle.event_writer.specs.Stages.{Enclosing};
ghost use Rattle.markdown_flow.specs.Leaves.{in_flow, in_html};
ghost use Rattle.markdown_flow.specs.Outputs.{Opens, Writes, WritesOut, constructs_in, constructs_of};

use crate::line::Line;
use crate::output::Output;
use commonmark_syntax::bytes::{count_while, has_byte, is_space_or_tab};
use commonmark_syntax::html_block::Kind;
use markdown_events::event::Name;
use std::alloc::AllocError;

/// An HTML block.
#[derive(Clone, Copy)]
pub struct Html {
    /// What it begins with.
    kind: Kind,
}

impl Html {
    ghost use Rattle.commonmark_syntax.specs.Html.{HasEnd, HoldsFirst, condition, html_start};

    /// Returns the HTML block that begins in a line, if one does (CommonMark). The last kind cannot
    /// interrupt a paragraph. Always `None` with `html_flow` off.
    pub fn find(line: &Line<'_>, interrupts: bool) -> Option<Html>
        ensures on { IfSome result (λ _. (constructs_in line.now).html_flow ≡ true) }
        ensures first { IfSome result (λ html. HoldsFirst html.kind line.now.text.now) }
        ensures none { (constructs_in line.now).html_flow ≡ true → IfNone result ((kind : Kind) → (interrupts ≡ false) ⊎ (condition kind < 7) → IsNotAt (html_start kind) line.now.text.now) }
    {
        if !line.constructs().html_flow {
            return None;
        }
        let kind = Kind::find(line.text())?;
        if interrupts && matches!(kind, Kind::Complete) {
            return None;
        }
        Some(Html { kind })
    }

    /// Whether a blank line ends it.
    pub fn ends_at_blank_line(self) -> bool {
        self.kind.ends_at_blank_line()
    }

    /// Writes its first line, and returns whether it ends there.
    pub fn open(self, output: &mut Output<'_>) -> Result<bool, AllocError>
        requires writes { Writes output.old }
        requires on { (constructs_of output.old).html_flow ≡ true }
        ensures written { OnOk result (WritesOut output.old output.new) }
        ensures opens { (n : Bool) → (outer : List Enclosing) → Opens output.old (in_flow n outer) → IfOk result (λ ends. Opens output.new (in_html ends n outer)) }
    {
        output.enter(Name::HtmlFlow)?;
        let indent = count_while(output.rest(), is_space_or_tab);
        output.token(Name::HtmlFlowData, indent)?;
        self.write_line(output)
    }

    /// Writes a line of it, and returns whether it ends there.
    pub fn write_line(self, output: &mut Output<'_>) -> Result<bool, AllocError>
        requires { Writes output.old }
        ensures written { OnOk result (WritesOut output.old output.new) }
        ensures opens { (n : Bool) → (outer : List Enclosing) → Opens output.old (in_html false n outer) → IfOk result (λ ends. Opens output.new (in_html ends n outer)) }
    {
        let ends = self.ends_in(output.rest());
        output.token_of_rest(Name::HtmlFlowData)?;
        if !ends {
            return Ok(false);
        }
        output.exit(Name::HtmlFlow)?;
        Ok(true)
    }

    /// Whether a line contains its end. Each end has the byte `>`, which few lines contain, so that is
    /// searched for first.
    fn ends_in(self, text: &[u8]) -> bool
        ensures yes { result ≡ true → HasEnd self.kind text.now }
        ensures no { result ≡ false → HasEnd self.kind text.now → ⊥ }
    {
        has_byte(text, b'>') && self.kind.ends_in(text)
    }
}
