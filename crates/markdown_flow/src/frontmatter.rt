//! Frontmatter: YAML or TOML at the start of a document (micromark).

ghost use Rattle.std.specs.Prelude.{Bool, List, OnOk, IfOk, IfSome, drop, false, length, true, ◌≡◌, ◌<◌};
ghost use Rattle.commonmark_syntax.specs.Blocks.{frontmatter_fence};
ghost use Rattle.commonmark_syntax.specs.Cuts.{IsCut};
ghost use Rattle.commonmark_syntax.specs.Language.{IsNotAt, Leaves};
ghost use Rattle.event_writer.specs.Stages.{Enclosing, flow, inlines};
ghost use Rattle.markdown_events.specs.declared.event.Name.TheVariants.{Frontmatter};
ghost use Rattle.markdown_flow.specs.Outputs.{Keeps, KeepsFlow, Opens, Stands, Writes, WritesOut, constructs_in, constructs_of, line_after, next_of, rest_of, source_of, spot, spot_in};
ghost use Rattle.markdown_pieces.specs.Walks.{at, inside};

use crate::line::Line;
use crate::output::Output;
use commonmark_syntax::frontmatter_fence;
use markdown_events::event::Name;
use std::alloc::AllocError;

/// The number of signs in a fence (micromark).
const SIGNS: usize = 3;

/// Returns the sign of the fences of frontmatter that begins in the first line of a document, if
/// there is any (micromark). Always `None` with `frontmatter` off.
pub fn begins(first: &Line<'_>) -> Option<u8>
    ensures on { IfSome result (λ _. (constructs_in first.now).frontmatter ≡ true) }
    ensures sign { IfSome result (λ sign. sign < 128) }
    ensures some { IfSome result (λ _. 0 < length first.now.rest.now) }
    ensures cut { IfSome result (λ _. IsCut first.now.rest.now 3) }
{
    let sign = *first.rest().first()?;
    let is_sign = matches!(sign, b'-' | b'+');
    let may_begin = first.constructs().frontmatter && is_sign && is_fence(first, sign);
    (may_begin && is_closed(first, sign)).then_some(sign)
}

/// Whether a line is a fence.
fn is_fence(line: &Line<'_>, sign: u8) -> bool
    ensures cut { result ≡ true → sign < 128 → IsCut line.now.rest.now 3 }
    ensures yes { result ≡ true → Leaves (frontmatter_fence sign) line.now.rest.now (drop 3 line.now.rest.now) }
    ensures no { result ≡ false → IsNotAt (frontmatter_fence sign) line.now.rest.now }
{
    frontmatter_fence::scan(line.rest(), sign).is_some()
}

/// Whether a fence comes after a line.
fn is_closed(first: &Line<'_>, sign: u8) -> bool {
    let mut line = *first;
    'lines: while let Some(next) = line.following() {
        if is_fence(&next, sign) {
            return true;
        }
        line = next;
    }
    false
}

/// Writes the frontmatter that begins in a line, and returns the line of its closing fence.
pub fn write<'d>(first: Line<'d>, sign: u8, output: &mut Output<'d>) -> Result<Line<'d>, AllocError>
    requires stands { Stands output.old }
    requires source { first.source ≡ source_of output.old }
    requires on { (constructs_of output.old).frontmatter ≡ true }
    requires start { spot output.old.cursor ≡ spot_in first }
    requires sign { sign < 128 }
    requires some { 0 < length first.rest.now }
    requires cut { IsCut first.rest.now 3 }
    ensures stands { OnOk result (Stands output.new) }
    ensures source { OnOk result (source_of output.new ≡ source_of output.old) }
    ensures line { IfOk result (λ line. (line.source ≡ first.entry.source) × (spot output.new.cursor ≡ next_of line)) }
    ensures opens { KeepsFlow result output.old output.new }
{
    output.begin_kept(&[], &first)?;
    output.enter(Name::Frontmatter)?;
    write_fence(output)?;
    let mut line = first;
    'lines: while let Some(next) = line.following() {
        line = next;
        output.end_line()?;
        output.begin_kept(&[], &line)?;
        if is_fence(&line, sign) {
            write_fence(output)?;
            end(output)?;
            return Ok(line);
        }
        output.token_of_rest(Name::FrontmatterChunk)?;
    }
    end(output)?;
    Ok(line)
}

/// Writes the end of the frontmatter after the current line.
fn end(output: &mut Output<'_>) -> Result<(), AllocError>
    requires writes { Writes output.old }
    requires ended { output.old.cursor.offset ≡ output.old.cursor.extent.end }
    ensures stands { OnOk result (Stands output.new) }
    ensures source { OnOk result (source_of output.new ≡ source_of output.old) }
    ensures spot { OnOk result (spot output.new.cursor ≡ line_after output.old.cursor) }
    ensures opens { (n : Bool) → (outer : List Enclosing) → Opens output.old (at (inlines false) (inside Frontmatter (flow n) outer)) → OnOk result (Opens output.new (at (flow n) outer)) }
{
    output.exit(Name::Frontmatter)?;
    output.end_line()
}

/// Writes the line of a fence.
fn write_fence(output: &mut Output<'_>) -> Result<(), AllocError>
    requires writes { Writes output.old }
    requires cut { IsCut (rest_of output.old) 3 }
    ensures written { OnOk result (WritesOut output.old output.new) }
    ensures opens { Keeps result (inlines false) output.old output.new }
{
    output.enter(Name::FrontmatterFence)?;
    output.token(Name::FrontmatterSequence, SIGNS)?;
    output.token_of_rest(Name::SpaceOrTab)?;
    output.exit(Name::FrontmatterFence)
}
