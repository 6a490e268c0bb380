//! Link reference definitions: how they are found (CommonMark).

ghost use Rattle.std.specs.Prelude.{IfSome, MatchOption, drop, length, ◌≡◌, ◌≤◌, ◌<◌, ◌+◌, ◌^◌};
ghost use Rattle.commonmark_syntax.specs.Cuts.{IsCut};
ghost use Rattle.commonmark_syntax.specs.Definitions as page;
ghost use Rattle.commonmark_syntax.specs.Language.{IsAt, IsNotAt};
ghost use Rattle.commonmark_syntax.specs.Parentheses.{IsNoDestination, LeavesDestination};
ghost use Rattle.commonmark_syntax.specs.Reading.{Reading, read};
ghost use Rattle.markdown_flow.specs.Parts.{AreCuts};

use commonmark_syntax::bytes::{after, count_while, is_space_or_tab, white_space_length};
use commonmark_syntax::reading::past_byte;
use commonmark_syntax::{destination, label, title};

/// A part of a definition. Its fields are offsets in the text.
#[derive(Clone, Copy)]
pub struct Part {
    /// Where it begins.
    pub start: usize,
    /// Where its string begins, after the mark before it.
    pub string_start: usize,
    /// Where its string ends, before the mark after it.
    pub string_end: usize,
    /// Where it ends.
    pub end: usize,
    ghost start_first: { start ≤ end },
    ghost string_start_first: { string_start ≤ end },
    ghost string_end_first: { string_end ≤ end },
}

/// A definition. Its fields are offsets in the text.
#[derive(Clone, Copy)]
pub struct Definition {
    /// Its label, with its brackets.
    pub label: Part,
    /// Where the colon after its label ends.
    pub marker_end: usize,
    /// Its destination, with its angle brackets if it has them.
    pub destination: Part,
    /// Its title with its marks, if it has one.
    pub title: Option<Part>,
    /// The offset of the line feed that ends its last line.
    pub end: usize,
    ghost label_first: { label.end ≤ end },
    ghost marker_first: { marker_end ≤ end },
    ghost destination_first: { destination.end ≤ end },
}

impl Part {
    /// Returns a part of `size` bytes that has a mark of one byte on each side.
    fn marked(start: usize, size: usize) -> Part
        requires filled { 0 < size }
        requires fits { start + size < 2 ^ 64 }
        ensures start { result.start ≡ start }
        ensures end { result.end ≡ start + size }
        ensures string_start { result.string_start ≡ start + 1 }
        ensures string_end { result.string_end + 1 ≡ start + size }
    {
        let end = start + size;
        Part {
            start,
            string_start: start + 1,
            string_end: end - 1,
            end,
        }
    }

    /// Returns a part of `size` bytes that has no marks.
    fn bare(start: usize, size: usize) -> Part
        requires fits { start + size < 2 ^ 64 }
        ensures start { result.start ≡ start }
        ensures end { result.end ≡ start + size }
        ensures string_start { result.string_start ≡ start }
        ensures string_end { result.string_end ≡ start + size }
    {
        let end = start + size;
        Part {
            start,
            string_start: start,
            string_end: end,
            end,
        }
    }

    /// Whether it has marks.
    pub fn is_marked(&self) -> bool {
        self.start < self.string_start
    }

    /// Whether its string is empty.
    pub fn is_empty(&self) -> bool {
        self.string_start >= self.string_end
    }
}

/// Returns the definition that begins at an offset of a text, if one does. Each line of the text
/// ends with a line feed.
///
/// In `[a]: b "c"` and a line feed it begins at 0 and ends at 10.
pub fn scan(text: &[u8], start: usize) -> Option<Definition>
    ensures exact { MatchOption result (page.IsNoDefinition (drop start text.now)) (λ found. page.LeavesDefinition (drop start text.now) (drop (found.end + 1) text.now)) }
    ensures most { IfSome result (λ found. found.end < length text.now) }
    ensures least { IfSome result (λ found. start < found.end) }
    ensures title { IfSome result (λ found. IfSome found.title (λ title. title.end ≤ found.end)) }
    ensures label { IfSome result (λ found. found.label.string_start ≤ found.label.string_end) }
    ensures label_end { IfSome result (λ found. found.label.string_end ≤ length text.now) }
    ensures label_cuts { IfSome result (λ found. AreCuts text.now found.label.start found.label.string_start found.label.string_end found.label.end) }
    ensures marker_cut { IfSome result (λ found. IsCut text.now found.marker_end) }
    ensures destination_cuts { IfSome result (λ found. AreCuts text.now found.destination.start found.destination.string_start found.destination.string_end found.destination.end) }
    ensures title_cuts { IfSome result (λ found. IfSome found.title (λ title. AreCuts text.now title.start title.string_start title.string_end title.end)) }
{
    let size = label::scan(after(text, start))?;
    let label = Part::marked(start, size);
    let rest = past_byte(after(text, label.end), b':')?;
    let marker_end = label.end + 1;
    let space = white_space_length(rest);
    let destination = scan_destination(text, marker_end + space)?;
    let title = scan_title(text, destination.end);
    let end = match title {
        Some(title) => line_end(text, title.end)?,
        None => line_end(text, destination.end)?,
    };
    Some(Definition {
        label,
        marker_end,
        destination,
        title,
        end,
    })
}

/// Returns the destination that begins at an offset of a text.
fn scan_destination(text: &[u8], start: usize) -> Option<Part>
    requires { IsCut text.now start }
    ensures exact { MatchOption result (IsNoDestination (drop start text.now)) (λ found. LeavesDestination (drop start text.now) (drop found.end text.now)) }
    ensures most { IfSome result (λ found. found.end ≤ length text.now) }
    ensures least { IfSome result (λ found. start < found.end) }
    ensures cuts { IfSome result (λ found. AreCuts text.now found.start found.string_start found.string_end found.end) }
{
    let rest = after(text, start);
    let size = destination::scan(rest)?;
    Some(match rest.first()? {
        b'<' => Part::marked(start, size),
        _ => Part::bare(start, size),
    })
}

/// Returns the title that comes after white space at an offset of a text. Only spaces and tabs may
/// come after it in its last line (CommonMark).
fn scan_title(text: &[u8], offset: usize) -> Option<Part>
    ensures exact { MatchOption result (IsNotAt page.titled_end (drop offset text.now)) (λ found. read page.titled_end (drop offset text.now) ≡ read page.line_end (drop found.end text.now)) }
    ensures closed { IfSome result (λ found. IsAt page.line_end (drop found.end text.now)) }
    ensures most { IfSome result (λ found. found.end ≤ length text.now) }
    ensures least { IfSome result (λ found. offset < found.end) }
    ensures cuts { IfSome result (λ found. AreCuts text.now found.start found.string_start found.string_end found.end) }
{
    let space = white_space_length(after(text, offset));
    if space == 0 {
        return None;
    }
    let start = offset + space;
    let size = title::scan(after(text, start))?;
    let title = Part::marked(start, size);
    line_end(text, title.end)?;
    Some(title)
}

/// Returns the offset of the line feed that ends a line, if only spaces and tabs come before it
/// from an offset on.
fn line_end(text: &[u8], offset: usize) -> Option<usize>
    ensures exact { Reading page.line_end (drop offset text.now) (λ end. drop (end + 1) text.now) result }
    ensures most { IfSome result (λ end. end < length text.now) }
    ensures least { IfSome result (λ end. offset ≤ end) }
{
    let rest = after(text, offset);
    let size = count_while(rest, is_space_or_tab);
    if rest.get(size) != Some(&b'\n') {
        return None;
    }
    Some(offset + size)
}
