//! The reader of event lines, in one pass.

ghost use Rattle.std.specs.Prelude.{◌≡◌, ◌<◌, length, None, Some, IfOk, IfErr, IfSome, MatchOption, alloc_error};
ghost use Rattle.event_lines.specs.declared.lines.LinesError.TheVariants.{Memory};
ghost use Rattle.event_lines.specs.Lines.{before, kind_of, event_of, lines, IsErrorOf};
ghost use Rattle.event_lines.specs.Errors.{error_text};
ghost use Rattle.event_lines.specs.Fronts.{EventBegins, HeadBegins, IsSaid};

use crate::point::{SaidPoint, next_point};
use crate::search::find_space;
use markdown_events::event::{Event, Kind, Name};
use std::alloc::{AllocError, AllocFailed, Global};
use std::error::Error;
use std::fmt;

/// Why lines were not read. `Display` writes `event line 2 cannot be read`, or `out of memory`.
#[derive(Debug, Drop)]
pub enum LinesError {
    /// This line, counted from 1, is neither empty nor an event line.
    Unread(usize),
    /// Memory ran out.
    Memory(AllocError),
}

impl fmt::Display for LinesError {
    ghost output = { λ error. Some (error_text error) };

    fn fmt<W: fmt::Write>(&self, f: &mut fmt::Formatter<W>) -> fmt::Result {
        match self {
            LinesError::Unread(number) => write!(f, "event line {number} cannot be read"),
            LinesError::Memory(_) => f.write_str("out of memory"),
        }
    }
}

impl Error for LinesError {}

impl<T: Drop> From<AllocFailed<T>> for LinesError {
    ghost from_gives = { λ _ error. error ≡ Memory alloc_error };

    fn from(error: AllocFailed<T>) -> LinesError {
        LinesError::Memory(AllocError::from(error))
    }
}

/// Reads the events that a text of event lines describes.
///
/// A line is `+Name line:column:index` where a span begins, or the same with `-` where it ends, and
/// `:vs` may come after the index. Lines end with a line feed, which the last may lack. Empty lines
/// are skipped, and numbers must fit 64 bits. The error is `Unread` with the number of the first
/// line that is neither empty nor such a line, and `Memory` if memory runs out. The form of the
/// lines is ours.
///
/// `b"+Data 1:1:0\n-Data 1:3:2\n"` has two events.
pub fn events(alloc: Global, bytes: &[u8]) -> Result<Vec<Event>, LinesError>
    ensures ok { IfOk result (λ events. lines bytes.now ≡ Some events.items) }
    ensures err { IfErr result (λ error. IsErrorOf error bytes.now) }
{
    let mut events = Vec::new(alloc);
    let mut last_point = None;
    let mut rest = bytes;
    let mut number = 0;
    while !rest.is_empty() {
        number += 1;
        if rest[0] == b'\n' {
            rest = &rest[1..];
        } else {
            let Some((event, more)) = event(rest, &mut last_point) else {
                return Err(LinesError::Unread(number));
            };
            events.push(event)?;
            rest = more;
        }
    }
    Ok(events)
}

/// Returns the event of the first line of a text, and the lines after it.
fn event<'a>(text: &'a [u8], last_point: &mut Option<SaidPoint>) -> Option<(Event, &'a [u8])>
    requires text { 0 < length text.now }
    requires last_point { IfSome last_point.old IsSaid }
    ensures found { MatchOption result (event_of (before 10 text.now) ≡ None) (λ found. EventBegins text.now found.0 found.1.now) }
    ensures last_point { IfSome last_point.new IsSaid }
{
    let (kind, name, numbers) = head(text)?;
    let (point, rest) = next_point(numbers, last_point)?;
    Some((Event { kind, name, point }, rest))
}

/// Returns the sign and the name of a line, and the text after the space that follows them.
fn head(text: &[u8]) -> Option<(Kind, Name, &[u8])>
    requires { 0 < length text.now }
    ensures { MatchOption result (event_of (before 10 text.now) ≡ None) (λ found. HeadBegins text.now found.0 found.1 found.2.now) }
{
    let kind = kind(text[0])?;
    let word = &text[1..];
    let end = find_space(word);
    if end == word.len() {
        return None;
    }
    let name = Name::find_bytes(&word[..end])?;
    Some((kind, name, &word[end + 1..]))
}

/// Returns the kind that a sign stands for.
fn kind(sign: u8) -> Option<Kind>
    ensures { result ≡ kind_of sign }
{
    match sign {
        b'+' => Some(Kind::Enter),
        b'-' => Some(Kind::Exit),
        _ => None,
    }
}
