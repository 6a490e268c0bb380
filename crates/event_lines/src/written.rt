//! Events, written as event lines.

ghost use Rattle.std.specs.Prelude.{◌≡◌, ◌++◌, IfOk, OnOk, string_bytes};
ghost use Rattle.event_lines.specs.Written.{event_line, point_line, sign, spaces, written};

use markdown_events::decimal::push_decimal;
use markdown_events::event::{Event, Kind, Point};
use std::alloc::{AllocError, Global};

/// Returns the events as a text, one on each line, which [`events`](crate::lines::events) can read.
///
/// A line is `+Name line:column:index` where a span begins, or the same with `-` where it ends, and
/// `:vs` follows the index if there are virtual spaces. Each line ends with a line feed. The form
/// of the lines is ours. The only error is that memory ran out.
///
/// The two events of a data span over `Hi` are written as `+Data 1:1:0` and `-Data 1:3:2`.
pub fn lines_of(alloc: Global, events: &[Event]) -> Result<String, AllocError>
    ensures { IfOk result (λ text. string_bytes text ≡ written events.now) }
{
    let mut text = String::new(alloc);
    for event in events {
        push_event(&mut text, *event)?;
        text.push_str("\n")?;
    }
    Ok(text)
}

/// Writes an event.
#[tactic(auto, unfolding(crate::specs::Written::event_line))]
fn push_event(text: &mut String, event: Event) -> Result<(), AllocError>
    ensures { OnOk result (string_bytes text.new ≡ string_bytes text.old ++ event_line event) }
{
    text.push_str(sign(event.kind))?;
    text.push_str(event.name.text())?;
    text.push_str(" ")?;
    push_point(text, event.point)
}

/// Returns the sign of an event.
fn sign(kind: Kind) -> &'static str
    ensures { result.now ≡ sign kind }
{
    match kind {
        Kind::Enter => "+",
        Kind::Exit => "-",
    }
}

/// Writes a point.
#[tactic(auto, unfolding(crate::specs::Written::point_line))]
fn push_point(text: &mut String, point: Point) -> Result<(), AllocError>
    ensures { OnOk result (string_bytes text.new ≡ string_bytes text.old ++ point_line point) }
{
    push_decimal(text, point.line)?;
    text.push_str(":")?;
    push_decimal(text, point.column)?;
    text.push_str(":")?;
    push_decimal(text, point.index)?;
    push_spaces(text, point.vs)
}

/// Writes virtual spaces, if there are any.
fn push_spaces(text: &mut String, count: usize) -> Result<(), AllocError>
    ensures { OnOk result (string_bytes text.new ≡ string_bytes text.old ++ spaces count) }
{
    if count == 0 {
        return Ok(());
    }
    text.push_str(":")?;
    push_decimal(text, count)
}
