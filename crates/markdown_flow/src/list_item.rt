//! List items, and the lists that they form (CommonMark).

ghost use Rattle.std.specs.Prelude.{List, OnOk, IfNone, IfOk, IfSome, drop, false, nat_lt, slice_index, true, ◌≡◌, ◌<◌, ◌+◌};
ghost use Rattle.commonmark_syntax.specs.Blocks as blocks;
ghost use Rattle.commonmark_syntax.specs.Language as syntax;
ghost use Rattle.event_writer.specs.Stages.{Enclosing, flow, item};
ghost use Rattle.markdown_events.specs.declared.event.Name.TheVariants.{ListItem};
ghost use Rattle.markdown_flow.specs.Containers.{after_item, before_number, in_list, list_name};
ghost use Rattle.markdown_flow.specs.Markers.{HasMarker, IsNoItem, is_ordered};
ghost use Rattle.markdown_flow.specs.Outputs.{IsAt, Opens, Stands, Writes, Reads, constructs_in, constructs_of};
ghost use Rattle.markdown_flow.specs.Moves.{HasMoved};
ghost use Rattle.markdown_flow.specs.declared.line.Source.{Source};
ghost use Rattle.markdown_pieces.specs.Tilings.{Spot};
ghost use Rattle.markdown_pieces.specs.Walks.{at, inside};

use crate::input::Input;
use crate::line::{Line, TAB_SIZE};
use crate::output::Output;
use crate::thematic_break;
use commonmark_syntax::list_marker;
use markdown_events::event::Name;
use std::alloc::AllocError;

/// The progress of an item.
#[derive(Clone, Copy, PartialEq, Eq)]
enum Progress {
    /// Its first line is empty, and no other line has come yet.
    BeganBlank,
    /// It is not empty.
    Filled,
    /// It began blank, and a blank line came next. It has ended, but its list may continue
    /// (CommonMark).
    Ended,
}

/// An open item.
#[derive(Clone, Copy)]
pub struct Item {
    /// The bullet, or the delimiter after the number. Items with the same one form a list.
    pub marker: u8,
    /// How many columns its lines are indented.
    size: usize,
    /// Its progress.
    progress: Progress,
}

/// What an item begins with.
#[derive(Clone, Copy)]
pub struct ItemStart {
    /// The bullet, or the delimiter after the number.
    pub marker: u8,
    /// How many digits come before it.
    digits: usize,
    ghost counted: { is_ordered marker ≡ nat_lt 0 digits },
}

/// Returns the name of the list of items with a marker.
pub fn list_name(marker: u8) -> Name
    ensures { result ≡ list_name (is_ordered marker) }
{
    match marker {
        b'.' | b')' => Name::ListOrdered,
        _ => Name::ListUnordered,
    }
}

/// Returns the item that begins at the cursor of a line, if one does. Always `None` with
/// `list_item` off.
///
/// An item can interrupt a paragraph only if it is not blank, and has no number or the number 1
/// (CommonMark).
pub fn begins(line: &Line<'_>, interrupts: bool) -> Option<ItemStart>
    ensures marker { IfSome result (λ start. HasMarker line.now.text.now start.digits) }
    ensures on { IfSome result (λ _. (constructs_in line.now).list_item ≡ true) }
    ensures exact { IfSome result (λ start. syntax.Leaves blocks.list_marker line.now.text.now (drop (start.digits + 1) line.now.text.now)) }
    ensures none { (constructs_in line.now).list_item ≡ true → IfNone result (IsNoItem interrupts line.now.text.now) }
    ensures interrupting { interrupts ≡ true → IfSome result (λ _. syntax.IsAt blocks.interrupting_list_marker line.now.text.now) }
{
    if !line.constructs().list_item || thematic_break::begins(line) {
        return None;
    }
    let text = line.text();
    if !may_begin(text, interrupts) {
        return None;
    }
    let size = list_marker::scan(text)?;
    let digits = size - 1;
    let marker = text[digits];
    Some(ItemStart { marker, digits })
}

/// Whether the item that a text begins with may begin, given whether it interrupts a paragraph.
fn may_begin(text: &[u8], interrupts: bool) -> bool
    ensures yes { result ≡ true → interrupts ≡ true → syntax.IsAt blocks.interrupting_list_marker text.now }
    ensures no { result ≡ false → (interrupts ≡ true) × syntax.IsNotAt blocks.interrupting_list_marker text.now }
{
    !interrupts || list_marker::may_interrupt(text)
}

impl Item {
    /// Whether it continues in a line. If it does, its indentation is read.
    pub fn continues(&mut self, input: &mut Input<'_>) -> Result<bool, AllocError>
        ensures reads { (source : Source) → (from : Spot) → Reads source from input.old → OnOk result (Reads source from input.new) }
        ensures moved { OnOk result (HasMoved input.old.line input.new.line) }
        ensures marker { self.new.marker ≡ self.old.marker }
    {
        if input.line.is_blank() && self.progress != Progress::Filled {
            self.progress = Progress::Ended;
        }
        let is_indented = input.line.is_blank() || input.line.indent() >= self.size;
        if self.is_ended() || !is_indented {
            return Ok(false);
        }
        self.progress = Progress::Filled;
        input.columns(self.size)?;
        Ok(true)
    }

    /// Whether it has ended, while its list may continue.
    pub fn is_ended(&self) -> bool {
        self.progress == Progress::Ended
    }
}

/// Writes the end of an item inside `outside` containers.
pub fn close(item: &Item, outside: usize, output: &mut Output<'_>) -> Result<(), AllocError>
    requires { Stands output.old }
    ensures stands { OnOk result (Stands output.new) }
    ensures cursor { output.new.cursor ≡ output.old.cursor }
    ensures opens { (outer : List Enclosing) → Opens output.old (at (flow (is_ordered item.now.marker)) (inside ListItem (in_list (is_ordered item.now.marker)) outer)) → OnOk result (Opens output.new (at (after_item (is_ordered item.now.marker)) outer)) }
{
    if item.is_ended() {
        return output.exit_blank_item();
    }
    output.exit_container(Name::ListItem, outside)
}

/// Writes the start of an item at the cursor of a line.
pub fn open<'d>(
    start: ItemStart,
    line: &mut Line<'d>,
    output: &mut Output<'d>,
) -> Result<Item, AllocError>
    requires writes { Writes output.old }
    requires at { IsAt output.old.cursor line.old }
    requires marker { HasMarker line.old.text.now start.digits }
    requires on { (constructs_of output.old).list_item ≡ true }
    ensures writes { OnOk result (Writes output.new) }
    ensures at { OnOk result (IsAt output.new.cursor line.new) }
    ensures moved { HasMoved line.old line.new }
    ensures marker { IfOk result (λ item. item.marker ≡ start.marker) }
    ensures opens { (outer : List Enclosing) → Opens output.old (at (in_list (is_ordered start.marker)) outer) → OnOk result (Opens output.new (at (item (is_ordered start.marker)) (inside ListItem (in_list (is_ordered start.marker)) outer))) }
{
    let before = line.columns();
    write_start(start, line, output)?;
    let is_blank = line.is_blank();
    let size = line.columns().saturating_sub(before);
    Ok(Item {
        marker: start.marker,
        size: if is_blank {
            size.saturating_add(1)
        } else {
            size
        },
        progress: if is_blank {
            Progress::BeganBlank
        } else {
            Progress::Filled
        },
    })
}

/// Writes what an item begins with.
fn write_start<'d>(
    start: ItemStart,
    line: &mut Line<'d>,
    output: &mut Output<'d>,
) -> Result<(), AllocError>
    requires writes { Writes output.old }
    requires at { IsAt output.old.cursor line.old }
    requires marker { HasMarker line.old.text.now start.digits }
    requires on { (constructs_of output.old).list_item ≡ true }
    ensures writes { OnOk result (Writes output.new) }
    ensures at { OnOk result (IsAt output.new.cursor line.new) }
    ensures moved { HasMoved line.old line.new }
    ensures opens { (outer : List Enclosing) → Opens output.old (at (in_list (is_ordered start.marker)) outer) → OnOk result (Opens output.new (at (item (is_ordered start.marker)) (inside ListItem (in_list (is_ordered start.marker)) outer))) }
{
    output.enter(Name::ListItem)?;
    output.columns(line, line.indent())?;
    write_prefix(start, line, output)?;
    Ok(())
}

/// Writes the number and the marker of an item, and the white space after them that belongs to it.
fn write_prefix<'d>(
    start: ItemStart,
    line: &mut Line<'d>,
    output: &mut Output<'d>,
) -> Result<(), AllocError>
    requires writes { Writes output.old }
    requires at { IsAt output.old.cursor line.old }
    requires indent { line.old.indent ≡ 0 }
    requires marker { HasMarker line.old.text.now start.digits }
    ensures writes { OnOk result (Writes output.new) }
    ensures at { OnOk result (IsAt output.new.cursor line.new) }
    ensures moved { HasMoved line.old line.new }
    ensures opens { (outer : List Enclosing) → Opens output.old (at (before_number (is_ordered start.marker)) outer) → OnOk result (Opens output.new (at (item (is_ordered start.marker)) outer)) }
{
    output.enter(Name::ListItemPrefix)?;
    write_marker(start, line, output)?;
    if line.is_blank() {
        output.exit(Name::ListItemPrefix)?;
        return Ok(());
    }
    let indent = line.indent();
    output.columns(line, padding(indent))?;
    output.exit(Name::ListItemPrefix)?;
    Ok(())
}

/// Writes the number and the marker of an item.
fn write_marker<'d>(
    start: ItemStart,
    line: &mut Line<'d>,
    output: &mut Output<'d>,
) -> Result<(), AllocError>
    requires writes { Writes output.old }
    requires at { IsAt output.old.cursor line.old }
    requires indent { line.old.indent ≡ 0 }
    requires marker { HasMarker line.old.text.now start.digits }
    ensures writes { OnOk result (Writes output.new) }
    ensures at { OnOk result (IsAt output.new.cursor line.new) }
    ensures moved { HasMoved line.old line.new }
    ensures opens { (outer : List Enclosing) → Opens output.old (at (before_number (is_ordered start.marker)) outer) → OnOk result (Opens output.new (at (item (is_ordered start.marker)) outer)) }
{
    write_number(start, line, output)?;
    line.skip(1);
    output.token_to(Name::ListItemMarker, line)
}

/// Writes the number of an item, if it has one.
fn write_number<'d>(
    start: ItemStart,
    line: &mut Line<'d>,
    output: &mut Output<'d>,
) -> Result<(), AllocError>
    requires writes { Writes output.old }
    requires at { IsAt output.old.cursor line.old }
    requires indent { line.old.indent ≡ 0 }
    requires marker { HasMarker line.old.text.now start.digits }
    ensures writes { OnOk result (Writes output.new) }
    ensures at { OnOk result (IsAt output.new.cursor line.new) }
    ensures moved { HasMoved line.old line.new }
    ensures marker { slice_index line.new.text.now 0 < 128 }
    ensures opens { (outer : List Enclosing) → Opens output.old (at (before_number (is_ordered start.marker)) outer) → OnOk result (Opens output.new (at (item (is_ordered start.marker)) outer)) }
{
    if start.digits == 0 {
        return Ok(());
    }
    line.skip(start.digits);
    output.token_to(Name::ListItemValue, line)?;
    Ok(())
}

/// Returns how many columns of the white space after a marker belong to the item: all, unless
/// indented code comes next (CommonMark).
fn padding(indent: usize) -> usize {
    if indent > TAB_SIZE { 1 } else { indent }
}
