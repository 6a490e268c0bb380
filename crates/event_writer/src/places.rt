//! The points of a document, one after the other.

ghost use Rattle.std.specs.Prelude.{
  ◌≡◌,
  ◌≢◌,
  ◌==◌,
  ◌≤◌,
  ◌<◌,
  ◌+◌,
  ◌^◌,
  ◌⊎◌,
  IfNone,
  IfSome,
  Some,
  false,
  if◌then◌else◌,
  length,
  slice_get,
  slice_index,
  true,
  ℕ,
};
ghost use Rattle.event_writer.specs.Calls.{CanReach, EndsLine, IsLineStart, is_byte_at, line_ending_length};
ghost use Rattle.event_writer.specs.Places.{IsPlace, after_tab, column_at, line_at};
ghost use Rattle.event_writer.specs.Plain.{IsPlain};
ghost use Rattle.event_writer.specs.Tilings.{IsBefore};

use markdown_events::event::Point;
use markdown_events::search::find_control;

/// Returns the column after a tab that begins at a column.
fn after_tab(column: usize) -> usize
    requires { column < 2 ^ 63 + 8 }
    ensures { result ≡ after_tab column }
{
    (column + 3) / 4 * 4 + 1
}

/// Returns the column after a byte that begins at a column, or `None` if the byte ends the line.
#[inline(always)]
fn column_after(byte: u8, column: usize) -> Option<usize>
    requires { column < 2 ^ 63 + 8 }
    ensures no_feed { IfSome result (λ _. byte ≢ 10) }
    ensures no_return { IfSome result (λ _. byte ≢ 13) }
    ensures none { IfNone result ((byte ≡ 10) ⊎ (byte ≡ 13)) }
    ensures value { IfSome result (λ next. next ≡ (if byte == 9 then after_tab column else column + 1)) }
{
    match byte {
        b'\n' | b'\r' => None,
        b'\t' => Some(after_tab(column)),
        _ => Some(column + 1),
    }
}

/// Returns the offset of the first control character at an offset or after it, or the length.
///
/// In `a→b`, where → is a tab, it is 1 from offset 0 on, and 3 from offset 2 on.
pub fn plain_to(bytes: &[u8], from: usize) -> usize
    requires { from ≤ length bytes.now }
    ensures { IsPlain bytes.now from result }
{
    from + find_control(&bytes[from..])
}

/// Returns the column of an offset in the line of a point, or `None` if the line ends before it. No
/// control character is between the point and `plain_to`.
fn column_of(bytes: &[u8], from: Point, to: usize, plain_to: usize) -> Option<usize>
    requires place { IsPlace bytes.now from }
    requires short { length bytes.now < 2 ^ 61 }
    requires order { from.index ≤ to }
    requires within { to ≤ length bytes.now }
    requires plain { IsPlain bytes.now from.index plain_to }
    ensures column { IfSome result (λ column. column ≡ column_at bytes.now to) }
    ensures line { IfSome result (λ _. from.line ≡ line_at bytes.now to) }
    ensures none { IfNone result ((k : ℕ) × (from.index ≤ k) × (k < to) × ((slice_index bytes.now k ≡ 10) ⊎ (slice_index bytes.now k ≡ 13))) }
    ensures bound { IfSome result (λ column. column ≤ 2 ^ 63) }
{
    let column = from.column - from.vs;
    if to <= plain_to {
        return Some(column + (to - from.index));
    }
    column_by_bytes(bytes, from, to)
}

/// Does what `column_of` does, byte by byte.
fn column_by_bytes(bytes: &[u8], from: Point, to: usize) -> Option<usize>
    requires place { IsPlace bytes.now from }
    requires short { length bytes.now < 2 ^ 61 }
    requires order { from.index ≤ to }
    requires within { to ≤ length bytes.now }
    ensures column { IfSome result (λ column. column ≡ column_at bytes.now to) }
    ensures line { IfSome result (λ _. from.line ≡ line_at bytes.now to) }
    ensures none { IfNone result ((k : ℕ) × (from.index ≤ k) × (k < to) × ((slice_index bytes.now k ≡ 10) ⊎ (slice_index bytes.now k ≡ 13))) }
    ensures bound { IfSome result (λ column. column ≤ 2 ^ 63) }
{
    let mut column = from.column - from.vs;
    for index in from.index..to {
        column = column_after(bytes[index], column)?;
    }
    Some(column)
}

/// Whether this byte is at an offset.
#[inline(always)]
fn is_byte(bytes: &[u8], index: usize, byte: u8) -> bool
    ensures { result ≡ is_byte_at byte bytes.now index }
{
    match bytes.get(index) {
        Some(other) => *other == byte,
        None => false,
    }
}

/// Whether a point can be this number of columns after an offset, which is at a column: none, or
/// fewer than the width of the tab there.
fn has_columns(bytes: &[u8], column: usize, index: usize, virtual_spaces: usize) -> bool
    requires { column ≤ 2 ^ 63 }
    ensures yes { result ≡ true → 0 < virtual_spaces → (slice_get bytes.now index ≡ Some 9) × (column + virtual_spaces < after_tab column) }
    ensures no { result ≡ false → (0 < virtual_spaces → (slice_get bytes.now index ≡ Some 9) × (column + virtual_spaces < after_tab column)) → ⊥ }
    ensures bound { result ≡ true → virtual_spaces ≤ 4 }
{
    virtual_spaces == 0
        || (is_byte(bytes, index, b'\t') && virtual_spaces < after_tab(column) - column)
}

/// Returns the point at an offset that is in the line of a point and not before it, and a number of
/// columns into the tab there, or `None` if there is no such point. No control character is between
/// the point and `plain_to`.
///
/// In `>→a`, where → is a tab, the point after the `>` is 1:2. The one at offset 1 with one virtual
/// space is 1:3, and the one at offset 2 is 1:5.
pub fn point_at(
    bytes: &[u8],
    from: Point,
    to: usize,
    virtual_spaces: usize,
    plain_to: usize,
) -> Option<Point>
    requires place { IsPlace bytes.now from }
    requires short { length bytes.now < 2 ^ 61 }
    requires plain { IsPlain bytes.now from.index plain_to }
    ensures place { IfSome result (λ point. IsPlace bytes.now point) }
    ensures order { IfSome result (λ point. IsBefore from point) }
    ensures index { IfSome result (λ point. point.index ≡ to) }
    ensures virtual_spaces { IfSome result (λ point. point.vs ≡ virtual_spaces) }
    ensures none { IfNone result (CanReach bytes.now from to virtual_spaces → ⊥) }
{
    if to < from.index || to > bytes.len() || (to == from.index && virtual_spaces < from.vs) {
        return None;
    }
    let column = column_of(bytes, from, to, plain_to)?;
    if !has_columns(bytes, column, to, virtual_spaces) {
        return None;
    }
    Some(Point {
        line: from.line,
        column: column + virtual_spaces,
        index: to,
        vs: virtual_spaces,
    })
}

/// Returns the point that [`point_at`] finds, where there is one.
///
/// In `Hi`, from the first byte to offset 2, it is 1:3.
#[inline(always)]
pub fn reached(
    bytes: &[u8],
    from: Point,
    to: usize,
    virtual_spaces: usize,
    plain_to: usize,
) -> Point
    requires place { IsPlace bytes.now from }
    requires short { length bytes.now < 2 ^ 61 }
    requires plain { IsPlain bytes.now from.index plain_to }
    requires reach { CanReach bytes.now from to virtual_spaces }
    ensures place { IsPlace bytes.now result }
    ensures order { IsBefore from result }
    ensures index { result.index ≡ to }
    ensures virtual_spaces { result.vs ≡ virtual_spaces }
{
    let Some(column) = column_of(bytes, from, to, plain_to) else {
        unreachable!()
    };
    Point {
        line: from.line,
        column: column + virtual_spaces,
        index: to,
        vs: virtual_spaces,
    }
}

/// Returns the length in bytes of the line ending at an offset: two for a carriage return before a
/// line feed, and zero if no line ends there (CommonMark, line endings).
///
/// In `a\r\nb` it is 2 at offset 1.
fn line_ending_length(bytes: &[u8], index: usize) -> usize
    requires { index < 2 ^ 62 }
    ensures { result ≡ line_ending_length bytes.now index }
{
    if is_byte(bytes, index, b'\n') {
        return 1;
    }
    if !is_byte(bytes, index, b'\r') {
        return 0;
    }
    if is_byte(bytes, index + 1, b'\n') {
        2
    } else {
        1
    }
}

/// Returns the point after the line ending at a point, or `None` if no line ends there.
///
/// In `a\r\nb` the point after the line ending at offset 1 is 2:1, at offset 3.
pub fn line_start(bytes: &[u8], from: Point) -> Option<Point>
    requires place { IsPlace bytes.now from }
    requires short { length bytes.now < 2 ^ 61 }
    ensures place { IfSome result (λ point. IsPlace bytes.now point) }
    ensures order { IfSome result (λ point. IsBefore from point) }
    ensures start { IfSome result (λ point. IsLineStart bytes.now from point) }
    ensures none { IfNone result (EndsLine bytes.now from.index → ⊥) }
{
    let length = line_ending_length(bytes, from.index);
    if length == 0 {
        return None;
    }
    Some(Point {
        line: from.line + 1,
        column: 1,
        index: from.index + length,
        vs: 0,
    })
}
