//! Numbers in decimal digits, and short texts that contain them. Such a text is written into a buffer
//! from its last byte to its first, in the order in which the digits of a number are computed.

ghost use Rattle.std.specs.Fmt.{decimal};
ghost use Rattle.std.specs.Prelude.{◌≡◌, ◌+◌, ◌-◌, ◌/◌, ◌%◌, ◌≤◌, ◌<◌, ◌++◌, ◌∷◌, OnOk, drop, length, string_bytes};
ghost use Rattle.std.specs.Str.{IsUtf8};

use std::alloc::AllocError;
use std::str;

/// The digits of the numbers below 100, two for each.
static PAIRS: [u8; 200] =
    *b"00010203040506070809101112131415161718192021222324252627282930313233343536373839404142434445464748495051525354555657585960616263646566676869707172737475767778798081828384858687888990919293949596979899";

/// Appends a number in decimal digits to a text. It allocates memory only for the text.
///
/// After `a` the number 10 makes `a10`. The only error is that memory ran out.
pub fn push_decimal(out: &mut String, number: usize) -> Result<(), AllocError>
    ensures { OnOk result (string_bytes out.new ≡ string_bytes out.old ++ decimal number) }
{
    let mut buffer = [0; 20];
    let start = put_decimal(&mut buffer, 20, number);
    out.push_str(text(&buffer, start))
}

/// Writes a text before the bytes from `end` on, and returns the index of its first byte.
///
/// In a buffer of three bytes with `c` at its end, `ab` before it makes `abc`, which begins at 0.
#[inline(always)]
pub fn put_text(buffer: &mut [u8], end: usize, text: &str) -> usize
    requires room { length text.now ≤ end }
    requires within { end ≤ length buffer.old }
    ensures place { end ≡ result + length text.now }
    ensures text { drop result buffer.new ≡ text.now ++ drop end buffer.old }
    ensures utf8 { IsUtf8 (drop end buffer.old) → IsUtf8 (drop result buffer.new) }
{
    let start = end - text.len();
    buffer[start..end].copy_from_slice(text.as_bytes());
    start
}

/// Writes the decimal digits of a number before the bytes from `end` on, and returns the index of
/// the first one.
///
/// In a buffer of twenty bytes the number 10 before its end begins at 18.
#[inline]
pub fn put_decimal(buffer: &mut [u8], end: usize, number: usize) -> usize
    requires room { 20 ≤ end }
    requires within { end ≤ length buffer.old }
    ensures room { end ≤ result + 20 }
    ensures place { result < end }
    ensures text { drop result buffer.new ≡ decimal number ++ drop end buffer.old }
    ensures utf8 { IsUtf8 (drop end buffer.old) → IsUtf8 (drop result buffer.new) }
{
    let mut start = end;
    let mut rest = number;
    while rest > 99 {
        put_pair(buffer, start, rest % 100);
        rest /= 100;
        start -= 2;
    }
    put_first(buffer, start, rest)
}

/// Writes the one or two digits of a number below 100 before the bytes from `end` on, and returns
/// the index of the first one.
#[inline(always)]
fn put_first(buffer: &mut [u8], end: usize, number: usize) -> usize
    requires number { number < 100 }
    requires room { 1 ≤ end }
    requires more { 9 < number → 2 ≤ end }
    requires within { end ≤ length buffer.old }
    ensures one { number ≤ 9 → end ≡ result + 1 }
    ensures two { 9 < number → end ≡ result + 2 }
    ensures text { drop result buffer.new ≡ decimal number ++ drop end buffer.old }
{
    if number > 9 {
        put_pair(buffer, end, number);
        return end - 2;
    }
    buffer[end - 1] = b'0' + number as u8;
    end - 1
}

/// Writes two digits of a number below 100 before the bytes from `end` on.
#[inline(always)]
fn put_pair(buffer: &mut [u8], end: usize, number: usize)
    requires number { number < 100 }
    requires room { 2 ≤ end }
    requires within { end ≤ length buffer.old }
    ensures { drop (end - 2) buffer.new ≡ (48 + number / 10) ∷ ((48 + number % 10) ∷ drop end buffer.old) }
{
    buffer[end - 2] = PAIRS[number * 2];
    buffer[end - 1] = PAIRS[number * 2 + 1];
}

/// Returns the bytes of a buffer from `start` on, as a text.
///
/// From 18 on it is `10`, where that is what the last two bytes are.
#[inline(always)]
pub fn text(buffer: &[u8], start: usize) -> &str
    requires within { start ≤ length buffer.now }
    requires text { IsUtf8 (drop start buffer.now) }
    ensures { result.now ≡ drop start buffer.now }
{
    unsafe { str::from_utf8_unchecked(&buffer[start..]) }
}
