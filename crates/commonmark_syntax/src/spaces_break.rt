//! Hard line breaks by spaces (CommonMark).

ghost use Rattle.std.specs.Prelude.{◌≤◌, ◌<◌, ◌-◌, MatchOption, drop, length, reverse, IfSome};
ghost use Rattle.commonmark_syntax.specs.Cuts.{IsCut};
ghost use Rattle.commonmark_syntax.specs.Inlines.{spaces_break};
ghost use Rattle.commonmark_syntax.specs.Language.{IsNotAt, Leaves};

use crate::bytes::count_back;

/// The smallest number of spaces before a line ending that make a hard line break (CommonMark).
const SPACES_LEAST: usize = 2;

/// Returns the length of the hard line break by spaces that a text ends with, if a line ending
/// comes after it (CommonMark): all spaces at its end, if they are two or more.
///
/// In an `a` and three spaces it is 3.
pub fn scan_back(text: &[u8]) -> Option<usize>
    ensures exact { MatchOption result (IsNotAt spaces_break (reverse text.now)) (λ size. Leaves spaces_break (reverse text.now) (drop size (reverse text.now))) }
    ensures most { IfSome result (λ size. size ≤ length text.now) }
    ensures least { IfSome result (λ size. 1 < size) }
    ensures cut { IfSome result (λ size. IsCut text.now (length text.now - size)) }
{
    let spaces = count_back(text, |byte| byte == b' ');
    if spaces < SPACES_LEAST {
        return None;
    }
    Some(spaces)
}
