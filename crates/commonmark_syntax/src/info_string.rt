//! Info strings: the text after the fences that open code (CommonMark).

ghost use Rattle.std.specs.Prelude.{◌≡◌, ◌≤◌, drop, length, take};
ghost use Rattle.commonmark_syntax.specs.Cuts.{IsCut};
ghost use Rattle.commonmark_syntax.specs.InfoStrings.{info_string, is_solid, language, meta};
ghost use Rattle.commonmark_syntax.specs.Reading.{behind_run};
ghost use Rattle.commonmark_syntax.specs.Syntax.{is_blank};

use crate::bytes::{count_while, is_space_or_tab};

/// Returns the size of the language of code, which is the first word of an info string
/// (CommonMark). The rest after the white space is the meta, without the white space at the end of
/// the line (micromark).
///
/// In `a b` it is 1.
pub fn language_size(info: &[u8]) -> usize
    ensures exact { take result info.now ≡ language info.now }
    ensures meta { info_string (behind_run is_blank (drop result info.now)) ≡ meta info.now }
    ensures most { result ≤ length info.now }
    ensures cut { IsCut info.now result }
{
    count_while(info, is_solid)
}

/// Whether a byte is neither a space nor a tab.
fn is_solid(byte: u8) -> bool
    ensures { result ≡ is_solid byte }
{
    !is_space_or_tab(byte)
}
