//! Runs of delimiters: of asterisks and underscores (CommonMark), and of tildes (GFM).

ghost use Rattle.std.specs.Prelude.{◌≢◌, ◌≤◌, ◌<◌, drop, length, slice_index};
ghost use Rattle.commonmark_syntax.specs.Cuts.{IsCut, IsRunOf};
ghost use Rattle.commonmark_syntax.specs.Inlines.{delimiter_run};
ghost use Rattle.commonmark_syntax.specs.Language.{Leaves};

use crate::bytes::run_length;

/// Returns the number of markers of the run that a text begins with (CommonMark): all that equal
/// the first one. It is 0 if the text is empty.
///
/// It is 2 in `**a*`.
pub fn size(text: &[u8]) -> usize
    ensures exact { 0 < length text.now → Leaves (delimiter_run (slice_index text.now 0)) text.now (drop result text.now) }
    ensures most { result ≤ length text.now }
    ensures least { 0 < length text.now → 0 < result }
    ensures run { IsRunOf text.now (slice_index text.now 0) result }
    ensures next { result < length text.now → slice_index text.now result ≢ slice_index text.now 0 }
    ensures cut { slice_index text.now 0 < 128 → IsCut text.now result }
{
    match text {
        [marker, ..] => run_length(text, *marker),
        [] => 0,
    }
}
