//! Runs of delimiters (CommonMark, GFM) in a content.

ghost use Rattle.std.specs.Prelude.{◌≡◌, ◌≤◌, drop, IsTrue, true};
ghost use Rattle.markdown_text.specs.AttentionRuns.{counts};
ghost use Rattle.markdown_attention.specs.Flanking.{Flanked};
ghost use Rattle.markdown_attention.specs.Runs.{IsWhole, are_markers, view};
ghost use Rattle.markdown_text.specs.Constructs.{IsMarker, is_marker_on};
ghost use Rattle.markdown_text.specs.Cursors.{before_of, byte_at, bytes_from, rest_of};

use crate::cursor::Cursor;
use commonmark_syntax::bytes::after;
use markdown_attention::flanks::Flanks;
use markdown_attention::run::Run;
use markdown_options::ParseOptions;

/// Whether a run of `size` of these markers is a delimiter run.
pub fn is_delimiter_run(marker: u8, size: usize, options: &ParseOptions) -> bool
    requires { IsMarker marker }
    ensures on { IsTrue result → is_marker_on options.now.constructs marker ≡ true }
    ensures markers { IsTrue result → are_markers marker size ≡ true }
    ensures counts { result ≡ counts options.now marker size }
{
    if marker != b'~' {
        return options.constructs.attention;
    }
    let is_short = size == 2 || (size == 1 && options.gfm_strikethrough_single_tilde);
    options.constructs.gfm_strikethrough && is_short
}

/// Returns the run of `size` markers at the cursor. What it can open and close follows from the
/// characters beside it (CommonMark).
pub fn run_at(cursor: Cursor<'_>, size: usize) -> Run
    requires { size ≤ bytes_from cursor }
    ensures whole { IsWhole (view result) (byte_at cursor.entry) cursor.entry.at size (view result).can_open (view result).can_close }
    ensures flanked { Flanked (byte_at cursor.entry) (before_of cursor.entry) (drop size (rest_of cursor.entry)) (view result).can_open (view result).can_close }
{
    let marker = cursor.byte();
    let flanks = Flanks::between(cursor.before(), after(cursor.rest(), size));
    Run::new(marker, cursor.at, cursor.at + size, flanks)
}
