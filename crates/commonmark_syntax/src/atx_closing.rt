//! The text of headings with number signs, and the closing sequence (CommonMark).

ghost use Rattle.std.specs.Prelude.{◌≡◌, ◌≤◌, ◌-◌, length, take};
ghost use Rattle.commonmark_syntax.specs.Blocks.{ends_solid, heading_text, is_sign, without_last};
ghost use Rattle.commonmark_syntax.specs.Cuts.{IsCut};

use crate::bytes::{count_back, is_space_or_tab, trimmed_size};

/// Returns the size of the text of a heading. `inside` is the text after its opening, without the
/// white space there. The size excludes the signs that close the heading, and the white space
/// around them. Signs close a heading if white space comes before them, or nothing (CommonMark).
///
/// In `a # #` and a space it is 3.
pub fn text_size(inside: &[u8]) -> usize
    ensures within { result ≤ length inside.now }
    ensures cut { IsCut inside.now result }
    ensures exact { take result inside.now ≡ heading_text inside.now }
{
    let trimmed = trimmed_size(inside);
    let text = &inside[..trimmed];
    let before_signs = &text[..unsigned_size(text)];
    if ends_solid(before_signs) {
        return trimmed;
    }
    trimmed_size(before_signs)
}

/// Whether a text ends with a byte other than a space or a tab.
#[tactic(auto, using(crate::proofs::Headings::solid_last))]
fn ends_solid(text: &[u8]) -> bool
    ensures { result ≡ ends_solid text.now }
{
    match text {
        [.., last] => !is_space_or_tab(*last),
        [] => false,
    }
}

/// Returns how many bytes come before the number signs that a text ends with.
fn unsigned_size(text: &[u8]) -> usize
    ensures within { result ≤ length text.now }
    ensures cut { IsCut text.now result }
    ensures exact { take result text.now ≡ without_last is_sign text.now }
{
    text.len() - count_back(text, |byte| byte == b'#')
}
