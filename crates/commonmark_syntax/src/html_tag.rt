//! HTML tags (CommonMark): open and closing tags, comments, instructions, declarations and CDATA sections.

ghost use Rattle.std.specs.Prelude.{◌≡◌, ◌≤◌, ◌<◌, MatchOption, List, ℕ, codes, drop, length, slice_index, IfSome};
ghost use Rattle.commonmark_syntax.specs.Cuts.{IsCut};
ghost use Rattle.commonmark_syntax.specs.HtmlTags.{AreMissing, IsMissing, IsScanned};
ghost use Rattle.commonmark_syntax.specs.Language.{IsNotAt, Leaves, one, ◌then◌};
ghost use Rattle.commonmark_syntax.specs.Reading.{Reading};
ghost use Rattle.commonmark_syntax.specs.Syntax as page;
ghost use Rattle.commonmark_syntax.specs.Syntax.{word};

use crate::bytes::after;
use crate::class::Letter;
use crate::reading::{past_one, past_word};
use crate::{cdata, closing_tag, comment, declaration, instruction, open_tag};

/// The offsets of a text from which some ends of HTML tags are known to be missing.
///
/// A failed search for an end is not repeated, so all searches together are linear.
#[derive(Clone, Copy, PartialEq, Eq, Debug)]
pub struct MissingEnds {
    /// The offset from which there is no `-->`.
    comment: usize,
    /// The offset from which there is no `?>`.
    instruction: usize,
    /// The offset from which there is no `>`, where declarations have searched for one.
    declaration: usize,
    /// The offset from which there is no `]]>`.
    cdata: usize,
}

impl MissingEnds {
    /// Returns the state for a text of this size, in which nothing is known.
    pub fn new(size: usize) -> MissingEnds
        ensures { (text : List ℕ) → length text ≡ size → AreMissing text result }
    {
        MissingEnds {
            comment: size,
            instruction: size,
            declaration: size,
            cdata: size,
        }
    }
}

/// Returns the length of the HTML tag that begins with an opening angle bracket at an offset of a
/// content (CommonMark).
///
/// In `a <b> c` it is 3 at the offset 2.
pub fn scan(content: &[u8], at: usize, missing: &mut MissingEnds) -> Option<usize>
    requires missing { AreMissing content.now missing.old }
    ensures missing { AreMissing content.now missing.new }
    ensures exact { MatchOption result (IsNotAt page.html_tag (drop at content.now)) (λ size. Leaves page.html_tag (drop at content.now) (drop size (drop at content.now))) }
    ensures most { IfSome result (λ size. size ≤ length (drop at content.now)) }
    ensures least { IfSome result (λ size. 2 < size) }
    ensures cut { IfSome result (λ size. IsCut (drop at content.now) size) }
{
    let text = after(content, at);
    match *text.get(1)? {
        b'/' => closing_tag::scan(text),
        b'?' => scan_instruction(content, at, &mut missing.instruction),
        b'!' => scan_marked(content, at, missing),
        _ => open_tag::scan(text),
    }
}

/// Returns the length of the comment, the declaration or the CDATA section that begins with `<!` at
/// an offset.
fn scan_marked(content: &[u8], at: usize, missing: &mut MissingEnds) -> Option<usize>
    requires mark { slice_index (drop at content.now) 1 ≡ 33 }
    requires missing { AreMissing content.now missing.old }
    ensures missing { AreMissing content.now missing.new }
    ensures scanned { IsScanned page.html_tag (drop at content.now) result }
{
    let text = after(content, at);
    match *text.get(2)? {
        b'-' => scan_comment(content, at, &mut missing.comment),
        b'[' => scan_cdata(content, at, &mut missing.cdata),
        _ => scan_declaration(content, at, &mut missing.declaration),
    }
}

/// Returns the length of the comment at an offset, given the offset from which its end is known to
/// be missing.
fn scan_comment(content: &[u8], at: usize, missing: &mut usize) -> Option<usize>
    requires { IsMissing (codes "-->") content.now missing.old }
    ensures missing { IsMissing (codes "-->") content.now missing.new }
    ensures scanned { IsScanned page.comment (drop at content.now) result }
{
    if *missing <= at {
        return None;
    }
    let text = after(content, at);
    let found = comment::scan(text);
    if found.is_none() && past_word(text, b"<!--").is_some() {
        *missing = at + 4;
    }
    found
}

/// Returns the length of the processing instruction at an offset, given the offset from which its
/// end is known to be missing.
fn scan_instruction(content: &[u8], at: usize, missing: &mut usize) -> Option<usize>
    requires { IsMissing (codes "?>") content.now missing.old }
    ensures missing { IsMissing (codes "?>") content.now missing.new }
    ensures scanned { IsScanned page.processing_instruction (drop at content.now) result }
{
    if *missing <= at {
        return None;
    }
    let text = after(content, at);
    let found = instruction::scan(text);
    if found.is_none() && past_word(text, b"<?").is_some() {
        *missing = at + 2;
    }
    found
}

/// Returns the length of the declaration at an offset, given the offset from which its end is known
/// to be missing.
fn scan_declaration(content: &[u8], at: usize, missing: &mut usize) -> Option<usize>
    requires { IsMissing (codes ">") content.now missing.old }
    ensures missing { IsMissing (codes ">") content.now missing.new }
    ensures scanned { IsScanned page.declaration (drop at content.now) result }
{
    if *missing <= at {
        return None;
    }
    let text = after(content, at);
    let found = declaration::scan(text);
    if found.is_none() && past_start(text).is_some() {
        *missing = at + 3;
    }
    found
}

/// Returns the text after the start of a declaration: `<!` and an ASCII letter.
fn past_start(text: &[u8]) -> Option<&[u8]>
    ensures { Reading (word (codes "<!") then one page.is_letter) text.now (λ rest. rest.now) result }
{
    past_one::<Letter>(past_word(text, b"<!")?)
}

/// Returns the length of the CDATA section at an offset, given the offset from which its end is
/// known to be missing.
fn scan_cdata(content: &[u8], at: usize, missing: &mut usize) -> Option<usize>
    requires { IsMissing (codes "]]>") content.now missing.old }
    ensures missing { IsMissing (codes "]]>") content.now missing.new }
    ensures scanned { IsScanned page.cdata_section (drop at content.now) result }
{
    if *missing <= at {
        return None;
    }
    let text = after(content, at);
    let found = cdata::scan(text);
    if found.is_none() && past_word(text, b"<![CDATA[").is_some() {
        *missing = at + 9;
    }
    found
}
