//! Beginnings of HTML blocks (CommonMark).

ghost use Rattle.std.specs.Prelude.{◌≡◌, codes, false, true};
ghost use Rattle.commonmark_syntax.specs.Html as page;
ghost use Rattle.commonmark_syntax.specs.Language.{IsAt, IsNotAt, nothing, unless, ◌or◌, ◌then◌};
ghost use Rattle.commonmark_syntax.specs.Reading.{Reading};
ghost use Rattle.commonmark_syntax.specs.Syntax.{is_of_tag_name, open_tag, word};

use crate::bytes::{after, is_space_or_tab};
use crate::class::{Letter, OfTagName};
use crate::reading::{past_all, past_blank_to_end, past_byte, past_one, past_word};
use crate::{closing_tag, html_names, open_tag, tag_name};

/// Whether a text begins with the opening tag of an element that may contain blank lines: condition
/// 1.
pub fn is_raw(text: &[u8]) -> bool
    ensures yes { result ≡ true → IsAt page.raw_start text.now }
    ensures no { result ≡ false → IsNotAt page.raw_start text.now }
{
    past_raw(text).is_some()
}

/// Returns the text after the name in such a tag.
fn past_raw(text: &[u8]) -> Option<&[u8]>
    ensures { Reading page.raw_start text.now (λ rest. rest.now) result }
{
    past_end_of_raw(past_raw_name(past_byte(text, b'<')?)?)
}

/// Returns the text after the name of an element that may contain blank lines.
pub(crate) fn past_raw_name(text: &[u8]) -> Option<&[u8]>
    ensures { Reading (page.name_among page.raw_names) text.now (λ rest. rest.now) result }
{
    let rest = tag_name::past_whole(text)?;
    let size = text.len() - rest.len();
    if html_names::is_raw(&text[..size]) {
        Some(rest)
    } else {
        None
    }
}

/// Returns the text, if the name in such a tag may end before it.
fn past_end_of_raw(text: &[u8]) -> Option<&[u8]>
    ensures { Reading (unless page.goes_on nothing) text.now (λ rest. rest.now) result }
{
    if goes_on(text) { None } else { Some(text) }
}

/// Whether such a name continues in a text.
fn goes_on(text: &[u8]) -> bool
    ensures { result ≡ page.goes_on text.now }
{
    match text {
        [first, ..] => !(is_space_or_tab(*first) || *first == b'>'),
        [] => false,
    }
}

/// Whether a text begins with the start of a comment: condition 2.
pub fn is_comment(text: &[u8]) -> bool
    ensures yes { result ≡ true → IsAt (word (codes "<!--")) text.now }
    ensures no { result ≡ false → IsNotAt (word (codes "<!--")) text.now }
{
    past_word(text, b"<!--").is_some()
}

/// Whether a text begins with the start of a processing instruction: condition 3.
pub fn is_instruction(text: &[u8]) -> bool
    ensures yes { result ≡ true → IsAt (word (codes "<?")) text.now }
    ensures no { result ≡ false → IsNotAt (word (codes "<?")) text.now }
{
    past_word(text, b"<?").is_some()
}

/// Whether a text begins with the start of a declaration: condition 4.
pub fn is_declaration(text: &[u8]) -> bool
    ensures yes { result ≡ true → IsAt page.declaration_start text.now }
    ensures no { result ≡ false → IsNotAt page.declaration_start text.now }
{
    past_declaration(text).is_some()
}

/// Returns the text after the start of a declaration.
fn past_declaration(text: &[u8]) -> Option<&[u8]>
    ensures { Reading page.declaration_start text.now (λ rest. rest.now) result }
{
    past_one::<Letter>(past_word(text, b"<!")?)
}

/// Whether a text begins with the start of a CDATA section: condition 5.
pub fn is_cdata(text: &[u8]) -> bool
    ensures yes { result ≡ true → IsAt (word (codes "<![CDATA[")) text.now }
    ensures no { result ≡ false → IsNotAt (word (codes "<![CDATA[")) text.now }
{
    past_word(text, b"<![CDATA[").is_some()
}

/// Whether a text begins with a tag of a block element: condition 6.
pub fn is_basic(text: &[u8]) -> bool
    ensures yes { result ≡ true → IsAt page.basic_start text.now }
    ensures no { result ≡ false → IsNotAt page.basic_start text.now }
{
    past_basic(text).is_some()
}

/// Returns the text after the name in such a tag.
fn past_basic(text: &[u8]) -> Option<&[u8]>
    ensures { Reading page.basic_start text.now (λ rest. rest.now) result }
{
    let rest = past_byte(text, b'<')?;
    match past_byte(rest, b'/') {
        Some(name) => past_basic_tag(name),
        None => past_basic_tag(rest),
    }
}

/// Returns the text after the name in such a tag, if the name may end there.
fn past_basic_tag(text: &[u8]) -> Option<&[u8]>
    ensures { Reading (page.name_among page.basic_names then unless page.goes_on_in_tag nothing) text.now (λ rest. rest.now) result }
{
    past_end_of_basic(past_basic_name(text)?)
}

/// Returns the text after the name of a block element.
fn past_basic_name(text: &[u8]) -> Option<&[u8]>
    ensures { Reading (page.name_among page.basic_names) text.now (λ rest. rest.now) result }
{
    let rest = tag_name::past_whole(text)?;
    let size = text.len() - rest.len();
    if html_names::is_basic(&text[..size]) {
        Some(rest)
    } else {
        None
    }
}

/// Returns the text, if the name in such a tag may end before it.
fn past_end_of_basic(text: &[u8]) -> Option<&[u8]>
    ensures { Reading (unless page.goes_on_in_tag nothing) text.now (λ rest. rest.now) result }
{
    if goes_on_in_tag(text) {
        None
    } else {
        Some(text)
    }
}

/// Whether such a name continues in a text.
fn goes_on_in_tag(text: &[u8]) -> bool
    ensures { result ≡ page.goes_on_in_tag text.now }
{
    match text {
        [b'/', b'>', ..] => false,
        [first, ..] => !(is_space_or_tab(*first) || *first == b'>'),
        [] => false,
    }
}

/// Whether a text is a tag of an element that is not one of those of condition 1, or a closing tag: condition 7.
pub fn is_complete(text: &[u8]) -> bool
    ensures yes { result ≡ true → IsAt (page.complete_opening or page.complete_closing) text.now }
    ensures no { result ≡ false → IsNotAt (page.complete_opening or page.complete_closing) text.now }
{
    if is_opening(text) {
        return true;
    }
    is_closing(text)
}

/// Whether a text is an opening tag of an element that may not contain blank lines: condition 7.
fn is_opening(text: &[u8]) -> bool
    ensures yes { result ≡ true → IsAt page.complete_opening text.now }
    ensures no { result ≡ false → IsNotAt page.complete_opening text.now }
{
    past_opening(text).is_some()
}

/// Returns the text after such a tag.
fn past_opening(text: &[u8]) -> Option<&[u8]>
    ensures { Reading page.complete_opening text.now (λ rest. rest.now) result }
{
    past_blank_to_end(past_other_tag(text)?)
}

/// Returns the text after an opening tag of an element that may not contain blank lines.
fn past_other_tag(text: &[u8]) -> Option<&[u8]>
    ensures { Reading (unless page.has_raw_name open_tag) text.now (λ rest. rest.now) result }
{
    if has_raw_name(text) {
        return None;
    }
    open_tag::past(text)
}

/// Whether the name after the first byte of a text is that of an element that may contain blank
/// lines.
fn has_raw_name(text: &[u8]) -> bool
    ensures { result ≡ page.has_raw_name text.now }
{
    html_names::is_raw(name_in(after(text, 1)))
}

/// Returns the whole tag name that a text begins with.
fn name_in(text: &[u8]) -> &[u8]
    ensures { result.now ≡ page.front is_of_tag_name text.now }
{
    &text[..text.len() - past_all::<OfTagName>(text).len()]
}

/// Whether a text is a closing tag: condition 7.
fn is_closing(text: &[u8]) -> bool
    ensures yes { result ≡ true → IsAt page.complete_closing text.now }
    ensures no { result ≡ false → IsNotAt page.complete_closing text.now }
{
    past_closing(text).is_some()
}

/// Returns the text after such a tag.
fn past_closing(text: &[u8]) -> Option<&[u8]>
    ensures { Reading page.complete_closing text.now (λ rest. rest.now) result }
{
    past_blank_to_end(closing_tag::past(text)?)
}
