//! Code and math, and raw HTML.

ghost use Rattle.std.specs.Prelude.{◌≡◌, ◌++◌, OnOk, codes, option_map, string_bytes};
ghost use Rattle.html_text.specs.Safe.{is_space};
ghost use Rattle.markdown_html.specs.Elements.{attribute, code_block, code_lines, code_text, is_class, language_attribute, math_block, math_text, raw_html};
ghost use Rattle.std.specs.List.{list_any};

use crate::attributes::push_attribute;
use crate::source::Raw;
use html_text::escapes::push_escaped;
use html_text::filter::push_filtered;
use std::alloc::AllocError;

/// Appends a block of code.
#[tactic(auto, unfolding(crate::specs::Elements::code_block))]
pub(crate) fn push_code_block(
    out: &mut String,
    language: Option<&str>,
    value: &str,
) -> Result<(), AllocError>
    ensures { OnOk result (string_bytes out.new ≡ string_bytes out.old ++ code_block (option_map (λ text. text.now) language.entry) value.now) }
{
    out.push_str("<pre><code")?;
    push_language(out, language)?;
    out.push_str(">")?;
    push_lines(out, value)?;
    out.push_str("</code></pre>\n")
}

/// Appends the class of a block of code, if its language can be one.
#[tactic(auto, unfolding(crate::specs::Elements::language_attribute))]
fn push_language(out: &mut String, language: Option<&str>) -> Result<(), AllocError>
    ensures { OnOk result (string_bytes out.new ≡ string_bytes out.old ++ language_attribute (option_map (λ text. text.now) language.entry)) }
{
    let Some(language) = language else {
        return Ok(());
    };
    if !is_class(language.as_bytes()) {
        return Ok(());
    }
    push_class(out, language)
}

/// Appends the class of a language.
fn push_class(out: &mut String, language: &str) -> Result<(), AllocError>
    ensures { OnOk result (string_bytes out.new ≡ string_bytes out.old ++ attribute (codes "class") (codes "language-" ++ language.now)) }
{
    let mut class = String::from_str(*out.allocator(), "language-")?;
    class.push_str(language)?;
    push_attribute(out, "class", class.as_str())
}

/// Whether a text can be one class.
fn is_class(text: &[u8]) -> bool
    ensures { result ≡ is_class text.now }
{
    !text.is_empty() && !has_space(text)
}

/// Whether a text contains a byte that separates classes.
fn has_space(text: &[u8]) -> bool
    ensures { result ≡ list_any is_space text.now }
{
    text.iter().any(|byte| is_space(*byte))
}

/// Whether a byte separates the classes of an element.
fn is_space(byte: u8) -> bool
    ensures { result ≡ is_space byte }
{
    byte == b' ' || byte == b'\t' || byte == b'\n' || byte == b'\x0c' || byte == b'\r'
}

/// Appends the lines of a block of code.
#[tactic(auto, unfolding(crate::specs::Elements::code_lines))]
fn push_lines(out: &mut String, value: &str) -> Result<(), AllocError>
    ensures { OnOk result (string_bytes out.new ≡ string_bytes out.old ++ code_lines value.now) }
{
    if value.is_empty() {
        return Ok(());
    }
    push_escaped(out, value)?;
    out.push_str("\n")
}

/// Appends a block of math.
#[tactic(auto, unfolding(crate::specs::Elements::math_block))]
pub(crate) fn push_math_block(out: &mut String, value: &str) -> Result<(), AllocError>
    ensures { OnOk result (string_bytes out.new ≡ string_bytes out.old ++ math_block value.now) }
{
    out.push_str("<pre><code")?;
    push_attribute(out, "class", "language-math math-display")?;
    out.push_str(">")?;
    push_escaped(out, value)?;
    out.push_str("</code></pre>\n")
}

/// Appends inline math.
#[tactic(auto, unfolding(crate::specs::Elements::math_text))]
pub(crate) fn push_math_text(out: &mut String, value: &str) -> Result<(), AllocError>
    ensures { OnOk result (string_bytes out.new ≡ string_bytes out.old ++ math_text value.now) }
{
    out.push_str("<code")?;
    push_attribute(out, "class", "language-math math-inline")?;
    out.push_str(">")?;
    push_escaped(out, value)?;
    out.push_str("</code>")
}

/// Appends inline code.
#[tactic(auto, unfolding(crate::specs::Elements::code_text))]
pub(crate) fn push_code_text(out: &mut String, value: &str) -> Result<(), AllocError>
    ensures { OnOk result (string_bytes out.new ≡ string_bytes out.old ++ code_text value.now) }
{
    out.push_str("<code>")?;
    push_escaped(out, value)?;
    out.push_str("</code>")
}

/// Appends the output for raw HTML.
#[tactic(auto, unfolding(crate::specs::Elements::raw_html))]
pub(crate) fn push_raw(out: &mut String, raw: Raw, value: &str) -> Result<(), AllocError>
    ensures { OnOk result (string_bytes out.new ≡ string_bytes out.old ++ raw_html raw value.now) }
{
    match raw {
        Raw::Omit => Ok(()),
        Raw::Escape => push_escaped(out, value),
        Raw::Filter => push_filtered(out, value),
        Raw::Pass => out.push_str(value),
    }
}
