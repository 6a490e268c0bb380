//! Attributes of elements.

ghost use Rattle.std.specs.Prelude.{◌≡◌, ◌++◌, OnOk, option_map, string_bytes};
ghost use Rattle.markdown_html.specs.Elements.{attribute, numeral, title_attribute};

use html_text::escapes::push_escaped;
use markdown_events::decimal::push_decimal;
use std::alloc::AllocError;

/// Appends an attribute.
#[tactic(auto, unfolding(crate::specs::Elements::attribute))]
pub(crate) fn push_attribute(out: &mut String, name: &str, value: &str) -> Result<(), AllocError>
    ensures { OnOk result (string_bytes out.new ≡ string_bytes out.old ++ attribute name.now value.now) }
{
    out.push_str(" ")?;
    out.push_str(name)?;
    out.push_str("=\"")?;
    push_escaped(out, value)?;
    out.push_str("\"")
}

/// Appends the attribute of a title, if there is one.
#[tactic(auto, unfolding(crate::specs::Elements::title_attribute))]
pub(crate) fn push_title(out: &mut String, title: Option<&str>) -> Result<(), AllocError>
    ensures { OnOk result (string_bytes out.new ≡ string_bytes out.old ++ title_attribute (option_map (λ text. text.now) title.entry)) }
{
    match title {
        Some(title) => push_attribute(out, "title", title),
        None => Ok(()),
    }
}

/// Appends a number.
#[tactic(auto, unfolding(crate::specs::Elements::numeral))]
pub(crate) fn push_numeral(out: &mut String, number: usize) -> Result<(), AllocError>
    ensures { OnOk result (string_bytes out.new ≡ string_bytes out.old ++ numeral number) }
{
    push_decimal(out, number)
}
