//! Lists, their items, and headings.

ghost use Rattle.std.specs.Prelude.{◌≡◌, ◌++◌, OnOk, string_bytes};
ghost use Rattle.markdown_html.specs.Elements.{check_box, heading_name, list_end, list_start, start_attribute, task_start, tasks_attribute};

use crate::attributes::{push_attribute, push_numeral};
use std::alloc::AllocError;

/// Appends the start of a list.
#[tactic(auto, unfolding(crate::specs::Elements::list_start))]
pub(crate) fn push_list_start(
    out: &mut String,
    ordered: bool,
    has_tasks: bool,
    start: Option<u32>,
) -> Result<(), AllocError>
    ensures { OnOk result (string_bytes out.new ≡ string_bytes out.old ++ list_start ordered has_tasks start) }
{
    if ordered {
        out.push_str("<ol")?;
        push_start(out, start)?;
    } else {
        out.push_str("<ul")?;
    }
    push_tasks(out, has_tasks)?;
    out.push_str(">\n")
}

/// Appends the class of a list that has tasks.
#[tactic(auto, unfolding(crate::specs::Elements::tasks_attribute))]
fn push_tasks(out: &mut String, has_tasks: bool) -> Result<(), AllocError>
    ensures { OnOk result (string_bytes out.new ≡ string_bytes out.old ++ tasks_attribute has_tasks) }
{
    if has_tasks {
        push_attribute(out, "class", "contains-task-list")
    } else {
        Ok(())
    }
}

/// Appends the number that a list starts with, if it is not 1.
#[tactic(auto, unfolding(crate::specs::Elements::start_attribute))]
fn push_start(out: &mut String, start: Option<u32>) -> Result<(), AllocError>
    ensures { OnOk result (string_bytes out.new ≡ string_bytes out.old ++ start_attribute start) }
{
    match start {
        None => Ok(()),
        Some(start) => {
            if start == 1 {
                return Ok(());
            }
            let mut number = String::new(*out.allocator());
            push_numeral(&mut number, start as usize)?;
            push_attribute(out, "start", number.as_str())
        }
    }
}

/// Returns the end of a list.
#[tactic(auto, unfolding(crate::specs::Elements::list_end))]
pub(crate) fn list_end(ordered: bool) -> &'static str
    ensures { result.now ≡ list_end ordered }
{
    if ordered { "</ol>\n" } else { "</ul>\n" }
}

/// Appends the start of an item that is a task.
#[tactic(auto, unfolding(crate::specs::Elements::task_start))]
pub(crate) fn push_task_start(out: &mut String) -> Result<(), AllocError>
    ensures { OnOk result (string_bytes out.new ≡ string_bytes out.old ++ task_start) }
{
    out.push_str("<li")?;
    push_attribute(out, "class", "task-list-item")?;
    out.push_str(">")
}

/// Returns the check box of a task, with a blank if a text comes after it.
#[tactic(auto, unfolding(crate::specs::Elements::check_box))]
pub(crate) fn check_box(checked: bool, before_text: bool) -> &'static str
    ensures { result.now ≡ check_box checked before_text }
{
    match (checked, before_text) {
        (true, true) => "<input type=\"checkbox\" checked=\"\" disabled=\"\" /> ",
        (true, false) => "<input type=\"checkbox\" checked=\"\" disabled=\"\" />",
        (false, true) => "<input type=\"checkbox\" disabled=\"\" /> ",
        (false, false) => "<input type=\"checkbox\" disabled=\"\" />",
    }
}

/// Returns the element name of a heading.
#[tactic(auto, unfolding(crate::specs::Elements::heading_name))]
pub(crate) fn heading_name(depth: u8) -> &'static str
    ensures { result.now ≡ heading_name depth }
{
    match depth {
        0..=1 => "h1",
        2 => "h2",
        3 => "h3",
        4 => "h4",
        5 => "h5",
        _ => "h6",
    }
}
