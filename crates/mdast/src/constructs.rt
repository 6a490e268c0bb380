//! The constructs of markdown, by name.

use markdown::Constructs;
use std::alloc::{AllocError, Global};

/// The names of the constructs.
pub static NAMES: [&str; 29] = [
    "attention",
    "autolink",
    "block_quote",
    "character_escape",
    "character_reference",
    "code_indented",
    "code_fenced",
    "code_text",
    "definition",
    "frontmatter",
    "gfm_autolink_literal",
    "gfm_footnote_definition",
    "gfm_label_start_footnote",
    "gfm_strikethrough",
    "gfm_table",
    "gfm_task_list_item",
    "hard_break_escape",
    "hard_break_trailing",
    "heading_atx",
    "heading_setext",
    "html_flow",
    "html_text",
    "label_start_image",
    "label_start_link",
    "label_end",
    "list_item",
    "math_flow",
    "math_text",
    "thematic_break",
];

/// Returns the text about constructs in the help.
pub fn help(alloc: Global) -> Result<String, AllocError> {
    let mut text = String::from_str(
        alloc,
        "Documents are read as GFM with frontmatter and math. --with and --without may be given more than
once. CONSTRUCT is one of:
",
    )?;
    add_names(&mut text, &NAMES)?;
    Ok(text)
}

/// Appends names to a text, each on a line of its own.
fn add_names(text: &mut String, names: &[&str]) -> Result<(), AllocError> {
    for name in names {
        text.push_str("  ")?;
        text.push_str(name)?;
        text.push_str("\n")?;
    }
    Ok(())
}

/// The names of the constructs that are turned on, and of those that are turned off.
#[derive(Clone, Copy)]
pub struct Switches<'a> {
    pub on: &'a [&'a str],
    pub off: &'a [&'a str],
}

impl Switches<'_> {
    /// Whether a construct is on after the switches, given whether it was on before. If it is
    /// turned on and off, it is off.
    fn is_on(&self, name: &str, was_on: bool) -> bool {
        (was_on || self.on.contains(&name)) && !self.off.contains(&name)
    }

    /// Returns these constructs after the switches.
    pub fn turned(&self, old: &Constructs) -> Constructs {
        Constructs {
            attention: self.is_on("attention", old.attention),
            autolink: self.is_on("autolink", old.autolink),
            block_quote: self.is_on("block_quote", old.block_quote),
            character_escape: self.is_on("character_escape", old.character_escape),
            character_reference: self.is_on("character_reference", old.character_reference),
            code_indented: self.is_on("code_indented", old.code_indented),
            code_fenced: self.is_on("code_fenced", old.code_fenced),
            code_text: self.is_on("code_text", old.code_text),
            definition: self.is_on("definition", old.definition),
            frontmatter: self.is_on("frontmatter", old.frontmatter),
            gfm_autolink_literal: self.is_on("gfm_autolink_literal", old.gfm_autolink_literal),
            gfm_footnote_definition: self.is_on(
                "gfm_footnote_definition",
                old.gfm_footnote_definition,
            ),
            gfm_label_start_footnote: self.is_on(
                "gfm_label_start_footnote",
                old.gfm_label_start_footnote,
            ),
            gfm_strikethrough: self.is_on("gfm_strikethrough", old.gfm_strikethrough),
            gfm_table: self.is_on("gfm_table", old.gfm_table),
            gfm_task_list_item: self.is_on("gfm_task_list_item", old.gfm_task_list_item),
            hard_break_escape: self.is_on("hard_break_escape", old.hard_break_escape),
            hard_break_trailing: self.is_on("hard_break_trailing", old.hard_break_trailing),
            heading_atx: self.is_on("heading_atx", old.heading_atx),
            heading_setext: self.is_on("heading_setext", old.heading_setext),
            html_flow: self.is_on("html_flow", old.html_flow),
            html_text: self.is_on("html_text", old.html_text),
            label_start_image: self.is_on("label_start_image", old.label_start_image),
            label_start_link: self.is_on("label_start_link", old.label_start_link),
            label_end: self.is_on("label_end", old.label_end),
            list_item: self.is_on("list_item", old.list_item),
            math_flow: self.is_on("math_flow", old.math_flow),
            math_text: self.is_on("math_text", old.math_text),
            thematic_break: self.is_on("thematic_break", old.thematic_break),
        }
    }
}
