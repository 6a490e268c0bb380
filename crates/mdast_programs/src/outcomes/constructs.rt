//! Constructs as a number that has one bit for each.

ghost use Rattle.std.specs.Prelude.{◌≡◌, ◌<◌};
ghost use Rattle.mdast_programs.specs.Parsed.{constructs_in, has, with_bits};

use markdown_options::Constructs;

/// How many constructs there are.
const COUNT: u32 = 29;

/// Returns the constructs whose bits are set, or `None` if a bit is set that belongs to no
/// construct.
pub fn constructs_of(bits: u32) -> Option<Constructs>
    ensures { result ≡ constructs_in bits }
{
    if bits >> COUNT != 0 {
        return None;
    }
    Some(with_bits(bits))
}

/// Returns the constructs whose bits are set: the lowest bit is that of the first field.
fn with_bits(bits: u32) -> Constructs
    ensures { result ≡ with_bits bits }
{
    Constructs {
        attention: has(bits, 0),
        autolink: has(bits, 1),
        block_quote: has(bits, 2),
        character_escape: has(bits, 3),
        character_reference: has(bits, 4),
        code_indented: has(bits, 5),
        code_fenced: has(bits, 6),
        code_text: has(bits, 7),
        definition: has(bits, 8),
        frontmatter: has(bits, 9),
        gfm_autolink_literal: has(bits, 10),
        gfm_footnote_definition: has(bits, 11),
        gfm_label_start_footnote: has(bits, 12),
        gfm_strikethrough: has(bits, 13),
        gfm_table: has(bits, 14),
        gfm_task_list_item: has(bits, 15),
        hard_break_escape: has(bits, 16),
        hard_break_trailing: has(bits, 17),
        heading_atx: has(bits, 18),
        heading_setext: has(bits, 19),
        html_flow: has(bits, 20),
        html_text: has(bits, 21),
        label_start_image: has(bits, 22),
        label_start_link: has(bits, 23),
        label_end: has(bits, 24),
        list_item: has(bits, 25),
        math_flow: has(bits, 26),
        math_text: has(bits, 27),
        thematic_break: has(bits, 28),
    }
}

/// Whether a number has a bit, counted from 0 at the lowest.
fn has(bits: u32, bit: u32) -> bool
    requires { bit < 29 }
    ensures { result ≡ has bits bit }
{
    bits >> bit & 1 == 1
}
