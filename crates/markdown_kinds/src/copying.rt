//! Copies of the fields of nodes. The only error is that memory ran out.

ghost use Rattle.std.specs.Prelude.{◌≡◌, IfOk, option_map, string_bytes};

use markdown_events::infer::AlignKind;
use std::alloc::AllocError;

/// Returns a copy of an optional text.
///
/// For the title `a` it is `Some` of a text `a`, and for none it is `None`.
pub fn copy_optional(text: &Option<String>) -> Result<Option<String>, AllocError>
    ensures { IfOk result (λ copy. option_map string_bytes copy ≡ option_map string_bytes text.now) }
{
    match text {
        Some(text) => Ok(Some(text.clone()?)),
        None => Ok(None),
    }
}

/// Returns a copy of the alignments of the columns of a table, in order.
///
/// For one column to the left it is a list of `AlignKind::Left`.
pub fn copy_align(align: &Vec<AlignKind>) -> Result<Vec<AlignKind>, AllocError>
    ensures { IfOk result (λ copy. copy.items ≡ align.now.items) }
{
    let mut copy = Vec::with_capacity(*align.allocator(), align.len())?;
    for kind in align {
        copy.push(*kind)?;
    }
    Ok(copy)
}
