//! Transformations of texts.

use crate::expect::holds;
use markdown_nodes::text::{line_endings_to_spaces, normalize_identifier, raw_text, trim_eol};
use std::alloc::AllocError;

#[test]
fn texts_are_trimmed_and_normalized(rt: HostRuntime) -> Result<(), AllocError> {
    let alloc = rt.alloc();
    holds(&rt, trim_eol("\na\n", true, true) == "a");
    holds(&rt, raw_text(alloc, " a ", false)?.as_str() == "a");
    holds(&rt, normalize_identifier(alloc, " A ")?.as_str() == "a");
    holds(
        &rt,
        line_endings_to_spaces(alloc, "a\nb")?.as_str() == "a b",
    );
    Ok(())
}
