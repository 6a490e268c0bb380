//! Documents of more pieces than are written at once.

use crate::reading::{events, shown};
use markdown::Constructs;
use markdown_events::event::Name;
use std::alloc::AllocError;

/// A heading has eight pieces with its line ending.
#[test]
fn each_heading_of_many(rt: HostRuntime) -> Result<(), AllocError> {
    let alloc = rt.alloc();
    let count: usize = 3_000;
    let mut expected = String::new(alloc);
    for line in 0..count {
        let start = line.saturating_mul(4);
        write!(
            expected,
            "(HeadingAtx HeadingAtxSequence:{} SpaceOrTab:{} (HeadingAtxText Data:{} ) ) LineEnding:{} ",
            start.saturating_add(1),
            start.saturating_add(2),
            start.saturating_add(3),
            start.saturating_add(4)
        )?;
    }
    let document = "# a\n".repeat(alloc, count)?;
    assert!(rt; shown(alloc, document.as_str())? == expected);
    Ok(())
}

/// An item has ten pieces, and the mark of a task may come in its paragraph wherever they are cut.
/// Four lists, each one item longer, are cut at four places of an item.
#[test]
fn each_task_of_many(rt: HostRuntime) -> Result<(), AllocError> {
    let alloc = rt.alloc();
    for count in 1_000_usize..1_004 {
        let document = "- [x] a\n".repeat(alloc, count)?;
        let events = events(alloc, document.as_str(), Constructs::gfm())?;
        let marks = events
            .iter()
            .filter(|event| event.name == Name::GfmTaskListItemCheck)
            .count();
        assert!(rt; marks == count.saturating_mul(2));
    }
    Ok(())
}
