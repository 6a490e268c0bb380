//! Tests of what is written of a document. The texts are worked out by hand; the lines of drawn trees
//! are those of unist-util-inspect.

use crate::compiled::{write_compiled, write_event_lines};
use crate::error::PrintError;
use crate::parsed::{write_document, write_events};
use markdown::ParseOptions;
use std::alloc::{AllocError, Global};
use std::io::{self, Write};
use std::process::Abort;
use tree_forms::{Asked, TreeForm};

/// The tree of `# Hi *Earth*!`, an empty line, and an item with a mark.
const TREE: &str = "\
root[2] (1:1-4:1, 0-27)
├─0 heading[3] (1:1-1:14, 0-13) depth: 1
│   ├─0 text (1:3-1:6, 2-5) \"Hi \"
│   ├─1 emphasis[1] (1:6-1:13, 5-12)
│   │   └─0 text (1:7-1:12, 6-11) \"Earth\"
│   └─2 text (1:13-1:14, 12-13) \"!\"
└─1 list[1] (3:1-3:12, 15-26) ordered: false spread: false
    └─0 listItem[1] (3:1-3:12, 15-26) spread: false checked: true
        └─0 paragraph[1] (3:7-3:12, 21-26)
            └─0 text (3:7-3:12, 21-26) \"Pack.\"
";

/// The tree of `a[^1]`, an empty line, and `[^1]: b`, with lines of at most 40 characters.
const NARROW: &str = "\
root[2] (1:1-3:8, 0-14)
├─0 paragraph[2] (1:1-1:6, 0-5)
│   ├─0 text (1:1-1:2, 0-1) \"a\"
│   └─1 footnoteReference (1:2-1:6, 1-5…
└─1 footnoteDefinition[1] (3:1-3:8, 7-1…
    └─0 paragraph[1] (3:7-3:8, 13-14)
        └─0 text (3:7-3:8, 13-14) \"b\"
";

/// Returns a document drawn for people, with lines of at most this many characters.
fn drawn(alloc: Global, document: &str, width: Option<usize>) -> Result<Vec<u8>, PrintError> {
    let mut lines = Vec::new(alloc);
    let asked = Asked {
        form: TreeForm::Drawn,
        name: "DOC",
        width,
    };
    let options = ParseOptions::gfm();
    write_document(alloc, document.as_bytes(), &options, &asked, &mut lines)?;
    Ok(lines)
}

#[test]
fn draws_a_tree(rt: HostRuntime) -> Result<(), PrintError> {
    let tree = drawn(rt.alloc(), "# Hi *Earth*!\n\n- [x] Pack.\n", None)?;
    assert_eq!(rt; tree.as_slice(), TREE.as_bytes());
    let narrow = drawn(rt.alloc(), "a[^1]\n\n[^1]: b", Some(40))?;
    assert_eq!(rt; narrow.as_slice(), NARROW.as_bytes());
    Ok(())
}

/// Draws the last two of eleven breaks: indexes of one digit are padded to two.
#[test]
fn pads_indexes(rt: HostRuntime) -> Result<(), PrintError> {
    let document = "***\n".repeat(rt.alloc(), 11)?;
    let lines = drawn(rt.alloc(), document.as_str(), None)?;
    let end = "\
├─9  thematicBreak (10:1-10:4, 36-39)
└─10 thematicBreak (11:1-11:4, 40-43)
";
    assert!(rt; lines.ends_with(end.as_bytes()));
    Ok(())
}

/// A writer that counts what it is given.
#[derive(Drop)]
struct Counts {
    pieces: usize,
    lines: usize,
}

impl Write for Counts {
    fn write(&mut self, bytes: &[u8]) -> io::Result<usize> {
        self.pieces = self.pieces.saturating_add(1);
        for byte in bytes {
            if *byte == b'\n' {
                self.lines = self.lines.saturating_add(1);
            }
        }
        Ok(bytes.len())
    }

    fn flush(&mut self) -> io::Result<()> {
        Ok(())
    }
}

/// The lines of a root and 3,000 breaks have some 150,000 bytes, so they come in three pieces.
#[test]
fn draws_in_pieces(rt: HostRuntime) -> Result<(), PrintError> {
    let document = "***\n".repeat(rt.alloc(), 3000)?;
    let mut counts = Counts {
        pieces: 0,
        lines: 0,
    };
    let options = ParseOptions::default();
    let drawn = asked(TreeForm::Drawn);
    write_document(
        rt.alloc(),
        document.as_bytes(),
        &options,
        &drawn,
        &mut counts,
    )?;
    assert_eq!(rt; counts.pieces, 3);
    assert_eq!(rt; counts.lines, 3001);
    Ok(())
}

/// The event lines of the document `Hi`.
const HI: &str = "+Paragraph 1:1:0\n+Data 1:1:0\n-Data 1:3:2\n-Paragraph 1:3:2\n";

/// The line of the tree of `Hi`, as Debug writes it.
const HI_TREE: &str =
    "Root { children: [Paragraph { children: [Text { value: \"Hi\", position: Some(1:1-1:3 (0-2)) }], position: Some(1:1-1:3 (0-2)) }], position: Some(1:1-1:3 (0-2)) }\n";

/// Returns the request for a form of the document `DOC`.
fn asked<'a>(form: TreeForm) -> Asked<'a> {
    Asked {
        form,
        name: "DOC",
        width: None,
    }
}

#[test]
fn writes_a_document(rt: HostRuntime) {
    let mut output = Vec::new(rt.alloc());
    let options = ParseOptions::gfm();
    let debug = asked(TreeForm::Debug);
    let printed = write_document(rt.alloc(), b"Hi", &options, &debug, &mut output);
    assert!(rt; matches!(&printed, Ok(printed) if printed.is_clean));
    assert_eq!(rt; output.as_slice(), HI_TREE.as_bytes());
}

#[test]
fn says_that_there_are_warnings(rt: HostRuntime) -> Result<(), PrintError> {
    let mut output = Vec::new(rt.alloc());
    let options = ParseOptions::gfm();
    let warnings = asked(TreeForm::Warnings);
    let printed = write_document(rt.alloc(), b"[a]()", &options, &warnings, &mut output)?;
    assert!(rt; !printed.forget());
    let line = "DOC:1:1: warning: the link has no address (link-empty)\n";
    assert_eq!(rt; output.as_slice(), line.as_bytes());
    Ok(())
}

#[test]
fn writes_the_events_of_a_document(rt: HostRuntime) {
    let mut output = Vec::new(rt.alloc());
    let written = write_events(rt.alloc(), b"Hi", &ParseOptions::gfm(), &mut output);
    assert!(rt; written.is_ok());
    assert_eq!(rt; output.as_slice(), HI.as_bytes());
}

/// Returns the lines of the events of a text in a line that is `a`: where the line begins and ends.
fn lines_of_a(alloc: Global, line: usize, offset: usize) -> Result<String, AllocError> {
    let end = offset.saturating_add(1);
    format!(in alloc; "+Data {line}:1:{offset}\n-Data {line}:2:{end}\n")
}

/// Returns the lines of the events of the line ending after such a line.
fn lines_of_its_end(alloc: Global, line: usize, offset: usize) -> Result<String, AllocError> {
    let end = offset.saturating_add(1);
    let after = end.saturating_add(1);
    let next = line.saturating_add(1);
    format!(in alloc; "+LineEnding {line}:2:{end}\n-LineEnding {next}:1:{after}\n")
}

/// A paragraph of 400 lines has 1,602 events, more than are written at once.
#[test]
fn writes_events_in_pieces(rt: HostRuntime) -> Result<(), PrintError> {
    let alloc = rt.alloc();
    let mut document = String::new(alloc);
    let mut wanted = String::from_str(alloc, "+Paragraph 1:1:0\n")?;
    for line in 1..400 {
        document.push_str("a\n")?;
        wanted.push_str(lines_of_a(alloc, line, 2 * line - 2)?.as_str())?;
        wanted.push_str(lines_of_its_end(alloc, line, 2 * line - 2)?.as_str())?;
    }
    document.push_str("a")?;
    wanted.push_str(lines_of_a(alloc, 400, 798)?.as_str())?;
    wanted.push_str("-Paragraph 400:2:799\n")?;
    let mut output = Vec::new(alloc);
    write_events(
        alloc,
        document.as_bytes(),
        &ParseOptions::gfm(),
        &mut output,
    )?;
    assert_eq!(rt; output.as_slice(), wanted.as_bytes());
    Ok(())
}

#[test]
fn writes_event_lines(rt: HostRuntime) {
    let mut output = Vec::new(rt.alloc());
    let lines = b"+Data 1:1:0\n\n-Data 1:3:2";
    assert!(rt; write_event_lines(rt.alloc(), b"Hi", lines, &mut output).is_ok());
    assert_eq!(rt; output.as_slice(), b"+Data 1:1:0\n-Data 1:3:2\n".as_slice());
}

/// Returns what is written of a document and its event lines, or why nothing is.
fn compiled(alloc: Global, document: &[u8], lines: &str) -> Result<Vec<u8>, PrintError> {
    let mut output = Vec::new(alloc);
    let debug = asked(TreeForm::Debug);
    write_compiled(alloc, document, lines.as_bytes(), &debug, &mut output)?;
    Ok(output)
}

#[test]
fn writes_a_compiled_document(rt: HostRuntime) -> Result<(), PrintError> {
    let line = compiled(rt.alloc(), b"Hi", HI)?;
    assert_eq!(rt; line.as_slice(), HI_TREE.as_bytes());
    Ok(())
}

/// The bytes and the lines that are at fault: the fourth byte begins no character, the second line
/// is no event, and the third and last one leaves a paragraph open.
#[test]
fn says_why_it_is_not_compiled(rt: HostRuntime) {
    let alloc = rt.alloc();
    let no_text = compiled(alloc, b"caf\xe9", "");
    assert!(rt; matches!(no_text, Err(PrintError::NotUtf8(3))));
    let unread = compiled(alloc, b"Hi", "+Paragraph 1:1:0\nno event\n");
    assert!(rt; matches!(unread, Err(PrintError::EventLine(2))));
    let refused = compiled(alloc, b"Hi", "+Paragraph 1:1:0\n+Data 1:1:0\n-Data 1:3:2\n");
    assert!(rt; matches!(refused, Err(PrintError::Refused(_))));
}
