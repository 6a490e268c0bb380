//! The writer of events: what its calls write over small documents, and that a refused call leaves
//! it unchanged. The points are worked out by hand; those of the tabs in a block quote are also in
//! `docs/EVENTS.md`.

use crate::expect::{holds_in, same_in};
use character_references::decoder::NoReferences;
use event_lines::lines::events;
use event_writer::error::WriteError;
use event_writer::writer::Writer;
use markdown_nodes::event::{Event, Name};
use std::alloc::{AllocError, Global};
use std::process::Abort;

/// A writer over a document without character references.
type Plain<'d> = Writer<'d, NoReferences>;

/// A call of a writer.
#[derive(Clone, Copy)]
enum Call {
    /// `enter`, with a name.
    Enter(Name),
    /// `exit`.
    Exit,
    /// `token`, with a name, an offset, and virtual spaces.
    Token(Name, usize, usize),
    /// `line_ending`, with a name.
    LineEnding(Name),
}

impl Call {
    /// Makes the call.
    fn make(self, writer: &mut Plain<'_>) -> Result<(), WriteError> {
        match self {
            Call::Enter(name) => writer.enter(name),
            Call::Exit => writer.exit(),
            Call::Token(name, to, virtual_spaces) => writer.token(name, to, virtual_spaces),
            Call::LineEnding(name) => writer.line_ending(name),
        }
    }
}

/// Makes calls, none of which is refused.
fn make_all(
    rt: &impl Abort,
    writer: &mut Plain<'_>,
    calls: &[Call],
    case: &str,
) -> Result<(), AllocError> {
    for call in calls {
        match call.make(writer) {
            Ok(()) => {}
            Err(WriteError::Misfit) => holds_in(rt, false, case),
            Err(WriteError::Memory(error)) => return Err(error),
        }
    }
    Ok(())
}

/// Compares what a writer has written with event lines.
fn finishes(
    rt: &impl Abort,
    alloc: Global,
    writer: Plain<'_>,
    lines: &str,
    case: &str,
) -> Result<(), AllocError> {
    let want = match events(alloc, lines.as_bytes()) {
        Ok(want) => Some(want),
        Err(_) => None,
    };
    same_in(rt, writer.finish(), want, case);
    Ok(())
}

/// A document, calls, and the lines of the events that they write.
type Written = (&'static str, &'static [Call], &'static str);

static WRITTEN: [Written; 6] = [
    ("", &[], ""),
    (
        "Hi",
        &[
            Call::Enter(Name::Paragraph),
            Call::Token(Name::Data, 2, 0),
            Call::Exit,
        ],
        "+Paragraph 1:1:0\n+Data 1:1:0\n-Data 1:3:2\n-Paragraph 1:3:2\n",
    ),
    // A byte order mark has three bytes, and a column for each.
    (
        "\u{FEFF}a",
        &[
            Call::Token(Name::ByteOrderMark, 3, 0),
            Call::Token(Name::Data, 4, 0),
        ],
        "+ByteOrderMark 1:1:0\n-ByteOrderMark 1:4:3\n+Data 1:4:3\n-Data 1:5:4\n",
    ),
    // After a tab the column is 5, 9, 13 and so on.
    (
        "a\tbcde\t\tf",
        &[
            Call::Token(Name::Data, 2, 0),
            Call::Token(Name::Data, 7, 0),
            Call::Token(Name::Data, 9, 0),
        ],
        "+Data 1:1:0\n-Data 1:5:2\n+Data 1:5:2\n-Data 1:13:7\n+Data 1:13:7\n-Data 1:18:9\n",
    ),
    // The three line endings: both bytes, a carriage return, and a line feed.
    (
        "a\r\nb\r\n\rc\n",
        &[
            Call::Token(Name::Data, 1, 0),
            Call::LineEnding(Name::LineEnding),
            Call::Token(Name::Data, 4, 0),
            Call::LineEnding(Name::LineEnding),
            Call::LineEnding(Name::BlankLineEnding),
            Call::Token(Name::Data, 8, 0),
            Call::LineEnding(Name::LineEnding),
        ],
        "+Data 1:1:0\n-Data 1:2:1\n+LineEnding 1:2:1\n-LineEnding 2:1:3\n+Data 2:1:3\n-Data 2:2:4\n\
         +LineEnding 2:2:4\n-LineEnding 3:1:6\n+BlankLineEnding 3:1:6\n-BlankLineEnding 4:1:7\n\
         +Data 4:1:7\n-Data 4:2:8\n+LineEnding 4:2:8\n-LineEnding 5:1:9\n",
    ),
    // The block quote takes one column of the first tab, and the indent two of the second.
    (
        ">\t\ta",
        &[
            Call::Enter(Name::BlockQuote),
            Call::Enter(Name::BlockQuotePrefix),
            Call::Token(Name::BlockQuoteMarker, 1, 0),
            Call::Token(Name::SpaceOrTab, 1, 1),
            Call::Exit,
            Call::Enter(Name::CodeIndented),
            Call::Token(Name::SpaceOrTab, 2, 2),
            Call::Token(Name::CodeFlowChunk, 4, 0),
            Call::Exit,
            Call::Exit,
        ],
        "+BlockQuote 1:1:0\n+BlockQuotePrefix 1:1:0\n+BlockQuoteMarker 1:1:0\n\
         -BlockQuoteMarker 1:2:1\n+SpaceOrTab 1:2:1\n-SpaceOrTab 1:3:1:1\n\
         -BlockQuotePrefix 1:3:1:1\n+CodeIndented 1:3:1:1\n+SpaceOrTab 1:3:1:1\n\
         -SpaceOrTab 1:7:2:2\n+CodeFlowChunk 1:7:2:2\n-CodeFlowChunk 1:10:4\n\
         -CodeIndented 1:10:4\n-BlockQuote 1:10:4\n",
    ),
];

#[test]
fn calls_write_these_events(rt: HostRuntime) -> Result<(), AllocError> {
    let alloc = rt.alloc();
    for (document, calls, lines) in &WRITTEN {
        let mut writer = Writer::new(alloc, document.as_bytes(), &NoReferences)?;
        make_all(&rt, &mut writer, calls, document)?;
        finishes(&rt, alloc, writer, lines, document)?;
    }
    Ok(())
}

/// A document, calls, one that is then refused, and calls that continue as if it had not been made.
type Refused = (
    &'static str,
    &'static [Call],
    Call,
    &'static [Call],
    &'static str,
);

static REFUSED: [Refused; 12] = [
    // The root accepts no label.
    ("", &[], Call::Enter(Name::LabelText), &[], ""),
    // No span is open.
    ("", &[], Call::Exit, &[], ""),
    // A heading must have a sequence.
    (
        "#",
        &[Call::Enter(Name::HeadingAtx)],
        Call::Exit,
        &[Call::Token(Name::HeadingAtxSequence, 1, 0), Call::Exit],
        "+HeadingAtx 1:1:0\n+HeadingAtxSequence 1:1:0\n-HeadingAtxSequence 1:2:1\n-HeadingAtx 1:2:1\n",
    ),
    // A heading is not a token.
    (
        "#",
        &[],
        Call::Token(Name::HeadingAtx, 1, 0),
        &[Call::Token(Name::SpaceOrTab, 1, 0)],
        "+SpaceOrTab 1:1:0\n-SpaceOrTab 1:2:1\n",
    ),
    // The line ends before the offset.
    (
        "a\nb",
        &[],
        Call::Token(Name::Data, 3, 0),
        &[
            Call::Token(Name::Data, 1, 0),
            Call::LineEnding(Name::LineEnding),
            Call::Token(Name::Data, 3, 0),
        ],
        "+Data 1:1:0\n-Data 1:2:1\n+LineEnding 1:2:1\n-LineEnding 2:1:2\n+Data 2:1:2\n-Data 2:2:3\n",
    ),
    // The document ends before the offset.
    (
        "a",
        &[],
        Call::Token(Name::Data, 2, 0),
        &[Call::Token(Name::Data, 1, 0)],
        "+Data 1:1:0\n-Data 1:2:1\n",
    ),
    // The cursor does not go back.
    (
        "ab",
        &[Call::Token(Name::Data, 2, 0)],
        Call::Token(Name::Data, 1, 0),
        &[],
        "+Data 1:1:0\n-Data 1:3:2\n",
    ),
    // A tab at column 1 has four columns, and a point in it has at most three of them before it.
    (
        "\ta",
        &[],
        Call::Token(Name::SpaceOrTab, 0, 4),
        &[
            Call::Token(Name::SpaceOrTab, 0, 3),
            Call::Token(Name::SpaceOrTab, 1, 0),
            Call::Token(Name::Data, 2, 0),
        ],
        "+SpaceOrTab 1:1:0\n-SpaceOrTab 1:4:0:3\n+SpaceOrTab 1:4:0:3\n-SpaceOrTab 1:5:1\n\
         +Data 1:5:1\n-Data 1:6:2\n",
    ),
    // No tab is there.
    (
        " a",
        &[],
        Call::Token(Name::SpaceOrTab, 0, 1),
        &[Call::Token(Name::Data, 2, 0)],
        "+Data 1:1:0\n-Data 1:3:2\n",
    ),
    // A character has two bytes, and a token that ends within it is not a text.
    (
        "\u{E9}",
        &[],
        Call::Token(Name::Data, 1, 0),
        &[Call::Token(Name::Data, 2, 0)],
        "+Data 1:1:0\n-Data 1:3:2\n",
    ),
    // No line ends there.
    (
        "a",
        &[],
        Call::LineEnding(Name::LineEnding),
        &[Call::Token(Name::Data, 1, 0)],
        "+Data 1:1:0\n-Data 1:2:1\n",
    ),
    // The root accepts no label, even if it is a line ending.
    (
        "\n",
        &[],
        Call::LineEnding(Name::LabelText),
        &[Call::LineEnding(Name::BlankLineEnding)],
        "+BlankLineEnding 1:1:0\n-BlankLineEnding 2:1:1\n",
    ),
];

/// Makes a call that is refused. The cursor does not move.
fn is_refused(rt: &impl Abort, writer: &mut Plain<'_>, call: Call, case: &str) {
    let before = writer.cursor();
    let is_misfit = matches!(call.make(writer), Err(WriteError::Misfit));
    holds_in(rt, is_misfit, case);
    same_in(rt, writer.cursor(), before, case);
}

#[test]
fn a_refused_call_leaves_the_writer_as_it_was(rt: HostRuntime) -> Result<(), AllocError> {
    let alloc = rt.alloc();
    for (document, before, call, after, lines) in &REFUSED {
        let mut writer = Writer::new(alloc, document.as_bytes(), &NoReferences)?;
        make_all(&rt, &mut writer, before, document)?;
        is_refused(&rt, &mut writer, *call, document);
        make_all(&rt, &mut writer, after, document)?;
        finishes(&rt, alloc, writer, lines, document)?;
    }
    Ok(())
}

/// A document, and calls after which nothing can be finished: a span is open, the document
/// continues, or a break waits for its line ending.
static UNFINISHED: [(&str, &[Call]); 3] = [
    ("", &[Call::Enter(Name::Paragraph)]),
    ("ab", &[Call::Token(Name::Data, 1, 0)]),
    ("  ", &[Call::Token(Name::HardBreakTrailing, 2, 0)]),
];

#[test]
fn what_is_not_whole_is_not_finished(rt: HostRuntime) -> Result<(), AllocError> {
    let alloc = rt.alloc();
    for (document, calls) in &UNFINISHED {
        let mut writer = Writer::new(alloc, document.as_bytes(), &NoReferences)?;
        make_all(&rt, &mut writer, calls, document)?;
        let none: Option<Vec<Event>> = None;
        same_in(&rt, writer.finish(), none, document);
    }
    Ok(())
}
