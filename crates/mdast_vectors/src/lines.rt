//! What the runs of a program print, and what its reader and its decoder accept.

ghost use Rattle.std.specs.Prelude.{◌<◌};

use crate::expect::{prints, same, says};
use event_lines::lines::events;
use event_lines::written::lines_of;
use markdown_nodes::event::{Event, Kind, Name, Point};
use mdast_programs::check::run_check;
use mdast_programs::request::{DocumentError, Request};
use mdast_programs::run::run;
use std::alloc::{AllocError, Global};
use std::io::{self, ErrorKind, Read, Write};
use std::process::Abort;
use std::test::Fail;

/// The events of `Hi`, a paragraph with one data span.
const HI: &[u8] = b"+Paragraph 1:1:0\n+Data 1:1:0\n-Data 1:3:2\n-Paragraph 1:3:2\n";

/// A reader that returns a line feed at each read, this many times, and then its end.
#[derive(Drop)]
struct LineFeeds(u32);

impl Read for LineFeeds {
    fn read(&mut self, buf: &mut [u8]) -> io::Result<usize> {
        if buf.is_empty() || self.0 == 0 {
            return Ok(0);
        }
        self.0 -= 1;
        buf[0] = b'\n';
        Ok(1)
    }
}

/// A reader that returns a line that cannot be read, and then fails.
#[derive(Drop)]
struct Failing(bool);

impl Read for Failing {
    fn read(&mut self, buf: &mut [u8]) -> io::Result<usize> {
        if self.0 || buf.len() < 2 {
            return Err(io::Error::from(ErrorKind::BrokenPipe));
        }
        self.0 = true;
        buf[0] = b'x';
        buf[1] = b'\n';
        Ok(2)
    }
}

/// A reader that is interrupted before each read of a line that cannot be read.
#[derive(Drop)]
struct Interrupted(u8);

impl Read for Interrupted {
    fn read(&mut self, buf: &mut [u8]) -> io::Result<usize> {
        if self.0 == 4 || buf.is_empty() {
            return Ok(0);
        }
        self.0 = self.0.saturating_add(1);
        if self.0 % 2 == 1 {
            return Err(io::Error::from(ErrorKind::Interrupted));
        }
        buf[0] = b'x';
        Ok(1)
    }
}

/// A writer that accepts nothing.
#[derive(Drop)]
struct Closed;

impl Write for Closed {
    fn write(&mut self, _buf: &[u8]) -> io::Result<usize> {
        Err(io::Error::from(ErrorKind::BrokenPipe))
    }

    fn flush(&mut self) -> io::Result<()> {
        Ok(())
    }
}

/// Runs the program over the document `Hi`, and compares the result.
fn expect<R: Abort + AllocGlobal, I: Read>(rt: &R, input: &mut I, line: &str, status: u8) {
    let mut output = Vec::new(rt.alloc());
    let found = run(rt.alloc(), b"Hi", input, &mut output);
    same(rt, str::from_utf8(&output), Ok(line));
    same(rt, found, status);
}

#[test]
fn prints_a_tree(rt: HostRuntime) {
    let tree =
        "Root { children: [Paragraph { children: [Text { value: \"Hi\", position: Some(1:1-1:3 (0-2)) }], position: Some(1:1-1:3 (0-2)) }], position: Some(1:1-1:3 (0-2)) }\n";
    let mut input = HI;
    expect(&rt, &mut input, tree, 0);
}

/// Returns a copy of an argument.
fn own(alloc: Global, argument: Option<&str>) -> Result<Option<String>, AllocError> {
    match argument {
        Some(argument) => Ok(Some(String::from_str(alloc, argument)?)),
        None => Ok(None),
    }
}

/// Returns copies of arguments.
fn owned(
    alloc: Global,
    arguments: [Option<&str>; 3],
) -> Result<(Option<String>, Option<String>, Option<String>), AllocError> {
    let [first, second, third] = arguments;
    Ok((own(alloc, first)?, own(alloc, second)?, own(alloc, third)?))
}

/// The events of `# Hi`, a line ending, and `[^A]`: a heading, and a paragraph with a call of a
/// footnote.
const HEADING_AND_CALL: &[u8] =
    b"+HeadingAtx 1:1:0\n+HeadingAtxSequence 1:1:0\n-HeadingAtxSequence 1:2:1\n+SpaceOrTab 1:2:1\n-SpaceOrTab 1:3:2\n+HeadingAtxText 1:3:2\n+Data 1:3:2\n-Data 1:5:4\n-HeadingAtxText 1:5:4\n-HeadingAtx 1:5:4\n+LineEnding 1:5:4\n-LineEnding 2:1:5\n+Paragraph 2:1:5\n+GfmFootnoteCall 2:1:5\n+LabelText 2:3:7\n+Data 2:3:7\n-Data 2:4:8\n-LabelText 2:4:8\n-GfmFootnoteCall 2:5:9\n-Paragraph 2:5:9\n";

/// Runs the program that checks a tree, and compares the result.
fn expect_check<R: Abort + AllocGlobal>(rt: &R, doc: &[u8], events: &[u8], text: &str, status: u8) {
    let mut input = events;
    let mut output = Vec::new(rt.alloc());
    let found = run_check(rt.alloc(), doc, &mut input, &mut output);
    same(rt, str::from_utf8(&output), Ok(text));
    same(rt, found, status);
}

/// The events of `# Hi *Earth*!`, a heading with emphasis.
const HEADING: &[u8] =
    b"+HeadingAtx 1:1:0\n+HeadingAtxSequence 1:1:0\n-HeadingAtxSequence 1:2:1\n+SpaceOrTab 1:2:1\n-SpaceOrTab 1:3:2\n+HeadingAtxText 1:3:2\n+Data 1:3:2\n-Data 1:6:5\n+Emphasis 1:6:5\n+EmphasisSequence 1:6:5\n-EmphasisSequence 1:7:6\n+EmphasisText 1:7:6\n+Data 1:7:6\n-Data 1:12:11\n-EmphasisText 1:12:11\n+EmphasisSequence 1:12:11\n-EmphasisSequence 1:13:12\n-Emphasis 1:13:12\n+Data 1:13:12\n-Data 1:14:13\n-HeadingAtxText 1:14:13\n-HeadingAtx 1:14:13\n";

/// The events of `[A]`, a line ending, `[^c]`, another, and `[a]: u`: a link that a definition
/// answers, and a call of a footnote that nothing answers.
const LINK_AND_CALL: &[u8] =
    b"+Paragraph 1:1:0\n+Link 1:1:0\n+LabelText 1:2:1\n+Data 1:2:1\n-Data 1:3:2\n-LabelText 1:3:2\n-Link 1:4:3\n+LineEnding 1:4:3\n-LineEnding 2:1:4\n+GfmFootnoteCall 2:1:4\n+LabelText 2:3:6\n+Data 2:3:6\n-Data 2:4:7\n-LabelText 2:4:7\n-GfmFootnoteCall 2:5:8\n-Paragraph 2:5:8\n+LineEnding 2:5:8\n-LineEnding 3:1:9\n+Definition 3:1:9\n+DefinitionLabelString 3:2:10\n+Data 3:2:10\n-Data 3:3:11\n-DefinitionLabelString 3:3:11\n+DefinitionDestinationString 3:6:14\n+Data 3:6:14\n-Data 3:7:15\n-DefinitionDestinationString 3:7:15\n-Definition 3:7:15\n";

/// The events of a link with the label `ẞ`, whose identifier is `ss`.
const SHARP_S: &[u8] =
    b"+Link 1:1:0\n+LabelText 1:2:1\n+Data 1:2:1\n-Data 1:5:4\n-LabelText 1:5:4\n-Link 1:6:5\n";

/// Documents, their events, what the run that checks them prints, and its exit status.
static CHECKED: [(&[u8], &[u8], &str, u8); 8] = [
    (b"Hi", HI, "", 0),
    (
        b"# Hi\n[^A]",
        HEADING_AND_CALL,
        "heading 1 \"Hi\"\nopen footnote \"a\" 2:1-2:5 (5-9)\n",
        4,
    ),
    (b"# Hi *Earth*!", HEADING, "heading 1 \"Hi Earth!\"\n", 0),
    (
        b"[A]\n[^c]\n[a]: u",
        LINK_AND_CALL,
        "open footnote \"c\" 2:1-2:5 (4-8)\n",
        4,
    ),
    // `[ẞ]`
    (
        b"[\xE1\xBA\x9E]",
        SHARP_S,
        "open link \"ss\" 1:1-1:6 (0-5)\n",
        4,
    ),
    (b"", b"", "", 0),
    (
        b"Hi",
        b"+Data 1:1:0\n-Paragraph 1:3:2\n",
        "1:3 (2): an exit does not match the open span, or a span is left open (events-unbalanced)\n",
        1,
    ),
    (
        b"Hi",
        b"+Data 1:1:0\n+Data\n",
        "mdast_show: event line 2 cannot be read\n",
        2,
    ),
];

#[test]
fn checks_headings_and_references(rt: HostRuntime) {
    for (doc, events, text, status) in &CHECKED {
        expect_check(&rt, doc, events, text, *status);
    }
}

/// Expects the request of some arguments to be printed like this.
fn expect_request<R: Abort + AllocGlobal>(
    rt: &R,
    arguments: [Option<&str>; 3],
    request: &str,
) -> Result<(), AllocError> {
    let (first, second, third) = owned(rt.alloc(), arguments)?;
    let found = Request::of(first, second, third);
    prints(rt, rt.alloc(), &found, request)
}

/// Arguments of `mdast_show`, and what they request.
static REQUESTS: [(Option<&str>, Option<&str>, Option<&str>, &str); 7] = [
    (None, None, None, "None"),
    (Some("hi.md"), None, None, "Some(Show(\"hi.md\"))"),
    (Some("--check"), None, None, "Some(Show(\"--check\"))"),
    (
        Some("--check"),
        Some("hi.md"),
        None,
        "Some(Check(\"hi.md\"))",
    ),
    (
        Some("--check"),
        Some("--check"),
        None,
        "Some(Check(\"--check\"))",
    ),
    (Some("hi.md"), Some("--check"), None, "None"),
    (Some("--check"), Some("hi.md"), Some("hi.md"), "None"),
];

#[test]
fn tells_what_the_arguments_ask_for(rt: HostRuntime) -> Result<(), AllocError> {
    for (first, second, third, request) in &REQUESTS {
        expect_request(&rt, [*first, *second, *third], request)?;
    }
    Ok(())
}

#[test]
fn says_why_there_is_no_document(rt: HostRuntime) {
    same(
        &rt,
        DocumentError::Usage.line(),
        "usage: mdast_show [--check] DOC\n",
    );
    same(
        &rt,
        DocumentError::Unreadable.line(),
        "mdast_show: cannot read the document\n",
    );
    same(
        &rt,
        DocumentError::Memory.line(),
        "mdast_show: out of memory\n",
    );
    same(&rt, DocumentError::Unreadable.status(), 2);
    same(&rt, DocumentError::Memory.status(), 3);
}

#[test]
fn prints_a_refusal(rt: HostRuntime) {
    let error_kind =
        "1:3 (2): an exit does not match the open span, or a span is left open (events-unbalanced)\n";
    let mut input =
        b"+Paragraph 1:1:0\n+Data 1:1:0\n-Paragraph 1:3:2\n-Paragraph 1:3:2\n".as_slice();
    expect(&rt, &mut input, error_kind, 1);
}

/// Events, and the line of each list that cannot be read.
static UNREAD: [(&[u8], usize); 9] = [
    (b"+Nope 1:1:0\n+Paragraph 1:1:0\n", 1),
    (b"Data 1:1:0\n", 1),
    (b"+Data 1:1\n", 1),
    (b"\n+Data 1:1:0:\n", 2),
    (b"+Data 1:1:0\n+Data  1:1:0", 2),
    (b"\n\n+Data 1:1:18446744073709551616\n", 3),
    (b"+D\xFFta 1:1:0\n", 1),
    (b"+Data 1:1:0\r\n", 1),
    (b"+Data 1:1:0\n\n+Data 1:1:0\nx\ny\n", 4),
];

#[test]
fn numbers_a_line_that_cannot_be_read(rt: HostRuntime) -> Result<(), AllocError> {
    for (text, number) in &UNREAD {
        let mut input = *text;
        let line = format!(in rt.alloc(); "mdast_show: event line {number} cannot be read\n")?;
        expect(&rt, &mut input, line.as_str(), 2);
    }
    Ok(())
}

/// Returns an event at a line, a column and an index, with virtual spaces.
fn event(kind: Kind, name: Name, numbers: [usize; 4]) -> Event {
    let [line, column, index, vs] = numbers;
    let point = Point {
        line,
        column,
        index,
        vs,
    };
    Event { kind, name, point }
}

#[test]
fn reads_virtual_spaces(rt: HostRuntime) -> Result<(), Fail> {
    let read = events(rt.alloc(), b"+Data 1:1:0:0\n\n-Data 1:3:2:7\n+Link 2:03:4")?;
    let wanted = [
        event(Kind::Enter, Name::Data, [1, 1, 0, 0]),
        event(Kind::Exit, Name::Data, [1, 3, 2, 7]),
        event(Kind::Enter, Name::Link, [2, 3, 4, 0]),
    ];
    same(&rt, read.as_slice(), wanted.as_slice());
    Ok(())
}

/// Events are written as they are read: a sign, a name, and numbers without leading zeros.
#[test]
fn writes_lines(rt: HostRuntime) -> Result<(), Fail> {
    let lines = "+SpaceOrTab 1:1:0\n-SpaceOrTab 1:3:0:2\n+Data 12:1:345\n-Data 12:3:347\n";
    let read = events(rt.alloc(), lines.as_bytes())?;
    says(&rt, lines_of(rt.alloc(), &read), lines)?;
    says(&rt, lines_of(rt.alloc(), &[]), "")?;
    Ok(())
}

/// Returns two events at one point.
fn events_at(numbers: [usize; 4]) -> [Event; 2] {
    [
        event(Kind::Enter, Name::Data, numbers),
        event(
            Kind::Exit,
            Name::CharacterReferenceMarkerHexadecimal,
            numbers,
        ),
    ]
}

/// Appends the lines of these events to a text, with this text of their point.
fn say_twice(text: &mut String, point: &str) -> Result<(), AllocError> {
    text.push_str("+Data ")?;
    text.push_str(point)?;
    text.push_str("\n-CharacterReferenceMarkerHexadecimal ")?;
    text.push_str(point)?;
    text.push_str("\n")?;
    Ok(())
}

/// Points as they are written, some of them repeated.
static POINTS: [(&str, [usize; 4]); 9] = [
    ("1:1:0", [1, 1, 0, 0]),
    ("1:1:01", [1, 1, 1, 0]),
    ("1:1:0:3", [1, 1, 0, 3]),
    ("1:1:0", [1, 1, 0, 0]),
    ("1234567:12345678:0", [1_234_567, 12_345_678, 0, 0]),
    ("123456789:1:0", [123_456_789, 1, 0, 0]),
    (
        "1:10000000000:100000000000000:2",
        [1, 10_000_000_000, 100_000_000_000_000, 2],
    ),
    (
        "1:10000000000:100000000000000:21",
        [1, 10_000_000_000, 100_000_000_000_000, 21],
    ),
    (
        "18446744073709551615:1:18446744073709551615",
        [usize::MAX, 1, usize::MAX, 0],
    ),
];

/// Returns the lines of two events at each of these points.
fn text_of_points(alloc: Global) -> Result<String, AllocError> {
    let mut text = String::new(alloc);
    for (said, _) in &POINTS {
        say_twice(&mut text, said)?;
    }
    Ok(text)
}

/// Returns two events at each of these points.
fn events_of_points(alloc: Global) -> Result<Vec<Event>, AllocError> {
    let mut events = Vec::new(alloc);
    for (_, numbers) in &POINTS {
        events.extend_from_slice(&events_at(*numbers))?;
    }
    Ok(events)
}

/// A repeated point is the same, however long its text is, and a different one is read.
#[test]
fn reads_points_that_are_said_again(rt: HostRuntime) -> Result<(), Fail> {
    let text = text_of_points(rt.alloc())?;
    let wanted = events_of_points(rt.alloc())?;
    let read = events(rt.alloc(), text.as_bytes())?;
    same(&rt, read.as_slice(), wanted.as_slice());
    Ok(())
}

#[test]
fn reads_its_input_whole_first(rt: HostRuntime) {
    let failed = "mdast_show: cannot read the events\n";
    expect(&rt, &mut Failing(false), failed, 2);
    expect(&rt, &mut LineFeeds(u32::MAX), failed, 2);
    let value_error = "mdast_show: event line 1 cannot be read\n";
    expect(&rt, &mut Interrupted(0), value_error, 2);
}

#[test]
fn reads_up_to_its_bound(rt: HostRuntime) {
    let empty = "Root { children: [], position: Some(1:1-1:1 (0-0)) }\n";
    expect(&rt, &mut LineFeeds(1_048_575), empty, 0);
    let failed = "mdast_show: cannot read the events\n";
    expect(&rt, &mut LineFeeds(1_048_576), failed, 2);
}

#[test]
fn fails_where_nothing_can_be_written(rt: HostRuntime) {
    let mut input = HI;
    same(&rt, run(rt.alloc(), b"Hi", &mut input, &mut Closed), 2);
}
