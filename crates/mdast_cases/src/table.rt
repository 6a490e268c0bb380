//! Tables of cases, in the notations of `rows.txt` and of `original.txt`.
//!
//! Both are read line by line. A case begins with its name, followed by its document, and ends with
//! the expected result of `compile`:
//!
//! ```text
//! row a-text-in-a-paragraph
//! "Hi"
//! Paragraph 0-2 { Data 0-2 }
//! = Root { .. }
//!
//! case 1
//! doc 4869
//! +Paragraph 1:1:0
//! +Data 1:1:0
//! -Data 1:3:2
//! -Paragraph 1:3:2
//! = Root { .. }
//! ```
//!
//! In place of events a line may say how the tokenizer reads the document:
//!
//! ```text
//! row a-paragraph
//! "Hi"
//! read commonmark
//! = Root { .. }
//! ```

use crate::case::{Case, Forms};
use crate::decoder::CaseDecoder;
use crate::document::Document;
use crate::hexadecimal::bytes_of_digits;
use crate::line::{Line, LineError, LineKind, read_line};
use crate::reading::{events_of_document, options_of_word};
use crate::spans::events_of_spans;
use crate::sums::Checksum;
use crate::unquoted::unquoted;
use event_lines::lines::events;
use markdown::{ParseOptions, hidden_bytes};
use markdown_nodes::event::Event;
use markdown_tree::to_mdast::Values;
use std::alloc::{AllocError, AllocFailed, Global};

/// Why a table was not read.
#[derive(Drop)]
pub enum TableError {
    /// The line with this number, counted from 1, cannot be read, or it names a case that has no
    /// document or no answer.
    Unread(usize),
    /// Memory ran out.
    Memory(AllocError),
}

impl<T: Drop> From<AllocFailed<T>> for TableError {
    fn from(error: AllocFailed<T>) -> TableError {
        TableError::Memory(AllocError::from(error))
    }
}

/// Returns the cases of a table.
pub fn cases(alloc: Global, table: &[u8]) -> Result<Vec<Case<'_>>, TableError> {
    let mut reader = Reader {
        alloc,
        section: "",
        draft: None,
        cases: Vec::new(alloc),
    };
    reader.read(table)?;
    Ok(reader.cases)
}

/// The part of a table that was read so far.
#[derive(Drop)]
struct Reader<'a> {
    /// The allocator.
    alloc: Global,
    /// The section that the lines are in.
    section: &'a str,
    /// The case that the lines belong to.
    draft: Option<Draft<'a>>,
    /// The cases before it.
    cases: Vec<Case<'a>>,
}

impl<'a> Reader<'a> {
    /// Reads the lines of a table.
    fn read(&mut self, table: &'a [u8]) -> Result<(), TableError> {
        let mut number: usize = 0;
        for line in table.split(|byte| *byte == b'\n') {
            number = number.saturating_add(1);
            self.line(number, line)?;
        }
        self.end_case()
    }

    /// Reads a line with this number.
    fn line(&mut self, number: usize, bytes: &'a [u8]) -> Result<(), TableError> {
        let Some(line) = line_of_bytes(bytes) else {
            return Err(TableError::Unread(number));
        };
        match line.kind {
            LineKind::Nothing => Ok(()),
            LineKind::Section => self.begin_section(line.text),
            LineKind::Case => self.begin_case(number, line.whole),
            _ => self.line_of_case(number, line),
        }
    }

    /// Begins the section of this name.
    fn begin_section(&mut self, name: &'a str) -> Result<(), TableError> {
        self.end_case()?;
        self.section = name;
        Ok(())
    }

    /// Begins the case of this name.
    fn begin_case(&mut self, number: usize, name: &'a str) -> Result<(), TableError> {
        self.end_case()?;
        self.draft = Some(Draft::new(self.alloc, number, name));
        Ok(())
    }

    /// Reads a line of the case.
    fn line_of_case(&mut self, number: usize, line: Line<'a>) -> Result<(), TableError> {
        let Some(draft) = &mut self.draft else {
            return Err(TableError::Unread(number));
        };
        match draft.add(self.alloc, line) {
            Ok(()) => Ok(()),
            Err(LineError::Unread) => Err(TableError::Unread(number)),
            Err(LineError::Memory(error)) => Err(TableError::Memory(error)),
        }
    }

    /// Ends the case, if there is one.
    fn end_case(&mut self) -> Result<(), TableError> {
        if let Some(draft) = self.draft.take() {
            let number = draft.number;
            match draft.case(self.section) {
                Some(case) => self.cases.push(case)?,
                None => return Err(TableError::Unread(number)),
            }
        }
        Ok(())
    }
}

/// Returns the line with these bytes.
fn line_of_bytes(bytes: &[u8]) -> Option<Line<'_>> {
    match str::from_utf8(bytes) {
        Ok(text) => read_line(text),
        Err(_) => None,
    }
}

/// A case whose lines are being read.
#[derive(Drop)]
struct Draft<'a> {
    /// The number of its first line.
    number: usize,
    /// Its first line.
    name: &'a str,
    /// The document, after its line.
    document: Option<Document>,
    /// What its character references stand for.
    decoder: CaseDecoder,
    /// How values are read.
    values: Values,
    /// How the tokenizer reads the document, after the line for it.
    options: Option<ParseOptions>,
    /// The events so far.
    events: Vec<Event>,
    /// The flags of hidden bytes, after the line for how the tokenizer reads the document.
    hidden: Vec<bool>,
    /// The answer, after its line.
    answer: Option<&'a str>,
    /// Whether the tree is ordered, after the line for it.
    ordered: Option<bool>,
    /// Whether the writer of events can write the list, after the line for it.
    written: Option<bool>,
    /// The other forms of the tree, after their lines.
    forms: Forms<'a>,
    /// The checksum of its lines so far.
    checksum: Checksum,
}

impl<'a> Draft<'a> {
    /// Returns a case whose first line was read.
    fn new(alloc: Global, number: usize, name: &'a str) -> Draft<'a> {
        Draft {
            number,
            name,
            document: None,
            decoder: CaseDecoder::Usual,
            values: Values::AsInDocument,
            options: None,
            events: Vec::new(alloc),
            hidden: Vec::new(alloc),
            answer: None,
            ordered: None,
            written: None,
            forms: Forms::new(),
            checksum: Checksum::new().with_line(name),
        }
    }

    /// Adds the content of a line.
    fn add(&mut self, alloc: Global, line: Line<'a>) -> Result<(), LineError> {
        self.checksum = self.checksum.with_line(line.whole);
        let text = line.text;
        match line.kind {
            LineKind::Quoted => self.add_document(alloc, unquoted(alloc, text)),
            LineKind::Hexadecimal => self.add_document(alloc, bytes_of_digits(alloc, text)),
            LineKind::Columns => self.join_lines(text),
            LineKind::Decoder => self.add_decoder(text),
            LineKind::Values => self.add_values(text),
            LineKind::Spans => self.add_spans(alloc, text),
            LineKind::Event => self.add_events(events_of_line(alloc, text)),
            LineKind::Read => self.add_reading(alloc, text),
            LineKind::Answer => once(&mut self.answer, text),
            LineKind::Ordered => once_read(&mut self.ordered, answer_to(text)),
            LineKind::Written => once_read(&mut self.written, answer_to(text)),
            LineKind::Json => once(&mut self.forms.json, text),
            LineKind::Plain => once_read(&mut self.forms.plain, unquoted(alloc, text)),
            LineKind::Report => once_read(&mut self.forms.report, unquoted(alloc, text)),
            LineKind::Nothing | LineKind::Section | LineKind::Case => Err(LineError::Unread),
        }
    }

    /// Adds the document with these bytes.
    fn add_document(
        &mut self,
        alloc: Global,
        bytes: Result<Vec<u8>, LineError>,
    ) -> Result<(), LineError> {
        let document = Document::new(alloc, bytes?)?;
        once(&mut self.document, document)
    }

    /// Turns the document into one line, which must be done before the events are read.
    fn join_lines(&mut self, columns: &str) -> Result<(), LineError> {
        if columns != "bytes" || !self.events.is_empty() {
            return Err(LineError::Unread);
        }
        match &mut self.document {
            Some(document) => {
                document.join_lines();
                Ok(())
            }
            None => Err(LineError::Unread),
        }
    }

    /// Sets the decoder to the one with this name.
    fn add_decoder(&mut self, name: &str) -> Result<(), LineError> {
        if name == "blank" {
            self.decoder = CaseDecoder::Blank;
            Ok(())
        } else {
            Err(LineError::Unread)
        }
    }

    /// Sets how values are read, from this word.
    fn add_values(&mut self, name: &str) -> Result<(), LineError> {
        if name == "whole" {
            self.values = Values::Whole;
            Ok(())
        } else {
            Err(LineError::Unread)
        }
    }

    /// Adds the events of spans, which requires the document.
    fn add_spans(&mut self, alloc: Global, text: &str) -> Result<(), LineError> {
        let events = match &self.document {
            Some(document) => events_of_spans(alloc, document, text),
            None => Err(LineError::Unread),
        };
        self.add_events(events)
    }

    /// Adds the events of the tokenizer, which requires the document. The case then has its
    /// decoder, and reads values as it does.
    fn add_reading(&mut self, alloc: Global, word: &str) -> Result<(), LineError> {
        let options = options_of_word(word).ok_or(LineError::Unread)?;
        let text = match &self.document {
            Some(document) => document.text().ok_or(LineError::Unread)?,
            None => return Err(LineError::Unread),
        };
        let events = events_of_document(alloc, text, &options)?;
        self.hidden = hidden_bytes(alloc, text.as_bytes(), &events)?;
        self.decoder = CaseDecoder::Html;
        self.values = Values::Whole;
        once(&mut self.options, options)?;
        self.add_events(Ok(events))
    }

    /// Adds events, if they were read.
    fn add_events(&mut self, events: Result<Vec<Event>, LineError>) -> Result<(), LineError> {
        Ok(self.events.append(&mut events?)?)
    }

    /// Returns the case of a section, if nothing is missing.
    fn case(self, section: &'a str) -> Option<Case<'a>> {
        Some(Case {
            section,
            name: self.name,
            document: self.document?,
            decoder: self.decoder,
            values: self.values,
            options: self.options,
            events: self.events,
            hidden: self.hidden,
            answer: self.answer?,
            ordered: self.ordered,
            written: self.written,
            forms: self.forms,
            checksum: self.checksum,
        })
    }
}

/// Returns the event of a line.
fn events_of_line(alloc: Global, line: &str) -> Result<Vec<Event>, LineError> {
    Ok(events(alloc, line.as_bytes())?)
}

/// Returns what `yes` or `no` means.
fn answer_to(text: &str) -> Result<bool, LineError> {
    match text {
        "yes" => Ok(true),
        "no" => Ok(false),
        _ => Err(LineError::Unread),
    }
}

/// Stores the content of a line. A case has at most one line for it.
fn once<T: Drop>(place: &mut Option<T>, value: T) -> Result<(), LineError> {
    match place.replace(value) {
        None => Ok(()),
        Some(_) => Err(LineError::Unread),
    }
}

/// Stores what was read from a line, if it was read.
fn once_read<T: Drop>(place: &mut Option<T>, read: Result<T, LineError>) -> Result<(), LineError> {
    once(place, read?)
}
