//! A case of a table.

use crate::decoder::CaseDecoder;
use crate::document::Document;
use crate::sums::Checksum;
use markdown::ParseOptions;
use markdown_nodes::event::Event;
use markdown_tree::to_mdast::Values;

/// A list of events over a document, and the expected result of `compile`.
#[derive(Drop)]
pub struct Case<'a> {
    /// The section that it is in.
    pub section: &'a str,
    /// Its first line, which names it.
    pub name: &'a str,
    /// The document.
    pub document: Document,
    /// What its character references stand for.
    pub decoder: CaseDecoder,
    /// How values are read.
    pub values: Values,
    /// How the tokenizer reads the document, if the events are its own.
    pub options: Option<ParseOptions>,
    /// The events.
    pub events: Vec<Event>,
    /// A flag for each byte that says whether it is hidden, if the events are the tokenizer's.
    pub hidden: Vec<bool>,
    /// The tree as Debug prints it, after `= `, or the rule and the place of the refusal, after `! `.
    pub answer: &'a str,
    /// Whether its tree is ordered, if a line says so.
    pub ordered: Option<bool>,
    /// Whether the writer of events can write its list, if a line says so.
    pub written: Option<bool>,
    /// The other forms of its tree, if lines have them.
    pub forms: Forms<'a>,
    /// The checksum of its lines.
    pub checksum: Checksum,
}

/// The forms of a tree other than its Debug form.
#[derive(Drop)]
pub struct Forms<'a> {
    /// The tree as JSON.
    pub json: Option<&'a str>,
    /// Its plain text.
    pub plain: Option<Vec<u8>>,
    /// The lines of its report.
    pub report: Option<Vec<u8>>,
}

impl Forms<'_> {
    /// Returns the forms before any line is read.
    pub fn new() -> Forms<'static> {
        Forms {
            json: None,
            plain: None,
            report: None,
        }
    }
}
