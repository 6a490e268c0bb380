//! What the arguments request.

use crate::constructs::{NAMES, Switches, help};
use crate::form::Form;
use crate::source::Source;
use clap::error::ErrorKind;
use clap::{Arg, ArgAction, ArgMatches, Command, Error, value_parser};
use document_forms::TreeForm;
use markdown::{Constructs, ParseOptions};
use std::alloc::{AllocError, Global};
use std::io::IsTerminal;

/// The version of the program, and the kit that proves it.
const VERSION: &str = "0.1.0 (rattle-kit-13f logic dac8208d650f15bf)";

/// The width of a terminal that does not report one.
const TERMINAL_WIDTH: usize = 80;

/// The options that say what is printed: their names, the forms and the help.
const FORMS: [(&str, Form, &str); 8] = [
    (
        "json",
        Form::Tree(TreeForm::Json),
        "Print the tree as JSON, with the names and fields of mdast [default]",
    ),
    (
        "tree",
        Form::Tree(TreeForm::Drawn),
        "Print an outline of the tree for people, a line for each node",
    ),
    (
        "debug",
        Form::Tree(TreeForm::Debug),
        "Print the tree as Debug of Rust writes it",
    ),
    (
        "events",
        Form::Events,
        "Print the events of the tokenizer, a line for each",
    ),
    (
        "outline",
        Form::Tree(TreeForm::Outline),
        "Print the headings with their places",
    ),
    (
        "text",
        Form::Tree(TreeForm::PlainText),
        "Print the plain text",
    ),
    (
        "html",
        Form::Tree(TreeForm::Html),
        "Print HTML that is safe in a page, without the HTML of the document",
    ),
    (
        "check",
        Form::Tree(TreeForm::Warnings),
        "Print warnings, as linters do",
    ),
];

/// What the arguments request.
#[derive(Drop)]
pub struct Request {
    /// What is printed of each document.
    pub form: Form,
    /// The greatest number of characters in a line of the tree outline, if there is a limit.
    pub width: Option<usize>,
    /// How the documents are read.
    pub options: ParseOptions,
    /// Whether HTML of the document, and addresses of any scheme, pass into the printed HTML.
    pub is_unsafe: bool,
    /// Whether the tags that GFM disallows are written as text in HTML that passes.
    pub tag_filter: bool,
    /// Where the events come from, if they are not those of our tokenizer.
    pub events: Option<Source>,
    /// The documents, in order.
    pub documents: Vec<Source>,
}

/// Returns what the arguments request. The first of them is the name of the program.
///
/// The error says which argument is wrong, has the help or the version if it was requested, or says
/// that memory ran out.
pub fn read_arguments(rt: &HostRuntime, words: &[String]) -> Result<Request, Error> {
    let constructs = help(rt.alloc())?;
    let mut command = command(rt.alloc(), constructs.as_str())?;
    let matches = command.try_get_matches_from_mut(words)?;
    let request = requested(rt, &matches)?;
    match request.fault() {
        Some(fault) => Err(command.error(ErrorKind::ArgumentConflict, fault)?),
        None => Ok(request),
    }
}

/// Returns what the matches request, possible or not.
fn requested(rt: &HostRuntime, matches: &ArgMatches<'_>) -> Result<Request, AllocError> {
    let events = events(rt.alloc(), matches)?;
    let documents = documents(rt.alloc(), matches)?;
    Ok(Request {
        form: form(matches),
        width: width(rt, matches),
        options: options(matches),
        is_unsafe: matches.get_flag("unsafe"),
        tag_filter: matches.get_flag("tag-filter"),
        events,
        documents,
    })
}

impl Request {
    /// Returns what is printed of each document, where the HTML that passes is a form of its own.
    pub fn printed_form(&self) -> Form {
        match self.form {
            Form::Tree(TreeForm::Html) if self.tag_filter => Form::Tree(TreeForm::FilteredHtml),
            Form::Tree(TreeForm::Html) if self.is_unsafe => Form::Tree(TreeForm::UnsafeHtml),
            form => form,
        }
    }

    /// Returns why the request is impossible, if it is.
    fn fault(&self) -> Option<&'static str> {
        if self.is_unsafe && self.form != Form::Tree(TreeForm::Html) {
            return Some("'--unsafe' goes with '--html' alone");
        }
        if self.tag_filter && !self.is_unsafe {
            return Some("'--tag-filter' goes with '--unsafe' alone");
        }
        let events = self.events.as_ref()?;
        match self.documents.as_slice() {
            [document] if document == events => {
                Some("the document and its events cannot be read from one place")
            }
            [_] => None,
            _ => Some("the events of '--from-events' are those of one document"),
        }
    }
}

/// Returns the exit status for arguments with this error: 0 after the help and the version, 3 if
/// memory ran out, and otherwise 2.
pub fn status(error: &Error) -> u8 {
    match error.kind() {
        ErrorKind::OutOfMemory => 3,
        _ if error.use_stderr() => 2,
        _ => 0,
    }
}

/// Returns the arguments that the program accepts. `constructs` is the text about constructs at the
/// end of the help.
fn command<'a>(alloc: Global, constructs: &'a str) -> Result<Command<'a>, AllocError> {
    let command = Command::new(alloc, "mdast")
        .version(VERSION)
        .about("Prints the syntax trees of markdown documents.")
        .override_usage("mdast [OPTION]... [DOC]...")
        .after_help(constructs);
    let command = with_forms(alloc, command)?;
    let command = with_readings(alloc, command)?;
    let documents = Arg::new(alloc, "DOC")
        .help("Documents; '-' is standard input [default: -]")
        .action(ArgAction::Append)
        .num_args(0..);
    command.arg(documents)
}

/// Adds the options that say what is printed.
fn with_forms<'a>(alloc: Global, command: Command<'a>) -> Result<Command<'a>, AllocError> {
    let mut command = command;
    for (name, _, help) in FORMS {
        command = command.arg(flag(alloc, name, help).group("form")?)?;
    }
    let passing = "With '--html', keep the HTML of the document, and addresses of any scheme";
    let filter =
        "With '--unsafe', show the tags that GFM disallows as text: script, style, iframe and six more";
    command
        .arg(utf16(alloc)?)?
        .arg(flag(alloc, "unsafe", passing))?
        .arg(flag(alloc, "tag-filter", filter))?
        .arg(columns(alloc))
}

/// Returns the option for the width of the printed tree.
fn columns<'a>(alloc: Global) -> Arg<'a> {
    Arg::new(alloc, "width")
        .long("width")
        .value_name("COLUMNS")
        .help("Cut the lines of '--tree' to this width [default: 80 on a terminal, else none]")
        .value_parser(value_parser!(usize))
        .action(ArgAction::Set)
}

/// Returns the option for UTF-16 units, which is only allowed with JSON.
fn utf16<'a>(alloc: Global) -> Result<Arg<'a>, AllocError> {
    let help = "Count columns and offsets in UTF-16 units, as JavaScript does";
    let mut utf16 = flag(alloc, "utf16", help);
    for (name, form, _) in FORMS {
        if form != Form::Tree(TreeForm::Json) {
            utf16 = utf16.conflicts_with(name)?;
        }
    }
    Ok(utf16)
}

/// Adds the options that say how documents are read.
fn with_readings<'a>(alloc: Global, command: Command<'a>) -> Result<Command<'a>, AllocError> {
    let gfm = flag(alloc, "gfm", "Read GFM, without frontmatter and math").conflicts_with(
        "commonmark",
    )?;
    command
        .arg(flag(alloc, "commonmark", "Read CommonMark, without extensions"))?
        .arg(gfm)?
        .arg(construct(alloc, "with", "Read a construct of markdown as well"))?
        .arg(construct(alloc, "without", "Do not read a construct of markdown"))?
        .arg(from_events(alloc))
}

/// Returns the option for the file of the events.
fn from_events<'a>(alloc: Global) -> Arg<'a> {
    Arg::new(alloc, "from-events")
        .long("from-events")
        .value_name("FILE")
        .help("Take the events of the document from a file, a line for each")
        .action(ArgAction::Set)
}

/// Returns an option without a value.
fn flag<'a>(alloc: Global, name: &'a str, help: &'a str) -> Arg<'a> {
    Arg::new(alloc, name)
        .long(name)
        .help(help)
        .action(ArgAction::SetTrue)
}

/// Returns an option that names a construct, and may be given more than once.
fn construct<'a>(alloc: Global, name: &'a str, help: &'a str) -> Arg<'a> {
    Arg::new(alloc, name)
        .long(name)
        .value_name("CONSTRUCT")
        .help(help)
        .value_parser(NAMES.as_slice())
        .hide_possible_values(true)
        .action(ArgAction::Append)
}

/// Returns the requested form, or JSON if none is requested.
fn form(matches: &ArgMatches<'_>) -> Form {
    if matches.get_flag("utf16") {
        return Form::Tree(TreeForm::JsonUtf16);
    }
    for (name, form, _) in FORMS {
        if matches.get_flag(name) {
            return form;
        }
    }
    Form::Tree(TreeForm::Json)
}

/// Returns how wide the lines of an outline of a tree may be.
fn width(rt: &HostRuntime, matches: &ArgMatches<'_>) -> Option<usize> {
    match matches.get_one::<usize>("width") {
        Some(width) => Some(width),
        None => rt.stdout().is_terminal().then_some(TERMINAL_WIDTH),
    }
}

/// Returns where the events come from, if the option for it is given.
fn events(alloc: Global, matches: &ArgMatches<'_>) -> Result<Option<Source>, AllocError> {
    match matches.get_str("from-events") {
        Some(name) => Ok(Some(Source::named(alloc, name)?)),
        None => Ok(None),
    }
}

/// Returns how the documents are read: as GFM with frontmatter and math, unless the arguments say
/// otherwise.
fn options(matches: &ArgMatches<'_>) -> ParseOptions {
    let base = if matches.get_flag("commonmark") {
        Constructs::default()
    } else if matches.get_flag("gfm") {
        Constructs::gfm()
    } else {
        Constructs::everything()
    };
    let switches = Switches {
        on: matches.get_strs("with").unwrap_or(&[]),
        off: matches.get_strs("without").unwrap_or(&[]),
    };
    ParseOptions {
        constructs: switches.turned(&base),
        undefined_references: matches.get_flag("check"),
        ..ParseOptions::gfm()
    }
}

/// Returns the documents that are named, or standard input if none is.
fn documents(alloc: Global, matches: &ArgMatches<'_>) -> Result<Vec<Source>, AllocError> {
    let mut documents = Vec::new(alloc);
    for name in matches.get_strs("DOC").unwrap_or(&[]) {
        documents.push(Source::named(alloc, name)?)?;
    }
    if documents.is_empty() {
        documents.push(Source::Input)?;
    }
    Ok(documents)
}
