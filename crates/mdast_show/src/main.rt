//! Prints the syntax tree of a document and the events of its tokenizer, or what a check finds in
//! it.
//!
//! `mdast_show DOC < EVENTS` reads the document from the file `DOC`, and event lines from standard
//! input. It prints one line: the tree, or what is wrong. `mdast_show --check DOC < EVENTS` prints
//! one line for each heading, and then one for each reference that no definition answers.
#![tactic(auto)]

use mdast_programs::check::run_check;
use mdast_programs::document::{arguments, document};
use mdast_programs::output::say;
use mdast_programs::request::{DocumentError, Request};
use mdast_programs::run::run_whole;
use std::io::{self, Write};
use std::process::ExitCode;

fn main(rt: HostRuntime) -> ExitCode {
    let mut output = io::writer(&rt);
    ExitCode::from(match answer(&rt, &mut output) {
        Ok(status) => status,
        Err(error) => say(&mut output, error.line(), error.status()),
    })
}

/// Does what the arguments request, and returns the exit status.
fn answer<O: Write>(rt: &HostRuntime, output: &mut O) -> Result<u8, DocumentError> {
    match request(rt)? {
        Request::Show(name) => {
            let doc = document(rt, name.as_str())?;
            let outcome = run_whole(rt.alloc(), doc.as_slice(), &mut rt.reader(), output);
            Ok(outcome.forget())
        }
        Request::Check(name) => {
            let doc = document(rt, name.as_str())?;
            Ok(run_check(rt.alloc(), doc.as_slice(), &mut rt.reader(), output))
        }
    }
}

/// Returns what the arguments of the program request.
fn request(rt: &HostRuntime) -> Result<Request, DocumentError> {
    let [first, second, third] = arguments(rt)?;
    Request::of(first, second, third).ok_or(DocumentError::Usage)
}
