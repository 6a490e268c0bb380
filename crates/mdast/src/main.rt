//! Prints the syntax trees of markdown documents, or output derived from them.
//!
//! `mdast [OPTION]... [DOC]...` reads each document from a file, or from standard input if DOC is
//! `-` or none is given. It prints the tree as JSON, with the names and fields of mdast, or what an
//! option requests: an outline of the tree, the events, the headings, the plain text, or the
//! warnings of a linter. `mdast --help` lists the options.
//!
//! Results go to standard output and messages to standard error. The status is 0 if everything that
//! was requested was printed. It is 1 if `--check` found something, or if the events of
//! `--from-events` have no tree. It is 2 if the arguments are wrong, a document cannot be read or
//! the output cannot be written, and 3 if memory ran out. Of several documents the greatest counts.
#![tactic(auto)]

mod arguments;
mod constructs;
mod error;
mod form;
mod messages;
mod progress;
mod screen;
mod source;
mod task;
#[cfg(test)]
mod tests;

use crate::arguments::{read_arguments, status};
use crate::messages::{out_of_memory, unwritten, without_arguments};
use clap::Error;
use std::env;
use std::process::ExitCode;

fn main(rt: HostRuntime) -> ExitCode {
    ExitCode::from(match env::args(&rt) {
        Ok(arguments) => match arguments.collect(rt.alloc()) {
            Ok(words) => answer(&rt, &words),
            Err(_) => out_of_memory(&rt),
        },
        Err(error) => without_arguments(&rt, &error),
    })
}

/// Does what the arguments request, and returns the status.
fn answer(rt: &HostRuntime, words: &Vec<String>) -> u8 {
    match read_arguments(rt, words.as_slice()) {
        Ok(request) => task::run(rt, &request),
        Err(error) => end(rt, &error),
    }
}

/// Prints the help, the version, or what is wrong with the arguments, and returns the status.
fn end(rt: &HostRuntime, error: &Error) -> u8 {
    match error.print(rt) {
        Err(failure) if !error.use_stderr() => unwritten(rt, &failure),
        _ => status(error),
    }
}
