//! Replays tables of cases. Some cases are lists of events over documents with the expected result
//! of `compile`; others are documents with the expected tree of `to_mdast`. A tree must be ordered
//! if the offsets of the events never go back, and otherwise as the table says.
//!
//! `mdast_replay FILE..` reads each file: a table or, if its name ends in `.sums`, the checksums of
//! the table before it. It prints one line for each file, and one for each case that fails. The
//! line of a table whose cases all pass says how much was compared. The exit status is 0 if
//! everything passed, 1 if something failed, 2 if the arguments are wrong or a file cannot be read,
//! and 3 if memory ran out.
#![tactic(auto)]

use mdast_cases::run::{Input, RunError, run, status};
use mdast_programs::document::file;
use mdast_programs::input::ReadError;
use std::alloc::AllocError;
use std::env;
use std::io::{self, ErrorKind};
use std::process::ExitCode;

fn main(rt: HostRuntime) -> ExitCode {
    let mut output = io::writer(&rt);
    let verdict = match inputs(&rt) {
        Ok(inputs) => run(rt.alloc(), inputs.as_slice(), &mut output),
        Err(error) => Err(error),
    };
    ExitCode::from(status(rt.alloc(), verdict, &mut output))
}

/// Returns the files that the arguments name.
fn inputs(rt: &HostRuntime) -> Result<Vec<Input>, RunError> {
    let mut arguments = match env::args(rt) {
        Ok(arguments) => arguments,
        Err(error) if error.kind() == ErrorKind::OutOfMemory => {
            return Err(RunError::Memory(AllocError));
        }
        Err(_) => return Err(RunError::Usage),
    };
    let _program = arguments.next();
    let mut inputs = Vec::new(rt.alloc());
    for name in arguments {
        inputs.push(input(rt, name)?)?;
    }
    if inputs.is_empty() {
        return Err(RunError::Usage);
    }
    Ok(inputs)
}

/// Returns the file with this name.
fn input(rt: &HostRuntime, name: String) -> Result<Input, RunError> {
    match file(rt, name.as_str()) {
        Ok(bytes) => Ok(Input { name, bytes }),
        Err(ReadError::Memory(error)) => Err(RunError::Memory(error)),
        Err(ReadError::Failed) => Err(RunError::UnreadFile(name)),
    }
}
