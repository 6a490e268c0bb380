//! Messages that are about no document.

use std::alloc::AllocError;
use std::env::{Env, FillError};
use std::io::{self, ErrorKind};

/// The longest argument of Linux, in bytes.
const LONGEST_ARGUMENT: usize = 131_072;

/// The code of the system for a file that is not open for writing.
const NOT_OPEN: i32 = 9;

/// Reports why there are no arguments, and returns the status: 3 if memory ran out, and otherwise 2.
pub fn without_arguments(rt: &HostRuntime, error: &io::Error) -> u8 {
    if error.kind() == ErrorKind::OutOfMemory {
        return out_of_memory(rt);
    }
    match first_not_utf8(rt) {
        Ok(Some(argument)) => {
            let _ = rt.eprintln(format_args!("mdast: the argument '{argument}' is not UTF-8"));
            2
        }
        Ok(None) => {
            let _ = rt.eprintln(format_args!("mdast: the arguments cannot be read: {error}"));
            2
        }
        Err(_) => out_of_memory(rt),
    }
}

/// Reports that memory ran out, and returns the status.
pub fn out_of_memory(rt: &HostRuntime) -> u8 {
    let _ = rt.eprintln("mdast: out of memory");
    3
}

/// Reports why standard output cannot be written, and returns the status. If its reader has closed it,
/// nothing is wrong.
pub fn unwritten(rt: &HostRuntime, error: &io::Error) -> u8 {
    if error.kind() == ErrorKind::BrokenPipe {
        return 0;
    }
    let _ = match error.raw_os_error() {
        Some(NOT_OPEN) => rt.eprintln("mdast: standard output: it is closed"),
        _ => rt.eprintln(format_args!("mdast: standard output: {error}")),
    };
    2
}

/// Returns the first argument that is not UTF-8, with U+FFFD in place of what is no character.
fn first_not_utf8(rt: &HostRuntime) -> Result<Option<String>, AllocError> {
    let mut buffer = Vec::new(rt.alloc());
    buffer.resize(LONGEST_ARGUMENT, 0)?;
    for index in 0..usize::MAX {
        match rt.arg(index, &mut buffer) {
            Ok(size) => {
                let argument = &buffer[..size];
                if str::from_utf8(argument).is_err() {
                    return Ok(Some(String::from_utf8_lossy(rt.alloc(), argument)?));
                }
            }
            Err(FillError::TooLong) => {}
            Err(FillError::NotPresent) => break,
        }
    }
    Ok(None)
}
