//! Where a document, or its events, come from.

use std::alloc::{AllocError, Global};
use std::io::{self, Read};
use std::{fmt, fs};

/// Where a document, or its events, come from.
#[derive(Debug, PartialEq, Eq, Drop)]
pub enum Source {
    /// The file of this name.
    File(String),
    /// Standard input.
    Input,
}

impl Source {
    /// Returns the source that an argument names: `-` is standard input. The only error is that
    /// memory ran out.
    pub fn named(alloc: Global, name: &str) -> Result<Source, AllocError> {
        if name == "-" {
            return Ok(Source::Input);
        }
        Ok(Source::File(String::from_str(alloc, name)?))
    }

    /// Returns all its bytes.
    pub fn read(&self, rt: &HostRuntime) -> io::Result<Vec<u8>> {
        match self {
            Source::File(name) => fs::read(rt, name.as_str()),
            Source::Input => read_input(rt),
        }
    }

    /// Returns its name in messages.
    pub fn name(&self) -> &str {
        match self {
            Source::File(name) => name.as_str(),
            Source::Input => "<stdin>",
        }
    }
}

impl fmt::Display for Source {
    fn fmt<W: fmt::Write>(&self, f: &mut fmt::Formatter<W>) -> fmt::Result {
        f.write_str(self.name())
    }
}

/// Returns the bytes of standard input.
fn read_input(rt: &HostRuntime) -> io::Result<Vec<u8>> {
    let mut bytes = Vec::new(rt.alloc());
    rt.reader().read_to_end(&mut bytes)?;
    Ok(bytes)
}
