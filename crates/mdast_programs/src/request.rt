//! What the arguments of `mdast_show` request, and what it prints if there is no document.

ghost use Rattle.std.specs.Prelude.{◌≡◌};
ghost use Rattle.mdast_programs.specs.Requests.{error_line, error_status, requested};

use crate::program::{OUT_OF_MEMORY, UNREADABLE, USAGE};

/// What `mdast_show` is requested to do.
#[derive(Debug, PartialEq, Eq, Drop)]
pub enum Request {
    /// Print the tree of the document in the file with this name.
    Show(String),
    /// Print the headings and the open references of the document in the file with this name.
    Check(String),
}

impl Request {
    /// Returns what the first three arguments after the name of the program request, or `None` if
    /// they do not match the usage line.
    ///
    /// A single argument names the document, whatever it is. With two, the first must be `--check`,
    /// and the second names the document. The form is ours.
    ///
    /// `hi.md` means to show `hi.md`, and `--check hi.md` means to check it.
    pub fn of(
        first: Option<String>,
        second: Option<String>,
        third: Option<String>,
    ) -> Option<Request>
        ensures { result ≡ requested first second third }
    {
        let first = first?;
        let Some(second) = second else {
            return Some(Request::Show(first));
        };
        if third.is_some() || first.as_str() != "--check" {
            return None;
        }
        Some(Request::Check(second))
    }
}

/// Why there is no document.
#[derive(Debug, Drop)]
pub enum DocumentError {
    /// The arguments do not match the usage line.
    Usage,
    /// The document cannot be read, for whatever reason, including that memory ran out.
    Unreadable,
    /// Memory ran out while the arguments were read.
    Memory,
}

impl DocumentError {
    /// Returns the line that the program prints for it.
    ///
    /// For wrong arguments it is the usage line, `usage: mdast_show [--check] DOC`.
    pub fn line(&self) -> &'static str
        ensures { result.now ≡ error_line self.now }
    {
        match self {
            DocumentError::Usage => USAGE,
            DocumentError::Unreadable => UNREADABLE,
            DocumentError::Memory => OUT_OF_MEMORY,
        }
    }

    /// Returns the exit status of the program: 3 if memory ran out for the arguments, and otherwise
    /// 2. The numbers are ours.
    ///
    /// For a document that cannot be read it is 2.
    pub fn status(&self) -> u8
        ensures { result ≡ error_status self.now }
    {
        match self {
            DocumentError::Usage | DocumentError::Unreadable => 2,
            DocumentError::Memory => 3,
        }
    }
}
