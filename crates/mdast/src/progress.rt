//! The progress of the program, on standard error if that is a terminal.

use crate::source::Source;
use std::io::IsTerminal;
use std::time::{Duration, Instant};

/// The size in bytes from which a document takes long to parse: about a second.
const LARGE: usize = 8 << 20;

/// Shows the progress of the program.
///
/// Nothing is shown if standard error is not a terminal, nor in the first second, unless a document
/// is large. Each line replaces the one before it.
#[derive(Drop)]
pub struct Progress {
    /// When the program started, if standard error is a terminal.
    start: Option<Instant>,
    /// How many documents there are.
    count: usize,
    /// The number of the current one, counted from 1.
    number: usize,
    /// Whether a line is on the terminal.
    is_shown: bool,
}

impl Progress {
    /// Returns the progress before the first of `count` documents.
    pub fn new(rt: &HostRuntime, count: usize) -> Progress {
        let start = if rt.stderr().is_terminal() {
            Instant::now(rt).ok()
        } else {
            None
        };
        Progress {
            start,
            count,
            number: 0,
            is_shown: false,
        }
    }

    /// Goes on to the next document.
    pub fn next(&mut self) {
        self.number = self.number.saturating_add(1);
    }

    /// Whether the current document is the last one.
    pub fn is_last(&self) -> bool {
        self.number >= self.count
    }

    /// Shows that a document of `size` bytes is being parsed.
    pub fn show(&mut self, rt: &HostRuntime, source: &Source, size: usize) {
        let is_long = size >= LARGE || self.is_late(rt);
        if self.start.is_some() && is_long {
            let (number, count) = (self.number, self.count);
            let _ = rt.eprint(format_args!(
                "\r\u{1b}[Kmdast: parsing {source} ({number} of {count})"
            ));
            self.is_shown = true;
        }
    }

    /// Removes the line.
    pub fn clear(&mut self, rt: &HostRuntime) {
        if self.is_shown {
            let _ = rt.eprint("\r\u{1b}[K");
            self.is_shown = false;
        }
    }

    /// Whether the program has been running for a second.
    fn is_late(&self, rt: &HostRuntime) -> bool {
        let Some(start) = &self.start else {
            return false;
        };
        match start.elapsed(rt) {
            Ok(elapsed) => elapsed >= Duration::from_secs(1),
            Err(_) => false,
        }
    }
}
