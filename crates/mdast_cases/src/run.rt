//! One run of the program over the files that its arguments name.

use crate::case::Case;
use crate::counts::Counts;
use crate::replay::difference;
use crate::sums::{SumsDifference, sums_difference};
use crate::table::{TableError, cases};
use mdast_programs::output::say;
use std::alloc::{AllocError, AllocFailed, Global};
use std::io::Write;

/// What is printed if memory ran out. Printing it allocates no memory.
const OUT_OF_MEMORY: &str = "mdast_replay: out of memory\n";

/// A file that an argument names.
#[derive(Debug, Drop)]
pub struct Input {
    /// The argument.
    pub name: String,
    /// The bytes of the file.
    pub bytes: Vec<u8>,
}

/// Whether everything passed.
#[derive(Clone, Copy, PartialEq, Eq, Debug)]
pub enum Verdict {
    /// Everything passed.
    Right,
    /// A case or a checksum failed.
    Wrong,
}

impl Verdict {
    /// Returns the exit status of the program.
    fn status(self) -> u8 {
        match self {
            Verdict::Right => 0,
            Verdict::Wrong => 1,
        }
    }

    /// Returns the verdict of two parts. This is one of them.
    fn and(self, other: Verdict) -> Verdict {
        match self {
            Verdict::Right => other,
            Verdict::Wrong => Verdict::Wrong,
        }
    }
}

/// Why a run has no verdict.
#[derive(Debug, Drop)]
pub enum RunError {
    /// The arguments name no table before a file of checksums, or no file.
    Usage,
    /// The file of this name cannot be read.
    UnreadFile(String),
    /// In the file of this name, the line with this number, counted from 1, cannot be read.
    UnreadLine(String, usize),
    /// A line cannot be written.
    Unwritten,
    /// Memory ran out.
    Memory(AllocError),
}

impl From<AllocError> for RunError {
    fn from(error: AllocError) -> RunError {
        RunError::Memory(error)
    }
}

impl<T: Drop> From<AllocFailed<T>> for RunError {
    fn from(error: AllocFailed<T>) -> RunError {
        RunError::Memory(AllocError::from(error))
    }
}

impl RunError {
    /// Returns the exit status of the program.
    fn status(&self) -> u8 {
        match self {
            RunError::Memory(_) => 3,
            _ => 2,
        }
    }

    /// Returns the line that says so. If no line can be written it is empty.
    fn line(&self, alloc: Global) -> Result<String, AllocError> {
        match self {
            RunError::Usage => String::from_str(
                alloc,
                "usage: mdast_replay FILE.., each a table, or the .sums of the table before it\n",
            ),
            RunError::UnreadFile(name) => format!(in alloc; "mdast_replay: cannot read {name}\n"),
            RunError::UnreadLine(name, number) => {
                format!(in alloc; "mdast_replay: line {number} of {name} cannot be read\n")
            }
            RunError::Unwritten => Ok(String::new(alloc)),
            RunError::Memory(_) => String::from_str(alloc, OUT_OF_MEMORY),
        }
    }
}

/// Returns the exit status of a run with this result. If there is no verdict, it writes the line
/// that says why.
pub fn status<O: Write>(alloc: Global, verdict: Result<Verdict, RunError>, output: &mut O) -> u8 {
    match verdict {
        Ok(verdict) => verdict.status(),
        Err(error) => match error.line(alloc) {
            Ok(line) => say(output, line.as_str(), error.status()),
            Err(_) => say(output, OUT_OF_MEMORY, 3),
        },
    }
}

/// A table that was read.
#[derive(Drop)]
struct Table<'a> {
    /// The name of its file.
    name: &'a str,
    /// Its cases.
    cases: Vec<Case<'a>>,
}

impl<'a> Table<'a> {
    /// Returns the table in a file.
    fn read(alloc: Global, input: &'a Input) -> Result<Table<'a>, RunError> {
        let name = input.name.as_str();
        match cases(alloc, input.bytes.as_slice()) {
            Ok(cases) => Ok(Table { name, cases }),
            Err(TableError::Unread(number)) => {
                Err(RunError::UnreadLine(String::from_str(alloc, name)?, number))
            }
            Err(TableError::Memory(error)) => Err(RunError::Memory(error)),
        }
    }
}

/// Replays the tables among the files, and compares the files of checksums, whose names end in
/// `.sums`, with the table before them.
///
/// It writes one line for each file, and before it one for each case that fails. If all cases of a
/// table pass, its line says how much was compared for those with a tree: trees with their copies,
/// forms of trees, lists cut while a span is open, and pairs of swapped exits.
pub fn run<O: Write>(alloc: Global, inputs: &[Input], output: &mut O) -> Result<Verdict, RunError> {
    let mut verdict = Verdict::Right;
    let mut last_table = None;
    for input in inputs {
        if input.name.ends_with(".sums") {
            let table = last_table.as_ref().ok_or(RunError::Usage)?;
            verdict = verdict.and(compare(alloc, input, table, output)?);
        } else {
            let table = Table::read(alloc, input)?;
            verdict = verdict.and(replay(alloc, &table, output)?);
            last_table = Some(table);
        }
    }
    Ok(verdict)
}

/// Replays the cases of a table.
fn replay<O: Write>(alloc: Global, table: &Table<'_>, output: &mut O) -> Result<Verdict, RunError> {
    let mut wrong: usize = 0;
    let mut counts = Counts::new();
    for case in &table.cases {
        if let Some(difference) = difference(alloc, case, &mut counts)? {
            wrong = wrong.saturating_add(1);
            write(
                output,
                difference_line(alloc, table.name, difference.as_str()),
            )?;
        }
    }
    write(output, count_line(alloc, table, wrong, counts))?;
    Ok(if wrong == 0 {
        Verdict::Right
    } else {
        Verdict::Wrong
    })
}

/// Returns the line of a case that fails.
fn difference_line(alloc: Global, name: &str, difference: &str) -> Result<String, AllocError> {
    format!(in alloc; "{name}: {difference}\n")
}

/// Returns the line of a table with this number of failed cases, and what was compared.
fn count_line(
    alloc: Global,
    table: &Table<'_>,
    wrong: usize,
    counts: Counts,
) -> Result<String, AllocError> {
    let name = table.name;
    let count = table.cases.len();
    if wrong == 0 {
        let compared = counts.text(alloc)?;
        format!(in alloc; "{name}: {count} cases, each as it must be: {compared}\n")
    } else {
        format!(in alloc; "{name}: {count} cases, {wrong} not as they must be\n")
    }
}

/// Compares a file of checksums with a table.
fn compare<O: Write>(
    alloc: Global,
    input: &Input,
    table: &Table<'_>,
    output: &mut O,
) -> Result<Verdict, RunError> {
    let name = input.name.as_str();
    let Ok(sums) = str::from_utf8(input.bytes.as_slice()) else {
        return Err(RunError::UnreadFile(String::from_str(alloc, name)?));
    };
    let difference = sums_difference(alloc, table.cases.as_slice(), sums)?;
    write(output, sums_line(alloc, name, table, difference))?;
    Ok(match difference {
        None => Verdict::Right,
        Some(_) => Verdict::Wrong,
    })
}

/// Returns the line of a file of checksums, which says how it differs from a table, if it does.
fn sums_line(
    alloc: Global,
    name: &str,
    table: &Table<'_>,
    difference: Option<SumsDifference<'_>>,
) -> Result<String, AllocError> {
    let count = table.cases.len();
    let rows = table.name;
    match difference {
        None => format!(in alloc; "{name}: {count} rows, as in {rows}\n"),
        Some(SumsDifference::Row(row)) => format!(in alloc; "{name}: {row} is not as in {rows}\n"),
        Some(SumsDifference::Line(line)) => format!(in alloc; "{name}: {line} is not in {rows}\n"),
    }
}

/// Writes a line.
fn write<O: Write>(output: &mut O, line: Result<String, AllocError>) -> Result<(), RunError> {
    let line = line?;
    match output.write_all(line.as_bytes()) {
        Ok(()) => Ok(()),
        Err(_) => Err(RunError::Unwritten),
    }
}
