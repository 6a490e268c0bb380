//! Checksums of rows, which tell whether a row has changed since theorems were generated from it.
//!
//! A file of checksums has one line for each row of a table, in their order: its section, its first
//! line and the checksum of its lines. Lines that begin with `#` are comments.

use crate::case::Case;
use std::alloc::{AllocError, Global};

/// The checksum of lines: FNV-1a with 64 bits, over their bytes and the line feed after each.
#[derive(Clone, Copy)]
pub struct Checksum(u64);

impl Checksum {
    /// Returns the checksum of no lines.
    pub fn new() -> Checksum {
        Checksum(0xcbf2_9ce4_8422_2325)
    }

    /// Returns the checksum of these lines and one more.
    pub fn with_line(self, line: &str) -> Checksum {
        let mut sum = self;
        for byte in line.bytes() {
            sum = sum.with_byte(byte);
        }
        sum.with_byte(b'\n')
    }

    /// Returns the checksum of these bytes and one more.
    fn with_byte(self, byte: u8) -> Checksum {
        Checksum((self.0 ^ u64::from(byte)).wrapping_mul(0x0100_0000_01b3))
    }
}

/// Where a file of checksums first differs from a table.
#[derive(Clone, Copy)]
pub enum SumsDifference<'a> {
    /// At this row of the table.
    Row(&'a str),
    /// At this line of the file, after those of all rows.
    Line(&'a str),
}

/// Compares a file of checksums with the cases of a table.
pub fn sums_difference<'a>(
    alloc: Global,
    cases: &[Case<'a>],
    sums: &'a str,
) -> Result<Option<SumsDifference<'a>>, AllocError> {
    let mut lines = sums.lines().filter(|line| !line.starts_with('#'));
    for case in cases {
        let want = line_of_row(alloc, case)?;
        if lines.next() != Some(want.as_str()) {
            return Ok(Some(SumsDifference::Row(case.name)));
        }
    }
    Ok(lines.next().map(SumsDifference::Line))
}

/// Returns the line of a row in a file of checksums.
fn line_of_row(alloc: Global, case: &Case<'_>) -> Result<String, AllocError> {
    let Checksum(sum) = case.checksum;
    format!(in alloc; "{} {} {sum:016x}", case.section, case.name)
}
