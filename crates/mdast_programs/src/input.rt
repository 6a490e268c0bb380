//! Reads a whole input.

ghost use Rattle.std.specs.Prelude.{◌≡◌, IfOk, OnOk, IfSome, alloc_error};
ghost use Rattle.std.specs.Io.KnownBytes.{IsAtEnd};
ghost use Rattle.mdast_programs.specs.declared.input.ReadError.TheVariants.{Memory};

use std::alloc::{AllocError, Global};
use std::io::{ErrorKind, Read};

/// The maximum number of reads of one input.
const READS: u32 = 1_048_576;

/// Why an input was not read to its end.
#[derive(Debug, Drop)]
pub enum ReadError {
    /// A read failed, or none of the reads reached the end.
    Failed,
    /// Memory ran out.
    Memory(AllocError),
}

impl From<AllocError> for ReadError {
    ghost from_gives = { λ _ error. error ≡ Memory alloc_error };

    fn from(error: AllocError) -> ReadError {
        ReadError::Memory(error)
    }
}

/// Returns all bytes of an input.
///
/// It reads at most 1,048,576 times, at most 4,096 bytes each time. An interrupted read is
/// repeated, and counts. The error is `Failed` if another read fails or none of them reaches the
/// end, and `Memory` if memory runs out. The bound is ours.
///
/// An input that delivers `H`, then `i`, and then its end returns `Hi`.
pub fn read_all<R: Read>(alloc: Global, input: &mut R) -> Result<Vec<u8>, ReadError>
    ensures bytes { IfOk result (λ text. IfSome (R.remaining input.old) (λ all. text.items ≡ all)) }
    ensures end { OnOk result (IsAtEnd (R.remaining input.new)) }
{
    let mut text = Vec::new(alloc);
    let mut buffer = [0u8; 4096];
    for _ in 0..READS {
        match input.read(&mut buffer) {
            Ok(0) => return Ok(text),
            Ok(count) => text.extend_from_slice(&buffer[..count])?,
            Err(error) => {
                if error.kind() != ErrorKind::Interrupted {
                    return Err(ReadError::Failed);
                }
            }
        }
    }
    Err(ReadError::Failed)
}
