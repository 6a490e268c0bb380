//! The arguments of a program, and the document that one of them names.

ghost use Rattle.std.specs.Prelude.{◌≡◌, IfErr};
ghost use Rattle.mdast_programs.specs.declared.request.DocumentError.TheVariants.{Unreadable};

use crate::input::{ReadError, read_all};
use crate::request::DocumentError;
use std::alloc::AllocError;
use std::env;
use std::fs::File;
use std::io::ErrorKind;

/// Returns the first three arguments after the name of the program.
///
/// Fails with `DocumentError::Usage` if an argument is not UTF-8, and with `DocumentError::Memory`
/// if memory runs out.
pub fn arguments(rt: &HostRuntime) -> Result<[Option<String>; 3], DocumentError> {
    let mut arguments = match env::args(rt) {
        Ok(arguments) => arguments,
        Err(error) if error.kind() == ErrorKind::OutOfMemory => {
            return Err(DocumentError::Memory);
        }
        Err(_) => return Err(DocumentError::Usage),
    };
    let _program = arguments.next();
    let first = arguments.next();
    let second = arguments.next();
    Ok([first, second, arguments.next()])
}

/// Returns the bytes of the document in the file with this name.
///
/// Fails with `DocumentError::Unreadable` if the file cannot be read for any reason: it does not
/// exist, a read fails, or memory runs out. One error for all of these is our choice.
///
/// A name that no file has returns `Err(DocumentError::Unreadable)`.
pub fn document(rt: &HostRuntime, name: &str) -> Result<Vec<u8>, DocumentError>
    ensures { IfErr result (λ error. error ≡ Unreadable) }
{
    file(rt, name).map_err(|_| DocumentError::Unreadable)
}

/// Returns the bytes of the file with this name.
///
/// Fails with `ReadError::Failed` if the file cannot be opened or read, and with
/// `ReadError::Memory` if memory runs out.
///
/// A name that no file has returns `Err(ReadError::Failed)`.
pub fn file(rt: &HostRuntime, name: &str) -> Result<Vec<u8>, ReadError> {
    match File::open(rt, name) {
        Ok(mut file) => read_all(rt.alloc(), &mut file),
        Err(error) if error.kind() == ErrorKind::OutOfMemory => Err(ReadError::Memory(AllocError)),
        Err(_) => Err(ReadError::Failed),
    }
}
