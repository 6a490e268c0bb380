//! Why a span was not accepted.

ghost use Rattle.std.specs.Prelude.{◌≡◌, alloc_error};
ghost use Rattle.markdown_acceptance.specs.declared.error.WriteError.TheVariants.{Memory};

use std::alloc::{AllocError, AllocFailed};

/// Why nothing was written (ours).
///
/// A label at the root of a document is a `WriteError::Misfit`.
#[derive(Debug, Drop)]
pub enum WriteError {
    /// Memory ran out.
    Memory(AllocError),
    /// The grammar does not accept such a span here, or the document has no room for it.
    Misfit,
}

impl From<AllocError> for WriteError {
    ghost from_gives = { λ _ error. error ≡ Memory alloc_error };

    fn from(error: AllocError) -> WriteError {
        WriteError::Memory(error)
    }
}

impl<T: Drop> From<AllocFailed<T>> for WriteError {
    ghost from_gives = { λ _ error. error ≡ Memory alloc_error };

    fn from(error: AllocFailed<T>) -> WriteError {
        WriteError::Memory(AllocError::from(error))
    }
}
