//! Lists that each content uses anew.

ghost use Rattle.std.specs.Prelude.{[], ◌≡◌};

use crate::brackets::Bracket;
use crate::text::Open;
use crate::token::Token;
use markdown_attention::delimiter::Delimiter;
use markdown_attention::run::Run;
use std::alloc::Global;
use std::mem;

/// The lists that the contents before this one have used. Their elements mean nothing: they are kept
/// for their memory alone.
#[derive(Drop)]
pub struct SpareLists {
    /// The bytes of a content whose lines do not stand in the document as they are.
    pub bytes: Vec<u8>,
    /// The tokens of a text.
    pub tokens: Vec<Token>,
    /// The runs of delimiters of a text.
    pub runs: Vec<Run>,
    /// What begins at each offset of a text.
    pub delimiters: Vec<Delimiter>,
    /// The open brackets of a text.
    pub brackets: Vec<Bracket>,
    /// The open constructs of a text.
    pub open: Vec<Open>,
}

impl SpareLists {
    /// Returns lists without memory.
    pub fn new(alloc: Global) -> SpareLists {
        SpareLists {
            bytes: Vec::new(alloc),
            tokens: Vec::new(alloc),
            runs: Vec::new(alloc),
            delimiters: Vec::new(alloc),
            brackets: Vec::new(alloc),
            open: Vec::new(alloc),
        }
    }
}

/// Takes a list, and returns it without its elements.
#[inline(always)]
pub fn take_cleared<T: Drop>(list: &mut Vec<T>, alloc: Global) -> Vec<T>
    ensures { result.items ≡ [] }
{
    let mut taken = mem::replace(list, Vec::new(alloc));
    taken.clear();
    taken
}
