//! What the character references of the cases stand for.

use character_references::decoder::Decoder;
use character_references::html::HtmlReferences;
use markdown_tree::to_mdast::References;
use std::alloc::{AllocError, Global};

/// The decoder of a case.
#[derive(Clone, Copy)]
pub enum CaseDecoder {
    /// That of the program `mdast_show`.
    Usual,
    /// It knows one space for the empty value, and nothing else.
    Blank,
    /// That of the tokenizer, which knows the names of HTML.
    Html,
}

impl References for CaseDecoder {
    ghost use Rattle.mdast_cases.specs.Known.{known};

    ghost text = { known };

    fn decode(&self, alloc: Global, value: &str, marker: u8) -> Result<Option<String>, AllocError> {
        match self {
            CaseDecoder::Usual => Decoder.decode(alloc, value, marker),
            CaseDecoder::Blank if value == "" => Ok(Some(String::from_str(alloc, " ")?)),
            CaseDecoder::Blank => Ok(None),
            CaseDecoder::Html => HtmlReferences.decode(alloc, value, marker),
        }
    }
}
