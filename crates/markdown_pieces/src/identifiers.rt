//! The identifiers that a document defines.

use markdown_events::text::normalize_identifier;
use std::alloc::{AllocError, Global};
use std::collections::BTreeSet;
use std::str;

/// A label has at most this many characters (CommonMark).
const LONGEST_LABEL: usize = 999;

/// The identifiers that a document defines, for links and images, and for calls of footnotes.
///
/// Labels match if their identifiers are the same, by `markdown_events::text::normalize_identifier`
/// (CommonMark, matching of labels).
#[derive(Drop)]
pub struct Identifiers {
    /// Those of definitions.
    definitions: BTreeSet<String>,
    /// Those of footnote definitions.
    footnotes: BTreeSet<String>,
}

impl Identifiers {
    /// Returns the empty sets.
    pub fn new(alloc: Global) -> Identifiers {
        Identifiers {
            definitions: BTreeSet::new(alloc),
            footnotes: BTreeSet::new(alloc),
        }
    }

    /// Adds a definition by its label, `a` in `[a]: b`. The only error is that memory ran out.
    pub fn define(&mut self, alloc: Global, label: &[u8]) -> Result<(), AllocError> {
        insert(alloc, &mut self.definitions, label)
    }

    /// Adds a footnote definition by its label, `a` in `[^a]: b`. The only error is that memory ran out.
    pub fn define_footnote(&mut self, alloc: Global, label: &[u8]) -> Result<(), AllocError> {
        insert(alloc, &mut self.footnotes, label)
    }

    /// Whether a definition has a label that matches this one. The only error is that memory ran
    /// out.
    ///
    /// With `[a b]: c` in the document it is true for `A⏎B`.
    pub fn defines(&self, alloc: Global, label: &[u8]) -> Result<bool, AllocError> {
        contains(alloc, &self.definitions, label)
    }

    /// Whether a footnote definition has a label that matches this one, without the caret. The only
    /// error is that memory ran out.
    ///
    /// With `[^a]: b` in the document it is true for `A`.
    pub fn defines_footnote(&self, alloc: Global, label: &[u8]) -> Result<bool, AllocError> {
        contains(alloc, &self.footnotes, label)
    }
}

/// Adds the identifier of a label. A label that is not UTF-8 has none.
fn insert(alloc: Global, set: &mut BTreeSet<String>, label: &[u8]) -> Result<(), AllocError> {
    if let Ok(label) = str::from_utf8(label) {
        set.insert(normalize_identifier(alloc, label)?)?;
    }
    Ok(())
}

/// Whether the set has the identifier of a label. An empty one is not an identifier.
fn contains(alloc: Global, set: &BTreeSet<String>, label: &[u8]) -> Result<bool, AllocError> {
    if set.is_empty() || label.len() > 4 * LONGEST_LABEL {
        return Ok(false);
    }
    match str::from_utf8(label) {
        Ok(label) => {
            let identifier = normalize_identifier(alloc, label)?;
            Ok(is_label(label, identifier.as_str()) && set.contains(identifier.as_str()))
        }
        Err(_) => Ok(false),
    }
}

/// Whether a text with this identifier may be a label: it is not blank, and short enough.
fn is_label(label: &str, identifier: &str) -> bool {
    !identifier.is_empty() && label.chars().count() <= LONGEST_LABEL
}
