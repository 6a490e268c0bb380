//! The characters beside a run of delimiters, and what the run can therefore open and close
//! (CommonMark).

ghost use Rattle.std.specs.Prelude.{◌≡◌};
ghost use Rattle.markdown_attention.specs.Flanking as page;

use crate::character_kind::{CharacterKind, kind_after, kind_before};

/// The kinds of the characters beside a run of delimiters.
///
/// The run in `a* b` has [`CharacterKind::Other`] before it and [`CharacterKind::Whitespace`] after it.
#[derive(Clone, Copy, PartialEq, Eq, Debug)]
pub struct Flanks {
    /// The kind of the character before the run.
    pub before: CharacterKind,
    /// The kind of the character after it.
    pub after: CharacterKind,
}

impl Flanks {
    /// Returns the flanks of a run between two texts.
    ///
    /// Between `a` and ` b` they are [`CharacterKind::Other`] and [`CharacterKind::Whitespace`].
    pub fn between(front: &[u8], rest: &[u8]) -> Flanks
        ensures { page.Beside front.now rest.now result.before result.after }
    {
        Flanks {
            before: kind_before(front),
            after: kind_after(rest),
        }
    }

    /// Whether a run of this marker can open emphasis (CommonMark, rules 1, 2, 5 and 6).
    ///
    /// The run in ` *a` can, and the one in `a_b` cannot.
    pub fn can_open(self, marker: u8) -> bool
        ensures { result ≡ page.can_open marker self.before self.after }
    {
        self.is_left_flanking()
            && (marker != b'_'
                || !self.is_right_flanking()
                || self.before == CharacterKind::Punctuation)
    }

    /// Whether a run of this marker can close emphasis (CommonMark, rules 3, 4, 7 and 8).
    ///
    /// The run in `a* ` can, and the one in `a_b` cannot.
    pub fn can_close(self, marker: u8) -> bool
        ensures { result ≡ page.can_close marker self.before self.after }
    {
        self.is_right_flanking()
            && (marker != b'_'
                || !self.is_left_flanking()
                || self.after == CharacterKind::Punctuation)
    }

    /// Whether the run is left-flanking: it leans on what follows it.
    fn is_left_flanking(self) -> bool
        ensures { result ≡ page.is_left_flanking self.before self.after }
    {
        self.after != CharacterKind::Whitespace
            && (self.after == CharacterKind::Other || self.before != CharacterKind::Other)
    }

    /// Whether the run is right-flanking: it leans on what comes before it.
    fn is_right_flanking(self) -> bool
        ensures { result ≡ page.is_right_flanking self.before self.after }
    {
        let turned = Flanks {
            before: self.after,
            after: self.before,
        };
        turned.is_left_flanking()
    }
}
