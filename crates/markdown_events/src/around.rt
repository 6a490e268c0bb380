//! The context that well-formedness depends on. For the crates of this repository.

ghost use Rattle.std.specs.Prelude.{◌≡◌};
ghost use Rattle.markdown_events.specs.Around.{in_the_open, may_begin, under};

use crate::role::{Role, TransparentKind};

/// The context of a span that well-formedness depends on (ours). It is for the crates of this
/// repository; you do not need it to compile events.
///
/// In a `GfmTableDelimiterRow`, `in_row` is true at any depth, and no other such row may begin.
#[derive(Clone, Copy, PartialEq, Eq, Debug)]
pub struct Around {
    /// Whether the innermost open span may contain no span.
    pub in_sealed: bool,
    /// Whether a delimiter row is open.
    pub in_row: bool,
    /// Whether a delimiter cell value is open.
    pub in_value: bool,
}

impl Around {
    /// Returns the context in which no span is open.
    ///
    /// A span of any role may begin there.
    pub fn in_the_open() -> Around
        ensures { result ≡ in_the_open }
    {
        Around {
            in_sealed: false,
            in_row: false,
            in_value: false,
        }
    }

    /// Whether a span of the role may begin here. None may begin directly in a span that is sealed
    /// ([`Role::is_sealed`]), no delimiter row inside a delimiter row, and no delimiter cell value
    /// inside a delimiter cell value.
    ///
    /// In a line ending, no span may begin.
    #[inline]
    pub fn allows(self, role: Role) -> bool
        ensures { result ≡ may_begin self role }
    {
        match role {
            Role::Transparent(TransparentKind::DelimiterRow) => !self.in_sealed && !self.in_row,
            Role::Transparent(TransparentKind::DelimiterCellValue) => !self.in_sealed
                && !self.in_value,
            _ => !self.in_sealed,
        }
    }

    /// Returns the context inside a span of this role that begins here.
    ///
    /// In a delimiter row with no span around it, `in_row` alone is true.
    #[inline]
    pub fn inside(self, role: Role) -> Around
        ensures { result ≡ under self role }
    {
        match role {
            Role::Transparent(TransparentKind::DelimiterRow) => Around {
                in_sealed: false,
                in_row: true,
                in_value: self.in_value,
            },
            Role::Transparent(TransparentKind::DelimiterCellValue) => Around {
                in_sealed: false,
                in_row: self.in_row,
                in_value: true,
            },
            _ => Around {
                in_sealed: role.is_sealed(),
                in_row: self.in_row,
                in_value: self.in_value,
            },
        }
    }
}
