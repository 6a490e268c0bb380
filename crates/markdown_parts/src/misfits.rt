//! The rule that is violated if an item may not be where it is.

ghost use Rattle.std.specs.Prelude.{◌≡◌, not};
ghost use Rattle.markdown_parts.specs.PartsSoFar.{error_if};
ghost use Rattle.markdown_grammar.specs.declared.error_kind.ErrorKind.TheVariants.{Misplaced, Repeated};

use markdown_grammar::error_kind::ErrorKind;

/// Returns the rule that is violated by a part that may occur once, if it has occurred.
pub fn at_most_one(has_stood: bool) -> Option<ErrorKind>
    ensures { result ≡ error_if has_stood Repeated }
{
    if has_stood {
        Some(ErrorKind::Repeated)
    } else {
        None
    }
}

/// Returns the rule that is violated by an item, if the span does not accept it.
pub fn only(is_taken: bool) -> Option<ErrorKind>
    ensures { result ≡ error_if (not is_taken) Misplaced }
{
    if is_taken {
        None
    } else {
        Some(ErrorKind::Misplaced)
    }
}
