//! Laws of the definitions. Each is the contract of a function that takes and returns nothing.

ghost use Rattle.std.specs.Prelude.{◌≡◌, List, ℕ, Some};
ghost use Rattle.markdown_json.specs.Strings.{escaped};
ghost use Rattle.markdown_json.specs.Unescaped.{unescaped};

/// An escaped text is read back unchanged (ours; how it is read is JSON's rule, RFC 8259).
///
/// The text of a quote and a line feed is escaped as `\"\n`, and read back as these two characters.
pub fn escapes_are_read_back()
    ensures { (text : List ℕ) → unescaped (escaped text) ≡ Some text }
{}
