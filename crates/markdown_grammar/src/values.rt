//! How the texts of a tree are read from the document.

/// What the bytes of a span become in a text or an address of the tree.
///
/// Events may split a tab: a container takes some of its columns, and the span after it begins
/// within the tab, at a point with virtual spaces. A document may also have NUL bytes. The crate
/// `markdown` drops the columns of the tab that are left, and keeps NUL. CommonMark has spaces for
/// these columns (tabs), and U+FFFD for NUL (insecure characters).
///
/// In `>→→foo`, where `→` is a tab, the code is `foo` as in the document, and `␠␠foo` whole.
#[derive(Clone, Copy, PartialEq, Eq, Debug)]
pub enum Values {
    /// The bytes of the span, as the crate `markdown` reads them.
    AsInDocument,
    /// The columns of a split tab as spaces, and U+FFFD for each NUL, as in CommonMark.
    Whole,
}
