//! The forms of a tree.

/// What is printed of a tree.
#[derive(Clone, Copy, PartialEq, Eq, Debug)]
pub enum TreeForm {
    /// JSON, and a line feed: [`JsonPieces`](markdown_json::JsonPieces).
    Json,
    /// The same, with columns and offsets in UTF-16 units.
    JsonUtf16,
    /// A line for each node, for people: [`TreeLines`](crate::TreeLines).
    Drawn,
    /// The text that Debug writes, and a line feed.
    Debug,
    /// The headings, one on each line: [`outline`](mdast_util::outline::outline).
    Outline,
    /// The text without its markup: [`plain_text`](mdast_util::plain_text::plain_text).
    PlainText,
    /// HTML that is safe in a page: [`to_html`](markdown_html::to_html).
    Html,
    /// HTML with the HTML of the document, and addresses of any scheme:
    /// [`to_unsafe_html`](markdown_html::to_unsafe_html).
    UnsafeHtml,
    /// The same, with the tags that GFM disallows as text.
    FilteredHtml,
    /// The warnings of a linter, one on each line, each after the name of the document.
    Warnings,
}

/// What is asked for of a document.
#[derive(Clone, Copy, Debug)]
pub struct Asked<'a> {
    /// What is printed of its tree.
    pub form: TreeForm,
    /// The name of the document in its warnings.
    pub name: &'a str,
    /// The greatest number of characters in a drawn line, if there is a limit.
    pub width: Option<usize>,
}
